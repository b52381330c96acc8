// The shifts, place by place.
ghost use Rattle.std.specs.Prelude.{◌≡◌, ℕ, ◌-◌, ◌^◌, ◌≤◌, ◌<◌};
ghost use Rattle.little.specs.Width.{bits_of};
ghost use Rattle.flags.specs.Width.{weighed};
ghost use Rattle.alu.specs.inner.Place.{leftward, comes_in, Goes};
ghost use Rattle.alu.specs.Shift.{places_of, shifted, joined, left_of, right_of, one_place, shift_by, shift_of};

use crate::Shift;
use crate::even::{marks, parity};
use flags::Computed;
use flags::width::{judged, low, one, top};
use little::Size;

// A value, and the bit that was shifted out of it last.
#[derive(Clone, Copy)]
struct Shifted {
    value: u32,
    out: bool,
}

// One place to the left: the top bit, whose weight is given, goes out, and what is below it goes up.
fn left(top: u32, x: u32) -> Shifted
    requires { (0 < top) × (top ≤ 2147483648) }
    ensures { (k : ℕ) → 0 < k → top ≡ 2 ^ (k - 1) → result ≡ left_of k x }
{
    Shifted {
        value: (x & (top - 1)) * 2,
        out: top <= x,
    }
}

// One place to the right, with what comes in at the top.
fn right(x: u32, above: u32) -> Shifted
    requires { above ≤ 2147483648 }
    ensures { result ≡ right_of x above }
{
    Shifted {
        value: x / 2 + above,
        out: x % 2 == 1,
    }
}

// One place.
fn place(goes_left: bool, top: u32, above: u32, x: u32) -> Shifted
    requires { ((0 < top) × (top ≤ 2147483648)) × (above ≤ 2147483648) }
    ensures { (w : Shift) (k : ℕ) → Goes w k x goes_left top above → result ≡ one_place w k x }
{
    if goes_left {
        left(top, x)
    } else {
        right(x, above)
    }
}

// A shift by some places is one place, and then a shift by one less. It gives the value and, above it, the last bit out:
// one number, so that the recursion is compiled to a jump back. Nothing in it asks for the size or the kind of shift.
fn places(goes_left: bool, top: u32, above: u32, value: u32, out: bool, num: u8) -> u64
    requires { ((0 < top) × (top ≤ 2147483648)) × (above ≤ 2147483648) }
    ensures { (w : Shift) (k : ℕ) → Goes w k value goes_left top above → result ≡ joined (shift_by w k num (shifted value out)) }
{
    if num == 0 {
        value as u64 + one(out) * 0x1_0000_0000
    } else {
        let p = place(goes_left, top, above, value);
        places(goes_left, top, above, p.value, p.out, num - 1)
    }
}

fn goes_left(kind: Shift) -> bool
    ensures { result ≡ leftward kind }
{
    match kind {
        Shift::Sla => true,
        Shift::Sra => false,
        Shift::Sll => true,
        Shift::Srl => false,
    }
}

// The sign bit, at its weight.
fn weighed(top: u32, x: u32) -> u32
    requires { top ≤ 2147483648 }
    ensures { ((k : ℕ) → top ≡ 2 ^ (k - 1) → result ≡ weighed k x) × (result ≤ 2147483648) }
{
    if top <= x { top } else { 0 }
}

// What comes in above, which stays the same from place to place: SRA keeps the sign.
fn comes_in(kind: Shift, top: u32, x: u32) -> u32
    requires { top ≤ 2147483648 }
    ensures { ((k : ℕ) → top ≡ 2 ^ (k - 1) → result ≡ comes_in kind k x) × (result ≤ 2147483648) }
{
    match kind {
        Shift::Sla => 0,
        Shift::Sra => weighed(top, x),
        Shift::Sll => 0,
        Shift::Srl => 0,
    }
}

// The places that a code byte asks for: 0 means 16.
pub fn places_of(code: u8) -> u8
    ensures { result ≡ places_of code }
{
    if code % 16 == 0 { 16 } else { code % 16 }
}

// A shift by the places that a code byte asks for, 1 to 16.
pub fn shift_by(kind: Shift, size: Size, a: u32, code: u8) -> Computed
    ensures { result ≡ shift_of kind (bits_of size) a (places_of code) }
{
    let x = low(size, a as u64);
    let weight = top(size);
    let above = comes_in(kind, weight, x);
    let t = places(goes_left(kind), weight, above, x, false, places_of(code));
    let r = (t % 0x1_0000_0000) as u32;
    let v = parity(size, r);
    judged(size, r, false, v, false, 0x1_0000_0000 <= t, marks(size))
}
