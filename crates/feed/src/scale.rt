// MUL, MULS, DIV and DIVS: the first operand, which gets the result, is twice as wide as the second.
ghost use Rattle.std.specs.Prelude.{◌≡◌, cond, ℕ, ◌+◌, ◌-◌, ◌*◌, ◌/◌, ◌^◌, ◌<◌, ◌≤◌, leb};
ghost use Rattle.little.specs.Width.{bits_of};
ghost use Rattle.flags.specs.Width.{low};
ghost use Rattle.flags.specs.Flag.{packed_of, flags_of};
ghost use Rattle.feed.specs.inner.Sign.{magnitude_of, with_sign, largest_of};
ghost use Rattle.feed.specs.Scale.{mul_of, muls_of, kept_as, halves_of, div_of, divs_of, divided_of, scaled};

use flags::width::{low, top};
use flags::{Computed, Flags, divide_flags, keeping, settled, unpack};
use little::Size;

// In the order of their codes.
#[derive(Clone, Copy)]
pub enum Scale {
    Mul,
    Muls,
    Div,
    Divs,
}

// What a division leaves, and whether the divisor was 0 or the quotient did not fit.
#[derive(Clone, Copy)]
pub struct Divided {
    pub value: u32,
    pub over: bool,
}

// The lower half of the bits of a size.
fn low_half(size: Size, x: u32) -> u32
    ensures value { result ≡ low (bits_of size / 2) x }
    ensures bounded { result < 65536 }
{
    match size {
        Size::Byte => x % 0x10,
        Size::Word => x % 0x100,
        Size::Long => x % 0x1_0000,
    }
}

// The weight of the top bit of that half.
fn half_top(size: Size) -> u32
    ensures value { result ≡ 2 ^ (bits_of size / 2 - 1) }
    ensures bounded { (0 < result) × (result ≤ 32768) }
{
    match size {
        Size::Byte => 0x8,
        Size::Word => 0x80,
        Size::Long => 0x8000,
    }
}

// How large x is without its sign, whose weight is given.
fn magnitude(top: u32, x: u32) -> u32
    requires { x < 2 * top }
    ensures { (result ≡ magnitude_of top x) × (result ≤ top) }
{
    if top <= x { top - (x - top) } else { x }
}

// A number so large, below zero or not, in the bits up to that weight.
fn with_sign(top: u32, minus: bool, m: u32) -> u32
    requires { (m ≤ top) × (top ≤ 2147483648) }
    ensures value { result ≡ with_sign top minus m }
    ensures bounded { 0 < top → result < 2 * top }
{
    if minus {
        if 0 < m {
            return top - m + top;
        }
    }
    m
}

fn mul(size: Size, a: u32, b: u32) -> u32
    ensures { result ≡ mul_of (bits_of size / 2) a b }
{
    low_half(size, a) * low_half(size, b)
}

fn muls(size: Size, a: u32, b: u32) -> u32
    ensures { result ≡ muls_of (bits_of size / 2) a b }
{
    let t = half_top(size);
    let x = low_half(size, a);
    let y = low_half(size, b);
    let m = magnitude(t, x) * magnitude(t, y);
    with_sign(top(size), (t <= x) ^ (t <= y), m)
}

// The operand as it was.
fn kept(x: u32) -> Divided
    ensures { result ≡ kept_as x }
{
    Divided {
        value: x,
        over: true,
    }
}

// The quotient low and the remainder high; t is the weight of the top bit of the lower half.
fn halves(t: u32, quotient: u32, remainder: u32) -> Divided
    requires { (t ≤ 32768) × (quotient < 2 * t) × (remainder < 2 * t) }
    ensures { (k : ℕ) → 0 < k → t ≡ 2 ^ (k - 1) → result ≡ halves_of k quotient remainder }
{
    Divided {
        value: remainder * (2 * t) + quotient,
        over: false,
    }
}

fn div(size: Size, a: u32, b: u32) -> Divided
    ensures { result ≡ div_of (bits_of size / 2) a b }
{
    let t = half_top(size);
    let x = low(size, a as u64);
    let y = low_half(size, b);
    if y == 0 {
        return kept(x);
    }
    let q = x / y;
    if 2 * t <= q {
        return kept(x);
    }
    halves(t, q, x % y)
}

// The largest quotient without its sign, below zero or not.
fn largest(t: u32, minus: bool) -> u32
    requires { 0 < t }
    ensures { (result ≡ largest_of t minus) × (result ≤ t) }
{
    if minus { t } else { t - 1 }
}

fn divs(size: Size, a: u32, b: u32) -> Divided
    ensures { result ≡ divs_of (bits_of size / 2) a b }
{
    let t = half_top(size);
    let s = top(size);
    let x = low(size, a as u64);
    let y = low_half(size, b);
    if y == 0 {
        return kept(x);
    }
    let m = magnitude(s, x);
    let n = magnitude(t, y);
    let turned = (s <= x) ^ (t <= y);
    let q = m / n;
    if largest(t, turned) < q {
        return kept(x);
    }
    halves(t, with_sign(t, turned, q), with_sign(t, s <= x, m % n))
}

// V says whether there was no quotient; the other flags are kept.
fn divided_of(old: Flags, d: Divided) -> Computed
    ensures { result ≡ divided_of old d }
{
    Computed {
        value: d.value,
        flags: divide_flags(old, d.over),
    }
}

// The value, of the size of the first operand; the flags go into F.
pub fn scaled(how: Scale, size: Size, a: u32, b: u32, flags: &mut u16) -> u32
    ensures { (result ≡ (scaled how (bits_of size / 2) a b (flags_of flags.old)).value)
        × (flags.new ≡ packed_of (scaled how (bits_of size / 2) a b (flags_of flags.old)).flags) }
{
    match how {
        Scale::Mul => settled(keeping(unpack(*flags), mul(size, a, b)), flags),
        Scale::Muls => settled(keeping(unpack(*flags), muls(size, a, b)), flags),
        Scale::Div => settled(divided_of(unpack(*flags), div(size, a, b)), flags),
        Scale::Divs => settled(divided_of(unpack(*flags), divs(size, a, b)), flags),
    }
}
