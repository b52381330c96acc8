// Sums and differences. They are made at the top of 32 bits, whatever the size: the carry out and the sign are at one place for all
// three, and nothing branches on the size.
ghost use Rattle.std.specs.Prelude.{◌≡◌, not, ◌&&◌, ◌+◌, ◌-◌, ◌/◌, ◌%◌, ◌≤◌, eqb};
ghost use Rattle.little.specs.declared.Size.{Size};
ghost use Rattle.little.specs.Width.{bits_of};
ghost use Rattle.flags.specs.Undefined.{by_sum, undefined_of};
ghost use Rattle.flags.specs.Width.{negative};
ghost use Rattle.flags.specs.Sums.{sum_of, difference_of, turned};

use crate::width::one;
use crate::{Computed, Flags};
use little::Size;

// How many bits of 32 are left by a number of a size.
fn room(size: Size) -> u32
    ensures value { result ≡ 32 - bits_of size }
    ensures bounded { result ≤ 24 }
{
    match size {
        Size::Byte => 24,
        Size::Word => 16,
        Size::Long => 0,
    }
}

// Whether x and y have one sign, and r the other.
fn turned(x: u32, y: u32, r: u32) -> bool
    ensures { result ≡ turned (negative 32 x) (negative 32 y) (negative 32 r) }
{
    0x8000_0000 <= (x ^ r) & (y ^ r)
}

// The same where y is taken from x.
fn turned_less(x: u32, y: u32, r: u32) -> bool
    ensures { result ≡ turned (negative 32 x) (not (negative 32 y)) (negative 32 r) }
{
    0x8000_0000 <= (x ^ r) & (x ^ y)
}

// Whether bit 4 of a result r is not that of the operands' bits alone: it was carried into. Room for a long is none, and gives no.
fn half(k: u32, a: u32, b: u32, r: u32) -> bool
    ensures { result ≡ (eqb (k / 16 % 2) 1 && eqb ((a / 16 + b / 16 + r / 16) % 2) 1) }
{
    ((a ^ b ^ r) & k) / 16 % 2 == 1
}

// The mark of H, which nobody defined for a long: a long leaves no room.
fn marks(room: u32) -> u8
    ensures { (z : Size) → room ≡ 32 - bits_of z → result ≡ undefined_of (by_sum (bits_of z)) }
{
    if room == 0 { 1 } else { 0 }
}

// ADD and ADC.
pub fn add(size: Size, a: u32, b: u32, carry: bool) -> Computed
    ensures { result ≡ sum_of (bits_of size) a b carry }
{
    let k = room(size);
    let x = a << k;
    let y = b << k;
    let sum = x as u64 + y as u64 + (one(carry) << k);
    let r = (sum % 0x1_0000_0000) as u32;
    Computed {
        value: r >> k,
        flags: Flags {
            s: 0x8000_0000 <= r,
            z: r == 0,
            h: half(k, a, b, r >> k),
            v: turned(x, y, r),
            n: false,
            c: 0x1_0000_0000 <= sum,
            marks: marks(k),
        },
    }
}

// SUB, SBC and CP.
pub fn sub(size: Size, a: u32, b: u32, carry: bool) -> Computed
    ensures { result ≡ difference_of (bits_of size) a b carry }
{
    let k = room(size);
    let x = a << k;
    let y = b << k;
    let less = y as u64 + (one(carry) << k);
    let r = ((0x1_0000_0000 + x as u64 - less) % 0x1_0000_0000) as u32;
    Computed {
        value: r >> k,
        flags: Flags {
            s: 0x8000_0000 <= r,
            z: r == 0,
            h: half(k, a, b, r >> k),
            v: turned_less(x, y, r),
            n: true,
            c: (x as u64) < less,
            marks: marks(k),
        },
    }
}
