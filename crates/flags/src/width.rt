// Numbers of the three sizes: their low bits, their sign, and a result with its S and Z.
ghost use Rattle.std.specs.Prelude.{◌≡◌, ◌-◌, ◌^◌, ◌≤◌, ◌<◌};
ghost use Rattle.little.specs.Width.{bits_of};
ghost use Rattle.flags.specs.Width.{low, one, negative};
ghost use Rattle.flags.specs.Sums.{result_of};

use crate::{Computed, Flags};
use little::Size;

// 2 to the number of bits of a size.
fn modulus(size: Size) -> u64
    ensures value { result ≡ 2 ^ bits_of size }
    ensures bounded { (0 < result) × (result ≤ 4294967296) }
{
    match size {
        Size::Byte => 0x100,
        Size::Word => 0x1_0000,
        Size::Long => 0x1_0000_0000,
    }
}

// The weight of the sign bit.
pub fn top(size: Size) -> u32
    ensures value { result ≡ 2 ^ (bits_of size - 1) }
    ensures bounded { (0 < result) × (result ≤ 2147483648) }
{
    (modulus(size) / 2) as u32
}

// The low bits of x: those below the modulus, by a mask, so that nothing is divided.
pub fn low(size: Size, x: u64) -> u32
    ensures value { result ≡ low (bits_of size) x }
    ensures bounded { result < 2 ^ bits_of size }
{
    (x & (modulus(size) - 1)) as u32
}

fn negative(size: Size, x: u32) -> bool
    ensures { result ≡ negative (bits_of size) x }
{
    top(size) <= x
}

pub fn one(b: bool) -> u64
    ensures { (result ≡ one b) × (result ≤ 1) }
{
    if b { 1 } else { 0 }
}

// A result with its S and Z, and the other flags and the marks as given.
pub fn judged(size: Size, r: u32, h: bool, v: bool, n: bool, c: bool, marks: u8) -> Computed
    ensures { result ≡ result_of (bits_of size) r h v n c marks }
{
    Computed {
        value: r,
        flags: Flags {
            s: negative(size, r),
            z: r == 0,
            h,
            v,
            n,
            c,
            marks,
        },
    }
}
