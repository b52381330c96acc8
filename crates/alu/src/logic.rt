// AND, OR and XOR.
ghost use Rattle.std.specs.Prelude.{◌≡◌, false};
ghost use Rattle.little.specs.Width.{bits_of};
ghost use Rattle.alu.specs.Logic.{plain, and_of, or_of, xor_of};

use crate::even::{marks, parity};
use flags::Computed;
use flags::width::{judged, low};
use little::Size;

// A result of logic: its V is its parity, with N and C 0.
fn plain(size: Size, r: u32, h: bool) -> Computed
    ensures { result ≡ plain (bits_of size) r h false }
{
    judged(size, r, h, parity(size, r), false, false, marks(size))
}

pub fn and(size: Size, a: u32, b: u32) -> Computed
    ensures { result ≡ and_of (bits_of size) a b }
{
    plain(size, low(size, a as u64 & b as u64), true)
}

pub fn or(size: Size, a: u32, b: u32) -> Computed
    ensures { result ≡ or_of (bits_of size) a b }
{
    plain(size, low(size, a as u64 | b as u64), false)
}

pub fn xor(size: Size, a: u32, b: u32) -> Computed
    ensures { result ≡ xor_of (bits_of size) a b }
{
    plain(size, low(size, a as u64 ^ b as u64), false)
}
