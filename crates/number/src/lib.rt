// Numbers in a code, low byte first, and the size and the operation that a digit names.
#![tactic(auto)]

ghost use Rattle.std.specs.Prelude.{◌≡◌, ◌+◌, ◌*◌, ◌%◌, ◌<◌, ◌≤◌, length, get_or, take, drop};
ghost use Rattle.little.specs.Bytes.{value_of};
ghost use Rattle.code.specs.Said.{number_at};
ghost use Rattle.code.specs.Registers.{arith_of};
ghost use Rattle.code.specs.inner.Parts.{up_to_four, size_of};

use alu::Arith;
use little::Size;

// No number of a code has more than four bytes.
fn up_to_four(n: usize) -> usize
    ensures { (result ≡ up_to_four n) × (result ≤ 4) }
{
    if n < 4 { n } else { 4 }
}

// The byte at an index.
fn byte(code: &[u8], at: usize) -> u32
    requires { at < length code.now }
    ensures { (result ≡ get_or code.now at 0) × (result < 256) }
{
    code[at] as u32
}

// The two bytes from an index on, low byte first.
fn word(code: &[u8], at: usize) -> u32
    requires { at + 2 ≤ length code.now }
    ensures { (result ≡ get_or code.now at 0 + 256 * get_or code.now (at + 1) 0) × (result < 65536) }
{
    byte(code, at) + 256 * byte(code, at + 1)
}

// The number in n bytes from `at`, low byte first.
fn read(code: &[u8], at: usize, n: usize) -> u32
    requires { (at + n ≤ length code.now) × (n ≤ 4) }
    ensures { result ≡ value_of (take n (drop at code.now)) }
{
    match n {
        0 => 0,
        1 => byte(code, at),
        2 => word(code, at),
        3 => word(code, at) + 65536 * byte(code, at + 2),
        _ => word(code, at) + 65536 * word(code, at + 2),
    }
}

// The same of up to four bytes, or none where they are not all there.
pub fn number(code: &[u8], at: usize, n: usize) -> Option<u32>
    ensures { result ≡ number_at code.now at (up_to_four n) }
{
    let m = up_to_four(n);
    if at <= code.len() {
        if m <= code.len() - at {
            return Some(read(code, at, m));
        }
    }
    None
}

// The size of an operand, by the high digit of the first byte, 8 to F: its low two bits tell.
pub fn size_of(digit: u8) -> Size
    ensures { result ≡ size_of (8 + digit % 4) }
{
    match digit % 4 {
        0 => Size::Byte,
        1 => Size::Word,
        2 => Size::Long,
        _ => Size::Byte,
    }
}

// The operation of a number, 0 to 7.
pub fn arith_of(n: u8) -> Arith
    ensures { result ≡ arith_of n }
{
    match n {
        0 => Arith::Add,
        1 => Arith::Adc,
        2 => Arith::Sub,
        3 => Arith::Sbc,
        4 => Arith::And,
        5 => Arith::Xor,
        6 => Arith::Or,
        _ => Arith::Cp,
    }
}
