// A part of the registers by where it begins: whatever a code byte names, and the registers 0 to 7 of a size among them. It is found once
// and then read and written without a branch, however wide it is and wherever it lies.
ghost use Rattle.std.specs.Prelude.{◌≡◌, ◌+◌, ◌-◌, ◌%◌, ◌^◌, ◌<◌, ◌≤◌};
ghost use Rattle.little.specs.Width.{bits_of, bytes_of};
ghost use Rattle.state.specs.Register.{set_bits};
ghost use Rattle.state.specs.Named.{sixteen_of, byte_named, is_named, code_for};
ghost use Rattle.state.specs.inner.Field.{field_at, wide_at, field_in, put_in, field_put, PutWithin};

use crate::{Bank, index_of};
use little::Size;

// Which of the twenty longs, and the first bit there.
#[derive(Clone, Copy)]
pub struct Field {
    pub index: usize,
    pub start: u32,
}

// As many ones as a number of a size has bits.
fn ones(size: Size) -> u32
    ensures { result ≡ 2 ^ bits_of size - 1 }
{
    match size {
        Size::Byte => 0xFF,
        Size::Word => 0xFFFF,
        Size::Long => 0xFFFFFFFF,
    }
}

// Which sixteen of the eighty bytes a code's high digit says.
fn sixteen(bank: usize, digit: usize) -> usize
    requires { bank < 4 }
    ensures { (result ≡ sixteen_of bank digit) × (result < 5) }
{
    match digit {
        13 => (bank + 3) % 4,
        14 => bank,
        15 => 4,
        _ => digit % 4,
    }
}

// Where the register of a code byte begins, in a bank.
pub fn of_code(bank: Bank, code: u8) -> Field
    ensures { result ≡ field_at (byte_named (bank.0 % 4) code) }
{
    let n = bank.0 % 4;
    let c = code as usize;
    let k = sixteen(n as usize, c / 16);
    let low = code % 4;
    Field {
        index: 4 * k + c % 16 / 4,
        start: 8 * (low as u32),
    }
}

// At every how many codes a register of a size begins.
fn spacing(size: Size) -> u8
    ensures { (result ≡ bytes_of size) × (0 < result) }
{
    match size {
        Size::Byte => 1,
        Size::Word => 2,
        Size::Long => 4,
    }
}

// Whether a code byte names a register of a size.
pub fn is_named(size: Size, code: u8) -> bool
    ensures { result ≡ is_named (bytes_of size) code }
{
    ((code < 0x40) | (0xD0 <= code)) & (code % spacing(size) == 0)
}

// Where the register r of a size begins, 0 to 7, in a bank: both numbers are taken modulo what there is.
pub fn of_register(bank: Bank, size: Size, r: u8) -> Field
    ensures { result ≡ field_at (byte_named (bank.0 % 4) (code_for size (r % 8))) }
{
    let n = bank.0 % 4;
    let b = n as usize;
    let m = r % 8;
    let c = m as usize;
    if let Size::Byte = size {
        return Field {
            index: 4 * b + c / 2,
            start: 8 - 8 * ((m % 2) as u32),
        };
    }
    Field {
        index: index_of(b, c),
        start: 0,
    }
}

// Where the register begins that has twice the bits of a size and this field in it.
pub fn wide(size: Size, f: Field) -> Field
    ensures { result ≡ wide_at size f }
{
    let x = f.start;
    let start = match size {
        Size::Byte => x / 16 * 16,
        Size::Word => x / 32 * 32,
        Size::Long => x / 64 * 64,
    };
    Field {
        index: f.index,
        start: start,
    }
}

// The bits of a size from a field on; 0 past the twenty.
pub fn read(registers: &[u32; 20], size: Size, f: Field) -> u32
    ensures { result ≡ field_in registers.now size f }
{
    let i = f.index;
    if i < 20 {
        return (registers[i] >> (f.start % 32)) & ones(size);
    }
    0
}

// x with the bits of a size from a start on replaced by v's.
fn replaced(size: Size, start: u32, x: u32, v: u32) -> u32
    requires { start < 32 }
    ensures { (result ≡ put_in size start x v) × (start + bits_of size ≤ 32 → result ≡ set_bits start (bits_of size) x v) }
{
    x ^ ((((x >> start) ^ v) & ones(size)) << start)
}

// Those bits replaced; nothing is written past the twenty.
pub fn write(registers: &mut [u32; 20], size: Size, f: Field, v: u32)
    ensures registers_after { registers.new ≡ field_put registers.old size f v }
    ensures put_within { PutWithin registers.old registers.new size f v }
{
    let i = f.index;
    if i < 20 {
        registers[i] = replaced(size, f.start % 32, registers[i], v);
    }
}
