// MINC and MDEC: a pointer that goes round in a table.
ghost use Rattle.std.specs.Prelude.{◌≡◌, ◌<◌, ◌≤◌};
ghost use Rattle.little.specs.Width.{bits_of};
ghost use Rattle.feed.specs.Cycle.{stride_step, is_table, minc_of, mdec_of, cycled};

use flags::width::low;
use little::Size;

// By how many it goes: 1, 2 or 4.
#[derive(Clone, Copy)]
pub enum Stride {
    One,
    Two,
    Four,
}

// Up or down, with the table's number less the step, as the code has it.
#[derive(Clone, Copy)]
pub enum Cycle {
    Minc(Stride, u16),
    Mdec(Stride, u16),
}

fn step_of(stride: Stride) -> u32
    ensures value { result ≡ stride_step stride }
    ensures bounded { (0 < result) × (result ≤ 4) }
{
    match stride {
        Stride::One => 1,
        Stride::Two => 2,
        Stride::Four => 4,
    }
}

fn minc(size: Size, step: u32, last: u16, a: u32) -> u32
    requires { (0 < step) × (step ≤ 4) }
    ensures { result ≡ minc_of (bits_of size) step last a }
{
    let x = low(size, a as u64);
    let end = last as u32;
    if x % (end + step) == end {
        return x - end;
    }
    low(size, x as u64 + step as u64)
}

fn mdec(size: Size, step: u32, last: u16, a: u32) -> u32
    requires { (0 < step) × (step ≤ 4) }
    ensures { result ≡ mdec_of (bits_of size) step last a }
{
    let x = low(size, a as u64);
    let end = last as u32;
    if x % (end + step) == 0 {
        return low(size, x as u64 + end as u64);
    }
    low(size, x as u64 + (0x1_0000_0000 - step as u64))
}

pub fn cycled(how: Cycle, size: Size, a: u32) -> u32
    ensures { result ≡ cycled how (bits_of size) a }
{
    match how {
        Cycle::Minc(stride, last) => minc(size, step_of(stride), last, a),
        Cycle::Mdec(stride, last) => mdec(size, step_of(stride), last, a),
    }
}

// Whether a number less the step is one that the book allows.
pub fn is_table(stride: Stride, last: u16) -> bool
    ensures { result ≡ is_table stride last }
{
    let step = step_of(stride);
    let n = last as u32 + step;
    match n {
        0x2
        | 0x4
        | 0x8
        | 0x10
        | 0x20
        | 0x40
        | 0x80
        | 0x100
        | 0x200
        | 0x400
        | 0x800
        | 0x1000
        | 0x2000
        | 0x4000
        | 0x8000 => step < n,
        _ => false,
    }
}
