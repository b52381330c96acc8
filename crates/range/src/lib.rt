// Whether an instruction is within the listed ranges: what each operation can hold, by the kind of work.
#![tactic(auto)]

ghost use Rattle.std.specs.Prelude.{◌≡◌, ◌^◌, ltb};
ghost use Rattle.little.specs.Width.{bytes_of};
ghost use Rattle.code.specs.Rows.{only_byte, no_byte};
ghost use Rattle.code.specs.Range.{◌and◌, that, holds, register_below, constant_below, base_range, memory_range};
ghost use Rattle.code.specs.Range.{register_range, place_range, pointer_range, block_operand, block_range};
ghost use Rattle.code.specs.Range.{alone_range, control_range, stack_range};
ghost use Rattle.code.specs.Range.{interrupt_range, side_range, change_range, cycle_range, use_range, in_range};

use alu::Change;
use code::{Base, Control, Form, Interrupt, MemoryForm, Op, Operand, Side, Stack, Use};
use feed::cycle::{Cycle, is_table};
use little::Size;
use registers::no_byte;
use registers::rest::is_low;
use state::named::is_named;

// Whether a number fits an operand's size.
fn fits_size(v: u32, size: Size) -> bool
    ensures { result ≡ ltb v (256 ^ bytes_of size) }
{
    match size {
        Size::Byte => v < 0x100,
        Size::Word => v < 0x1_0000,
        Size::Long => true,
    }
}

fn register_below(n: u8, operand: Operand) -> bool
    ensures { result ≡ holds (register_below n operand) }
{
    matches!(operand, Operand::Register(r) if r < n)
}

fn constant_below(n: u32, operand: Operand) -> bool
    ensures { result ≡ holds (constant_below n operand) }
{
    matches!(operand, Operand::Constant(v) if v < n)
}

// A constant that fits an operand's size.
fn constant_of(size: Size, operand: Operand) -> bool
    ensures { result ≡ holds (constant_below (256 ^ bytes_of size) operand) }
{
    matches!(operand, Operand::Constant(v) if fits_size(v, size))
}

// The base of a memory form and its number.
fn form(m: MemoryForm) -> bool
    ensures { result ≡ holds (base_range m.base m.number) }
{
    let v = m.number;
    match m.base {
        Base::Indirect(r) => r < 8 && v == 0,
        Base::Displaced(r) => r < 8 && v < 0x100,
        Base::Absolute8 => v < 0x100,
        Base::Absolute16 => v < 0x1_0000,
        Base::Absolute24 => v < 0x100_0000,
    }
}

fn memory(operand: Operand) -> bool
    ensures { result ≡ holds (memory_range operand) }
{
    matches!(operand, Operand::Memory(m) if form(m))
}

// A register of a size: one of the eight, or what a code byte names.
fn register(size: Size, operand: Operand) -> bool
    ensures { result ≡ holds (register_range size operand) }
{
    match operand {
        Operand::Register(r) => r < 8,
        Operand::Named(c) => is_named(size, c),
        _ => false,
    }
}

// A register of a size, or a memory form.
fn place(size: Size, operand: Operand) -> bool
    ensures { result ≡ holds (place_range size operand) }
{
    match operand {
        Operand::Memory(m) => form(m),
        _ => register(size, operand),
    }
}

// The pointers of a copy or a compare.
fn pointers(copies: bool, to: u8, from: u8) -> bool
    ensures { result ≡ holds (pointer_range copies to from) }
{
    if copies {
        (to == 2 && from == 3) || (to == 4 && from == 5)
    } else {
        to == from && 1 < from && from < 8
    }
}

// The form (R) of the pointer r.
fn block_operand(r: u8, operand: Operand) -> bool
    ensures { result ≡ holds (block_operand r operand) }
{
    matches!(operand, Operand::Memory(MemoryForm { base: Base::Indirect(n), number: 0 }) if n == r)
}

fn block(f: Form, size: Size, operand: Operand) -> bool
    ensures { result ≡ holds (block_range f size operand) }
{
    pointers(f.copies, f.to, f.from)
        && size != Size::Long
        && f.size == size
        && block_operand(f.from, operand)
}

// An operation with a constant below n, and no size of its own.
fn below(n: u32, size: Size, operand: Operand) -> bool
    ensures { result ≡ holds (that (only_byte size) and constant_below n operand) }
{
    size == Size::Byte && constant_below(n, operand)
}

// An operation with neither an operand nor a size.
fn alone(size: Size, operand: Operand) -> bool
    ensures { result ≡ holds (alone_range size operand) }
{
    below(1, size, operand)
}

fn control(what: Control, size: Size, operand: Operand) -> bool
    ensures { result ≡ holds (control_range what size operand) }
{
    match what {
        Control::Ldf | Control::Ei => below(8, size, operand),
        Control::Jp16 => below(0x1_0000, size, operand),
        Control::Jp24 => below(0x100_0000, size, operand),
        Control::Jr(cc) => cc < 16 && below(0x100, size, operand),
        Control::Jrl(cc) => cc < 16 && below(0x1_0000, size, operand),
        _ => alone(size, operand),
    }
}

// A push or a pop of a register: words and longs, and not of the register 7.
fn pushed(size: Size, operand: Operand) -> bool
    ensures { result ≡ holds (that (no_byte size) and register_below 7 operand) }
{
    no_byte(size) && register_below(7, operand)
}

fn stack(what: Stack, size: Size, operand: Operand) -> bool
    ensures { result ≡ holds (stack_range what size operand) }
{
    match what {
        Stack::Push | Stack::Pop => pushed(size, operand),
        Stack::Call16 | Stack::Calr => below(0x1_0000, size, operand),
        Stack::Call24 => below(0x100_0000, size, operand),
        _ => alone(size, operand),
    }
}

fn side(other: Side, size: Size, operand: Operand) -> bool
    ensures { result ≡ holds (side_range other size operand) }
{
    match other {
        Side::First(r) => r < 8 && place(size, operand),
        Side::Second(r) => r < 8 && memory(operand),
        Side::With(n) => fits_size(n, size) && register(size, operand),
    }
}

fn change(how: Change, size: Size) -> bool
    ensures { result ≡ holds (change_range how size) }
{
    match how {
        Change::Inc(n) | Change::Dec(n) => n < 8,
        Change::ShiftBy(_, n) => n < 16,
        Change::Extz | Change::Exts => no_byte(size),
    }
}

fn cycle(how: Cycle, size: Size) -> bool
    ensures { result ≡ holds (cycle_range how size) }
{
    match how {
        Cycle::Minc(stride, last) | Cycle::Mdec(stride, last) => {
            size == Size::Word && is_table(stride, last)
        }
    }
}

fn puts(how: Use, size: Size, operand: Operand) -> bool
    ensures { result ≡ holds (use_range how size operand) }
{
    match how {
        Use::Number(n) => fits_size(n, size) && register(size, operand),
        Use::From(r) | Use::Load(r) => r < 8 && place(size, operand),
        Use::Compute(_, other) => side(other, size, operand),
        Use::Changed(c) => change(c, size) && register(size, operand),
        Use::Scaled(_, r) => r < 8 && is_low(size, Operand::Register(r)) && register(size, operand),
        Use::ScaledWith(_, n) => fits_size(n, size)
            && is_low(size, operand)
            && register(size, operand),
        Use::Cycled(c) => cycle(c, size) && register(size, operand),
    }
}

// Whether some listed code is this instruction.
pub fn in_range(op: Op, size: Size, operand: Operand) -> bool
    ensures { result ≡ in_range op size operand }
{
    match op {
        Op::Controls(what) => control(what, size, operand),
        Op::Stacks(what) => stack(what, size, operand),
        Op::Puts(how) => puts(how, size, operand),
        Op::Sets(r) => r < 8 && constant_of(size, operand),
        Op::Blocks(f) => block(f, size, operand),
        Op::Interrupts(_) => alone(size, operand),
    }
}
