// The instruction that a code begins with: what each of the readers gives, in one type.
#![tactic(auto)]

ghost use Rattle.std.specs.Prelude.{◌≡◌, ◌+◌, ◌<◌, ◌^◌};
ghost use Rattle.code.specs.Said.{whole_of, judge};
ghost use Rattle.code.specs.Rows.{lookup, by_rows};
ghost use Rattle.code.specs.Registers.{register_rows, feed_rows};
ghost use Rattle.code.specs.inner.Parts.{alone_as, register_as, feed_as, memory_as, register_size, register_begun, longer};
ghost use Rattle.code.specs.Listed.{memory_first_rows, decode_of};

use code::{
    Alone, Base, Begun, Chosen, Decoded, Instruction, MemoryForm, OfFeed, OfMemory, OfRegister, Op,
    Operand, Side, Unread, Use,
};
use little::Size;
use registers::rest;

fn whole(op: Op, size: Size, operand: Operand, length: usize) -> Decoded
    ensures { result ≡ whole_of op size operand length }
{
    Ok(Instruction {
        op,
        size,
        operand,
        length,
    })
}

fn puts(how: Use, size: Size, operand: Operand, length: usize) -> Decoded
    ensures { result ≡ whole_of (Op.Puts how) size operand length }
{
    whole(Op::Puts(how), size, operand, length)
}

// What was read, as an instruction.
fn whole_alone(read: Alone) -> Decoded
    ensures { result ≡ alone_as read }
{
    match read {
        Alone::Controls(what, v, n) => whole(
            Op::Controls(what),
            Size::Byte,
            Operand::Constant(v),
            n,
        ),
        Alone::Stacks(what, size, operand, n) => whole(Op::Stacks(what), size, operand, n),
        Alone::Sets(r, size, v, n) => whole(Op::Sets(r), size, Operand::Constant(v), n),
        Alone::Interrupts(what, n) => whole(
            Op::Interrupts(what),
            Size::Byte,
            Operand::Constant(0),
            n,
        ),
        Alone::Short => Err(Unread::Short),
        Alone::Unlisted => Err(Unread::Unlisted),
    }
}

fn whole_of_feed(read: OfFeed, size: Size, operand: Operand) -> Decoded
    ensures { result ≡ feed_as read size operand }
{
    match read {
        OfFeed::Scaled(how, r, n) => puts(Use::Scaled(how, r), size, operand, n),
        OfFeed::ScaledWith(how, v, n) => puts(Use::ScaledWith(how, v), size, operand, n),
        OfFeed::Cycled(how, n) => puts(Use::Cycled(how), size, operand, n),
        OfFeed::Short => Err(Unread::Short),
        OfFeed::Unlisted => Err(Unread::Unlisted),
    }
}

// A form of the feed calculation, as an instruction.
fn whole_rest(code: &[u8], size: Size, operand: Operand) -> Decoded
    ensures { result ≡ judge (by_rows (feed_rows size operand)) code.now 1 }
{
    let read = rest::read(code, size, rest::is_low(size, operand));
    whole_of_feed(read, size, operand)
}

fn whole_of_register(read: OfRegister, code: &[u8], size: Size, operand: Operand) -> Decoded
    ensures { result ≡ register_as read size operand code.now }
{
    match read {
        OfRegister::Number(v, n) => puts(Use::Number(v), size, operand, n),
        OfRegister::From(r, n) => puts(Use::From(r), size, operand, n),
        OfRegister::Load(r, n) => puts(Use::Load(r), size, operand, n),
        OfRegister::Compute(op, r, n) => puts(Use::Compute(op, Side::First(r)), size, operand, n),
        OfRegister::With(op, v, n) => puts(Use::Compute(op, Side::With(v)), size, operand, n),
        OfRegister::Changed(how, n) => puts(Use::Changed(how), size, operand, n),
        OfRegister::Rest => whole_rest(code, size, operand),
        OfRegister::Short => Err(Unread::Short),
        OfRegister::Unlisted => Err(Unread::Unlisted),
    }
}

fn whole_of_memory(read: OfMemory, m: MemoryForm) -> Decoded
    ensures { result ≡ memory_as read m }
{
    let operand = Operand::Memory(m);
    match read {
        OfMemory::Load(r, size, n) => puts(Use::Load(r), size, operand, n),
        OfMemory::From(r, size, n) => puts(Use::From(r), size, operand, n),
        OfMemory::Compute(op, r, size, n) => puts(
            Use::Compute(op, Side::First(r)),
            size,
            operand,
            n,
        ),
        OfMemory::ComputeInto(op, r, size, n) => puts(
            Use::Compute(op, Side::Second(r)),
            size,
            operand,
            n,
        ),
        OfMemory::Blocks(f, n) => {
            let size = f.size;
            let pointer = MemoryForm {
                base: Base::Indirect(f.from),
                number: 0,
            };
            whole(Op::Blocks(f), size, Operand::Memory(pointer), n)
        }
        OfMemory::Short => Err(Unread::Short),
        OfMemory::Unlisted => Err(Unread::Unlisted),
    }
}

// What stands behind a code byte, or behind the first byte, as an instruction.
fn whole_behind(code: &[u8], size: Size, operand: Operand) -> Decoded
    ensures { result ≡ judge (by_rows (register_rows size operand)) code.now 1 }
{
    whole_of_register(registers::read(code, size), code, size, operand)
}

// An instruction of which n bytes more stand before those that were read.
fn behind(read: Decoded, n: usize) -> Decoded
    requires { (i : Instruction) → read ≡ Ok i → n + i.length < 2 ^ 64 }
    ensures { result ≡ longer n read }
{
    let i = read?;
    Ok(Instruction {
        length: n + i.length,
        ..i
    })
}

// A register form from its first byte on, as an instruction.
fn whole_chosen(code: &[u8], b: u8) -> Decoded
    ensures { result ≡ judge (register_begun (register_size b) b) code.now 1 }
{
    let size = registers::size_by(b);
    match registers::begin(code, size, b) {
        Chosen::Register(operand, n) => behind(whole_behind(&code[n..], size, operand), n),
        Chosen::Short => Err(Unread::Short),
        Chosen::Unlisted => Err(Unread::Unlisted),
    }
}

// A memory form from its first byte on, as an instruction.
fn whole_begun(code: &[u8], b: u8) -> Decoded
    ensures { result ≡ judge (lookup memory_first_rows b) code.now 1 }
{
    match forms::begin(code, b) {
        Begun::Form(base, v, n) => {
            let m = MemoryForm {
                base: base,
                number: v,
            };
            whole_of_memory(forms::after(code, b, n), m)
        }
        Begun::Short => Err(Unread::Short),
        Begun::Unlisted => Err(Unread::Unlisted),
    }
}

// The instruction that the code begins with.
pub fn decode(code: &[u8]) -> Decoded
    ensures { result ≡ decode_of code.now }
{
    if code.len() == 0 {
        return Err(Unread::Short);
    }
    let b = code[0];
    if b < 0x80 {
        return whole_alone(first::read(code, b));
    }
    if registers::begins(b) {
        return whole_chosen(code, b);
    }
    whole_begun(code, b)
}
