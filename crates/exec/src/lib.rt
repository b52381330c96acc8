// One instruction that was read, done or refused: where the code has no address in memory.
#![tactic(auto)]

ghost use Rattle.std.specs.Prelude.{◌≡◌, List, ℕ};
ghost use Rattle.state.specs.declared.State.{State};
ghost use Rattle.state.specs.inner.Lent.{all_of, banked_with, banked_at_with};
ghost use Rattle.code.specs.Said.{judge};
ghost use Rattle.code.specs.Rows.{by_rows};
ghost use Rattle.code.specs.Registers.{feed_rows};
ghost use Rattle.code.specs.inner.Parts.{alone_as, register_as};
ghost use Rattle.operand.specs.inner.Does.{Does};
ghost use Rattle.operand.specs.inner.Placed.{BeginsAt, low_at};
ghost use Rattle.exec.specs.Exec.{done};
ghost use Rattle.exec.specs.inner.Counter.{back_of, on_of};
ghost use Rattle.exec.specs.inner.Fed.{answer_of, Feeds};

use answer::{Answer, Why};
use code::{Alone, OfFeed, OfRegister, Operand};
use compute::register::{change, load, operate, with};
use compute::scaling::{cycle, scale, scale_with};
use control::{control, past};
use interrupt::interrupt;
use little::Size;
use registers::rest;
use stack::stack;
use state::named::{Field, of_register as register};
use state::{Bank, current};

// A refused instruction leaves the counter at it, though it was past it already.
pub fn back(a: Answer, here: u32, counter: &mut u32) -> Answer
    ensures { (result ≡ a) × (counter.new ≡ back_of a here counter.old) }
{
    if a.is_err() {
        *counter = here;
    }
    a
}

// Past an instruction of n bytes, where it is done.
pub fn on(a: Answer, counter: &mut u32, n: usize) -> Answer
    ensures { (result ≡ a) × (counter.new ≡ on_of a n counter.old) }
{
    if a.is_ok() {
        past(counter, n);
    }
    a
}

// What a first byte 00 to 7F says. Each kind's function is called in one place alone, so that the compiler lays it in there.
pub fn alone(
    read: Alone,
    regs: &mut [u32; 20],
    counter: &mut u32,
    bank: &mut u8,
    level: &mut u8,
    flags: &mut u16,
    spare: &mut u16,
    nesting: &mut u16,
    ram: &mut [u8],
    rom: &[u8],
) -> Answer
    ensures { Does (λ t m. done (alone_as read) t m rom.now)
        (all_of regs.old counter.old bank.old level.old
        flags.old spare.old nesting.old) ram.old
        result (all_of regs.new counter.new bank.new level.new
        flags.new spare.new nesting.new) ram.new }
{
    let here = *counter;
    match read {
        Alone::Controls(what, v, n) => {
            past(&mut *counter, n);
            let a = control(what, v, &mut *counter, bank, level, flags, spare);
            back(a, here, counter)
        }
        Alone::Stacks(what, size, operand, n) => {
            past(&mut *counter, n);
            let b = current(&*bank);
            let a = stack(what, size, operand, b, flags, regs, &mut *counter, ram, rom);
            back(a, here, counter)
        }
        Alone::Sets(r, size, v, n) => {
            state::write(regs, current(&*bank), size, r, v);
            on(Ok(()), counter, n)
        }
        Alone::Interrupts(what, n) => {
            past(&mut *counter, n);
            let a = interrupt(
                what,
                bank,
                level,
                nesting,
                flags,
                regs,
                &mut *counter,
                ram,
                rom,
            );
            back(a, here, counter)
        }
        Alone::Short => Err(Why::NoCode),
        Alone::Unlisted => Err(Why::Unlisted),
    }
}

// The same field. Where the field itself is handed on, the compiler keeps it in memory for every form, which was measured to be slower.
fn anew(f: Field) -> Field
    ensures { result ≡ f }
{
    Field {
        index: f.index,
        start: f.start,
    }
}

// Whether what begins at a field is the lower half of what is twice as wide.
fn low_at(size: Size, f: Field) -> bool
    ensures { result ≡ low_at size f }
{
    match size {
        Size::Byte => f.start % 16 == 0,
        Size::Word => f.start % 32 == 0,
        Size::Long => false,
    }
}

// A form of the feed calculation of the operand that begins at a field. It tells how many bytes it had: 0 where they begin nothing that
// is listed, and 1 where they are too few. One number is handed back in a register, an answer in memory.
fn feed(
    code: &[u8],
    size: Size,
    r: Field,
    bank: Bank,
    flags: &mut u16,
    regs: &mut [u32; 20],
) -> usize
    ensures { (o : Operand) → BeginsAt bank size o r → (s : State) (ram rom : List ℕ) →
        Feeds (judge (by_rows (feed_rows size o)) code.now 1) result
        (banked_with s regs.old bank flags.old) ram rom
        (banked_with s regs.new bank flags.new) }
{
    match rest::read(code, size, low_at(size, r)) {
        OfFeed::Scaled(how, first, n) => {
            scale(how, first, size, r, bank, flags, regs);
            n
        }
        OfFeed::ScaledWith(how, v, n) => {
            scale_with(how, v, size, r, flags, regs);
            n
        }
        OfFeed::Cycled(how, n) => {
            cycle(how, size, r, regs);
            n
        }
        OfFeed::Short => 1,
        OfFeed::Unlisted => 0,
    }
}

// What `feed` told, as an answer; the counter goes past the form where it is done.
fn told(n: usize, counter: &mut u32) -> Answer
    ensures { (result ≡ answer_of n) × (counter.new ≡ on_of (answer_of n) n counter.old) }
{
    if n == 0 {
        return Err(Why::Unlisted);
    }
    if n == 1 {
        return Err(Why::NoCode);
    }
    on(Ok(()), counter, n)
}

// What a register form says of the operand that begins at a field, and is read from the code: nothing is refused but its code. The
// feed calculation is called in three places, so that the compiler keeps it a function of its own.
pub fn of_register(
    read: OfRegister,
    code: &[u8],
    size: Size,
    r: Field,
    bank: Bank,
    flags: &mut u16,
    regs: &mut [u32; 20],
    counter: &mut u32,
) -> Answer
    ensures { (o : Operand) → BeginsAt bank size o r → (s : State) (ram rom : List ℕ) →
        Does (λ t m. done (register_as read size o code.now) t m rom)
        (banked_at_with s regs.old bank counter.old flags.old) ram
        result (banked_at_with s regs.new bank counter.new flags.new) ram }
{
    match read {
        OfRegister::Number(v, n) => {
            state::named::write(regs, size, r, v);
            on(Ok(()), counter, n)
        }
        OfRegister::From(from, n) => {
            load(register(bank, size, from), r, size, regs);
            on(Ok(()), counter, n)
        }
        OfRegister::Load(to, n) => {
            load(r, register(bank, size, to), size, regs);
            on(Ok(()), counter, n)
        }
        OfRegister::Compute(op, first, n) => {
            operate(op, first, size, r, bank, flags, regs);
            on(Ok(()), counter, n)
        }
        OfRegister::With(op, v, n) => {
            with(op, v, size, r, flags, regs);
            on(Ok(()), counter, n)
        }
        OfRegister::Changed(how, n) => {
            change(how, size, r, flags, regs);
            on(Ok(()), counter, n)
        }
        OfRegister::Rest => match size {
            Size::Byte => told(feed(code, Size::Byte, anew(r), bank, flags, regs), counter),
            Size::Word => told(feed(code, Size::Word, anew(r), bank, flags, regs), counter),
            Size::Long => told(feed(code, Size::Long, anew(r), bank, flags, regs), counter),
        },
        OfRegister::Short => Err(Why::NoCode),
        OfRegister::Unlisted => Err(Why::Unlisted),
    }
}
