// Many steps in one call: what stands at the counter, done or refused, again and again.
#![tactic(auto)]

ghost use Rattle.std.specs.Prelude.{◌≡◌, List, ℕ, suc, ◌-◌};
ghost use Rattle.memory.specs.Access.{code_at};
ghost use Rattle.state.specs.declared.State.{State};
ghost use Rattle.state.specs.inner.Lent.{all_of, banked_at_with, standing_at};
ghost use Rattle.code.specs.declared.MemoryForm.{MemoryForm};
ghost use Rattle.code.specs.Said.{judge};
ghost use Rattle.code.specs.Listed.{decode_of};
ghost use Rattle.code.specs.inner.Parts.{memory_as, register_size, register_begun};
ghost use Rattle.exec.specs.Exec.{done};
ghost use Rattle.operand.specs.Operand.{address_in};
ghost use Rattle.operand.specs.Try.{and_then};
ghost use Rattle.operand.specs.inner.Does.{Does};
ghost use Rattle.block.specs.Block.{round_of, ends_at};
ghost use Rattle.turn.specs.inner.Times.{times_of, Fewer, most_rounds, Stands, past_name};
ghost use Rattle.turn.specs.Many.{result_with, stopped, many_of};

use answer::{Answer, Why};
use block::{again, ended, in_rom, round};
use code::{Begun, Chosen, Form, OfMemory};
use compute::form;
use control::past;
use exec::{alone, back, of_register, on};
use operand::{address, field};
use state::{Bank, State, current, mask};

// How many rounds more one call can do: only a form that stays what it is goes on in it.
fn rounds(stays: bool, more: u32) -> u32
    ensures { result ≡ most_rounds stays more }
{
    if stays { more } else { 0 }
}

// A round of the form that stands at an address, and as many more as there are steps for and the form goes on; the counter is
// past it. In ROM the form stays what it is, so that it is not read again for each round.
fn block(
    f: Form,
    at: u32,
    bank: Bank,
    flags: &mut u16,
    regs: &mut [u32; 20],
    counter: &mut u32,
    ram: &mut [u8],
    rom: &[u8],
    more: &mut u32,
) -> Answer
    requires { Stands at counter.old ram.old rom.now (λ s m. and_then (round_of f s m rom.now) (ends_at f at)) }
    ensures fewer { Fewer result more.old more.new }
    ensures does { ((s : State) → Does (λ t m. times_of (suc (more.old - more.new)) (standing_at t at) m rom.now)
        (banked_at_with s regs.old bank counter.old flags.old) ram.old
        result (banked_at_with s regs.new bank counter.new flags.new) ram.new) }
{
    let most = rounds(in_rom(ram.len(), rom.len(), at), *more);
    let apart = *more - most;
    let mut left = most;
    loop {
        if let Err(why) = round(f, bank, &mut *flags, &mut *regs, &mut *ram, rom) {
            if left == most {
                return Err(why);
            }
            // The rounds before it are done; the refused one is for the next call.
            *more = apart + left + 1;
            *counter = at;
            return Ok(());
        }
        if again(f, left, bank, *flags, &*regs) {
            left -= 1;
        } else {
            *counter = ended(f, at, bank, *flags, &*regs, *counter);
            *more = apart + left;
            return Ok(());
        }
    }
}

// What the byte after a memory form says, whose operand is at an address; the instruction stands at the counter.
fn of_memory(
    read: OfMemory,
    at: u32,
    bank: Bank,
    flags: &mut u16,
    regs: &mut [u32; 20],
    counter: &mut u32,
    ram: &mut [u8],
    rom: &[u8],
    more: &mut u32,
) -> Answer
    requires { (m : MemoryForm) × (decode_of (code_at ram.old rom.now counter.old) ≡ memory_as read m) × (at ≡ address_in regs.old bank m) }
    ensures fewer { Fewer result more.old more.new }
    ensures does { ((s : State) → Does (λ t m. times_of (suc (more.old - more.new)) t m rom.now)
        (banked_at_with s regs.old bank counter.old flags.old) ram.old
        result (banked_at_with s regs.new bank counter.new flags.new) ram.new) }
{
    match read {
        OfMemory::Load(r, size, n) => {
            let a = form::load(r, at, size, bank, regs, &*ram, rom);
            on(a, counter, n)
        }
        OfMemory::From(r, size, n) => {
            let a = form::store(r, at, size, bank, &*regs, ram, rom);
            on(a, counter, n)
        }
        OfMemory::Compute(op, r, size, n) => {
            let a = form::first(op, r, at, size, bank, flags, regs, &*ram, rom);
            on(a, counter, n)
        }
        OfMemory::ComputeInto(op, r, size, n) => {
            let a = form::second(op, r, at, size, bank, flags, &*regs, ram, rom);
            on(a, counter, n)
        }
        OfMemory::Blocks(f, n) => {
            let here = *counter;
            past(&mut *counter, n);
            let a = block(f, here, bank, flags, regs, &mut *counter, ram, rom, more);
            back(a, here, counter)
        }
        OfMemory::Short => Err(Why::NoCode),
        OfMemory::Unlisted => Err(Why::Unlisted),
    }
}

// Past the code byte that named a register, where there was one: the counter of any other form is left alone.
fn past_name(counter: &mut u32, n: usize)
    ensures { counter.new ≡ past_name n counter.old }
{
    if n != 0 {
        past(counter, n);
    }
}

// What a register form says, whose first byte is b; the instruction stands at the counter.
fn of_registers(
    code: &[u8],
    b: u8,
    bank: Bank,
    flags: &mut u16,
    regs: &mut [u32; 20],
    counter: &mut u32,
) -> Answer
    ensures { ((s : State) (ram rom : List ℕ) → Does (λ t m. done (judge (register_begun (register_size b) b) code.now 1) t m rom)
        (banked_at_with s regs.old bank counter.old flags.old) ram
        result (banked_at_with s regs.new bank counter.new flags.new) ram) }
{
    let size = registers::size_by(b);
    let here = *counter;
    match registers::begin(code, size, b) {
        Chosen::Register(operand, n) => {
            past_name(&mut *counter, n);
            let r = field(bank, size, operand);
            let behind = &code[n..];
            let read = registers::read(behind, size);
            let a = of_register(read, behind, size, r, bank, flags, regs, &mut *counter);
            back(a, here, counter)
        }
        Chosen::Short => Err(Why::NoCode),
        Chosen::Unlisted => Err(Why::Unlisted),
    }
}

// What stands at the counter, done or refused, whatever the state is: the checks before it are the caller's. A form that goes on
// may use some of the `more` steps that the caller has left. The state's parts lie apart and are changed where they lie. Each of
// the readers has a work of its own after it: where all meet in one instruction first, it was measured to be slower.
fn once(
    regs: &mut [u32; 20],
    counter: &mut u32,
    bank: &mut u8,
    level: &mut u8,
    flags: &mut u16,
    spare: &mut u16,
    nesting: &mut u16,
    ram: &mut [u8],
    rom: &[u8],
    more: &mut u32,
) -> Answer
    ensures fewer { Fewer result more.old more.new }
    ensures does { Does (λ t m. times_of (suc (more.old - more.new)) t m rom.now)
        (all_of regs.old counter.old bank.old level.old
        flags.old spare.old nesting.old) ram.old
        result (all_of regs.new counter.new bank.new level.new
        flags.new spare.new nesting.new) ram.new }
{
    let code = memory::fetch(&*ram, rom, *counter);
    if code.len() == 0 {
        return Err(Why::NoCode);
    }
    let b = code[0];
    if b < 0x80 {
        let read = first::read(code, b);
        return alone(
            read, regs, counter, bank, level, flags, spare, nesting, ram, rom,
        );
    }
    let bank = current(&*bank);
    if registers::begins(b) {
        return of_registers(code, b, bank, flags, regs, counter);
    }
    match forms::begin(code, b) {
        Begun::Form(base, v, n) => {
            let at = address(bank, &*regs, base, v);
            let read = forms::after(code, b, n);
            of_memory(read, at, bank, flags, regs, counter, ram, rom, more)
        }
        Begun::Short => Err(Why::NoCode),
        Begun::Unlisted => Err(Why::Unlisted),
    }
}

// The state so far, the count of steps done, and how it ended.
#[derive(Clone, Copy)]
pub struct Ran {
    pub state: State,
    pub done: u32,
    pub answer: Answer,
}

fn stop(s: State, done: u32, answer: Answer) -> Ran
    ensures { result ≡ stopped s done answer }
{
    Ran {
        state: s,
        done: done,
        answer: answer,
    }
}

// Many steps of any state: the checks before the first are the caller's. A call of `once` may do several of those left.
pub fn many(s: State, ram: &mut [u8], rom: &[u8], steps: u32) -> Ran
    ensures { result_with result ram.new ≡ many_of steps 0 s ram.old rom.now }
{
    let mut regs = s.registers;
    let mut counter = s.counter;
    let b = s.bank;
    let mut bank = b.0;
    let l = s.level;
    let mut level = l.0;
    let mut flags = s.flags;
    let mut spare = s.spare;
    let mut nesting = s.nesting;
    let mut left = steps;
    while 0 < left {
        left -= 1;
        if let Err(why) = once(
            &mut regs,
            &mut counter,
            &mut bank,
            &mut level,
            &mut flags,
            &mut spare,
            &mut nesting,
            &mut *ram,
            rom,
            &mut left,
        ) {
            let b = current(&bank);
            let l = mask(&level);
            let t = state::whole(regs, counter, b, l, flags, spare, nesting);
            return stop(t, steps - 1 - left, Err(why));
        }
    }
    let b = current(&bank);
    let l = mask(&level);
    let t = state::whole(regs, counter, b, l, flags, spare, nesting);
    stop(t, steps, Ok(()))
}
