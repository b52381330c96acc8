// SR on the stack, and the return from an interrupt.
#![tactic(auto)]

ghost use Rattle.std.specs.Prelude.{◌≡◌};
ghost use Rattle.state.specs.declared.State.{State};
ghost use Rattle.state.specs.inner.Lent.{ruled, ruled_with, interrupted};
ghost use Rattle.operand.specs.inner.Does.{Does};
ghost use Rattle.stack.specs.Stack.{pop_of, pop_bytes};
ghost use Rattle.interrupt.specs.Interrupt.{with_sr, push_sr_of, returned, interrupt_of};

use answer::{Answer, Why};
use code::Interrupt;
use little::{ADDRESSES, Size};
use operand::pointer;
use state::status::{bank_in, flags_in, level_in, sr_of};
use state::{Bank, Level, current, mask};

// A push of SR: where a flag of F is marked it is refused, before the store is looked at.
#[tactic(auto, unfolding(crate::specs::Interrupt::push_sr_of))]
fn push_sr(
    bank: Bank,
    level: Level,
    flags: u16,
    regs: &mut [u32; 20],
    ram: &mut [u8],
    rom: &[u8],
) -> Answer
    ensures { (s : State) → Does (λ t m. push_sr_of t m rom.now)
        (ruled_with s regs.old bank.0 level.0 flags) ram.old
        result (ruled_with s regs.new bank.0 level.0 flags) ram.new }
{
    if flags::any_marked(flags::unpack(flags)) {
        return Err(Why::Undefined);
    }
    stack::push(bank, regs, ram, rom, Size::Word, sr_of(flags, bank, level))
}

// The bank, the level and F from a popped SR. Popped flags count as known: none is marked.
#[tactic(auto, unfolding(crate::specs::Interrupt::with_sr, state::specs::State::with_bank, state::specs::State::with_level, state::specs::State::with_flags, state::specs::State::with_both_flags))]
fn restore(sr: u32, bank: &mut u8, level: &mut u8, flags: &mut u16)
    ensures { (s : State) → ruled s bank.new level.new flags.new
        ≡ with_sr (ruled s bank.old level.old flags.old) sr }
{
    let b = bank_in(sr);
    let l = level_in(sr);
    *bank = b.0 % 4;
    *level = l.0;
    *flags = flags::byte(flags::unpack(flags_in(sr) as u16)) as u16;
}

#[tactic(auto, unfolding(stack::specs::Stack::pop_of, memory::specs::Access::load_of))]
fn pop_sr(
    bank: &mut u8,
    level: &mut u8,
    flags: &mut u16,
    regs: &mut [u32; 20],
    ram: &[u8],
    rom: &[u8],
) -> Answer
    ensures { (s : State) → Does (λ t m. pop_of t m rom.now Size.Word with_sr)
        (ruled_with s regs.old bank.old level.old flags.old) ram.now
        result (ruled_with s regs.new bank.new level.new flags.new) ram.now }
{
    let b = current(&*bank);
    let v = stack::popped(b, regs, ram, rom, Size::Word)?;
    restore(v, bank, level, flags);
    Ok(())
}

// SR and the counter above it are popped as one operand.
fn reti(
    bank: &mut u8,
    level: &mut u8,
    nesting: &mut u16,
    flags: &mut u16,
    regs: &mut [u32; 20],
    counter: &mut u32,
    ram: &[u8],
    rom: &[u8],
) -> Answer
    ensures { (s : State) → Does (λ t m. pop_bytes t m rom.now 6 returned)
        (interrupted s regs.old counter.old bank.old level.old flags.old nesting.old)
        ram.now result
        (interrupted s regs.new counter.new bank.new level.new flags.new nesting.new)
        ram.now }
{
    let b = current(&*bank);
    let (sr, to) = memory::load_six(ram, rom, pointer(b, &*regs, 7))?;
    stack::raise(b, regs, 6);
    restore(sr, bank, level, flags);
    *nesting = nesting.wrapping_sub(1);
    *counter = to % ADDRESSES;
    Ok(())
}

#[tactic(auto, unfolding(crate::specs::Interrupt::interrupt_of))]
pub fn interrupt(
    what: Interrupt,
    bank: &mut u8,
    level: &mut u8,
    nesting: &mut u16,
    flags: &mut u16,
    regs: &mut [u32; 20],
    counter: &mut u32,
    ram: &mut [u8],
    rom: &[u8],
) -> Answer
    ensures { (s : State) → Does (λ t m. interrupt_of what t m rom.now)
        (interrupted s regs.old counter.old bank.old level.old flags.old nesting.old)
        ram.old result
        (interrupted s regs.new counter.new bank.new level.new flags.new nesting.new)
        ram.new }
{
    match what {
        Interrupt::PushSr => {
            let b = current(&*bank);
            let l = mask(&*level);
            push_sr(b, l, *flags, regs, ram, rom)
        }
        Interrupt::PopSr => pop_sr(bank, level, flags, regs, &*ram, rom),
        Interrupt::Reti => reti(bank, level, nesting, flags, regs, counter, &*ram, rom),
    }
}
