// Banks, the interrupt level, flags and jumps: what changes these and the counter alone.
#![tactic(auto)]

ghost use Rattle.std.specs.Prelude.{◌≡◌, ℕ, ◌+◌, ◌%◌, ◌^◌, List};
ghost use Rattle.little.specs.Width.{bits_of};
ghost use Rattle.flags.specs.Flag.{packed_of};
ghost use Rattle.state.specs.declared.State.{State};
ghost use Rattle.state.specs.inner.Lent.{controlled, flagged_at};
ghost use Rattle.operand.specs.inner.Does.{Does};
ghost use Rattle.operand.specs.Operand.{displaced};
ghost use Rattle.control.specs.Control.{jump_of, control_of};

use answer::{Answer, Why};
use code::Control;
use flags::Flags;
use little::{ADDRESSES, SPACE, Size};
use operand::displace;
use state::Level;

// The counter past an instruction of n bytes.
pub fn past(counter: &mut u32, n: usize)
    ensures { counter.new ≡ (counter.old + n) % 2 ^ 24 }
{
    let m = (n % SPACE) as u32;
    *counter = counter.wrapping_add(m) % ADDRESSES;
}

// A jump by a displacement of a size, where its condition holds; refused where the condition reads a flag that nobody defined.
#[tactic(auto, unfolding(crate::specs::Control::jump_of, state::specs::State::with_counter))]
pub fn jump(flags: u16, counter: &mut u32, cc: u8, size: Size, d: u32) -> Answer
    ensures { (s : State) (ram : List ℕ) → Does (λ t m. jump_of t m cc (displaced (bits_of size) t.counter d))
        (flagged_at s counter.old flags) ram
        result (flagged_at s counter.new flags) ram }
{
    if flags::reads_marked(flags, cc) {
        return Err(Why::Undefined);
    }
    if flags::holds(flags::unpack(flags), cc) {
        *counter = displace(size, *counter, d);
    }
    Ok(())
}

// To an address.
fn go(counter: &mut u32, to: u32) -> Answer
    ensures { (result ≡ Ok tt) × (counter.new ≡ to % 2 ^ 24) }
{
    *counter = to % ADDRESSES;
    Ok(())
}

fn select(bank: &mut u8, n: u32) -> Answer
    ensures { (result ≡ Ok tt) × (bank.new ≡ n % 4) }
{
    *bank = (n % 4) as u8;
    Ok(())
}

// The level becomes the number: EI.
fn admit(level: &mut u8, n: u32) -> Answer
    ensures { (result ≡ Ok tt) × (level.new ≡ n % 8) }
{
    let l = Level((n % 8) as u8);
    *level = l.0;
    Ok(())
}

fn set(flags: &mut u16, new: Flags) -> Answer
    ensures { (result ≡ Ok tt) × (flags.new ≡ packed_of new) }
{
    *flags = flags::pack(new);
    Ok(())
}

fn exchange(flags: &mut u16, spare: &mut u16) -> Answer
    ensures { (result ≡ Ok tt) × ((flags.new ≡ spare.old) × (spare.new ≡ flags.old)) }
{
    std::mem::swap(flags, spare);
    Ok(())
}

#[tactic(auto, unfolding(crate::specs::Control::control_of, operand::specs::Flag::flagged, state::specs::State::with_bank, state::specs::State::with_level, state::specs::State::with_counter, state::specs::State::with_flags, state::specs::State::with_both_flags))]
pub fn control(
    what: Control,
    number: u32,
    counter: &mut u32,
    bank: &mut u8,
    level: &mut u8,
    flags: &mut u16,
    spare: &mut u16,
) -> Answer
    ensures { (s : State) (ram : List ℕ) → Does (control_of what number)
        (controlled s counter.old bank.old level.old flags.old spare.old) ram
        result (controlled s counter.new bank.new level.new flags.new spare.new) ram }
{
    let f = flags::unpack(*flags);
    let b = *bank as u32;
    match what {
        Control::Nop => Ok(()),
        Control::Incf => select(bank, b + 1),
        Control::Decf => select(bank, b + 3),
        Control::Ldf => select(bank, number),
        Control::Rcf => set(flags, flags::rcf(f)),
        Control::Scf => set(flags, flags::scf(f)),
        Control::Ccf => set(flags, flags::ccf(f)),
        Control::Zcf => set(flags, flags::zcf(f)),
        Control::Exf => exchange(flags, spare),
        Control::Jp16 => go(counter, number),
        Control::Jp24 => go(counter, number),
        Control::Jr(cc) => jump(*flags, counter, cc, Size::Byte, number),
        Control::Jrl(cc) => jump(*flags, counter, cc, Size::Word, number),
        Control::Ei => admit(level, number),
    }
}
