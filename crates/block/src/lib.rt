// Copies and compares: each round is a step.
#![tactic(auto)]

ghost use Rattle.std.specs.Prelude.{◌≡◌, false, not, ◌==◌};
ghost use Rattle.little.specs.declared.Size.TheVariants.{Word};
ghost use Rattle.little.specs.Width.{bits_of};
ghost use Rattle.flags.specs.Sums.{difference_of};
ghost use Rattle.state.specs.declared.State.{State};
ghost use Rattle.state.specs.Register.{register_at};
ghost use Rattle.state.specs.State.{banked};
ghost use Rattle.state.specs.inner.Lent.{banked_with, banked_at_with};
ghost use Rattle.operand.specs.inner.Does.{Does};
ghost use Rattle.operand.specs.Operand.{pointer_of, storing};
ghost use Rattle.memory.specs.Place.{place_of};
ghost use Rattle.block.specs.inner.Again.{in_rom, again_of};
ghost use Rattle.block.specs.Block.{counted, stepped_of, moved, copied, accumulator_in, compared, round_of, goes_on, ends_at};

use answer::Answer;
use code::Form;
use flags::Computed;
use little::{ADDRESSES, Size};
use memory::Place;
use operand::pointer;
use state::Bank;

// Whether BC is not 0.
fn more(bank: Bank, regs: &[u32; 20]) -> bool
    ensures { result ≡ not (register_at regs.now bank Word 1 == 0) }
{
    state::read(regs, bank, Size::Word, 1) != 0
}

// BC less one.
#[tactic(auto, using(state::proofs::Laws::register_lt, operand::proofs::Laws::less_is), unfolding(crate::specs::Block::counted))]
fn counted(bank: Bank, regs: &mut [u32; 20])
    ensures { (s : State) → banked s regs.new bank ≡ counted (banked s regs.old bank) }
{
    let bc = (state::read(&*regs, bank, Size::Word, 1) % 65536) as u16;
    state::write(regs, bank, Size::Word, 1, bc.wrapping_sub(1) as u32);
}

// A pointer's value past its element.
fn stepped(f: Form, x: u32) -> u32
    ensures { result ≡ stepped_of f x }
{
    let size = f.size;
    let n = size.bytes() as u32;
    if f.up {
        return x.wrapping_add(n);
    }
    x.wrapping_sub(n)
}

// A pointer past its element.
#[tactic(auto, unfolding(crate::specs::Block::moved))]
fn moved(f: Form, r: u8, bank: Bank, regs: &mut [u32; 20])
    ensures { (s : State) → banked s regs.new bank ≡ moved f r (banked s regs.old bank) }
{
    let x = state::read(&*regs, bank, Size::Long, r);
    let y = stepped(f, x);
    state::write(regs, bank, Size::Long, r, y);
}

fn copied(f: Form, bank: Bank, flags: &mut u16, regs: &mut [u32; 20])
    ensures { (s : State) → banked_with s regs.new bank flags.new
        ≡ copied f (banked_with s regs.old bank flags.old) }
{
    moved(f, f.from, bank, &mut *regs);
    moved(f, f.to, bank, &mut *regs);
    counted(bank, &mut *regs);
    let old = flags::unpack(*flags);
    *flags = flags::pack(flags::copy_flags(old, more(bank, &*regs)));
}

// A, WA or XWA less v. The size is written out, so that each arm is compiled for its own.
fn difference(bank: Bank, regs: &[u32; 20], size: Size, v: u32) -> Computed
    ensures { result ≡ difference_of (bits_of size) (accumulator_in regs.now bank size) v false }
{
    match size {
        Size::Byte => flags::sum::sub(Size::Byte, state::read(regs, bank, Size::Byte, 1), v, false),
        Size::Word => flags::sum::sub(Size::Word, state::read(regs, bank, Size::Word, 0), v, false),
        Size::Long => flags::sum::sub(Size::Long, state::read(regs, bank, Size::Long, 0), v, false),
    }
}

fn compared(f: Form, v: u32, bank: Bank, flags: &mut u16, regs: &mut [u32; 20])
    ensures { (s : State) → banked_with s regs.new bank flags.new
        ≡ compared f v (banked_with s regs.old bank flags.old) }
{
    let size = f.size;
    let d = difference(bank, &*regs, size, v);
    let found = d.flags;
    moved(f, f.from, bank, &mut *regs);
    counted(bank, &mut *regs);
    let old = flags::unpack(*flags);
    *flags = flags::pack(flags::compare_flags(old, found, more(bank, &*regs)));
}

// The second half of a copy's round.
#[tactic(auto, using(operand::proofs::Laws::stored, operand::proofs::Laws::not_stored))]
fn copy(
    f: Form,
    v: u32,
    bank: Bank,
    flags: &mut u16,
    regs: &mut [u32; 20],
    ram: &mut [u8],
    rom: &[u8],
) -> Answer
    ensures { (s : State) → Does (λ t m. storing (copied f t) m rom.now (pointer_of t f.to) f.size v)
        (banked_with s regs.old bank flags.old) ram.old
        result (banked_with s regs.new bank flags.new) ram.new }
{
    let size = f.size;
    memory::store(ram, rom, pointer(bank, &*regs, f.to), size, v)?;
    copied(f, bank, flags, regs);
    Ok(())
}

// One round: what LDI, LDD, CPI and CPD do, but for the counter.
#[tactic(auto, unfolding(crate::specs::Block::round_of))]
fn one_round(
    f: Form,
    bank: Bank,
    flags: &mut u16,
    regs: &mut [u32; 20],
    ram: &mut [u8],
    rom: &[u8],
) -> Answer
    ensures { (s : State) → Does (λ t m. round_of f t m rom.now)
        (banked_with s regs.old bank flags.old) ram.old
        result (banked_with s regs.new bank flags.new) ram.new }
{
    let size = f.size;
    let v = memory::load(&*ram, rom, pointer(bank, &*regs, f.from), size)?;
    if f.copies {
        return copy(f, v, bank, flags, regs, ram, rom);
    }
    compared(f, v, bank, flags, regs);
    Ok(())
}

// The round that others call: a call and no more, so that a wrong round can be tried in its place.
pub fn round(
    f: Form,
    bank: Bank,
    flags: &mut u16,
    regs: &mut [u32; 20],
    ram: &mut [u8],
    rom: &[u8],
) -> Answer
    ensures { (s : State) → Does (λ t m. round_of f t m rom.now)
        (banked_with s regs.old bank flags.old) ram.old
        result (banked_with s regs.new bank flags.new) ram.new }
{
    one_round(f, bank, flags, regs, ram, rom)
}

#[tactic(auto, unfolding(crate::specs::Block::goes_on))]
fn goes_on(f: Form, bank: Bank, flags: u16, regs: &[u32; 20]) -> bool
    ensures { (s : State) → result ≡ goes_on f (banked_with s regs.now bank flags) }
{
    if f.again {
        if f.copies {
            return more(bank, regs);
        }
        let now = flags::unpack(flags);
        return more(bank, regs) & !now.z;
    }
    false
}

// The counter at the form again, where it goes on.
#[tactic(auto, unfolding(crate::specs::Block::ends_at, state::specs::State::with_counter))]
pub fn ended(f: Form, at: u32, bank: Bank, flags: u16, regs: &[u32; 20], counter: u32) -> u32
    ensures { (s : State) → banked_at_with s regs.now bank result flags
        ≡ ends_at f at (banked_at_with s regs.now bank counter flags) }
{
    if goes_on(f, bank, flags, regs) {
        return at % ADDRESSES;
    }
    counter
}

// Whether an address is in ROM, which no step changes.
pub fn in_rom(ram_len: usize, rom_len: usize, at: u32) -> bool
    ensures { result ≡ in_rom (place_of ram_len rom_len at 1) }
{
    matches!(memory::find(ram_len, rom_len, at, 1), Place::Rom(_))
}

// Whether another round is done in the same call.
pub fn again(f: Form, left: u32, bank: Bank, flags: u16, regs: &[u32; 20]) -> bool
    ensures { (s : State) → result ≡ again_of f left (banked_with s regs.now bank flags) }
{
    if goes_on(f, bank, flags, regs) {
        return 0 < left;
    }
    false
}
