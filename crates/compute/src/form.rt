// What is put where one operand is in memory, at an address: a refused load or store changes nothing.
ghost use Rattle.std.specs.Prelude.{◌≡◌};
ghost use Rattle.state.specs.declared.State.{State};
ghost use Rattle.state.specs.State.{banked};
ghost use Rattle.state.specs.inner.Lent.{banked_with};
ghost use Rattle.operand.specs.inner.Does.{Does};
ghost use Rattle.compute.specs.inner.Form.{loaded_from, stored_to, first_with, second_with};

use crate::stores;
use alu::Arith;
use answer::Answer;
use little::Size;
use state::Bank;

// Into the register r.
pub fn load(
    r: u8,
    at: u32,
    size: Size,
    bank: Bank,
    regs: &mut [u32; 20],
    ram: &[u8],
    rom: &[u8],
) -> Answer
    ensures { (s : State) → Does (λ t m. loaded_from r at size t m rom.now)
        (banked s regs.old bank) ram.now
        result (banked s regs.new bank) ram.now }
{
    let v = memory::load(ram, rom, at, size)?;
    state::write(regs, bank, size, r, v);
    Ok(())
}

// From the register r.
#[tactic(auto, using(operand::proofs::Laws::stored, operand::proofs::Laws::not_stored))]
pub fn store(
    r: u8,
    at: u32,
    size: Size,
    bank: Bank,
    regs: &[u32; 20],
    ram: &mut [u8],
    rom: &[u8],
) -> Answer
    ensures { (s : State) → Does (λ t m. stored_to r at size t m rom.now)
        (banked s regs.now bank) ram.old
        result (banked s regs.now bank) ram.new }
{
    let v = state::read(regs, bank, size, r);
    memory::store(ram, rom, at, size, v)
}

// The operation on the register r and the value there, into the register; CP puts nothing.
#[tactic(auto, unfolding(operand::specs::Flag::flagged, state::specs::State::with_flags, state::specs::State::with_both_flags))]
pub fn first(
    op: Arith,
    r: u8,
    at: u32,
    size: Size,
    bank: Bank,
    flags: &mut u16,
    regs: &mut [u32; 20],
    ram: &[u8],
    rom: &[u8],
) -> Answer
    ensures { (s : State) → Does (λ t m. first_with op r at size t m rom.now)
        (banked_with s regs.old bank flags.old) ram.now
        result (banked_with s regs.new bank flags.new) ram.now }
{
    let v = memory::load(ram, rom, at, size)?;
    let x = state::read(&*regs, bank, size, r);
    let w = alu::operate(op, size, x, v, flags);
    if stores(op) {
        state::write(regs, bank, size, r, w);
    }
    Ok(())
}

// The operation on the value there and the register r, back there; CP puts nothing. A refused store leaves F.
#[tactic(auto, using(operand::proofs::Laws::stored, operand::proofs::Laws::not_stored), unfolding(operand::specs::Flag::flagged, state::specs::State::with_flags, state::specs::State::with_both_flags))]
pub fn second(
    op: Arith,
    r: u8,
    at: u32,
    size: Size,
    bank: Bank,
    flags: &mut u16,
    regs: &[u32; 20],
    ram: &mut [u8],
    rom: &[u8],
) -> Answer
    ensures { (s : State) → Does (λ t m. second_with op r at size t m rom.now)
        (banked_with s regs.now bank flags.old) ram.old
        result (banked_with s regs.now bank flags.new) ram.new }
{
    let v = memory::load(&*ram, rom, at, size)?;
    let y = state::read(regs, bank, size, r);
    let mut after = *flags;
    let w = alu::operate(op, size, v, y, &mut after);
    if stores(op) {
        memory::store(ram, rom, at, size, w)?;
    }
    *flags = after;
    Ok(())
}
