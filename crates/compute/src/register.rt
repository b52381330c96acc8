// What is put where the operand is in the registers, by where it begins: no memory refuses it.
ghost use Rattle.std.specs.Prelude.{◌≡◌, List, ℕ};
ghost use Rattle.code.specs.declared.Side.TheVariants.{First, With};
ghost use Rattle.code.specs.declared.Use.TheVariants.{Compute, Changed};
ghost use Rattle.state.specs.declared.State.{State};
ghost use Rattle.state.specs.inner.Lent.{banked_with};
ghost use Rattle.state.specs.inner.Field.{field_in, field_put, PutWithin};
ghost use Rattle.operand.specs.inner.Does.{Does};
ghost use Rattle.operand.specs.inner.Placed.{BeginsAt};
ghost use Rattle.compute.specs.Compute.{puts_of};

use crate::stores;
use alu::{Arith, Change};
use answer::Answer;
use code::Operand;
use little::Size;
use state::Bank;
use state::named::{Field, of_register};

// One part into another.
pub fn load(from: Field, to: Field, size: Size, regs: &mut [u32; 20])
    ensures regs_after { regs.new ≡ field_put regs.old size to (field_in regs.old size from) }
    ensures put_within { PutWithin regs.old regs.new size to (field_in regs.old size from) }
{
    let v = state::named::read(&*regs, size, from);
    state::named::write(regs, size, to, v);
}

// An operation on the register n and the operand, into n; CP puts nothing.
#[tactic(auto, using(operand::proofs::Placed::value_at_lem, operand::proofs::Placed::register_held), unfolding(crate::specs::Compute::puts_of, operand::specs::Flag::flagged, state::specs::State::with_flags, state::specs::State::with_both_flags))]
pub fn operate(
    op: Arith,
    n: u8,
    size: Size,
    r: Field,
    bank: Bank,
    flags: &mut u16,
    regs: &mut [u32; 20],
)
    ensures { (o : Operand) → BeginsAt bank size o r → (s : State) (ram rom : List ℕ) →
        Does (λ t m. puts_of (Compute op (First n)) size o t m rom)
        (banked_with s regs.old bank flags.old) ram
        (Ok tt) (banked_with s regs.new bank flags.new) ram }
{
    let to = of_register(bank, size, n);
    let x = state::named::read(&*regs, size, to);
    let v = state::named::read(&*regs, size, r);
    let w = alu::operate(op, size, x, v, flags);
    if stores(op) {
        state::named::write(regs, size, to, w);
    }
}

// An operation on the operand and a number.
#[tactic(auto, using(operand::proofs::Placed::value_at_lem), unfolding(crate::specs::Compute::puts_of, operand::specs::Flag::flagged, state::specs::State::with_flags, state::specs::State::with_both_flags))]
pub fn with(op: Arith, n: u32, size: Size, r: Field, flags: &mut u16, regs: &mut [u32; 20])
    ensures { (o : Operand) (bank : Bank) → BeginsAt bank size o r → (s : State) (ram rom : List ℕ) →
        Does (λ t m. puts_of (Compute op (With n)) size o t m rom)
        (banked_with s regs.old bank flags.old) ram
        (Ok tt) (banked_with s regs.new bank flags.new) ram }
{
    let v = state::named::read(&*regs, size, r);
    let w = alu::operate(op, size, v, n, flags);
    if stores(op) {
        state::named::write(regs, size, r, w);
    }
}

// A change of the operand.
pub fn change(how: Change, size: Size, r: Field, flags: &mut u16, regs: &mut [u32; 20])
    ensures { (o : Operand) (bank : Bank) → BeginsAt bank size o r → (s : State) (ram rom : List ℕ) →
        Does (λ t m. puts_of (Changed how) size o t m rom)
        (banked_with s regs.old bank flags.old) ram
        (Ok tt) (banked_with s regs.new bank flags.new) ram }
{
    let v = state::named::read(&*regs, size, r);
    let w = alu::changed(how, size, v, flags);
    state::named::write(regs, size, r, w);
}
