// What the feed calculation puts, where its operands are in the registers.
ghost use Rattle.std.specs.Prelude.{◌≡◌, List, ℕ};
ghost use Rattle.little.specs.Width.{twice_of};
ghost use Rattle.code.specs.declared.Use.TheVariants.{Scaled, ScaledWith, Cycled};
ghost use Rattle.state.specs.declared.State.{State};
ghost use Rattle.state.specs.inner.Lent.{banked_with};
ghost use Rattle.operand.specs.inner.Does.{Does};
ghost use Rattle.operand.specs.inner.Placed.{BeginsAt};
ghost use Rattle.compute.specs.Compute.{puts_of, scaled_at};

use answer::Answer;
use code::Operand;
use feed::cycle::{Cycle, cycled};
use feed::scale::{Scale, scaled};
use little::Size;
use state::Bank;
use state::named::{Field, of_register, read, wide, write};

// What begins at a field and is twice as wide as a size, by a number.
fn scale_at(how: Scale, to: Field, size: Size, v: u32, flags: &mut u16, regs: &mut [u32; 20])
    ensures { (o : Operand) (bank : Bank) → BeginsAt bank (twice_of size) o to → (s : State) (ram rom : List ℕ) →
        Does (λ t m. scaled_at how size o v t m rom)
        (banked_with s regs.old bank flags.old) ram
        (Ok tt) (banked_with s regs.new bank flags.new) ram }
{
    let wider = size.twice();
    let x = read(&*regs, wider, to);
    let w = scaled(how, wider, x, v, flags);
    write(regs, wider, to, w);
}

// The register that the register n is half of, by the operand.
pub fn scale(
    how: Scale,
    n: u8,
    size: Size,
    r: Field,
    bank: Bank,
    flags: &mut u16,
    regs: &mut [u32; 20],
)
    ensures { (o : Operand) → BeginsAt bank size o r → (s : State) (ram rom : List ℕ) →
        Does (λ t m. puts_of (Scaled how n) size o t m rom)
        (banked_with s regs.old bank flags.old) ram
        (Ok tt) (banked_with s regs.new bank flags.new) ram }
{
    let v = read(&*regs, size, r);
    let to = wide(size, of_register(bank, size, n));
    scale_at(how, to, size, v, flags, regs);
}

// The register that the operand is half of, by a number.
#[tactic(auto, using(operand::proofs::Placed::wide_at_lem), unfolding(crate::specs::Compute::puts_of))]
pub fn scale_with(how: Scale, n: u32, size: Size, r: Field, flags: &mut u16, regs: &mut [u32; 20])
    ensures { (o : Operand) (bank : Bank) → BeginsAt bank size o r → (s : State) (ram rom : List ℕ) →
        Does (λ t m. puts_of (ScaledWith how n) size o t m rom)
        (banked_with s regs.old bank flags.old) ram
        (Ok tt) (banked_with s regs.new bank flags.new) ram }
{
    scale_at(how, wide(size, r), size, n, flags, regs);
}

// A pointer that goes round in a table.
pub fn cycle(how: Cycle, size: Size, r: Field, regs: &mut [u32; 20])
    ensures { (o : Operand) (bank : Bank) → BeginsAt bank size o r → (s : State) (f : ℕ) (ram rom : List ℕ) →
        Does (λ t m. puts_of (Cycled how) size o t m rom)
        (banked_with s regs.old bank f) ram
        (Ok tt) (banked_with s regs.new bank f) ram }
{
    let v = read(&*regs, size, r);
    write(regs, size, r, cycled(how, size, v));
}
