// Operations on two operands, and changes of one, of the three sizes, with their flags.
#![tactic(auto)]

ghost use Rattle.std.specs.Prelude.{◌≡◌};
ghost use Rattle.little.specs.Width.{bits_of};
ghost use Rattle.flags.specs.Flag.{packed_of, flags_of};
ghost use Rattle.alu.specs.Operation.{operated};

pub use crate::change::{Change, changed};
use crate::logic::{and, or, xor};
use flags::sum::{add, sub};
use flags::{settled, unpack};
use little::Size;

mod change;
mod count;
mod even;
mod extend;
mod logic;
mod shifter;

// The operations on two operands, in the order of their codes.
#[derive(Clone, Copy, PartialEq, Eq)]
pub enum Arith {
    Add,
    Adc,
    Sub,
    Sbc,
    And,
    Xor,
    Or,
    Cp,
}

// The shifts, in the order of their codes.
#[derive(Clone, Copy)]
pub enum Shift {
    Sla,
    Sra,
    Sll,
    Srl,
}

// The eight operations on two operands, with the carry in F. The value; the flags go into F, in each arm by itself, so that one packed F
// leaves the arms, and not a value and seven fields.
pub fn operate(op: Arith, size: Size, a: u32, b: u32, flags: &mut u16) -> u32
    ensures { (result ≡ (operated op (bits_of size) a b (flags_of flags.old).c).value)
        × (flags.new ≡ packed_of (operated op (bits_of size) a b (flags_of flags.old).c).flags) }
{
    let old = unpack(*flags);
    let carry = old.c;
    match op {
        Arith::Add => settled(add(size, a, b, false), flags),
        Arith::Adc => settled(add(size, a, b, carry), flags),
        Arith::Sub => settled(sub(size, a, b, false), flags),
        Arith::Sbc => settled(sub(size, a, b, carry), flags),
        Arith::And => settled(and(size, a, b), flags),
        Arith::Xor => settled(xor(size, a, b), flags),
        Arith::Or => settled(or(size, a, b), flags),
        Arith::Cp => settled(sub(size, a, b, false), flags),
    }
}
