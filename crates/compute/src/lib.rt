// What an instruction puts: what is made of its operands.
#![tactic(auto)]

ghost use Rattle.std.specs.Prelude.{◌≡◌};
ghost use Rattle.compute.specs.Compute.{stores_of};

use alu::Arith;

pub mod form;
pub mod register;
pub mod scaling;

// Whether the result is put; of CP only the flags are.
fn stores(op: Arith) -> bool
    ensures { result ≡ stores_of op }
{
    op != Arith::Cp
}
