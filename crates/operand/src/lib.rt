// The operand of an instruction: its address and its register.
#![tactic(auto)]

ghost use Rattle.std.specs.Prelude.{◌≡◌};
ghost use Rattle.little.specs.Width.{bits_of};
ghost use Rattle.operand.specs.Operand.{displaced, pointer_in, address_from};
ghost use Rattle.operand.specs.inner.Placed.{field_of};

use code::{Base, Operand};
use flags::width::top;
use little::{ADDRESSES, Size};
use state::Bank;
use state::named::{Field, of_code, of_register};

// x plus a number of a size with a sign, as an address: where its sign bit is one, it stands for itself less twice the weight of that bit.
pub fn displace(size: Size, x: u32, d: u32) -> u32
    ensures { result ≡ displaced (bits_of size) x d }
{
    let half = top(size);
    if half <= d {
        let below = (d - half).wrapping_sub(half);
        return x.wrapping_add(below) % ADDRESSES;
    }
    x.wrapping_add(d) % ADDRESSES
}

pub fn pointer(bank: Bank, regs: &[u32; 20], r: u8) -> u32
    ensures { result ≡ pointer_in regs.now bank r }
{
    state::read(regs, bank, Size::Long, r) % ADDRESSES
}

// The address that a memory form's base and number say.
pub fn address(bank: Bank, regs: &[u32; 20], base: Base, n: u32) -> u32
    ensures { result ≡ address_from regs.now bank base n }
{
    match base {
        Base::Indirect(r) => pointer(bank, regs, r),
        Base::Displaced(r) => displace(Size::Byte, state::read(regs, bank, Size::Long, r), n),
        Base::Absolute8 => n % ADDRESSES,
        Base::Absolute16 => n % ADDRESSES,
        Base::Absolute24 => n % ADDRESSES,
    }
}

// Where the register begins that an operand is; past the twenty where it is none.
pub fn field(bank: Bank, size: Size, operand: Operand) -> Field
    ensures { result ≡ field_of bank size operand }
{
    let none = Field {
        index: 20,
        start: 0,
    };
    match operand {
        Operand::Register(r) => of_register(bank, size, r),
        Operand::Named(c) => of_code(bank, c),
        Operand::Constant(_) => none,
        Operand::Memory(_) => none,
    }
}
