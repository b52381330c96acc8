// The listed codes: what an instruction is, and what the bytes of one can say.
#![tactic(auto)]

ghost use Rattle.std.specs.Prelude.{◌≡◌};
ghost use Rattle.code.specs.Unread.{why_of};
ghost use Rattle.code.specs.Written.{constant_in, register_in};

use alu::{Arith, Change};
use answer::Why;
use feed::cycle::Cycle;
use feed::scale::Scale;
use little::Size;

// Where a memory form's address comes from: a register, a register and a displacement, or the code alone.
#[derive(Clone, Copy)]
pub enum Base {
    Indirect(u8),
    Displaced(u8),
    Absolute8,
    Absolute16,
    Absolute24,
}

// The number is the displacement or the address as it stands in the code, and 0 where there is none.
#[derive(Clone, Copy)]
pub struct MemoryForm {
    pub base: Base,
    pub number: u32,
}

#[derive(Clone, Copy)]
pub enum Operand {
    Register(u8), // 0 to 7, of the instruction's size, in the current bank
    Named(u8), // by a code byte, which can name any part of any bank
    Constant(u32),
    Memory(MemoryForm),
}

impl Operand {
    // The number that an operand is; 0 where it is none.
    pub fn constant(self) -> u32
        ensures { result ≡ constant_in self }
    {
        match self {
            Operand::Constant(n) => n,
            _ => 0,
        }
    }

    // The code, 0 to 7, of the register that an operand is; 0 where it is none.
    pub fn register(self) -> u8
        ensures { result ≡ register_in self }
    {
        match self {
            Operand::Register(r) => r,
            _ => 0,
        }
    }
}

// A copy or a compare of one element: of which size, up or down, again until the counter BC is 0 or not, and the codes of the
// pointers. A copy reads at `from` and writes at `to`; a compare reads at `from`, and its `to` is the same.
#[derive(Clone, Copy)]
pub struct Form {
    pub copies: bool,
    pub size: Size,
    pub up: bool,
    pub again: bool,
    pub to: u8,
    pub from: u8,
}

// What changes the counter, the bank, the level and the flags alone. JR and JRL have their condition.
#[derive(Clone, Copy)]
pub enum Control {
    Nop,
    Incf,
    Decf,
    Ldf,
    Rcf,
    Scf,
    Ccf,
    Zcf,
    Exf,
    Jp16,
    Jp24,
    Jr(u8),
    Jrl(u8),
    Ei,
}

// What is done with the stack.
#[derive(Clone, Copy)]
pub enum Stack {
    PushF,
    PopF,
    Push,
    Pop,
    Call16,
    Call24,
    Calr,
    Ret,
}

// SR on the stack, and the return from an interrupt.
#[derive(Clone, Copy)]
pub enum Interrupt {
    PushSr,
    PopSr,
    Reti,
}

// The other operand of an operation on two, and where the result goes.
#[derive(Clone, Copy)]
pub enum Side {
    First(u8), // the register of a code is the first, and gets the result
    Second(u8), // the register of a code is the second, and the operand gets the result
    With(u32), // a number is the second, and the operand gets the result
}

// What is put; where nothing else is said, into the operand.
#[derive(Clone, Copy)]
pub enum Use {
    Number(u32),
    From(u8), // the register of a code
    Load(u8), // the operand's value, into the register of a code
    Compute(Arith, Side),
    Changed(Change), // what is made of the operand's value alone
    Scaled(Scale, u8), // the register whose lower half is the register of a code, by the operand
    ScaledWith(Scale, u32), // the register whose lower half is the operand, by a number
    Cycled(Cycle), // a pointer that goes round in a table
}

// What is done, by the kind of work. A code or a number in it stood after the operand's bytes.
#[derive(Clone, Copy)]
pub enum Op {
    Controls(Control),
    Stacks(Stack),
    Puts(Use),
    Sets(u8), // the register of a code to the operand's number
    Blocks(Form),
    Interrupts(Interrupt),
}

#[derive(Clone, Copy)]
pub struct Instruction {
    pub op: Op,
    pub size: Size,
    pub operand: Operand,
    pub length: usize,
}

// Why the bytes are no instruction. Short: they begin a listed one and are not the whole of it. Unlisted: they begin none.
#[derive(Clone, Copy)]
pub enum Unread {
    Short,
    Unlisted,
}

// The instruction that a code begins with, or why there is none.
pub type Decoded = Result<Instruction, Unread>;

impl From<Unread> for Why {
    ghost from_gives = { λ unread why. why ≡ why_of unread };

    fn from(unread: Unread) -> Why {
        match unread {
            Unread::Short => Why::NoCode,
            Unread::Unlisted => Why::Unlisted,
        }
    }
}

// What a code says whose first byte is 00 to 7F: with its number, or its size and operand, and how many bytes it has.
#[derive(Clone, Copy)]
pub enum Alone {
    Controls(Control, u32, usize),
    Stacks(Stack, Size, Operand, usize),
    Sets(u8, Size, u32, usize),
    Interrupts(Interrupt, usize),
    Short,
    Unlisted,
}

// What a register form says of its register, and how many bytes it has. The fields lie side by side, and not in a `Use`: an enum
// in an enum was measured to be slower.
#[derive(Clone, Copy)]
pub enum OfRegister {
    Number(u32, usize),
    From(u8, usize),
    Load(u8, usize),
    Compute(Arith, u8, usize), // with the register of a code, which is the first and gets the result
    With(Arith, u32, usize),
    Changed(Change, usize),
    Rest, // what `OfFeed` says: those forms are read and done in a function of their own, which was measured to be faster for all others
    Short,
    Unlisted,
}

// What a form of the feed calculation says of its register (request K7), and how many bytes it has.
#[derive(Clone, Copy)]
pub enum OfFeed {
    Scaled(Scale, u8, usize),
    ScaledWith(Scale, u32, usize),
    Cycled(Cycle, usize),
    Short,
    Unlisted,
}

// Which register a register form is of, and how many code bytes named it, none or one.
#[derive(Clone, Copy)]
pub enum Chosen {
    Register(Operand, usize),
    Short,
    Unlisted,
}

// A memory form, and how many bytes it has.
#[derive(Clone, Copy)]
pub enum Begun {
    Form(Base, u32, usize),
    Short,
    Unlisted,
}

// What the byte after a memory form says.
#[derive(Clone, Copy)]
pub enum OfMemory {
    Load(u8, Size, usize),
    From(u8, Size, usize),
    Compute(Arith, u8, Size, usize), // with the register of a code, which is the first and gets the result
    ComputeInto(Arith, u8, Size, usize), // the register is the second, and memory gets the result
    Blocks(Form, usize),
    Short,
    Unlisted,
}
