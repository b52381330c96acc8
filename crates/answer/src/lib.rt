// Why a call is refused, the number that stands for it, and the address that goes with it.
#![tactic(auto)]

ghost use Rattle.std.specs.Prelude.{◌≡◌};
ghost use Rattle.answer.specs.declared.Why.TheVariants.{Missing};
ghost use Rattle.answer.specs.Number.{why_number, why_at, number_of, at_of};

// The reasons, in the order in which they are looked for.
#[derive(Clone, Copy)]
pub enum Why {
    // A run is asked for more than 1,000,000 steps.
    TooMany,
    // RAM or ROM is longer than 65,536 bytes.
    TooLong,
    // The state is not valid, an address to show is too high, or a saved record, or the room for one, breaks its rules.
    Invalid,
    // A request's level is not 1 to 7, or its vector's address is too high.
    BadRequest,
    // A record to move back to the old form has a mark, or its nesting count is not 0.
    NoOldForm,
    // No memory at the counter, or an instruction that goes on where its memory ends.
    NoCode,
    // The bytes begin no listed instruction.
    Unlisted,
    // A jump would decide by a flag that nobody defined, or PUSH F or PUSH SR would store one.
    Undefined,
    // An operand is not whole in one memory: the address of its missing byte.
    Missing(u32),
    // A store would go to ROM: the address of its first byte.
    ToRom(u32),
}

// How a call ended: it is done, or refused for a reason.
pub type Answer = Result<(), Why>;

// The address of a byte that is missing: a load is refused with 5 or not at all.
#[derive(Clone, Copy)]
pub struct MissingByte(pub u32);

impl From<MissingByte> for Why {
    ghost from_gives = { λ byte why. why ≡ Missing byte.0 };

    fn from(byte: MissingByte) -> Why {
        Why::Missing(byte.0)
    }
}

impl Why {
    // The number of a reason.
    pub fn number(self) -> u8
        ensures { result ≡ why_number self }
    {
        match self {
            Why::TooMany => 7,
            Why::TooLong => 1,
            Why::Invalid => 2,
            Why::BadRequest => 9,
            Why::NoOldForm => 10,
            Why::NoCode => 3,
            Why::Unlisted => 4,
            Why::Undefined => 8,
            Why::Missing(_) => 5,
            Why::ToRom(_) => 6,
        }
    }

    // The address that goes with a reason: 0 where there is none.
    pub fn address(self) -> u32
        ensures { result ≡ why_at self }
    {
        match self {
            Why::Missing(a) => a,
            Why::ToRom(a) => a,
            _ => 0,
        }
    }
}

// The number of an answer: 0 where the call was done.
pub fn number(a: Answer) -> u8
    ensures { result ≡ number_of a }
{
    match a {
        Ok(()) => 0,
        Err(why) => why.number(),
    }
}

// The address that goes with an answer: 0 where there is none.
pub fn at(a: Answer) -> u32
    ensures { result ≡ at_of a }
{
    match a {
        Ok(()) => 0,
        Err(why) => why.address(),
    }
}
