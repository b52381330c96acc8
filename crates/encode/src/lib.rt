// From a decoded instruction its bytes (request K11).
#![tactic(auto)]

ghost use Rattle.std.specs.Prelude.{◌≡◌, length, ◌≤◌};
ghost use Rattle.encode.specs.One.{bytes_in, is_listed, refusal_number, end_number, end_of, Writes};

use code::Instruction;
use range::in_range;

pub mod spell;

// Why a call is refused that writes instructions or reads them.
#[derive(Clone, Copy, PartialEq, Eq)]
pub enum Refusal {
    // The bytes end within a listed instruction.
    Short,
    // They begin none.
    Unlisted,
    // A list has more than 64 instructions, or one that is not within the listed ranges.
    NoList,
    // The room is too short for the whole of it.
    NoRoom,
}

impl Refusal {
    // The number of a refusal.
    pub fn number(self) -> u8
        ensures { result ≡ refusal_number self }
    {
        match self {
            Refusal::Short => 3,
            Refusal::Unlisted => 4,
            Refusal::NoList => 30,
            Refusal::NoRoom => 31,
        }
    }
}

// The number of an end: 0 where the call was done.
pub fn number<T>(end: &Result<T, Refusal>) -> u8
    ensures { result ≡ end_number end.now }
{
    match end {
        Ok(_) => 0,
        Err(why) => why.number(),
    }
}

// How many bytes an instruction has.
pub fn length_of(i: Instruction) -> usize
    ensures value { result ≡ length (bytes_in i) }
    ensures bounded { result ≤ 512 }
{
    spell::length_of(spell::code_of(i.op, i.size, i.operand))
}

// Whether an instruction is a listed one: within its range, and as long as its bytes.
pub fn listed(i: Instruction) -> bool
    ensures { result ≡ is_listed i }
{
    in_range(i.op, i.size, i.operand) && i.length == length_of(i)
}

// How a writing ends, and how many bytes it writes: 30 is judged before 31.
#[tactic(auto, unfolding(crate::specs::One::end_of))]
pub fn end_of(good: bool, size: usize, room: usize) -> Result<usize, Refusal>
    ensures { result ≡ end_of good size room }
{
    if !good {
        return Err(Refusal::NoList);
    }
    if size > room {
        return Err(Refusal::NoRoom);
    }
    Ok(size)
}

// Writes a listed instruction at the front of the room and tells how many bytes it has, or writes nothing.
#[tactic(auto, using(crate::proofs::Writing::done_so, crate::proofs::Writing::laid_bytes))]
pub fn write(i: Instruction, out: &mut [u8]) -> Result<usize, Refusal>
    ensures { Writes (is_listed i) (bytes_in i) out.old result out.new }
{
    let n = end_of(listed(i), length_of(i), out.len())?;
    spell::write(spell::code_of(i.op, i.size, i.operand), out);
    Ok(n)
}
