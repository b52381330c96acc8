// A list of instructions in a row: written as bytes, and read from them (request K11).
#![tactic(auto)]

ghost use Rattle.std.specs.Prelude.{◌≡◌, true, ◌++◌, ◌≤◌, length, take, drop};
ghost use Rattle.encode.specs.One.{Writes};
ghost use Rattle.row.specs.Row.{most, row_of, row_read, list_in, is_list, blank, reading_of};

use code::{Control, Instruction, Op, Operand, Unread};
use decode::decode;
use encode::{Refusal, end_of, length_of, listed};
use little::Size;

// The most instructions of a list.
pub const MOST: usize = 64;

// A list: the first `count` of what is held. A count of more than 64 is a list that is too long, whatever is held.
#[derive(Clone, Copy)]
pub struct Instructions {
    pub held: [Instruction; MOST],
    pub count: usize,
}

// What stands where no instruction is held.
pub fn blank() -> Instruction
    ensures { result ≡ blank }
{
    Instruction {
        op: Op::Controls(Control::Nop),
        size: Size::Byte,
        operand: Operand::Constant(0),
        length: 1,
    }
}

// Reads a row of instructions from start to end.
#[tactic(auto, using(crate::proofs::Through::stops_full, crate::proofs::Through::stops_short, crate::proofs::Through::stops_unlisted, crate::proofs::Through::read_ends, crate::proofs::Through::some_bytes, crate::proofs::Through::few_bytes_read))]
pub fn read(code: &[u8]) -> Result<Instructions, Refusal>
    ensures { result ≡ reading_of (row_read most code.now) }
{
    let mut list = Instructions {
        held: [blank(); MOST],
        count: 0,
    };
    let mut rest = code;
    while !rest.is_empty() {
        if list.count >= MOST {
            return Err(Refusal::NoList);
        }
        match decode(rest) {
            Ok(i) => {
                list.held[list.count] = i;
                list.count += 1;
                rest = &rest[i.length..];
            }
            Err(Unread::Short) => return Err(Refusal::Short),
            Err(Unread::Unlisted) => return Err(Refusal::Unlisted),
        }
    }
    Ok(list)
}

// How many bytes a list has. Where the count is more than 64, all 64 are counted.
#[tactic(auto, using(crate::proofs::Lists::size_more), unfolding(crate::specs::Row::row_of))]
pub fn size_of(list: Instructions) -> usize
    ensures { result ≡ length (row_of (list_in list)) }
{
    let mut size: usize = 0;
    for i in &list.held[..list.count.min(MOST)] {
        size += length_of(*i);
    }
    size
}

// Whether a list can be written.
#[tactic(auto, using(crate::proofs::Lists::all_is), unfolding(crate::specs::Row::is_list))]
pub fn is_list(list: Instructions) -> bool
    ensures { result ≡ is_list list }
{
    list.count <= MOST && list.held[..list.count].iter().all(|i| listed(*i))
}

// Writes the instructions of a list that is good, into a room that is long enough.
#[tactic(auto, using(crate::proofs::Lists::few_in, crate::proofs::Lists::all_in, crate::proofs::Laying::laying_next, crate::proofs::Laying::wrote_next), unfolding(crate::specs::Row::row_of))]
fn lay(list: Instructions, out: &mut [u8])
    requires { (is_list list ≡ true) × (length (row_of (list_in list)) ≤ length out.old) }
    ensures { out.new ≡ row_of (list_in list) ++ drop (length (row_of (list_in list))) out.old }
{
    let mut at: usize = 0;
    for i in &list.held[..list.count] {
        at += encode::write(*i, &mut out[at..]).unwrap();
    }
}

// Writes a list at the front of the room and tells how many bytes it has, or writes nothing.
#[tactic(auto, using(encode::proofs::Writing::done_so))]
pub fn write(list: Instructions, out: &mut [u8]) -> Result<usize, Refusal>
    ensures { Writes (is_list list) (row_of (list_in list)) out.old result out.new }
{
    let n = end_of(is_list(list), size_of(list), out.len())?;
    lay(list, out);
    Ok(n)
}
