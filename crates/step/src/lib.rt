// One step: the instruction at the counter is done as the book says, or refused and nothing changes.
#![tactic(auto)]

ghost use Rattle.std.specs.Prelude.{◌≡◌};
ghost use Rattle.memory.specs.Access.{code_at};
ghost use Rattle.code.specs.Listed.{decode_of};
ghost use Rattle.step.specs.Result.{done_with, refused_with, outcome};
ghost use Rattle.operand.specs.Try.{leaves};
ghost use Rattle.turn.specs.Once.{once_of};
ghost use Rattle.step.specs.Step.{too_long, StepMeets};
ghost use Rattle.step.specs.Show.{judged_of, length_in, ShowAnswerMeets, ShowMeets};
ghost use Rattle.step.specs.Reset.{ResetMeets};

use answer::{Answer, Why};
use code::Decoded;
use little::ADDRESSES;
use state::State;

#[derive(Clone, Copy)]
pub struct Stepped {
    pub state: State,
    pub answer: Answer,
}

fn done(s: State) -> Stepped
    ensures { result ≡ done_with s }
{
    Stepped {
        state: s,
        answer: Ok(()),
    }
}

fn refuse(given: State, w: Why) -> Stepped
    ensures { result ≡ refused_with given w }
{
    Stepped {
        state: given,
        answer: Err(w),
    }
}

fn decode_at<'a>(ram: &'a [u8], rom: &'a [u8], at: u32) -> Decoded
    ensures { result ≡ decode_of (code_at ram.now rom.now at) }
{
    decode::decode(memory::fetch(ram, rom, at))
}

// What stands at the counter, done or refused: one of many.
fn whole_once(s: State, ram: &mut [u8], rom: &[u8]) -> Stepped
    ensures { outcome result ram.new ≡ leaves s ram.old (once_of s ram.old rom.now) }
{
    let ran = turn::many(s, ram, rom, 1);
    Stepped {
        state: ran.state,
        answer: ran.answer,
    }
}

// Whether a memory is longer than 65,536 bytes.
pub fn too_long(ram_len: usize, rom_len: usize) -> bool
    ensures { result ≡ too_long ram_len rom_len }
{
    (65536 < ram_len) | (65536 < rom_len)
}

// One step, with all its checks.
pub fn step(s: State, ram: &mut [u8], rom: &[u8]) -> Stepped
    ensures { StepMeets s ram.old rom.now result ram.new }
{
    if too_long(ram.len(), rom.len()) {
        return refuse(s, Why::TooLong);
    }
    if s.valid() {
        return whole_once(s, ram, rom);
    }
    refuse(s, Why::Invalid)
}

fn judged(d: Decoded) -> Answer
    ensures { result ≡ judged_of d }
{
    d?;
    Ok(())
}

// Whether there is an instruction to show at an address.
pub fn show_answer<'a>(ram: &'a [u8], rom: &'a [u8], at: u32) -> Answer
    ensures { ShowAnswerMeets ram.now rom.now at result }
{
    if too_long(ram.len(), rom.len()) {
        return Err(Why::TooLong);
    }
    if at < ADDRESSES {
        return judged(decode_at(ram, rom, at));
    }
    Err(Why::Invalid)
}

fn length_in(code: &[u8]) -> usize
    ensures { result ≡ length_in (decode_of code.now) }
{
    decode::decode(code).map_or(0, |i| i.length)
}

// The bytes of the instruction at an address, as a part of the memory that holds them; none where it is refused.
pub fn show<'a>(ram: &'a [u8], rom: &'a [u8], at: u32) -> &'a [u8]
    ensures { ShowMeets ram.now rom.now at ram.entry.ref_ptr rom.entry.ref_ptr result.now result.ref_ptr }
{
    if too_long(ram.len(), rom.len()) {
        return &rom[..0];
    }
    if at < ADDRESSES {
        let code = memory::fetch(ram, rom, at);
        let n = length_in(code);
        if n == 0 {
            return &rom[..0];
        }
        return &code[..n];
    }
    &rom[..0]
}

pub fn reset(ram: &[u8], rom: &[u8]) -> Stepped
    ensures { ResetMeets ram.now rom.now result }
{
    if too_long(ram.len(), rom.len()) {
        return refuse(State::zero(), Why::TooLong);
    }
    match memory::load_vector(ram, rom, State::VECTOR) {
        Ok(v) => done(State::at_reset(v)),
        Err(byte) => refuse(State::zero(), Why::from(byte)),
    }
}
