// A state as a record of bytes.
#![tactic(auto)]

ghost use Rattle.std.specs.Prelude.{◌≡◌, ◌++◌, length, get_or, take, drop, ◌+◌, ◌≤◌};
ghost use Rattle.little.specs.Bytes.{value_of, bytes_from};
ghost use Rattle.saved.specs.Record.{old_length, longs_bytes, old_record_of, marks_byte, fits_old, SaveMeets, OldSaveMeets};
ghost use Rattle.saved.specs.Record.{longs_at, nesting_at, state_at, zero_at, fixed_at, refused_record, restored_from, LoadMeets, OldLoadMeets};

use answer::{Answer, Why};
use state::State;
use state::status::{bank_in, flags_in, level_in, ones_in, sr};

// A state that was read, or the all-zero state with the refusal.
#[derive(Clone, Copy)]
pub struct Restored {
    pub state: State,
    pub answer: Answer,
}

// How many bytes a record has.
pub const LENGTH: usize = 92;

// The same of the old record, which is the front of the new one and has no count and no marks.
pub const OLD_LENGTH: usize = 88;

// Writes a number of n bytes from a place on; what stands before it stays.
fn write_at(out: &mut [u8], at: usize, n: usize, v: u32)
    requires { at + n ≤ length out.old }
    ensures { take (at + n) out.new ≡ take at out.old ++ bytes_from n v }
{
    let e = at + n;
    little::write(&mut out[at..e], v);
}

// The number in n bytes from a place on.
fn read_at(bytes: &[u8], at: usize, n: usize) -> u32
    requires { (at + n ≤ length bytes.now) × (n ≤ 4) }
    ensures { result ≡ value_of (take n (drop at bytes.now)) }
{
    let e = at + n;
    little::read(&bytes[at..e])
}

// The twenty registers, at the front of a record.
fn save_longs(s: State, out: &mut [u8])
    requires { old_length ≤ length out.old }
    ensures { take 80 out.new ≡ longs_bytes s.registers }
{
    for i in 0..20 {
        write_at(out, 4 * i, 4, s.registers[i]);
    }
}

// The front of a record, which is all that an old one has: of F' the low byte goes here, without its marks.
fn save_front(s: State, out: &mut [u8])
    requires { old_length ≤ length out.old }
    ensures { take old_length out.new ≡ old_record_of s }
{
    save_longs(s, out);
    write_at(out, 80, 4, s.counter);
    write_at(out, 84, 2, sr(s));
    write_at(out, 86, 1, s.spare as u32);
    write_at(out, 87, 1, 0);
}

// The marks of F and above them those of F': a byte, where the state is valid.
fn marks_byte(s: State) -> u32
    ensures { result ≡ marks_byte s }
{
    (s.flags / 256) as u32 + 4 * ((s.spare / 256) as u32)
}

// Whether the old record leaves nothing of the state out.
pub fn fits_old(s: State) -> bool
    ensures { result ≡ fits_old s }
{
    (marks_byte(s) == 0) & (s.nesting == 0)
}

// Saves a valid state into a buffer of a record's length; any other state or buffer is refused, and the buffer stays. It is laid into each
// call, since nearly all of a reset state is known there (docs/DECISIONS.md, 128).
#[inline(always)]
pub fn save(s: State, out: &mut [u8]) -> Answer
    ensures { SaveMeets s out.old result out.new }
{
    if s.valid() {
        if out.len() == LENGTH {
            save_front(s, out);
            write_at(out, 88, 2, s.nesting as u32);
            write_at(out, 90, 1, marks_byte(s));
            write_at(out, 91, 1, 0);
            return Ok(());
        }
    }
    Err(Why::Invalid)
}

// The same in the old form: a state that this would not keep whole is refused too.
pub fn save_old(s: State, out: &mut [u8]) -> Answer
    ensures { OldSaveMeets s out.old result out.new }
{
    if s.valid() {
        if fits_old(s) {
            if out.len() == OLD_LENGTH {
                save_front(s, out);
                return Ok(());
            }
        }
    }
    Err(Why::Invalid)
}

fn longs(bytes: &[u8]) -> [u32; 20]
    requires { 80 ≤ length bytes.now }
    ensures { result ≡ longs_at 20 bytes.now }
{
    let mut registers = [0u32; 20];
    for i in 0..20 {
        registers[i] = read_at(bytes, 4 * i, 4);
    }
    registers
}

// The byte at an index; 0 past the end, so that an old record reads as one with no marks and the count 0.
fn byte_at(bytes: &[u8], i: usize) -> u8
    ensures { result ≡ get_or bytes.now i 0 }
{
    if i < bytes.len() { bytes[i] } else { 0 }
}

fn nesting_at(bytes: &[u8]) -> u16
    ensures { result ≡ nesting_at bytes.now }
{
    byte_at(bytes, 88) as u16 + 256 * (byte_at(bytes, 89) as u16)
}

fn state_at(bytes: &[u8]) -> State
    requires { old_length ≤ length bytes.now }
    ensures { result ≡ state_at bytes.now }
{
    let registers = longs(bytes);
    let counter = read_at(bytes, 80, 4);
    let sr = read_at(bytes, 84, 2);
    let marks = byte_at(bytes, 90) as u16;
    let flags = flags_in(sr) as u16 + 256 * (marks % 4);
    let spare = byte_at(bytes, 86) as u16 + 256 * (marks / 4);
    State {
        registers,
        counter,
        bank: bank_in(sr),
        level: level_in(sr),
        flags,
        spare,
        nesting: nesting_at(bytes),
    }
}

fn zero_at(bytes: &[u8], i: usize) -> bool
    ensures { result ≡ zero_at i bytes.now }
{
    byte_at(bytes, i) == 0
}

// Whether the bits that every record has the same are there.
fn fixed_at(bytes: &[u8]) -> bool
    requires { old_length ≤ length bytes.now }
    ensures { result ≡ fixed_at bytes.now }
{
    let ones = ones_in(read_at(bytes, 84, 2));
    ones & (zero_at(bytes, 87) & zero_at(bytes, 91))
}

fn refuse() -> Restored
    ensures { result ≡ refused_record Why.Invalid }
{
    Restored {
        answer: Err(Why::Invalid),
        state: State::zero(),
    }
}

// Loading in both forms, which differ in the length alone.
fn load_of(bytes: &[u8], n: usize) -> Restored
    requires { old_length ≤ n }
    ensures { result ≡ restored_from n bytes.now }
{
    if bytes.len() != n {
        return refuse();
    }
    let s = state_at(bytes);
    if s.valid() & fixed_at(bytes) {
        return Restored {
            answer: Ok(()),
            state: s,
        };
    }
    refuse()
}

// The state of a record; where the record breaks its rules, the refusal and the all-zero state.
pub fn load(bytes: &[u8]) -> Restored
    ensures { LoadMeets bytes.now result }
{
    load_of(bytes, LENGTH)
}

// The same of an old record: its state has no marks and the count 0.
pub fn load_old(bytes: &[u8]) -> Restored
    ensures { OldLoadMeets bytes.now result }
{
    load_of(bytes, OLD_LENGTH)
}
