// The machine's state: twenty long registers, the counter, the bank, the interrupt level, two sets of flags and the nesting count.
#![tactic(auto)]

ghost use Rattle.std.specs.Prelude.{◌≡◌, ◌%◌, ◌<◌};
ghost use Rattle.state.specs.State.{banked, zero_state, reset_state, flags_valid, valid_of, long_of};
ghost use Rattle.state.specs.inner.Lent.{all_of};
ghost use Rattle.state.specs.Register.{get_bits, set_bits, start_of, width_of, get_slot, index_of, byte_part, slot_of, register_at, get_register, set_register};

use little::{ADDRESSES, Size, TOP_BYTE};

pub mod named;
pub mod status;

// A bank number: which of the four banks the codes 0 to 3 name.
#[derive(Clone, Copy)]
pub struct Bank(pub u8);

// An interrupt level.
#[derive(Clone, Copy)]
pub struct Level(pub u8);

#[derive(Clone, Copy)]
pub struct State {
    // XWA XBC XDE XHL of bank 0, of bank 1, of bank 2 and of bank 3, then XIX XIY XIZ XSP.
    pub registers: [u32; 20],
    pub counter: u32,
    pub bank: Bank,
    pub level: Level,
    // F, and F', which waits until it is exchanged. Above each stand the marks of its flags that nobody defined: 256 for H, 512 for V.
    pub flags: u16,
    pub spare: u16,
    // The nesting count: one more for each request that is taken, one less for each RETI, round at 16 bits.
    pub nesting: u16,
}

// A part of a long register.
#[derive(Clone, Copy)]
pub enum Part {
    Byte0,
    Byte1,
    Byte2,
    Byte3,
    Half0,
    Half1,
    Whole,
}

// Which of the twenty registers, and which part of it: whatever an instruction can name.
#[derive(Clone, Copy)]
pub struct Slot {
    pub index: usize,
    pub part: Part,
}

impl State {
    pub const STACK_AT_RESET: u32 = 0x100;

    pub const VECTOR: u32 = 0xFFFF00;

    // The state that a refusal gives where there is no other to give.
    pub fn zero() -> State
        ensures { result ≡ zero_state }
    {
        State {
            registers: [0; 20],
            counter: 0,
            bank: Bank(0),
            level: Level(0),
            flags: 0,
            spare: 0,
            nesting: 0,
        }
    }

    // The state after reset, with the counter from the low 24 bits of the vector.
    pub fn at_reset(vector: u32) -> State
        ensures { result ≡ reset_state vector }
    {
        let mut registers = [0u32; 20];
        registers[19] = State::STACK_AT_RESET;
        State {
            registers: registers,
            counter: vector % ADDRESSES,
            bank: Bank(0),
            level: Level(7),
            flags: 0,
            spare: 0,
            nesting: 0,
        }
    }

    pub fn valid(self) -> bool
        ensures { result ≡ valid_of self }
    {
        (self.counter < ADDRESSES)
            & ((self.bank.0 < 4)
                & ((self.level.0 < 8) & (flags_valid(self.flags) & flags_valid(self.spare))))
    }

    // The long register at a place of the twenty; 0 past them.
    pub fn long(self, i: usize) -> u32
        ensures { result ≡ long_of self i }
    {
        if i < 20 { self.registers[i] } else { 0 }
    }

    pub fn get(self, t: Slot) -> u32
        ensures { result ≡ get_slot self t }
    {
        let p = t.part;
        bits_of(p, self.long(t.index))
    }

    // The register of a size and a code, in the current bank.
    pub fn register(self, size: Size, code: u8) -> u32
        ensures { result ≡ get_register self size code }
    {
        let b = self.bank;
        self.get(slot_of(b, size, code))
    }
}

// Whether bits 5 and 3 of F are zero, no mark but H's and V's is set, and a marked flag's bit is zero.
fn flags_valid(f: u16) -> bool
    ensures { result ≡ flags_valid f }
{
    let h = (f / 256 % 2 == 0) | (f / 16 % 2 == 0);
    let v = (f / 512 % 2 == 0) | (f / 4 % 2 == 0);
    (f / 32 % 2 == 0) & ((f / 8 % 2 == 0) & ((f < 1024) & (h & v)))
}

// The bits of a part of a long register.
fn bits_of(p: Part, x: u32) -> u32
    ensures { result ≡ get_bits (start_of p) (width_of p) x }
{
    match p {
        Part::Byte0 => x % 256,
        Part::Byte1 => x / 256 % 256,
        Part::Byte2 => x / 65536 % 256,
        Part::Byte3 => x / TOP_BYTE % 256,
        Part::Half0 => x % 65536,
        Part::Half1 => x / 65536 % 65536,
        Part::Whole => x,
    }
}

// A long register with the bits of a part replaced.
fn with_bits(p: Part, x: u32, v: u32) -> u32
    ensures { result ≡ set_bits (start_of p) (width_of p) x v }
{
    match p {
        Part::Byte0 => x / 256 * 256 + v % 256,
        Part::Byte1 => (x / 256 / 256 * 256 + v % 256) * 256 + x % 256,
        Part::Byte2 => (x / 65536 / 256 * 256 + v % 256) * 65536 + x % 65536,
        Part::Byte3 => v % 256 * TOP_BYTE + x % TOP_BYTE,
        Part::Half0 => x / 65536 * 65536 + v % 65536,
        Part::Half1 => v % 65536 * 65536 + x % 65536,
        Part::Whole => v,
    }
}

// The place among the twenty of the long register of a code, in a bank.
fn index_of(bank: usize, code: usize) -> usize
    requires { (bank < 4) × (code < 8) }
    ensures { result ≡ index_of bank code }
{
    if code < 4 { 4 * bank + code } else { 12 + code }
}

// The part of a word that a byte code names: the high byte by an even code, the low byte by an odd one.
fn byte_part(code: usize) -> Part
    ensures { result ≡ byte_part code }
{
    if code % 2 == 0 {
        Part::Byte1
    } else {
        Part::Byte0
    }
}

// The slot of the register of a size and a code, in a bank: both numbers are taken modulo what there is.
pub fn slot_of(bank: Bank, size: Size, code: u8) -> Slot
    ensures { result ≡ slot_of (bank.0 % 4) size (code % 8) }
{
    let n = bank.0 % 4;
    let b = n as usize;
    let m = code % 8;
    let c = m as usize;
    match size {
        Size::Byte => Slot {
            index: 4 * b + c / 2,
            part: byte_part(c),
        },
        Size::Word => Slot {
            index: index_of(b, c),
            part: Part::Half0,
        },
        Size::Long => Slot {
            index: index_of(b, c),
            part: Part::Whole,
        },
    }
}

// ---- registers that lie apart from the rest of their state: they are changed where they lie, and nothing is copied

// The register of a size and a code, in a bank.
pub fn read(registers: &[u32; 20], bank: Bank, size: Size, code: u8) -> u32
    ensures { result ≡ register_at registers.now bank size code }
{
    let t = slot_of(bank, size, code);
    let i = t.index;
    let p = t.part;
    bits_of(p, registers[i])
}

pub fn write(registers: &mut [u32; 20], bank: Bank, size: Size, code: u8, v: u32)
    ensures { (s : State) → banked s registers.new bank ≡ set_register (banked s registers.old bank) size code v }
{
    let t = slot_of(bank, size, code);
    let i = t.index;
    let p = t.part;
    registers[i] = with_bits(p, registers[i], v);
}

// The bank and the level whose numbers a turn is lent: only here does such a number become what it is.
pub fn current(bank: &u8) -> Bank
    ensures { result ≡ record { 0 = bank.now } }
{
    Bank(*bank)
}

pub fn mask(level: &u8) -> Level
    ensures { result ≡ record { 0 = level.now } }
{
    Level(*level)
}

// A state of these parts.
pub fn whole(
    registers: [u32; 20],
    counter: u32,
    bank: Bank,
    level: Level,
    flags: u16,
    spare: u16,
    nesting: u16,
) -> State
    ensures { result ≡ all_of registers counter bank.0 level.0 flags spare nesting }
{
    State {
        registers: registers,
        counter: counter,
        bank: bank,
        level: level,
        flags: flags,
        spare: spare,
        nesting: nesting,
    }
}
