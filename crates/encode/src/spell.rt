// An instruction's bytes, in pieces.
#![tactic(auto, using(crate::proofs::Laws::no_bytes, crate::proofs::Laws::one_byte))]

ghost use Rattle.std.specs.Prelude.{◌≡◌, [], ◌∷◌, ◌++◌, ℕ, ◌+◌, ◌*◌, ◌<◌, ◌≤◌, length, cond, leb};
ghost use Rattle.little.specs.Bytes.{bytes_from, replaced};
ghost use Rattle.code.specs.Written.{size_step, base_code, place_code};
ghost use Rattle.code.specs.Written.{load_code, block_code, side_code, change_code, cycle_code, from_code};
ghost use Rattle.code.specs.Written.{control_code, stack_code, interrupt_code, use_code, code_of};
ghost use Rattle.encode.specs.inner.Spelt.{one_of, place_spelt, spelt, eights};

use alu::{Arith, Change};
use code::{Base, Control, Interrupt, Op, Operand, Side, Stack, Use};
use feed::cycle::Cycle;
use little::Size;

// The low bytes of a number, none to four of them.
#[derive(Clone, Copy)]
pub struct Piece {
    pub value: u32,
    pub bytes: u8,
}

// The first byte of an operand's form, where it has one, and what belongs to it: a code byte, a displacement or an address.
#[derive(Clone, Copy)]
pub struct Place {
    pub first: Piece,
    pub rest: Piece,
}

// A piece of no bytes.
const NOTHING: Piece = Piece { value: 0, bytes: 0 };

// A whole code: behind the place a byte that says what is done, and a number.
#[derive(Clone, Copy)]
pub struct Code {
    pub place: Place,
    pub next: Piece,
    pub number: Piece,
}

// A place of one byte, and what belongs to it: no byte of it where n is 0.
fn begun(first: u32, v: u32, n: u8) -> Place
    ensures { place_spelt result ≡ first ∷ bytes_from n v }
{
    Place {
        first: Piece {
            value: first,
            bytes: 1,
        },
        rest: Piece { value: v, bytes: n },
    }
}

fn nowhere() -> Place
    ensures { place_spelt result ≡ [] }
{
    Place {
        first: NOTHING,
        rest: NOTHING,
    }
}

// A code whose place has all of it.
#[tactic(auto, using(crate::proofs::Laws::spelt_bare))]
fn alone(place: Place) -> Code
    ensures { spelt result ≡ place_spelt place }
{
    Code {
        place,
        next: NOTHING,
        number: NOTHING,
    }
}

// A byte behind a place, and a number of n bytes.
fn behind(place: Place, b: u32, v: u32, n: u8) -> Code
    ensures { spelt result ≡ place_spelt place ++ (b ∷ bytes_from n v) }
{
    Code {
        place,
        next: Piece { value: b, bytes: 1 },
        number: Piece { value: v, bytes: n },
    }
}

// A code of one byte.
fn one(b: u32) -> Code
    ensures { spelt result ≡ b ∷ [] }
{
    alone(begun(b, 0, 0))
}

// A byte and a number of n bytes.
fn with(b: u32, v: u32, n: u8) -> Code
    ensures { spelt result ≡ b ∷ bytes_from n v }
{
    alone(begun(b, v, n))
}

// Two bytes.
fn two(b: u32, next: u32) -> Code
    ensures { spelt result ≡ b ∷ next ∷ [] }
{
    behind(begun(b, 0, 0), next, 0, 0)
}

// 10H for each step of the size.
fn size_step(size: Size) -> u32
    ensures { (result ≡ size_step size) × (result < 33) }
{
    16 * size as u32
}

// A memory form, in the group of its size or of the stores.
fn base(group: u32, b: Base, v: u32) -> Place
    requires { group < 256 }
    ensures { place_spelt result ≡ base_code group b v }
{
    match b {
        Base::Indirect(r) => begun(0x80 + group + r as u32, 0, 0),
        Base::Displaced(r) => begun(0x88 + group + r as u32, v, 1),
        Base::Absolute8 => begun(0xC0 + group, v, 1),
        Base::Absolute16 => begun(0xC1 + group, v, 2),
        Base::Absolute24 => begun(0xC2 + group, v, 3),
    }
}

// An operand's form, in the group of its size or of the stores.
fn formed(group: u32, operand: Operand) -> Place
    requires { group < 256 }
    ensures { place_spelt result ≡ place_code group operand }
{
    match operand {
        Operand::Register(r) => begun(0xC8 + group + r as u32, 0, 0),
        Operand::Named(c) => begun(0xC7 + group, c as u32, 1),
        Operand::Constant(_) => nowhere(),
        Operand::Memory(m) => base(group, m.base, m.number),
    }
}

// An operand's form of a size.
fn sized(size: Size, operand: Operand) -> Place
    ensures { place_spelt result ≡ place_code (size_step size) operand }
{
    formed(size_step(size), operand)
}

// 88+R after a register, 20+R after a memory form.
fn load_code(operand: Operand) -> u32
    ensures { (result ≡ load_code operand) × (result < 256) }
{
    match operand {
        Operand::Register(_) | Operand::Named(_) => 0x88,
        Operand::Constant(_) => 0,
        Operand::Memory(_) => 0x20,
    }
}

// A register into the operand: 98+R after a register; 40+R, 50+R, 60+R after a memory form in the group of the stores.
fn from(r: u8, size: Size, operand: Operand) -> Code
    ensures { spelt result ≡ from_code r size operand }
{
    match operand {
        Operand::Register(_) | Operand::Named(_) => {
            behind(sized(size, operand), 0x98 + r as u32, 0, 0)
        }
        Operand::Constant(_) => alone(nowhere()),
        Operand::Memory(_) => behind(formed(48, operand), 0x40 + size_step(size) + r as u32, 0, 0),
    }
}

// An operation on two operands, behind the place of one.
fn side(p: Place, a: Arith, other: Side, size: Size) -> Code
    ensures { spelt result ≡ place_spelt p ++ side_code a other size }
{
    let n = a as u32;
    match other {
        Side::First(r) => behind(p, 0x80 + 16 * n + r as u32, 0, 0),
        Side::Second(r) => behind(p, 0x88 + 16 * n + r as u32, 0, 0),
        Side::With(v) => behind(p, 0xC8 + n, v, size.bytes() as u8),
    }
}

// A change, behind the place of its operand.
fn change(p: Place, how: Change) -> Code
    ensures { spelt result ≡ place_spelt p ++ change_code how }
{
    match how {
        Change::Inc(n) => behind(p, 0x60 + n as u32, 0, 0),
        Change::Dec(n) => behind(p, 0x68 + n as u32, 0, 0),
        Change::ShiftBy(kind, n) => behind(p, 0xEC + kind as u32, n as u32, 1),
        Change::Extz => behind(p, 0x12, 0, 0),
        Change::Exts => behind(p, 0x13, 0, 0),
    }
}

// MINC and MDEC, behind the place of the pointer.
fn cycle(p: Place, how: Cycle) -> Code
    ensures { spelt result ≡ place_spelt p ++ cycle_code how }
{
    match how {
        Cycle::Minc(stride, last) => behind(p, 0x38 + stride as u32, last as u32, 2),
        Cycle::Mdec(stride, last) => behind(p, 0x3C + stride as u32, last as u32, 2),
    }
}

fn control(what: Control, operand: Operand) -> Code
    ensures { spelt result ≡ control_code what operand }
{
    let v = operand.constant();
    match what {
        Control::Nop => one(0x00),
        Control::Incf => one(0x0C),
        Control::Decf => one(0x0D),
        Control::Ldf => two(0x17, v),
        Control::Rcf => one(0x10),
        Control::Scf => one(0x11),
        Control::Ccf => one(0x12),
        Control::Zcf => one(0x13),
        Control::Exf => one(0x16),
        Control::Jp16 => with(0x1A, v, 2),
        Control::Jp24 => with(0x1B, v, 3),
        Control::Jr(cc) => with(0x60 + cc as u32, v, 1),
        Control::Jrl(cc) => with(0x70 + cc as u32, v, 2),
        Control::Ei => two(0x06, v),
    }
}

fn stack(what: Stack, size: Size, operand: Operand) -> Code
    ensures { spelt result ≡ stack_code what size operand }
{
    let v = operand.constant();
    match what {
        Stack::PushF => one(0x18),
        Stack::PopF => one(0x19),
        Stack::Push => one(0x18 + size_step(size) + operand.register() as u32),
        Stack::Pop => one(0x38 + size_step(size) + operand.register() as u32),
        Stack::Call16 => with(0x1C, v, 2),
        Stack::Call24 => with(0x1D, v, 3),
        Stack::Calr => with(0x1E, v, 2),
        Stack::Ret => one(0x0E),
    }
}

fn interrupt(what: Interrupt) -> Code
    ensures { spelt result ≡ interrupt_code what }
{
    match what {
        Interrupt::PushSr => one(0x02),
        Interrupt::PopSr => one(0x03),
        Interrupt::Reti => one(0x07),
    }
}

fn puts(how: Use, size: Size, operand: Operand) -> Code
    ensures { spelt result ≡ use_code how size operand }
{
    let p = sized(size, operand);
    match how {
        Use::Number(n) => behind(p, 0x03, n, size.bytes() as u8),
        Use::From(r) => from(r, size, operand),
        Use::Load(r) => behind(p, load_code(operand) + r as u32, 0, 0),
        Use::Compute(a, other) => side(p, a, other, size),
        Use::Changed(c) => change(p, c),
        Use::Scaled(s, r) => behind(p, 0x40 + 8 * s as u32 + r as u32, 0, 0),
        Use::ScaledWith(s, n) => behind(p, 0x08 + s as u32, n, size.bytes() as u8),
        Use::Cycled(c) => cycle(p, c),
    }
}

// The byte of a copy or a compare behind its pointer.
fn block_byte(copies: bool, up: bool, again: bool) -> u32
    ensures { result ≡ block_code copies up again }
{
    let kind = if copies { 0x10 } else { 0x14 };
    let way = if up { 0 } else { 2 };
    kind + way + again as u32
}

// The bytes of an instruction, by the kind of work.
#[tactic(auto, using(crate::proofs::Laws::no_bytes), unfolding(code::specs::Written::code_of))]
pub fn code_of(op: Op, size: Size, operand: Operand) -> Code
    ensures { spelt result ≡ code_of op size operand }
{
    match op {
        Op::Controls(what) => control(what, operand),
        Op::Stacks(what) => stack(what, size, operand),
        Op::Puts(how) => puts(how, size, operand),
        Op::Sets(r) => with(
            0x20 + size_step(size) + r as u32,
            operand.constant(),
            size.bytes() as u8,
        ),
        Op::Blocks(f) => two(
            0x80 + size_step(size) + f.from as u32,
            block_byte(f.copies, f.up, f.again),
        ),
        Op::Interrupts(what) => interrupt(what),
    }
}

// How many bytes a piece has that is one byte or none.
fn ones(n: u8) -> usize
    ensures { ((v : ℕ) → result ≡ length (one_of n v)) × (result ≤ 1) }
{
    n.min(1) as usize
}

#[tactic(auto, using(crate::proofs::Laid::placed_length))]
fn place_length(p: Place) -> usize
    ensures { (result ≡ length (place_spelt p)) × (result ≤ 256) }
{
    ones(p.first.bytes) + p.rest.bytes as usize
}

// How many bytes a code has.
#[tactic(auto, using(crate::proofs::Laid::spelt_length))]
pub fn length_of(c: Code) -> usize
    ensures value { result ≡ length (spelt c) }
    ensures bounded { result ≤ 512 }
{
    place_length(c.place) + (ones(c.next.bytes) + c.number.bytes as usize)
}

// Writes the low n bytes of v at a place of the room.
#[tactic(auto, using(little::proofs::Laws::written))]
fn put(out: &mut [u8], at: usize, n: usize, v: u32)
    requires { at + n ≤ length out.old }
    ensures { out.new ≡ replaced at (bytes_from n v) out.old }
{
    let e = at + n;
    little::write(&mut out[at..e], v);
}

// Writes a place at the front of the room, and tells how many bytes that were.
#[tactic(auto, using(crate::proofs::Laid::placed_length, crate::proofs::Laid::laid_place, crate::proofs::Laid::place_fits))]
fn lay_place(p: Place, out: &mut [u8]) -> usize
    requires { length (place_spelt p) ≤ length out.old }
    ensures value { (result ≡ length (place_spelt p)) × (out.new ≡ replaced 0 (eights (place_spelt p)) out.old) }
    ensures bounded { result ≤ 256 }
{
    let a = ones(p.first.bytes);
    let b = p.rest.bytes as usize;
    put(out, 0, a, p.first.value);
    put(out, a, b, p.rest.value);
    a + b
}

// Writes a code at the front of the room.
#[tactic(auto, using(crate::proofs::Laid::spelt_length, crate::proofs::Laid::laid_code, crate::proofs::Laid::next_fits, crate::proofs::Laid::number_fits))]
fn lay(c: Code, out: &mut [u8])
    requires { length (spelt c) ≤ length out.old }
    ensures { out.new ≡ replaced 0 (eights (spelt c)) out.old }
{
    let a = lay_place(c.place, out);
    let b = ones(c.next.bytes);
    put(out, a, b, c.next.value);
    put(out, a + b, c.number.bytes as usize, c.number.value);
}

// The same where there is room; where there is not, nothing is written.
pub fn write(c: Code, out: &mut [u8])
    ensures { out.new ≡ cond (leb (length (spelt c)) (length out.old)) (replaced 0 (eights (spelt c)) out.old) out.old }
{
    if length_of(c) <= out.len() {
        lay(c, out);
    }
}
