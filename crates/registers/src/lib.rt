// The register forms: which register, and what the byte after it says.
#![tactic(auto)]

ghost use Rattle.std.specs.Prelude.{◌≡◌, List, ℕ, ◌/◌, ◌<◌, ◌≤◌, length, get_or};
ghost use Rattle.code.specs.Said.{Said, judge};
ghost use Rattle.code.specs.Rows.{lookup, by_rows, only, no_byte};
ghost use Rattle.code.specs.Registers.{register_rows, places_rows, shift_kind};
ghost use Rattle.code.specs.inner.Parts.{register_as, begins_register, register_size, register_begun, chosen_as, Chooses, behind_of};

use alu::{Change, Shift};
use code::{Chosen, OfRegister, Op, Operand, Use};
use little::Size;
use number::arith_of;
use state::named::is_named;

pub mod rest;

// Whether a first byte begins a register form: C8 to CF, D8 to DF and E8 to EF, or C7, D7 and E7 with a code byte behind them.
pub fn begins(b: u8) -> bool
    ensures { result ≡ begins_register b }
{
    if b / 8 % 2 == 1 {
        return (0xC8 <= b) & (b < 0xF0);
    }
    match b {
        0xC7 | 0xD7 | 0xE7 => true,
        _ => false,
    }
}

// The size of such a form.
pub fn size_by(b: u8) -> Size
    ensures { result ≡ register_size b }
{
    if 0xE0 <= b {
        return Size::Long;
    }
    if 0xD0 <= b {
        return Size::Word;
    }
    Size::Byte
}

// Its register, by the first byte alone or by the code byte after it.
pub fn begin(code: &[u8], size: Size, b: u8) -> Chosen
    ensures code_value { chosen_as result size code.now ≡ judge (register_begun size b) code.now 1 }
    ensures chooses { Chooses result size × (behind_of result ≤ length code.now) }
{
    if b / 8 % 2 == 1 {
        return Chosen::Register(Operand::Register(b % 8), 0);
    }
    if code.len() <= 1 {
        return Chosen::Short;
    }
    let c = code[1];
    if is_named(size, c) {
        return Chosen::Register(Operand::Named(c), 1);
    }
    Chosen::Unlisted
}

// The kind of shift, by the low bits of its code.
fn shift_of(n: u8) -> Shift
    ensures { result ≡ shift_kind n }
{
    match n {
        0 => Shift::Sla,
        1 => Shift::Sra,
        2 => Shift::Sll,
        _ => Shift::Srl,
    }
}

// 00 to 07: 03 and a constant.
fn case_00(code: &[u8], size: Size, c: u8) -> OfRegister
    requires { (2 ≤ length code.now) × (c < 8) }
    ensures { (o : Operand) → register_as result size o code.now ≡ judge (lookup (register_rows size o) c) code.now 2 }
{
    if c == 3 {
        let n = size.bytes();
        return match number::number(code, 2, n) {
            Some(v) => OfRegister::Number(v, 2 + n),
            None => OfRegister::Short,
        };
    }
    OfRegister::Unlisted
}

// C8 to CF and a constant.
fn compute_constant(code: &[u8], size: Size, c: u8) -> OfRegister
    requires { (2 ≤ length code.now) × (c / 8 ≡ 25) }
    ensures { (o : Operand) → register_as result size o code.now ≡ judge (lookup (register_rows size o) c) code.now 2 }
{
    let n = size.bytes();
    match number::number(code, 2, n) {
        Some(v) => OfRegister::With(arith_of(c % 8), v, 2 + n),
        None => OfRegister::Short,
    }
}

// A word or a long.
pub fn no_byte(size: Size) -> bool
    ensures { result ≡ no_byte size }
{
    match size {
        Size::Byte => false,
        Size::Word => true,
        Size::Long => true,
    }
}

// A change that is listed only where a test is so.
fn only(listed: bool, how: Change) -> OfRegister
    ensures { (z : Size) (o : Operand) (s : List ℕ) → register_as result z o s ≡ judge (only listed (Said.whole (Op.Puts (Use.Changed how)) z o)) s 2 }
{
    if listed {
        OfRegister::Changed(how, 2)
    } else {
        OfRegister::Unlisted
    }
}

// 10 to 17: 12 EXTZ, 13 EXTS.
fn case_10(size: Size, c: u8) -> OfRegister
    requires { c / 8 ≡ 2 }
    ensures { (o : Operand) (s : List ℕ) → register_as result size o s ≡ judge (lookup (register_rows size o) c) s 2 }
{
    match c {
        0x12 => only(no_byte(size), Change::Extz),
        0x13 => only(no_byte(size), Change::Exts),
        _ => OfRegister::Unlisted,
    }
}

// A shift, by the byte of its places.
fn shifted(code: &[u8], size: Size, shift: Shift) -> OfRegister
    ensures { (o : Operand) → register_as result size o code.now ≡ judge (by_rows (places_rows size o shift)) code.now 2 }
{
    if code.len() <= 2 {
        return OfRegister::Short;
    }
    let places = code[2];
    if 15 < places {
        return OfRegister::Unlisted;
    }
    OfRegister::Changed(Change::ShiftBy(shift, places), 3)
}

// E8 to EF: EC SLA, ED SRA, EE SLL, EF SRL.
fn case_e8(code: &[u8], size: Size, c: u8) -> OfRegister
    requires { c / 8 ≡ 29 }
    ensures { (o : Operand) → register_as result size o code.now ≡ judge (lookup (register_rows size o) c) code.now 2 }
{
    if c < 0xEC {
        return OfRegister::Unlisted;
    }
    shifted(code, size, shift_of(c % 4))
}

// What the second byte c says.
fn second(code: &[u8], size: Size, c: u8) -> OfRegister
    requires { (2 ≤ length code.now) × (c ≡ get_or code.now 1 0) }
    ensures { (o : Operand) → register_as result size o code.now ≡ judge (lookup (register_rows size o) c) code.now 2 }
{
    let n = c % 8;
    match c / 8 {
        0 => case_00(code, size, c),
        2 => case_10(size, c),
        12 => OfRegister::Changed(Change::Inc(n), 2),
        13 => OfRegister::Changed(Change::Dec(n), 2),
        17 => OfRegister::Load(n, 2),
        19 => OfRegister::From(n, 2),
        16 | 18 | 20 | 22 | 24 | 26 | 28 | 30 => OfRegister::Compute(arith_of(c / 16 % 8), n, 2),
        25 => compute_constant(code, size, c),
        29 => case_e8(code, size, c),
        _ => OfRegister::Rest,
    }
}

// A register form of a size, whatever its register, but for those of the feed calculation, which `rest::read` reads.
pub fn read(code: &[u8], size: Size) -> OfRegister
    ensures { (o : Operand) → register_as result size o code.now ≡ judge (by_rows (register_rows size o)) code.now 1 }
{
    if code.len() <= 1 {
        return OfRegister::Short;
    }
    second(code, size, code[1])
}
