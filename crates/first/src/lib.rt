// The codes whose first byte is 00 to 7F.
#![tactic(auto)]

ghost use Rattle.std.specs.Prelude.{◌≡◌, cond, List, ℕ, ◌/◌, ◌<◌, ◌≤◌, ltb};
ghost use Rattle.little.specs.Width.{bytes_of};
ghost use Rattle.code.specs.Said.{Said, judge};
ghost use Rattle.code.specs.Rows.{lookup, by_rows};
ghost use Rattle.code.specs.Listed.{with_constant, up_to_seven_rows, alone_rows};
ghost use Rattle.code.specs.inner.Parts.{alone_as};

use code::{Alone, Control, Interrupt, Op, Operand, Stack};
use little::Size;

// An operation with a number of n bytes.
fn control(code: &[u8], what: Control, n: usize) -> Alone
    requires { n ≤ 4 }
    ensures { alone_as result ≡ judge (with_constant (Op.Controls what) Size.Byte n) code.now 1 }
{
    match number::number(code, 1, n) {
        Some(v) => Alone::Controls(what, v, 1 + n),
        None => Alone::Short,
    }
}

// The same of the stack.
fn call(code: &[u8], what: Stack, n: usize) -> Alone
    requires { n ≤ 4 }
    ensures { alone_as result ≡ judge (with_constant (Op.Stacks what) Size.Byte n) code.now 1 }
{
    match number::number(code, 1, n) {
        Some(v) => Alone::Stacks(what, Size::Byte, Operand::Constant(v), 1 + n),
        None => Alone::Short,
    }
}

// Loads of a constant of the register's size: 20 to 27, 30 to 37, 40 to 47.
fn set(code: &[u8], r: u8, size: Size) -> Alone
    ensures { alone_as result ≡ judge (with_constant (Op.Sets r) size (bytes_of size)) code.now 1 }
{
    let n = size.bytes();
    match number::number(code, 1, n) {
        Some(v) => Alone::Sets(r, size, v, 1 + n),
        None => Alone::Short,
    }
}

// A push or a pop of the register r, which is not listed for 7: 28 to 2E, 38 to 3E, 48 to 4E, 58 to 5E.
fn stack(what: Stack, size: Size, r: u8) -> Alone
    ensures { (s : List ℕ) → alone_as result ≡ judge (cond (ltb r 7) (Said.whole (Op.Stacks what) size (Operand.Register r)) Said.unlisted) s 1 }
{
    if 7 <= r {
        return Alone::Unlisted;
    }
    Alone::Stacks(what, size, Operand::Register(r), 1)
}

// LDF and EI, by the byte of their number: 00 to 07.
fn up_to_seven(code: &[u8], what: Control) -> Alone
    ensures { alone_as result ≡ judge (by_rows (up_to_seven_rows (Op.Controls what))) code.now 1 }
{
    if code.len() <= 1 {
        return Alone::Short;
    }
    let n = code[1];
    if 7 < n {
        return Alone::Unlisted;
    }
    let number = n as u32;
    Alone::Controls(what, number, 2)
}

// 00 to 0F.
fn case_00(code: &[u8], b: u8) -> Alone
    requires { b < 16 }
    ensures { alone_as result ≡ judge (lookup alone_rows b) code.now 1 }
{
    match b {
        0x00 => Alone::Controls(Control::Nop, 0, 1),
        0x02 => Alone::Interrupts(Interrupt::PushSr, 1),
        0x03 => Alone::Interrupts(Interrupt::PopSr, 1),
        0x06 => up_to_seven(code, Control::Ei),
        0x07 => Alone::Interrupts(Interrupt::Reti, 1),
        0x0C => Alone::Controls(Control::Incf, 0, 1),
        0x0D => Alone::Controls(Control::Decf, 0, 1),
        0x0E => Alone::Stacks(Stack::Ret, Size::Byte, Operand::Constant(0), 1),
        _ => Alone::Unlisted,
    }
}

// 10 to 17.
fn case_10(code: &[u8], b: u8) -> Alone
    requires { b / 8 ≡ 2 }
    ensures { alone_as result ≡ judge (lookup alone_rows b) code.now 1 }
{
    match b {
        0x10 => Alone::Controls(Control::Rcf, 0, 1),
        0x11 => Alone::Controls(Control::Scf, 0, 1),
        0x12 => Alone::Controls(Control::Ccf, 0, 1),
        0x13 => Alone::Controls(Control::Zcf, 0, 1),
        0x16 => Alone::Controls(Control::Exf, 0, 1),
        0x17 => up_to_seven(code, Control::Ldf),
        _ => Alone::Unlisted,
    }
}

// 18 to 1F.
fn case_18(code: &[u8], b: u8) -> Alone
    requires { b / 8 ≡ 3 }
    ensures { alone_as result ≡ judge (lookup alone_rows b) code.now 1 }
{
    match b {
        0x18 => Alone::Stacks(Stack::PushF, Size::Byte, Operand::Constant(0), 1),
        0x19 => Alone::Stacks(Stack::PopF, Size::Byte, Operand::Constant(0), 1),
        0x1A => control(code, Control::Jp16, 2),
        0x1B => control(code, Control::Jp24, 3),
        0x1C => call(code, Stack::Call16, 2),
        0x1D => call(code, Stack::Call24, 3),
        0x1E => call(code, Stack::Calr, 2),
        _ => Alone::Unlisted,
    }
}

// By the group of eight that the first byte is in; none of 80 to FF is listed here.
pub fn read(code: &[u8], b: u8) -> Alone
    ensures { alone_as result ≡ judge (lookup alone_rows b) code.now 1 }
{
    let r = b % 8;
    match b / 8 {
        0 | 1 => case_00(code, b),
        2 => case_10(code, b),
        3 => case_18(code, b),
        4 => set(code, r, Size::Byte),
        5 => stack(Stack::Push, Size::Word, r),
        6 => set(code, r, Size::Word),
        7 => stack(Stack::Push, Size::Long, r),
        8 => set(code, r, Size::Long),
        9 => stack(Stack::Pop, Size::Word, r),
        11 => stack(Stack::Pop, Size::Long, r),
        12 | 13 => control(code, Control::Jr(b % 16), 1),
        14 | 15 => control(code, Control::Jrl(b % 16), 2),
        _ => Alone::Unlisted,
    }
}
