// The register forms of the feed calculation: MUL, MULS, DIV, DIVS, MINC and MDEC.
ghost use Rattle.std.specs.Prelude.{◌≡◌, List, true, ℕ, ◌+◌, ◌*◌, ◌/◌, ◌<◌, ◌≤◌, length, get_or};
ghost use Rattle.feed.specs.Cycle.{is_table};
ghost use Rattle.code.specs.Said.{judge};
ghost use Rattle.code.specs.Rows.{lookup, by_rows};
ghost use Rattle.code.specs.Registers.{is_low, scale_kind, stride_kind, table_rows, feed_rows};
ghost use Rattle.code.specs.inner.Parts.{feed_as, cycle_as};

use code::{OfFeed, Operand};
use feed::cycle::{Cycle, Stride, is_table};
use feed::scale::Scale;
use little::Size;
use state::named::is_named;

// Whether an operand is the lower half of a register twice as wide.
pub fn is_low(size: Size, operand: Operand) -> bool
    ensures { result ≡ is_low size operand }
{
    match operand {
        Operand::Register(r) => low_register(size, r),
        Operand::Named(c) => low_code(size, c),
        Operand::Constant(_) => false,
        Operand::Memory(_) => false,
    }
}

fn low_register(size: Size, r: u8) -> bool
    ensures { result ≡ is_low size (Operand.Register r) }
{
    match size {
        Size::Byte => r % 2 == 1,
        Size::Word => true,
        Size::Long => false,
    }
}

fn low_code(size: Size, c: u8) -> bool
    ensures { result ≡ is_low size (Operand.Named c) }
{
    match size {
        Size::Byte => is_named(Size::Word, c),
        Size::Word => is_named(Size::Long, c),
        Size::Long => false,
    }
}

fn scale_of(n: u8) -> Scale
    ensures { result ≡ scale_kind n }
{
    match n {
        0 => Scale::Mul,
        1 => Scale::Muls,
        2 => Scale::Div,
        _ => Scale::Divs,
    }
}

fn stride_of(n: u8) -> Stride
    ensures { result ≡ stride_kind n }
{
    match n {
        0 => Stride::One,
        1 => Stride::Two,
        _ => Stride::Four,
    }
}

// 08 to 0F: 08 MUL, 09 MULS, 0A DIV, 0B DIVS of the operand and a constant, where it is a lower half.
fn case_08(code: &[u8], size: Size, half: bool, c: u8) -> OfFeed
    requires { (2 ≤ length code.now) × (c / 8 ≡ 1) }
    ensures { (o : Operand) → is_low size o ≡ half → feed_as result size o ≡ judge (lookup (feed_rows size o) c) code.now 2 }
{
    if 0x0B < c {
        return OfFeed::Unlisted;
    }
    if half {
        let n = size.bytes();
        return match number::number(code, 2, n) {
            Some(v) => OfFeed::ScaledWith(scale_of(c % 4), v, 2 + n),
            None => OfFeed::Short,
        };
    }
    OfFeed::Unlisted
}

// 40 to 5F: MUL, MULS, DIV, DIVS of the register R, where it is a lower half, and the operand.
fn case_40(size: Size, c: u8) -> OfFeed
    requires { (0x40 ≤ c) × (c < 0x60) }
    ensures { (o : Operand) (s : List ℕ) → feed_as result size o ≡ judge (lookup (feed_rows size o) c) s 2 }
{
    let r = c % 8;
    if low_register(size, r) {
        return OfFeed::Scaled(scale_of(c / 8 % 4), r, 2);
    }
    OfFeed::Unlisted
}

fn cycle_of(up: bool, stride: Stride, last: u16) -> Cycle
    ensures { result ≡ cycle_as up stride last }
{
    if up {
        return Cycle::Minc(stride, last);
    }
    Cycle::Mdec(stride, last)
}

// A byte as a number, and two bytes, low byte first.
fn word(x: u8) -> u16
    ensures value { result ≡ x }
    ensures bounded { result < 256 }
{
    x as u16
}

fn joined(low: u8, high: u8) -> u16
    ensures { result ≡ low + 256 * high }
{
    low as u16 + 256 * (high as u16)
}

// A number less its step, by its high byte: the low byte is allowed by itself.
fn high(code: &[u8], up: bool, stride: Stride, low: u8) -> OfFeed
    requires { (2 < length code.now) × (low ≡ get_or code.now 2 0) × (is_table stride low ≡ true) }
    ensures { (z : Size) (o : Operand) → feed_as result z o ≡ judge (by_rows (table_rows z o stride (cycle_as up stride))) code.now 2 }
{
    if code.len() <= 3 {
        return OfFeed::Short;
    }
    let last = joined(low, code[3]);
    if is_table(stride, last) {
        return OfFeed::Cycled(cycle_of(up, stride, last), 4);
    }
    OfFeed::Unlisted
}

// The same by its low byte, which is judged first.
fn table(code: &[u8], up: bool, stride: Stride) -> OfFeed
    ensures { (z : Size) (o : Operand) → feed_as result z o ≡ judge (by_rows (table_rows z o stride (cycle_as up stride))) code.now 2 }
{
    if code.len() <= 2 {
        return OfFeed::Short;
    }
    let low = code[2];
    if is_table(stride, word(low)) {
        return high(code, up, stride, low);
    }
    OfFeed::Unlisted
}

// 38 to 3F: 38, 39, 3A MINC1, MINC2, MINC4, and MDEC1, MDEC2, MDEC4 from 3C on, of words alone.
fn case_38(code: &[u8], size: Size, c: u8) -> OfFeed
    requires { c / 8 ≡ 7 }
    ensures { (o : Operand) → feed_as result size o ≡ judge (lookup (feed_rows size o) c) code.now 2 }
{
    if c % 4 == 3 {
        return OfFeed::Unlisted;
    }
    match size {
        Size::Byte => OfFeed::Unlisted,
        Size::Word => table(code, c < 0x3C, stride_of(c % 4)),
        Size::Long => OfFeed::Unlisted,
    }
}

// What the second byte c says.
fn second(code: &[u8], size: Size, half: bool, c: u8) -> OfFeed
    requires { 2 ≤ length code.now }
    ensures { (o : Operand) → is_low size o ≡ half → feed_as result size o ≡ judge (lookup (feed_rows size o) c) code.now 2 }
{
    match c / 8 {
        1 => case_08(code, size, half, c),
        7 => case_38(code, size, c),
        8 | 9 | 10 | 11 => case_40(size, c),
        _ => OfFeed::Unlisted,
    }
}

// A form of a size, of an operand that is a lower half, or is not.
pub fn read(code: &[u8], size: Size, half: bool) -> OfFeed
    ensures { (o : Operand) → is_low size o ≡ half → feed_as result size o ≡ judge (by_rows (feed_rows size o)) code.now 1 }
{
    if code.len() <= 1 {
        return OfFeed::Short;
    }
    second(code, size, half, code[1])
}
