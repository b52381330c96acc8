// The memory forms: where the address comes from, and what the byte after it says.
#![tactic(auto)]

ghost use Rattle.std.specs.Prelude.{◌≡◌, List, ◌++◌, ℕ, ◌/◌, ◌%◌, ◌≤◌, eqb};
ghost use Rattle.code.specs.Said.{Said, judge, whole_of};
ghost use Rattle.code.specs.Rows.{lookup, by_rows};
ghost use Rattle.code.specs.Memory.{memory_rows, store_rows, blocks, form};
ghost use Rattle.code.specs.Listed.{memory_first_rows};
ghost use Rattle.code.specs.inner.Parts.{rows_begun, memory_as, begun_as};

use code::{Base, Begun, Form, MemoryForm, OfMemory, Op, Operand};
use little::Size;
use number::{arith_of, size_of};

// A copy or a compare by the byte c, 10 to 17: up in 10, 11, 14, 15, and again where c is odd.
fn block(copies: bool, size: Size, to: u8, from: u8, c: u8, at: usize) -> OfMemory
    ensures { (m : MemoryForm) → memory_as result m
        ≡ whole_of (Op.Blocks (record { copies = copies; size = size; up = eqb (c / 2 % 2) 0; again = eqb (c % 2) 1; to = to; from = from }))
        size (form (Base.Indirect from) 0) at }
{
    let f = Form {
        copies: copies,
        size: size,
        up: c / 2 % 2 == 0,
        again: c % 2 == 1,
        to: to,
        from: from,
    };
    OfMemory::Blocks(f, at)
}

// The copies and compares of the pointer r.
fn block_case(size: Size, r: u8, c: u8, at: usize) -> OfMemory
    requires { c / 8 ≡ 2 }
    ensures { (m : MemoryForm) (s : List ℕ) → memory_as result m ≡ judge (lookup (memory_rows size (Operand.Memory m) ++ blocks size r) c) s at }
{
    if c < 0x14 {
        if r == 3 {
            return block(true, size, 2, 3, c, at);
        }
        if r == 5 {
            return block(true, size, 4, 5, c, at);
        }
        return OfMemory::Unlisted;
    }
    if r < 2 {
        return OfMemory::Unlisted;
    }
    block(false, size, r, r, c, at)
}

// What the byte c says of a store.
fn store_case(at: usize, c: u8) -> OfMemory
    ensures { (m : MemoryForm) (s : List ℕ) → memory_as result m ≡ judge (lookup (store_rows (Operand.Memory m)) c) s at }
{
    let r = c % 8;
    match c / 8 {
        8 => OfMemory::From(r, Size::Byte, at),
        10 => OfMemory::From(r, Size::Word, at),
        12 => OfMemory::From(r, Size::Long, at),
        _ => OfMemory::Unlisted,
    }
}

// A form whose number has n bytes.
fn with_number(code: &[u8], base: Base, n: usize) -> Begun
    requires { n ≤ 4 }
    ensures { (b : ℕ) → begun_as result b code.now
        ≡ judge (Said.number n (λ v. by_rows (rows_begun b (form base v)))) code.now 1 }
{
    match number::number(code, 1, n) {
        Some(v) => Begun::Form(base, v, 1 + n),
        None => Begun::Short,
    }
}

// The form, by the group of eight that the first byte is in; none of 00 to 7F is listed here, nor a register form's.
pub fn begin(code: &[u8], b: u8) -> Begun
    ensures { begun_as result b code.now ≡ judge (lookup memory_first_rows b) code.now 1 }
{
    let r = b % 8;
    match b / 8 {
        16 | 18 | 20 | 22 => Begun::Form(Base::Indirect(r), 0, 1),
        17 | 19 | 21 | 23 => with_number(code, Base::Displaced(r), 1),
        24 | 26 | 28 | 30 => match r {
            0 => with_number(code, Base::Absolute8, 1),
            1 => with_number(code, Base::Absolute16, 2),
            2 => with_number(code, Base::Absolute24, 3),
            _ => Begun::Unlisted,
        },
        _ => Begun::Unlisted,
    }
}

// The byte after the form, which is at an index; the first byte b says whether it is a store's, or may be a copy's.
pub fn after(code: &[u8], b: u8, at: usize) -> OfMemory
    ensures { (m : MemoryForm) → memory_as result m ≡ judge (by_rows (rows_begun b (Operand.Memory m))) code.now at }
{
    if code.len() <= at {
        return OfMemory::Short;
    }
    let c = code[at];
    if b / 16 % 4 == 3 {
        return store_case(at + 1, c);
    }
    let size = size_of(b / 16);
    let r = c % 8;
    if 0x80 <= c {
        let op = arith_of(c / 16 % 8);
        if c / 8 % 2 == 1 {
            return OfMemory::ComputeInto(op, r, size, at + 1);
        }
        return OfMemory::Compute(op, r, size, at + 1);
    }
    if c / 8 == 4 {
        return OfMemory::Load(r, size, at + 1);
    }
    let k = b / 8;
    if (c / 8 == 2) & ((k == 16) | (k == 18)) {
        return block_case(size, b % 8, c, at + 1);
    }
    OfMemory::Unlisted
}
