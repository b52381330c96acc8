// INC and DEC.
ghost use Rattle.std.specs.Prelude.{◌≡◌};
ghost use Rattle.little.specs.Width.{bits_of};
ghost use Rattle.alu.specs.Count.{steps_of, counted_of, inc_of, dec_of};
ghost use Rattle.flags.specs.Flag.{keeping_c};

use flags::sum::{add, sub};
use flags::{Computed, Flags};
use little::Size;

// By how many a code counts: 0 means 8.
pub fn steps_of(n: u8) -> u32
    ensures { result ≡ steps_of n }
{
    if n % 8 == 0 { 8 } else { (n % 8) as u32 }
}

// The flags of a result, with a carry that is kept.
fn keeping_c(old: Flags, f: Flags) -> Flags
    ensures { result ≡ keeping_c old f }
{
    Flags { c: old.c, ..f }
}

// What INC and DEC leave of the flags: of a byte all but C are new, of others none is.
fn counted(old: Flags, size: Size, r: Computed) -> Computed
    ensures { result ≡ counted_of old (bits_of size) r }
{
    let f = r.flags;
    let value = r.value;
    match size {
        Size::Byte => Computed {
            value,
            flags: keeping_c(old, f),
        },
        Size::Word => Computed { value, flags: old },
        Size::Long => Computed { value, flags: old },
    }
}

pub fn inc(old: Flags, size: Size, a: u32, n: u32) -> Computed
    ensures { result ≡ inc_of old (bits_of size) a n }
{
    counted(old, size, add(size, a, n, false))
}

pub fn dec(old: Flags, size: Size, a: u32, n: u32) -> Computed
    ensures { result ≡ dec_of old (bits_of size) a n }
{
    counted(old, size, sub(size, a, n, false))
}
