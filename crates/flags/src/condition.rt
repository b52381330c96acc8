// The conditions of jumps.
ghost use Rattle.std.specs.Prelude.{◌≡◌};
ghost use Rattle.flags.specs.Flag.{flags_of};
ghost use Rattle.flags.specs.Condition.{less_than, basic, holds_of, reads_v, reads_marked};

use crate::Flags;

// S differs from V.
fn less_than(f: Flags) -> bool
    ensures { result ≡ less_than f }
{
    f.s != f.v
}

// Conditions 0 to 7.
#[tactic(auto, using(crate::proofs::Conditions::none), unfolding(crate::specs::Condition::basic))]
fn basic(f: Flags, n: u8) -> bool
    ensures { result ≡ basic f n }
{
    match n {
        1 => less_than(f),
        2 => f.z | less_than(f),
        3 => f.c | f.z,
        4 => f.v,
        5 => f.s,
        6 => f.z,
        7 => f.c,
        _ => false,
    }
}

// Whether the condition with this code holds.
pub fn holds(f: Flags, cc: u8) -> bool
    ensures { result ≡ holds_of f cc }
{
    let b = basic(f, cc % 8);
    if cc % 16 < 8 {
        return b;
    }
    !b
}

// Whether a condition reads V: LT, LE, V and their opposites do.
#[tactic(auto, using(crate::proofs::Conditions::no_v), unfolding(crate::specs::Condition::reads_v))]
fn reads_v(cc: u8) -> bool
    ensures { result ≡ reads_v cc }
{
    matches!(cc % 8, 1 | 2 | 4)
}

// Whether it reads V where V is marked, bit 9 of the packed flags. The mark is looked at first, since it is seldom there.
pub fn reads_marked(flags: u16, cc: u8) -> bool
    ensures { result ≡ reads_marked (flags_of flags) cc }
{
    if flags / 512 % 2 == 1 {
        return reads_v(cc);
    }
    false
}
