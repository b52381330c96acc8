// What is made of one value by itself: INC, DEC, shifts and extensions.
ghost use Rattle.std.specs.Prelude.{◌≡◌};
ghost use Rattle.little.specs.Width.{bits_of};
ghost use Rattle.flags.specs.Flag.{packed_of, flags_of};
ghost use Rattle.alu.specs.Change.{changed};

use crate::Shift;
use crate::count::{dec, inc, steps_of};
use crate::extend::{exts, extz};
use crate::shifter::shift_by;
use flags::{keeping, settled, unpack};
use little::Size;

// Counts and places are as the code has them.
#[derive(Clone, Copy)]
pub enum Change {
    Inc(u8),
    Dec(u8),
    ShiftBy(Shift, u8),
    Extz,
    Exts,
}

// The value; the flags go into F. Each arm does so by itself, which was measured to be faster.
pub fn changed(how: Change, size: Size, a: u32, flags: &mut u16) -> u32
    ensures { (result ≡ (changed how (bits_of size) a (flags_of flags.old)).value)
        × (flags.new ≡ packed_of (changed how (bits_of size) a (flags_of flags.old)).flags) }
{
    match how {
        Change::Inc(n) => settled(inc(unpack(*flags), size, a, steps_of(n)), flags),
        Change::Dec(n) => settled(dec(unpack(*flags), size, a, steps_of(n)), flags),
        Change::ShiftBy(kind, n) => settled(shift_by(kind, size, a, n), flags),
        Change::Extz => settled(keeping(unpack(*flags), extz(size, a)), flags),
        Change::Exts => settled(keeping(unpack(*flags), exts(size, a)), flags),
    }
}
