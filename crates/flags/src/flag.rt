// The byte F, and what other instructions do to the flags.
ghost use Rattle.std.specs.Prelude.{◌≡◌, ◌*◌, ◌≤◌};
ghost use Rattle.flags.specs.Width.{one};
ghost use Rattle.flags.specs.Flag.{byte_of, packed_of, flags_of, any_marked, carried, keeping, dividing};
ghost use Rattle.flags.specs.Flag.{rcf_of, scf_of, ccf_of, zcf_of, copied_of, compared_of};

use crate::{Computed, Flags};

fn weight(b: bool, w: u8) -> u8
    ensures value { result ≡ one b * w }
    ensures bounded { result ≤ w }
{
    if b { w } else { 0 }
}

// The byte F.
pub fn byte(f: Flags) -> u8
    ensures { result ≡ byte_of f }
{
    weight(f.s, 128)
        + weight(f.z, 64)
        + weight(f.h, 16)
        + weight(f.v, 4)
        + weight(f.n, 2)
        + weight(f.c, 1)
}

// F, and above it the marks.
pub fn pack(f: Flags) -> u16
    ensures { result ≡ packed_of f }
{
    byte(f) as u16 + 256 * (f.marks as u16)
}

// The value of a result; its flags go into F.
pub fn settled(w: Computed, flags: &mut u16) -> u32
    ensures { (result ≡ w.value) × (flags.new ≡ packed_of w.flags) }
{
    let after = w.flags;
    *flags = pack(after);
    w.value
}

pub fn unpack(f: u16) -> Flags
    ensures { result ≡ flags_of f }
{
    Flags {
        s: f / 128 % 2 == 1,
        z: f / 64 % 2 == 1,
        h: f / 16 % 2 == 1,
        v: f / 4 % 2 == 1,
        n: f / 2 % 2 == 1,
        c: f % 2 == 1,
        marks: (f / 256) as u8,
    }
}

// Whether a flag of them is marked.
pub fn any_marked(f: Flags) -> bool
    ensures { result ≡ any_marked f }
{
    f.marks != 0
}

// S, Z and V kept, V with its mark; H and N 0, and H with a mark or none.
fn carried(f: Flags, mark: u8, c: bool) -> Flags
    requires { mark ≤ 1 }
    ensures { result ≡ carried f mark c }
{
    Flags {
        h: false,
        n: false,
        c,
        marks: f.marks / 2 * 2 + mark,
        ..f
    }
}

pub fn rcf(f: Flags) -> Flags
    ensures { result ≡ rcf_of f }
{
    carried(f, 0, false)
}

pub fn scf(f: Flags) -> Flags
    ensures { result ≡ scf_of f }
{
    carried(f, 0, true)
}

pub fn ccf(f: Flags) -> Flags
    ensures { result ≡ ccf_of f }
{
    carried(f, 1, !f.c)
}

pub fn zcf(f: Flags) -> Flags
    ensures { result ≡ zcf_of f }
{
    carried(f, 1, !f.z)
}

// LDI and LDD, where `more` says that BC is not 0 after the round.
pub fn copy_flags(old: Flags, more: bool) -> Flags
    ensures { result ≡ copied_of old more }
{
    Flags {
        h: false,
        v: more,
        n: false,
        marks: 0,
        ..old
    }
}

// DIV and DIVS: V alone is new, and has a value, so that its mark goes.
pub fn divide_flags(old: Flags, over: bool) -> Flags
    ensures { result ≡ dividing old over }
{
    Flags {
        v: over,
        marks: old.marks % 2,
        ..old
    }
}

// A value, and the flags as they were.
pub fn keeping(old: Flags, value: u32) -> Computed
    ensures { result ≡ keeping old value }
{
    Computed { value, flags: old }
}

// CPI and CPD, with the flags of the comparison.
pub fn compare_flags(old: Flags, compared: Flags, more: bool) -> Flags
    ensures { result ≡ compared_of old compared more }
{
    Flags {
        v: more,
        n: true,
        c: old.c,
        marks: compared.marks % 2,
        ..compared
    }
}
