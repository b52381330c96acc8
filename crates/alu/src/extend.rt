// EXTZ and EXTS.
ghost use Rattle.std.specs.Prelude.{◌≡◌, cond, ◌+◌, ◌<◌, leb};
ghost use Rattle.little.specs.Width.{bits_of};
ghost use Rattle.alu.specs.Extend.{extz_of, exts_of};

use little::Size;

pub fn extz(size: Size, a: u32) -> u32
    ensures { result ≡ extz_of (bits_of size) a }
{
    match size {
        Size::Byte => a % 0x10,
        Size::Word => a % 0x100,
        Size::Long => a % 0x1_0000,
    }
}

// x with ones above it where its top bit is one.
fn extended(x: u32, top: u32, ones: u32) -> u32
    requires { x + ones < 4294967296 }
    ensures { result ≡ cond (leb top x) (x + ones) x }
{
    if top <= x { x + ones } else { x }
}

pub fn exts(size: Size, a: u32) -> u32
    ensures { result ≡ exts_of (bits_of size) a }
{
    match size {
        Size::Byte => extended(a % 0x10, 0x8, 0xF0),
        Size::Word => extended(a % 0x100, 0x80, 0xFF00),
        Size::Long => extended(a % 0x1_0000, 0x8000, 0xFFFF_0000),
    }
}
