// Operand sizes, and numbers as bytes in a part of a slice, low byte first.
#![tactic(auto)]

ghost use Rattle.std.specs.Prelude.{◌≡◌, length, get_or, take};
ghost use Rattle.little.specs.Width.{bytes_of, twice_of};
ghost use Rattle.little.specs.Bytes.{value_of, bytes_from};

// The weight of the top byte of a long.
pub const TOP_BYTE: u32 = 0x100_0000;

// How many addresses there are: an address is a long without its top byte.
pub const ADDRESSES: u32 = TOP_BYTE;

// The same as a length: of a memory that had them all.
pub const SPACE: usize = ADDRESSES as usize;

#[derive(Clone, Copy, PartialEq, Eq)]
pub enum Size {
    Byte,
    Word,
    Long,
}

impl Size {
    // How many bytes an operand of a size has.
    pub fn bytes(self) -> usize
        ensures { result ≡ bytes_of self }
    {
        match self {
            Size::Byte => 1,
            Size::Word => 2,
            Size::Long => 4,
        }
    }

    // The size of twice as many bytes; there is none above a long.
    pub fn twice(self) -> Size
        ensures { result ≡ twice_of self }
    {
        match self {
            Size::Byte => Size::Word,
            Size::Word => Size::Long,
            Size::Long => Size::Long,
        }
    }
}

// The byte at an index, or 0 past the end.
pub fn byte_at(part: &[u8], i: usize) -> u32
    ensures { result ≡ get_or part.now i 0 }
{
    if i < part.len() { part[i] as u32 } else { 0 }
}

// The number in a part of up to four bytes; of a longer part the number in its first four.
pub fn read(part: &[u8]) -> u32
    ensures { result ≡ value_of (take 4 part.now) }
{
    let b0 = byte_at(part, 0);
    let b1 = byte_at(part, 1);
    let b2 = byte_at(part, 2);
    let b3 = byte_at(part, 3);
    b0 + 256 * b1 + 65536 * b2 + TOP_BYTE * b3
}

// Fills the part with the low bytes of v.
pub fn write(part: &mut [u8], v: u32)
    ensures { part.new ≡ bytes_from (length part.old) v }
{
    let mut rest = v;
    for byte in part.iter_mut() {
        *byte = (rest % 256) as u8;
        rest /= 256;
    }
}
