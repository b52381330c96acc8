// The parity table, its rule, V by it, and where V is marked.
ghost use Rattle.std.specs.Prelude.{◌≡◌};
ghost use Rattle.little.specs.Width.{bits_of};
ghost use Rattle.flags.specs.Undefined.{by_parity, undefined_of};
ghost use Rattle.alu.specs.Parity.{even_ones};
ghost use Rattle.alu.specs.inner.Parity.{parity_of};

use little::Size;

// Whether a byte has an even number of ones.
fn even_ones(x: u8) -> bool
    ensures { result ≡ even_ones 8 x }
{
    EVEN[x as usize] == b'1'
}

// An entry for each byte, in the order of the bytes, sixteen to a row: 1 where its ones are even.
const EVEN: [u8; 256] = *b"\
    1001011001101001\
    0110100110010110\
    0110100110010110\
    1001011001101001\
    0110100110010110\
    1001011001101001\
    1001011001101001\
    0110100110010110\
    0110100110010110\
    1001011001101001\
    1001011001101001\
    0110100110010110\
    1001011001101001\
    0110100110010110\
    0110100110010110\
    1001011001101001";

// V of logic and shifts. The ones of a word are even where those of its two bytes taken together are. Two functions call this,
// so that the compiler keeps the table in a function of its own, and lays it out only where it is read.
pub fn parity(size: Size, x: u32) -> bool
    ensures { result ≡ parity_of (bits_of size) x }
{
    match size {
        Size::Byte => even_ones((x % 256) as u8),
        Size::Word => even_ones(((x / 256 ^ x) % 256) as u8),
        Size::Long => false,
    }
}

// The mark of V, which nobody defined for a long.
pub fn marks(size: Size) -> u8
    ensures { result ≡ undefined_of (by_parity (bits_of size)) }
{
    match size {
        Size::Byte => 0,
        Size::Word => 0,
        Size::Long => 2,
    }
}
