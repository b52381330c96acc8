// The two memories: where an operand lies, loads and stores, and the part of a memory that holds code.
#![tactic(auto)]

ghost use Rattle.std.specs.Prelude.{◌≡◌, length, take, drop, ◌+◌, ◌%◌, ◌^◌, ◌<◌, ◌≤◌};
ghost use Rattle.little.specs.Bytes.{value_of};
ghost use Rattle.memory.specs.Place.{place_of};
ghost use Rattle.memory.specs.inner.Ends.{past_end};
ghost use Rattle.memory.specs.inner.Six.{six_from, six_as, SixFits};
ghost use Rattle.memory.specs.Access.{load_bytes, load_of, store_bytes, store_of, ram_bytes, ram_after, code_at, stands_at};

use answer::{Answer, MissingByte, Why};
use little::{ADDRESSES, SPACE, Size};

// Where an operand lies, as an offset into its memory; or the address of the byte that is missing.
#[derive(Clone, Copy)]
pub enum Place {
    Ram(usize),
    Rom(usize),
    Missing(u32),
}

// The address past the end of the memory that holds an address; where none does, that address. ROM ends where addresses begin again.
// Both remainders change nothing for what a step lets through: they keep the promise for every length and number.
fn past_end(ram_len: usize, rom_len: usize, address: u32) -> u32
    ensures { result ≡ past_end ram_len rom_len address }
{
    let at = address as usize;
    if at < ram_len {
        return (ram_len % SPACE) as u32;
    }
    if at < SPACE {
        if SPACE - at <= rom_len {
            return 0;
        }
    }
    address % ADDRESSES
}

// The place of n bytes at an address, from the lengths of the two memories. No sum is made that could wrap.
pub fn find(ram_len: usize, rom_len: usize, address: u32, n: usize) -> Place
    ensures { result ≡ place_of ram_len rom_len address n }
{
    let at = address as usize;
    if at <= ram_len {
        if n <= ram_len - at {
            return Place::Ram(at);
        }
    }
    if at <= SPACE {
        let above = SPACE - at;
        if above <= rom_len {
            if n <= above {
                return Place::Rom(rom_len - above);
            }
        }
    }
    Place::Missing(past_end(ram_len, rom_len, address))
}

// The value of n bytes at an address, or the byte that is missing.
fn load_bytes(ram: &[u8], rom: &[u8], address: u32, n: usize) -> Result<u32, MissingByte>
    requires { n ≤ 4 }
    ensures { result ≡ load_bytes ram.now rom.now address n }
{
    match find(ram.len(), rom.len(), address, n) {
        Place::Ram(o) => {
            let e = o + n;
            Ok(little::read(&ram[o..e]))
        }
        Place::Rom(o) => {
            let e = o + n;
            Ok(little::read(&rom[o..e]))
        }
        Place::Missing(a) => Err(MissingByte(a)),
    }
}

// The value at an address. The length is written out for each size, so that the compiler makes one load of the reader's bytes.
pub fn load(ram: &[u8], rom: &[u8], address: u32, size: Size) -> Result<u32, MissingByte>
    ensures { result ≡ load_of ram.now rom.now address size }
{
    match size {
        Size::Byte => load_bytes(ram, rom, address, 1),
        Size::Word => load_bytes(ram, rom, address, 2),
        Size::Long => load_bytes(ram, rom, address, 4),
    }
}

// The four bytes of a vector. With one caller more of `load` the compiler no longer lays it into a step (docs/DECISIONS.md, 84).
pub fn load_vector(ram: &[u8], rom: &[u8], address: u32) -> Result<u32, MissingByte>
    ensures { result ≡ load_of ram.now rom.now address Size.Long }
{
    load_bytes(ram, rom, address, 4)
}

// Stores the n low bytes of a value at an address: the part of RAM that they go to is lent to the writer.
fn store_bytes(ram: &mut [u8], rom: &[u8], address: u32, n: usize, v: u32) -> Answer
    ensures value { result ≡ store_bytes ram.old rom.now address n }
    ensures ram_after { ram.new ≡ ram_bytes ram.old rom.now address n v }
{
    match find(ram.len(), rom.len(), address, n) {
        Place::Ram(o) => {
            let e = o + n;
            little::write(&mut ram[o..e], v);
            Ok(())
        }
        Place::Rom(_) => Err(Why::ToRom(address)),
        Place::Missing(a) => Err(Why::Missing(a)),
    }
}

// Stores a value at an address. The length is written out for each size, so that the compiler makes one store of the writer's loop.
pub fn store(ram: &mut [u8], rom: &[u8], address: u32, size: Size, v: u32) -> Answer
    ensures value { result ≡ store_of ram.old rom.now address size }
    ensures ram_after { ram.new ≡ ram_after ram.old rom.now address size v }
{
    match size {
        Size::Byte => store_bytes(ram, rom, address, 1, v),
        Size::Word => store_bytes(ram, rom, address, 2, v),
        Size::Long => store_bytes(ram, rom, address, 4, v),
    }
}

// The six bytes of a memory from an offset on: the low two, and the high four.
fn six_at(bytes: &[u8], at: usize) -> (u32, u32)
    requires { at + 6 ≤ length bytes.now }
    ensures both { six_from result.0 result.1 ≡ value_of (take 6 (drop at bytes.now)) }
    ensures fits { result.0 < 2 ^ 16 }
{
    let m = at + 2;
    let e = at + 6;
    let low = little::read(&bytes[at..m]);
    let high = little::read(&bytes[m..e]);
    (low, high)
}

// An operand of six bytes: its low two and its high four, or the byte that is missing.
pub fn load_six(ram: &[u8], rom: &[u8], address: u32) -> Result<(u32, u32), MissingByte>
    ensures result_value { six_as result ≡ load_bytes ram.now rom.now address 6 }
    ensures six_fits { SixFits result }
{
    match find(ram.len(), rom.len(), address, 6) {
        Place::Ram(o) => Ok(six_at(ram, o)),
        Place::Rom(o) => Ok(six_at(rom, o)),
        Place::Missing(x) => Err(MissingByte(x)),
    }
}

// Stores six bytes at an address, the low two of one value and a whole one above them: the place is looked for once, for all six.
pub fn store_six(ram: &mut [u8], rom: &[u8], at: u32, low: u32, high: u32) -> Answer
    ensures value { result ≡ store_bytes ram.old rom.now at 6 }
    ensures ram_after { ram.new ≡ ram_bytes ram.old rom.now at 6 (six_from (low % 2 ^ 16) high) }
{
    match find(ram.len(), rom.len(), at, 6) {
        Place::Ram(o) => {
            let m = o + 2;
            let e = o + 6;
            little::write(&mut ram[o..m], low);
            little::write(&mut ram[m..e], high);
            Ok(())
        }
        Place::Rom(_) => Err(Why::ToRom(at)),
        Place::Missing(x) => Err(Why::Missing(x)),
    }
}

// What stands from an address to the end of the memory that holds it: a part of that memory, never a copy.
pub fn fetch<'a>(ram: &'a [u8], rom: &'a [u8], address: u32) -> &'a [u8]
    ensures result_value { result.now ≡ code_at ram.now rom.now address }
    ensures ref_ptr_value { result.ref_ptr ≡ stands_at (place_of (length ram.now) (length rom.now) address 1) ram.entry.ref_ptr rom.entry.ref_ptr }
{
    match find(ram.len(), rom.len(), address, 1) {
        Place::Ram(o) => &ram[o..],
        Place::Rom(o) => &rom[o..],
        Place::Missing(_) => &rom[..0],
    }
}
