// The flags: sums and differences, which set them all, and the conditions that read them.
#![tactic(auto)]

pub use crate::condition::{holds, reads_marked};
pub use crate::flag::{
    any_marked, byte, ccf, compare_flags, copy_flags, divide_flags, keeping, pack, rcf, scf,
    settled, unpack, zcf,
};

mod condition;
mod flag;
pub mod sum;
pub mod width;

// The flags, one by one, and the marks of those that nobody defined: 1 for H, 2 for V.
#[derive(Clone, Copy)]
pub struct Flags {
    pub s: bool,
    pub z: bool,
    pub h: bool,
    pub v: bool,
    pub n: bool,
    pub c: bool,
    pub marks: u8,
}

// A result of some size, and the flags after it.
#[derive(Clone, Copy)]
pub struct Computed {
    pub value: u32,
    pub flags: Flags,
}
