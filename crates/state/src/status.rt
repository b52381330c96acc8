// The status register SR: F, the bank and the level as one number.
ghost use Rattle.std.specs.Prelude.{◌≡◌};
ghost use Rattle.state.specs.Sr.{sr_from, sr_of, f_in, bank_in, level_in, ones_in};

use crate::{Bank, Level, State};

// Of F, which may have marks above it, a bank and a level.
pub fn sr_of(flags: u16, bank: Bank, level: Level) -> u32
    ensures { result ≡ sr_from flags bank level }
{
    let b = bank.0;
    let l = level.0;
    (flags % 256) as u32 + 256 * (b as u32) + 2048 + 4096 * (l as u32) + 32768
}

pub fn sr(s: State) -> u32
    ensures { result ≡ sr_of s }
{
    sr_of(s.flags, s.bank, s.level)
}

pub fn flags_in(sr: u32) -> u8
    ensures { result ≡ f_in sr }
{
    (sr % 256) as u8
}

pub fn bank_in(sr: u32) -> Bank
    ensures { result ≡ bank_in sr }
{
    Bank((sr / 256 % 8) as u8)
}

pub fn level_in(sr: u32) -> Level
    ensures { result ≡ level_in sr }
{
    Level((sr / 4096 % 8) as u8)
}

// Whether the two bits that are one in every SR are one.
pub fn ones_in(sr: u32) -> bool
    ensures { result ≡ ones_in sr }
{
    if sr / 2048 % 2 != 1 {
        return false;
    }
    sr / 32768 % 2 == 1
}
