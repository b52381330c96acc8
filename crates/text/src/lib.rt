// Numbers as text, and a line that they are added to.
#![tactic(auto)]

ghost use Rattle.std.specs.Prelude.{◌≡◌, ◌<◌, [], ◌∷◌};
ghost use Rattle.text.specs.Text.{digit_of, decimal_of, hex_of};
ghost use Rattle.text.specs.Grown.{grown};

use std::marker::Model;

// A text that grows at its end, up to 128 bytes; past them nothing is added.
#[derive(Clone, Copy)]
pub struct Line {
    text: [u8; 128],
    used: usize,
}

// Contracts see the bytes so far; those behind them are zero.
impl Model for Line {
    ghost use Rattle.std.specs.Prelude.{ℕ, ◌≡◌, ◌≤◌, ◌-◌, List, ◌++◌, length, take, replicate};

    ghost Value = { List ℕ };

    ghost view = { λ l. take l.used l.text };

    ghost invariant = { λ l. (l.used ≤ 128) × (length l.text ≡ 128) × (l.text ≡ take l.used l.text ++ replicate (128 - l.used) 0) };

    ghost inverse = { λ bytes. record { text = bytes ++ replicate (128 - length bytes) 0; used = length bytes } };
}

impl Line {
    pub fn new() -> Self
        ensures { result ≡ [] }
    {
        Line {
            text: [0; 128],
            used: 0,
        }
    }

    #[tactic(auto, unfolding(crate::specs::Grown::grown))]
    pub fn push(&mut self, b: u8)
        ensures { self.new ≡ grown self.old (b ∷ []) }
    {
        if self.used < 128 {
            self.text[self.used] = b;
            self.used += 1;
        }
    }

    // Without leading zeros.
    #[tactic(auto, using(crate::proofs::Laws::grown_joins, crate::proofs::Laws::digit_alone, crate::proofs::Laws::digit_behind))]
    pub fn decimal(&mut self, n: u32)
        ensures { self.new ≡ grown self.old (decimal_of n) }
    {
        if n >= 10 {
            self.decimal(n / 10);
        }
        self.push(digit(n % 10));
    }

    // The last digits of a number, as many as there are places.
    #[tactic(auto, using(crate::proofs::Laws::grown_none, crate::proofs::Laws::grown_joins, crate::proofs::Laws::hex_none, crate::proofs::Laws::hex_last))]
    pub fn hex(&mut self, n: u32, places: u8)
        ensures { self.new ≡ grown self.old (hex_of places n) }
    {
        if places > 0 {
            self.hex(n / 16, places - 1);
            self.push(digit(n % 16));
        }
    }

    pub fn as_slice(&self) -> &[u8]
        ensures { result.now ≡ self.now }
    {
        &self.text[..self.used]
    }
}

fn digit(d: u32) -> u8
    requires { d < 16 }
    ensures { result ≡ digit_of d }
{
    let d = d as u8;
    if d < 10 { b'0' + d } else { b'A' + (d - 10) }
}
