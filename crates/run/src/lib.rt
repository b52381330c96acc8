// Many steps.
#![tactic(auto)]

ghost use Rattle.std.specs.Prelude.{◌≡◌};
ghost use Rattle.turn.specs.Many.{stopped};
ghost use Rattle.run.specs.Run.{RunMeets};

use answer::Why;
use state::State;
use turn::{Ran, many};

// The most steps that a run may be asked for.
pub const MOST_STEPS: u32 = 1000000;

fn refuse(s: State, w: Why) -> Ran
    ensures { result ≡ stopped s 0 (Err w) }
{
    Ran {
        state: s,
        done: 0,
        answer: Err(w),
    }
}

// All the steps asked for, or those before the first one refused.
pub fn run(s: State, ram: &mut [u8], rom: &[u8], steps: u32) -> Ran
    ensures { RunMeets steps s ram.old rom.now result ram.new }
{
    if MOST_STEPS < steps {
        return refuse(s, Why::TooMany);
    }
    if step::too_long(ram.len(), rom.len()) {
        return refuse(s, Why::TooLong);
    }
    if s.valid() {
        return many(s, ram, rom, steps);
    }
    refuse(s, Why::Invalid)
}
