// What C and Rust call. A state crosses as its saved record, an answer as its number and address, and nothing is kept between calls.
#![tactic(auto)]

ghost use Rattle.std.specs.Prelude.{◌≡◌};
ghost use Rattle.answer.specs.Number.{number_of, at_of};
ghost use Rattle.module.specs.Calls.{opened_of, CResetMeets, CStepMeets, CRunMeets, CRequestMeets};

use answer::{Answer, Why};
use saved::Restored;
use state::State;

// The state that a record holds; 1 is looked for before 2.
fn opened(bytes: &[u8], ram_len: usize, rom_len: usize) -> Restored
    ensures { result ≡ opened_of bytes.now ram_len rom_len }
{
    if step::too_long(ram_len, rom_len) {
        return Restored {
            answer: Err(Why::TooLong),
            state: State::zero(),
        };
    }
    saved::load(bytes)
}

// The number of an answer; `at` gets the address that goes with it, 0 where there is none.
fn told(a: Answer, at: &mut u32) -> u8
    ensures value { result ≡ number_of a }
    ensures at_after { at.new ≡ at_of a }
{
    *at = answer::at(a);
    answer::number(a)
}

// Writes the record of the reset state.
#[unsafe(no_mangle)]
pub extern "C" fn tlcs900h_reset(bytes: &mut [u8], ram: &[u8], rom: &[u8]) -> u8
    ensures { CResetMeets bytes.old ram.now rom.now result bytes.new }
{
    let s = step::reset(ram, rom);
    if let Err(why) = s.answer {
        return why.number();
    }
    answer::number(saved::save(s.state, bytes))
}

// Up to a million steps. Where a step is refused, the record, RAM and `done` say what was done before it, and `at` the byte that it lacked or could not store.
#[unsafe(no_mangle)]
pub extern "C" fn tlcs900h_run(
    bytes: &mut [u8],
    ram: &mut [u8],
    rom: &[u8],
    steps: u32,
    done: &mut u32,
    at: &mut u32,
) -> u8
    ensures { CRunMeets steps bytes.old ram.old rom.now
        result at.new bytes.new ram.new done.new }
{
    *done = 0;
    if run::MOST_STEPS < steps {
        return told(Err(Why::TooMany), at);
    }
    let o = opened(bytes, ram.len(), rom.len());
    if let Err(why) = o.answer {
        return told(Err(why), at);
    }
    let r = run::run(o.state, ram, rom, steps);
    *done = r.done;
    let _ = saved::save(r.state, bytes);
    told(r.answer, at)
}

// One step of the state that the record holds: a run of one, which writes the record of a refused step again as it was.
#[unsafe(no_mangle)]
pub extern "C" fn tlcs900h_step(bytes: &mut [u8], ram: &mut [u8], rom: &[u8], at: &mut u32) -> u8
    ensures { CStepMeets bytes.old ram.old rom.now
        result at.new bytes.new ram.new }
{
    let mut done = 0;
    tlcs900h_run(bytes, ram, rom, 1, &mut done, at)
}

// Offers a request for an interrupt. `taken` is 1 where it is taken; else it is 0, and the record and RAM are as they were.
#[unsafe(no_mangle)]
pub extern "C" fn tlcs900h_request(
    bytes: &mut [u8],
    ram: &mut [u8],
    rom: &[u8],
    level: u32,
    vector: u32,
    taken: &mut u8,
    at: &mut u32,
) -> u8
    ensures { CRequestMeets level vector bytes.old ram.old rom.now
        result taken.new at.new bytes.new ram.new }
{
    *taken = 0;
    let o = opened(bytes, ram.len(), rom.len());
    if let Err(why) = o.answer {
        return told(Err(why), at);
    }
    let q = request::request(o.state, ram, rom, level, vector);
    if !q.taken {
        return told(q.answer, at);
    }
    *taken = 1;
    let _ = saved::save(q.state, bytes);
    told(q.answer, at)
}
