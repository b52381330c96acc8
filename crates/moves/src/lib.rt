// What C and Rust call to move a record between its two forms: apart from the other calls, so that a program with no old records holds none of it.
#![tactic(auto)]

ghost use Rattle.std.specs.Prelude.{◌≡◌, length};
ghost use Rattle.moves.specs.Moves.{CWidenMeets, CNarrowMeets};
ghost use Rattle.moves.specs.inner.Filled.{filled};

use answer::Why;

// Fills the room with the bytes of a record, and with zeros past its end.
fn fill(room: &mut [u8], from: &[u8])
    ensures { room.new ≡ filled (length room.old) from.now }
{
    for (i, to) in room.iter_mut().enumerate() {
        *to = if i < from.len() { from[i] } else { 0 };
    }
}

// Writes the new record of the state that an old one holds.
#[unsafe(no_mangle)]
pub extern "C" fn tlcs900h_widen(old: &[u8], new: &mut [u8]) -> u8
    ensures { CWidenMeets old.now new.old result new.new }
{
    let o = saved::load_old(old);
    if let Err(why) = o.answer {
        return why.number();
    }
    if new.len() != saved::LENGTH {
        return Why::Invalid.number();
    }
    fill(new, old);
    answer::number(Ok(()))
}

// Writes the old record of the state that a new one holds. 10 comes after 2.
#[unsafe(no_mangle)]
pub extern "C" fn tlcs900h_narrow(new: &[u8], old: &mut [u8]) -> u8
    ensures { CNarrowMeets new.now old.old result old.new }
{
    let o = saved::load(new);
    if let Err(why) = o.answer {
        return why.number();
    }
    let room = old.len();
    if room != saved::OLD_LENGTH {
        return Why::Invalid.number();
    }
    if !saved::fits_old(o.state) {
        return Why::NoOldForm.number();
    }
    fill(old, new);
    answer::number(Ok(()))
}
