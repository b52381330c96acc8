// What C and Rust call to see an instruction: an archive of its own, so that the one that runs the firmware holds the decoder once.
#![tactic(auto)]

ghost use Rattle.look.specs.Statements.{CShowMeets};

// How many bytes the instruction at an address has; 0 where it is refused.
#[unsafe(no_mangle)]
pub extern "C" fn tlcs900h_show<'a>(ram: &'a [u8], rom: &'a [u8], at: u32, size: &mut u32) -> u8
    ensures { CShowMeets ram.now rom.now at result size.new }
{
    let code = step::show(ram, rom, at);
    *size = code.len() as u32;
    answer::number(step::show_answer(ram, rom, at))
}
