// A request for an interrupt, offered to the machine between two steps.
#![tactic(auto)]

ghost use Rattle.std.specs.Prelude.{◌≡◌, false};
ghost use Rattle.little.specs.declared.Size.TheVariants.{Long};
ghost use Rattle.memory.specs.Access.{load_of};
ghost use Rattle.operand.specs.Try.{with_loaded};
ghost use Rattle.request.specs.Request.{bad_request, takes, raised_to, entering, RequestMeets};
ghost use Rattle.request.specs.inner.Taking.{Takes, pushed_of};

use answer::{Answer, Why};
use little::ADDRESSES;
use state::status::sr;
use state::{Level, State};

// The state after it, whether it was taken, and how the call ended: a request that is not taken is done.
#[derive(Clone, Copy)]
pub struct Requested {
    pub state: State,
    pub taken: bool,
    pub answer: Answer,
}

// Not taken, and the state as it was: with its answer, done or refused.
fn untaken(s: State, a: Answer) -> Requested
    ensures { result ≡ record { state = s; taken = false; answer = a } }
{
    Requested {
        state: s,
        taken: false,
        answer: a,
    }
}

fn bad(level: u32, vector: u32) -> bool
    ensures { result ≡ bad_request level vector }
{
    !((1 <= level) & (level <= 7)) | (ADDRESSES <= vector)
}

// Whether a mask lets a request of a level in.
fn admits(mask: Level, level: Level) -> bool
    ensures { result ≡ takes mask.0 level.0 }
{
    let l = level.0;
    if mask.0 == 0 {
        return 1 <= l;
    }
    mask.0 <= l
}

// The mask while a request of a level is served.
fn raised(level: Level) -> Level
    ensures { result ≡ record { 0 = raised_to level.0 } }
{
    let l = level.0;
    if l < 7 { Level(l + 1) } else { Level(7) }
}

// The counter and SR go to the stack, and the machine to the vector.
fn enter(s: State, ram: &mut [u8], rom: &[u8], level: Level, vector: u32) -> Requested
    ensures { Takes (entering (pushed_of s) level.0 vector s ram.old rom.now)
        s ram.old result ram.new }
{
    let mut regs = s.registers;
    let b = s.bank;
    if let Err(why) = stack::push_six(b, &mut regs, ram, rom, sr(s), s.counter) {
        return untaken(s, Err(why));
    }
    let nesting = s.nesting.wrapping_add(1);
    let t = state::whole(
        regs,
        vector % ADDRESSES,
        b,
        raised(level),
        s.flags,
        s.spare,
        nesting,
    );
    Requested {
        state: t,
        taken: true,
        answer: Ok(()),
    }
}

// One that the mask lets in. The vector is read before the stack is written: they may overlap.
fn take(s: State, ram: &mut [u8], rom: &[u8], level: Level, vector: u32) -> Requested
    ensures { Takes (with_loaded (load_of ram.old rom.now vector Long)
        (λ v. entering (pushed_of s) level.0 v s ram.old rom.now))
        s ram.old result ram.new }
{
    match memory::load_vector(&*ram, rom, vector) {
        Ok(v) => enter(s, ram, rom, level, v),
        Err(byte) => untaken(s, Err(Why::from(byte))),
    }
}

// The offer, with all its checks. One that is not taken leaves all as it was, and no vector is read.
pub fn request(s: State, ram: &mut [u8], rom: &[u8], level: u32, vector: u32) -> Requested
    ensures { RequestMeets level vector s ram.old rom.now result ram.new }
{
    if step::too_long(ram.len(), rom.len()) {
        return untaken(s, Err(Why::TooLong));
    }
    if !s.valid() {
        return untaken(s, Err(Why::Invalid));
    }
    if bad(level, vector) {
        return untaken(s, Err(Why::BadRequest));
    }
    let l = Level((level % 8) as u8);
    if admits(s.level, l) {
        return take(s, ram, rom, l, vector);
    }
    untaken(s, Ok(()))
}
