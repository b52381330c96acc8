// Pushes, pops, calls and returns.
#![tactic(auto)]

ghost use Rattle.std.specs.Prelude.{◌≡◌, ◌%◌, ◌^◌};
ghost use Rattle.little.specs.Width.{bytes_of};
ghost use Rattle.memory.specs.Access.{load_of};
ghost use Rattle.memory.specs.inner.Six.{six_from};
ghost use Rattle.little.specs.declared.Size.TheVariants.{Byte, Long};
ghost use Rattle.flags.specs.Flag.{byte_of, flags_of};
ghost use Rattle.state.specs.declared.State.{State};
ghost use Rattle.state.specs.State.{banked, with_counter, with_flags};
ghost use Rattle.state.specs.inner.Lent.{banked_with, banked_at, banked_at_with};
ghost use Rattle.state.specs.Register.{register_at, set_register};
ghost use Rattle.operand.specs.inner.Does.{Does};
ghost use Rattle.operand.specs.Operand.{pointer_in};
ghost use Rattle.operand.specs.Round.{less, plus};
ghost use Rattle.stack.specs.Stack.{with_stack, push_bytes, push_of, push_f_of, pop_of, call_of, stack_of};
ghost use Rattle.stack.specs.inner.Raised.{RaisedBy};

use answer::{Answer, MissingByte, Why};
use code::{Operand, Stack};
use little::{ADDRESSES, Size};
use operand::{displace, pointer};
use state::Bank;

// The address n bytes below the stack's end, not cut to 24 bits.
fn below(bank: Bank, regs: &[u32; 20], n: u32) -> u32
    ensures { result ≡ less 32 (register_at regs.now bank Long 7) n }
{
    state::read(regs, bank, Size::Long, 7).wrapping_sub(n)
}

// Stores below the stack's end, and moves the end there where the store is done.
#[tactic(auto, unfolding(crate::specs::Stack::push_of, memory::specs::Access::store_of, memory::specs::Access::ram_after))]
pub fn push(
    bank: Bank,
    regs: &mut [u32; 20],
    ram: &mut [u8],
    rom: &[u8],
    size: Size,
    v: u32,
) -> Answer
    ensures { (s : State) → Does (λ t m. push_of t m rom.now size v)
        (banked s regs.old bank) ram.old
        result (banked s regs.new bank) ram.new }
{
    let n = size.bytes() as u32;
    let end = below(bank, &*regs, n);
    memory::store(ram, rom, end % ADDRESSES, size, v)?;
    state::write(regs, bank, Size::Long, 7, end);
    Ok(())
}

// The same of six bytes: the low two of one value, and a whole one above them.
pub fn push_six(
    bank: Bank,
    regs: &mut [u32; 20],
    ram: &mut [u8],
    rom: &[u8],
    low: u32,
    high: u32,
) -> Answer
    ensures { (s : State) → Does (λ t m. push_bytes t m rom.now 6 (six_from (low % 2 ^ 16) high))
        (banked s regs.old bank) ram.old
        result (banked s regs.new bank) ram.new }
{
    let end = below(bank, &*regs, 6);
    memory::store_six(ram, rom, end % ADDRESSES, low, high)?;
    state::write(regs, bank, Size::Long, 7, end);
    Ok(())
}

// The stack's end moved, as after a pop of n bytes.
pub fn raise(bank: Bank, regs: &mut [u32; 20], n: u32)
    ensures { (s : State) → banked s regs.new bank
        ≡ with_stack (banked s regs.old bank) (plus 32 (register_at regs.old bank Long 7) n) }
{
    let x = state::read(&*regs, bank, Size::Long, 7);
    state::write(regs, bank, Size::Long, 7, x.wrapping_add(n));
}

// A load at the end of the stack, and the end moved above it where the load is done.
pub fn popped(
    bank: Bank,
    regs: &mut [u32; 20],
    ram: &[u8],
    rom: &[u8],
    size: Size,
) -> Result<u32, MissingByte>
    ensures value { result ≡ load_of ram.now rom.now (pointer_in regs.old bank 7) size }
    ensures end { RaisedBy result regs.old regs.new bank (bytes_of size) }
{
    let v = memory::load(ram, rom, pointer(bank, &*regs, 7), size)?;
    raise(bank, regs, size.bytes() as u32);
    Ok(v)
}

// A pop into the register of a code.
#[tactic(auto, unfolding(crate::specs::Stack::pop_of, memory::specs::Access::load_of))]
fn pop(bank: Bank, regs: &mut [u32; 20], ram: &[u8], rom: &[u8], size: Size, code: u8) -> Answer
    ensures { (s : State) → Does (λ t m. pop_of t m rom.now size (λ u v. set_register u size code v))
        (banked s regs.old bank) ram.now
        result (banked s regs.new bank) ram.now }
{
    let v = popped(bank, &mut *regs, ram, rom, size)?;
    state::write(regs, bank, size, code, v);
    Ok(())
}

fn call(
    bank: Bank,
    regs: &mut [u32; 20],
    counter: &mut u32,
    ram: &mut [u8],
    rom: &[u8],
    to: u32,
) -> Answer
    ensures { (s : State) → Does (λ t m. call_of t m rom.now to)
        (banked_at s regs.old bank counter.old) ram.old
        result (banked_at s regs.new bank counter.new) ram.new }
{
    push(bank, regs, ram, rom, Size::Long, *counter)?;
    *counter = to % ADDRESSES;
    Ok(())
}

#[tactic(auto, unfolding(crate::specs::Stack::pop_of, memory::specs::Access::load_of))]
fn ret(bank: Bank, regs: &mut [u32; 20], counter: &mut u32, ram: &[u8], rom: &[u8]) -> Answer
    ensures { (s : State) → Does (λ t m. pop_of t m rom.now Long with_counter)
        (banked_at s regs.old bank counter.old) ram.now
        result (banked_at s regs.new bank counter.new) ram.now }
{
    let v = popped(bank, regs, ram, rom, Size::Long)?;
    *counter = v % ADDRESSES;
    Ok(())
}

// A push of F: where one of its flags is marked it is refused, before the store is looked at.
#[tactic(auto, unfolding(crate::specs::Stack::push_f_of))]
fn push_f(bank: Bank, regs: &mut [u32; 20], flags: u16, ram: &mut [u8], rom: &[u8]) -> Answer
    ensures { (s : State) → Does (λ t m. push_f_of t m rom.now)
        (banked_with s regs.old bank flags) ram.old
        result (banked_with s regs.new bank flags) ram.new }
{
    let f = flags::unpack(flags);
    if flags::any_marked(f) {
        return Err(Why::Undefined);
    }
    push(bank, regs, ram, rom, Size::Byte, flags::byte(f) as u32)
}

#[tactic(auto, unfolding(crate::specs::Stack::pop_of, memory::specs::Access::load_of))]
fn pop_f(bank: Bank, regs: &mut [u32; 20], flags: &mut u16, ram: &[u8], rom: &[u8]) -> Answer
    ensures { (s : State) → Does (λ t m. pop_of t m rom.now Byte (λ u v. with_flags u (byte_of (flags_of v))))
        (banked_with s regs.old bank flags.old) ram.now
        result (banked_with s regs.new bank flags.new) ram.now }
{
    let v = popped(bank, regs, ram, rom, Size::Byte)?;
    let f = (v % 256) as u16;
    *flags = flags::byte(flags::unpack(f)) as u16;
    Ok(())
}

pub fn stack(
    what: Stack,
    size: Size,
    operand: Operand,
    bank: Bank,
    flags: &mut u16,
    regs: &mut [u32; 20],
    counter: &mut u32,
    ram: &mut [u8],
    rom: &[u8],
) -> Answer
    ensures { (s : State) → Does (λ t m. stack_of what size operand t m rom.now)
        (banked_at_with s regs.old bank counter.old flags.old) ram.old
        result (banked_at_with s regs.new bank counter.new flags.new) ram.new }
{
    match what {
        Stack::PushF => push_f(bank, regs, *flags, ram, rom),
        Stack::PopF => pop_f(bank, regs, flags, &*ram, rom),
        Stack::Push => {
            let v = state::read(&*regs, bank, size, operand.register());
            push(bank, regs, ram, rom, size, v)
        }
        Stack::Pop => pop(bank, regs, &*ram, rom, size, operand.register()),
        Stack::Call16 => call(bank, regs, counter, ram, rom, operand.constant()),
        Stack::Call24 => call(bank, regs, counter, ram, rom, operand.constant()),
        Stack::Calr => {
            let to = displace(Size::Word, *counter, operand.constant());
            call(bank, regs, counter, ram, rom, to)
        }
        Stack::Ret => ret(bank, regs, counter, &*ram, rom),
    }
}
