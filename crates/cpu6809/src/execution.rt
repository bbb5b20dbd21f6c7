ghost use Rattle.std.specs.Prelude.{◌≡◌, ◌↔◌, IfOk};
ghost use Rattle.cpu_model.specs.Reading.{reading};
ghost use Rattle.cpu_model.specs.Step as model;
ghost use Rattle.cpu_table.specs.Decoded.{reading_of, HasItsRow};
ghost use Rattle.cpu6809.specs.Does.{HasStepOutcome};
ghost use Rattle.cpu6809.specs.Running.{Runs};

use crate::effect::{abx, branch, daa, exchange, mul, sex, transfer, unary_on};
use crate::memory_effect::{
    binary_from, enter_at, jump, lea_of, store, store_word, unary_at, word_from,
};
use crate::place::{Addressing, tail_byte, target_of};
use crate::stack::{enter, pull, push, return_from_interrupt, return_from_subroutine};
use arrayvec::ArrayVec;
use cpu_model::instruction::{DecodeFault, Instr};
use cpu_model::rows::{Mode, Operation, Row};
use cpu_model::stop::Stop;
use cpu_table::{Decoded, decode_with_row};
use os9_base::errors::{E_ISWI, E_PRCABT};
use os9_base::memory::Bus;
use os9_base::registers::Regs;

/// The greatest number of bytes of an instruction.
const LONGEST: usize = 5;

/// The bytes at an address, up to the first that is not named, at most those of an instruction.
fn fetch<B: Bus>(b: &B, mut at: u16) -> ArrayVec<u8, LONGEST>
    ensures { result.items ≡ model.window (B.cells b.now) at 5 }
{
    let mut bytes = ArrayVec::new();
    for _k in 0..LONGEST {
        match b.read(at) {
            Some(byte) => bytes.push(byte),
            None => return bytes,
        }
        at = at.wrapping_add(1);
    }
    bytes
}

/// SWI2: the code byte is next.
fn system_call<B: Bus>(r: &mut Regs, b: &B) -> Stop
    ensures { HasStepOutcome (model.call_outcome r.old (B.cells b.now r.old.pc)) result r.new
        (B.cells b.now) (B.cells b.now) }
{
    match b.read(r.pc) {
        Some(code) => {
            r.pc = r.pc.wrapping_add(1);
            Stop::Call(code)
        }
        None => Stop::Abort(E_PRCABT),
    }
}

/// Executes an instruction; PC is already past its own bytes.
#[inline(always)]
#[tactic(auto, unfolding(cpu_model::specs::Step::outcome_of, cpu_model::specs::Step::effect_of))]
fn execute<B: Bus>(r: &mut Regs, b: &mut B, i: Instr, row: Row) -> Stop
    ensures step { HasStepOutcome
        (model.outcome_of (B.cells b.old) r.old i row.1 row.0)
        result r.new (B.cells b.old) (B.cells b.new) }
    ensures beside { B.same_beside b.old b.new }
{
    let Row(operation, mode) = row;
    let by = Addressing { mode, i };
    match operation {
        Operation::Unary(unary) => return unary_at(r, b, by, unary),
        Operation::Binary(binary, on) => return binary_from(r, b, by, binary, on),
        Operation::Word(binary, on) => return word_from(r, b, by, binary, on),
        Operation::Store(from) => return store(r, b, by, from),
        Operation::StoreWord(from) => return store_word(r, b, by, from),
        Operation::Jmp => return jump(r, b, by),
        Operation::Jsr => return enter_at(r, b, by),
        Operation::Lea(to) => return lea_of(r, b, by, to),
        Operation::Bsr => {
            let target = target_of(r, mode, i.tail);
            return enter(r, b, target);
        }
        Operation::Psh(stack) => return push(r, b, stack, tail_byte(i.tail)),
        Operation::Pul(stack) => return pull(r, b, stack, tail_byte(i.tail)),
        Operation::Rts => return return_from_subroutine(r, b),
        Operation::Rti => return return_from_interrupt(r, b),
        Operation::UnaryOn(unary, on) => unary_on(r, unary, on),
        Operation::Branch(condition) => {
            let target = target_of(r, mode, i.tail);
            branch(r, condition, target);
        }
        Operation::Exg => exchange(r, tail_byte(i.tail)),
        Operation::Tfr => transfer(r, tail_byte(i.tail)),
        Operation::Orcc => r.cc |= tail_byte(i.tail),
        Operation::Andcc => r.cc &= tail_byte(i.tail),
        Operation::Abx => abx(r),
        Operation::Daa => daa(r),
        Operation::Mul => mul(r),
        Operation::Sex => sex(r),
        Operation::Nop => {}
        Operation::Swi2 => return system_call(r, b),
        Operation::Swi | Operation::Swi3 | Operation::Sync | Operation::Cwai => {
            return Stop::Abort(E_ISWI);
        }
    }
    Stop::Next
}

/// The instruction at an address whose bytes do not lie together.
#[cold]
#[inline(never)]
fn instruction_apart<B: Bus>(b: &B, at: u16) -> Result<Decoded, DecodeFault>
    ensures value { reading_of result ≡ reading (model.window (B.cells b.now) at 5) }
    ensures row { IfOk result HasItsRow }
{
    decode_with_row(fetch(b, at).as_slice())
}

/// The instruction at an address.
#[inline(always)]
fn instruction_at<B: Bus>(b: &B, at: u16) -> Result<Decoded, DecodeFault>
    ensures value { reading_of result ≡ reading (model.window (B.cells b.now) at 5) }
    ensures row { IfOk result HasItsRow }
{
    let bytes = b.slice_from(at);
    if bytes.len() < LONGEST {
        return instruction_apart(b, at);
    }
    decode_with_row(&bytes[..LONGEST])
}

/// Executes the instruction at PC. After an `Abort` the registers can be any.
#[inline(always)]
#[tactic(auto, unfolding(cpu_model::specs::Step::step_of))]
fn carry_out<B: Bus>(r: &mut Regs, b: &mut B) -> Stop
    ensures step { HasStepOutcome
        (model.step_of (B.cells b.old) r.old)
        result r.new (B.cells b.old) (B.cells b.new) }
    ensures beside { B.same_beside b.old b.new }
{
    match instruction_at(b, r.pc) {
        Ok(decoded) => {
            r.pc = r.pc.wrapping_add(decoded.length as u16);
            execute(r, b, decoded.instr, decoded.row)
        }
        Err(_) => Stop::Abort(E_PRCABT),
    }
}

/// Executes the instruction at PC (MC6809 programming manual), or reports why the program stops.
///
/// `Call` is returned at SWI2, with the code byte after it; PC is then past the code byte and
/// nothing else has changed. `Abort(227)` is returned at SYNC, CWAI, SWI and SWI3. `Abort(228)` is
/// returned if the bytes are not a documented instruction, or if an address that is read or written
/// is not named, including those of the instruction's own bytes. It takes precedence over a call
/// and over 227. After an `Abort` nothing has changed.
#[inline(always)]
pub fn step<B: Bus>(r: &mut Regs, b: &mut B) -> Stop
    ensures step { model.LeavesCells
        (model.step_of (B.cells b.old) r.old)
        result r.old r.new (B.cells b.old) (B.cells b.new) }
    ensures beside { B.same_beside b.old b.new }
{
    let before = *r;
    let stop = carry_out(r, b);
    if let Stop::Abort(_) = stop {
        *r = before;
    }
    stop
}

/// How a run of instructions ended.
#[derive(Clone, Copy, Debug, PartialEq, Eq)]
pub struct Ran {
    /// The number of instructions that were followed by the next one.
    pub followed: u32,
    /// `Next`, or how the instruction after those stopped.
    pub stop: Stop,
}

/// Executes up to `n` instructions, one after another from PC on. It ends early at the first one
/// that the next one does not follow, with what [`step`] returns there.
pub fn run<B: Bus>(r: &mut Regs, b: &mut B, n: u32) -> Ran
    ensures ran { Runs n result r.old (B.cells b.old) r.new (B.cells b.new) }
    ensures beside { B.same_beside b.old b.new }
{
    for followed in 0..n {
        let stop = step(r, b);
        if stop != Stop::Next {
            return Ran { followed, stop };
        }
    }
    Ran {
        followed: n,
        stop: Stop::Next,
    }
}
