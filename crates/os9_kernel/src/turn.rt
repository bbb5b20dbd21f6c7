//! Turns of the chosen process, one after another, make a slice.

ghost use Rattle.std.specs.Prelude.{◌≡◌, ◌<◌, ◌+◌, ◌^◌, vec_len};
ghost use Rattle.os9_kernel.specs.Next.{HasTurn};
ghost use Rattle.os9_kernel.specs.Outside.{OnDevices, outside};
ghost use Rattle.os9_kernel.specs.Slice.{KernelEvents};
ghost use Rattle.os9_kernel.specs.Tie.{IsGoing, RepresentsSomeState, executed};

use crate::act::Act;
use crate::kernel::Kernel;
use device_table::devices::Devices;
use machine_model::ends::{EventEnd, SliceEnd};
use os9_base::registers::Pid;
use os9_outer::drive::BlockDriver;
use os9_outer::terminal::CharDriver;

/// What the chosen process did: the number of instructions that it executed, and how its last event
/// ended.
#[derive(Clone, Copy, Debug)]
pub struct Turn {
    pub count: u32,
    pub end: EventEnd,
}

impl Kernel {
    /// The events of the chosen process until the slice is over.
    pub(crate) fn events(&mut self, n: u32, devices: &mut Devices) -> SliceEnd
        requires going { IsGoing self.old }
        requires stands { RepresentsSomeState self.old
            (outside BlockDriver-box CharDriver-box devices.old) }
        ensures events { OnDevices
            (λ before after. KernelEvents n self.old self.new before after result)
            BlockDriver-box CharDriver-box devices.old devices.new }
        ensures terminals { vec_len devices.new.terms ≡ vec_len devices.old.terms }
        ensures drives { vec_len devices.new.drives ≡ vec_len devices.old.drives }
    {
        let mut left = n;
        while left > 0 {
            let turn = self.turn(left, devices);
            match turn.end {
                EventEnd::Ran => left -= turn.count,
                EventEnd::Waits | EventEnd::Ended => return SliceEnd::Ran,
                EventEnd::NoMemory => return SliceEnd::NoMemory,
            }
        }
        SliceEnd::Ran
    }

    /// The next event of the chosen process, which has to live. If it is an instruction, those that
    /// follow it without another event are executed too, `left` at most. After `NoMemory` the
    /// kernel is not used any more.
    pub fn turn(&mut self, left: u32, devices: &mut Devices) -> Turn
        requires going { IsGoing self.old }
        requires stands { RepresentsSomeState self.old
            (outside BlockDriver-box CharDriver-box devices.old) }
        requires some { 0 < left }
        ensures turn { OnDevices (λ old new. HasTurn left self.old self.new old new result)
            BlockDriver-box CharDriver-box devices.old devices.new }
        ensures executed { executed self.old + result.count < 2 ^ 32
            → executed self.new ≡ executed self.old + result.count }
        ensures terminals { vec_len devices.new.terms ≡ vec_len devices.old.terms }
        ensures drives { vec_len devices.new.drives ≡ vec_len devices.old.drives }
    {
        let p = self.chosen.unwrap();
        let end = match self.act(p) {
            Act::Attempt(code) => self.attempt(p, code, devices),
            Act::Delivery(signal) => self.deliver(p, signal),
            Act::Instruction => return self.instructions(p, left),
        };
        Turn { count: 0, end }
    }
}
