ghost use Rattle.std.specs.Prelude.{◌≡◌, ◌⊎◌, ◌<◌, ◌≤◌, ◌-◌, ◌^◌, ℕ, IsSome, List, None, [], length, true, false, vec_len};
ghost use Rattle.os9_kernel.specs.Outside.{OnDevices, Outside, outside};
ghost use Rattle.os9_kernel.specs.Tie.{IsGoing, Represents, RepresentsSomeState, executed, ticks};
ghost use Rattle.machine_model.specs.Start.{Boot};
ghost use Rattle.machine_model.specs.State.{State};
ghost use Rattle.os9_debug.specs.Course.{Course, state_at};
ghost use Rattle.os9_debug.specs.Prints.{IsCourse};
ghost use Rattle.os9_debug.specs.Show.{shown, shown_cells, shown_regs};
ghost use Rattle.os9_debug.specs.PositionMoves.{HasBegun, HasEventsUpTo, BeginsNextSlices, HasReachedEvent};
ghost use Rattle.os9_debug.specs.Position.{CanGoOn, IsAt};

use crate::console::empty_terminals;
use device_table::devices::Devices;
use machine_model::ends::EventEnd;
use os9_base::call::OutOfMemory;
use os9_base::limits::{LAST_TICK, PROCESS_PLACES};
use os9_base::registers::{Pid, Regs};
use os9_kernel::Kernel;
use os9_outer::drive::BlockDriver;
use os9_outer::terminal::CharDriver;

/// The process with which a machine starts.
const FIRST: Pid = Pid(2);

/// A kernel in its run, after a number of events.
#[derive(Drop)]
pub struct Position {
    kernel: Kernel,
    /// The instructions of the current slice, 0 between two slices.
    slice: u32,
    /// The events from the start on.
    events: u64,
    /// The process of the last event; before any event, the process with which the machine starts.
    process: Pid,
}

/// The next step of a run.
#[derive(Clone, Copy, Debug, PartialEq, Eq)]
pub enum Step {
    /// An event.
    Event,
    /// Its end: no process lives, or none is Ready in the remaining slices.
    End,
}

// Has a slice of `n` instructions events, if this process was chosen?
fn has_events(chosen: Option<Pid>, n: u32) -> bool
    ensures yes { result ≡ true → IsSome chosen × (0 < n) }
    ensures no { result ≡ false → (chosen ≡ None) ⊎ (n ≡ 0) }
{
    match chosen {
        None => false,
        Some(_) => n > 0,
    }
}

// The number of events of a turn of `count` instructions: each instruction is one, and a turn
// without instructions is another event.
fn events_of(count: u32) -> u64
    ensures instructions { 0 < count → result ≡ count }
    ensures other { count ≡ 0 → result ≡ 1 }
{
    u64::from(count.max(1))
}

impl Position {
    /// The start of a run of a kernel that has not begun a slice.
    pub fn start(kernel: Kernel) -> Self
        requires { ticks kernel ≡ 0 }
        ensures goes_on { (slices : List ℕ) (devices : Outside) → RepresentsSomeState kernel devices
            → length slices < LAST_TICK → CanGoOn slices result devices }
        ensures at { (boot : Boot) (slices : List ℕ) (course : Course) (devices : Outside)
            → boot.images ≡ [] → (is : IsCourse boot slices course)
            → Represents kernel devices course.start → IsAt course is.last slices result devices }
        ensures first { result.events ≡ 0 }
    {
        Position {
            kernel,
            slice: 0,
            events: 0,
            process: FIRST,
        }
    }

    /// The number of events so far.
    pub fn events(&self) -> u64
        ensures { result ≡ self.now.events }
    {
        self.events
    }

    /// The process that is shown: that of the last event; before any event, the first process.
    pub fn process(&self) -> Pid
        ensures shown { (course : Course) (last : State) (slices : List ℕ) (devices : Outside)
            → IsAt course last slices self.now devices
            → result.0 ≡ shown (state_at course self.now.events) }
        ensures is { result ≡ self.now.process }
    {
        self.process
    }

    /// The registers of the shown process, if it lives.
    pub fn regs(&self) -> Option<Regs>
        ensures { (course : Course) (last : State) (slices : List ℕ) (devices : Outside)
            → IsAt course last slices self.now devices
            → result ≡ shown_regs (state_at course self.now.events) }
    {
        self.kernel.regs(self.process)
    }

    /// The byte of the shown process at an address, if there is one.
    pub fn byte(&self, at: u16) -> Option<u8>
        requires { self.now.process.0 < PROCESS_PLACES }
        ensures { (course : Course) (last : State) (slices : List ℕ) (devices : Outside)
            → IsAt course last slices self.now devices
            → result ≡ shown_cells (state_at course self.now.events) at }
    {
        self.kernel.byte(self.process, at)
    }

    /// Goes on over these slices to the position after `k` events, which is not before this one, or
    /// to the last position. The bytes that the terminals are given in a slice are taken from them
    /// after it.
    ///
    /// # Errors
    ///
    /// Out of memory. The position is not used after that.
    pub fn advance_to(
        &mut self,
        k: u64,
        slices: &[u32],
        devices: &mut Devices,
    ) -> Result<Step, OutOfMemory>
        requires goes_on { CanGoOn slices.now self.old
            (outside BlockDriver-box CharDriver-box devices.old) }
        requires later { self.old.events ≤ k }
        ensures gone { OnDevices (HasReachedEvent k slices.now self.old self.new result)
            BlockDriver-box CharDriver-box devices.old devices.new }
        ensures terminals { vec_len devices.new.terms ≡ vec_len devices.old.terms }
        ensures drives { vec_len devices.new.drives ≡ vec_len devices.old.drives }
    {
        'turns: while self.events < k {
            match self.find_event(slices, devices) {
                Ok(Step::Event) => {}
                Ok(Step::End) => return Ok(Step::End),
                Err(OutOfMemory) => return Err(OutOfMemory),
            }
            match self.turn(k, devices) {
                Ok(()) => {}
                Err(OutOfMemory) => return Err(OutOfMemory),
            }
        }
        Ok(Step::Event)
    }

    // The next step. Begins slices for an event if none is under way.
    fn find_event(&mut self, slices: &[u32], devices: &mut Devices) -> Result<Step, OutOfMemory>
        requires { CanGoOn slices.now self.old
            (outside BlockDriver-box CharDriver-box devices.old) }
        ensures found { OnDevices (BeginsNextSlices slices.now self.old self.new result)
            BlockDriver-box CharDriver-box devices.old devices.new }
        ensures terminals { vec_len devices.new.terms ≡ vec_len devices.old.terms }
        ensures drives { vec_len devices.new.drives ≡ vec_len devices.old.drives }
    {
        if self.slice == 0 {
            self.find_slice(slices, devices)
        } else {
            Ok(Step::Event)
        }
    }

    // Begins the next slices, up to one that has an event, if there is one.
    fn find_slice(&mut self, slices: &[u32], devices: &mut Devices) -> Result<Step, OutOfMemory>
        requires goes_on { CanGoOn slices.now self.old
            (outside BlockDriver-box CharDriver-box devices.old) }
        requires between { self.old.slice ≡ 0 }
        ensures found { OnDevices (BeginsNextSlices slices.now self.old self.new result)
            BlockDriver-box CharDriver-box devices.old devices.new }
        ensures terminals { vec_len devices.new.terms ≡ vec_len devices.old.terms }
        ensures drives { vec_len devices.new.drives ≡ vec_len devices.old.drives }
    {
        for index in self.kernel.ticks() as usize..slices.len() {
            if self.kernel.living() == 0 {
                return Ok(Step::End);
            }
            match self.begin_slice(slices[index], devices) {
                Ok(Step::Event) => return Ok(Step::Event),
                Ok(Step::End) => {}
                Err(OutOfMemory) => return Err(OutOfMemory),
            }
        }
        Ok(Step::End)
    }

    // Begins a slice of `n` instructions: it has an event, or it ends at once, since no process is
    // Ready or `n` is 0.
    fn begin_slice(&mut self, n: u32, devices: &mut Devices) -> Result<Step, OutOfMemory>
        requires count { ticks self.old.kernel < LAST_TICK }
        requires stands { RepresentsSomeState self.old.kernel
            (outside BlockDriver-box CharDriver-box devices.old) }
        requires between { self.old.slice ≡ 0 }
        ensures begun { OnDevices (HasBegun n self.old self.new result)
            BlockDriver-box CharDriver-box devices.old devices.new }
        ensures terminals { vec_len devices.new.terms ≡ vec_len devices.old.terms }
        ensures drives { vec_len devices.new.drives ≡ vec_len devices.old.drives }
    {
        match self.kernel.tick(devices) {
            Ok(()) => {}
            Err(OutOfMemory) => return Err(OutOfMemory),
        }
        let chosen = self.kernel.choose();
        if has_events(chosen, n) {
            self.slice = n;
            return Ok(Step::Event);
        }
        empty_terminals(devices);
        Ok(Step::End)
    }

    // A turn in the current slice: its next event or events, up to the one of number `k`.
    fn turn(&mut self, k: u64, devices: &mut Devices) -> Result<(), OutOfMemory>
        requires stands { RepresentsSomeState self.old.kernel
            (outside BlockDriver-box CharDriver-box devices.old) }
        requires going { IsGoing self.old.kernel }
        requires left { executed self.old.kernel < self.old.slice }
        requires before { self.old.events < k }
        ensures turn { OnDevices (HasEventsUpTo k self.old self.new result)
            BlockDriver-box CharDriver-box devices.old devices.new }
        ensures terminals { vec_len devices.new.terms ≡ vec_len devices.old.terms }
        ensures drives { vec_len devices.new.drives ≡ vec_len devices.old.drives }
    {
        let process = self.kernel.chosen().unwrap();
        let most = self.most(k);
        let turn = self.kernel.turn(most, devices);
        if let EventEnd::NoMemory = turn.end {
            return Err(OutOfMemory);
        }
        self.process = process;
        self.events += events_of(turn.count);
        if self.goes_on(turn.end) {
            return Ok(());
        }
        self.slice = 0;
        empty_terminals(devices);
        Ok(())
    }

    // The most instructions of the next turn: those left of the slice, but not beyond event `k`.
    fn most(&self, k: u64) -> u32
        requires left { executed self.now.kernel < self.now.slice }
        requires before { self.now.events < k }
        ensures some { 0 < result }
        ensures slice { result ≤ self.now.slice - executed self.now.kernel }
        ensures events { result ≤ k - self.now.events }
    {
        let left = self.slice - self.kernel.executed();
        let events = k - self.events;
        if events < u64::from(left) {
            events as u32
        } else {
            left
        }
    }

    // Does the slice go on after a turn with this end?
    fn goes_on(&self, end: EventEnd) -> bool
        ensures ran { result ≡ true → end ≡ EventEnd.Ran }
        ensures left { result ≡ true → executed self.now.kernel < self.now.slice }
        ensures over { result ≡ false → end ≡ EventEnd.Ran
            → self.now.slice ≤ executed self.now.kernel }
    {
        match end {
            EventEnd::Ran => self.kernel.executed() < self.slice,
            EventEnd::Waits | EventEnd::Ended | EventEnd::NoMemory => false,
        }
    }
}
