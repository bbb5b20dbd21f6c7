ghost use Rattle.std.specs.Prelude.{◌≡◌, ◌<◌, ◌+◌, ◌^◌, IfSome, option_map, vec_len};
ghost use Rattle.machine_model.specs.Living.{living_count};
ghost use Rattle.file_rules.specs.Locking.{files_may_go};
ghost use Rattle.machine_model.specs.Event.{cost};
ghost use Rattle.machine_model.specs.State.{State};
ghost use Rattle.machine_model.specs.Run.{Choose};
ghost use Rattle.os9_kernel.specs.Calls.{KernelEvent, KernelSlice, KernelTick};
ghost use Rattle.os9_kernel.specs.Outside.{OnDevices, Outside, outside};
ghost use Rattle.os9_kernel.specs.Tie.{Represents, RepresentsSomeState, IsGoing, executed, ticks};
ghost use Rattle.proc_state.specs.Active.{AreActiveAt};

use crate::act::Act;
use crate::marks::{Known, Marks};
use device_io::keys::arrive_keys;
use device_table::devices::Devices;
use file_state::machine::Machine;
use machine_model::ends::{EventEnd, SliceEnd};
use os9_base::call::OutOfMemory;
use os9_base::limits::LAST_TICK;
use os9_base::registers::Pid;
use os9_outer::drive::BlockDriver;
use os9_outer::terminal::CharDriver;
use proc_state::choice::dispatch;
use time_rules::clock::Clock;

/// The kernel and the processes that it runs.
#[derive(Drop)]
pub struct Kernel {
    /// Its processes and files: paths, terminals and pipes with the calls pending on them, volumes
    /// and directories.
    pub(crate) machine: Machine,
    pub(crate) clock: Clock,
    /// The process that was chosen last, if one was Ready.
    pub(crate) chosen: Option<Pid>,
    /// The instructions that it has executed since it was chosen.
    pub(crate) executed: u32,
    /// The tick before which exactly the Ready processes are active, unless something else than
    /// the tick changes; 0 to look at each of them again.
    pub(crate) looked_until: u32,
    /// Whose waiting calls on paths may go on, as far as it is known.
    pub(crate) known: Known,
}

impl Kernel {
    /// The number of living processes.
    pub fn living(&self) -> u8
        ensures { (devices : Outside) (s : State) → Represents self.now devices s
            → result ≡ living_count s.processes }
    {
        self.machine.processes.living()
    }

    /// The number of slices begun.
    pub fn ticks(&self) -> u32
        ensures machine { (devices : Outside) (s : State) → Represents self.now devices s
            → result ≡ s.processes.tick }
        ensures count { result ≡ ticks self.now }
    {
        self.machine.processes.tick
    }

    /// Begins a slice: the tick, which is below 4,294,000,000, rises by 1, and the keys that are
    /// due arrive.
    ///
    /// # Errors
    ///
    /// `OutOfMemory` if a bell found no memory. The kernel is not used after that, and the drives
    /// hold the volumes of the state before.
    pub fn tick(&mut self, devices: &mut Devices) -> Result<(), OutOfMemory>
        requires count { ticks self.old < LAST_TICK }
        requires stands { RepresentsSomeState self.old
            (outside BlockDriver-box CharDriver-box devices.old) }
        ensures tick { OnDevices (λ before after. KernelTick self.old self.new before after result)
            BlockDriver-box CharDriver-box devices.old devices.new }
        ensures terminals { vec_len devices.new.terms ≡ vec_len devices.old.terms }
        ensures drives { vec_len devices.new.drives ≡ vec_len devices.old.drives }
    {
        self.machine.processes.tick += 1;
        match arrive_keys(
            &mut self.machine.processes,
            &mut self.machine.files.io,
            devices,
        ) {
            Ok(true) => {
                self.looked_until = 0;
                self.known.marks = Marks::Everyone;
                Ok(())
            }
            Ok(false) => Ok(()),
            Err(OutOfMemory) => Err(OutOfMemory),
        }
    }

    /// Chooses a Ready process; None if and only if no process is Ready. No wake is lost: exactly
    /// the Ready processes are active. They are looked at again only if that may have changed.
    pub fn choose(&mut self) -> Option<Pid>
        ensures step { (devices : Outside) (s : State) → Represents self.old devices s
            → (t : State) × Choose s t × Represents self.new devices t
            × (option_map (λ p. p.0) result ≡ t.chosen) }
        ensures active { (devices : Outside) (s : State) → Represents self.old devices s
            → AreActiveAt
            (files_may_go s.files s.processes.tick) s.processes.tick self.new.machine.processes }
        ensures going { IfSome result (λ p. IsGoing self.new) }
        ensures count { ticks self.new ≡ ticks self.old }
        ensures executed { executed self.new ≡ 0 }
    {
        self.look();
        self.chosen = dispatch(&mut self.machine.processes);
        self.executed = 0;
        self.chosen
    }

    /// One event of the chosen process, which has to live: the first attempt of its call, the
    /// delivery of a pending signal, a further attempt, or an instruction. The process goes on if
    /// the result is `Ran`. Each drive is called at most as often as that attempt may call it, and
    /// never in another event; an image changes only if the attempt asks for that. After `NoMemory`
    /// the kernel is not used any more. The drives hold the volumes of the state before, or those
    /// after the attempt if memory was out for its entry in the history.
    pub fn event(&mut self, devices: &mut Devices) -> EventEnd
        requires going { IsGoing self.old }
        requires stands { RepresentsSomeState self.old
            (outside BlockDriver-box CharDriver-box devices.old) }
        ensures event { OnDevices
            (λ before after. KernelEvent self.old self.new before after result)
            BlockDriver-box CharDriver-box devices.old devices.new }
        ensures executed { (before : Outside) (s : State) → Represents self.old before s
            → executed self.old + cost s < 2 ^ 32
            → executed self.new ≡ executed self.old + cost s }
        ensures terminals { vec_len devices.new.terms ≡ vec_len devices.old.terms }
        ensures drives { vec_len devices.new.drives ≡ vec_len devices.old.drives }
    {
        let p = self.chosen.unwrap();
        match self.act(p) {
            Act::Attempt(code) => self.attempt(p, code, devices),
            Act::Delivery(signal) => self.deliver(p, signal),
            Act::Instruction => self.instructions(p, 1).end,
        }
    }

    /// A slice: the tick rises and the keys that are due arrive, a Ready process is chosen, and it
    /// has its events until it has executed `n` instructions, waits or has ended. The result is
    /// `Idle` if and only if no process is Ready. After `NoMemory` the kernel is not used any more,
    /// and the drives hold what the tick or the event that found no memory left.
    pub fn slice(&mut self, n: u32, devices: &mut Devices) -> SliceEnd
        requires tick { ticks self.old < LAST_TICK }
        requires stands { RepresentsSomeState self.old
            (outside BlockDriver-box CharDriver-box devices.old) }
        ensures slice { OnDevices
            (λ before after. KernelSlice n self.old self.new before after result)
            BlockDriver-box CharDriver-box devices.old devices.new }
        ensures terminals { vec_len devices.new.terms ≡ vec_len devices.old.terms }
        ensures drives { vec_len devices.new.drives ≡ vec_len devices.old.drives }
    {
        match self.tick(devices) {
            Ok(()) => {}
            Err(OutOfMemory) => return SliceEnd::NoMemory,
        }
        let chosen = self.choose();
        match chosen {
            None => SliceEnd::Idle,
            Some(_) => self.events(n, devices),
        }
    }
}
