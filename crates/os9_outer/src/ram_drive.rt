ghost use Rattle.std.specs.Prelude.{◌≡◌, ℕ, ◌+◌, ◌-◌, ◌^◌, ◌≤◌, ◌==◌, min, Some, None, find, IfErr, OnOk, OnErr};
ghost use Rattle.std.specs.Result.{result_err};
ghost use Rattle.os9_outer.specs.Plans.{listed_fault, lasting_fault, fault_in, planned_fault};

use crate::drive::{BlockDriver, DriveFault};
use crate::slot::Slot;

/// A call of a [`RamDrive`] that is to fail: its number, from 1, among the reads and writes, and
/// the fault that it returns.
#[derive(Clone, Copy, Debug, PartialEq, Eq)]
pub struct PlannedFault {
    pub call: u64,
    pub fault: DriveFault,
}

// Which calls of a drive fail.
#[derive(Debug, Drop)]
enum Plan {
    // These calls.
    Calls(Vec<PlannedFault>),
    // This call, and every later one.
    Stop(PlannedFault),
}

impl Plan {
    // The fault of the call of this number.
    fn fault_at(&self, call: u64) -> Option<DriveFault>
        ensures { result ≡ fault_in self.now call }
    {
        match self {
            Plan::Calls(faults) => fault_of(faults, call),
            Plan::Stop(first) if first.call <= call => Some(first.fault),
            Plan::Stop(_) => None,
        }
    }
}

// The first plan for the call of this number.
fn planned_call(faults: &[PlannedFault], call: u64) -> Option<PlannedFault>
    ensures { result ≡ find (λ planned. planned.call == call) faults.now }
{
    faults.iter().copied().find(|planned| planned.call == call)
}

// The fault that is planned for the call of this number.
fn fault_of(faults: &[PlannedFault], call: u64) -> Option<DriveFault>
    ensures { result ≡ listed_fault faults.now call }
{
    let planned = planned_call(faults, call)?;
    Some(planned.fault)
}

/// A drive over memory for tests, whose calls fail as planned.
#[derive(Debug, Drop)]
pub struct RamDrive {
    slot: Slot,
    calls: u64,
    faults: u64,
    last: Option<DriveFault>,
    plan: Plan,
}

impl RamDrive {
    /// A drive without an image, with these failing reads and writes.
    pub fn new(plan: Vec<PlannedFault>) -> RamDrive
        ensures no_media { ⟦<RamDrive as BlockDriver>⟧.media result ≡ None }
        ensures no_calls { ⟦<RamDrive as BlockDriver>⟧.drive_calls result ≡ 0 }
        ensures no_faults { ⟦<RamDrive as BlockDriver>⟧.drive_faults result ≡ 0 }
        ensures planned { planned_fault result ≡ listed_fault plan.items }
    {
        RamDrive::with_plan(Plan::Calls(plan))
    }

    /// A drive without an image, whose read or write of this number fails, as does every later one.
    pub fn stopping(call: u64, fault: DriveFault) -> RamDrive
        ensures no_media { ⟦<RamDrive as BlockDriver>⟧.media result ≡ None }
        ensures no_calls { ⟦<RamDrive as BlockDriver>⟧.drive_calls result ≡ 0 }
        ensures no_faults { ⟦<RamDrive as BlockDriver>⟧.drive_faults result ≡ 0 }
        ensures planned { planned_fault result ≡ lasting_fault call fault }
    {
        RamDrive::with_plan(Plan::Stop(PlannedFault { call, fault }))
    }

    fn with_plan(plan: Plan) -> RamDrive
        ensures no_media { result.slot ≡ None }
        ensures no_calls { result.calls ≡ 0 }
        ensures no_faults { result.faults ≡ 0 }
        ensures plan { result.plan ≡ plan }
    {
        RamDrive {
            slot: Slot::empty(),
            calls: 0,
            faults: 0,
            last: None,
            plan,
        }
    }

    /// The number of reads and writes so far.
    pub fn calls(&self) -> u64
        ensures { result ≡ ⟦<RamDrive as BlockDriver>⟧.drive_calls self.now }
    {
        self.calls
    }

    // Counts a call, and its fault if it is to fail.
    fn begin_call(&mut self) -> Result<(), DriveFault>
        ensures planned { result_err result ≡ planned_fault self.old self.new.calls }
        ensures plan_kept { self.new.plan ≡ self.old.plan }
        ensures slot_kept { self.new.slot ≡ self.old.slot }
        ensures call_counted { self.new.calls ≡ min (self.old.calls + 1) (2 ^ 64 - 1) }
        ensures fault_counted { OnErr result
            (self.new.faults ≡ min (self.old.faults + 1) (2 ^ 64 - 1)) }
        ensures fault_is_last { IfErr result (λ fault. self.new.last ≡ Some fault) }
        ensures faults_kept { OnOk result (self.new.faults ≡ self.old.faults) }
        ensures last_kept { OnOk result (self.new.last ≡ self.old.last) }
        ensures never_falls { self.old.faults ≤ self.new.faults }
    {
        self.calls = self.calls.saturating_add(1);
        match self.plan.fault_at(self.calls) {
            None => Ok(()),
            Some(fault) => {
                self.faults = self.faults.saturating_add(1);
                self.last = Some(fault);
                Err(fault)
            }
        }
    }
}

impl BlockDriver for RamDrive {
    ghost media = { λ drive. drive.slot };

    ghost drive_faults = { λ drive. drive.faults };

    ghost last_fault = { λ drive. drive.last };

    ghost drive_calls = { λ drive. drive.calls };

    fn insert(&mut self, image: Vec<u8>) -> Result<(), Vec<u8>> {
        self.slot.insert(image)
    }

    fn eject(&mut self) -> Option<Vec<u8>> {
        self.slot.eject()
    }

    fn sectors(&self) -> u32 {
        self.slot.sectors()
    }

    fn read(&mut self, lsn: u32, into: &mut [u8; 256]) -> Result<(), DriveFault> {
        match self.begin_call() {
            Err(fault) => Err(fault),
            Ok(()) => {
                self.slot.read(lsn, into);
                Ok(())
            }
        }
    }

    fn write(&mut self, lsn: u32, from: &[u8; 256]) -> Result<(), DriveFault> {
        match self.begin_call() {
            Err(fault) => Err(fault),
            Ok(()) => {
                self.slot.write(lsn, from);
                Ok(())
            }
        }
    }
}
