ghost use Rattle.std.specs.Prelude.{◌≡◌, ℕ, None};

use crate::drive::{BlockDriver, DriveFault};
use crate::slot::Slot;

/// A drive over memory that never fails: its count of faults is always 0.
#[derive(Debug, Drop)]
pub struct SureDrive {
    slot: Slot,
    calls: u64,
}

impl SureDrive {
    /// A drive without an image, with no calls counted.
    pub fn new() -> SureDrive
        ensures no_media { ⟦<SureDrive as BlockDriver>⟧.media result ≡ None }
        ensures no_calls { ⟦<SureDrive as BlockDriver>⟧.drive_calls result ≡ 0 }
        ensures no_faults { ⟦<SureDrive as BlockDriver>⟧.drive_faults result ≡ 0 }
    {
        SureDrive {
            slot: Slot::empty(),
            calls: 0,
        }
    }
}

impl BlockDriver for SureDrive {
    ghost media = { λ drive. drive.slot };

    ghost drive_faults = { λ _. 0 };

    ghost last_fault = { λ _. None };

    ghost drive_calls = { λ drive. drive.calls };

    fn insert(&mut self, image: Vec<u8>) -> Result<(), Vec<u8>> {
        self.slot.insert(image)
    }

    fn eject(&mut self) -> Option<Vec<u8>> {
        self.slot.eject()
    }

    fn sectors(&self) -> u32 {
        self.slot.sectors()
    }

    fn read(&mut self, lsn: u32, into: &mut [u8; 256]) -> Result<(), DriveFault> {
        self.calls = self.calls.saturating_add(1);
        self.slot.read(lsn, into);
        Ok(())
    }

    fn write(&mut self, lsn: u32, from: &[u8; 256]) -> Result<(), DriveFault> {
        self.calls = self.calls.saturating_add(1);
        self.slot.write(lsn, from);
        Ok(())
    }
}
