ghost use Rattle.std.specs.Prelude.{◌≡◌, ◌≤◌, ◌∷◌, ◌++◌, ℕ, OnErr, OnOk, Some, [], false, List, drop, length, map};
ghost use Rattle.console_run.specs.Shown.{counted};

use crate::keyboard::Keyboard;
use os9_outer::mem_host::MemHost;
use std::alloc::{AllocError, Global};

/// A keyboard over lines in memory, each of which it gives once, at a host in memory. They are
/// observed, and so is how much is shown each time that it is asked.
#[derive(Debug, Drop)]
pub struct SureKeyboard {
    lines: Vec<Vec<u8>>,
    given: usize,
    over: bool,
    asked: Vec<usize>,
    failed: u64,
}

impl SureKeyboard {
    /// A keyboard that gives these lines.
    pub fn new(alloc: Global, lines: Vec<Vec<u8>>) -> SureKeyboard
        ensures lines { ⟦<SureKeyboard as Keyboard<MemHost>>⟧.lines_left result
            ≡ Some (map (λ line. line.items) lines.items) }
        ensures not_over { ⟦<SureKeyboard as Keyboard<MemHost>>⟧.is_over result ≡ false }
        ensures not_asked { ⟦<SureKeyboard as Keyboard<MemHost>>⟧.asked result ≡ Some [] }
    {
        SureKeyboard {
            lines,
            given: 0,
            over: false,
            asked: Vec::new(alloc),
            failed: 0,
        }
    }

    /// Notes that it answers once this number of bytes is shown.
    ///
    /// # Errors
    ///
    /// Memory is out, which is counted.
    fn note(&mut self, shown: usize) -> Result<(), AllocError>
        ensures noted { OnOk result (self.new.asked.items ≡ self.old.asked.items ++ shown ∷ []) }
        ensures none_failed { OnOk result (self.new.failed ≡ self.old.failed) }
        ensures asked_kept { OnErr result (self.new.asked.items ≡ self.old.asked.items) }
        ensures failed { OnErr result (self.new.failed ≡ counted self.old.failed) }
        ensures lines_kept { self.new.lines ≡ self.old.lines }
        ensures given_kept { self.new.given ≡ self.old.given }
        ensures over_kept { self.new.over ≡ self.old.over }
    {
        if let Err(error) = self.asked.push(shown) {
            self.failed = self.failed.saturating_add(1);
            return Err(error.into());
        }
        Ok(())
    }

    /// How many bytes the host was given before each answer.
    pub fn shown(&self) -> &[usize]
        ensures { ⟦<SureKeyboard as Keyboard<MemHost>>⟧.asked self.now ≡ Some result.now }
    {
        self.asked.as_slice()
    }
}

impl Keyboard<MemHost> for SureKeyboard {
    ghost lines_left = { λ it. Some (drop it.given (map (λ line. line.items) it.lines.items)) };

    ghost is_over = { λ it. it.over };

    ghost asked = { λ it. Some it.asked.items };

    ghost failed_asks = { λ it. it.failed };

    fn line(&mut self, host: &MemHost) -> Result<Option<Vec<u8>>, AllocError> {
        if self.given >= self.lines.len() {
            self.note(host.out_bytes.len())?;
            self.over = true;
            return Ok(None);
        }
        let line = &self.lines[self.given];
        let Ok(line) = Vec::from_slice(*self.lines.allocator(), line.as_slice()) else {
            self.failed = self.failed.saturating_add(1);
            return Err(AllocError);
        };
        self.note(host.out_bytes.len())?;
        self.given += 1;
        self.over = false;
        Ok(Some(line))
    }
}
