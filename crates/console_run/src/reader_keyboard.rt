ghost use Rattle.std.specs.Prelude.{◌≡◌, None, false};

use crate::keyboard::Keyboard;
use os9_outer::host::Host;
use std::alloc::{AllocError, Global};
use std::io::{BufRead, ErrorKind};

/// The byte that ends a line.
const LINE_FEED: u8 = b'\n';

/// A keyboard over a reader, each line of which ends with a line feed, which the last may lack. Its
/// lines are not observed, and neither is when it is asked.
#[derive(Drop)]
pub struct ReaderKeyboard<R> {
    alloc: Global,
    reader: R,
    over: bool,
    failed: u64,
}

impl<R: BufRead + Drop> ReaderKeyboard<R> {
    /// The keyboard over this reader.
    pub fn new(alloc: Global, reader: R) -> ReaderKeyboard<R>
        ensures not_over { result.over ≡ false }
        ensures none_failed { result.failed ≡ 0 }
    {
        ReaderKeyboard {
            alloc,
            reader,
            over: false,
            failed: 0,
        }
    }
}

impl<H: Host, R: BufRead + Drop> Keyboard<H> for ReaderKeyboard<R> {
    ghost lines_left = { λ _. None };

    ghost is_over = { λ keyboard. keyboard.over };

    ghost asked = { λ _. None };

    ghost failed_asks = { λ keyboard. keyboard.failed };

    fn line(&mut self, host: &H) -> Result<Option<Vec<u8>>, AllocError> {
        let mut line = Vec::new(self.alloc);
        match self.reader.read_until(LINE_FEED, &mut line) {
            Ok(0) => {
                self.over = true;
                return Ok(None);
            }
            Ok(_) => {}
            Err(error) if error.kind() == ErrorKind::OutOfMemory => {
                self.failed = self.failed.saturating_add(1);
                return Err(AllocError);
            }
            Err(_) => {
                self.over = true;
                return Ok(None);
            }
        }
        if line.last() == Some(&LINE_FEED) {
            let _ = line.pop();
        }
        self.over = false;
        Ok(Some(line))
    }
}
