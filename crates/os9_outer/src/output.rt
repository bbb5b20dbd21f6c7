//! The output stream of the running program.

use std::io::{self, ErrorKind, Print};
use std::thread;
use std::time::{Clock, Duration};

/// The milliseconds to wait before a full output is tried again.
const PAUSE: u64 = 1;

// Writes all of these bytes. If a non-blocking stream is full, it waits for the stream.
pub(crate) fn put_all<R: Print + Clock>(rt: &R, bytes: &[u8]) -> io::Result<()> {
    let mut rest = bytes;
    for _ in 0..u64::MAX {
        if rest.is_empty() {
            return Ok(());
        }
        match rt.write_some(rest) {
            Ok(0) => return Err(io::Error::from(ErrorKind::WriteZero)),
            Ok(count) => rest = &rest[count..],
            Err(error) if error.kind() == ErrorKind::WouldBlock => {
                thread::sleep(rt, Duration::from_millis(PAUSE));
            }
            Err(error) if error.kind() == ErrorKind::Interrupted => {}
            Err(error) => return Err(error),
        }
    }
    Err(io::Error::from(ErrorKind::TimedOut))
}
