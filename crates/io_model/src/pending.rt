//! Pending calls on terminals and pipes.

ghost use Rattle.std.specs.Prelude.{◌≡◌, ◌+◌, ◌≤◌, true};
ghost use Rattle.io_model.specs.Pending.{count_left, moved_on, is_complete};

use crate::path::SysPath;

/// A pending call on a terminal or a pipe, as its further attempts find it.
#[derive(Clone, Copy, Debug, PartialEq, Eq)]
pub struct PendingCall {
    /// The code of the call.
    pub code: u8,
    /// The path of the call.
    pub path: SysPath,
    /// The number of bytes that its attempts have moved.
    pub moved: u16,
    /// The number of bytes that it asks for; for a line write, the number that its first attempt
    /// found.
    pub count: u16,
}

/// A write of 300 bytes into a pipe moves 256, and then 44.
pub fn pending_write(pending: PendingCall)
    requires moved { pending.moved ≡ 256 }
    requires count { pending.count ≡ 300 }
    ensures left { count_left pending ≡ 44 }
    ensures complete { is_complete (moved_on pending 44) ≡ true }
    ensures answer { (moved_on pending 44).moved ≡ 300 }
{}
