//! What a path's mode allows.

ghost use Rattle.std.specs.Prelude.{◌≡◌};
ghost use Rattle.file_rules.specs.Locking.{is_for_update as is_for_update_model};

use io_model::modes::{MODE_READ, MODE_WRITE};

/// May a path of this mode be read and written? Then its reads request records, and it may hold
/// one.
pub(crate) fn is_for_update(mode: u8) -> bool
    ensures { result ≡ is_for_update_model mode }
{
    mode & MODE_READ != 0 && mode & MODE_WRITE != 0
}
