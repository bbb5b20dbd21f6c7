//! Carriage returns.

ghost use Rattle.std.specs.Prelude.{◌≡◌};
ghost use Rattle.io_model.specs.Line as model;

use io_model::keys::RETURN;

/// Is there a carriage return among the bytes?
pub(crate) fn has_return(bytes: &[u8]) -> bool
    ensures { result ≡ model.has_return bytes.now }
{
    return_place(bytes).is_some()
}

/// The place of the first carriage return.
fn return_place(bytes: &[u8]) -> Option<usize>
    ensures { result ≡ model.return_place bytes.now }
{
    bytes.iter().position(|byte| *byte == RETURN)
}
