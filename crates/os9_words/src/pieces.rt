ghost use Rattle.std.specs.List.{flat_map};
ghost use Rattle.os9_words.specs.Streams.{WritesErr, WritesOut};

use os9_outer::host::{Host, HostFault};

/// Writes a text to the error stream.
pub(crate) fn report_text<H: Host>(host: &mut H, text: &[u8]) -> Result<(), HostFault>
    ensures { WritesErr H.Host text.now result host.old host.new }
{
    host.err(text)
}

/// Writes the pieces of a text to the error stream, up to the first that cannot be written.
pub(crate) fn report_pieces<H: Host>(host: &mut H, pieces: &[&[u8]]) -> Result<(), HostFault>
    ensures { WritesErr H.Host (flat_map (λ piece. piece.now) pieces.now) result host.old host.new }
{
    for piece in pieces {
        host.err(piece)?;
    }
    Ok(())
}

/// Writes the pieces of a text to the output stream, up to the first that cannot be written.
pub(crate) fn put_pieces<H: Host>(host: &mut H, pieces: &[&[u8]]) -> Result<(), HostFault>
    ensures { WritesOut H.Host (flat_map (λ piece. piece.now) pieces.now) result host.old host.new }
{
    for piece in pieces {
        host.out(piece)?;
    }
    Ok(())
}
