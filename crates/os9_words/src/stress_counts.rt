ghost use Rattle.os9_words.specs.Lines.{stress_line};
ghost use Rattle.os9_words.specs.Streams.{WritesOut};

use crate::pieces::put_pieces;
use itoa::Buffer;
use os9_outer::host::{Host, HostFault};

/// What `stress` counts in its run and in the volume that the run leaves.
#[derive(Clone, Copy, Debug, PartialEq, Eq)]
pub struct StressCounts {
    /// Slices begun.
    pub slices: u32,
    /// Files other than directories.
    pub files: u32,
    /// The sum of their sizes.
    pub bytes: u64,
    /// Free clusters.
    pub free: u32,
    /// Lost clusters: whole, marked as used, and in no file.
    pub lost: u32,
}

/// Writes the counts to the output stream: `slices S files F bytes B free E lost L`, in decimal
/// digits, and a line feed (this project's own).
///
/// `Failed` is returned only with a counted fault. After an error a part of the line may already
/// be written.
pub fn put_stress_counts<H: Host>(host: &mut H, counts: &StressCounts) -> Result<(), HostFault>
    ensures { WritesOut H.Host (stress_line counts.now) result host.old host.new }
{
    let mut slices_text = Buffer::new();
    let mut files_text = Buffer::new();
    let mut bytes_text = Buffer::new();
    let mut free_text = Buffer::new();
    let mut lost_text = Buffer::new();
    put_pieces(
        host,
        &[
            b"slices ",
            slices_text.format(counts.slices).as_bytes(),
            b" files ",
            files_text.format(counts.files).as_bytes(),
            b" bytes ",
            bytes_text.format(counts.bytes).as_bytes(),
            b" free ",
            free_text.format(counts.free).as_bytes(),
            b" lost ",
            lost_text.format(counts.lost).as_bytes(),
            b"\n",
        ],
    )
}
