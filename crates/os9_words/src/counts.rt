ghost use Rattle.os9_words.specs.Lines.{counts_line};
ghost use Rattle.os9_words.specs.Streams.{WritesOut};

use crate::pieces::put_pieces;
use itoa::Buffer;
use os9_outer::host::{Host, HostFault};

/// What `check` counts in an image.
#[derive(Clone, Copy, Debug, PartialEq, Eq)]
pub struct Counts {
    /// Files other than directories.
    pub files: u32,
    /// Directories, including the root.
    pub directories: u32,
    /// Free clusters.
    pub free: u32,
    /// Lost clusters: whole, marked as used, and in no file.
    pub lost: u32,
}

/// Writes the counts to the output stream: `files F dirs D free E lost X`, in decimal digits, and
/// a line feed (this project's own).
///
/// `Failed` is returned only with a counted fault. After an error a part of the line may already
/// be written.
pub fn put_counts<H: Host>(host: &mut H, counts: &Counts) -> Result<(), HostFault>
    ensures { WritesOut H.Host
        (counts_line counts.now.files counts.now.directories counts.now.free counts.now.lost)
        result host.old host.new }
{
    let mut files_text = Buffer::new();
    let mut directories_text = Buffer::new();
    let mut free_text = Buffer::new();
    let mut lost_text = Buffer::new();
    put_pieces(
        host,
        &[
            b"files ",
            files_text.format(counts.files).as_bytes(),
            b" dirs ",
            directories_text.format(counts.directories).as_bytes(),
            b" free ",
            free_text.format(counts.free).as_bytes(),
            b" lost ",
            lost_text.format(counts.lost).as_bytes(),
            b"\n",
        ],
    )
}
