ghost use Rattle.std.specs.Prelude.{◌≡◌, not, bytes_eq};

use crate::change::{Change, LineError};
use anyhow::Result;
use rbf_check::check;
use std::alloc::{AllocError, Global};
use std::fs;

/// The number of images that were checked, and the number of answers that differ.
#[derive(Clone, Copy, Debug)]
pub(crate) struct Checks {
    pub(crate) images: u64,
    pub(crate) differ: u64,
}

/// Checks the image of a row, which has its words (`image_of`) and an answer, with a tab between
/// them, and prints the row with the answer if that differs.
pub(crate) fn compare(rt: &HostRuntime, row: &str, checks: &mut Checks) -> Result<()> {
    let (words, expected) = row.split_once('\t').ok_or(LineError::BadChange)?;
    let image = image_of(rt, words)?;
    let found = answer(rt.alloc(), &image)?;
    checks.images = checks.images.saturating_add(1);
    if differs(&found, expected) {
        checks.differ = checks.differ.saturating_add(1);
        println!(rt; "differs: {row}: {found}")?;
    }
    Ok(())
}

/// The image of the words of a row: the file of a name, or E, which is `e.img`, or E with a change,
/// as `E 26:255`.
fn image_of(rt: &HostRuntime, words: &str) -> Result<Vec<u8>> {
    if words == "E" {
        return Ok(fs::read(rt, "e.img")?);
    }
    let Some(change) = words.strip_prefix("E ") else {
        return Ok(fs::read(rt, words)?);
    };
    let mut image = fs::read(rt, "e.img")?;
    Change::parse(change)
        .ok_or(LineError::BadChange)?
        .make(&mut image)?;
    Ok(image)
}

/// The answer of the check of an image, as a line.
fn answer(alloc: Global, image: &[u8]) -> Result<String, AllocError> {
    match check(alloc, image) {
        Ok(tree) => {
            let (files, directories) = (tree.files(), tree.directories());
            format!(in alloc;
                "files {files} dirs {directories} free {} lost {}",
                tree.free, tree.lost
            )
        }
        Err(error) => format!(in alloc; "{error}"),
    }
}

/// Whether the answer differs from the known one.
fn differs(found: &str, expected: &str) -> bool
    ensures { result ≡ not (bytes_eq found.now expected.now) }
{
    found != expected
}
