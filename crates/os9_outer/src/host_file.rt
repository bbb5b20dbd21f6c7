ghost use Rattle.std.specs.Prelude.{◌≡◌, ◌≢◌, ℕ, Some, IfOk, OnOk, OnErr, IsOkUnless, option_copied, List, position};
ghost use Rattle.os9_outer.specs.HostFile as model;
ghost use Rattle.os9_outer.specs.HostFile.{file_named};

use crate::host::HostFault;
use std::alloc::{AllocError, Global};

/// A file of a host in memory.
#[derive(Debug, Drop)]
pub struct HostFile {
    pub name: String,
    pub bytes: Vec<u8>,
}

// The bytes of the first file of this name.
pub(crate) fn bytes_of<'a>(files: &'a [HostFile], name: &str) -> Option<&'a [u8]>
    ensures { option_copied result ≡ file_named files.now name.now }
{
    match place_of(files, name) {
        Some(place) => Some(&files[place].bytes),
        None => None,
    }
}

// The place of the first file of this name.
fn place_of(files: &[HostFile], name: &str) -> Option<usize>
    ensures { result ≡ position (model.is_named name.now) files.now }
{
    files.iter().position(|file| file.name.as_str() == name)
}

// Sets the bytes of the first file of this name, or of a new one, to these.
pub(crate) fn put_file(
    files: &mut Vec<HostFile>,
    name: &str,
    bytes: &[u8],
) -> Result<(), AllocError>
    ensures written { OnOk result (file_named files.new.items name.now ≡ Some bytes.now) }
    ensures kept { OnErr result (files.new.items ≡ files.old.items) }
    ensures others_kept { (other : List ℕ) → other ≢ name.now →
        file_named files.new.items other ≡ file_named files.old.items other }
{
    let alloc = *files.allocator();
    let bytes = Vec::from_slice(alloc, bytes)?;
    match place_of(files, name) {
        Some(place) => files[place].bytes = bytes,
        None => {
            let name = String::from_str(alloc, name)?;
            files.push(HostFile { name, bytes })?;
        }
    }
    Ok(())
}

pub(crate) fn copied(alloc: Global, bytes: &[u8]) -> Result<Vec<u8>, HostFault>
    ensures copy { IfOk result (λ copy. copy.items ≡ bytes.now) }
    ensures only_memory { IsOkUnless result HostFault.OutOfMemory }
{
    Vec::from_slice(alloc, bytes).map_err(|_| HostFault::OutOfMemory)
}
