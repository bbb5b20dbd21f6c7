ghost use Rattle.std.specs.Prelude.{◌≡◌, ◌&&◌, IfOk};
ghost use Rattle.rbf_model.specs.File.{DiskFile};
ghost use Rattle.rbf_model.specs.Walk.{file_permits};
ghost use Rattle.rbf_access.specs.Mounted.{IsMounted, OnVolume};
ghost use Rattle.rbf_access.specs.Reading.{IsFdOf, OnFile};
ghost use Rattle.vol_tools.specs.Faults.{Faults, tool_fault};
ghost use Rattle.vol_tools.specs.Opening.{AnswersBytes, AnswersOpening, HasOpened, is_of_kind};

use crate::fault::ToolFault;
use crate::way::way_to;
use os9_base::errors::E_FNA;
use os9_base::name::Name;
use os9_outer::drive::BlockDriver;
use rbf_access::Volume;
use rbf_sector::Fd;
use rbf_walk::may;
use std::alloc::Global;

const READ: u8 = 1;

/// The kind of a file: one that is not a directory, or a directory.
#[derive(Clone, Copy, Debug)]
pub enum Kind {
    File,
    Directory,
}

/// An opened file: its descriptor's number, and its number of bytes.
#[derive(Clone, Copy, Debug)]
pub struct Opened {
    pub number: u32,
    pub size: u32,
}

/// Opens the file or the directory at the end of these names from the root, for user 0, for
/// reading.
pub fn open_file(
    v: &mut Volume,
    d: &mut dyn BlockDriver,
    names: &[Name],
    kind: Kind,
) -> Result<Opened, ToolFault>
    requires { IsMounted v.old (media d.old) }
    ensures answer { OnVolume (media d.old) (λ on. AnswersOpening on names.now kind result) }
    ensures file { IfOk result (HasOpened (media d.old)) }
    ensures mounted { IsMounted v.new (media d.new) }
    ensures media_kept { media d.new ≡ media d.old }
    ensures fault { Faults BlockDriver-dyn (tool_fault result) d.old d.new }
{
    let number = way_to(v, d, names)?;
    let file = v.fd(d, number)?;
    if !is_readable(&file, kind) {
        return Err(ToolFault::Number(E_FNA));
    }
    Ok(Opened {
        number,
        size: file.size,
    })
}

// Whether it is a file of this kind that user 0 may read.
fn is_readable(file: &Fd, kind: Kind) -> bool
    ensures { (on : DiskFile) → IsFdOf on file.now
        → result ≡ (is_of_kind kind on && file_permits on 0 1) }
{
    let directory = file.attr >> 7 == 1;
    let right = match kind {
        Kind::File => !directory,
        Kind::Directory => directory,
    };
    right && may(file, 0, READ)
}

/// Reads all bytes of an opened file.
pub fn read_whole(
    alloc: Global,
    v: &mut Volume,
    d: &mut dyn BlockDriver,
    opened: &Opened,
) -> Result<Vec<u8>, ToolFault>
    requires mounted { IsMounted v.old (media d.old) }
    requires opened { HasOpened (media d.old) opened.now }
    ensures bytes { OnFile (media d.old) opened.now.number (λ file.
        AnswersBytes (λ bytes. bytes.items ≡ file.contents) result) }
    ensures mounted { IsMounted v.new (media d.new) }
    ensures media_kept { media d.new ≡ media d.old }
    ensures fault { Faults BlockDriver-dyn (tool_fault result) d.old d.new }
{
    let mut bytes = vec![in alloc; 0u8; opened.size as usize]?;
    v.read_at(d, opened.number, 0, &mut bytes)?;
    Ok(bytes)
}
