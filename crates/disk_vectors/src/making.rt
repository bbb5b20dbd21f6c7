ghost use Rattle.std.specs.Int.{bit_at};
ghost use Rattle.std.specs.Prelude.{◌≡◌, ◌==◌, ◌<◌, OnOk};
ghost use Rattle.rbf_access.specs.Mounted.{HasFile, IsMounted};
ghost use Rattle.rbf_write.specs.Files.{HasDataFile};

use crate::answer::{Done, Undone};
use crate::call::{Call, CallOnFile, CallOnName, FileCall, NameCall, Span};
use crate::row::NumberedCall;
use module_format::crc24;
use os9_base::errors::{E_BPNAM, E_FNA};
use os9_base::name::Name;
use os9_base::registers::TimePacket;
use os9_outer::drive::BlockDriver;
use rbf_access::Volume;
use rbf_entries::{NewAttributes, NewEntry, create, delete, make_dir, set_attr, set_fd_attr};
use rbf_sector::Fd;
use rbf_walk::{Searcher, may, walk};
use rbf_write::{NewBytes, set_size, write_at};
use std::alloc::Global;

// The greatest attributes of a file that is not a directory.
const MOST_FILE_ATTRIBUTES: u8 = 0x7f;

/// Makes a call on a mounted volume.
pub(crate) fn make_call(
    alloc: Global,
    volume: &mut Volume,
    d: &mut dyn BlockDriver,
    numbered: &NumberedCall,
) -> Result<Done, Undone>
    requires mounted { IsMounted volume.old (media d.old) }
    ensures mounted { IsMounted volume.new (media d.new) }
{
    match &numbered.call {
        Call::Free => Ok(Done::Free(volume.free_count())),
        Call::OnFile(made) => call_file(alloc, volume, d, made, numbered.time()),
        Call::OnName(made) => call_name(volume, d, made, numbered.time()),
    }
}

// A call on the file or directory to which a path leads.
fn call_file(
    alloc: Global,
    volume: &mut Volume,
    d: &mut dyn BlockDriver,
    made: &CallOnFile,
    date: TimePacket,
) -> Result<Done, Undone>
    requires mounted { IsMounted volume.old (media d.old) }
    ensures mounted { IsMounted volume.new (media d.new) }
{
    let root = volume.root();
    let by = Searcher {
        user: made.call.walker(),
        execute: made.call.way().is_execute(),
    };
    let fd = walk(volume, d, root, &made.path, by)?;
    match made.call {
        FileCall::Walk { .. } => Ok(Done::Walked(volume.fd(d, fd)?)),
        FileCall::May { user, mode } => Ok(Done::Permitted(may(&volume.fd(d, fd)?, user, mode))),
        FileCall::Read(span) => read_file(alloc, volume, d, fd, span),
        FileCall::Attr { attr, user } => {
            let asked = NewAttributes { attr, user, date };
            set_attr(volume, d, fd, asked)?;
            Ok(Done::Plainly)
        }
        FileCall::FdAttr { attr } => {
            set_fd_attr(volume, d, fd, attr, date)?;
            Ok(Done::Plainly)
        }
        FileCall::Write { at, pattern } => {
            let bytes = &pattern.bytes(alloc)?;
            write_file(volume, d, fd, NewBytes { at, bytes, date })
        }
        FileCall::Size { size } => {
            see_data_file(volume, d, fd)?;
            set_size(volume, d, fd, size, date)?;
            Ok(Done::Plainly)
        }
    }
}

// Writes bytes to a file that is not a directory.
fn write_file(
    volume: &mut Volume,
    d: &mut dyn BlockDriver,
    fd: u32,
    write: NewBytes<'_>,
) -> Result<Done, Undone>
    requires mounted { IsMounted volume.old (media d.old) }
    requires file { HasFile (media d.old) fd }
    ensures mounted { IsMounted volume.new (media d.new) }
{
    see_data_file(volume, d, fd)?;
    write_at(volume, d, fd, write)?;
    Ok(Done::Plainly)
}

// Reads bytes of a file.
fn read_file(
    alloc: Global,
    volume: &mut Volume,
    d: &mut dyn BlockDriver,
    fd: u32,
    span: Span,
) -> Result<Done, Undone>
    requires mounted { IsMounted volume.old (media d.old) }
    requires file { HasFile (media d.old) fd }
    ensures mounted { IsMounted volume.new (media d.new) }
{
    let mut buffer = vec![in alloc; 0u8; span.count as usize]?;
    let count = volume.read_at(d, fd, span.at, &mut buffer)?;
    buffer.truncate(count as usize);
    Ok(Done::Read {
        count,
        crc: crc24(&buffer),
    })
}

// Tests that a file is not a directory.
fn see_data_file(volume: &mut Volume, d: &mut dyn BlockDriver, fd: u32) -> Result<(), Undone>
    requires mounted { IsMounted volume.old (media d.old) }
    requires file { HasFile (media d.old) fd }
    ensures file { OnOk result (HasDataFile (media d.new) fd) }
    ensures mounted { IsMounted volume.new (media d.new) }
{
    let file = volume.fd(d, fd)?;
    if is_directory(&file) {
        return Err(Undone::Directory);
    }
    Ok(())
}

fn is_directory(file: &Fd) -> bool
    ensures { result ≡ (bit_at file.now.attr 7 == 1) }
{
    file.attr >> 7 == 1
}

// A call on the last name of a path, in the directory to which the others lead.
fn call_name(
    volume: &mut Volume,
    d: &mut dyn BlockDriver,
    made: &CallOnName,
    date: TimePacket,
) -> Result<Done, Undone>
    requires mounted { IsMounted volume.old (media d.old) }
    ensures mounted { IsMounted volume.new (media d.new) }
{
    let Some((name, names)) = made.path.split_last() else {
        return Err(Undone::Refused(E_BPNAM));
    };
    let root = volume.root();
    let call = made.call;
    let by = Searcher {
        user: call.user(),
        execute: call.way().is_execute(),
    };
    let dir = walk(volume, d, root, names, by)?;
    match call {
        NameCall::Create { attr, .. } => {
            create_file(volume, d, dir, &new_entry(name, attr, date), by)
        }
        NameCall::MakeDir { attr, user } => {
            make_dir(volume, d, dir, &new_entry(name, attr, date), user)?;
            Ok(Done::Plainly)
        }
        NameCall::Delete { .. } => {
            delete(volume, d, dir, name, by)?;
            Ok(Done::Plainly)
        }
    }
}

fn new_entry(name: &Name, attr: u8, date: TimePacket) -> NewEntry {
    NewEntry {
        name: *name,
        attr,
        date,
    }
}

// Makes a file in a directory, if its attributes are not those of a directory.
fn create_file(
    volume: &mut Volume,
    d: &mut dyn BlockDriver,
    dir: u32,
    file: &NewEntry,
    by: Searcher,
) -> Result<Done, Undone>
    requires mounted { IsMounted volume.old (media d.old) }
    requires file { HasFile (media d.old) dir }
    ensures mounted { IsMounted volume.new (media d.new) }
{
    if file.attr > MOST_FILE_ATTRIBUTES {
        return Err(Undone::Refused(E_FNA));
    }
    create(volume, d, dir, file, by)?;
    Ok(Done::Plainly)
}
