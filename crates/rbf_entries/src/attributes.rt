ghost use Rattle.std.specs.Prelude.{◌≡◌, OnOk, OnErr, IsSome};
ghost use Rattle.rbf_model.specs.File.{DiskFile};
ghost use Rattle.rbf_change.specs.Calls.{SetsAttributes};
ghost use Rattle.rbf_change.specs.NewFiles.{owns_file};
ghost use Rattle.rbf_access.specs.Drive.{Counts};
ghost use Rattle.rbf_access.specs.Faults.{file_fault};
ghost use Rattle.rbf_access.specs.Mounted.{mounted_part, HasFile, IsMounted};
ghost use Rattle.rbf_access.specs.Reading.{IsFdOf, OnFile};
ghost use Rattle.rbf_walk.specs.Walk.{directory_fault};
ghost use Rattle.rbf_entries.specs.Attributes.{attributed, attribute_calls, with_new_attributes, AnswersOwner};
ghost use Rattle.rbf_entries.specs.Becomes.{Becomes};

use os9_base::registers::TimePacket;
use os9_outer::drive::BlockDriver;
use rbf_access::{FileFault, Volume};
use rbf_sector::{Fd, put_bytes, read_fd};
use rbf_walk::DirError;

/// A change of attributes that is asked for: the new attributes, the user who asks, and the
/// date.
#[derive(Clone, Copy, Debug)]
pub struct NewAttributes {
    pub attr: u8,
    pub user: u16,
    pub date: TimePacket,
}

/// Sets the attributes of a file or directory (SS.Attr, this project's own argument): bit 7, its
/// kind, is unchanged, and the date of its last change is `now`.
///
/// # Errors
///
/// `Device` if an access of the drive fails; then the media is unchanged.
pub fn set_fd_attr(
    v: &mut Volume,
    d: &mut dyn BlockDriver,
    fd: u32,
    attr: u8,
    now: TimePacket,
) -> Result<(), FileFault>
    requires mounted { IsMounted v.old (media d.old) }
    requires file { HasFile (media d.old) fd }
    ensures ok { OnOk result (Becomes (media d.old) (media d.new) (λ old new.
        SetsAttributes old new fd attr now)) }
    ensures written { OnOk result (media d.new
        ≡ with_new_attributes (media d.old) fd attr now) }
    ensures media_kept { OnErr result (media d.new ≡ media d.old) }
    ensures device { OnErr result (IsSome (file_fault result)) }
    ensures mounted { IsMounted v.new (media d.new) }
    ensures volume_kept { mounted_part v.new ≡ mounted_part v.old }
    ensures counts { Counts BlockDriver-dyn (file_fault result) 2 d.old d.new }
{
    let mut bytes = v.load(d, fd)?;
    put_attributes(&mut bytes, attr, now);
    v.store(d, fd, &bytes)?;
    Ok(())
}

/// The same for a user: only the owner of the file and user 0 may change its attributes. The
/// descriptor is read once.
///
/// # Errors
///
/// `NotAllowed` for any other user, `Device` if an access of the drive fails; then the media is
/// unchanged.
pub fn set_attr(
    v: &mut Volume,
    d: &mut dyn BlockDriver,
    fd: u32,
    asked: NewAttributes,
) -> Result<(), DirError>
    requires mounted { IsMounted v.old (media d.old) }
    requires file { HasFile (media d.old) fd }
    ensures ok { OnOk result (Becomes (media d.old) (media d.new) (λ old new.
        SetsAttributes old new fd asked.attr asked.date)) }
    ensures answer { OnFile (media d.old) fd (λ file. AnswersOwner file asked.user result) }
    ensures written { OnOk result (media d.new
        ≡ with_new_attributes (media d.old) fd asked.attr asked.date) }
    ensures media_kept { OnErr result (media d.new ≡ media d.old) }
    ensures mounted { IsMounted v.new (media d.new) }
    ensures volume_kept { mounted_part v.new ≡ mounted_part v.old }
    ensures counts { OnFile (media d.old) fd (λ file. Counts BlockDriver-dyn
        (directory_fault result) (attribute_calls file asked.user) d.old d.new) }
{
    let mut bytes = v.load(d, fd)?;
    if !owns(&read_fd(&bytes), asked.user) {
        return Err(DirError::NotAllowed);
    }
    put_attributes(&mut bytes, asked.attr, asked.date);
    v.store(d, fd, &bytes)?;
    Ok(())
}

// Sets the attributes in a descriptor, except for its kind.
fn put_attributes(descriptor: &mut [u8; 256], attr: u8, now: TimePacket)
    ensures { descriptor.new ≡ attributed descriptor.old attr now }
{
    let kind = 128 * (descriptor[0] / 128);
    put_bytes(descriptor, 0, &[kind + attr % 128]);
    put_bytes(
        descriptor,
        3,
        &[now.year, now.month, now.day, now.hour, now.minute],
    );
}

// Whether a user may change the attributes of this file.
fn owns(file: &Fd, user: u16) -> bool
    ensures { (of : DiskFile) → IsFdOf of file.now → result ≡ owns_file of user }
{
    user == 0 || user == file.owner
}
