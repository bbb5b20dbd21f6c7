ghost use Rattle.std.specs.Prelude.{◌≡◌, ℕ, IfOk};
ghost use Rattle.rbf_model.specs.Walk as model;
ghost use Rattle.rbf_access.specs.Drive.{Counts};
ghost use Rattle.rbf_access.specs.Mounted.{mounted_part, HasFile, IsMounted, OnVolume};
ghost use Rattle.rbf_walk.specs.Walk.{AnswersWalk, directory_fault, step_calls, walk_calls};

use crate::directory::{Searched, search};
use crate::error::DirError;
use crate::permission::{Searcher, is_open};
use os9_base::name::Name;
use os9_outer::drive::BlockDriver;
use rbf_access::Volume;

/// Walks from a directory along the names of a path list, for a user, and returns the descriptor at
/// its end. The user must be allowed to read each searched directory, or to execute it in search of
/// a file to execute (OS-9 Technical Reference, I$Open).
///
/// # Errors
///
/// `NotAllowed` at the first name that is looked up in a file that is not a directory or may not be
/// searched, `NotFound` at the first that is not there, `Device` if a read of the drive fails.
pub fn walk(
    v: &mut Volume,
    d: &mut dyn BlockDriver,
    from: u32,
    names: &[Name],
    by: Searcher,
) -> Result<u32, DirError>
    requires mounted { IsMounted v.old (media d.old) }
    requires file { HasFile (media d.old) from }
    ensures walked { OnVolume (media d.old) (λ on.
        AnswersWalk (model.walk on.files by.user by.execute from names.now) result) }
    ensures file { IfOk result (HasFile (media d.old)) }
    ensures mounted { IsMounted v.new (media d.new) }
    ensures media_kept { media d.new ≡ media d.old }
    ensures volume_kept { mounted_part v.new ≡ mounted_part v.old }
    ensures counts { OnVolume (media d.old) (λ on. Counts BlockDriver-dyn (directory_fault result)
        (walk_calls on.files by.user by.execute from names.now) d.old d.new) }
{
    let mut at = from;
    for name in names {
        at = step(v, d, at, name, by)?;
    }
    Ok(at)
}

// The end of the step of one name, for a user.
fn step(
    v: &mut Volume,
    d: &mut dyn BlockDriver,
    dir: u32,
    name: &Name,
    by: Searcher,
) -> Result<u32, DirError>
    requires mounted { IsMounted v.old (media d.old) }
    requires file { HasFile (media d.old) dir }
    ensures walked { OnVolume (media d.old) (λ on.
        AnswersWalk (model.step (on.files dir) by.user by.execute name.now) result) }
    ensures file { IfOk result (HasFile (media d.old)) }
    ensures mounted { IsMounted v.new (media d.new) }
    ensures media_kept { media d.new ≡ media d.old }
    ensures volume_kept { mounted_part v.new ≡ mounted_part v.old }
    ensures counts { OnVolume (media d.old) (λ on. Counts BlockDriver-dyn (directory_fault result)
        (step_calls (on.files dir) by.user by.execute name.now) d.old d.new) }
{
    let fd = v.fd(d, dir)?;
    if !is_open(&fd, by) {
        return Err(DirError::NotAllowed);
    }
    match search(v, d, &fd, name)? {
        Searched::Found { descriptor, .. } => Ok(descriptor),
        Searched::Absent { .. } => Err(DirError::NotFound),
    }
}
