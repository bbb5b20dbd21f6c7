//! The places to which path lists lead.

ghost use Rattle.std.specs.Prelude.{◌≡◌, Some, Ok, IfOk, vec_len};
ghost use Rattle.io_model.specs.Lead.{lead_of, nowhere, on_device, on_drive, makes_dots as makes_dots_model, unless_slash as unless_slash_model};
ghost use Rattle.io_model.specs.PathList.{PathList};
ghost use Rattle.device_paths.specs.Places.{search_of, lead_to, allows as allows_model, IsTerminalInRange, IsPlaceInRange};
ghost use Rattle.device_paths.specs.Listed.{listed};

use crate::list::Listed;
use device_table::devices::{Dev, Devices};
use io_model::modes::{MODE_EXECUTE, MODE_READ, MODE_WRITE};
use os9_base::errors::{E_BPNAM, E_MNF, E_PNNF};

/// What a call looks for.
#[derive(Clone, Copy, Debug, PartialEq, Eq)]
pub enum Search {
    /// What is there.
    Existing,
    /// A place for a new file.
    New,
}

/// A place at which a path can be opened.
#[derive(Clone, Copy, Debug, PartialEq, Eq)]
pub enum Place {
    /// On this terminal.
    Terminal(u8),
    /// On a pipe that is not made yet.
    Pipe,
}

impl Search {
    /// May a path be opened with this mode (System Programmer's Manual, I$Open and I$Create)? A new
    /// file needs write.
    pub fn allows(self, mode: u8) -> bool
        ensures { result ≡ allows_model self mode }
    {
        match self {
            Search::Existing => mode & (MODE_READ + MODE_WRITE + MODE_EXECUTE) != 0,
            Search::New => mode & MODE_WRITE != 0,
        }
    }
}

/// The place to which a path list leads on a machine with these devices.
///
/// # Errors
///
/// E$BPNam exactly if a new file would have the name of a directory itself or of its parent. Else
/// E$PNNF exactly if the list does not start at a device, since no process has a directory. Else
/// E$MNF exactly if its device does not exist, or is a drive and nothing is made at its root, since
/// none is mounted. Else E$BPNam exactly if something is made at the root of a drive, or a slash
/// follows the name of a terminal or a pipe.
pub fn place_of(search: Search, devices: &Devices, list: &Listed) -> Result<Place, u8>
    ensures lead { (named : PathList) → list.now ≡ listed named
        → lead_to result ≡ lead_of (search_of search) (vec_len devices.now.drives)
        (vec_len devices.now.terms) named }
    ensures there { IfOk result IsPlaceInRange }
{
    if makes_dots(search, list) {
        return Err(E_BPNAM);
    }
    let Some(name) = list.device else {
        return Err(E_PNNF);
    };
    match devices.find(&name) {
        None => Err(E_MNF),
        Some(device) => place_on(search, device, list),
    }
}

/// Would the new file have the name of a directory itself or of its parent?
fn makes_dots(search: Search, list: &Listed) -> bool
    ensures { (named : PathList) → list.now ≡ listed named
        → result ≡ makes_dots_model (search_of search) named }
{
    match search {
        Search::Existing => false,
        Search::New => list.dots,
    }
}

/// The place to which a path list that starts at this device leads.
fn place_on(search: Search, device: Dev, list: &Listed) -> Result<Place, u8>
    ensures lead { (named : PathList) → list.now ≡ listed named
        → lead_to result ≡ on_device (search_of search) named (Some device) }
    ensures there { IsTerminalInRange device → IfOk result IsPlaceInRange }
{
    match device {
        Dev::Drive(_) => Err(refusal_on_drive(search, list)),
        Dev::Term(terminal) => unless_slash(list, Place::Terminal(terminal)),
        Dev::Pipe => unless_slash(list, Place::Pipe),
    }
}

/// The error number for a path list that starts at a drive: no drive is mounted, but nothing is
/// made at a root.
fn refusal_on_drive(search: Search, list: &Listed) -> u8
    ensures { (named : PathList) → list.now ≡ listed named
        → nowhere result ≡ on_drive (search_of search) named }
{
    match search {
        Search::New if !list.has_names => E_BPNAM,
        Search::New | Search::Existing => E_MNF,
    }
}

/// The place, if no slash follows its name in the path list.
fn unless_slash(list: &Listed, place: Place) -> Result<Place, u8>
    ensures lead { (named : PathList) → list.now ≡ listed named
        → lead_to result ≡ unless_slash_model named (lead_to (Ok place)) }
    ensures there { IsPlaceInRange place → IfOk result IsPlaceInRange }
{
    if list.slash || list.has_names {
        Err(E_BPNAM)
    } else {
        Ok(place)
    }
}
