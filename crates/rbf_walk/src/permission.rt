ghost use Rattle.std.specs.Prelude.{◌≡◌};
ghost use Rattle.rbf_model.specs.File.{DiskFile};
ghost use Rattle.rbf_model.specs.Walk as model;
ghost use Rattle.rbf_model.specs.Walk.{permits, may_search};
ghost use Rattle.rbf_access.specs.Reading.{IsFdOf};

use rbf_sector::Fd;

const READ: u8 = 1;

const EXECUTE: u8 = 4;

/// Who searches a directory: the user, and whether in search of a file to execute.
#[derive(Clone, Copy, Debug)]
pub struct Searcher {
    pub user: u16,
    pub execute: bool,
}

/// Whether a user may use the file as the mode asks: 1 to read, 2 to write, 4 to execute, and sums
/// of these. The owner and user 0 have the low three bits of the attributes, others the next three
/// (OS-9 Technical Reference, File Descriptors, FD.ATT). Other bits of the mode are ignored.
pub fn may(fd: &Fd, user: u16, mode: u8) -> bool
    ensures { result ≡ permits fd.now.attr fd.now.owner user mode }
{
    let asked = mode % 8;
    granted(fd, user) & asked == asked
}

// The three bits of the attributes that a user has.
fn granted(fd: &Fd, user: u16) -> u8
    ensures { result ≡ model.granted fd.now.attr fd.now.owner user }
{
    if user == 0 || user == fd.owner {
        fd.attr % 8
    } else {
        fd.attr / 8 % 8
    }
}

/// Whether it is a directory that a user may search, for a file to execute or for any other.
pub fn is_open(fd: &Fd, by: Searcher) -> bool
    ensures { (file : DiskFile) → IsFdOf file fd.now
        → result ≡ may_search file by.user by.execute }
{
    let mode = if by.execute { EXECUTE } else { READ };
    fd.attr >> 7 == 1 && may(fd, by.user, mode)
}
