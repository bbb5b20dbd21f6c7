ghost use Rattle.std.specs.Prelude.{◌≡◌, ℕ, ◌+◌, ◌<◌, ◌≤◌, length};
ghost use Rattle.rbf_change.specs.Calls.{day_of, minute_of};
ghost use Rattle.rbf_change.specs.NewFiles.{first_segments};
ghost use Rattle.rbf_change.specs.Tidy.{IsNewList};
ghost use Rattle.rbf_sector.specs.declared.fd.Fd.{Fd};
ghost use Rattle.rbf_entries.specs.Described.{IsReadAs};

use os9_base::registers::TimePacket;
use rbf_sector::{Fd, write_fd};
use rbf_segs::Segs;

// The segments of a new file whose descriptor is sector `n`, the first of a cluster of `k`
// sectors: the others of that cluster.
pub fn first_segs(k: u16, n: u32) -> Segs
    requires some { 1 ≤ k }
    requires low { n < 524288 }
    ensures { result ≡ first_segments k n }
{
    let mut segs = Segs::empty();
    if k > 1 {
        segs.append(n + 1, k - 1).unwrap();
    }
    segs
}

/// The sector of a new descriptor with these fields, and with zeros after its list of segments
/// (OS-9 Technical Reference, Random Block File Manager, "File Descriptors").
pub fn descriptor(file: &Fd) -> [u8; 256]
    ensures whole { length result ≡ 256 }
    ensures fields { IsReadAs file.now result }
    ensures rest { IsNewList result }
{
    let mut bytes = [0; 256];
    write_fd(file, &mut bytes);
    bytes
}

// The fields of a new file without contents.
pub fn new_file(attr: u8, owner: u16, now: &TimePacket, segs: Segs) -> Fd
    ensures { result ≡ record {
      attr = attr;
      owner = owner;
      modified = minute_of now.now;
      links = 1;
      size = 0;
      created = day_of now.now;
      segs = segs;
    } }
{
    Fd {
        attr,
        owner,
        modified: [now.year, now.month, now.day, now.hour, now.minute],
        links: 1,
        size: 0,
        created: [now.year, now.month, now.day],
        segs,
    }
}
