ghost use Rattle.std.specs.Prelude.{◌≡◌, ℕ, ◌+◌, ◌<◌, ◌≤◌, ◌%◌, [], ◌∷◌, length};
ghost use Rattle.rbf_change.specs.Calls.{day_of, minute_of};
ghost use Rattle.rbf_change.specs.NewFiles.{file_clusters};
ghost use Rattle.rbf_entries.specs.FolderMade.{new_sectors};
ghost use Rattle.rbf_sector.specs.declared.fd.Fd.{Fd};

use os9_base::registers::TimePacket;
use rbf_sector::Fd;
use rbf_segs::Segs;

// The size of a new directory, in bytes: that of two entries.
const NEW_SIZE: u32 = 64;

// The number of clusters of `k` sectors that a new directory takes: that of its descriptor, and
// another one for its first sector if a cluster has only one sector.
pub fn new_clusters(k: u16) -> u32
    requires { 1 ≤ k }
    ensures value { result ≡ file_clusters k 64 }
    ensures few { result ≤ 2 }
{
    if k == 1 { 2 } else { 1 }
}

// The segments of a new directory: its first sector, and the sectors after it in its cluster.
pub fn first_segs(k: u16, first: u32) -> Segs
    requires some { 1 ≤ k }
    requires low { first < 524288 }
    ensures { result ≡ (first, new_sectors k) ∷ [] }
{
    let mut segs = Segs::empty();
    let sectors = if k == 1 { 1 } else { k - 1 };
    segs.append(first, sectors).unwrap();
    segs
}

// The fields of a new directory: bit 7 of its attributes is set.
pub fn new_directory(attr: u8, owner: u16, now: &TimePacket, segs: Segs) -> Fd
    ensures { result ≡ record {
      attr = 128 + attr % 128;
      owner = owner;
      modified = minute_of now.now;
      links = 1;
      size = 64;
      created = day_of now.now;
      segs = segs;
    } }
{
    Fd {
        attr: 128 + attr % 128,
        owner,
        modified: [now.year, now.month, now.day, now.hour, now.minute],
        links: 1,
        size: NEW_SIZE,
        created: [now.year, now.month, now.day],
        segs,
    }
}
