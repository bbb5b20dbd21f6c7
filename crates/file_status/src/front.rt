//! What a call returns of a file, in bytes and in registers.

ghost use Rattle.std.specs.Prelude.{◌≡◌, ◌∷◌, ◌++◌, IsSome};
ghost use Rattle.io_model.specs.declared.path.Target.{Target};
ghost use Rattle.io_model.specs.Status.{options};
ghost use Rattle.rbf_access.specs.Reading.{IsFdOf};
ghost use Rattle.rbf_model.specs.File.{DiskFile};
ghost use Rattle.file_rules.specs.Files.{place_of_target};
ghost use Rattle.file_rules.specs.Status.{descriptor_front as descriptor_front_model, long_bytes as long_bytes_model, long_regs as long_regs_model};

use file_rules::status::DESCRIPTOR_BYTES;
use io_model::status::OPTION_BYTES;
use os9_base::registers::Regs;
use rbf_sector::Fd;

/// The number of bytes of a descriptor before its segments.
pub(crate) const FRONT_BYTES: usize = DESCRIPTOR_BYTES as usize;

/// The registers that return a number in X, its high half, and U (System Programmer's Manual,
/// I$GetStt, SS.Size and SS.Pos).
pub(crate) fn long_regs(regs: Regs, number: u32) -> Regs
    ensures { result ≡ long_regs_model regs number }
{
    Regs {
        x: (number / 65536) as u16,
        u: (number % 65536) as u16,
        ..regs
    }
}

/// The four bytes of a number, the highest first.
fn long_bytes(number: u32) -> [u8; 4]
    ensures { result ≡ long_bytes_model number }
{
    let high = number / 65536;
    let low = number % 65536;
    [
        (high / 256) as u8,
        (high % 256) as u8,
        (low / 256) as u8,
        (low % 256) as u8,
    ]
}

/// Three bytes, five, one, four and three, one after the other.
fn joined(
    front: [u8; 3],
    modified: [u8; 5],
    links: u8,
    size: [u8; 4],
    created: [u8; 3],
) -> [u8; FRONT_BYTES]
    ensures { result ≡ front ++ (modified ++ (links ∷ size) ++ created) }
{
    let [attributes, owner_high, owner_low] = front;
    let [year, month, day, hour, minute] = modified;
    let [first, second, third, fourth] = size;
    let [created_year, created_month, created_day] = created;
    [
        attributes,
        owner_high,
        owner_low,
        year,
        month,
        day,
        hour,
        minute,
        links,
        first,
        second,
        third,
        fourth,
        created_year,
        created_month,
        created_day,
    ]
}

/// The first bytes of a file's descriptor, before its segments (OS-9 Technical Reference, "File
/// Descriptors", FD.ATT to FD.CREAT).
pub(crate) fn descriptor_front(fd: &Fd) -> [u8; FRONT_BYTES]
    ensures { (file : DiskFile) → IsFdOf file fd.now → result ≡ descriptor_front_model file }
{
    let front = [fd.attr, (fd.owner / 256) as u8, (fd.owner % 256) as u8];
    joined(
        front,
        fd.modified,
        fd.links,
        long_bytes(fd.size),
        fd.created,
    )
}

/// The options of a path on a file or a directory (System Programmer's Manual, I$GetStt, SS.Opt;
/// this project's own layout): the first byte says what the path is on.
pub(crate) fn file_options() -> [u8; OPTION_BYTES]
    ensures { (target : Target) → IsSome (place_of_target target) → result ≡ options target }
{
    let mut bytes = [0; OPTION_BYTES];
    bytes[0] = 1;
    bytes
}
