//! A boot of the image `v` with the slices `s`, no keys and a history that cannot be written; and
//! `stress`.

use super::{QUIET, Step, bytes_of, file, shows};
use fixtures::volume::changed;
use os9_outer::host_file::HostFile;
use std::alloc::{AllocError, Global};
use std::test::Fail;

/// A program that makes the file `/D0/x`, and exits with 0.
const CREATE: [u8; 41] = [
    0x87, 0xCD, 0x00, 0x29, 0x00, 0x0D, 0x11, 0x81, 0x01, 0x00, 0x12, 0x00, 0xC8, 0x53, 0x79, 0x73,
    0x47, 0xEF, 0x30, 0x8C, 0x0B, 0x86, 0x02, 0xC6, 0x03, 0x10, 0x3F, 0x83, 0x5F, 0x10, 0x3F, 0x06,
    0x2F, 0x44, 0x30, 0x2F, 0x78, 0x0D, 0x26, 0x53, 0x07,
];

/// The most bytes of a boot file in the 8 sectors from sector 8 on.
const MOST_BOOT: usize = 2048;

/// The smallest volume with a boot file of 64 bytes from sector 8 on, which is marked as used
/// (DD.BT at byte 21 of LSN 0, DD.BSZ at 24).
const BOOTABLE: [(usize, u8); 3] = [(23, 8), (25, 64), (257, 0x80)];

/// That volume with this boot file.
fn bootable(alloc: Global, module: &[u8]) -> Result<Vec<u8>, AllocError> {
    let mut image = changed(alloc, 4096, &BOOTABLE)?;
    for (to, byte) in image.iter_mut().skip(MOST_BOOT).zip(module) {
        *to = *byte;
    }
    Ok(image)
}

/// The files of a boot of this image: 200 instructions in a slice.
fn disk(alloc: Global, v: &[u8]) -> Result<Vec<HostFile>, AllocError> {
    let mut files = Vec::new(alloc);
    files.push(file(alloc, "v", v)?)?;
    files.push(file(alloc, "t", b"")?)?;
    files.push(file(alloc, "s", b"200*4")?)?;
    Ok(files)
}

// The image is written before the history, which is the file that cannot be written. The third
// entry of the root has the name `x`, with bit 7 of its last character, and the root has 96 bytes.
#[test]
fn history_that_is_not_written(rt: HostRuntime) -> Result<(), Fail> {
    let image = bootable(rt.alloc(), &CREATE)?;
    let step = Step {
        words: "boot v --script t --slices s --history h",
        host: &[5],
        status: 3,
        err: b"os9: cannot write h\n",
        ..QUIET
    };
    let files = shows(&rt, rt.alloc(), disk(rt.alloc(), &image)?, &step)?;
    let left = bytes_of(&files, "v");
    assert!(rt; left.get(832) == Some(&0xF8) && left.get(524) == Some(&96));
    Ok(())
}

// The boot file has 1,086 bytes, and the sums of the 800 lengths of the seeds are 13,689 and
// 13,349. Of the 4,096 sectors the system has 6, the boot file 5, the Workers' four descriptors 4,
// and their files 56 and 55. The third call of the host is a write within the line.
#[test]
fn stress(rt: HostRuntime) -> Result<(), Fail> {
    let rows: [(&str, &[u64], u8, &[u8]); 3] = [
        (
            "stress 0",
            &[],
            0,
            b" files 5 bytes 14775 free 4025 lost 0\n",
        ),
        (
            "stress 1",
            &[],
            0,
            b" files 5 bytes 14435 free 4026 lost 0\n",
        ),
        ("stress 0", &[3], 3, b""),
    ];
    for (words, host, status, end) in rows {
        let step = Step {
            words,
            host,
            ..QUIET
        };
        let shown = super::call(rt.alloc(), Vec::new(rt.alloc()), &step)?;
        assert_eq!(rt; (shown.status, shown.out.ends_with(end)), (status, true));
        let is_whole = shown.out.ends_with(b"\n");
        assert!(rt; shown.out.starts_with(b"slices ") && is_whole == (status == 0));
    }
    Ok(())
}
