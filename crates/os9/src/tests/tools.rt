//! Tools for volumes, over the image `i` and the files `f` and `g`.

use super::{QUIET, Step, bytes_of, file, shows};
use fixtures::volume::changed;
use os9_outer::drive::DriveFault;
use os9_outer::host_file::HostFile;
use std::alloc::Global;
use std::process::Abort;
use std::test::Fail;

/// The files after these calls, each of which ends well and writes this to the output.
fn after<'a>(
    rt: &impl Abort,
    alloc: Global,
    files: Vec<HostFile>,
    calls: &'a [(&'a str, &'a [u8])],
) -> Result<Vec<HostFile>, Fail> {
    let mut files = files;
    for (words, out) in calls {
        files = shows(
            rt,
            alloc,
            files,
            &Step {
                words,
                out,
                ..QUIET
            },
        )?;
    }
    Ok(files)
}

/// The files after a call that is refused with this error: the image is unchanged.
fn refused<'a>(
    rt: &impl Abort,
    alloc: Global,
    files: Vec<HostFile>,
    words: &'a str,
    err: &'a [u8],
) -> Result<Vec<HostFile>, Fail> {
    let before = Vec::from_slice(alloc, bytes_of(&files, "i"))?;
    let step = Step {
        words,
        status: 11,
        err,
        ..QUIET
    };
    let files = shows(rt, alloc, files, &step)?;
    assert!(rt; bytes_of(&files, "i") == before.as_slice());
    Ok(files)
}

/// A disk of 630 sectors as `i`, with the 300 bytes of `f` in its file `A`.
fn disk_with_a(rt: &impl Abort, alloc: Global) -> Result<Vec<HostFile>, Fail> {
    let mut files = Vec::new(alloc);
    files.push(file(alloc, "f", &[7; 300])?)?;
    after(
        rt,
        alloc,
        files,
        &[("vol format i 630", b""), ("vol put i A f", b"")],
    )
}

// A disk of 630 sectors has 626 free; a file of 300 bytes takes three clusters, a directory two.
#[test]
fn vol_commands(rt: HostRuntime) -> Result<(), Fail> {
    let alloc = rt.alloc();
    let calls: [(&str, &[u8]); 2] = [
        ("check i", b"files 1 dirs 1 free 623 lost 0\n"),
        ("vol dir i /", b"0B 300 A\n"),
    ];
    let files = after(&rt, alloc, disk_with_a(&rt, alloc)?, &calls)?;
    let files = refused(&rt, alloc, files, "vol put i A f", b"os9: i: error 218\n")?;
    let calls: [(&str, &[u8]); 3] = [
        ("vol get i a g", b""),
        ("vol delete i A", b""),
        ("check i", b"files 0 dirs 1 free 626 lost 0\n"),
    ];
    let files = after(&rt, alloc, files, &calls)?;
    assert!(rt; bytes_of(&files, "g") == [7; 300].as_slice());
    let files = refused(&rt, alloc, files, "vol delete i A", b"os9: i: error 216\n")?;
    let calls: [(&str, &[u8]); 2] = [
        ("vol mkdir i B", b""),
        ("check i", b"files 0 dirs 2 free 624 lost 0\n"),
    ];
    let _files = after(&rt, alloc, files, &calls)?;
    Ok(())
}

// All 12 clusters of a map `FF FF` that are not in a file are freed, and a disk of one cluster has
// none free.
#[test]
fn disks_are_repaired_and_formatted(rt: HostRuntime) -> Result<(), Fail> {
    let alloc = rt.alloc();
    let full = changed(alloc, 4096, &[(256, 0xFF), (257, 0xFF)])?;
    let mut files = Vec::new(alloc);
    files.push(file(alloc, "i", &full)?)?;
    let calls: [(&str, &[u8]); 4] = [
        ("vol repair i", b"freed 12\n"),
        ("check i", b"files 0 dirs 1 free 12 lost 0\n"),
        ("vol format j 16 --cluster 64", b""),
        ("check j", b"files 0 dirs 1 free 0 lost 0\n"),
    ];
    let _files = after(&rt, alloc, files, &calls)?;
    Ok(())
}

// 215 is before the walk; a part of a path has 1 to 29 characters. Of a disk of 16 sectors 12 are
// free; 3,000 bytes need 12 clusters in addition to the descriptor.
#[test]
fn tools_are_refused(rt: HostRuntime) -> Result<(), Fail> {
    let alloc = rt.alloc();
    let rows: [(&str, &[u8]); 8] = [
        ("vol put i NOPE/. f", b"os9: i: error 215\n"),
        ("vol put i NOPE/A f", b"os9: i: error 216\n"),
        ("vol put i /A f", b"os9: i: error 215\n"),
        (
            "vol mkdir i A23456789012345678901234567890",
            b"os9: i: error 215\n",
        ),
        ("vol get i B g", b"os9: i: error 216\n"),
        ("vol dir i A", b"os9: i: error 214\n"),
        ("vol get i .. g", b"os9: i: error 214\n"),
        ("vol delete i .", b"os9: i: error 214\n"),
    ];
    let mut files = disk_with_a(&rt, alloc)?;
    for (words, err) in rows {
        files = refused(&rt, alloc, files, words, err)?;
    }
    assert!(rt; bytes_of(&files, "g").is_empty());
    let mut files = Vec::new(alloc);
    files.push(file(alloc, "f", &[0; 3000])?)?;
    let files = after(&rt, alloc, files, &[("vol format i 16", b"")])?;
    let _files = refused(&rt, alloc, files, "vol put i A f", b"os9: i: error 248\n")?;
    Ok(())
}

// The host reads the image and FILE, writes the lines, and then the file.
#[test]
fn host_fails(rt: HostRuntime) -> Result<(), Fail> {
    let alloc = rt.alloc();
    let rows: [(&str, u64, u8, &[u8]); 7] = [
        ("vol put i B f", 1, 2, b"os9: cannot read i\n"),
        ("vol put i B f", 2, 2, b"os9: cannot read f\n"),
        ("vol put i B f", 3, 3, b"os9: cannot write i\n"),
        ("vol dir i /", 2, 3, b"os9: cannot write output\n"),
        ("vol get i A g", 2, 3, b"os9: cannot write g\n"),
        ("vol repair i", 2, 3, b"os9: cannot write output\n"),
        ("vol format i 16", 1, 3, b"os9: cannot write i\n"),
    ];
    for (words, failing, status, err) in rows {
        let host = [failing];
        let step = Step {
            words,
            host: &host,
            status,
            err,
            ..QUIET
        };
        let _files = shows(&rt, alloc, disk_with_a(&rt, alloc)?, &step)?;
    }
    Ok(())
}

// The first call of a drive reads LSN 0. An empty file is not an image.
#[test]
fn drive_fails(rt: HostRuntime) -> Result<(), Fail> {
    let alloc = rt.alloc();
    let rows: [(&str, Option<(u64, DriveFault)>, u8, &[u8]); 4] = [
        (
            "vol mkdir i B",
            Some((1, DriveFault::ReadFault)),
            9,
            b"os9: drive 0: 244\n",
        ),
        (
            "vol mkdir i B",
            Some((6, DriveFault::WriteFault)),
            9,
            b"os9: drive 0: 245\n",
        ),
        ("vol mkdir e B", None, 6, b"os9: e: rule 1 at LSN 0\n"),
        ("vol dir e /", None, 6, b"os9: e: rule 1 at LSN 0\n"),
    ];
    for (words, drive, status, err) in rows {
        let mut files = disk_with_a(&rt, alloc)?;
        files.push(file(alloc, "e", &[])?)?;
        let before = Vec::from_slice(alloc, bytes_of(&files, "i"))?;
        let step = Step {
            words,
            drive,
            status,
            err,
            ..QUIET
        };
        let files = shows(&rt, alloc, files, &step)?;
        assert!(rt; bytes_of(&files, "i") == before.as_slice());
    }
    Ok(())
}
