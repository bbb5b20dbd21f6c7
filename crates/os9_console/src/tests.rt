//! Sessions over a host in memory, and the boot over a record.

ghost use Rattle.boot_run.specs.Drives.{HaveRoom};
ghost use Rattle.device_table.specs.Seen.{terminals_seen};
ghost use Rattle.file_drives.specs.Drives.{drives_seen};
ghost use Rattle.boot_run.specs.Loaded.{AreUnloaded};

use crate::top::console_main;
use console_run::Console;
use console_run::sure_keyboard::SureKeyboard;
use device_table::devices::Devices;
use fixtures::volume::changed;
use os9_boot::{add_drive, os9_main};
use os9_outer::drive::BlockDriver;
use os9_outer::host_file::HostFile;
use os9_outer::mem_host::MemHost;
use os9_outer::sure_drive::SureDrive;
use os9_outer::sure_tty::SureTty;
use os9_outer::terminal::CharDriver;
use std::alloc::{AllocError, Global};
use std::process::Abort;
use std::test::Fail;

/// A program that asks for a name, puts it at the end of the file NAMES, and lists the file.
const NAMES: [u8; 163] = [
    0x87, 0xCD, 0x00, 0xA3, 0x00, 0x0D, 0x11, 0x81, 0x8B, 0x00, 0x12, 0x00, 0xC8, 0x53, 0x79, 0x73,
    0x47, 0xEF, 0x30, 0x8C, 0x76, 0x10, 0x8E, 0x00, 0x0B, 0x86, 0x01, 0x10, 0x3F, 0x8A, 0x25, 0x68,
    0x8E, 0x00, 0x10, 0x10, 0x8E, 0x00, 0x50, 0x4F, 0x10, 0x3F, 0x8B, 0x25, 0x5B, 0x10, 0x9F, 0x01,
    0x30, 0x8C, 0x63, 0x86, 0x03, 0x10, 0x3F, 0x84, 0x24, 0x10, 0xC1, 0xD8, 0x26, 0x4A, 0x30, 0x8C,
    0x55, 0x86, 0x03, 0xC6, 0x03, 0x10, 0x3F, 0x83, 0x25, 0x3E, 0x97, 0x00, 0xC6, 0x02, 0x10, 0x3F,
    0x8D, 0x25, 0x35, 0x10, 0x3F, 0x88, 0x25, 0x30, 0x8E, 0x00, 0x10, 0x10, 0x9E, 0x01, 0x10, 0x3F,
    0x8C, 0x25, 0x25, 0x8E, 0x00, 0x00, 0xCE, 0x00, 0x00, 0x10, 0x3F, 0x88, 0x25, 0x1A, 0x96, 0x00,
    0x8E, 0x00, 0x10, 0x10, 0x8E, 0x00, 0x50, 0x10, 0x3F, 0x8B, 0x25, 0x07, 0x86, 0x01, 0x10, 0x3F,
    0x8C, 0x24, 0xEB, 0xC1, 0xD3, 0x26, 0x01, 0x5F, 0x10, 0x3F, 0x06, 0x59, 0x6F, 0x75, 0x72, 0x20,
    0x6E, 0x61, 0x6D, 0x65, 0x3F, 0x20, 0x2F, 0x44, 0x30, 0x2F, 0x4E, 0x41, 0x4D, 0x45, 0x53, 0x0D,
    0xB2, 0xDF, 0x59,
];

/// The smallest volume with a boot file of 163 bytes from sector 8 on, which is marked as used
/// (DD.BT at byte 21 of LSN 0, DD.BSZ at 24).
const BOOTABLE: [(usize, u8); 3] = [(23, 8), (25, 163), (257, 0x80)];

/// Where the boot file begins.
const BOOT_FILE: usize = 2048;

/// What a call of a program leaves.
#[derive(Drop)]
struct Shown {
    status: u8,
    out: Vec<u8>,
    err: Vec<u8>,
    files: Vec<HostFile>,
    calls: u64,
    /// How many bytes were out each time that the keyboard was asked.
    asked: Vec<usize>,
}

fn bootable(alloc: Global) -> Result<Vec<u8>, AllocError> {
    let mut image = changed(alloc, 4096, &BOOTABLE)?;
    for (to, byte) in image.iter_mut().skip(BOOT_FILE).zip(&NAMES) {
        *to = *byte;
    }
    Ok(image)
}

fn file(alloc: Global, name: &str, bytes: &[u8]) -> Result<HostFile, AllocError> {
    Ok(HostFile {
        name: String::from_str(alloc, name)?,
        bytes: Vec::from_slice(alloc, bytes)?,
    })
}

/// The bytes of a file; none if there is no such file.
fn bytes_of<'a>(files: &'a [HostFile], name: &str) -> &'a [u8] {
    for file in files {
        if file.name.as_str() == name {
            return file.bytes.as_slice();
        }
    }
    &[]
}

/// The words of a line: what is between its blanks.
fn words_of(alloc: Global, line: &str) -> Result<Vec<String>, AllocError> {
    let mut words = Vec::new(alloc);
    for word in line.split_whitespace() {
        words.push(String::from_str(alloc, word)?)?;
    }
    Ok(words)
}

/// A session in which these lines are typed, or without lines a call of the other program. The
/// calls of the host with these numbers fail.
fn call(
    alloc: Global,
    line: &str,
    typed: Option<&[&[u8]]>,
    files: Vec<HostFile>,
    plan: Vec<u64>,
) -> Result<Shown, AllocError> {
    let words = words_of(alloc, line)?;
    let mut drives: Vec<Box<dyn BlockDriver>> = Vec::new(alloc);
    add_drive(&mut drives, Box::new(alloc, SureDrive::new())?)?;
    add_drive(&mut drives, Box::new(alloc, SureDrive::new())?)?;
    add_drive(&mut drives, Box::new(alloc, SureDrive::new())?)?;
    add_drive(&mut drives, Box::new(alloc, SureDrive::new())?)?;
    let mut terms: Vec<Box<dyn CharDriver>> = Vec::new(alloc);
    terms.push(Box::new(alloc, SureTty::new(alloc))?)?;
    let devices = Devices { drives, terms };
    let host = MemHost::new(alloc, files, plan);
    call_over(alloc, devices, &words, typed, host)
}

/// The same on these devices and this host.
fn call_over(
    alloc: Global,
    devices: Devices,
    words: &[String],
    typed: Option<&[&[u8]]>,
    host: MemHost,
) -> Result<Shown, AllocError>
    requires terminals { AreUnloaded (terminals_seen CharDriver-box devices) }
    requires drives { HaveRoom 4 (drives_seen BlockDriver-box devices) }
{
    let mut devices = devices;
    let mut host = host;
    let keyboard = SureKeyboard::new(alloc, copied(alloc, typed.unwrap_or(&[]))?);
    let mut console = Console::new(alloc, keyboard);
    let status = match typed {
        Some(_) => console_main(words, &mut console, &mut host, &mut devices),
        None => os9_main(alloc, words, &mut host, &mut devices),
    };
    Ok(Shown {
        status,
        out: host.out_bytes,
        err: host.err_bytes,
        files: host.files,
        calls: host.calls,
        asked: Vec::from_slice(alloc, console.keyboard.shown())?,
    })
}

/// The bytes of these lines.
fn copied(alloc: Global, lines: &[&[u8]]) -> Result<Vec<Vec<u8>>, AllocError> {
    let mut copies = Vec::new(alloc);
    for line in lines {
        copies.push(Vec::from_slice(alloc, *line)?)?;
    }
    Ok(copies)
}

/// The file of the session: its image.
fn image_file(alloc: Global, image: &[u8]) -> Result<Vec<HostFile>, AllocError> {
    let mut files = Vec::new(alloc);
    files.push(file(alloc, "v", image)?)?;
    Ok(files)
}

/// The files of the boot: the image as it was, and what the session recorded.
fn recorded(alloc: Global, image: &[u8], session: &Shown) -> Result<Vec<HostFile>, AllocError> {
    let mut files = Vec::new(alloc);
    files.push(file(alloc, "v", image)?)?;
    files.push(file(alloc, "r.script", bytes_of(&session.files, "r.script"))?)?;
    files.push(file(alloc, "r.slices", bytes_of(&session.files, "r.slices"))?)?;
    Ok(files)
}

#[test]
fn session_is_the_boot_over_its_record(rt: HostRuntime) -> Result<(), Fail> {
    let alloc = rt.alloc();
    let image = bootable(alloc)?;
    let files = image_file(alloc, &image)?;
    let none = Vec::new(alloc);
    let session = call(
        alloc,
        "v --record r",
        Some(&["Ada".as_bytes()]),
        files,
        none,
    )?;
    let words = "boot v --script r.script --slices r.slices";
    let files = recorded(alloc, &image, &session)?;
    let boot = call(alloc, words, None, files, Vec::new(alloc))?;
    assert_eq!(&rt; session.status, 0);
    assert_eq!(&rt; boot.status, 0);
    assert!(&rt; session.out.as_slice() == boot.out.as_slice());
    assert!(&rt; bytes_of(&session.files, "v") == bytes_of(&boot.files, "v"));
    assert!(&rt; bytes_of(&session.files, "v") != image.as_slice());
    Ok(())
}

#[test]
fn keyboard_at_its_end_leaves_the_prompt(rt: HostRuntime) -> Result<(), Fail> {
    let alloc = rt.alloc();
    let files = image_file(alloc, &bootable(alloc)?)?;
    let none = Vec::new(alloc);
    let session = call(alloc, "v --record r", Some(&[]), files, none)?;
    assert_eq!(&rt; session.status, 5);
    assert!(&rt; session.out.as_slice() == "Your name? ".as_bytes());
    assert!(&rt; bytes_of(&session.files, "r.script").is_empty());
    assert!(&rt; session.asked.as_slice() == [11].as_slice());
    Ok(())
}

#[test]
fn line_is_asked_for_when_the_prompt_is_out(rt: HostRuntime) -> Result<(), Fail> {
    let alloc = rt.alloc();
    let files = image_file(alloc, &bootable(alloc)?)?;
    let none = Vec::new(alloc);
    let typed = ["Ada".as_bytes(), "Bob".as_bytes()];
    let session = call(alloc, "v", Some(&typed), files, none)?;
    assert_eq!(&rt; session.status, 0);
    assert!(&rt; session.asked.as_slice() == [11].as_slice());
    Ok(())
}

#[test]
fn refused_image_is_not_booted(rt: HostRuntime) -> Result<(), Fail> {
    let alloc = rt.alloc();
    let image = [0; 4096];
    let files = image_file(alloc, &image)?;
    let none = Vec::new(alloc);
    let shown = call(
        alloc,
        "v --record r",
        Some(&["Ada".as_bytes()]),
        files,
        none,
    )?;
    assert_eq!(&rt; shown.status, 6);
    assert!(&rt; shown.asked.is_empty());
    assert!(&rt; bytes_of(&shown.files, "v") == image.as_slice());
    assert!(&rt; bytes_of(&shown.files, "r.slices").is_empty());
    Ok(())
}

/// A session in which this line is typed is the boot over its record, whose script has this
/// number of lines and this end.
fn check_line(
    alloc: Global,
    rt: &impl Abort,
    line: &'static [u8],
    count: usize,
    end: &[u8],
) -> Result<(), Fail> {
    let image = bootable(alloc)?;
    let files = image_file(alloc, &image)?;
    let none = Vec::new(alloc);
    let session = call(alloc, "v --record r", Some(&[line]), files, none)?;
    let words = "boot v --script r.script --slices r.slices";
    let files = recorded(alloc, &image, &session)?;
    let boot = call(alloc, words, None, files, Vec::new(alloc))?;
    let script = bytes_of(&session.files, "r.script");
    assert_eq!(rt; session.status, 0);
    assert_eq!(rt; boot.status, 0);
    assert!(rt; session.out.as_slice() == boot.out.as_slice());
    assert!(rt; bytes_of(&session.files, "v") == bytes_of(&boot.files, "v"));
    assert_eq!(rt; script.iter().filter(|byte| **byte == b'\n').count(), count);
    assert!(rt; script.ends_with(end));
    Ok(())
}

#[test]
fn bytes_above_7f_are_typed(rt: HostRuntime) -> Result<(), Fail> {
    check_line(
        rt.alloc(),
        &rt,
        "Zo\u{eb}".as_bytes(),
        1,
        b" 5A 6F C3 AB 0D\n",
    )
}

#[test]
fn long_line_is_typed_in_parts(rt: HostRuntime) -> Result<(), Fail> {
    check_line(rt.alloc(), &rt, &[b'x'; 300], 3, b" 78 78 0D\n")
}

#[test]
fn line_of_one_part_has_its_end_in_the_next(rt: HostRuntime) -> Result<(), Fail> {
    check_line(rt.alloc(), &rt, &[b'x'; 128], 2, b" TERM 0D\n")
}

#[test]
fn record_that_cannot_be_written_is_told(rt: HostRuntime) -> Result<(), Fail> {
    let alloc = rt.alloc();
    let image = bootable(alloc)?;
    let files = image_file(alloc, &image)?;
    let none = Vec::new(alloc);
    let whole = call(
        alloc,
        "v --record r",
        Some(&["Ada".as_bytes()]),
        files,
        none,
    )?;
    // The last call but one writes the script.
    let mut plan = Vec::new(alloc);
    plan.push(whole.calls.saturating_sub(1))?;
    let files = image_file(alloc, &image)?;
    let broken = call(
        alloc,
        "v --record r",
        Some(&["Ada".as_bytes()]),
        files,
        plan,
    )?;
    assert_eq!(&rt; broken.status, 3);
    assert!(&rt; broken.err.as_slice() == "os9: cannot write r.script\n".as_bytes());
    assert!(&rt; bytes_of(&broken.files, "v") == bytes_of(&whole.files, "v"));
    assert!(&rt; bytes_of(&broken.files, "r.slices").is_empty());
    Ok(())
}

#[test]
fn record_over_an_image_is_refused(rt: HostRuntime) -> Result<(), Fail> {
    let alloc = rt.alloc();
    let image = bootable(alloc)?;
    let mut files = Vec::new(alloc);
    files.push(file(alloc, "r.slices", &image)?)?;
    let none = Vec::new(alloc);
    let shown = call(
        alloc,
        "r.slices --record r",
        Some(&["Ada".as_bytes()]),
        files,
        none,
    )?;
    assert_eq!(&rt; shown.status, 1);
    assert_eq!(&rt; shown.calls, 1);
    assert!(&rt; bytes_of(&shown.files, "r.slices") == image.as_slice());
    Ok(())
}
