ghost use Rattle.os9_words.specs.Lines.{boot_module_line, drive_failed_line, image_fault_line, message_line, refused_line, source_fault_line, terminal_failed_line, text_fault_line};
ghost use Rattle.os9_words.specs.Streams.{WritesErr};

use crate::pieces::{report_pieces, report_text};
use itoa::Buffer;
use os9_outer::host::{Host, HostFault};

/// A message on the error stream (this project's own). Each is one line, with its numbers in
/// decimal digits.
#[derive(Clone, Copy, Debug, PartialEq, Eq)]
pub enum Message<'a> {
    /// The words are not a command line: `os9: words`.
    Words,
    /// The file of this name could not be read: `os9: cannot read NAME`.
    CannotRead(&'a str),
    /// The output stream could not be written: `os9: cannot write output`.
    CannotWrite,
    /// The file of this name could not be written: `os9: cannot write NAME`.
    CannotWriteFile(&'a str),
    /// Out of memory: `os9: no memory`.
    NoMemory,
    /// The image in the file of this name breaks this rule at the sector of this number:
    /// `os9: NAME: rule R at LSN L`.
    BadImage(&'a str, u8, u32),
    /// The line of this number, from 1, of the text in the file of this name is the first that
    /// breaks a rule: `os9: NAME: line L`.
    BadText(&'a str, u64),
    /// The boot file of an image is empty or does not lie within the volume: `os9: boot bounds`.
    BadBounds,
    /// The module that begins at this byte of the boot file is refused with this error:
    /// `os9: boot module E at O`.
    BadModule(u32, u8),
    /// The boot file is too long, or it needs, with the data area of its program, more than eight
    /// slots: `os9: boot too large`.
    TooLarge,
    /// The boot file has no program `SysGo`: `os9: boot no SysGo`.
    NoFirst,
    /// The drive of this number, from 0, failed with the fault of this number: `os9: drive D: E`.
    DriveFailed(u8, u8),
    /// The source in the file of this name is refused. The line, from 1, or 0 for the whole source,
    /// and the number of the fault: `os9: NAME: line L error K`.
    BadSource(&'a str, u64, u8),
    /// A tool for the image in the file of this name is refused with this error:
    /// `os9: NAME: error E`.
    Refused(&'a str, u8),
    /// The terminal of this number, from 0, failed: `os9: terminal D`.
    TerminalFailed(u8),
}

/// Writes the line of a message to the error stream.
///
/// # Errors
///
/// Those of [`Host::err`], each counted as a fault of the error stream. A part of the line may
/// already be written.
pub fn report<H: Host>(host: &mut H, message: &Message) -> Result<(), HostFault>
    ensures { WritesErr H.Host (message_line message.now) result host.old host.new }
{
    match message {
        Message::Words => report_text(host, b"os9: words\n"),
        Message::CannotRead(name) => {
            report_pieces(host, &[b"os9: cannot read ", name.as_bytes(), b"\n"])
        }
        Message::CannotWrite => report_text(host, b"os9: cannot write output\n"),
        Message::CannotWriteFile(name) => {
            report_pieces(host, &[b"os9: cannot write ", name.as_bytes(), b"\n"])
        }
        Message::NoMemory => report_text(host, b"os9: no memory\n"),
        Message::BadImage(name, rule, lsn) => report_bad_image(host, name, *rule, *lsn),
        Message::BadText(name, line) => report_bad_text(host, name, *line),
        Message::BadBounds => report_text(host, b"os9: boot bounds\n"),
        Message::BadModule(at, error) => report_bad_module(host, *at, *error),
        Message::TooLarge => report_text(host, b"os9: boot too large\n"),
        Message::NoFirst => report_text(host, b"os9: boot no SysGo\n"),
        Message::DriveFailed(drive, fault) => report_drive_failed(host, *drive, *fault),
        Message::BadSource(name, line, error) => report_bad_source(host, name, *line, *error),
        Message::Refused(name, error) => report_refused(host, name, *error),
        Message::TerminalFailed(terminal) => report_terminal_failed(host, *terminal),
    }
}

/// Writes that an image breaks a rule.
fn report_bad_image<H: Host>(host: &mut H, name: &str, rule: u8, lsn: u32) -> Result<(), HostFault>
    ensures { WritesErr H.Host (image_fault_line name.now rule lsn) result host.old host.new }
{
    let mut rule_text = Buffer::new();
    let mut lsn_text = Buffer::new();
    report_pieces(
        host,
        &[
            b"os9: ",
            name.as_bytes(),
            b": rule ",
            rule_text.format(rule).as_bytes(),
            b" at LSN ",
            lsn_text.format(lsn).as_bytes(),
            b"\n",
        ],
    )
}

/// Writes that a text breaks a rule.
fn report_bad_text<H: Host>(host: &mut H, name: &str, line: u64) -> Result<(), HostFault>
    ensures { WritesErr H.Host (text_fault_line name.now line) result host.old host.new }
{
    let mut line_text = Buffer::new();
    report_pieces(
        host,
        &[
            b"os9: ",
            name.as_bytes(),
            b": line ",
            line_text.format(line).as_bytes(),
            b"\n",
        ],
    )
}

/// Writes that a module of the boot file is refused.
fn report_bad_module<H: Host>(host: &mut H, at: u32, error: u8) -> Result<(), HostFault>
    ensures { WritesErr H.Host (boot_module_line at error) result host.old host.new }
{
    let mut error_text = Buffer::new();
    let mut at_text = Buffer::new();
    report_pieces(
        host,
        &[
            b"os9: boot module ",
            error_text.format(error).as_bytes(),
            b" at ",
            at_text.format(at).as_bytes(),
            b"\n",
        ],
    )
}

/// Writes that a drive failed.
fn report_drive_failed<H: Host>(host: &mut H, drive: u8, fault: u8) -> Result<(), HostFault>
    ensures { WritesErr H.Host (drive_failed_line drive fault) result host.old host.new }
{
    let mut drive_text = Buffer::new();
    let mut fault_text = Buffer::new();
    report_pieces(
        host,
        &[
            b"os9: drive ",
            drive_text.format(drive).as_bytes(),
            b": ",
            fault_text.format(fault).as_bytes(),
            b"\n",
        ],
    )
}

/// Writes that a source is refused.
fn report_bad_source<H: Host>(
    host: &mut H,
    name: &str,
    line: u64,
    error: u8,
) -> Result<(), HostFault>
    ensures { WritesErr H.Host (source_fault_line name.now line error) result host.old host.new }
{
    let mut line_text = Buffer::new();
    let mut error_text = Buffer::new();
    report_pieces(
        host,
        &[
            b"os9: ",
            name.as_bytes(),
            b": line ",
            line_text.format(line).as_bytes(),
            b" error ",
            error_text.format(error).as_bytes(),
            b"\n",
        ],
    )
}

/// Writes that a tool for an image is refused.
fn report_refused<H: Host>(host: &mut H, name: &str, error: u8) -> Result<(), HostFault>
    ensures { WritesErr H.Host (refused_line name.now error) result host.old host.new }
{
    let mut error_text = Buffer::new();
    report_pieces(
        host,
        &[
            b"os9: ",
            name.as_bytes(),
            b": error ",
            error_text.format(error).as_bytes(),
            b"\n",
        ],
    )
}

/// Writes that a terminal failed.
fn report_terminal_failed<H: Host>(host: &mut H, terminal: u8) -> Result<(), HostFault>
    ensures { WritesErr H.Host (terminal_failed_line terminal) result host.old host.new }
{
    let mut text = Buffer::new();
    report_pieces(
        host,
        &[b"os9: terminal ", text.format(terminal).as_bytes(), b"\n"],
    )
}
