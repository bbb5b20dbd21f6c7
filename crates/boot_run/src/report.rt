//! The line that says why a command ended.

ghost use Rattle.std.specs.Prelude.{◌≡◌};
ghost use Rattle.os9_words.specs.Streams.{WritesErr};
ghost use Rattle.boot_run.specs.EndLines.{end_line, text_of};

use crate::status::End;
use asm6809::error_number;
use os9_outer::host::{Host, HostFault};
use os9_words::message::{Message, report};

/// Writes to the error stream why a command ended, if a message says so. `name` is the name of the
/// file that the line names ([`End::named`]); if it names none, `name` is not used.
///
/// # Errors
///
/// The line is not whole on the error stream: only its first bytes, or none, were written.
pub fn report_end<H: Host>(host: &mut H, end: End, name: &str) -> Result<(), HostFault>
    ensures { WritesErr H.Host (end_line name.now end) result host.old host.new }
{
    match message_of(end, name) {
        Some(message) => report(host, &message),
        None => Ok(()),
    }
}

/// The message that says why the command ended, if there is one.
fn message_of<'a>(end: End, name: &'a str) -> Option<Message<'a>>
    ensures { text_of result ≡ end_line name.now end }
{
    match end {
        End::CannotRead(_) => Some(Message::CannotRead(name)),
        End::CannotWrite => Some(Message::CannotWrite),
        End::CannotWriteImage(_) | End::CannotWriteFile => Some(Message::CannotWriteFile(name)),
        End::NoMemory => Some(Message::NoMemory),
        End::BadImage(_, fault) => Some(Message::BadImage(name, fault.rule, fault.lsn)),
        End::BadText(_, line) => Some(Message::BadText(name, line)),
        End::BadBounds => Some(Message::BadBounds),
        End::BadModule(at, error) => Some(Message::BadModule(at, error)),
        End::NoFirst => Some(Message::NoFirst),
        End::TooLarge => Some(Message::TooLarge),
        End::DriveFailed(drive, number) => Some(Message::DriveFailed(drive, number)),
        End::Refused(number) => Some(Message::Refused(name, number)),
        End::BadSource(line, error) => Some(Message::BadSource(name, line, error_number(error))),
        End::TerminalFailed(terminal) => Some(Message::TerminalFailed(terminal)),
        End::Ended | End::Living => None,
    }
}
