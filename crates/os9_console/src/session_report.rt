//! The status, and the line that says why a session ended, or was not recorded.

ghost use Rattle.std.specs.Prelude.{◌≡◌, []};
ghost use Rattle.std.specs.Option.{option_map_or};
ghost use Rattle.os9_words.specs.Streams.{WritesErr};
ghost use Rattle.boot_run.specs.End.{named_by};
ghost use Rattle.os9_console.specs.TopCall.{console_line, console_status, name_of, too_long_line};

use crate::record::Recording;
use boot_run::names::name_in;
use boot_run::report::report_end;
use boot_run::status::End;
use os9_outer::host::{Host, HostFault};
use os9_words::command::RunWords;
use os9_words::message::{Message, report};

/// The line that says that a session is not recorded.
const TOO_LONG: &[u8] = b"os9: the session is too long to be recorded\n";

/// The status of a session that ended so and was recorded so.
pub(crate) fn console_number(end: End, recording: Recording) -> u8
    ensures { result ≡ console_status end recording }
{
    match recording {
        Recording::Unwritten(_) => End::CannotWriteFile.number(),
        Recording::NoMemory => End::NoMemory.number(),
        Recording::Unasked | Recording::Written | Recording::TooLong => end.number(),
    }
}

/// Writes to the error stream why a session ended, or was not recorded, if a message says so.
///
/// # Errors
///
/// The line is not whole on the error stream: of its bytes the first ones are there, or none.
pub(crate) fn report_session<H: Host>(
    host: &mut H,
    boot: &RunWords,
    end: End,
    recording: Recording,
) -> Result<(), HostFault>
    ensures { WritesErr H.Host (console_line boot.now end recording) result host.old host.new }
{
    match recording {
        Recording::TooLong => report_too_long(host),
        Recording::Unwritten(input) => {
            report(host, &Message::CannotWriteFile(name_in(boot, input)))
        }
        Recording::NoMemory => report(host, &Message::NoMemory),
        Recording::Unasked | Recording::Written => report_end(host, end, end_name(boot, end)),
    }
}

/// Writes to the error stream that a session is too long to be recorded.
fn report_too_long<H: Host>(host: &mut H) -> Result<(), HostFault>
    ensures { WritesErr H.Host too_long_line result host.old host.new }
{
    host.err(TOO_LONG)
}

/// The name of the file of which the line of an end speaks; empty if it speaks of none.
fn end_name(boot: &RunWords, end: End) -> &str
    ensures { result.now ≡ option_map_or (name_of boot.now) (named_by end) [] }
{
    match end.named() {
        Some(input) => name_in(boot, input),
        None => "",
    }
}
