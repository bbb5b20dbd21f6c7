//! How a command ended, and the line that says why.

ghost use Rattle.std.specs.Prelude.{◌≡◌};
ghost use Rattle.os9_words.specs.Streams.{WritesErr};
ghost use Rattle.os9_boot.specs.End.{stress_end};
ghost use Rattle.os9_boot.specs.EndLines.{end_line, end_name, shown_name};

use crate::{asm_name, vol_name};
use boot_run::names::name_in;
use boot_run::report;
use boot_run::status::{End, Input};
use os9_debug::debug_name;
use os9_outer::host::{Host, HostFault};
use os9_words::command::Command;
use stress_run::StressEnd;

/// The end of a command, by the end of its stress.
pub fn end_of_stress(end: StressEnd) -> End
    ensures { result ≡ stress_end end }
{
    match end {
        StressEnd::Ended => End::Ended,
        StressEnd::Living => End::Living,
        StressEnd::DriveFailed(drive, number) => End::DriveFailed(drive, number),
        StressEnd::OutputFailed => End::CannotWrite,
        StressEnd::NoMemory => End::NoMemory,
    }
}

/// Writes to the error stream why the command ended, if a message says so.
///
/// # Errors
///
/// The line is not whole on the error stream: only its first bytes, or none, were written.
pub fn report_end<H: Host>(host: &mut H, end: End, command: &Command) -> Result<(), HostFault>
    ensures { WritesErr H.Host (end_line command.now end) result host.old host.new }
{
    report::report_end(host, end, name_for(command, end))
}

/// The name of the file that the line of an end names; empty if it names none.
fn name_for(command: &Command, end: End) -> &str
    ensures { result.now ≡ end_name command.now end }
{
    match end.named() {
        Some(input) => name_of(command, input),
        None => "",
    }
}

/// The name of a file that the words give; empty if they give no such file.
fn name_of(command: &Command, input: Input) -> &str
    ensures { result.now ≡ shown_name command.now input }
{
    match command {
        Command::Check(image) => image.text(),
        Command::Run(run) => name_in(run, input),
        Command::Boot(run) => name_in(run, input),
        Command::Stress(_) => "",
        Command::Vol(vol) => vol_name(vol, input),
        Command::Asm(asm) => asm_name(asm, input),
        Command::Debug(debug) => debug_name(debug, input),
    }
}
