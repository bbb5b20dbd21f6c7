ghost use Rattle.std.specs.Prelude.{◌≡◌, ◌<◌, ◌≤◌, IfOk, OnErr, length};
ghost use Rattle.os9_base.specs.Count.{Rose};
ghost use Rattle.os9_outer.specs.Terminal.{OnFault, UnlessFault};
ghost use Rattle.io_model.specs.Edit.{HasLineRoom};
ghost use Rattle.io_model.specs.Terminal.{key_effect, stored_over};
ghost use Rattle.line_edit.specs.Echo.{IsEditResult};
ghost use Rattle.terminal_mgr.specs.Term.{terminal_of, HasLine, lent_terminal_state};
ghost use Rattle.terminal_mgr.specs.Typing.{IsTyped, TypingBreaksOff, ReturnsProgress, refusal_answer};

use crate::driver::put_bytes;
use crate::type_ahead::TypeAhead;
use crate::unfinished::Unfinished;
use io_model::terminal::{Progress, ReadKind, Reading};
use line_edit::LineEnd;
use line_edit::copy::copy;
use line_edit::edit::edit;
use line_edit::edit_out::EditOut;
use line_edit::line::Line;
use os9_outer::terminal::{CharDriver, PutFault};

// A key of a read.
fn press(line: &mut Line, request: Reading, key: u8) -> EditOut
    requires most { request.most ≤ 256 }
    requires room { length line.old.bytes < request.most }
    ensures effect { IsEditResult (key_effect request line.old key) line.new result }
    ensures room { HasLineRoom request.most result.end line.new }
{
    match request.kind {
        ReadKind::Bytes => copy(line, request.most, key),
        ReadKind::WholeLine => edit(line, request.most, key),
    }
}

// Types the keys of the type-ahead until one ends the read or its echo is refused. None if no key
// did, and none is left.
pub(crate) fn type_keys(
    ahead: &mut TypeAhead,
    line: &mut Line,
    request: Reading,
    d: &mut dyn CharDriver,
) -> Result<Option<LineEnd>, PutFault>
    requires most { request.most ≤ 256 }
    requires room { length line.old.bytes < request.most }
    ensures typed { IfOk result (λ end. IsTyped request end line.old line.new ahead.old ahead.new
        (bytes_put d.old) (bytes_put d.new)) }
    ensures broken { OnErr result (TypingBreaksOff request line.old line.new ahead.old ahead.new
        (bytes_put d.old) (bytes_put d.new)) }
    ensures room { IfOk result (λ end. HasLineRoom request.most end line.new) }
    ensures within { length ahead.new ≤ 256 }
    ensures fault_counted { OnFault result (Rose (term_faults d.old) (term_faults d.new)) }
    ensures faults_kept { UnlessFault result (term_faults d.new ≡ term_faults d.old) }
    ensures never_falls { term_faults d.old ≤ term_faults d.new }
    ensures keys_kept { keys_left d.new ≡ keys_left d.old }
{
    while let Some(key) = ahead.next() {
        let out = press(line, request, key);
        match put_bytes(d, out.echo()) {
            Ok(()) => {}
            Err(refusal) => return Err(refusal),
        }
        match out.end {
            Some(end) => return Ok(Some(end)),
            None => {}
        }
    }
    Ok(None)
}

// Types the keys of the type-ahead for a read that waits for no other read, and ends it or leaves
// it unfinished.
pub(crate) fn read_keys(
    ahead: &mut TypeAhead,
    unfinished: &mut Unfinished,
    request: Reading,
    into: &mut [u8],
    d: &mut dyn CharDriver,
) -> Progress
    requires most { request.most ≤ 256 }
    requires room { length unfinished.old.line.bytes < request.most }
    requires buffer { request.most ≤ length into.old }
    ensures outcome { ReturnsProgress request result
        (terminal_of ahead.old unfinished.old.line unfinished.old.reading (Some request.process))
        (terminal_of ahead.new unfinished.new.line unfinished.new.reading (Some request.process))
        (lent_terminal_state CharDriver-dyn d.old)
        (lent_terminal_state CharDriver-dyn d.new) into.old into.new }
    ensures shape { HasLine unfinished.new.line unfinished.new.reading }
    ensures within { length ahead.new ≤ 256 }
{
    match type_keys(ahead, &mut unfinished.line, request, d) {
        Ok(None) => {
            unfinished.reading = Some(request);
            Progress::Wait
        }
        Ok(Some(LineEnd::EndOfFile)) => {
            unfinished.drop_read();
            Progress::End
        }
        Ok(Some(LineEnd::Line)) => {
            let count = store(&unfinished.line, into);
            unfinished.drop_read();
            Progress::Done(count)
        }
        Err(refusal) => {
            unfinished.drop_read();
            refused(refusal)
        }
    }
}

// Copies the line to the buffer's start, and returns its length.
fn store(line: &Line, into: &mut [u8]) -> u16
    requires { length line.now.bytes ≤ length into.old }
    ensures stored { into.new ≡ stored_over line.now.bytes into.old }
    ensures count { result ≡ length line.now.bytes }
{
    let bytes = line.as_slice();
    into[..bytes.len()].copy_from_slice(bytes);
    line.len()
}

// The answer of a call that had a byte refused.
pub(crate) fn refused(refusal: PutFault) -> Progress
    ensures { result ≡ refusal_answer refusal }
{
    match refusal {
        PutFault::Fault => Progress::Fault,
        PutFault::OutOfMemory => Progress::NoMemory,
    }
}
