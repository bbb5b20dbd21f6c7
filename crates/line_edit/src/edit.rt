ghost use Rattle.std.specs.Prelude.{◌≡◌, ℕ, ◌<◌, ◌≤◌, length};
ghost use Rattle.io_model.specs.Edit.{HasLineRoom, edited, backspaced, deleted, reprinted, duplicated, returned, typed_key, escaped};
ghost use Rattle.line_edit.specs.Echo.{echoed, IsEditResult};

use crate::copy::end_file;
use crate::edit_out::{EditOut, shown_byte};
use crate::line::Line;
use io_model::edit::LineEnd;
use io_model::keys::{BACKSPACE, DELETE_LINE, DUPLICATE, END_OF_FILE, REPRINT, RETURN};

/// A key of I$ReadLn (Level Two manual, SCF): changes the line, and returns what is put on the
/// terminal and whether the read has ended. `most` is the number of bytes that the read asks for,
/// from 1 to 256. The line must have room for at least one of them.
#[tactic(auto, using(io_model::proofs::RoomLemmas::edited_room), unfolding(io_model::specs::Edit::edited))]
pub fn edit(line: &mut Line, most: u16, key: u8) -> EditOut
    requires most { most ≤ 256 }
    requires room { length line.old.bytes < most }
    ensures line { line.new ≡ (edited most line.old key).line }
    ensures echo { echoed result ≡ (edited most line.old key).echo }
    ensures end { result.end ≡ (edited most line.old key).end }
    ensures fits { result.echo_len ≤ 1024 }
    ensures room { HasLineRoom most result.end line.new }
{
    match key {
        BACKSPACE => backspace(line),
        DELETE_LINE => delete_line(line),
        REPRINT => reprint(line),
        DUPLICATE => duplicate(line, most),
        RETURN => finish(line),
        END_OF_FILE => escape(line),
        _ => type_key(line, most, key),
    }
}

fn backspace(line: &mut Line) -> EditOut
    ensures { IsEditResult (backspaced line.old) line.new result }
{
    let mut out = EditOut::silent();
    out.rub_out(&line.as_slice()[..usize::from(line.len().min(1))]);
    line.pop();
    out
}

fn delete_line(line: &mut Line) -> EditOut
    ensures { IsEditResult (deleted line.old) line.new result }
{
    let mut out = EditOut::silent();
    out.rub_out(line.as_slice());
    line.clear();
    out
}

fn reprint(line: &Line) -> EditOut
    ensures { IsEditResult (reprinted line.now) line.now result }
{
    let mut out = EditOut::silent();
    out.next_line();
    out.show(line.as_slice());
    out
}

fn duplicate(line: &mut Line, most: u16) -> EditOut
    requires { length line.old.bytes < 256 }
    ensures { IsEditResult (duplicated most line.old) line.new result }
{
    let mut out = EditOut::silent();
    out.rub_out(line.as_slice());
    line.recall(most.saturating_sub(1));
    out.show(line.as_slice());
    out
}

fn finish(line: &mut Line) -> EditOut
    requires { length line.old.bytes < 256 }
    ensures { IsEditResult (returned line.old) line.new result }
{
    let mut out = EditOut::silent();
    out.next_line();
    out.end = Some(LineEnd::Line);
    line.finish();
    out
}

fn escape(line: &Line) -> EditOut
    ensures { IsEditResult (escaped line.now) line.now result }
{
    if line.len() == 0 {
        end_file(line)
    } else {
        EditOut::bell()
    }
}

fn type_key(line: &mut Line, most: u16, key: u8) -> EditOut
    requires { most ≤ 256 }
    ensures { IsEditResult (typed_key most line.old key) line.new result }
{
    if line.len() >= most.saturating_sub(1) {
        return EditOut::bell();
    }
    let mut out = EditOut::silent();
    out.put(shown_byte(key));
    line.push(key);
    out
}
