ghost use Rattle.std.specs.Prelude.{◌≡◌, ◌<◌, ◌≤◌, length};
ghost use Rattle.io_model.specs.Edit.{HasLineRoom, copied, file_ended, moved};
ghost use Rattle.line_edit.specs.Echo.{echoed, IsEditResult};

use crate::edit_out::EditOut;
use crate::line::Line;
use io_model::edit::LineEnd;
use io_model::keys::{END_OF_FILE, RETURN};

/// A key of I$Read (Level Two manual, SCF): moves it to the line unchanged, and returns what is put
/// on the terminal and whether the read has ended. `most` is the number of bytes that the read asks
/// for, from 1 to 256. The line must have room for at least one of them.
#[tactic(auto, using(io_model::proofs::RoomLemmas::copied_room), unfolding(io_model::specs::Edit::copied))]
pub fn copy(line: &mut Line, most: u16, key: u8) -> EditOut
    requires most { most ≤ 256 }
    requires room { length line.old.bytes < most }
    ensures line { line.new ≡ (copied most line.old key).line }
    ensures echo { echoed result ≡ (copied most line.old key).echo }
    ensures end { result.end ≡ (copied most line.old key).end }
    ensures fits { result.echo_len ≤ 1024 }
    ensures room { HasLineRoom most result.end line.new }
{
    if key == END_OF_FILE && line.len() == 0 {
        end_file(line)
    } else {
        move_byte(line, most, key)
    }
}

// The end of the file.
pub(crate) fn end_file(line: &Line) -> EditOut
    ensures { IsEditResult (file_ended line.now) line.now result }
{
    let mut out = EditOut::silent();
    out.end = Some(LineEnd::EndOfFile);
    out
}

fn move_byte(line: &mut Line, most: u16, key: u8) -> EditOut
    requires { length line.old.bytes < 256 }
    ensures { IsEditResult (moved most line.old key) line.new result }
{
    let mut out = EditOut::silent();
    line.push(key);
    out.put(key);
    if key == RETURN || line.len() == most {
        out.end = Some(LineEnd::Line);
    }
    out
}
