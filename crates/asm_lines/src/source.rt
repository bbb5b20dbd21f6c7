ghost use Rattle.std.specs.Prelude.{◌≡◌, map, IfOk};
ghost use Rattle.asm_model.specs.Statements.{source_lines};
ghost use Rattle.asm_lines.specs.Lines.{line_said};

use crate::line::{Line, read_line};
use std::alloc::{AllocError, Global};

/// Reads the lines of a source, in order. Each ends with a line feed; the last line may lack it.
///
/// It takes memory once for each line, and none for its texts.
///
/// # Errors
///
/// Out of memory alone.
pub fn read_lines(alloc: Global, source: &[u8]) -> Result<Vec<Line<'_>>, AllocError>
    ensures { IfOk result (λ lines. map line_said lines.items ≡ source_lines source.now) }
{
    let mut lines = Vec::new(alloc);
    for line in source.split(|c| *c == b'\n') {
        lines.push(read_line(line))?;
    }
    Ok(lines)
}
