ghost use Rattle.std.specs.Prelude.{◌≡◌, None};
ghost use Rattle.io_model.specs.Edit.{cleared, no_line};

use io_model::terminal::Reading;
use line_edit::line::Line;

/// The unfinished read of a terminal, and the line that its keys make (Level Two manual, SCF).
#[derive(Drop)]
pub(crate) struct Unfinished {
    pub(crate) line: Line,
    pub(crate) reading: Option<Reading>,
}

impl Unfinished {
    // No read is unfinished.
    pub(crate) fn none() -> Unfinished
        ensures line { result.line ≡ no_line }
        ensures none { result.reading ≡ None }
    {
        Unfinished {
            line: Line::new(),
            reading: None,
        }
    }

    // Drops the read, if there is one, and clears its line.
    pub(crate) fn drop_read(&mut self)
        ensures line { self.new.line ≡ cleared self.old.line }
        ensures none { self.new.reading ≡ None }
    {
        self.line.clear();
        self.reading = None;
    }
}
