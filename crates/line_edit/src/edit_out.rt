ghost use Rattle.std.specs.Prelude.{◌≡◌, ◌+◌, ◌*◌, ◌≤◌, ◌<◌, [], ◌∷◌, ◌++◌, None, length, map};
ghost use Rattle.io_model.specs.Edit.{screen_byte, rubouts};
ghost use Rattle.line_edit.specs.Echo.{echoed};

use io_model::edit::LineEnd;
use io_model::keys::{BACKSPACE, BELL, DELETE, DOT, LINE_FEED, RETURN, SPACE};

/// What a key does in addition to changing the line.
#[derive(Clone, Copy, Debug)]
pub struct EditOut {
    /// The bytes to put on the terminal are the first `echo_len` of these.
    pub echo: [u8; 1024],
    pub echo_len: u16,
    /// How the key ended the read, if it did.
    pub end: Option<LineEnd>,
}

impl EditOut {
    /// The bytes to put on the terminal.
    pub fn echo(&self) -> &[u8]
        requires { self.now.echo_len ≤ 1024 }
        ensures { result.now ≡ echoed self.now }
    {
        &self.echo[..usize::from(self.echo_len)]
    }

    // Nothing is put, and typing goes on.
    pub(crate) fn silent() -> EditOut
        ensures nothing { echoed result ≡ [] }
        ensures empty { result.echo_len ≡ 0 }
        ensures no_end { result.end ≡ None }
    {
        EditOut {
            echo: [0; 1024],
            echo_len: 0,
            end: None,
        }
    }

    // The key is not taken.
    pub(crate) fn bell() -> EditOut
        ensures rung { echoed result ≡ 7 ∷ [] }
        ensures len { result.echo_len ≡ 1 }
        ensures no_end { result.end ≡ None }
    {
        let mut out = EditOut::silent();
        out.put(BELL);
        out
    }

    pub(crate) fn put(&mut self, byte: u8)
        requires { self.old.echo_len < 1024 }
        ensures put { echoed self.new ≡ echoed self.old ++ byte ∷ [] }
        ensures len { self.new.echo_len ≡ self.old.echo_len + 1 }
        ensures end { self.new.end ≡ self.old.end }
    {
        self.echo[usize::from(self.echo_len)] = byte;
        self.echo_len += 1;
    }

    // Moves to the next line of the screen.
    pub(crate) fn next_line(&mut self)
        requires { self.old.echo_len + 2 ≤ 1024 }
        ensures put { echoed self.new ≡ echoed self.old ++ 13 ∷ 10 ∷ [] }
        ensures len { self.new.echo_len ≡ self.old.echo_len + 2 }
        ensures end { self.new.end ≡ self.old.end }
    {
        self.put(RETURN);
        self.put(LINE_FEED);
    }

    // Erases these bytes on the screen.
    pub(crate) fn rub_out(&mut self, bytes: &[u8])
        requires { self.old.echo_len + 3 * length bytes.now ≤ 1024 }
        ensures put { echoed self.new ≡ echoed self.old ++ rubouts bytes.now }
        ensures len { self.new.echo_len ≡ self.old.echo_len + 3 * length bytes.now }
        ensures end { self.new.end ≡ self.old.end }
    {
        for _ in bytes {
            self.put(BACKSPACE);
            self.put(SPACE);
            self.put(BACKSPACE);
        }
    }

    // Shows these bytes of a line.
    pub(crate) fn show(&mut self, bytes: &[u8])
        requires { self.old.echo_len + length bytes.now ≤ 1024 }
        ensures put { echoed self.new ≡ echoed self.old ++ map screen_byte bytes.now }
        ensures len { self.new.echo_len ≡ self.old.echo_len + length bytes.now }
        ensures end { self.new.end ≡ self.old.end }
    {
        for byte in bytes {
            self.put(shown_byte(*byte));
        }
    }
}

// A byte of a line as the screen shows it: a dot for a control character.
pub(crate) fn shown_byte(byte: u8) -> u8
    ensures { result ≡ screen_byte byte }
{
    if byte < SPACE || byte == DELETE {
        DOT
    } else {
        byte
    }
}
