//! How a line ends, and line editing as laws over every list of keys.

ghost use Rattle.std.specs.Prelude.{◌≡◌, ℕ, ◌<◌, Some, None, List, [], ◌∷◌, ◌++◌, length, codes};
ghost use Rattle.io_model.specs.Edit.{Editing, Edited, HasLineRoom, typing, edited, copied, after_typing, used_up, no_line, refused_key, still_typing, file_ended, line_ended, line_done};

/// What ends a read of a terminal.
#[derive(Clone, Copy, Debug, PartialEq, Eq)]
pub enum LineEnd {
    /// A carriage return, or the last byte that the read asks for.
    Line,
    /// The end-of-file key with no byte before it.
    EndOfFile,
}

/// Keys in two parts have the same effect as all of them at once, for I$ReadLn, I$Read and any
/// other effect of keys: the second part goes on from the end of the first one.
pub fn typing_can_be_cut()
    ensures { (step : Editing → ℕ → Edited) (line : Editing) (first later : List ℕ) →
        typing step line (first ++ later) ≡ after_typing step (typing step line first) later }
{}

/// A read uses keys from the front of the list, and its effect is that of these keys alone. So each
/// key is used by one read, in order.
pub fn typing_uses_a_front()
    ensures { (step : Editing → ℕ → Edited) (line : Editing) (keys : List ℕ) →
        (used : List ℕ) × (keys ≡ used ++ (typing step line keys).left)
        × (typing step line used ≡ used_up (typing step line keys)) }
{}

/// A read that has not ended has used every key.
pub fn unended_typing_uses_all()
    ensures { (step : Editing → ℕ → Edited) (line : Editing) (keys : List ℕ) →
        (typing step line keys).end ≡ None → (typing step line keys).left ≡ [] }
{}

/// A line with room for a byte still has room after each key that does not end it.
pub fn typing_keeps_room()
    ensures whole_line { (most : ℕ) (line : Editing) (key : ℕ) → length line.bytes < most →
        HasLineRoom most (edited most line key).end (edited most line key).line }
    ensures bytes { (most : ℕ) (line : Editing) (key : ℕ) → length line.bytes < most →
        HasLineRoom most (copied most line key).end (copied most line key).line }
{}

/// Two lines, typed one after another: one with a byte erased, and one that is deleted and typed
/// again by one key.
pub fn line_editing()
    ensures first { typing (edited 80) no_line (97 ∷ 98 ∷ 120 ∷ 8 ∷ 99 ∷ 13 ∷ [])
        ≡ line_done (record { bytes = codes "abc" ++ 13 ∷ []; last = codes "abc" })
        (97 ∷ 98 ∷ 120 ∷ 8 ∷ 32 ∷ 8 ∷ 99 ∷ 13 ∷ 10 ∷ []) }
    ensures second { typing (edited 80) (record { bytes = []; last = codes "abc" })
        (122 ∷ 122 ∷ 24 ∷ 1 ∷ 13 ∷ [])
        ≡ line_done (record { bytes = codes "abc" ++ 13 ∷ []; last = codes "abc" })
        (122 ∷ 122 ∷ 8 ∷ 32 ∷ 8 ∷ 8 ∷ 32 ∷ 8 ∷ 97 ∷ 98 ∷ 99 ∷ 13 ∷ 10 ∷ []) }
{}

/// The end-of-file key ends the read if no byte is before it. It keeps the last line.
pub fn end_of_file_alone()
    ensures { typing (edited 80) (record { bytes = []; last = codes "abc" }) (27 ∷ [])
        ≡ record {
          line = record { bytes = []; last = codes "abc" };
          echo = [];
          end = Some LineEnd.EndOfFile;
          left = [];
        } }
{}

/// The keys of I$ReadLn that erase bytes, on a line of two bytes, the second of which is shown as a
/// dot, and on an empty line.
pub fn taking_back_keys()
    ensures backspace { edited 80 (record { bytes = 97 ∷ 2 ∷ []; last = [] }) 8
        ≡ still_typing (record { bytes = 97 ∷ []; last = [] }) (8 ∷ 32 ∷ 8 ∷ []) }
    ensures backspace_on_none { edited 80 no_line 8 ≡ still_typing no_line [] }
    ensures delete_line { edited 80 (record { bytes = 97 ∷ 2 ∷ []; last = [] }) 24
        ≡ still_typing no_line (8 ∷ 32 ∷ 8 ∷ 8 ∷ 32 ∷ 8 ∷ []) }
{}

/// The keys of I$ReadLn that show the line again, or type the last one again as far as it fits.
pub fn repeating_keys()
    ensures reprint { edited 80 (record { bytes = 97 ∷ 2 ∷ []; last = [] }) 4
        ≡ still_typing (record { bytes = 97 ∷ 2 ∷ []; last = [] }) (13 ∷ 10 ∷ 97 ∷ 46 ∷ []) }
    ensures duplicate { edited 80 (record { bytes = 97 ∷ []; last = 98 ∷ 127 ∷ [] }) 1
        ≡ still_typing (record { bytes = 98 ∷ 127 ∷ []; last = 98 ∷ 127 ∷ [] })
        (8 ∷ 32 ∷ 8 ∷ 98 ∷ 46 ∷ []) }
    ensures duplicate_of_more { edited 3 (record { bytes = []; last = codes "wxyz" }) 1
        ≡ still_typing (record { bytes = codes "wx"; last = codes "wxyz" }) (codes "wx") }
{}

/// The end-of-file key of I$ReadLn ends the read of an empty line, and is refused in a line with
/// bytes.
pub fn end_of_file_key()
    ensures end_of_file { edited 80 no_line 27 ≡ file_ended no_line }
    ensures end_of_file_in_a_line { edited 80 (record { bytes = 97 ∷ []; last = [] }) 27
        ≡ refused_key (record { bytes = 97 ∷ []; last = [] }) }
{}

/// Any other key of I$ReadLn is typed. A control key is shown as a dot.
pub fn typed_keys()
    ensures letter { edited 80 no_line 97
        ≡ still_typing (record { bytes = 97 ∷ []; last = [] }) (97 ∷ []) }
    ensures zero { edited 80 no_line 0
        ≡ still_typing (record { bytes = 0 ∷ []; last = [] }) (46 ∷ []) }
    ensures last_control { edited 80 no_line 31
        ≡ still_typing (record { bytes = 31 ∷ []; last = [] }) (46 ∷ []) }
    ensures delete { edited 80 no_line 127
        ≡ still_typing (record { bytes = 127 ∷ []; last = [] }) (46 ∷ []) }
    ensures above { edited 80 no_line 128
        ≡ still_typing (record { bytes = 128 ∷ []; last = [] }) (128 ∷ []) }
{}

/// A key of I$ReadLn is typed only while the line has room for it and for the carriage return that
/// ends the line.
pub fn typed_up_to_the_room()
    ensures last_place { edited 3 (record { bytes = 97 ∷ []; last = [] }) 98
        ≡ still_typing (record { bytes = codes "ab"; last = [] }) (98 ∷ []) }
    ensures full { edited 3 (record { bytes = codes "ab"; last = [] }) 99
        ≡ still_typing (record { bytes = codes "ab"; last = [] }) (7 ∷ []) }
    ensures return_alone { edited 1 no_line 13
        ≡ line_ended (record { bytes = 13 ∷ []; last = [] }) (13 ∷ 10 ∷ []) }
{}

/// The keys of I$Read are moved unchanged, and the last finished line stays. A carriage return or
/// the last byte ends the read.
pub fn copied_keys()
    ensures control { copied 80 (record { bytes = []; last = codes "abc" }) 8
        ≡ still_typing (record { bytes = 8 ∷ []; last = codes "abc" }) (8 ∷ []) }
    ensures return_key { copied 80 (record { bytes = codes "x"; last = codes "abc" }) 13
        ≡ line_ended (record { bytes = 120 ∷ 13 ∷ []; last = codes "abc" }) (13 ∷ []) }
    ensures last_byte { copied 2 (record { bytes = codes "x"; last = codes "abc" }) 121
        ≡ line_ended (record { bytes = codes "xy"; last = codes "abc" }) (121 ∷ []) }
{}

/// The end-of-file key of I$Read ends the read if no byte is before it. Otherwise it is moved like
/// any other key.
pub fn copied_end_of_file()
    ensures end_of_file { copied 80 (record { bytes = []; last = codes "abc" }) 27
        ≡ file_ended (record { bytes = []; last = codes "abc" }) }
    ensures later_end_of_file { copied 80 (record { bytes = codes "x"; last = [] }) 27
        ≡ still_typing (record { bytes = 120 ∷ 27 ∷ []; last = [] }) (27 ∷ []) }
{}
