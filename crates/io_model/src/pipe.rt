//! The answers of a pipe, with worked cases, and the law that what is read is what was written.

ghost use Rattle.std.specs.Prelude.{◌≡◌, ℕ, true, false, List, [], ◌∷◌, ◌++◌, ◌≤◌, length, take, replicate};
ghost use Rattle.std.specs.List.{flat_map};
ghost use Rattle.io_model.specs.Pipe.{Movement, came_in, went_out, Flows, read_answer, read_line_answer, write_answer, left_by, added_to, bytes_moved};
ghost use Rattle.io_model.specs.declared.pipe.PipeAns.TheVariants.{Done, Wait, End, NoReader};

/// The maximum number of bytes that a pipe holds (this project's own).
pub const PIPE_BYTES: usize = 256;

/// The number of a pipe, from 1 to 16.
#[derive(Clone, Copy, Debug, PartialEq, Eq)]
pub struct PipeId(pub u8);

/// How an attempt of a read or a write of a pipe ended.
#[derive(Clone, Copy, Debug, PartialEq, Eq)]
pub enum PipeAns {
    /// This number of bytes was moved, at least one.
    Done(u16),
    /// No byte can be moved until another process writes or reads.
    Wait,
    /// The pipe is empty, and every other process that holds it waits for a byte too.
    End,
    /// The pipe is full, and every other process that holds it waits for room too.
    NoReader,
}

/// What is read from a pipe is what was written into it, in order, with any sizes of reads and
/// writes: the bytes held before and all bytes put in are all bytes taken out and the bytes held
/// now.
pub fn reads_what_was_written()
    ensures { (movements : List Movement) (held now : List ℕ) → Flows movements held now →
        held ++ flat_map came_in movements ≡ flat_map went_out movements ++ now }
{}

/// A writer writes 300 bytes into a pipe that a reader holds too, and exits: the answer to each
/// attempt of the two.
pub fn pipe_transfer()
    ensures first_write { write_answer [] false 300 ≡ Done 256 }
    ensures full { write_answer (replicate 256 1) false 44 ≡ Wait }
    ensures first_read { read_answer (replicate 256 1) false 512 ≡ Done 256 }
    ensures emptied { left_by (Done 256) (replicate 256 1) ≡ [] }
    ensures second_write { write_answer [] false 44 ≡ Done 44 }
    ensures second_read { read_answer (replicate 44 1) false 512 ≡ Done 44 }
    ensures nothing_yet { read_answer [] false 512 ≡ Wait }
    ensures end_of_file { read_answer [] true 512 ≡ End }
{}

/// A process alone holds a pipe. It reads the empty pipe, fills it, and writes one more byte.
pub fn pipe_alone()
    ensures empty { read_answer [] true 1 ≡ End }
    ensures empty_line { read_line_answer [] true 80 ≡ End }
    ensures filled { write_answer [] true 256 ≡ Done 256 }
    ensures full { write_answer (replicate 256 1) true 1 ≡ NoReader }
    ensures stays { added_to NoReader (2 ∷ []) (replicate 256 1) ≡ replicate 256 1 }
{}

/// A line read takes the first line up to and with its carriage return, or the number of bytes that
/// it asks for.
pub fn pipe_lines()
    ensures line { read_line_answer (97 ∷ 13 ∷ 98 ∷ 13 ∷ []) false 80 ≡ Done 2 }
    ensures bytes { bytes_moved (Done 2) (97 ∷ 13 ∷ 98 ∷ 13 ∷ []) ≡ 97 ∷ 13 ∷ [] }
    ensures rest { left_by (Done 2) (97 ∷ 13 ∷ 98 ∷ 13 ∷ []) ≡ 98 ∷ 13 ∷ [] }
    ensures no_return { read_line_answer (97 ∷ 98 ∷ []) false 80 ≡ Done 2 }
    ensures short { read_line_answer (97 ∷ 98 ∷ 13 ∷ []) false 2 ≡ Done 2 }
    ensures nothing { read_line_answer [] false 80 ≡ Wait }
{}
