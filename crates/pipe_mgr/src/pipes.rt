ghost use Rattle.std.specs.Prelude.{◌≡◌, ℕ, ◌<◌, ◌≤◌, Some, None, option_map, IfOk, IfSome, length, replicate};
ghost use Rattle.io_model.specs.Pipe as model;
ghost use Rattle.io_model.specs.Pipe.{IsPipe, ArePipes, held_bytes, with_pipe, without_pipe, pipes_after_begin, read_answer, read_line_answer, write_answer, left_by, added_to, buffer_after_read};

use crate::pipe::Pipe;
use io_model::pipe::{PipeAns, PipeId};
use os9_base::call::OutOfMemory;
use std::alloc::{AllocError, Global};
use std::marker::Model;

/// Places for pipes, by number from 0; no pipe has the number 0.
const PLACES: usize = 17;

/// Up to 16 pipes of 256 bytes, by number from 1 to 16 (Level Two manual, "Pipes"; their number and
/// length are this project's own). Only [`Pipes::new`] takes memory.
#[derive(Drop)]
pub struct Pipes {
    pipes: Vec<Pipe>,
}

impl Model for Pipes {
    ghost use Rattle.std.specs.Prelude.{ℕ, List, Option};
    ghost use Rattle.io_model.specs.Pipe.{ArePipes};

    ghost Value = { List (Option (List ℕ)) };

    ghost view = { λ p. p.pipes.items };

    ghost invariant = { λ p. ArePipes p.pipes.items };
}

impl Pipes {
    /// No pipe.
    pub fn new(alloc: Global) -> Result<Pipes, OutOfMemory>
        ensures { IfOk result (λ pipes. pipes ≡ replicate 17 None) }
    {
        Ok(Pipes {
            pipes: closed_pipes(alloc)?,
        })
    }

    /// Makes an empty pipe with the least free number. None if there are 16 pipes.
    pub fn begin(&mut self) -> Option<PipeId>
        ensures number { option_map (λ id. id.0) result ≡ model.free_pipe self.old }
        ensures made { self.new ≡ pipes_after_begin self.old }
        ensures shape { ArePipes self.new }
    {
        let id = free_pipe(&self.pipes)?;
        self.pipes[id.0 as usize].open();
        Some(id)
    }

    /// Ends a pipe, and drops the bytes that it holds.
    pub fn finish(&mut self, id: PipeId)
        requires { IsPipe self.old id.0 }
        ensures gone { self.new ≡ without_pipe self.old id.0 }
        ensures shape { ArePipes self.new }
    {
        self.pipes[id.0 as usize].close();
    }

    /// The number of bytes that a pipe holds, at most 256.
    pub fn held(&self, id: PipeId) -> u16
        requires { IsPipe self.now id.0 }
        ensures held { result ≡ length (held_bytes self.now id.0) }
        ensures shape { ArePipes self.now }
    {
        self.pipes[id.0 as usize].len()
    }

    /// An attempt of I$Read of at most the length of `into`, at least one byte (Level Two manual,
    /// I$Read). It moves the bytes that the pipe holds, as far as they fit, to the start of `into`.
    /// `alone` is true if every other process with the pipe's path waits for a byte too.
    pub fn read(&mut self, id: PipeId, alone: bool, into: &mut [u8]) -> PipeAns
        requires pipe { IsPipe self.old id.0 }
        requires some { 0 < length into.old }
        ensures answer { result ≡ read_answer (held_bytes self.old id.0) alone (length into.old) }
        ensures stored { into.new ≡ buffer_after_read result (held_bytes self.old id.0) into.old }
        ensures left { self.new
            ≡ with_pipe self.old id.0 (left_by result (held_bytes self.old id.0)) }
        ensures shape { ArePipes self.new }
    {
        self.pipes[id.0 as usize].read(alone, into)
    }

    /// An attempt of I$ReadLn (Level Two manual, I$ReadLn): as [`Pipes::read`], but it moves no
    /// byte after the first carriage return.
    pub fn read_line(&mut self, id: PipeId, alone: bool, into: &mut [u8]) -> PipeAns
        requires pipe { IsPipe self.old id.0 }
        requires some { 0 < length into.old }
        ensures answer { result
            ≡ read_line_answer (held_bytes self.old id.0) alone (length into.old) }
        ensures stored { into.new ≡ buffer_after_read result (held_bytes self.old id.0) into.old }
        ensures left { self.new
            ≡ with_pipe self.old id.0 (left_by result (held_bytes self.old id.0)) }
        ensures shape { ArePipes self.new }
    {
        self.pipes[id.0 as usize].read_line(alone, into)
    }

    /// An attempt of I$Write of these bytes, at least one (Level Two manual, I$Write). It moves the
    /// first bytes, as far as there is room. `alone` is true if every other process with the pipe's
    /// path waits for room too.
    pub fn write(&mut self, id: PipeId, alone: bool, from: &[u8]) -> PipeAns
        requires pipe { IsPipe self.old id.0 }
        requires some { 0 < length from.now }
        ensures answer { result ≡ write_answer (held_bytes self.old id.0) alone (length from.now) }
        ensures held { self.new
            ≡ with_pipe self.old id.0 (added_to result from.now (held_bytes self.old id.0)) }
        ensures shape { ArePipes self.new }
    {
        self.pipes[id.0 as usize].write(alone, from)
    }
}

// The least free number of a pipe.
fn free_pipe(pipes: &[Pipe]) -> Option<PipeId>
    requires { length pipes.now ≡ 17 }
    ensures number { option_map (λ id. id.0) result ≡ model.free_pipe pipes.now }
    ensures place { IfSome result (λ id. id.0 < 17) }
{
    let place = pipes[1..].iter().position(|pipe| pipe.is_free())?;
    Some(PipeId((place + 1) as u8))
}

// A place for each pipe, all of them closed.
fn closed_pipes(alloc: Global) -> Result<Vec<Pipe>, AllocError>
    ensures { IfOk result (λ pipes. pipes.items ≡ replicate 17 None) }
{
    let mut pipes = Vec::with_capacity(alloc, PLACES)?;
    'fill: while pipes.len() < PLACES {
        pipes.push(Pipe::new(alloc)?)?;
    }
    Ok(pipes)
}
