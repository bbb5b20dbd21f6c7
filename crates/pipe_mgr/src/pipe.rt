ghost use Rattle.std.specs.Prelude.{◌≡◌, ℕ, ◌<◌, ◌≤◌, ◌==◌, Some, None, IsSome, is_none, [], unwrap_or, IfOk, length};
ghost use Rattle.io_model.specs.Pipe.{read_answer, read_line_answer, write_answer, left_by, added_to, buffer_after_read};
ghost use Rattle.io_model.specs.Line as model;
ghost use Rattle.io_model.specs.Line.{line_length};

use circular_buffer::HeapCircularBuffer;
use io_model::keys::RETURN;
use io_model::pipe::{PIPE_BYTES, PipeAns};
use std::alloc::{AllocError, Global};
use std::marker::Model;

// The place of one pipe: its ring exists even while no pipe has the number.
#[derive(Drop)]
pub(crate) struct Pipe {
    is_open: bool,
    ring: HeapCircularBuffer<u8>,
}

impl Model for Pipe {
    ghost use Rattle.std.specs.Prelude.{◌≡◌, ◌≤◌, ℕ, List, Option, length};
    ghost use Rattle.pipe_mgr.specs.Rings.{bytes_if};

    ghost Value = { Option (List ℕ) };

    ghost view = { λ p. bytes_if p.is_open p.ring.items };

    ghost invariant = { λ p. (p.ring.capacity ≡ 256) × (length p.ring.items ≤ 256) };
}

impl Pipe {
    pub(crate) fn new(alloc: Global) -> Result<Pipe, AllocError>
        ensures { IfOk result (λ pipe. pipe ≡ None) }
    {
        Ok(Pipe {
            is_open: false,
            ring: HeapCircularBuffer::with_capacity(alloc, PIPE_BYTES)?,
        })
    }

    pub(crate) fn is_free(&self) -> bool
        ensures { result ≡ is_none self.now }
    {
        !self.is_open
    }

    pub(crate) fn open(&mut self)
        ensures { self.new ≡ Some [] }
    {
        self.is_open = true;
        self.ring.clear();
    }

    pub(crate) fn close(&mut self)
        ensures { self.new ≡ None }
    {
        self.is_open = false;
    }

    pub(crate) fn len(&self) -> u16
        requires { IsSome self.now }
        ensures len { result ≡ length (unwrap_or self.now []) }
        ensures within { result ≤ 256 }
    {
        self.ring.len() as u16
    }

    pub(crate) fn read(&mut self, alone: bool, into: &mut [u8]) -> PipeAns
        requires { IsSome self.old }
        ensures answer { result ≡ read_answer (unwrap_or self.old []) alone (length into.old) }
        ensures stored { into.new ≡ buffer_after_read result (unwrap_or self.old []) into.old }
        ensures left { self.new ≡ Some (left_by result (unwrap_or self.old [])) }
    {
        if self.ring.is_empty() {
            return if alone { PipeAns::End } else { PipeAns::Wait };
        }
        PipeAns::Done(self.ring.read_into(into) as u16)
    }

    pub(crate) fn read_line(&mut self, alone: bool, into: &mut [u8]) -> PipeAns
        requires { IsSome self.old }
        ensures answer { result ≡ read_line_answer (unwrap_or self.old []) alone (length into.old) }
        ensures stored { into.new ≡ buffer_after_read result (unwrap_or self.old []) into.old }
        ensures left { self.new ≡ Some (left_by result (unwrap_or self.old [])) }
    {
        let most = into.len().min(self.line_len());
        self.read(alone, &mut into[..most])
    }

    // The length of the first line with its carriage return; all bytes if there is no carriage
    // return.
    fn line_len(&self) -> usize
        requires { IsSome self.now }
        ensures len { result ≡ line_length (unwrap_or self.now []) }
        ensures within { result ≤ length (unwrap_or self.now []) }
    {
        match return_place(&self.ring) {
            Some(place) => place + 1,
            None => self.ring.len(),
        }
    }

    pub(crate) fn write(&mut self, alone: bool, from: &[u8]) -> PipeAns
        requires { IsSome self.old }
        ensures answer { result ≡ write_answer (unwrap_or self.old []) alone (length from.now) }
        ensures held { self.new ≡ Some (added_to result from.now (unwrap_or self.old [])) }
        ensures within { length (added_to result from.now (unwrap_or self.old [])) ≤ 256 }
    {
        if self.ring.is_full() {
            return if alone {
                PipeAns::NoReader
            } else {
                PipeAns::Wait
            };
        }
        PipeAns::Done(self.ring.fill_from_slice(from) as u16)
    }
}

// The place of the first carriage return.
fn return_place(ring: &HeapCircularBuffer<u8>) -> Option<usize>
    ensures { result ≡ model.return_place ring.now.items }
{
    ring.iter().position(|byte| *byte == RETURN)
}
