ghost use Rattle.std.specs.Prelude.{◌≡◌, [], ◌∷◌, ◌++◌, codes, replicate, take};
ghost use Rattle.os9_base.specs.declared.calls.TheConstants.{I_WRITE};
ghost use Rattle.os9_base.specs.declared.errors.TheConstants.{E_EOF, E_WRITE};
ghost use Rattle.io_model.specs.Io.{pipe_bytes};
ghost use Rattle.io_model.specs.Processes.{io_ended};
ghost use Rattle.io_model.specs.Attempts.{io_after};
ghost use Rattle.io_model.specs.Rows.{attempt, moving, ones, piped, filled, shared, sent, writing, reading, reading_line, first_written, first_read, rest_written, rest_read};
ghost use Rattle.io_model.specs.Step.{answers, fails, keeps};
ghost use Rattle.io_model.specs.declared.io_call.IoCall.TheVariants as Call;

/// A writer writes 300 bytes to a pipe that a reader holds too, and exits. Its first attempt moves
/// 256 of them and waits; the reader gets 256, then 44, and then the end of the file.
pub fn bytes_go_through_a_pipe()
    ensures first { (writing 300 shared).end
        ≡ keeps (record { code = I_WRITE; path = record { 0 = 2 }; moved = 256; count = 300 }) }
    ensures read { (reading 512 first_written).end ≡ answers (moving 256) }
    ensures stored { (reading 512 first_written).bytes ≡ ones 256 }
    ensures rest { (writing 300 first_read).end ≡ answers (moving 300) }
    ensures read_rest { (reading 512 rest_written).end ≡ answers (moving 44) }
    ensures end_of_file { (reading 512 (io_ended rest_read 2)).end ≡ fails E_EOF }
{}

/// A process alone holds a pipe. It reads the empty pipe: the end of the file. It fills the pipe,
/// and writes one more byte: the write is refused, and the bytes are still there.
pub fn a_pipe_is_held_alone()
    ensures empty { (attempt Call.Read 2 (moving 1) (ones 1) piped).end ≡ fails E_EOF }
    ensures filled { (writing 256 piped).end ≡ answers (moving 256) }
    ensures full { (writing 1 filled).end ≡ fails E_WRITE }
    ensures stays { pipe_bytes (io_after 2 (writing 1 filled)) 1 ≡ ones 256 }
    ensures more { (writing 257 piped).end ≡ fails E_WRITE }
    ensures moved { pipe_bytes (io_after 2 (writing 257 piped)) 1 ≡ ones 256 }
{}

/// A parent shares a pipe with its child, and writes two lines: the child reads the first one.
pub fn a_child_reads_a_line()
    ensures line { (reading_line (sent (97 ∷ 13 ∷ 98 ∷ 13 ∷ []))).bytes ≡ 97 ∷ 13 ∷ [] }
    ensures count { (reading_line (sent (97 ∷ 13 ∷ 98 ∷ 13 ∷ []))).end ≡ answers (moving 2) }
{}
