ghost use Rattle.std.specs.Prelude.{◌≡◌, ◌∷◌, ℕ, Bool, IfOk, IfSome, Option, OnErr, OnOk, is_none, option_map, List, [], drop, slice_get};
ghost use Rattle.os9_outer.specs.Stream.{stream_with};
ghost use Rattle.console_run.specs.Shown.{counted, shown_length};

use os9_outer::host::Host;
use std::alloc::AllocError;

/// Lines that a person types, who sees the output of a host, and then the end of the input (this
/// project's own).
///
/// `lines_left` are the lines that it is to give before its end, in their order, if they are
/// observed. `is_over` says whether it gave its end last. `asked` has for each answer how many
/// bytes the output stream had then, if that is observed. `failed_asks` counts the asks that found
/// no memory.
pub trait Keyboard<H: Host> {
    ghost lines_left: { Self → Option (List (List ℕ)) };

    ghost is_over: { Self → Bool };

    ghost asked: { Self → Option (List ℕ) };

    ghost failed_asks: { Self → ℕ };

    /// Waits for the next line, and gives its bytes without the end of the line. The answer is None
    /// at the end of the input. An input that fails is at its end. What was written to this host is
    /// shown.
    ///
    /// # Errors
    ///
    /// Memory is out for the line.
    fn line(&mut self, host: &H) -> Result<Option<Vec<u8>>, AllocError>
        ensures first { IfOk result (λ line. IfSome (lines_left self.old) (λ lines.
            option_map (λ line. line.items) line ≡ slice_get lines 0)) }
        ensures rest { OnOk result
            (lines_left self.new ≡ option_map (drop 1) (lines_left self.old)) }
        ensures over { IfOk result (λ line. is_over self.new ≡ is_none line) }
        ensures shown { OnOk result (asked self.new
            ≡ stream_with (asked self.old) (shown_length (H.bytes_out host.now) ∷ [])) }
        ensures none_failed { OnOk result (failed_asks self.new ≡ failed_asks self.old) }
        ensures lines_kept { OnErr result (lines_left self.new ≡ lines_left self.old) }
        ensures over_kept { OnErr result (is_over self.new ≡ is_over self.old) }
        ensures asked_kept { OnErr result (asked self.new ≡ asked self.old) }
        ensures failed { OnErr result (failed_asks self.new ≡ counted (failed_asks self.old)) };
}
