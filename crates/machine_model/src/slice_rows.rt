//! Slices that are worked through by hand, as laws that the check computes. The machine starts at
//! 1 January 1990, 00:00:00.

ghost use Rattle.std.specs.Prelude.{◌≡◌, ◌∷◌, [], Some};
ghost use Rattle.os9_base.specs.declared.calls.TheConstants.{F_ID, F_SLEEP, F_STIME, F_TIME};
ghost use Rattle.os9_base.specs.declared.errors.TheConstants.{E_BADTIME, E_PRCABT};
ghost use Rattle.time_rules.specs.CivilRows.{at};
ghost use Rattle.proc_model.specs.Records.{record_at};
ghost use Rattle.proc_model.specs.Turns.{age_in};
ghost use Rattle.proc_model.specs.declared.record.Life.TheVariants.{Ended};
ghost use Rattle.proc_model.specs.Processes.{cells_at, regs_at};
ghost use Rattle.proc_model.specs.Ready.{attempts, delivers, executes};
ghost use Rattle.proc_model.specs.UserBytes.{user_bytes};
ghost use Rattle.time_rules.specs.Clock.{first_clock};
ghost use Rattle.machine_model.specs.declared.ends.SliceEnd.TheVariants.{Idle};
ghost use Rattle.machine_model.specs.Run.{Slice};
ghost use Rattle.machine_model.specs.SliceRows.{SliceDoes, after_slice, asks_for_id, asks_for_time, at_choice, at_start, falls_asleep, loads_unnamed, not_set, sets_time, signalled_in_call, told, two_running};

/// A call is attempted in its slice if that has instructions left when the call is made, else in
/// the next slice of its process.
pub fn a_call_is_attempted_after_its_instruction()
    ensures last { SliceDoes at_start 2 asks_for_id 2 (executes ∷ executes ∷ []) }
    ensures next { SliceDoes at_start 1 (after_slice at_start 2 asks_for_id) 2
        (attempts F_ID ∷ executes ∷ []) }
    ensures within { SliceDoes at_start 3 asks_for_id 2
        (executes ∷ executes ∷ attempts F_ID ∷ executes ∷ []) }
{}

/// A pending signal is delivered after the first attempt of a call, and before the instruction
/// after the call.
pub fn a_signal_is_delivered_after_the_first_attempt()
    ensures { SliceDoes at_start 1 signalled_in_call 2
        (attempts F_ID ∷ delivers 7 ∷ executes ∷ []) }
{}

/// A pending call ends its slice, even if instructions are left. If no process is Ready then, the
/// next slice has no event.
pub fn a_wait_ends_its_slice()
    ensures waits { SliceDoes at_start 1000 falls_asleep 2 (executes ∷ attempts F_SLEEP ∷ []) }
    ensures idle { Slice 1000 (after_slice at_start 2 falls_asleep) [] Idle
        (at_choice (after_slice at_start 2 falls_asleep)) }
    ensures age { age_in (at_choice (after_slice at_start 2 falls_asleep)).processes.order 2
        ≡ Some 128 }
{}

/// A process that reads an unnamed slot ends with 228, and its slice ends with it.
pub fn an_unnamed_slot_ends_the_process()
    ensures ends { SliceDoes at_start 1000 loads_unnamed 2 (executes ∷ []) }
    ensures status { (record_at (after_slice at_start 1 loads_unnamed).processes.records 2).life
        ≡ Ended E_PRCABT }
{}

/// Of two processes of one priority, the one chosen longest ago is next.
pub fn equals_are_chosen_in_turns()
    ensures first { SliceDoes at_start 1 two_running 2 (executes ∷ []) }
    ensures second { SliceDoes at_start 1 (after_slice at_start 1 two_running) 3 (executes ∷ []) }
    ensures first_again { SliceDoes at_start 1
        (after_slice at_start 1 (after_slice at_start 1 two_running)) 2 (executes ∷ []) }
{}

/// In tick 119 it is a second after the start, and in tick 120 two seconds. F$Time stores the six
/// bytes of that time at X and no other byte, and clears carry.
pub fn the_time_is_told()
    ensures one_second { SliceDoes (at 90 1 1 0 0 1) 2 (asks_for_time 118) 2
        (executes ∷ attempts F_TIME ∷ executes ∷ []) }
    ensures two_seconds { SliceDoes (at 90 1 1 0 0 2) 2 (asks_for_time 119) 2
        (executes ∷ attempts F_TIME ∷ executes ∷ []) }
    ensures packet { user_bytes (cells_at told.processes 2) 0x1F 8
        ≡ Some (0x12 ∷ 90 ∷ 1 ∷ 1 ∷ 0 ∷ 0 ∷ 2 ∷ 0x12 ∷ []) }
    ensures carry { (regs_at told.processes 2).cc ≡ 0 }
{}

/// F$STime of 29 February 1993, which is not a date, is refused with 225 and carry set, and the
/// clock goes on from the start.
pub fn no_civil_time_is_set()
    ensures does { SliceDoes at_start 2 (sets_time (at 93 2 29 23 59 59)) 2
        (executes ∷ attempts F_STIME ∷ executes ∷ []) }
    ensures error { (regs_at not_set.processes 2).b ≡ E_BADTIME }
    ensures carry { (regs_at not_set.processes 2).cc ≡ 1 }
    ensures clock { not_set.clock ≡ first_clock at_start }
{}

/// F$STime of 29 February 1992 in tick 11 sets the clock, which goes on from that time and tick.
pub fn a_civil_time_is_set()
    ensures does { SliceDoes at_start 2 (sets_time (at 92 2 29 23 59 59)) 2
        (executes ∷ attempts F_STIME ∷ executes ∷ []) }
    ensures clock { (after_slice at_start 3 (sets_time (at 92 2 29 23 59 59))).clock
        ≡ record { from = at 92 2 29 23 59 59; since = 11 } }
{}
