ghost use Rattle.std.specs.Prelude.{◌≡◌, ◌∷◌, ◌++◌, [], Some, codes, replicate, slice_get};
ghost use Rattle.os9_base.specs.declared.errors.TheConstants.{E_BNAM, E_MNF, E_USIGP, E_PRCFUL, E_NORAM, E_BPADDR, E_PRCABT};
ghost use Rattle.proc_model.specs.Memory.{free_blocks};
ghost use Rattle.proc_model.specs.Records.{zero_regs};
ghost use Rattle.proc_model.specs.declared.proc_call.ProcCall.TheVariants as Call;
ghost use Rattle.proc_model.specs.declared.program_name.ProgramName.TheVariants.{Unreadable, OneName, PathList};
ghost use Rattle.proc_model.specs.CmpNam.{f_cmpnam};
ghost use Rattle.proc_model.specs.End.{ended};
ghost use Rattle.proc_model.specs.Fork.{f_fork};
ghost use Rattle.proc_model.specs.Processes.{regs_at, cells_at};
ghost use Rattle.proc_model.specs.PrsNam.{f_prsnam};
ghost use Rattle.proc_model.specs.Attempts.{refused_regs};
ghost use Rattle.proc_model.specs.CallResult.{done, refused};
ghost use Rattle.proc_model.specs.Program.{program_name};
ghost use Rattle.proc_model.specs.Send.{f_send};
ghost use Rattle.proc_model.specs.UserBytes.{user_bytes};
ghost use Rattle.proc_model.specs.Rows.{regs_after, parsing, comparing, sent_asleep, sent_seven, seven_delivered, forker, forker_of, with_five, first_child, after_forks, both_linked, stored_by_one};

/// F$PrsNam of `/D0/CMDS` returns its first name and the `/` after it; a carriage return is not a
/// name. F$CmpNam finds that three characters of `abc` and `ABC` agree, and that two do not.
pub fn names_are_parsed_and_compared()
    ensures parsed { regs_after Call.PrsNam 2 (parsing 0x40)
        ≡ record zero_regs { a = 0x2F; b = 2; x = 0x41; y = 0x43 } }
    ensures no_name { f_prsnam (parsing 0x48) 2 ≡ refused E_BNAM }
    ensures same { f_cmpnam (comparing 3) 2 ≡ done (comparing 3) }
    ensures shorter { f_cmpnam (comparing 2) 2 ≡ refused E_BNAM }
{}

/// A sleep of 5 ticks that signal 1 ends at the second tick returns 3 ticks left. A second signal
/// is refused while the first one is pending. The routine that receives the first one finds it in
/// B, the area in U, and the twelve bytes of the registers below the stack pointer of the process.
pub fn sleeps_and_signals_end()
    ensures left { regs_after Call.Sleep 2 (sent_asleep 5 1)
        ≡ record zero_regs { x = 3; s = 0x30; pc = 0x22 } }
    ensures second { f_send sent_seven 3 ≡ refused E_USIGP }
    ensures routine { regs_at seven_delivered 2
        ≡ record (regs_at sent_seven 2) { b = 7; s = 0x24; u = 0x5678; pc = 0x1234 } }
    ensures frame { user_bytes (cells_at seven_delivered 2) 0x24 12
        ≡ Some (0x81 ∷ (replicate 10 0 ++ (0x22 ∷ []))) }
{}

/// A program whose storage is 200 bytes starts with a data area of one page, and with its
/// parameters at the end of it; parameters that are not there are refused.
pub fn programs_start_with_their_parameters()
    ensures bare { regs_at (first_child (forker 64)) 3
        ≡ record zero_regs { x = 0x100; y = 0x100; s = 0x100; pc = 0xE010 } }
    ensures five { regs_at (first_child (with_five 1)) 3
        ≡ record zero_regs { b = 5; x = 0xFB; y = 0x100; s = 0xFB; pc = 0xE010 } }
    ensures stored { user_bytes (cells_at (first_child (with_five 1)) 3) 0xFB 5
        ≡ Some (5 ∷ 6 ∷ 7 ∷ 8 ∷ 9 ∷ []) }
    ensures unnamed { f_fork (with_five 2) 2 ≡ refused E_BPADDR }
{}

/// `Pr/` and a carriage return is the name `Pr`, and so is `Pr` with two slashes after it. `/Pr` is
/// a path list, and so is `Pr/x`, even if bit 7 ends it. The byte after the slash is read.
pub fn a_slash_may_end_a_name()
    ensures bare { program_name (slice_get (codes "Pr\r")) 0 ≡ OneName (codes "Pr") }
    ensures slash { program_name (slice_get (codes "Pr/\r")) 0 ≡ OneName (codes "Pr") }
    ensures slashes { program_name (slice_get (codes "Pr//")) 0 ≡ OneName (codes "Pr") }
    ensures device { program_name (slice_get (codes "/Pr\r")) 0 ≡ PathList }
    ensures another { program_name (slice_get (codes "Pr/x\r")) 0 ≡ PathList }
    ensures marked { program_name (slice_get (codes "Pr/" ++ (0xF8 ∷ []))) 0 ≡ PathList }
    ensures cut { program_name (slice_get (codes "Pr/")) 0 ≡ Unreadable }
{}

/// F$Fork of `P/` starts the entered program `P`, and X is then the address after the name; of `Q/`
/// it finds no module. `/P` and `P/x` do not name an entered module.
pub fn a_slash_behind_the_name_of_a_program()
    ensures entered { regs_after Call.Fork 2 (forker_of (codes "P/\r"))
        ≡ record zero_regs { a = 3; x = 1 } }
    ensures twice { regs_after Call.Fork 2 (forker_of (codes "P//"))
        ≡ record zero_regs { a = 3; x = 1 } }
    ensures none { f_fork (forker_of (codes "Q/\r")) 2 ≡ refused E_MNF }
    ensures device { f_fork (forker_of (codes "/P\r")) 2 ≡ refused E_BNAM }
    ensures another { f_fork (forker_of (codes "P/x\r")) 2 ≡ refused E_BNAM }
{}

/// With 64 blocks process 2 gets 30 children, and the next one is refused. With 8 blocks, two of
/// which it uses, it gets six. A refusal changes only B and the condition codes.
pub fn forks_end_at_a_limit()
    ensures last { (regs_at (after_forks 30 (forker 64)) 2).a ≡ 32 }
    ensures full { regs_at (after_forks 31 (forker 64)) 2 ≡ refused_regs zero_regs E_PRCFUL }
    ensures sixth { (regs_at (after_forks 6 (forker 8)) 2).a ≡ 8 }
    ensures used { regs_at (after_forks 7 (forker 8)) 2 ≡ refused_regs zero_regs E_NORAM }
    ensures none { free_blocks (after_forks 7 (forker 8)).memory ≡ 0 }
{}

/// Two processes that link a module see the same bytes of it, and after both have ended only its
/// block is in use.
pub fn linked_modules_are_shared()
    ensures linked { (regs_at both_linked 3).u ≡ 0xE020 }
    ensures shared { cells_at stored_by_one 3 0xE022 ≡ Some 0x77 }
    ensures before { free_blocks both_linked.memory ≡ 5 }
    ensures after { free_blocks (ended (ended both_linked 2 0) 3 0).memory ≡ 7 }
{}

/// The parent of a process that ends with status 228, the status after an access to an unnamed
/// slot, receives that status.
pub fn an_aborted_child_has_its_status()
    ensures status { regs_after Call.Wait 2 (ended (after_forks 1 (forker 8)) 3 E_PRCABT)
        ≡ record zero_regs { a = 3; b = E_PRCABT; x = 1 } }
{}
