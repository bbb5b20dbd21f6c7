ghost use Rattle.std.specs.Prelude.{◌≡◌, Some, [], ◌∷◌, ◌++◌, codes, option_map, replicate};
ghost use Rattle.os9_base.specs.declared.errors.TheConstants.{E_BPADDR, E_BPNUM, E_BMODE, E_UNKSVC, E_EOF, E_FNA, E_FULL, E_PNNF};
ghost use Rattle.proc_model.specs.Records.{zero_regs};
ghost use Rattle.io_model.specs.Path.{desc_of};
ghost use Rattle.rbf_change.specs.Names.{new_listing};
ghost use Rattle.io_model.specs.Step.{answers, fails, refused};
ghost use Rattle.io_model.specs.Write.{error_line};
ghost use Rattle.file_rules.specs.Change.{writes, sizes, sets_attributes};
ghost use Rattle.file_rules.specs.Rows.{on, volume_e, opened_a, opened_root, end_on, bytes_on, files_on, change_on, moving, blanks, seeking, read_behind, with_code, on_path, as_error, step_on};
ghost use Rattle.file_rules.specs.Step.{comes, as_io};
ghost use Rattle.file_rules.specs.declared.path_call.PathCall.TheVariants as Call;

/// Bytes are read from the position on, up to the number asked for or the end of the file; a line
/// up to its carriage return. At the end there is nothing.
pub fn bytes_are_read()
    ensures bytes { bytes_on Call.Read (moving 6) (blanks 6) (opened_a 3 1)
        ≡ codes "one" ++ 13 ∷ codes "tw" }
    ensures count { end_on Call.Read (moving 6) (blanks 6) (opened_a 3 1) ≡ answers (moving 6) }
    ensures on { bytes_on Call.ReadLn (moving 6) (blanks 6) read_behind ≡ codes "o" ++ 13 ∷ [] }
    ensures rest { bytes_on Call.Read (moving 99) (blanks 99) (seeking 8 (opened_a 3 1))
        ≡ codes "last" }
    ensures end { end_on Call.Read (moving 1) (blanks 1) (seeking 12 (opened_a 3 1)) ≡ fails E_EOF }
    ensures nothing { end_on Call.Read (moving 0) [] (seeking 12 (opened_a 3 1))
        ≡ answers (moving 0) }
    ensures entries { bytes_on Call.Read (moving 64) (blanks 64) opened_root ≡ new_listing 2 2 }
{}

/// A missing buffer is refused before a wrong mode. A number without a path is refused before a
/// wrong mode, but after a missing buffer.
pub fn reads_are_refused_in_order()
    ensures buffer { end_on Call.Read (moving 6) (blanks 5) (opened_a 3 2) ≡ fails E_BPADDR }
    ensures mode { end_on Call.Read (moving 6) (blanks 6) (opened_a 3 2) ≡ fails E_BMODE }
    ensures no_path { step_on Call.Seek (moving 0) [] (on volume_e)
        ≡ comes (as_io (refused E_BPNUM)) }
    ensures write { end_on Call.Write (moving 6) (blanks 6) (opened_a 3 1) ≡ fails E_BMODE }
    ensures line { end_on Call.WritLn (moving 6) (blanks 5) (opened_a 3 1) ≡ fails E_BPADDR }
{}

/// Bytes are written at the position, a line up to its carriage return, the line of an error to
/// standard error. They need clusters if they lie after the sectors of the file.
pub fn bytes_are_written()
    ensures bytes { change_on Call.Write (moving 3) (blanks 3) (seeking 12 (opened_a 3 3))
        ≡ writes 4 12 (blanks 3) }
    ensures line { change_on Call.WritLn (moving 9) (codes "x" ++ 13 ∷ codes "y") (opened_a 3 3)
        ≡ writes 4 0 (codes "x" ++ 13 ∷ []) }
    ensures error { change_on Call.PErr (record zero_regs { b = E_PNNF }) []
        (as_error (opened_a 3 3)) ≡ writes 4 0 (error_line E_PNNF) }
    ensures last { change_on Call.Write (moving 1) (blanks 1) (seeking 2815 (opened_a 3 2))
        ≡ writes 4 2815 (blanks 1) }
    ensures full { end_on Call.Write (moving 1) (blanks 1) (seeking 2816 (opened_a 3 2))
        ≡ fails E_FULL }
{}

/// The status of a file: its size and position in X and U, and its end. The first bytes of its
/// descriptor are its attributes, owner, date, links, size and day.
pub fn files_tell_their_status()
    ensures size { end_on Call.GetStt (with_code 2) [] (opened_a 3 1)
        ≡ answers (record (with_code 2) { x = 0; u = 12 }) }
    ensures position { end_on Call.GetStt (with_code 5) [] (seeking 65541 (opened_a 3 1))
        ≡ answers (record (with_code 5) { x = 1; u = 5 }) }
    ensures end { end_on Call.GetStt (with_code 6) [] (seeking 12 (opened_a 3 1)) ≡ fails E_EOF }
    ensures ready { end_on Call.GetStt (with_code 1) [] (seeking 12 (opened_a 3 1))
        ≡ answers (with_code 0) }
    ensures descriptor { bytes_on Call.GetStt (record (with_code 15) { y = 99 }) (blanks 16)
        (opened_a 3 1)
        ≡ 3 ∷ 0 ∷ 0 ∷ 80 ∷ 1 ∷ 1 ∷ 0 ∷ 0 ∷ 1 ∷ 0 ∷ 0 ∷ 0 ∷ 12 ∷ 80 ∷ 1 ∷ 1 ∷ [] }
    ensures locks { end_on Call.SetStt (with_code 0x11) [] (opened_a 3 1) ≡ fails E_BMODE }
{}

/// The size of a file is set through a path that may write, and its attributes by its owner. The
/// ticks of a path are set by each path.
pub fn status_is_set()
    ensures size { change_on Call.SetStt (record (with_code 2) { u = 300 }) [] (opened_a 3 2)
        ≡ sizes 4 300 }
    ensures no_write { end_on Call.SetStt (with_code 2) [] (opened_a 3 1) ≡ fails E_BMODE }
    ensures full { end_on Call.SetStt (record (with_code 2) { x = 1 }) [] (opened_a 3 2)
        ≡ fails E_FULL }
    ensures attributes { change_on Call.SetStt (record (with_code 0x1C) { x = 0x18B }) []
        (opened_a 3 1) ≡ sets_attributes 4 0x8B }
    ensures ticks { option_map (λ desc. desc.ticks) (desc_of (files_on Call.SetStt
        (record (with_code 0x10) { x = 300 }) [] (opened_a 3 1)).io.paths 2) ≡ Some 300 }
    ensures stranger { on_path 7 Call.SetStt (with_code 0x1C) (opened_a 3 1) ≡ fails E_FNA }
{}
