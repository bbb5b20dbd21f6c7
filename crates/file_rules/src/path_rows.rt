ghost use Rattle.std.specs.Prelude.{◌≡◌, [], ◌∷◌, ◌++◌, codes, replicate, Some, None};
ghost use Rattle.os9_base.specs.declared.errors.TheConstants.{E_BPADDR, E_BMODE, E_BPNAM, E_MNF, E_FNA, E_PNNF, E_CEF, E_FULL, E_SHARE, E_PTHFUL};
ghost use Rattle.proc_model.specs.Records.{zero_regs};
ghost use Rattle.io_model.specs.Step.{answers, fails};
ghost use Rattle.file_rules.specs.Change.{creates, makes_directory, deletes};
ghost use Rattle.file_rules.specs.Files.{directories_at};
ghost use Rattle.file_rules.specs.Rows.{on, volume_e, volume_full, volume_a, volume_cmds, volume_of_one, opening_ends, opened_a, end_on, files_on, change_on, with_a, place_of, no_volume, all_paths_used};
ghost use Rattle.file_rules.specs.declared.path_call.PathCall.TheVariants as Call;

/// The root is opened as a directory, and not as a file or for writing. A file is not opened as a
/// directory, or in a mode that its attributes do not have.
pub fn files_and_directories_are_opened()
    ensures root { opening_ends 0x81 (codes "/D0 ") (on volume_e)
        ≡ answers (record zero_regs { a = 3; x = 3 }) }
    ensures parent { opening_ends 0x81 (codes ".. ") (on volume_e)
        ≡ answers (record zero_regs { a = 3; x = 2 }) }
    ensures no_directory { opening_ends 1 (codes "/D0 ") (on volume_e) ≡ fails E_FNA }
    ensures no_write { opening_ends 0x83 (codes "/D0 ") (on volume_e) ≡ fails E_FNA }
    ensures file { opening_ends 1 (codes "a ") (on (volume_a 3))
        ≡ answers (record zero_regs { a = 3; x = 1 }) }
    ensures is_file { opening_ends 0x81 (codes "A ") (on (volume_a 3)) ≡ fails E_FNA }
    ensures no_execution { opening_ends 4 (codes "A ") (on (volume_a 3)) ≡ fails E_FNA }
{}

/// An unreadable list is refused before a bad mode, a bad mode before a list without a name, and
/// that before a missing device. Then the names are walked; a directory's permission is tested
/// before its names.
pub fn lists_are_refused_in_order()
    ensures unreadable { opening_ends 0 (codes "/D0/") (on volume_e) ≡ fails E_BPADDR }
    ensures mode { opening_ends 0 (codes "//") (on volume_e) ≡ fails E_BMODE }
    ensures no_name { opening_ends 1 (codes "//") (on volume_e) ≡ fails E_BPNAM }
    ensures not_mounted { opening_ends 1 (codes "/D1 ") (on volume_e) ≡ fails E_MNF }
    ensures absent { opening_ends 1 (codes "/D0/B ") (on (volume_a 3)) ≡ fails E_PNNF }
    ensures no_directory { opening_ends 1 (codes "/D0/A/B ") (on (volume_a 3)) ≡ fails E_FNA }
    ensures nowhere { opening_ends 1 (codes "A ") no_volume ≡ fails E_PNNF }
{}

/// A single-user file, or a file opened for a single user, is opened once. A path without a free
/// number is refused last.
pub fn single_users_share_nothing()
    ensures twice { opening_ends 1 (codes "A ") (opened_a 3 1)
        ≡ answers (record zero_regs { a = 4; x = 1 }) }
    ensures by_file { opening_ends 1 (codes "A ") (opened_a 0x43 1) ≡ fails E_SHARE }
    ensures by_mode { opening_ends 0x41 (codes "A ") (opened_a 3 1) ≡ fails E_SHARE }
    ensures by_path { opening_ends 1 (codes "A ") (opened_a 3 0x41) ≡ fails E_SHARE }
    ensures alone { opening_ends 0x41 (codes "A ") (on (volume_a 0x43))
        ≡ answers (record zero_regs { a = 3; x = 1 }) }
    ensures no_number { opening_ends 1 (codes "A ") all_paths_used ≡ fails E_PTHFUL }
{}

/// A file is made in its directory, with the last name of its list. It is not made if no cluster is
/// free; whether its name is there is tested before that.
pub fn files_are_made()
    ensures file { change_on Call.Create (record zero_regs { a = 3; b = 11 }) (codes "/D0/New ")
        (on volume_e) ≡ creates 2 (codes "New") 11 }
    ensures full { end_on Call.Create (with_a 3) (codes "New ") (on volume_full) ≡ fails E_FULL }
    ensures exists { end_on Call.Create (with_a 2) (codes "a ") (on (volume_a 0)) ≡ fails E_CEF }
    ensures directory { end_on Call.Create (record zero_regs { a = 2; b = 0x83 }) (codes "A ")
        (on (volume_a 3)) ≡ fails E_FNA }
    ensures dots { end_on Call.Create (with_a 2) (codes "/D3/.. ") (on volume_e) ≡ fails E_BPNAM }
    ensures root { end_on Call.Create (with_a 2) (codes "/D1 ") (on volume_e) ≡ fails E_BPNAM }
    ensures no_write { end_on Call.Create (with_a 1) (codes "New ") (on volume_e) ≡ fails E_BMODE }
{}

/// A directory is made with the attributes in B, which may have bit 7 or not. It needs two clusters
/// of one sector.
pub fn directories_are_made()
    ensures made { change_on Call.MakDir (record zero_regs { b = 0xBF }) (codes "New ")
        (on volume_e) ≡ makes_directory 2 (codes "New") 0xBF }
    ensures full { end_on Call.MakDir zero_regs (codes "New ") (on volume_of_one) ≡ fails E_FULL }
    ensures file { change_on Call.Create (with_a 2) (codes "New ") (on volume_of_one)
        ≡ creates 2 (codes "New") 0 }
    ensures device { end_on Call.MakDir zero_regs (codes "/TERM ") (on volume_e) ≡ fails E_FNA }
    ensures exists { end_on Call.MakDir zero_regs (codes "A ") (on (volume_a 0)) ≡ fails E_CEF }
{}

/// The first process has the root of D0 for its data, and for execution CMDS in it, if it exists. A
/// mode for execution changes only the execution directory.
pub fn directories_of_a_process_change()
    ensures first { directories_at (on volume_cmds) 2
        ≡ record { data_directory = Some (place_of 2); execution_directory = Some (place_of 4) } }
    ensures no_cmds { directories_at (on (volume_a 3)) 2
        ≡ record { data_directory = Some (place_of 2); execution_directory = Some (place_of 2) } }
    ensures to_cmds { directories_at
        (files_on Call.ChgDir (with_a 1) (codes "CMDS ") (on volume_cmds)) 2
        ≡ record { data_directory = Some (place_of 4); execution_directory = Some (place_of 4) } }
    ensures execution { directories_at
        (files_on Call.ChgDir (with_a 5) (codes ".. ") (on volume_cmds)) 2
        ≡ record { data_directory = Some (place_of 2); execution_directory = Some (place_of 2) } }
    ensures file { end_on Call.ChgDir (with_a 1) (codes "A ") (on (volume_a 3)) ≡ fails E_FNA }
{}

/// A file without a path on it is deleted, and a directory is not. If a file is not there, its
/// directory must be one that may be written.
pub fn files_are_deleted()
    ensures file { change_on Call.Delete zero_regs (codes "a ") (on (volume_a 2))
        ≡ deletes 2 4 (codes "a") }
    ensures no_write { end_on Call.Delete zero_regs (codes "A ") (on (volume_a 1)) ≡ fails E_FNA }
    ensures open { end_on Call.Delete zero_regs (codes "A ") (opened_a 3 1) ≡ fails E_SHARE }
    ensures absent { end_on Call.Delete zero_regs (codes "B ") (on (volume_a 3)) ≡ fails E_PNNF }
    ensures root { end_on Call.Delete zero_regs (codes "/D0 ") (on volume_e) ≡ fails E_FNA }
    ensures directory { end_on Call.Delete zero_regs (codes "CMDS ") (on volume_cmds)
        ≡ fails E_FNA }
    ensures execution { end_on Call.DeletX (with_a 4) (codes "A ") (on volume_cmds) ≡ fails E_PNNF }
    ensures no_mode { end_on Call.DeletX zero_regs (codes "A ") (on volume_e) ≡ fails E_BMODE }
{}
