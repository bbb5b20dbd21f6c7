//! New files, new directories and deletions: from the answers of the disk calls to the words of the
//! calls on files.

ghost use Rattle.std.specs.Prelude.{ℕ, Bool, List, Option, Result};
ghost use Rattle.os9_base.specs.declared.registers.TimePacket.{TimePacket};
ghost use Rattle.rbf_model.specs.File.{DiskFile};
ghost use Rattle.rbf_model.specs.Volume.{DiskVolume};
ghost use Rattle.rbf_access.specs.Mounted.{RepresentsVolume};
ghost use Rattle.rbf_access.specs.declared.faults.FileFault.{FileFault};
ghost use Rattle.rbf_walk.specs.declared.error.DirError.{DirError};
ghost use Rattle.rbf_entries.specs.Entering.{AnswersEntering, widened};
ghost use Rattle.rbf_entries.specs.Creating.{request};
ghost use Rattle.rbf_entries.specs.Asked.{folder_request};
ghost use Rattle.rbf_entries.specs.Deleted.{AnswersDeletionOf};
ghost use Rattle.file_rules.specs.Change.{creates, deletes, makes_directory};
ghost use Rattle.file_drives.specs.Left.{LeavesMedia, numbered};

/// A creation by `create` or `create_at` of rbf_entries leaves what the calls on files say of a
/// creation (System Programmer's Manual, I$Create): on success, the volume with the new file, whose
/// number is returned; after a fault of the drive, one of the volumes that a fault may leave; and
/// after a refusal, the unchanged media.
pub fn a_creation_is_what_it_is_said_to_be()
    ensures { (v : DiskVolume) (dir : DiskFile) (d attributes user : ℕ) (name : List ℕ)
        (execute : Bool) (now : TimePacket) (old new : Option (List ℕ)) (answer : Result ℕ DirError)
        → RepresentsVolume old v
        → AnswersEntering v dir (request d name attributes user execute now) old new answer
        → LeavesMedia (creates d name attributes) user now v old new answer }
{}

/// The same for a new directory by `make_dir` or `make_dir_at` of rbf_entries (System Programmer's
/// Manual, I$MakDir).
pub fn a_new_directory_is_what_it_is_said_to_be()
    ensures { (v : DiskVolume) (dir : DiskFile) (d attributes user : ℕ) (name : List ℕ)
        (now : TimePacket) (old new : Option (List ℕ)) (answer : Result ℕ DirError)
        → RepresentsVolume old v
        → AnswersEntering v dir (folder_request d name attributes user now) old new answer
        → LeavesMedia (makes_directory d name attributes) user now v old new answer }
{}

/// A deletion of file n by `delete_at` of rbf_entries leaves what the calls on files say of a
/// deletion (System Programmer's Manual, I$Delete): the volume without the file, or after a fault
/// of the drive one of those that a fault may leave.
pub fn a_deletion_is_what_it_is_said_to_be()
    ensures { (v : DiskVolume) (d n user : ℕ) (name : List ℕ) (now : TimePacket)
        (old new : Option (List ℕ)) (answer : Result (Unit {0}) FileFault) → RepresentsVolume old v
        → AnswersDeletionOf v d n name old new answer
        → LeavesMedia (deletes d n name) user now v old new (widened (numbered answer)) }
{}
