ghost use Rattle.std.specs.Prelude.{◌≡◌, ◌⊎◌, ℕ, List, [], None};
ghost use Rattle.os9_base.specs.declared.errors.TheConstants.{E_WRITE};
ghost use Rattle.os9_base.specs.declared.registers.TimePacket.{TimePacket};
ghost use Rattle.os9_outer.specs.TerminalState.{TerminalState};
ghost use Rattle.rbf_model.specs.Volume.{DiskVolume};
ghost use Rattle.file_rules.specs.Change.{ChangeMayLeave, creates, makes_directory, sets_attributes, deletes};
ghost use Rattle.file_rules.specs.Files.{Files, Asker, with_drives};
ghost use Rattle.file_rules.specs.Rows.{on, volume_e, creation, d0_failed, new_opened};
ghost use Rattle.file_rules.specs.Step.{FileEffect, FileStep, Deed, refused, comes, IsBroken, FileDoes, refuses_so};

/// A creation makes a file in the first free cluster, with an entry in its directory and a path on
/// it.
pub fn a_file_is_created()
    ensures { (terms : List TerminalState) → FileDoes creation.step creation.asker (on volume_e)
        new_opened terms terms }
{}

/// A fault of its drive, whose count rose, may end a creation. The call returns that fault's
/// number, and nothing but the count has changed.
pub fn a_creation_may_be_broken()
    ensures { (terms : List TerminalState) → FileDoes creation.step creation.asker (on volume_e)
        (refuses_so E_WRITE (with_drives (on volume_e) d0_failed)) terms terms }
{}

/// No fault ends an attempt that does not reach a drive: one that is refused before it does, and
/// one that needs no drive.
pub fn faults_come_from_drives_that_are_reached()
    ensures refused { (number : ℕ) (asker : Asker) (files : Files) (effect : FileEffect)
        → IsBroken (refused number) asker files effect → ⊥ }
    ensures comes { (deed : Deed) (asker : Asker) (files : Files) (effect : FileEffect)
        → IsBroken (comes deed) asker files effect → ⊥ }
{}

/// A fault leaves the files unchanged if a file was to be made or given other attributes. A file
/// that was to be deleted is deleted, or nothing has changed.
pub fn the_old_tree_stands()
    ensures file { (d attributes user : ℕ) (name : List ℕ) (now : TimePacket) (v left : DiskVolume)
        → ChangeMayLeave (creates d name attributes) user now v left → left.files ≡ v.files }
    ensures directory { (d attributes user : ℕ) (name : List ℕ) (now : TimePacket)
        (v left : DiskVolume) → ChangeMayLeave (makes_directory d name attributes) user now v left
        → left.files ≡ v.files }
    ensures attributes { (n attributes user : ℕ) (now : TimePacket) (v left : DiskVolume)
        → ChangeMayLeave (sets_attributes n attributes) user now v left → left ≡ v }
    ensures deleted { (d n user : ℕ) (name : List ℕ) (now : TimePacket) (v left : DiskVolume)
        → ChangeMayLeave (deletes d n name) user now v left → (left ≡ v) ⊎ (left.files n ≡ None) }
{}
