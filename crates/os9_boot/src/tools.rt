//! A repair and a new disk in a list of tools.

ghost use Rattle.std.specs.Prelude.{◌∷◌, [], ℕ, List, Option, Some};
ghost use Rattle.os9_base.specs.declared.registers.TimePacket.{TimePacket};
ghost use Rattle.rbf_model.specs.Volume.{Vol};
ghost use Rattle.vol_tools.specs.Blank.{blank_volume};
ghost use Rattle.vol_tools.specs.Tool.{freed_line, repair};
ghost use Rattle.vol_tools.specs.UsesInTurn.{Use};
ghost use Rattle.vol_tools.specs.Repair.{IsRepaired};
ghost use Rattle.vol_tools.specs.declared.image.Repaired.{Repaired};
ghost use Rattle.vol_tools.specs.InTurn.{LeavesInTurn};
ghost use Rattle.os9_boot.specs.NewDisk.{LeavesNew, NewDisk};

/// A repair of an image is a tool like those on a mounted volume: it leaves its result, and answers
/// the line with the number of clusters that are free now.
pub fn a_repair_leaves_what_it_gives()
    ensures { (old : List ℕ) (outcome : Repaired) (now : TimePacket) → IsRepaired old outcome
        → LeavesInTurn (record { tool = repair; now = now } ∷ []) (Some old)
        (Some outcome.image.items) (freed_line outcome.freed ∷ []) }
{}

/// A list of tools leaves on the image of a new disk what it gives of the volume without files.
pub fn a_list_begins_with_a_new_disk()
    ensures { (disk : NewDisk) (image : List ℕ) (uses : List Use) (new : Option (List ℕ))
        (answers : List (List ℕ)) → Vol image (blank_volume disk.sectors disk.cluster disk.made)
        → LeavesInTurn uses (Some image) new answers → LeavesNew disk uses new answers }
{}
