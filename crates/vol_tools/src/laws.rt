//! Laws of tools that are used in turn.

ghost use Rattle.std.specs.Prelude.{◌∷◌, ◌++◌, [], ℕ, List, Option, Ok};
ghost use Rattle.rbf_model.specs.Volume.{DiskVolume};
ghost use Rattle.rbf_access.specs.Mounted.{RepresentsVolume};
ghost use Rattle.vol_tools.specs.UsesInTurn.{Use};
ghost use Rattle.vol_tools.specs.Answers.{GivesOn, OnVolumeBefore};
ghost use Rattle.vol_tools.specs.InTurn.{LeavesInTurn};

/// A successful tool on a medium that represents a volume leaves a medium that represents its
/// result.
pub fn a_tool_that_is_done_leaves_what_it_gives()
    ensures { (use_ : Use) (v : DiskVolume) (answer : List ℕ) (old new : Option (List ℕ))
        → RepresentsVolume old v → GivesOn use_ v answer new
        → LeavesInTurn (use_ ∷ []) old new (answer ∷ []) }
{}

/// Two lists of tools, the second on what the first leaves, are one list: their results are given
/// in turn.
pub fn lists_of_tools_compose()
    ensures { (one other : List Use) (old mid new : Option (List ℕ)) (first second : List (List ℕ))
        → LeavesInTurn one old mid first → LeavesInTurn other mid new second
        → LeavesInTurn (one ++ other) old new (first ++ second) }
{}
