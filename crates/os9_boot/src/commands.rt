//! The results of several commands' tools on the volume of one image.

ghost use Rattle.std.specs.Prelude.{◌≡◌, ◌≢◌, ◌∷◌, ◌++◌, [], ℕ, List, Some, All, true};
ghost use Rattle.os9_outer.specs.Host.{file_contents};
ghost use Rattle.os9_words.specs.declared.vol_words.Verb.TheVariants.{Dir, Format, Get};
ghost use Rattle.os9_words.specs.declared.vol_words.VolWords.{VolWords};
ghost use Rattle.os9_boot.specs.NewDisk.{LeavesNew};
ghost use Rattle.vol_tools.specs.Tool.{Tool};
ghost use Rattle.os9_boot.specs.Vol.{IsToolUsed, file_of, path_of};
ghost use Rattle.os9_boot.specs.Turns.{CallsInTurn, GetsOver, AreBytesOfFile, IsTurnOn, KeepsDisk, PrintsLines, FinishedVolCall, disk_of, is_done, uses_of};
ghost use Rattle.vol_tools.specs.InTurn.{LeavesInTurn};

/// A command that has used its tool leaves the tool's result, and has its answer.
pub fn a_command_leaves_what_its_tool_gives()
    ensures { (tool : Tool) (vol : VolWords) (old answer image : List ℕ)
        → IsToolUsed tool vol old answer image
        → LeavesInTurn (record { tool = tool; now = vol.start } ∷ [])
        (Some old) (Some image) (answer ∷ []) }
{}

/// Calls of `vol` on one image that were done or refused, none of them a `format` or a `get` over
/// the image: at the end its file holds the volume that the tools of the calls that were done give,
/// in their order, of the volume at the beginning. A refused call leaves it unchanged.
pub fn commands_leave_what_their_tools_give()
    ensures { (name : List ℕ) (turns : List FinishedVolCall) (old new : List ℕ)
        → turns ≢ [] → All KeepsDisk turns → CallsInTurn name turns old new
        → (answers : List (List ℕ)) × LeavesInTurn (uses_of turns) (Some old) (Some new) answers }
{}

/// The same from a `format` on, whatever was before it: the tools of the calls after it begin with
/// the volume of its disk, which has no files.
pub fn commands_begin_with_a_format()
    ensures { (name : List ℕ) (earlier later : List FinishedVolCall) (format : FinishedVolCall)
        (old new : List ℕ) → format.vol.verb ≡ Format → All KeepsDisk later
        → CallsInTurn name (earlier ++ format ∷ later) old new → (answers : List (List ℕ))
        × LeavesNew (disk_of format.vol) (uses_of later) (Some new) answers }
{}

/// A `get` that was done leaves in its FILE the bytes of the file on the disk that it found, which
/// is the disk that the calls before it left.
pub fn a_get_leaves_the_file()
    ensures { (name old : List ℕ) (turn : FinishedVolCall) → IsTurnOn name old turn
        → turn.vol.verb ≡ Get → is_done turn ≡ true
        → AreBytesOfFile old (path_of turn.vol) (file_contents turn.now (file_of turn.vol)) }
{}

/// A `dir` that was done has printed the lines of the directory on the disk that it found.
pub fn a_dir_prints_its_directory()
    ensures { (name old : List ℕ) (turn : FinishedVolCall) (is : IsTurnOn name old turn)
        → turn.vol.verb ≡ Dir → is_done turn ≡ true
        → PrintsLines old turn is.called.before is.called.after }
{}

/// A `get` whose FILE is its image leaves there the bytes of the file on the disk.
pub fn a_get_over_its_image_leaves_the_file()
    ensures { (name old : List ℕ) (turn : FinishedVolCall) → IsTurnOn name old turn → GetsOver turn
        → AreBytesOfFile old (path_of turn.vol) (file_contents turn.now name) }
{}
