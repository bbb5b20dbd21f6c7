//! What is unchanged in the volumes and their images, as laws over all runs.

ghost use Rattle.std.specs.Prelude.{◌≡◌, ℕ, List, None, Some, slice_get};
ghost use Rattle.machine_model.specs.declared.ends.EventEnd.{EventEnd};
ghost use Rattle.machine_model.specs.declared.ends.SliceEnd.{SliceEnd};
ghost use Rattle.rbf_model.specs.Volume.{DiskVolume, Vol};
ghost use Rattle.file_rules.specs.Files.{volume_at};
ghost use Rattle.machine_model.specs.Event.{Event};
ghost use Rattle.machine_model.specs.Run.{BeginsSlice, Choose, Run, Slice, Tick};
ghost use Rattle.machine_model.specs.Start.{Boot, Starts};
ghost use Rattle.machine_model.specs.State.{State};
ghost use Rattle.run_laws.specs.Ends.{KeepsVolumeEnds, VolumesKeepEnds};
ghost use Rattle.run_laws.specs.Images.{IsWrittenBack};

/// No volume is lost and none appears, and each keeps its first sector and the bytes after its end:
/// in an event, even if a drive fails in it, in a tick and in a choice, and so in slices, in the
/// first events of a slice, and in complete runs. That holds from every state.
/// events of one, and whole runs. That holds from every state.
pub fn volumes_keep_their_ends()
    ensures event { (s t : State) (end : EventEnd) → Event s end t → VolumesKeepEnds s t }
    ensures tick { (s t : State) → Tick s t → VolumesKeepEnds s t }
    ensures choice { (s t : State) → Choose s t → VolumesKeepEnds s t }
    ensures slice { (n : ℕ) (s t : State) (states : List State) (end : SliceEnd)
        → Slice n s states end t → VolumesKeepEnds s t }
    ensures part { (n : ℕ) (s t : State) (states : List State)
        → BeginsSlice n s states t → VolumesKeepEnds s t }
    ensures run { (slices written : List ℕ) (s t : State) (states : List State)
        → Run slices s states written t → VolumesKeepEnds s t }
{}

/// A machine starts with the volumes of its images in its first drives, in their order, and with
/// none in the other drives.
pub fn images_are_in_the_first_drives()
    ensures image { (boot : Boot) (s : State) → Starts boot s → (n : ℕ) (image : List ℕ)
        → slice_get boot.images n ≡ Some image
        → (v : DiskVolume) × (volume_at s.files n ≡ Some v) × Vol image v }
    ensures none { (boot : Boot) (s : State) → Starts boot s → (n : ℕ)
        → slice_get boot.images n ≡ None → volume_at s.files n ≡ None }
{}

/// An image that represents a volume whose ends were kept has the length of the image before, its
/// first sector and its bytes after the volume. This holds at the end of every run for each image
/// with which the machine started.
pub fn images_keep_their_ends()
    ensures volume { (old new : List ℕ) (v w : DiskVolume) → Vol old v → Vol new w
        → KeepsVolumeEnds v w → IsWrittenBack old new w }
    ensures run { (boot : Boot) (slices written : List ℕ) (s t : State) (states : List State)
        → Starts boot s → Run slices s states written t
        → (n : ℕ) (old new : List ℕ) (w : DiskVolume)
        → slice_get boot.images n ≡ Some old → volume_at t.files n ≡ Some w → Vol new w
        → IsWrittenBack old new w }
{}
