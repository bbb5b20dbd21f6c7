//! Volumes on which each change finds its place.

ghost use Rattle.std.specs.Prelude.{◌≡◌, ℕ, ◌<◌, List};
ghost use Rattle.os9_base.specs.declared.registers.TimePacket.{TimePacket};
ghost use Rattle.rbf_model.specs.Volume.{DiskVolume, Vol};
ghost use Rattle.rbf_change.specs.Calls.{cluster_size};
ghost use Rattle.machine_model.specs.declared.ends.EventEnd.{EventEnd};
ghost use Rattle.file_rules.specs.Change.{Change, AppliesChange, ChangeMayLeave};
ghost use Rattle.machine_model.specs.Event.{Event};
ghost use Rattle.machine_model.specs.Run.{Choose, Tick};
ghost use Rattle.machine_model.specs.Start.{Boot, Starts};
ghost use Rattle.machine_model.specs.State.{State};
ghost use Rattle.run_laws.specs.Mounted.{CanGo};
ghost use Rattle.run_laws.specs.InOrder.{AreInOrder, DeletesNoDirectory, IsInOrder};

/// The volume of a well formed image is in order: the segments of each file hold its contents, no
/// list of segments is longer than a descriptor, and the root is a directory. Each change of a
/// volume keeps it in order, and so does a fault of the drive that ends a change, if no directory
/// is deleted.
pub fn each_change_keeps_a_volume_in_order()
    ensures image { (image : List ℕ) (v : DiskVolume) → Vol image v → IsInOrder v }
    ensures made { (change : Change) (user : ℕ) (now : TimePacket) (v w : DiskVolume) (number : ℕ)
        → 0 < cluster_size v → DeletesNoDirectory change v
        → AppliesChange change user now v w number → IsInOrder v → IsInOrder w }
    ensures left { (change : Change) (user : ℕ) (now : TimePacket) (v w : DiskVolume)
        → DeletesNoDirectory change v → ChangeMayLeave change user now v w → IsInOrder v
        → IsInOrder w }
{}

/// The volumes with which a machine starts are in order, and each event, each tick and each choice
/// keeps them in order, even with faults.
pub fn volumes_stay_in_order()
    ensures start { (boot : Boot) (s : State) → Starts boot s → AreInOrder s.files }
    ensures event { (s t : State) (end : EventEnd) → Event s end t → CanGo s → AreInOrder s.files
        → AreInOrder t.files }
    ensures tick { (s t : State) → Tick s t → AreInOrder s.files → AreInOrder t.files }
    ensures choice { (s t : State) → Choose s t → AreInOrder s.files → AreInOrder t.files }
{}
