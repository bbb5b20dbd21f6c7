//! Blocks that are a process's own: what they are, and that they stay so.

ghost use Rattle.std.specs.Prelude.{◌≡◌, ◌≢◌, ℕ, Some, List};
ghost use Rattle.os9_base.specs.declared.calls.TheConstants.{F_LOAD};
ghost use Rattle.os9_base.specs.declared.registers.Regs.{Regs};
ghost use Rattle.proc_model.specs.Memory.{map_at};
ghost use Rattle.proc_model.specs.Slots.{NamesBlock};
ghost use Rattle.proc_model.specs.Records.{IsLiving};
ghost use Rattle.proc_model.specs.Ready.{act_of, attempts};
ghost use Rattle.proc_model.specs.Rows.{two_processes};
ghost use Rattle.call_laws.specs.Modules.{FollowsLinkRules};
ghost use Rattle.call_laws.specs.Objects.{Appears};
ghost use Rattle.call_laws.specs.Others.{HasRecord};
ghost use Rattle.isolation_laws.specs.Own.{AppearsIn, IsOfArea, IsOwn, IsOwnOrShared, KeepsOwnObject, NameAppeared};
ghost use Rattle.machine_model.specs.declared.ends.EventEnd.{EventEnd};
ghost use Rattle.machine_model.specs.declared.ends.SliceEnd.{SliceEnd};
ghost use Rattle.machine_model.specs.Event.{Event};
ghost use Rattle.machine_model.specs.Run.{Slice};
ghost use Rattle.machine_model.specs.Start.{Boot, Starts};
ghost use Rattle.machine_model.specs.State.{State};

/// An object that appears in the map of a process is its own at once, or belongs to the group of a
/// module, as the blocks of a loaded file do. If no module is entered, it is its own. An object
/// that appears in its data area is its own in every event except F$Load, which maps a group and
/// gives no area. So the blocks that F$Fork, F$Chain and F$Mem give a process are its own until it
/// gives them up.
pub fn what_appears_is_its_own()
    ensures own { (s t : State) (end : EventEnd) (p object : ℕ) → Event s end t
        → NameAppeared s.processes → AppearsIn s.processes p object t.processes
        → IsOwnOrShared t.processes p object }
    ensures unless_entered { (s t : State) (end : EventEnd) (p object : ℕ) → Event s end t
        → NameAppeared s.processes
        → FollowsLinkRules s.processes.memory.modules t.processes.memory.modules
        → AppearsIn s.processes p object t.processes → IsOwn t.processes p object }
    ensures area { (s t : State) (end : EventEnd) (p object : ℕ) → Event s end t
        → NameAppeared s.processes
        → ((q : ℕ) → s.chosen ≡ Some q → act_of s.processes q ≢ attempts F_LOAD)
        → HasRecord t.processes p → IsOfArea t.processes p object
        → Appears s.processes.memory t.processes.memory object → IsOwn t.processes p object }
{}

/// From the start on, maps and groups name only objects that have appeared.
pub fn names_have_appeared()
    ensures start { (boot : Boot) (s : State) → Starts boot s → NameAppeared s.processes }
    ensures event { (s t : State) (end : EventEnd) → Event s end t → NameAppeared s.processes
        → NameAppeared t.processes }
{}

/// A process's own object, such as a block of its data area, stays its own with the same bytes in
/// each slice that does not choose the process, whatever the others do: no other map gets to name
/// it. The process's own events keep it its own too, while its map names it.
pub fn what_is_its_own_is_left_to_a_process()
    ensures event { (s t : State) (end : EventEnd) (q p object : ℕ) → s.chosen ≡ Some q → p ≢ q
        → Event s end t → IsLiving s.processes.records p → IsOwn s.processes p object
        → KeepsOwnObject s.processes p object t.processes }
    ensures acting { (s t : State) (end : EventEnd) (p object : ℕ) → s.chosen ≡ Some p
        → Event s end t → IsOwn s.processes p object
        → NamesBlock (map_at t.processes.memory p) object
        → IsOwn t.processes p object }
    ensures slice { (n : ℕ) (s : State) (states : List State) (end : SliceEnd) (t : State)
        (p object : ℕ) → Slice n s states end t → t.chosen ≢ Some p
        → IsLiving s.processes.records p → IsOwn s.processes p object
        → KeepsOwnObject s.processes p object t.processes }
{}

/// The blocks of data areas are their processes' own: no other process, of any number, and no
/// module names them. This holds for the first process from the start on, and for two processes at
/// the same time.
pub fn data_areas_are_own()
    ensures start { (boot : Boot) (s : State) → Starts boot s
        → (object : ℕ) → IsOfArea s.processes 2 object → IsOwn s.processes 2 object }
    ensures first { (bytes : List ℕ) (one other : Regs)
        → IsOwn (two_processes bytes one other) 2 0 }
    ensures second { (bytes : List ℕ) (one other : Regs)
        → IsOwn (two_processes bytes one other) 3 1 }
{}
