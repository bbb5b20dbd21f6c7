//! What a program begins with.

ghost use Rattle.std.specs.Prelude.{◌≡◌, ℕ, ◌<◌, ◌≤◌, Ok, length};
ghost use Rattle.proc_model.specs.Program.{Program, area_size, blocks_of_pages, with_parameters};
ghost use Rattle.isolation_laws.specs.DataAreas.{HoldInOrder, area_bytes};
ghost use Rattle.proc_model.specs.Memory.{MemoryState};
ghost use Rattle.proc_model.specs.MemoryChanges.{linked, started};

/// The objects that appear when a program begins are its data area: zeros, the parameters that end
/// where the area ends, and zeros after it.
pub fn a_program_begins_with_zeros_and_its_parameters()
    ensures area { (m n : MemoryState) (c : ℕ) (program : Program) → c < length m.maps
        → length program.parameters ≤ area_size program
        → started m c program.entered.number (blocks_of_pages program.pages) ≡ Ok n
        → HoldInOrder (area_bytes program) (length m.objects)
        (with_parameters (linked n program.entered.number) c program).objects }
{}
