//! Sources with their modules, as laws that the check computes from the definitions. The expected
//! values are those of an outside program.

ghost use Rattle.std.specs.Prelude.{◌≡◌, map};
ghost use Rattle.asm6809.specs.SourceRows.{source_rows, outcome_of_row};

/// Sources make these modules, or are refused.
pub fn sources_are_assembled()
    ensures { map outcome_of_row source_rows ≡ map (λ r. r.outcome) source_rows }
{}
