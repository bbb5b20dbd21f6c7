//! Texts with their meanings, as laws that the check computes from the definitions. The expected
//! values are those of an outside program.

ghost use Rattle.std.specs.Prelude.{◌≡◌, Some, None, codes, map};
ghost use Rattle.asm_model.specs.declared.error.AsmError.TheVariants.{UnknownName, Twice, Range};
ghost use Rattle.asm_model.specs.FaultRows.{fault_rows, fault_of_row, expected_fault};
ghost use Rattle.asm_model.specs.Placement.{fault_on, source_fault};
ghost use Rattle.asm_model.specs.Print.{printed};
ghost use Rattle.asm_model.specs.PrintRows.{print_rows, text_of_row};
ghost use Rattle.asm_model.specs.ReadRows.{read_rows, bytes_of_row};
ghost use Rattle.asm_model.specs.Rows.{leax, hello, hello_without_text, hello_with_256, two_labels, two_starts, equal_to_label_below, twice_and_out, unknown_twice_and_out};

/// Instructions are printed as these texts.
pub fn instructions_are_printed()
    ensures leax { printed leax 18 ≡ codes "LEAX <$0022,PCR" }
    ensures rows { map text_of_row print_rows ≡ map (λ r. r.text) print_rows }
{}

/// Lines are read as these bytes, or refused.
pub fn lines_are_read()
    ensures { map bytes_of_row read_rows ≡ map (λ r. r.bytes) read_rows }
{}

/// Lines of a module break these rules, or none.
pub fn lines_break_rules()
    ensures { map fault_of_row fault_rows ≡ map expected_fault fault_rows }
{}

/// The first line that breaks a rule is reported, with the least rule that it breaks.
pub fn sources_break_rules()
    ensures hello { source_fault hello ≡ None }
    ensures no_text { source_fault hello_without_text ≡ Some (fault_on 2 UnknownName) }
    ensures too_large { source_fault hello_with_256 ≡ Some (fault_on 7 Range) }
    ensures two_labels { source_fault two_labels ≡ Some (fault_on 3 Twice) }
    ensures two_starts { source_fault two_starts ≡ Some (fault_on 2 Twice) }
    ensures below { source_fault equal_to_label_below ≡ Some (fault_on 2 UnknownName) }
    ensures two_rules { source_fault twice_and_out ≡ Some (fault_on 3 Twice) }
    ensures three_rules { source_fault unknown_twice_and_out ≡ Some (fault_on 3 UnknownName) }
{}
