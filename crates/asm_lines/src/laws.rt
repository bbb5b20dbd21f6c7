//! Laws of lines that are instructions or statements.

ghost use Rattle.std.specs.Prelude.{◌≡◌, ℕ, Option, Some, List, codes};
ghost use Rattle.cpu_model.specs.declared.instruction.Instr.{Instr};
ghost use Rattle.asm_model.specs.Instructions.{Shape, shape_of, shape_instr, instr_of};
ghost use Rattle.asm_model.specs.Statements.{Statement, instruction, stated, line_read};
ghost use Rattle.asm_lines.specs.Instructions.{IsShape, IsInstruction};
ghost use Rattle.asm_lines.specs.Statements.{IsStatement, stating, behind_label, States};

/// A word and an operand that have a shape by their form are read as that shape, even if the
/// operand names labels.
pub fn operand_is_read()
    ensures { (word text : List ℕ) (s : Shape) → IsShape word text s → shape_of word text ≡ Some s }
{}

/// A word and an operand that are read as a shape have that shape by their form.
pub fn only_operands_are_read()
    ensures { (word text : List ℕ) (s : Shape) → shape_of word text ≡ Some s → IsShape word text s }
{}

/// A line that is an instruction by its form is read as that instruction.
pub fn instruction_is_read()
    ensures { (line : List ℕ) (at : ℕ) (i : Instr) → IsInstruction line at i
        → instr_of line at ≡ Some i }
{}

/// A line that is read as an instruction is that instruction by its form.
pub fn only_instructions_are_read()
    ensures { (line : List ℕ) (at : ℕ) (i : Instr) → instr_of line at ≡ Some i
        → IsInstruction line at i }
{}

/// Empty brackets are not an operand: `lda []` is not an instruction.
pub fn empty_brackets_are_refused()
    ensures { (at : ℕ) (i : Instr) → ¬ IsInstruction (codes "lda []") at i }
{}

/// If a line of a source states an instruction whose expression has numbers alone, the part after
/// its label is read as that instruction.
pub fn stated_instruction_is_read()
    ensures { (line : List ℕ) (name : Option (List ℕ)) (s : Shape) (at : ℕ)
        → line_read line ≡ stated (stating name (instruction s))
        → instr_of (behind_label line) at ≡ shape_instr at s }
{}

/// A line that is an instruction by its form states that instruction in a source.
pub fn instruction_is_stated()
    ensures { (line : List ℕ) (at : ℕ) (i : Instr) → IsInstruction line at i → States line at i }
{}

/// A line that is a statement by its form is read as that statement.
pub fn statement_is_read()
    ensures { (line : List ℕ) (s : Statement) → IsStatement line s → line_read line ≡ stated s }
{}

/// A line that is read as a statement is that statement by its form.
pub fn only_statements_are_read()
    ensures { (line : List ℕ) (s : Statement) → line_read line ≡ stated s → IsStatement line s }
{}
