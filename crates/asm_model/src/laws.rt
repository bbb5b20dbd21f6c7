//! Laws of the texts of instructions.

ghost use Rattle.std.specs.Prelude.{◌≡◌, ℕ, true, Some, List};
ghost use Rattle.cpu_model.specs.declared.instruction.Instr.{Instr};
ghost use Rattle.cpu_model.specs.declared.instruction.Page.{Page};
ghost use Rattle.cpu_model.specs.declared.rows.Row.{Row};
ghost use Rattle.cpu_model.specs.Table.{row};
ghost use Rattle.cpu_table.specs.Spelling.{IsPlainInstr};
ghost use Rattle.asm_model.specs.declared.operand.Mark.{Mark};
ghost use Rattle.asm_model.specs.Instructions.{entry_of, instr_of, row_entry};
ghost use Rattle.asm_model.specs.Laws.{InstructionFits};
ghost use Rattle.asm_model.specs.Mnemonics.{row_word};
ghost use Rattle.asm_model.specs.Operands.{fits};
ghost use Rattle.asm_model.specs.Print.{printed};

/// The text of an instruction that decoding can give is read as the same instruction, at each
/// offset.
pub fn printed_text_is_read_again()
    ensures { (i : Instr) (at : ℕ) → IsPlainInstr i → InstructionFits i
        → instr_of (printed i at) at ≡ Some i }
{}

/// Each instruction that is read from a line is one that decoding can give.
pub fn read_instruction_is_plain()
    ensures { (line : List ℕ) (at : ℕ) (i : Instr) → instr_of line at ≡ Some i → IsPlainInstr i }
{}

/// Each row of the opcode map is the row found for its word and any kind of operand that it may
/// have.
pub fn word_has_one_row()
    ensures { (page : Page) (opcode : ℕ) (r : Row) (mark : Mark) → row page opcode ≡ Some r
        → fits r mark ≡ true → entry_of (row_word r) mark ≡ Some (row_entry page opcode r) }
{}
