//! Lines of a debugger, as laws that the check computes from the definitions. The expected lines
//! are those of a worked run, and follow the opcode map of the MC6809 programming manual.

ghost use Rattle.std.specs.Prelude.{◌≡◌, codes};
ghost use Rattle.os9_debug.specs.Disassembly.{dis_lines};
ghost use Rattle.os9_debug.specs.Rows.{first_regs, hello_cells, last_cells};
ghost use Rattle.os9_debug.specs.Show.{mem_line, regs_text};

/// Registers, bytes of memory and instructions are printed as these lines.
pub fn lines_are_printed()
    ensures registers { regs_text first_regs
        ≡ codes " pc E015 a 00 b 00 dp 00 cc 00 x E022 y 0100 u 0000 s 0100" }
    ensures instruction { dis_lines hello_cells 57365 1 ≡ codes "E015 LDY #$0050\n" }
    ensures around { mem_line last_cells (record { at = 65535; count = 3 })
        ≡ codes "FFFF AF 07 --\n" }
    ensures cut_off { dis_lines last_cells 65535 2 ≡ codes "FFFF STX 7,X\n0001 ?\n" }
{}
