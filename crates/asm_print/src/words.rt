ghost use Rattle.std.specs.Prelude.{◌≡◌, ◌+◌, ◌≤◌, ◌++◌, length};
ghost use Rattle.asm_model.specs.Mnemonics.{unary_word as unary_word_model, binary_word as binary_word_model, word_binary_word as word_binary_word_model, condition_word as condition_word_model, accumulator_word as accumulator_word_model, word_register_word as word_register_word_model, index_register_word as index_register_word_model, stack_word as stack_word_model, operation_word as operation_word_model, long_mark as long_mark_model};
ghost use Rattle.asm_model.specs.Print.{register_word as register_word_model};

use cpu_model::rows::{
    Accumulator, Binary, Condition, IndexRegister, Mode, Operation, Register, Stack, Unary,
    WordBinary, WordRegister,
};

fn unary_word(unary: Unary) -> &'static [u8]
    ensures word { result.now ≡ unary_word_model unary }
    ensures short { length result.now ≤ 3 }
{
    match unary {
        Unary::Neg => b"NEG",
        Unary::Com => b"COM",
        Unary::Lsr => b"LSR",
        Unary::Ror => b"ROR",
        Unary::Asr => b"ASR",
        Unary::Asl => b"ASL",
        Unary::Rol => b"ROL",
        Unary::Dec => b"DEC",
        Unary::Inc => b"INC",
        Unary::Tst => b"TST",
        Unary::Clr => b"CLR",
    }
}

fn binary_word(binary: Binary) -> &'static [u8]
    ensures word { result.now ≡ binary_word_model binary }
    ensures short { length result.now ≤ 3 }
{
    match binary {
        Binary::Sub => b"SUB",
        Binary::Cmp => b"CMP",
        Binary::Sbc => b"SBC",
        Binary::And => b"AND",
        Binary::Bit => b"BIT",
        Binary::Ld => b"LD",
        Binary::Eor => b"EOR",
        Binary::Adc => b"ADC",
        Binary::Or => b"OR",
        Binary::Add => b"ADD",
    }
}

fn word_binary_word(binary: WordBinary) -> &'static [u8]
    ensures word { result.now ≡ word_binary_word_model binary }
    ensures short { length result.now ≤ 3 }
{
    match binary {
        WordBinary::Sub => b"SUB",
        WordBinary::Cmp => b"CMP",
        WordBinary::Add => b"ADD",
        WordBinary::Ld => b"LD",
    }
}

fn condition_word(condition: Condition) -> &'static [u8]
    ensures word { result.now ≡ condition_word_model condition }
    ensures short { length result.now ≤ 2 }
{
    match condition {
        Condition::Always => b"RA",
        Condition::Never => b"RN",
        Condition::Higher => b"HI",
        Condition::LowerOrSame => b"LS",
        Condition::CarryClear => b"CC",
        Condition::CarrySet => b"CS",
        Condition::NotEqual => b"NE",
        Condition::Equal => b"EQ",
        Condition::OverflowClear => b"VC",
        Condition::OverflowSet => b"VS",
        Condition::Plus => b"PL",
        Condition::Minus => b"MI",
        Condition::GreaterOrEqual => b"GE",
        Condition::Less => b"LT",
        Condition::Greater => b"GT",
        Condition::LessOrEqual => b"LE",
    }
}

fn accumulator_word(accumulator: Accumulator) -> &'static [u8]
    ensures word { result.now ≡ accumulator_word_model accumulator }
    ensures short { length result.now ≤ 1 }
{
    match accumulator {
        Accumulator::A => b"A",
        Accumulator::B => b"B",
    }
}

fn word_register_word(register: WordRegister) -> &'static [u8]
    ensures word { result.now ≡ word_register_word_model register }
    ensures short { length result.now ≤ 1 }
{
    match register {
        WordRegister::D => b"D",
        WordRegister::X => b"X",
        WordRegister::Y => b"Y",
        WordRegister::U => b"U",
        WordRegister::S => b"S",
    }
}

pub(crate) fn index_register_word(register: IndexRegister) -> &'static [u8]
    ensures word { result.now ≡ index_register_word_model register }
    ensures short { length result.now ≤ 1 }
{
    match register {
        IndexRegister::X => b"X",
        IndexRegister::Y => b"Y",
        IndexRegister::U => b"U",
        IndexRegister::S => b"S",
    }
}

fn stack_word(stack: Stack) -> &'static [u8]
    ensures word { result.now ≡ stack_word_model stack }
    ensures short { length result.now ≤ 1 }
{
    match stack {
        Stack::System => b"S",
        Stack::User => b"U",
    }
}

pub(crate) fn register_word(register: Register) -> &'static [u8]
    ensures word { result.now ≡ register_word_model register }
    ensures short { length result.now ≤ 2 }
{
    match register {
        Register::D => b"D",
        Register::X => b"X",
        Register::Y => b"Y",
        Register::U => b"U",
        Register::S => b"S",
        Register::Pc => b"PC",
        Register::A => b"A",
        Register::B => b"B",
        Register::Cc => b"CC",
        Register::Dp => b"DP",
    }
}

/// The word of an operation: a stem, and an ending that names a register or a condition.
#[derive(Clone, Copy)]
pub(crate) struct OperationWord {
    pub(crate) stem: &'static [u8],
    pub(crate) ending: &'static [u8],
}

fn word(stem: &'static [u8], ending: &'static [u8]) -> OperationWord
    ensures stem { result.stem.now ≡ stem.now }
    ensures ending { result.ending.now ≡ ending.now }
{
    OperationWord { stem, ending }
}

/// The word of an operation.
pub(crate) fn operation_word(operation: Operation) -> OperationWord
    ensures word { result.stem.now ++ result.ending.now ≡ operation_word_model operation }
    ensures short { length result.stem.now + length result.ending.now ≤ 5 }
{
    match operation {
        Operation::Unary(unary) => word(unary_word(unary), b""),
        Operation::UnaryOn(unary, accumulator) => word(
            unary_word(unary),
            accumulator_word(accumulator),
        ),
        Operation::Binary(binary, accumulator) => word(
            binary_word(binary),
            accumulator_word(accumulator),
        ),
        Operation::Word(binary, register) => word(
            word_binary_word(binary),
            word_register_word(register),
        ),
        Operation::Store(accumulator) => word(b"ST", accumulator_word(accumulator)),
        Operation::StoreWord(register) => word(b"ST", word_register_word(register)),
        Operation::Jmp => word(b"JMP", b""),
        Operation::Jsr => word(b"JSR", b""),
        Operation::Branch(condition) => word(b"B", condition_word(condition)),
        Operation::Bsr => word(b"BSR", b""),
        Operation::Lea(register) => word(b"LEA", index_register_word(register)),
        Operation::Psh(stack) => word(b"PSH", stack_word(stack)),
        Operation::Pul(stack) => word(b"PUL", stack_word(stack)),
        Operation::Exg => word(b"EXG", b""),
        Operation::Tfr => word(b"TFR", b""),
        Operation::Orcc => word(b"ORCC", b""),
        Operation::Andcc => word(b"ANDCC", b""),
        Operation::Abx => word(b"ABX", b""),
        Operation::Daa => word(b"DAA", b""),
        Operation::Mul => word(b"MUL", b""),
        Operation::Sex => word(b"SEX", b""),
        Operation::Nop => word(b"NOP", b""),
        Operation::Rts => word(b"RTS", b""),
        Operation::Rti => word(b"RTI", b""),
        Operation::Swi => word(b"SWI", b""),
        Operation::Swi2 => word(b"SWI2", b""),
        Operation::Swi3 => word(b"SWI3", b""),
        Operation::Sync => word(b"SYNC", b""),
        Operation::Cwai => word(b"CWAI", b""),
    }
}

/// The mark of long branches.
pub(crate) fn long_mark(mode: Mode) -> &'static [u8]
    ensures word { result.now ≡ long_mark_model mode }
    ensures short { length result.now ≤ 1 }
{
    match mode {
        Mode::Relative16 => b"L",
        _ => b"",
    }
}
