ghost use Rattle.std.specs.Prelude.{◌≡◌};
ghost use Rattle.cpu_model.specs.Flags as flags;
ghost use Rattle.cpu_model.specs.Operations as model;

use cpu_alu::{
    Flags, add8, add16, asl8, asr8, clr8, com8, dec8, flags_of, inc8, logic8, logic16, lsr8, neg8,
    rol8, ror8, sub8, sub16, with_flags,
};
use cpu_model::rows::{Binary, Condition, Unary, WordBinary};

/// A byte, and the condition codes with its flags.
#[inline(always)]
fn coded8(made: (u8, Flags), cc: u8) -> (u8, u8)
    ensures { result ≡ (made.0, flags.cc_with made.1 cc) }
{
    (made.0, with_flags(cc, made.1))
}

/// A word, and the condition codes with its flags.
#[inline(always)]
fn coded16(made: (u16, Flags), cc: u8) -> (u16, u8)
    ensures { result ≡ (made.0, flags.cc_with made.1 cc) }
{
    (made.0, with_flags(cc, made.1))
}

/// NEG to CLR of a byte: its new value, and the condition codes.
#[inline(always)]
pub(crate) fn unary(operation: Unary, a: u8, cc: u8) -> (u8, u8)
    ensures value { result.0 ≡ model.unary_value operation a (flags.flags_of cc) }
    ensures flags { result.1
        ≡ flags.cc_with (model.unary_flags operation a (flags.flags_of cc)) cc }
{
    let f = flags_of(cc);
    match operation {
        Unary::Neg => coded8(neg8(a, f), cc),
        Unary::Com => coded8(com8(a, f), cc),
        Unary::Lsr => coded8(lsr8(a, f), cc),
        Unary::Ror => coded8(ror8(a, f), cc),
        Unary::Asr => coded8(asr8(a, f), cc),
        Unary::Asl => coded8(asl8(a, f), cc),
        Unary::Rol => coded8(rol8(a, f), cc),
        Unary::Dec => coded8(dec8(a, f), cc),
        Unary::Inc => coded8(inc8(a, f), cc),
        Unary::Tst => coded8((a, logic8(a, f)), cc),
        Unary::Clr => coded8(clr8(f), cc),
    }
}

/// SUB to ADD of an accumulator and a byte: the accumulator's new value, and the condition codes.
#[inline(always)]
pub(crate) fn binary(operation: Binary, a: u8, b: u8, cc: u8) -> (u8, u8)
    ensures value { result.0 ≡ model.binary_value operation a b (flags.flags_of cc) }
    ensures flags { result.1
        ≡ flags.cc_with (model.binary_flags operation a b (flags.flags_of cc)) cc }
{
    let f = flags_of(cc);
    match operation {
        Binary::Sub => coded8(sub8(a, b, false, f), cc),
        Binary::Cmp => coded8((a, sub8(a, b, false, f).1), cc),
        Binary::Sbc => coded8(sub8(a, b, f.c, f), cc),
        Binary::And => coded8((a & b, logic8(a & b, f)), cc),
        Binary::Bit => coded8((a, logic8(a & b, f)), cc),
        Binary::Ld => coded8((b, logic8(b, f)), cc),
        Binary::Eor => coded8((a ^ b, logic8(a ^ b, f)), cc),
        Binary::Adc => coded8(add8(a, b, f.c, f), cc),
        Binary::Or => coded8((a | b, logic8(a | b, f)), cc),
        Binary::Add => coded8(add8(a, b, false, f), cc),
    }
}

/// SUB to ADD of a register of sixteen bits and a word: the register's new value, and the
/// condition codes.
#[inline(always)]
pub(crate) fn word_binary(operation: WordBinary, a: u16, b: u16, cc: u8) -> (u16, u8)
    ensures value { result.0 ≡ model.word_value operation a b }
    ensures flags { result.1
        ≡ flags.cc_with (model.word_flags operation a b (flags.flags_of cc)) cc }
{
    let f = flags_of(cc);
    match operation {
        WordBinary::Sub => coded16(sub16(a, b, f), cc),
        WordBinary::Cmp => coded16((a, sub16(a, b, f).1), cc),
        WordBinary::Add => coded16(add16(a, b, f), cc),
        WordBinary::Ld => coded16((b, logic16(b, f)), cc),
    }
}

/// Is a branch with this condition taken? Each condition depends on its own flags alone.
#[inline(always)]
pub(crate) fn holds(condition: Condition, cc: u8) -> bool
    ensures { result ≡ model.holds condition (flags.flags_of cc) }
{
    match condition {
        Condition::Always => true,
        Condition::Never => false,
        Condition::Higher => !(flags_of(cc).c || flags_of(cc).z),
        Condition::LowerOrSame => flags_of(cc).c || flags_of(cc).z,
        Condition::CarryClear => !flags_of(cc).c,
        Condition::CarrySet => flags_of(cc).c,
        Condition::NotEqual => !flags_of(cc).z,
        Condition::Equal => flags_of(cc).z,
        Condition::OverflowClear => !flags_of(cc).v,
        Condition::OverflowSet => flags_of(cc).v,
        Condition::Plus => !flags_of(cc).n,
        Condition::Minus => flags_of(cc).n,
        Condition::GreaterOrEqual => !is_less(cc),
        Condition::Less => is_less(cc),
        Condition::Greater => !(flags_of(cc).z || is_less(cc)),
        Condition::LessOrEqual => flags_of(cc).z || is_less(cc),
    }
}

/// Are N and V different?
#[inline(always)]
fn is_less(cc: u8) -> bool
    ensures { result ≡ model.is_less (flags.flags_of cc) }
{
    let f = flags_of(cc);
    f.n != f.v
}
