ghost use Rattle.std.specs.Prelude.{◌≡◌, Ok, Err, IfOk, IsOkAnd, length};
ghost use Rattle.asm_model.specs.Placement.{fault_on};
ghost use Rattle.asm6809.specs.Assembled.{Assembled, outcome_of};
ghost use Rattle.asm6809.specs.Faults as model;
ghost use Rattle.asm6809.specs.Faults.{OnAsmError};

use crate::module::module_of;
use asm_lines::{first_fault, reached_by, read_lines};
use asm_model::error::AsmError;
use os9_base::call::OutOfMemory;
use std::alloc::{AllocError, Global};
use thiserror::Error;

/// Why a source was not assembled.
#[derive(Clone, Copy, Debug, PartialEq, Eq, Error)]
pub enum AsmFault {
    /// The line of this number, from 1, is the first that breaks a rule, and this is the least
    /// rule that it breaks. Line 0 with `NoModule`: no line breaks a rule, but there is no module.
    #[error("line {0}")]
    Line(u64, AsmError),
    /// Out of memory.
    #[error("out of memory")]
    OutOfMemory,
}

impl From<OutOfMemory> for AsmFault {
    ghost use Rattle.asm6809.specs.declared.assembler.AsmFault.TheVariants.{OutOfMemory};

    ghost from_gives = { λ _ fault. fault ≡ OutOfMemory };

    fn from(_error: OutOfMemory) -> AsmFault {
        AsmFault::OutOfMemory
    }
}

impl From<AllocError> for AsmFault {
    ghost use Rattle.asm6809.specs.declared.assembler.AsmFault.TheVariants.{OutOfMemory};

    ghost from_gives = { λ _ fault. fault ≡ OutOfMemory };

    fn from(_error: AllocError) -> AsmFault {
        AsmFault::OutOfMemory
    }
}

/// The number of an error, which its message reports.
pub fn error_number(error: AsmError) -> u8
    ensures { result ≡ model.error_number error }
{
    match error {
        AsmError::Syntax => 1,
        AsmError::UnknownName => 2,
        AsmError::Twice => 3,
        AsmError::Range => 4,
        AsmError::NoModule => 5,
    }
}

/// Assembles a source to the one module that it describes (this project's own language, in the
/// manner of the usual assemblers of the 6809).
///
/// Each line ends with a line feed; the last line may lack it. The time is proportional to the
/// length of the source, and the memory to the number of its lines.
///
/// # Errors
///
/// `Line` if and only if the source breaks a rule: with the first line that does, and the least
/// rule that it breaks. `OutOfMemory` for the lines, the labels, the code or the module.
pub fn assemble(alloc: Global, source: &[u8]) -> Result<Vec<u8>, AsmFault>
    ensures law { IfOk result (λ bytes. Assembled source.now bytes.items) }
    ensures bytes { IfOk result (λ bytes. outcome_of source.now ≡ Ok bytes.items) }
    ensures line { OnAsmError result (λ line error. outcome_of source.now
        ≡ Err (fault_on line error)) }
{
    let lines = read_lines(alloc, source)?;
    let all = reached_by(alloc, &lines)?;
    if let Some(fault) = first_fault(alloc, &lines, &all)? {
        return Err(AsmFault::Line(fault.line, fault.error));
    }
    match module_of(alloc, &lines, &all)? {
        Some(bytes) => Ok(bytes),
        None => Err(AsmFault::Line(0, AsmError::NoModule)),
    }
}

/// The number of bytes of the module that a source makes.
///
/// # Errors
///
/// Those of [`assemble`].
pub fn size(alloc: Global, source: &[u8]) -> Result<usize, AsmFault>
    ensures size { IfOk result (λ size. IsOkAnd (outcome_of source.now)
        (λ bytes. length bytes ≡ size)) }
    ensures line { OnAsmError result (λ line error. outcome_of source.now
        ≡ Err (fault_on line error)) }
{
    Ok(assemble(alloc, source)?.len())
}
