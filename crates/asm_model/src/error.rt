/// Why a source is refused (this project's own).
#[derive(Clone, Copy, Debug, PartialEq, Eq)]
pub enum AsmError {
    /// Error 1: a line that is not of the language.
    Syntax,
    /// Error 2: a label of no line; in `equ`, a label of no line above.
    UnknownName,
    /// Error 3: a label that a line above already has, or a second `mod` or `emod`.
    Twice,
    /// Error 4: a value out of its range.
    Range,
    /// Error 5: the lines break no rule, but make no module: `mod` is not the first statement,
    /// `emod` is not the last, or a program does not begin within the module.
    NoModule,
}
