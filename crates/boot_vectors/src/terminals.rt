ghost use Rattle.std.specs.Prelude.{◌≡◌, IfOk, []};

use crate::fields::RowError;
use os9_outer::script_tty::ScriptTty;
use os9_outer::terminal::CharDriver;
use std::alloc::{AllocError, Global};

/// A failing call of a terminal.
#[derive(Clone, Copy, Debug, PartialEq, Eq)]
pub(crate) struct TerminalCall {
    /// 0 for TERM, 1 to 3 for T1 to T3.
    terminal: u8,
    /// Its number among the calls of `key` and `put` of that terminal, from 1.
    call: u64,
}

/// The calls of a field such as `TERM 5,T1 2`.
pub(crate) fn terminal_calls(alloc: Global, field: &str) -> Result<Vec<TerminalCall>, RowError> {
    let mut calls = Vec::new(alloc);
    if field.is_empty() {
        return Ok(calls);
    }
    for words in field.split(',') {
        calls.push(terminal_call(words).ok_or(RowError::BadCall)?)?;
    }
    Ok(calls)
}

/// The terminal of this number, without keys, with those of the calls that are its own failing.
pub(crate) fn terminal(
    alloc: Global,
    calls: &[TerminalCall],
    number: u8,
) -> Result<ScriptTty, AllocError>
    ensures no_keys { IfOk result (λ tty. ⟦<ScriptTty as CharDriver>⟧.keys_left tty ≡ []) }
{
    Ok(ScriptTty::new(alloc, plan(alloc, calls, number)?))
}

/// The numbers of the failing calls of a terminal.
fn plan(alloc: Global, calls: &[TerminalCall], terminal: u8) -> Result<Vec<u64>, AllocError> {
    let mut plan = Vec::new(alloc);
    for call in calls {
        if call.terminal == terminal {
            plan.push(call.call)?;
        }
    }
    Ok(plan)
}

/// The call of words such as `TERM 5`.
fn terminal_call(words: &str) -> Option<TerminalCall> {
    let (name, number) = words.split_once(' ')?;
    Some(TerminalCall {
        terminal: terminal_number(name)?,
        call: number.parse::<u64>().ok()?,
    })
}

/// The number of the terminal of a name.
fn terminal_number(name: &str) -> Option<u8> {
    match name {
        "TERM" => Some(0),
        "T1" => Some(1),
        "T2" => Some(2),
        "T3" => Some(3),
        _ => None,
    }
}
