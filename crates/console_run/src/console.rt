ghost use Rattle.std.specs.Prelude.{◌≡◌};
ghost use Rattle.console_run.specs.Typed.{IsUntyped};

use crate::typed::Typed;
use std::alloc::Global;

/// The place of a person who types at a machine.
#[derive(Drop)]
pub struct Console<K> {
    /// Where it takes memory.
    pub alloc: Global,
    /// What gives the lines.
    pub keyboard: K,
    /// The bytes of the line that is being typed, with its Return.
    pub line: Vec<u8>,
    /// How many of them are typed.
    pub place: usize,
    /// What is kept of the session.
    pub typed: Typed,
}

impl<K: Drop> Console<K> {
    /// The place at this keyboard, before anything is typed.
    pub fn new(alloc: Global, keyboard: K) -> Console<K>
        ensures keyboard { result.keyboard ≡ keyboard }
        ensures untyped { IsUntyped result.typed }
    {
        Console {
            alloc,
            keyboard,
            line: Vec::new(alloc),
            place: 0,
            typed: Typed {
                parts: Vec::new(alloc),
                slices: 0,
            },
        }
    }
}
