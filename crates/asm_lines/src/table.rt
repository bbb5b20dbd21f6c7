ghost use Rattle.std.specs.Prelude.{◌≡◌, Some, [], List, IfOk};
ghost use Rattle.asm_model.specs.Placement.{LabelValue, with_label};
ghost use Rattle.asm_lines.specs.Labels.{HoldsLabels, value_in};

use os9_base::call::OutOfMemory;
use std::alloc::Global;
use std::collections::HashMap;

/// Labels, each with its value, if the value is known.
#[derive(Drop)]
pub struct Labels<'a> {
    values: HashMap<&'a [u8], Option<i64>>,
}

impl<'a> Labels<'a> {
    // No labels.
    pub(crate) fn new(alloc: Global) -> Labels<'a>
        ensures { HoldsLabels result [] }
    {
        Labels {
            values: HashMap::new(alloc),
        }
    }

    /// The meaning of a label: nothing if there is no such label, otherwise its value, if known.
    pub fn get(&self, name: &[u8]) -> Option<Option<i64>>
        ensures { result ≡ value_in self.now name.now }
    {
        self.values.get(name).copied()
    }

    // Adds a label. A known label keeps its value.
    pub(crate) fn add(&mut self, name: &'a [u8], value: Option<i64>) -> Result<(), OutOfMemory>
        ensures { IfOk result (λ _. (labels : List LabelValue) → HoldsLabels self.old labels
            → HoldsLabels self.new (with_label labels (Some name.entry.now) value)) }
    {
        if self.values.contains_key(name) {
            return Ok(());
        }
        match self.values.insert(name, value) {
            Ok(_) => Ok(()),
            Err(_) => Err(OutOfMemory),
        }
    }
}
