ghost use Rattle.std.specs.Prelude.{◌≡◌, ◌≢◌, ℕ, ◌+◌, ◌<◌, ◌≤◌, ◌↔◌, All, length, drop, slice_index, slice_range};
ghost use Rattle.proc_model.specs.Module as model;
ghost use Rattle.proc_model.specs.Module.{step_from, IfModule, IsModule};

use crate::header::read_module;
use proc_model::module::{ModuleInfo, ModuleStep};

/// The next item in a file of modules from a place on: zero bytes are skipped, and the module after
/// them is read. Its `at` is the place of its first byte.
pub fn next_module(bytes: &[u8], from: u32) -> ModuleStep
    requires short { length bytes.now ≤ 65536 }
    requires within { from ≤ length bytes.now }
    ensures step { result ≡ step_from bytes.now from }
    ensures end { (result ≡ ModuleStep.End) ↔ All (λ byte. byte ≡ 0) (drop from bytes.now) }
    ensures module { IfModule result
        (λ info. IsModule (slice_range bytes.now info.at (info.at + info.size))) }
    ensures in_file { IfModule result (λ info. info.at + info.size ≤ length bytes.now) }
{
    let at = next_place(bytes, from as usize);
    if at == bytes.len() {
        return ModuleStep::End;
    }
    match read_module(&bytes[at..]) {
        Ok(info) => ModuleStep::Module(ModuleInfo {
            at: at as u32,
            ..info
        }),
        Err(fault) => ModuleStep::Fault(at as u32, fault),
    }
}

/// The first place from this one on with a nonzero byte, or the end.
fn next_place(bytes: &[u8], from: usize) -> usize
    requires { from ≤ length bytes.now }
    ensures place { result ≡ model.next_place bytes.now from }
    ensures from_there { from ≤ result }
    ensures within { result ≤ length bytes.now }
    ensures zeros { (k : ℕ) → from ≤ k → k < result → slice_index bytes.now k ≡ 0 }
    ensures other { result < length bytes.now → slice_index bytes.now result ≢ 0 }
{
    for at in from..bytes.len() {
        if bytes[at] != 0 {
            return at;
        }
    }
    bytes.len()
}
