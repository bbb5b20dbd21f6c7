//! The names of files, in the order of the calls with these names.

ghost use Rattle.std.specs.Prelude.{◌≡◌, ◌++◌, ◌∷◌, [], IsOkUnless, OnErr, OnOk, map, string_bytes};
ghost use Rattle.os9_outer.specs.declared.host.HostFault.TheVariants.{OutOfMemory};

use crate::host::HostFault;

// Puts a name after the others.
pub(crate) fn note(names: &mut Vec<String>, name: &str) -> Result<(), HostFault>
    ensures noted { OnOk result
        (map string_bytes names.new.items ≡ map string_bytes names.old.items ++ name.now ∷ []) }
    ensures kept { OnErr result (names.new.items ≡ names.old.items) }
    ensures only_memory { IsOkUnless result HostFault.OutOfMemory }
{
    let alloc = *names.allocator();
    let copy = String::from_str(alloc, name).map_err(|_| HostFault::OutOfMemory)?;
    names.push(copy).map_err(|_| HostFault::OutOfMemory)
}
