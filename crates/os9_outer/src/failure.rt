ghost use Rattle.std.specs.Prelude.{◌≡◌, true, false, Some, None, IfOk, IsOkUnless, option_map, string_bytes};
ghost use Rattle.os9_outer.specs.declared.host.HostFault.TheVariants.{OutOfMemory};

use crate::host::HostFault;
use std::alloc::Global;

/// A failed call of a host that is counted: the name that it was given, which is none for a write
/// to the output stream, and whether it read a file.
#[derive(Debug, Drop)]
pub struct Failure {
    pub name: Option<String>,
    pub in_read: bool,
}

impl Failure {
    /// No call failed.
    pub fn none() -> Failure
        ensures name { result.name ≡ None }
        ensures in_read { result.in_read ≡ false }
    {
        Failure {
            name: None,
            in_read: false,
        }
    }

    pub fn of_output() -> Failure
        ensures name { result.name ≡ None }
        ensures in_read { result.in_read ≡ false }
    {
        Failure::none()
    }

    pub fn of_read(alloc: Global, name: &str) -> Result<Failure, HostFault>
        ensures name { IfOk result (λ it. option_map string_bytes it.name ≡ Some name.now) }
        ensures in_read { IfOk result (λ it. it.in_read ≡ true) }
        ensures only_memory { IsOkUnless result HostFault.OutOfMemory }
    {
        Ok(Failure {
            name: Some(copied(alloc, name)?),
            in_read: true,
        })
    }

    pub fn of_write(alloc: Global, name: &str) -> Result<Failure, HostFault>
        ensures name { IfOk result (λ it. option_map string_bytes it.name ≡ Some name.now) }
        ensures in_read { IfOk result (λ it. it.in_read ≡ false) }
        ensures only_memory { IsOkUnless result HostFault.OutOfMemory }
    {
        Ok(Failure {
            name: Some(copied(alloc, name)?),
            in_read: false,
        })
    }
}

fn copied(alloc: Global, name: &str) -> Result<String, HostFault>
    ensures copy { IfOk result (λ copy. string_bytes copy ≡ name.now) }
    ensures only_memory { IsOkUnless result HostFault.OutOfMemory }
{
    String::from_str(alloc, name).map_err(|_| HostFault::OutOfMemory)
}
