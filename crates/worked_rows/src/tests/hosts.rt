use os9_outer::host::{Host, HostFault};
use os9_outer::host_file::HostFile;
use os9_outer::mem_host::{FailedWrite, MemHost};
use os9_outer::sure_host::SureHost;
use std::alloc::Global;
use std::test::Fail;

fn one_file(alloc: Global) -> Result<Vec<HostFile>, Fail> {
    let name = String::from_str(alloc, "a")?;
    let bytes = vec![in alloc; 1, 2]?;
    Ok(vec![in alloc; HostFile { name, bytes }]?)
}

// A host with that file, whose calls of these numbers fail.
fn host_with_a(alloc: Global, plan: &[u64]) -> Result<MemHost, Fail> {
    let files = one_file(alloc)?;
    Ok(MemHost::new(alloc, files, Vec::from_slice(alloc, plan)?))
}

// Does a host give these bytes for the file of this name?
pub fn gives<H: Host>(host: &mut H, name: &str, bytes: &[u8]) -> bool {
    match host.read_file(name) {
        Ok(read) => read.as_slice() == bytes,
        Err(_) => false,
    }
}

// What a failed write of four bytes leaves in a file of two.
fn left_by(alloc: Global, failed: FailedWrite, bytes: &[u8]) -> Result<bool, Fail> {
    let mut host = host_with_a(alloc, &[1])?;
    host.failed_write = failed;
    let answer = host.write_file("a", &[6, 7, 8, 9]);
    Ok(answer == Err(HostFault::Failed) && gives(&mut host, "a", bytes))
}

#[test]
fn mem_host_leaves_what_is_planned(rt: HostRuntime) -> Result<(), Fail> {
    let left = (
        left_by(rt.alloc(), FailedWrite::Old, &[1, 2])?,
        left_by(rt.alloc(), FailedWrite::Half, &[6, 7])?,
        left_by(rt.alloc(), FailedWrite::New, &[6, 7, 8, 9])?,
    );
    assert_eq!(rt; left, (true, true, true));
    Ok(())
}

#[test]
fn sure_host_holds_files(rt: HostRuntime) -> Result<(), Fail> {
    let alloc = rt.alloc();
    let mut host = SureHost::new(alloc, one_file(alloc)?);
    let written = (
        host.write_file("b", &[7]),
        host.out(b"out"),
        host.err(b"err"),
    );
    let given = (
        gives(&mut host, "a", &[1, 2]),
        gives(&mut host, "b", &[7]),
        gives(&mut host, "missing", &[]),
    );
    assert_eq!(rt;
        (written, given),
        ((Ok(()), Ok(()), Ok(())), (true, true, true))
    );
    Ok(())
}
