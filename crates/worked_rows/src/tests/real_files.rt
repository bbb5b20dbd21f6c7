use super::hosts::gives;
use os9_outer::host::{Host, HostFault};
use os9_outer::real_host::RealHost;
use std::fs::Permissions;
use std::os::unix::fs::{MetadataExt, PermissionsExt, symlink};
use std::test::Fail;
use std::{env, fs, process};

// A name for a temporary file that only this process uses.
fn own_name(rt: &HostRuntime, what: &str) -> Result<String, Fail> {
    let folder = env::temp_dir(rt)?;
    let id = process::id(rt.process());
    Ok(format!(in rt.alloc(); "{}/os9_outer_{what}_{id}", folder.as_str())?)
}

#[test]
fn real_host_holds_files(rt: HostRuntime) -> Result<(), Fail> {
    let name = own_name(&rt, "file")?;
    let mut host = RealHost::new(rt.clone()?);
    let failed = HostFault::Failed;
    let files = (
        host.write_file(&name, b"bytes"),
        gives(&mut host, &name, b"bytes"),
        fs::remove_file(&rt, &name).is_ok(),
        host.read_file(&name).err(),
    );
    let streams = (host.out(b"out\n"), host.err(b"err\n"), host.err(&[255]));
    assert_eq!(rt;
        (files, streams),
        (
            (Ok(()), true, true, Some(failed)),
            (Ok(()), Ok(()), Err(failed))
        )
    );
    Ok(())
}

// The permissions of a file, if there is one of this name.
fn mode_of(rt: &HostRuntime, name: &str) -> Option<u32> {
    match fs::metadata(rt, name) {
        Ok(found) => Some(found.permissions().mode() & 0o777),
        Err(_) => None,
    }
}

fn is_link(rt: &HostRuntime, name: &str) -> bool {
    match fs::symlink_metadata(rt, name) {
        Ok(found) => found.is_symlink(),
        Err(_) => false,
    }
}

// The number of the file that the system has under this name.
fn node_of(rt: &HostRuntime, name: &str) -> Option<u64> {
    match fs::metadata(rt, name) {
        Ok(found) => Some(found.ino()),
        Err(_) => None,
    }
}

#[test]
fn real_host_replaces_files(rt: HostRuntime) -> Result<(), Fail> {
    let name = own_name(&rt, "old")?;
    let link = own_name(&rt, "link")?;
    let stale = format!(in rt.alloc(); "{name}.os9-1")?;
    let beside = format!(in rt.alloc(); "{name}.os9-2")?;
    let mut host = RealHost::new(rt.clone()?);
    let written = (
        host.write_file(&name, b"the old bytes"),
        fs::set_permissions(&rt, &name, Permissions::from_mode(0o640)).is_ok(),
        symlink(&rt, &name, &link).is_ok(),
        fs::write(&rt, &stale, "of another run").is_ok(),
        host.write_file(&link, b"the new"),
    );
    let left = (
        gives(&mut host, &name, b"the new"),
        is_link(&rt, &link),
        gives(&mut host, &stale, b"of another run"),
        matches!(fs::exists(&rt, &beside), Ok(false)),
        mode_of(&rt, &name),
    );
    let removed = (
        fs::remove_file(&rt, &link).is_ok(),
        fs::remove_file(&rt, &stale).is_ok(),
        fs::remove_file(&rt, &name).is_ok(),
    );
    assert_eq!(rt;
        (written, left, removed),
        (
            (Ok(()), true, true, true, Ok(())),
            (true, true, true, true, Some(0o640)),
            (true, true, true)
        )
    );
    Ok(())
}

#[test]
fn real_host_leaves_a_file_with_these_bytes(rt: HostRuntime) -> Result<(), Fail> {
    let name = own_name(&rt, "same")?;
    let mut host = RealHost::new(rt.clone()?);
    let first = host.write_file(&name, b"one text");
    let node = node_of(&rt, &name);
    let again = (
        host.write_file(&name, b"one text"),
        node_of(&rt, &name) == node,
    );
    let other = (
        host.write_file(&name, b"two text"),
        node_of(&rt, &name) == node,
    );
    let removed = fs::remove_file(&rt, &name).is_ok();
    assert_eq!(rt;
        (first, again, other, removed),
        (Ok(()), (Ok(()), true), (Ok(()), false), true)
    );
    Ok(())
}
