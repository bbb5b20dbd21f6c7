//! Calls without words, and with a key of a terminal that is not there: `boot_vectors` has a word in
//! each row, and four terminals.

use super::{QUIET, Step, file, shows};
use fixtures::guest::HELLO;
use std::test::Fail;

#[test]
fn no_words(rt: HostRuntime) -> Result<(), Fail> {
    let step = Step {
        status: 1,
        err: b"os9: words\n",
        ..QUIET
    };
    let _left = shows(&rt, rt.alloc(), Vec::new(rt.alloc()), &step)?;
    Ok(())
}

// There is one terminal.
#[test]
fn key_of_another_terminal(rt: HostRuntime) -> Result<(), Fail> {
    let mut files = Vec::new(rt.alloc());
    files.push(file(rt.alloc(), "h", &HELLO)?)?;
    files.push(file(rt.alloc(), "s", b"100")?)?;
    files.push(file(rt.alloc(), "t", b"# keys\n2 T1 0D")?)?;
    let step = Step {
        words: "run h --slices s --script t",
        status: 7,
        err: b"os9: t: line 2\n",
        ..QUIET
    };
    let _left = shows(&rt, rt.alloc(), files, &step)?;
    Ok(())
}
