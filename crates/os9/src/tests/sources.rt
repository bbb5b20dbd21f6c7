//! Sources in the file `s`, assembled to `m`, which holds `old`. The expected values are those of an
//! outside program.

use super::{QUIET, Step, bytes_of, file, shows};
use fixtures::guest::HELLO;
use os9_outer::host_file::HostFile;
use std::alloc::{AllocError, Global};
use std::test::Fail;

/// A program that writes `Hello` and a carriage return, and exits with 0.
const HELLO_SOURCE: &[u8] =
    b" mod SysGo,$11,$81,200\nstart leax <text,pcr\n ldy #80\n lda #1\n os9 $8c\n clrb\n os9 6\ntext fcc \"Hello\"\n fcb $0d\n emod\n";

const ASM: Step = Step {
    words: "asm s m",
    ..QUIET
};

fn files(alloc: Global, source: &[u8]) -> Result<Vec<HostFile>, AllocError> {
    let mut files = Vec::new(alloc);
    files.push(file(alloc, "s", source)?)?;
    files.push(file(alloc, "m", b"old")?)?;
    Ok(files)
}

#[test]
fn sources_are_assembled(rt: HostRuntime) -> Result<(), Fail> {
    for (words, out) in [("asm s m", "m"), ("asm s n", "n"), ("asm s s", "s")] {
        let step = Step { words, ..ASM };
        let left = shows(&rt, rt.alloc(), files(rt.alloc(), HELLO_SOURCE)?, &step)?;
        assert!(rt; bytes_of(&left, out) == HELLO.as_slice());
    }
    Ok(())
}

// The host reads SOURCE, and then writes OUT.
#[test]
fn sources_are_refused(rt: HostRuntime) -> Result<(), Fail> {
    let rows: [(&[u8], &[u64], u8, &[u8]); 6] = [
        (b"", &[], 10, b"os9: s: line 0 error 5\n"),
        (
            b" mod a,$21,0,0\n\tnop\n emod\n",
            &[],
            10,
            b"os9: s: line 2 error 1\n",
        ),
        (
            b" mod a,$21,0,0\n ldb #256\n emod\n",
            &[],
            10,
            b"os9: s: line 2 error 4\n",
        ),
        (
            b" mod a,$21,0,0\nl nop\nl fcb m\n emod\n",
            &[],
            10,
            b"os9: s: line 3 error 2\n",
        ),
        (HELLO_SOURCE, &[1], 2, b"os9: cannot read s\n"),
        (HELLO_SOURCE, &[2], 3, b"os9: cannot write m\n"),
    ];
    for (source, host, status, err) in rows {
        let step = Step {
            host,
            status,
            err,
            ..ASM
        };
        let left = shows(&rt, rt.alloc(), files(rt.alloc(), source)?, &step)?;
        assert!(rt; bytes_of(&left, "m") == b"old".as_slice());
        assert!(rt; bytes_of(&left, "s") == source);
    }
    Ok(())
}
