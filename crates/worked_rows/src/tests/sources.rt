//! Sources that are too long for a row of `asm_vectors`.

use asm_model::error::AsmError;
use asm6809::{AsmFault, size};
use std::alloc::{AllocError, Global};
use std::test::Fail;

/// The source of a module of one long text, which ends at this length.
fn long_source(alloc: Global, length: usize) -> Result<Vec<u8>, AllocError> {
    let mut source = Vec::new(alloc);
    source.extend_from_slice(b" mod a,$21,0,0\n fcc \"")?;
    // The header has 9 bytes, the name one and the CRC three.
    for _ in 13..length {
        source.push(b'x')?;
    }
    source.extend_from_slice(b"\"\n emod\n")?;
    Ok(source)
}

#[test]
fn lengths(rt: HostRuntime) -> Result<(), Fail> {
    let most = long_source(rt.alloc(), 57_344)?;
    assert_eq!(rt; size(rt.alloc(), &most), Ok(57_344));
    let too_long = AsmFault::Line(3, AsmError::Range);
    for length in [57_345, 1_000_000] {
        let source = long_source(rt.alloc(), length)?;
        assert_eq!(rt; size(rt.alloc(), &source), Err(too_long), "{length} bytes");
    }
    Ok(())
}

/// The source of a module of `count` labels, each of which names the one above it.
fn many_labels(alloc: Global, count: u32) -> Result<Vec<u8>, AllocError> {
    let mut source = Vec::new(alloc);
    source.extend_from_slice(b" mod a,$21,0,0\nl0 equ *\n")?;
    for i in 1..count {
        let line = format!(in alloc; "l{i} equ l{}\n", i - 1)?;
        source.extend_from_slice(line.as_bytes())?;
    }
    source.extend_from_slice(b" emod")?;
    Ok(source)
}

#[test]
fn labels(rt: HostRuntime) -> Result<(), Fail> {
    let source = many_labels(rt.alloc(), 20_000)?;
    assert_eq!(rt; size(rt.alloc(), &source), Ok(13));
    Ok(())
}
