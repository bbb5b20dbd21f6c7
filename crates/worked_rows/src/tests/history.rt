use lock_model::history::{Entry, EntryBytes};
use lock_model::lock::{EntryKind, Range};
use lock_model::place::FilePlace;
use record_locks::history_text;
use std::alloc::{AllocError, Global};
use std::test::Fail;

// An entry of process 3 on path 12, with these bytes.
fn entry(
    alloc: Global,
    kind: EntryKind,
    number: u32,
    range: Range,
    bytes: &[u8],
) -> Result<Entry, AllocError> {
    Ok(Entry {
        kind,
        process: 3,
        path: 12,
        file: FilePlace { drive: 1, number },
        range,
        bytes: EntryBytes::new(Vec::from_slice(alloc, bytes)?),
    })
}

#[test]
fn lines_of_a_history(rt: HostRuntime) -> Result<(), Fail> {
    let alloc = rt.alloc();
    let record = Range {
        start: 8,
        end: Some(0x1c),
    };
    let rest = Range {
        start: 0xabcdef01,
        end: None,
    };
    let mut history = Vec::new(alloc);
    history.push(entry(alloc, EntryKind::Get, 0x10, record, b"bbbbbbb\r")?)?;
    history.push(entry(alloc, EntryKind::Drop, 0x10, record, b"")?)?;
    history.push(entry(alloc, EntryKind::Put, 0xfedcba, rest, b"\x00\xff")?)?;
    let text = history_text(alloc, &history)?;
    let lines = b"G 3 12 1:000010 00000008 0000001c 626262626262620d\n\
        D 3 12 1:000010 00000008 0000001c -\n\
        P 3 12 1:fedcba abcdef01 -------- 00ff\n";
    assert_eq!(rt; text.as_slice(), lines.as_slice());
    Ok(())
}
