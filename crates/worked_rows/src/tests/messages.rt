//! Lines that no run of the program has had: a want of memory, and the greatest counts.

use os9_outer::mem_host::MemHost;
use os9_words::counts::{Counts, put_counts};
use os9_words::message::{Message, report};
use os9_words::stress_counts::{StressCounts, put_stress_counts};
use std::test::Fail;

#[test]
fn messages_of_no_run(rt: HostRuntime) -> Result<(), Fail> {
    let alloc = rt.alloc();
    let mut host = MemHost::new(alloc, Vec::new(alloc), Vec::new(alloc));
    report(&mut host, &Message::NoMemory)?;
    let counts = Counts {
        files: 4_294_967_295,
        directories: 524_280,
        free: 10,
        lost: 9,
    };
    put_counts(&mut host, &counts)?;
    let of_stress = StressCounts {
        slices: 4_294_967_295,
        files: 524_280,
        bytes: 18_446_744_073_709_551_615,
        free: 10,
        lost: 9,
    };
    put_stress_counts(&mut host, &of_stress)?;
    let lines = b"files 4294967295 dirs 524280 free 10 lost 9\n\
        slices 4294967295 files 524280 bytes 18446744073709551615 free 10 lost 9\n";
    assert_eq!(rt; host.err_bytes.as_slice(), b"os9: no memory\n".as_slice());
    assert_eq!(rt; host.out_bytes.as_slice(), lines.as_slice());
    Ok(())
}
