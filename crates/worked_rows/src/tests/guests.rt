use asm6809::assemble;
use guest_mods::{Load, boot_image, shell_source, stress_image, stress_slices};
use std::alloc::Global;
use std::test::Fail;

// A volume with a file of 257 bytes uses two sectors for it.
#[test]
fn file_of_two_sectors(rt: HostRuntime) -> Result<(), Fail> {
    let image = boot_image(rt.alloc(), &[0x12; 257])?;
    assert_eq!(rt; image.len(), 1_048_576);
    assert_eq!(rt; (image.get(24), image.get(25)), (Some(&1), Some(&1)));
    assert_eq!(rt; (image.get(256), image.get(257)), (Some(&0xff), Some(&0)));
    assert_eq!(rt; (image.get(1300), image.get(1301)), (Some(&2), Some(&0)));
    assert_eq!(rt; (image.get(1792), image.get(1793)), (Some(&0x12), Some(&0)));
    Ok(())
}

/// The image of a load of one Worker with two records.
fn small_image(alloc: Global, seed: u32) -> Result<Vec<u8>, Fail> {
    let load = Load {
        seed: seed % 2,
        workers: 1,
        passes: 1,
        records: 2,
    };
    Ok(stress_image(alloc, &load)?)
}

// The boot file begins in sector 6, has two modules and ends with the lengths of the records.
#[test]
fn small_loads(rt: HostRuntime) -> Result<(), Fail> {
    let image = small_image(rt.alloc(), 0)?;
    assert_eq!(rt; image.len(), 1_048_576);
    for (at, byte) in [
        (1536, 0x87),
        (1537, 0xcd),
        (1616, 0x87),
        (1617, 0xcd),
        (1819, 1),
        (1820, 29),
    ] {
        assert_eq!(rt; image.get(at), Some(&byte));
    }
    assert_eq!(rt; small_image(rt.alloc(), 1)?.get(1819), Some(&7));
    Ok(())
}

#[test]
fn first_slices(rt: HostRuntime) -> Result<(), Fail> {
    let slices = stress_slices(rt.alloc(), 0, 2)?;
    assert_eq!(rt; slices.as_slice(), [397, 175].as_slice());
    Ok(())
}

/// The header and the name of the shell's module. With its CRC and its length they are those of
/// `examples/shell.mod`, which `crates/boot_vectors/assemble.py` makes from the same text. That
/// assembler shares nothing with this one.
const SHELL_HEAD: [u8; 18] = [
    0x87, 0xcd, 0x00, 0x6e, 0x00, 0x0d, 0x11, 0x81, 0x46, 0x00, 0x12, 0x00, 0xc8, 0x53, 0x79, 0x73,
    0x47, 0xef,
];

/// The last bytes of that module.
const SHELL_CRC: [u8; 3] = [0xfb, 0xea, 0x3d];

/// The number of bytes of that module.
const SHELL_LENGTH: usize = 110;

// The entry offset is the word at 9, the address just after the name, and the name is `SysGo`.
#[test]
fn shell_is_assembled(rt: HostRuntime) -> Result<(), Fail> {
    let module = assemble(rt.alloc(), shell_source())?;
    assert_eq!(rt; module.len(), SHELL_LENGTH);
    assert!(rt; module.as_slice().starts_with(&SHELL_HEAD));
    assert!(rt; module.as_slice().ends_with(&SHELL_CRC));
    Ok(())
}
