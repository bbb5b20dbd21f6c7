ghost use Rattle.std.specs.Prelude.{◌≡◌, ◌+◌, ◌*◌, ◌<◌, ◌≤◌, ◌++◌, IfOk, Some, length};
ghost use Rattle.os9_base.specs.Name.{parsed_name};
ghost use Rattle.proc_model.specs.Module.{IsModule};
ghost use Rattle.guest_mods.specs.Stress.{IsLoad, record_lengths, program_module, sysgo_module, worker_module};

use crate::load::Load;
use crate::random::{draw, next_random};
use module_format::{CodeHeader, module};
use os9_base::call::OutOfMemory;
use os9_base::calls::{
    F_EXIT, F_FORK, F_WAIT, I_CREATE, I_OPEN, I_READ, I_SEEK, I_SETSTT, I_WRITE,
};
use os9_base::name::parse_name;
use std::alloc::{AllocError, Global};

/// The type and language of a program in 6809 code.
const PROGRAM: u8 = 0x11;

/// The attributes and revision: re-entrant, revision 1.
const ATTRIBUTES: u8 = 0x81;

/// The bytes of data memory that a program asks for.
pub const STORAGE: u16 = 200;

/// The greatest length of a record, in bytes.
const LONGEST_RECORD: u32 = 32;

/// The code of `SysGo`. The number of Workers follows it. It forks them, each with a letter from
/// `A` on, waits until each has ended, and exits with status 0, or with the error of a call.
pub const SYSGO: [u8; 58] = [
    0xa6, 0x8c, 0x37, // start: lda workers,pcr
    0x97, 0x01, // sta <1 ; 1: how many Workers are to begin
    0x86, 0x41, // lda #$41 ; A: the parameter of the first, the letter `A`
    0x97, 0x00, // fork: sta <0 ; 0: the parameter
    0x30, 0x8c, 0x28, // leax name,pcr ; X: the program's name
    0xce, 0x00, 0x00, // ldu #0 ; U: the parameter's address
    0x10, 0x8e, 0x00, 0x01, // ldy #1 ; Y: its size
    0xcc, 0x11, 0x00, // ldd #$1100 ; A: type and language; B: no pages besides the module's storage
    0x10, 0x3f, F_FORK, // os9 F$Fork
    0x25, 0x16, // bcs end ; B: the error
    0x96, 0x00, // lda <0
    0x4c, // inca ; A: the parameter of the next
    0x0a, 0x01, // dec <1
    0x26, 0xe5, // bne fork
    0xa6, 0x8c, 0x15, // lda workers,pcr
    0x97, 0x01, // sta <1 ; 1: how many are to end
    0x10, 0x3f, F_WAIT, // wait: os9 F$Wait
    0x25, 0x05, // bcs end ; B: the error
    0x0a, 0x01, // dec <1
    0x26, 0xf7, // bne wait
    0x5f, // clrb ; B: status 0
    0x10, 0x3f, F_EXIT, // end: os9 F$Exit
    0x57, 0x6f, 0x72, 0x6b, 0x65, 0xf2, // name: fcs "Worker"
];

/// The code of `Worker`. The passes, the records of a pass, and the lengths of all records follow
/// it. It creates its file and opens it again. In each pass it cuts the file, writes its records
/// through one path and compares what it reads through the other. It exits with status 0, with 1
/// if that differs, or with the error of a call.
pub const WORKER: [u8; 182] = [
    0xa6, 0x84, // start: lda ,x ; A: the parameter, a letter
    0x97, 0x00, // sta <0 ; 0: the letter
    0x97, 0x55, // sta <$55 ; 50 to 56: the path list `/D0/W`, the letter and a carriage return
    0x8e, 0x2f, 0x44, // ldx #$2F44
    0x9f, 0x50, // stx <$50
    0x8e, 0x30, 0x2f, // ldx #$302F
    0x9f, 0x52, // stx <$52
    0xc6, 0x57, // ldb #$57
    0xd7, 0x54, // stb <$54
    0xc6, 0x0d, // ldb #$0D
    0xd7, 0x56, // stb <$56
    0x8e, 0x00, 0x10, // ldx #$10 ; 10 to 2F: the bytes to write, all the letter
    0xa7, 0x80, // fill: sta ,x+
    0x8c, 0x00, 0x30, // cmpx #$30
    0x26, 0xf9, // bne fill
    0x8e, 0x00, 0x50, // ldx #$50 ; X: the path list
    0xcc, 0x03, 0x03, // ldd #$0303 ; A: mode read and write; B: attributes read and write
    0x10, 0x3f, I_CREATE, // os9 I$Create
    0x10, 0x25, 0x00, 0x84, // lbcs end ; B: the error
    0x97, 0x01, // sta <1 ; 1: the path to write
    0x8e, 0x00, 0x50, // ldx #$50 ; X: the path list
    0x86, 0x01, // lda #1 ; A: mode read
    0x10, 0x3f, I_OPEN, // os9 I$Open
    0x10, 0x25, 0x00, 0x76, // lbcs end ; B: the error
    0x97, 0x02, // sta <2 ; 2: the path to read
    0xa6, 0x8c, 0x74, // lda passes,pcr
    0x97, 0x03, // sta <3 ; 3: how many passes are left
    0x96, 0x01, // pass: lda <1 ; A: the path to write
    0xc6, 0x02, // ldb #2 ; B: SS.Size
    0x8e, 0x00, 0x00, // ldx #0 ; X and U: the size 0
    0xce, 0x00, 0x00, // ldu #0
    0x10, 0x3f, I_SETSTT, // os9 I$SetStt
    0x25, 0x60, // bcs end ; B: the error
    0x96, 0x01, // lda <1 ; A: the path to write; X and U: the place 0
    0x10, 0x3f, I_SEEK, // os9 I$Seek
    0x25, 0x59, // bcs end ; B: the error
    0x96, 0x02, // lda <2 ; A: the path to read
    0x10, 0x3f, I_SEEK, // os9 I$Seek
    0x25, 0x52, // bcs end ; B: the error
    0xe6, 0x8c, 0x53, // ldb records,pcr
    0xd7, 0x04, // stb <4 ; 4: how many records are left
    0x96, 0x00, // lda <0
    0x80, 0x41, // suba #$41 ; A: the Workers before this one
    0x3d, // mul ; D: their records
    0x30, 0x8c, 0x4a, // leax lengths,pcr
    0x30, 0x8b, // leax d,x ; X: this Worker's lengths
    0xe6, 0x80, // record: ldb ,x+ ; B: the length of the record
    0x9f, 0x06, // stx <6 ; 6: the lengths after it
    0x4f, // clra
    0xdd, 0x08, // std <8 ; 8: the length
    0x10, 0x9e, 0x08, // ldy <8 ; Y: the count
    0x96, 0x01, // lda <1 ; A: the path to write
    0x8e, 0x00, 0x10, // ldx #$10 ; X: the bytes
    0x10, 0x3f, I_WRITE, // os9 I$Write
    0x25, 0x2f, // bcs end ; B: the error
    0x10, 0x9e, 0x08, // ldy <8 ; Y: the most bytes
    0x96, 0x02, // lda <2 ; A: the path to read
    0x8e, 0x00, 0x30, // ldx #$30 ; X: 30 to 4F, their place
    0x10, 0x3f, I_READ, // os9 I$Read
    0x25, 0x22, // bcs end ; B: the error
    0x10, 0x9c, 0x08, // cmpy <8
    0x26, 0x1b, // bne differ ; fewer were read
    0x96, 0x00, // lda <0
    0xd6, 0x09, // ldb <9
    0x8e, 0x00, 0x30, // ldx #$30
    0xa1, 0x80, // compare: cmpa ,x+
    0x26, 0x10, // bne differ ; another was read
    0x5a, // decb
    0x26, 0xf9, // bne compare
    0x9e, 0x06, // ldx <6 ; X: the lengths after it
    0x0a, 0x04, // dec <4
    0x26, 0xc6, // bne record
    0x0a, 0x03, // dec <3
    0x26, 0x96, // bne pass
    0x5f, // clrb ; B: status 0
    0x20, 0x02, // bra end
    0xc6, 0x01, // differ: ldb #1 ; B: status 1
    0x10, 0x3f, F_EXIT, // end: os9 F$Exit
];

/// The module `SysGo`.
pub fn sysgo(alloc: Global, workers: u8) -> Result<Vec<u8>, OutOfMemory>
    ensures bytes { IfOk result (λ bytes. bytes.items ≡ sysgo_module workers) }
{
    let mut code = Vec::from_slice(alloc, &SYSGO)?;
    code.extend_from_slice(&[workers])?;
    program(alloc, b"SysGo", &code)
}

/// The module `Worker`.
pub fn worker(alloc: Global, load: &Load) -> Result<Vec<u8>, OutOfMemory>
    requires { IsLoad load.now }
    ensures bytes { IfOk result (λ bytes. bytes.items ≡ worker_module load.now) }
{
    let mut code = Vec::from_slice(alloc, &WORKER)?;
    code.extend_from_slice(&[load.passes, load.records])?;
    push_lengths(&mut code, load)?;
    program(alloc, b"Worker", &code)
}

// Adds the lengths of all records after the code.
fn push_lengths(code: &mut Vec<u8>, load: &Load) -> Result<(), AllocError>
    requires { IsLoad load.now }
    ensures { IfOk result (λ _. code.new.items ≡ code.old.items ++ record_lengths load.now) }
{
    let mut x = load.seed;
    for _i in 0..u16::from(load.workers) * u16::from(load.records) {
        x = next_random(x);
        code.push(draw(LONGEST_RECORD, x) as u8)?;
    }
    Ok(())
}

// Makes a program with this code.
fn program(alloc: Global, name: &[u8], code: &[u8]) -> Result<Vec<u8>, OutOfMemory>
    requires name { parsed_name name.now ≡ Some name.now }
    requires filled { 0 < length code.now }
    requires short { length name.now + length code.now ≤ 8000 }
    ensures bytes { IfOk result (λ bytes. bytes.items ≡ program_module name.now code.now) }
    ensures module { IfOk result (λ bytes. IsModule bytes.items) }
{
    let name = parse_name(name).unwrap();
    let header = CodeHeader {
        kind: PROGRAM,
        attr: ATTRIBUTES,
        storage: STORAGE,
    };
    module(alloc, &name, header, code)
}
