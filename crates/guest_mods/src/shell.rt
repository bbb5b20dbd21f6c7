ghost use Rattle.std.specs.Prelude.{◌≡◌, None};
ghost use Rattle.asm_model.specs.Placement.{source_fault};

/// The text of `examples/shell.asm`.
const SHELL: &[u8] = br#"* shell.asm: a shell.
* SysGo writes a prompt, reads a line, and starts the program that the line names, with the rest of the line
* as its parameters. It waits for the program, and writes the number of an error of the start, or of the
* status of the program if that is not 0. At the end of the file it exits with status 0.
        mod     SysGo,$11,$81,$C8   name, type and language, attributes and revision, storage
line    equ     0                   the line, at the front of the data area
most    equ     80                  the most bytes of it
end     equ     line+most           where it ends, two bytes
eof     equ     $D3                 E$EOF
start   leax    <prompt,pcr
        ldy     #4
        lda     #1                  A: standard output
        os9     $8A                 I$Write
        ldx     #line
        ldy     #most
        clra                        A: standard input
        os9     $8B                 I$ReadLn: Y the bytes that were read
        bcs     over
        tfr     x,u                 U: the parameters, from here on if there is no name
        tfr     y,d
        leay    d,x
        sty     <end
name    os9     $10                 F$PrsNam: Y behind the name at X, A the byte there
        bcs     fork
        tfr     y,u                 U: the parameters, from here on
        tfr     y,x
        cmpa    #$2F                does a slash follow, and a name of the path list?
        beq     name
fork    ldd     <end
        pshs    u
        subd    ,s++
        tfr     d,y                 Y: the size of the parameters
        ldx     #line               X: the name of the program
        lda     #$11                A: its type and language
        clrb                        B: the pages of its data area, as its module says
        os9     $03                 F$Fork
        bcs     error
        os9     $04                 F$Wait: B the status
        tstb
        beq     start
error   os9     $0F                 F$PErr
        bra     start
over    cmpb    #eof                the end of the file?
        bne     exit                an error is the status
        clrb                        B: the status
exit    os9     $06                 F$Exit
prompt  fcc     "OS9:"
        emod                        the CRC, 3 bytes
"#;

/// The source of a shell in the language of the assembler (this project's own). It is a program
/// `SysGo` that writes `OS9:` and reads a line of at most 80 bytes. At the end of the file it exits
/// with status 0. Otherwise it forks the program that the line names, with the bytes after the name
/// as parameters, waits for it, and calls F$PErr for an error of the fork or a status other than 0.
pub fn shell_source() -> &'static [u8]
    // No line breaks a rule of the language.
    ensures right { source_fault result.now ≡ None }
{
    SHELL
}
