//! The names of the files that the words of `asm` give.

ghost use Rattle.std.specs.Prelude.{◌≡◌, [], unwrap_or};
ghost use Rattle.os9_boot.specs.Asm.{asm_file_name};

use boot_run::status::Input;
use os9_words::asm_words::AsmWords;

/// The name of a file that the words give; empty if they give no such file.
pub fn asm_name(asm: &AsmWords, input: Input) -> &str
    ensures { result.now ≡ unwrap_or (asm_file_name asm.now input) [] }
{
    match input {
        Input::Source => asm.source.text(),
        Input::File => asm.out.text(),
        _ => "",
    }
}
