//! The names of the files that the words of `debug` give.

ghost use Rattle.std.specs.Prelude.{◌≡◌, [], unwrap_or};
ghost use Rattle.os9_debug.specs.Debug.{debug_file_name};

use boot_run::names::name_in;
use boot_run::status::Input;
use os9_words::debug_words::DebugWords;

/// The name of a file that the words give; empty if they give no such file.
pub fn debug_name(debug: &DebugWords, input: Input) -> &str
    ensures { result.now ≡ unwrap_or (debug_file_name debug.now input) [] }
{
    match input {
        Input::Commands => debug.commands.text(),
        _ => name_in(&debug.run, input),
    }
}
