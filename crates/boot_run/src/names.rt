//! The names of the files that the words of a run or a boot give.

ghost use Rattle.std.specs.Prelude.{◌≡◌, [], slice_get, unwrap_or};
ghost use Rattle.boot_run.specs.End.{run_file_name};

use crate::status::Input;
use os9_words::command::RunWords;

/// The name of a file that the words of a run or a boot give; empty if they give no such file.
pub fn name_in(run: &RunWords, input: Input) -> &str
    ensures { result.now ≡ unwrap_or (run_file_name run.now input) [] }
{
    match input {
        Input::Script => script_name(run),
        Input::Slices => run.slices.text(),
        Input::Modules => name_at(run, 0),
        Input::Image(number) => name_at(run, number),
        Input::File => history_name(run),
        Input::Source | Input::Commands => "",
    }
}

/// The name of the file of this place, from 0; empty if there are fewer.
fn name_at(run: &RunWords, place: u8) -> &str
    ensures { result.now ≡ unwrap_or (slice_get run.now.files place) [] }
{
    match run.files.get(u32::from(place)) {
        Some(name) => name.text(),
        None => "",
    }
}

/// The name of the script; empty without one.
fn script_name(run: &RunWords) -> &str
    ensures { result.now ≡ unwrap_or run.now.script [] }
{
    match &run.script {
        Some(script) => script.text(),
        None => "",
    }
}

/// The name of the file for the history; empty without one.
fn history_name(run: &RunWords) -> &str
    ensures { result.now ≡ unwrap_or run.now.history [] }
{
    match &run.history {
        Some(history) => history.text(),
        None => "",
    }
}
