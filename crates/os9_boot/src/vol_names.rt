//! The names of the files that the words of `vol` give.

ghost use Rattle.std.specs.Prelude.{◌≡◌, [], slice_get, unwrap_or};
ghost use Rattle.os9_boot.specs.Vol as model;
ghost use Rattle.os9_boot.specs.Vol.{vol_file_name};

use boot_run::status::Input;
use os9_words::vol_words::VolWords;

/// The name of a file that the words give; empty if they give no such file.
pub fn vol_name(vol: &VolWords, input: Input) -> &str
    ensures { result.now ≡ unwrap_or (vol_file_name vol.now input) [] }
{
    match input {
        Input::Image(_) => vol.image.text(),
        Input::File => word_at(vol, 1),
        _ => "",
    }
}

/// PATH; empty for a verb that takes none.
pub fn path_of(vol: &VolWords) -> &str
    ensures { result.now ≡ model.path_of vol.now }
{
    word_at(vol, 0)
}

/// The word at a place after the image, from 0; empty if there are fewer.
fn word_at(vol: &VolWords, place: u32) -> &str
    ensures { result.now ≡ unwrap_or (slice_get vol.now.rest place) [] }
{
    match vol.rest.get(place) {
        Some(word) => word.text(),
        None => "",
    }
}
