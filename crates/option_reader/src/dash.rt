ghost use Rattle.std.specs.Prelude.{◌≡◌, false, map, string_bytes};
ghost use Rattle.option_reader.specs.Dash as model;

/// Is a word `-` in the place of an option's value? `clap` takes it for the value.
pub(crate) fn has_dash_value(words: &[String]) -> bool
    ensures { result ≡ model.has_dash_value false (map string_bytes words.now) }
{
    let mut waits = false;
    for word in words {
        if word.as_str() == "--" {
            return false;
        }
        if waits && word.as_str() == "-" {
            return true;
        }
        waits = waits_for_value(word);
    }
    false
}

// Is the word `--name`, so that its value is the next word?
fn waits_for_value(word: &str) -> bool
    ensures { result ≡ model.waits_for_value word.now }
{
    let bytes = word.as_bytes();
    bytes.starts_with(b"--") && !bytes.contains(&b'=')
}
