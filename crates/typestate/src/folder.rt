//! The folder of the class files, in the words of the program.

ghost use Rattle.std.specs.Prelude.{◌≡◌, map, slice_get, option_map, string_bytes};
ghost use Rattle.typestate.specs.Folders.{folder_in, first_value, value_in, word_after_option};

/// The option that names the folder of the class files.
const CLASSES: &str = "--classes";

/// The folder of the class files: the word after the first `--classes`, or the rest of the first word that
/// begins with `--classes=`, or else the current folder.
pub(crate) fn folder_of(words: &[String]) -> &str
    ensures { result.now ≡ folder_in (map (λ word. string_bytes word) words.now) }
{
    match word_after_option(words) {
        Some(folder) => folder,
        None => match first_value(words) {
            Some(folder) => folder,
            None => ".",
        },
    }
}

/// The word after the first `--classes`.
fn word_after_option(words: &[String]) -> Option<&str>
    ensures { option_map (λ word. word.now) result ≡ word_after_option (map (λ word. string_bytes word) words.now) }
{
    for (place, word) in words.iter().enumerate() {
        if word.as_str() == CLASSES {
            return first_word(&words[place + 1..]);
        }
    }
    None
}

/// The first word.
fn first_word(words: &[String]) -> Option<&str>
    ensures { option_map (λ word. word.now) result ≡ slice_get (map (λ word. string_bytes word) words.now) 0 }
{
    match words.first() {
        Some(word) => Some(word.as_str()),
        None => None,
    }
}

/// What stands after `--classes=` in the first word that begins so.
fn first_value(words: &[String]) -> Option<&str>
    ensures { option_map (λ word. word.now) result ≡ first_value (map (λ word. string_bytes word) words.now) }
{
    for word in words {
        if let Some(value) = value_in(word.as_str()) {
            return Some(value);
        }
    }
    None
}

/// What stands after the first `=` of a word, if `--classes` stands before it.
fn value_in(word: &str) -> Option<&str>
    ensures { option_map (λ value. value.now) result ≡ value_in word.now }
{
    let (option, value) = word.split_once('=')?;
    if option == CLASSES { Some(value) } else { None }
}
