//! The names of calls.
ghost use Rattle.std.specs.Prelude.{◌≡◌, map};
ghost use Rattle.std.specs.Option.{option_map};
ghost use Rattle.gt_script_lines.specs.CallNames.{given_name, as_name, unnamed};

use crate::fields::{is_word, label};
use crate::texts::Text;

// Reads `as NAME`, where NAME has the form of a label.
#[tactic(auto, unfolding(crate::specs::CallNames::as_name))]
fn read_name<'a>(words: &[&'a [u8]]) -> Option<Text<'a>>
    ensures { result ≡ as_name (map (λ word. word.now) words.now) }
{
    match words {
        [mark, name] if is_word(mark, "as") => label(name),
        _ => None,
    }
}

/// Splits the words of a call from its name, which are `as NAME` at their end.
///
/// The name has the form of a label. Without one, all words are the call's.
pub fn split_name<'a, 'w>(words: &'w [&'a [u8]]) -> (&'w [&'a [u8]], Option<Text<'a>>)
    ensures call { map (λ word. word.now) result.0.now ≡ unnamed (map (λ word. word.now) words.entry.now) }
    ensures name { result.1 ≡ given_name (map (λ word. word.now) words.entry.now) }
{
    let (call, end) = words.split_at(words.len().saturating_sub(2));
    match read_name(end) {
        Some(name) => (call, Some(name)),
        None => (words, None),
    }
}
