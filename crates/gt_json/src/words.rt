//! Words, and how they are split.
ghost use Rattle.std.specs.Prelude.{◌≡◌};
ghost use Rattle.std.specs.Option.{option_map};
ghost use Rattle.std.specs.Str.{bytes_eq};
ghost use Rattle.std.specs.List.{list_all};
ghost use Rattle.std.specs.Char.{is_ascii_digit};
ghost use Rattle.gt_json.specs.Words.{at_equals, is_natural, is_number, begins_as_rule};

/// Returns whether the word is this text.
pub fn is_word(word: &[u8], text: &str) -> bool
    ensures { result ≡ bytes_eq word.now text.now }
{
    word == text.as_bytes()
}

/// Returns whether the word is a rule: it begins with `N`.
#[tactic(auto, unfolding(crate::specs::Words::begins_as_rule))]
pub fn is_rule(word: &[u8]) -> bool
    ensures { result ≡ begins_as_rule word.now }
{
    match word {
        [first, ..] => *first == b'N',
        [] => false,
    }
}

fn are_digits(bytes: &[u8]) -> bool
    ensures { result ≡ list_all is_ascii_digit bytes.now }
{
    bytes.iter().all(|byte| byte.is_ascii_digit())
}

// Returns whether the word is a natural number as JSON writes it: without leading zeros.
#[tactic(auto, unfolding(crate::specs::Words::is_natural))]
fn is_natural(word: &[u8]) -> bool
    ensures { result ≡ is_natural word.now }
{
    match word {
        [first] => first.is_ascii_digit(),
        [first, rest @ ..] => first.is_ascii_digit() && *first != b'0' && are_digits(rest),
        [] => false,
    }
}

/// Returns whether the word is a whole number as JSON writes it.
#[tactic(auto, unfolding(crate::specs::Words::is_number))]
pub fn is_number(word: &[u8]) -> bool
    ensures { result ≡ is_number word.now }
{
    match word {
        [first, rest @ ..] => is_natural(if *first == b'-' { rest } else { word }),
        [] => false,
    }
}

/// Splits a word at its first `=`.
#[tactic(auto, unfolding(crate::specs::Words::at_equals))]
pub fn split_at_equals<'w>(word: &'w [u8]) -> Option<(&'w [u8], &'w [u8])>
    ensures { option_map (λ parts. (parts.0.now, parts.1.now)) result ≡ at_equals word.entry.now }
{
    for (i, byte) in word.iter().enumerate() {
        if *byte == b'=' {
            return Some((&word[..i], &word[i + 1..]));
        }
    }
    None
}
