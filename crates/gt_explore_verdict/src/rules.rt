//! Words that are rules or numbers, and words with a mark.
ghost use Rattle.std.specs.Prelude.{◌≡◌};
ghost use Rattle.std.specs.Option.{option_map};
ghost use Rattle.std.specs.List.{list_all};
ghost use Rattle.std.specs.Char.{is_ascii_digit};
ghost use Rattle.gt_explore_verdict.specs.Rules.{at_mark, is_decimal_number, is_rule, is_wrong_rule, looks_like_rule};

fn are_digits(bytes: &[u8]) -> bool
    ensures { result ≡ list_all is_ascii_digit bytes.now }
{
    bytes.iter().all(|byte| byte.is_ascii_digit())
}

/// Returns whether the word has digits only, and at least one.
#[tactic(auto, unfolding(crate::specs::Rules::is_decimal_number))]
pub fn is_number(word: &[u8]) -> bool
    ensures { result ≡ is_decimal_number word.now }
{
    match word {
        [] => false,
        [_first, ..] => are_digits(word),
    }
}

/// Returns whether the word is one of N1 to N26.
#[tactic(auto, unfolding(crate::specs::Rules::is_rule))]
pub fn is_rule(word: &[u8]) -> bool
    ensures { result ≡ is_rule word.now }
{
    match word {
        [letter, digit] => *letter == b'N' && b'1' <= *digit && *digit <= b'9',
        [letter, ten, digit] => {
            *letter == b'N'
                && b'0' <= *digit
                && ((*ten == b'1' && *digit <= b'9') || (*ten == b'2' && *digit <= b'6'))
        }
        _ => false,
    }
}

// Returns whether the word is written as a rule: the letter N, in either case, and a number.
#[tactic(auto, unfolding(crate::specs::Rules::looks_like_rule))]
fn looks_like_rule(word: &[u8]) -> bool
    ensures { result ≡ looks_like_rule word.now }
{
    match word {
        [] => false,
        [letter, number @ ..] => (*letter == b'N' || *letter == b'n') && is_number(number),
    }
}

/// Returns whether the word looks like a rule but names none of them.
pub fn is_wrong_rule(word: &[u8]) -> bool
    ensures { result ≡ is_wrong_rule word.now }
{
    looks_like_rule(word) && !is_rule(word)
}

/// Splits a word at the first mark of this kind.
#[tactic(auto, unfolding(crate::specs::Rules::at_mark))]
pub fn at_mark<'e>(mark: u8, word: &'e [u8]) -> Option<(&'e [u8], &'e [u8])>
    ensures { option_map (λ parts. (parts.0.now, parts.1.now)) result ≡ at_mark mark word.entry.now }
{
    for (i, byte) in word.iter().enumerate() {
        if *byte == mark {
            return Some((&word[..i], &word[i + 1..]));
        }
    }
    None
}
