//! Single words: numbers in their ranges, domains, modes, labels, names.
ghost use Rattle.std.specs.Prelude.{◌≡◌, map};
ghost use Rattle.std.specs.Option.{option_map};
ghost use Rattle.std.specs.Str.{bytes_eq};
ghost use Rattle.std.specs.List.{list_all};
ghost use Rattle.gt_script_lines.specs.Fields.{u16_word, u32_word, u64_word, reference_word, domain_word, mode_word};
ghost use Rattle.gt_script_lines.specs.Fields.{flags_word, tick_word, generation_word, name_byte, label_byte};
ghost use Rattle.gt_script_lines.specs.Fields.{name_word, label_word, text_where, at_colon, type_word};

use crate::numbers::{Number, decimal};
use crate::texts::Text;
use gt_types::{DOMID_SELF, DomId, GrantRef, LAST_GENERATION};

/// The flag of a map for access by processors: `GNTMAP_host_map` of `grant_table.h`.
const HOST_MAP: u32 = 2;

/// The flag of a map that only reads: `GNTMAP_readonly` of `grant_table.h`.
const READONLY: u32 = 4;

/// The maximum number of characters of a label after its first.
const MAX_LABEL_TAIL: usize = 31;

/// The maximum number of steps of a tick. The minimum is 1.
const MOST_TICKS: u64 = 100_000;

/// Reads a number below 2^16.
#[tactic(auto, unfolding(crate::specs::Fields::u16_word, crate::specs::Numbers::decimal_number))]
pub fn u16_of(word: &[u8]) -> Option<u16>
    ensures { result ≡ u16_word word.now }
{
    match decimal(word)?.below(1 << 16) {
        Some(n) => Some(n as u16),
        None => None,
    }
}

/// Reads a number below 2^32.
#[tactic(auto, unfolding(crate::specs::Fields::u32_word, crate::specs::Numbers::decimal_number))]
pub fn u32_of(word: &[u8]) -> Option<u32>
    ensures { result ≡ u32_word word.now }
{
    match decimal(word)?.below(1 << 32) {
        Some(n) => Some(n as u32),
        None => None,
    }
}

/// Reads a number below 2^64.
#[tactic(auto, unfolding(crate::specs::Fields::u64_word, crate::specs::Numbers::decimal_number))]
pub fn u64_of(word: &[u8]) -> Option<u64>
    ensures { result ≡ u64_word word.now }
{
    match decimal(word)? {
        Number::Small(n) => Some(n),
        Number::Huge => None,
    }
}

/// Reads a grant reference, a number below 2^32.
#[tactic(auto, unfolding(crate::specs::Fields::reference_word))]
pub fn reference(word: &[u8]) -> Option<GrantRef>
    ensures { result ≡ reference_word word.now }
{
    Some(GrantRef(u32_of(word)?))
}

/// Reads the number of a domain, below 2^16, or `self`, which is 32752 (`DOMID_SELF` of `xen.h`).
#[tactic(auto, unfolding(crate::specs::Fields::domain_word))]
pub fn domain(word: &[u8]) -> Option<DomId>
    ensures { result ≡ domain_word word.now }
{
    match word {
        b"self" => Some(DomId(DOMID_SELF)),
        _ => Some(DomId(u16_of(word)?)),
    }
}

/// Reads a mode: false for `rw`, true for `ro`.
#[tactic(auto, unfolding(crate::specs::Fields::mode_word))]
pub fn mode(word: &[u8]) -> Option<bool>
    ensures { result ≡ mode_word word.now }
{
    match word {
        b"rw" => Some(false),
        b"ro" => Some(true),
        _ => None,
    }
}

/// Reads the flags of a map: a number, `rw` for `GNTMAP_host_map`, or `ro` for that with `GNTMAP_readonly`.
#[tactic(auto, unfolding(crate::specs::Fields::flags_word))]
pub fn flags(word: &[u8]) -> Option<u32>
    ensures { result ≡ flags_word word.now }
{
    match word {
        b"rw" => Some(HOST_MAP),
        b"ro" => Some(HOST_MAP | READONLY),
        _ => u32_of(word),
    }
}

/// Reads the number of steps of a tick: 1 to 100,000.
#[tactic(auto, unfolding(crate::specs::Fields::tick_word, crate::specs::Numbers::decimal_number))]
pub fn tick_count(word: &[u8]) -> Option<u32>
    ensures { result ≡ tick_word word.now }
{
    match decimal(word)?.below(MOST_TICKS + 1) {
        Some(n) if n > 0 => Some(n as u32),
        _ => None,
    }
}

/// Reads a generation of an entry: 0 to 1,048,575.
#[tactic(auto, unfolding(crate::specs::Fields::generation_word, crate::specs::Numbers::decimal_number))]
pub fn generation(word: &[u8]) -> Option<u32>
    ensures { result ≡ generation_word word.now }
{
    match decimal(word)?.below(u64::from(LAST_GENERATION) + 1) {
        Some(n) => Some(n as u32),
        None => None,
    }
}

/// Returns whether the word is this text.
pub fn is_word(word: &[u8], text: &str) -> bool
    ensures { result ≡ bytes_eq word.now text.now }
{
    word == text.as_bytes()
}

fn is_name_byte(byte: u8) -> bool
    ensures { result ≡ name_byte byte }
{
    byte.is_ascii_alphanumeric() || byte == b'_' || byte == b'-' || byte == b'.'
}

fn is_label_byte(byte: u8) -> bool
    ensures { result ≡ label_byte byte }
{
    byte.is_ascii_alphanumeric() || byte == b'_'
}

fn are_name_bytes(bytes: &[u8]) -> bool
    ensures { result ≡ list_all name_byte bytes.now }
{
    bytes.iter().all(|b| is_name_byte(*b))
}

fn are_label_bytes(bytes: &[u8]) -> bool
    ensures { result ≡ list_all label_byte bytes.now }
{
    bytes.iter().all(|b| is_label_byte(*b))
}

#[tactic(auto, unfolding(crate::specs::Fields::name_word))]
fn is_name(word: &[u8]) -> bool
    ensures { result ≡ name_word word.now }
{
    match word {
        [first, rest @ ..] => first.is_ascii_alphabetic() && are_name_bytes(rest),
        [] => false,
    }
}

/// Reads a label: a letter, then at most 31 letters, digits or `_`.
#[tactic(auto, unfolding(crate::specs::Fields::label_word))]
pub fn label<'a>(word: &'a [u8]) -> Option<Text<'a>>
    ensures { result ≡ text_where label_word word.entry.now }
{
    match word {
        [first, rest @ ..]
            if first.is_ascii_alphabetic()
                && rest.len() <= MAX_LABEL_TAIL
                && are_label_bytes(rest) => Some(Text::new(word)),
        _ => None,
    }
}

/// Reads a name: a letter, then letters, digits, `_`, `-` or `.` (SELinux policy language).
pub fn name<'a>(word: &'a [u8]) -> Option<Text<'a>>
    ensures { result ≡ text_where name_word word.entry.now }
{
    if is_name(word) {
        Some(Text::new(word))
    } else {
        None
    }
}

// Splits a word at its first colon.
#[tactic(auto, unfolding(crate::specs::Fields::at_colon))]
fn split_at_colon<'a>(word: &'a [u8]) -> Option<(&'a [u8], &'a [u8])>
    ensures { option_map (λ parts. (parts.0.now, parts.1.now)) result ≡ at_colon word.entry.now }
{
    for (i, byte) in word.iter().enumerate() {
        if *byte == b':' {
            return Some((&word[..i], &word[i + 1..]));
        }
    }
    None
}

/// Reads a label `user:role:type` of three names, and returns the type (SELinux policy language).
#[tactic(auto, unfolding(crate::specs::Fields::type_word))]
pub fn label_type<'a>(word: &'a [u8]) -> Option<Text<'a>>
    ensures { result ≡ type_word word.entry.now }
{
    let (user, rest) = split_at_colon(word)?;
    let (role, type_name) = split_at_colon(rest)?;
    if is_name(user) && is_name(role) {
        name(type_name)
    } else {
        None
    }
}
