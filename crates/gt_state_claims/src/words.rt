//! The words of a term.
ghost use Rattle.std.specs.Prelude.{◌≡◌, ◌+◌, ◌*◌, ◌<◌, ◌^◌, ℕ};
ghost use Rattle.std.specs.Option.{option_map};
ghost use Rattle.gt_script_lines.specs.Numbers.{decimal_number, number_of};
ghost use Rattle.gt_state_claims.specs.Words.{at_comparison, at_dot, comparison_of, comparison_read, entry_read};
ghost use Rattle.gt_state_claims.specs.Words.{far_field, field_read, kind_read, number_within, numbers_read};
ghost use Rattle.gt_state_claims.specs.Words.{plain_test, shape_field, test_read};

use crate::fault::StateTermFault;
use crate::terms::{Comparison, EntryField, EntryTest};
use gt_model::EntryKind;
use gt_script_lines::{Number, is_word};
use gt_types::{DomId, GrantRef};

// Returns the number that a digit continues.
fn with_digit(value: Number, digit: u8) -> Number
    requires { digit < 10 }
    ensures { (n : ℕ) → value ≡ number_of n → result ≡ number_of (n * 10 + digit) }
{
    let Number::Small(n) = value else {
        return Number::Huge;
    };
    match n
        .checked_mul(10)
        .and_then(|n| n.checked_add(u64::from(digit)))
    {
        Some(n) => Number::Small(n),
        None => Number::Huge,
    }
}

// Reads a decimal number of one digit or more. None if there is another character.
#[tactic(auto, unfolding(gt_script_lines::specs::Numbers::decimal_number))]
fn decimal(word: &[u8]) -> Option<Number>
    ensures { result ≡ decimal_number word.now }
{
    if word.is_empty() {
        return None;
    }
    let mut value = Number::Small(0);
    for byte in word {
        if !byte.is_ascii_digit() {
            return None;
        }
        value = with_digit(value, *byte - b'0');
    }
    Some(value)
}

// Reads a decimal number below a limit. Returns the first fault if it is not a number, and the second if it is too
// large.
fn number_within(
    absent: StateTermFault,
    large: StateTermFault,
    limit: u64,
    word: &[u8],
) -> Result<u64, StateTermFault>
    ensures { result ≡ number_within absent large limit word.now }
{
    let Some(number) = decimal(word) else {
        return Err(absent);
    };
    match number.below(limit) {
        Some(number) => Ok(number),
        None => Err(large),
    }
}

// Splits a word at its first dot.
#[tactic(auto, unfolding(crate::specs::Words::at_dot))]
fn at_dot<'e>(word: &'e [u8]) -> Option<(&'e [u8], &'e [u8])>
    ensures { option_map (λ parts. (parts.0.now, parts.1.now)) result ≡ at_dot word.entry.now }
{
    for (i, byte) in word.iter().enumerate() {
        if *byte == b'.' {
            return Some((&word[..i], &word[i + 1..]));
        }
    }
    None
}

// Reads the two numbers of `ID.REF`.
fn numbers_of(dom: &[u8], gref: &[u8]) -> Result<(DomId, GrantRef), StateTermFault>
    ensures { result ≡ numbers_read (dom.now, gref.now) }
{
    let dom = number_within(StateTermFault::Entry, StateTermFault::Domain, 65_536, dom)?;
    let gref = number_within(
        StateTermFault::Entry,
        StateTermFault::Reference,
        4_294_967_296,
        gref,
    )?;
    Ok((DomId(dom as u16), GrantRef(gref as u32)))
}

/// Reads `ID.REF`.
pub fn entry_of(word: &[u8]) -> Result<(DomId, GrantRef), StateTermFault>
    ensures { result ≡ entry_read word.now }
{
    match at_dot(word) {
        Some((dom, gref)) => numbers_of(dom, gref),
        None => Err(StateTermFault::Entry),
    }
}

fn comparison_of(byte: u8) -> Option<Comparison>
    ensures { result ≡ comparison_of byte }
{
    match byte {
        b'=' => Some(Comparison::Equal),
        b'<' => Some(Comparison::Less),
        b'>' => Some(Comparison::Greater),
        _ => None,
    }
}

// Splits a word at its first `=`, `<` or `>`.
#[tactic(auto, unfolding(crate::specs::Words::at_comparison))]
fn at_comparison<'e>(word: &'e [u8]) -> Option<(&'e [u8], Comparison, &'e [u8])>
    ensures { option_map (λ parts. (parts.0.now, parts.1, parts.2.now)) result ≡ at_comparison word.entry.now }
{
    for (i, byte) in word.iter().enumerate() {
        if let Some(comparison) = comparison_of(*byte) {
            return Some((&word[..i], comparison, &word[i + 1..]));
        }
    }
    None
}

// Returns the field of this name that a sub-page or a transitive entry has beside that of a page.
fn far_field(word: &[u8]) -> Option<EntryField>
    ensures { result ≡ far_field word.now }
{
    if is_word(word, "off") {
        return Some(EntryField::Offset);
    }
    if is_word(word, "len") {
        return Some(EntryField::Length);
    }
    if is_word(word, "to") {
        return Some(EntryField::Next);
    }
    if is_word(word, "ref") {
        return Some(EntryField::NextReference);
    }
    None
}

// Returns the field of this name that an entry has by its kind.
fn shape_field(word: &[u8]) -> Option<EntryField>
    ensures { result ≡ shape_field word.now }
{
    if is_word(word, "grantee") {
        return Some(EntryField::Grantee);
    }
    if is_word(word, "frame") {
        return Some(EntryField::Frame);
    }
    far_field(word)
}

// Returns the field of this name.
fn field_of(word: &[u8]) -> Option<EntryField>
    ensures { result ≡ field_read word.now }
{
    if is_word(word, "gen") {
        return Some(EntryField::Generation);
    }
    if is_word(word, "reads") {
        return Some(EntryField::Reads);
    }
    if is_word(word, "writes") {
        return Some(EntryField::Writes);
    }
    shape_field(word)
}

// Reads the three parts of `FIELD=NUMBER`, `FIELD<NUMBER` or `FIELD>NUMBER`.
fn comparison_read(
    field: &[u8],
    comparison: Comparison,
    number: &[u8],
) -> Result<EntryTest, StateTermFault>
    ensures { result ≡ comparison_read (field.now, comparison, number.now) }
{
    let Some(field) = field_of(field) else {
        return Err(StateTermFault::Word);
    };
    match decimal(number) {
        None => Err(StateTermFault::Number),
        Some(Number::Huge) => Err(StateTermFault::Large),
        Some(Number::Small(number)) => Ok(EntryTest::Number {
            field,
            comparison,
            number,
        }),
    }
}

fn kind_read(word: &[u8]) -> Option<EntryKind>
    ensures { result ≡ kind_read word.now }
{
    if is_word(word, "invalid") {
        return Some(EntryKind::Invalid);
    }
    if is_word(word, "page") {
        return Some(EntryKind::Page);
    }
    if is_word(word, "sub") {
        return Some(EntryKind::Sub);
    }
    if is_word(word, "via") {
        return Some(EntryKind::Via);
    }
    None
}

fn plain_test(word: &[u8]) -> Option<EntryTest>
    ensures { result ≡ plain_test word.now }
{
    match word {
        b"none" => Some(EntryTest::Missing),
        b"rw" => Some(EntryTest::ReadOnly(false)),
        b"ro" => Some(EntryTest::ReadOnly(true)),
        _ => match kind_read(word) {
            Some(kind) => Some(EntryTest::Kind(kind)),
            None => None,
        },
    }
}

/// Reads what an entry must show.
pub fn test_of(word: &[u8]) -> Result<EntryTest, StateTermFault>
    ensures { result ≡ test_read word.now }
{
    if let Some(test) = plain_test(word) {
        return Ok(test);
    }
    match at_comparison(word) {
        Some((field, comparison, number)) => comparison_read(field, comparison, number),
        None => Err(StateTermFault::Word),
    }
}
