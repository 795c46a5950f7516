//! The values of options.
ghost use Rattle.std.specs.Prelude.{◌≡◌};
ghost use Rattle.std.specs.Option.{option_map};
ghost use Rattle.gt_command_line.specs.Commands.{diagram_of, explore_form_of, format_of, formed, domain_number};
ghost use Rattle.gt_command_line.specs.Commands.{number_up_to, script_of, states_of, type_of};
ghost use Rattle.gt_command_line.specs.Commands.{claim_of, claims_of, diff_option, sought_of, sought_by, sought_too};
ghost use Rattle.gt_command_line.specs.Commands.{is_text_only, json_of, sought_of_races, state_option, with_races};
ghost use Rattle.gt_command_line.specs.Commands.{summary_option, trace_option, version_of, witness_of};

use crate::invocation::{Exploration, Format};
use gt_explore_verdict::Claim;

/// Returns the format of this name, or text if no name is given. None for any other name.
pub(crate) fn format_of(value: Option<&str>) -> Option<Format>
    ensures { result ≡ format_of (option_map (λ v. v.now) value.entry) }
{
    match value {
        None => Some(Format::Text),
        Some("text") => Some(Format::Text),
        Some("json") => Some(Format::Json),
        Some(_) => None,
    }
}

/// The form of the output of `explore`.
#[derive(Clone, Copy, PartialEq, Eq)]
pub(crate) enum ExploreForm {
    Text,
    Json,
    /// A sequence diagram.
    Mermaid,
}

/// Returns the form of this name, or text if no name is given. None for any other name.
pub(crate) fn form_of(value: Option<&str>) -> Option<ExploreForm>
    ensures { result ≡ explore_form_of (option_map (λ v. v.now) value.entry) }
{
    match value {
        None => Some(ExploreForm::Text),
        Some("text") => Some(ExploreForm::Text),
        Some("json") => Some(ExploreForm::Json),
        Some("mermaid") => Some(ExploreForm::Mermaid),
        Some(_) => None,
    }
}

// Returns a trace as a diagram, with its format. None for anything else: only a trace can be a diagram.
fn diagram_of<'a>(sought: Option<Exploration<'a>>) -> Option<(Option<Exploration<'a>>, Format)>
    ensures { option_map (λ p. (option_map sought_by p.0, p.1)) result
        ≡ diagram_of (option_map sought_by sought.entry) }
{
    match sought {
        Some(Exploration::Trace(number)) => {
            Some((Some(Exploration::Diagram(number)), Format::Text))
        }
        None => None,
        Some(Exploration::Texts | Exploration::Witnesses) => None,
        Some(Exploration::Decide { .. } | Exploration::Claims(_)) => None,
        Some(Exploration::Witness(_) | Exploration::Diagram(_)) => None,
        Some(Exploration::Summary | Exploration::Difference(_, _)) => None,
        Some(Exploration::NeverState(_)) => None,
        Some(Exploration::Races | Exploration::RaceWitness(_)) => None,
    }
}

// Returns whether what is asked for is answered in text only: a claim about states, the lines that race, or the script
// of a race.
fn is_text_only(sought: Option<Exploration<'_>>) -> bool
    ensures { result ≡ is_text_only (option_map sought_by sought.entry) }
{
    match sought {
        Some(Exploration::NeverState(_)) => true,
        Some(Exploration::Races | Exploration::RaceWitness(_)) => true,
        None => false,
        Some(Exploration::Texts | Exploration::Witnesses) => false,
        Some(Exploration::Decide { .. } | Exploration::Claims(_)) => false,
        Some(Exploration::Witness(_) | Exploration::Trace(_) | Exploration::Diagram(_)) => false,
        Some(Exploration::Summary | Exploration::Difference(_, _)) => false,
    }
}

// Returns what is asked for in JSON, with its format. None for what is answered in text only.
fn json_of<'a>(sought: Option<Exploration<'a>>) -> Option<(Option<Exploration<'a>>, Format)>
    ensures { option_map (λ p. (option_map sought_by p.0, p.1)) result
        ≡ json_of (option_map sought_by sought.entry) }
{
    if is_text_only(sought) {
        return None;
    }
    Some((sought, Format::Json))
}

/// Returns what is asked for in this form, with its format. Only a trace can be a diagram. A claim about states, the
/// lines that race and the script of a race are answered in text only.
pub(crate) fn formed<'a>(
    form: ExploreForm,
    sought: Option<Exploration<'a>>,
) -> Option<(Option<Exploration<'a>>, Format)>
    ensures { option_map (λ p. (option_map sought_by p.0, p.1)) result
        ≡ formed form (option_map sought_by sought.entry) }
{
    match form {
        ExploreForm::Text => Some((sought, Format::Text)),
        ExploreForm::Json => json_of(sought),
        ExploreForm::Mermaid => diagram_of(sought),
    }
}

/// Returns the type or the permission of this name; `-` is any.
pub(crate) fn type_of<'a>(value: Option<&'a str>) -> Option<&'a str>
    ensures { option_map (λ v. v.now) result ≡ type_of (option_map (λ v. v.now) value.entry) }
{
    value.filter(|name| *name != "-")
}

/// Returns the version of a table, 1 or 2. None for any other value, or without one.
pub(crate) fn version_of(value: Option<&str>) -> Option<u8>
    ensures { result ≡ version_of (option_map (λ v. v.now) value.entry) }
{
    match value {
        Some("1") => Some(1),
        Some("2") => Some(2),
        _ => None,
    }
}

// The highest number of a domain in a script.
const MOST_DOM: u16 = 32_751;

// Returns the number of a domain, if the word is one up to 32,751.
fn domain_of(word: &str) -> Option<u16>
    ensures { result ≡ domain_number word.now }
{
    match word.parse() {
        Ok(number) if number <= MOST_DOM => Some(number),
        _ => None,
    }
}

/// Returns the domain of a script, if one is given. The outer result is None if the value is not a number up to 32,751.
pub(crate) fn script_of(value: Option<&str>) -> Option<Option<u16>>
    ensures { result ≡ script_of (option_map (λ v. v.now) value.entry) }
{
    match value {
        None => Some(None),
        Some(word) => Some(Some(domain_of(word)?)),
    }
}

// Returns the number, if the word is one of 64 bits.
fn number_of(word: &str) -> Option<usize>
    ensures { result ≡ number_up_to 18446744073709551615 word.now }
{
    match word.parse() {
        Ok(number) => Some(number),
        Err(_) => None,
    }
}

/// Returns what `--witness` asks for, if it is given. The outer result is None if the value is neither `all` nor a
/// number of 64 bits.
pub(crate) fn witness_of<'a>(value: Option<&'a str>) -> Option<Option<Exploration<'a>>>
    ensures { option_map (option_map sought_by) result ≡ witness_of (option_map (λ v. v.now) value.entry) }
{
    match value {
        None => Some(None),
        Some("all") => Some(Some(Exploration::Witnesses)),
        Some(word) => Some(Some(Exploration::Witness(number_of(word)?))),
    }
}

/// Returns what `--trace` asks for, if it is given. The outer result is None if the value is not a number of 64 bits.
pub(crate) fn trace_of<'a>(value: Option<&'a str>) -> Option<Option<Exploration<'a>>>
    ensures { option_map (option_map sought_by) result ≡ trace_option (option_map (λ v. v.now) value.entry) }
{
    match value {
        None => Some(None),
        Some(word) => Some(Some(Exploration::Trace(number_of(word)?))),
    }
}

/// Returns the claim about states, if one is given.
pub(crate) fn state_claim_of<'a>(value: Option<&'a str>) -> Option<Option<Exploration<'a>>>
    ensures { option_map (option_map sought_by) result ≡ state_option (option_map (λ v. v.now) value.entry) }
{
    match value {
        None => Some(None),
        Some(claim) => Some(Some(Exploration::NeverState(claim))),
    }
}

/// Returns what `--summary` asks for, if it is given.
pub(crate) fn summary_of<'a>(is_given: bool) -> Option<Option<Exploration<'a>>>
    ensures { option_map (option_map sought_by) result ≡ summary_option is_given }
{
    if is_given {
        Some(Some(Exploration::Summary))
    } else {
        Some(None)
    }
}

// Returns what `--races` asks for beside another option. None if that doesn't go with it.
fn sought_of_races<'a>(sought: Option<Exploration<'a>>) -> Option<Option<Exploration<'a>>>
    ensures { option_map (option_map sought_by) result ≡ sought_of_races (option_map sought_by sought.entry) }
{
    match sought {
        None => Some(Some(Exploration::Races)),
        Some(Exploration::Witness(number)) => Some(Some(Exploration::RaceWitness(number))),
        Some(_) => None,
    }
}

/// Returns what is asked for with `--races`, if it is given, or without it. The outer result is None if an option does
/// not take its value, or if one is given that doesn't go with `--races`.
pub(crate) fn with_races<'a>(
    is_given: bool,
    sought: Option<Option<Exploration<'a>>>,
) -> Option<Option<Exploration<'a>>>
    ensures { option_map (option_map sought_by) result
        ≡ with_races is_given (option_map (option_map sought_by) sought.entry) }
{
    if is_given {
        sought_of_races(sought?)
    } else {
        sought
    }
}

/// Returns what `--diff` asks for, if it is given. The outer result is None if the value is not two numbers of 64 bits
/// with a comma between them.
pub(crate) fn diff_of<'a>(value: Option<&'a str>) -> Option<Option<Exploration<'a>>>
    ensures { option_map (option_map sought_by) result ≡ diff_option (option_map (λ v. v.now) value.entry) }
{
    match value {
        None => Some(None),
        Some(word) => match word.split_once(',') {
            Some((one, other)) => {
                Some(Some(Exploration::Difference(number_of(one)?, number_of(other)?)))
            }
            None => None,
        },
    }
}

/// Returns the one of two that is asked for, if one is. The outer result is None if an option does not take its value,
/// or if both are asked for.
pub(crate) fn sought_too<'a>(
    one: Option<Option<Exploration<'a>>>,
    more: Option<Option<Exploration<'a>>>,
) -> Option<Option<Exploration<'a>>>
    ensures { option_map (option_map sought_by) result
        ≡ sought_too (option_map (option_map sought_by) one.entry) (option_map (option_map sought_by) more.entry) }
{
    match (one, more) {
        (Some(one), Some(None)) => Some(one),
        (Some(None), Some(Some(more))) => Some(Some(more)),
        (Some(Some(_)), Some(Some(_))) | (None, _) | (Some(_), None) => None,
    }
}

/// Returns the one of a claim, scripts and a trace that is asked for, if one is. The outer result is None if there is
/// more than one.
pub(crate) fn sought_of<'a>(
    claim: Option<Exploration<'a>>,
    witness: Option<Exploration<'a>>,
    trace: Option<Exploration<'a>>,
) -> Option<Option<Exploration<'a>>>
    ensures { option_map (option_map sought_by) result ≡ sought_of (option_map sought_by claim.entry)
        (option_map sought_by witness.entry) (option_map sought_by trace.entry) }
{
    match (claim, witness, trace) {
        (None, None, None) => Some(None),
        (Some(asked), None, None) => Some(Some(asked)),
        (None, Some(asked), None) => Some(Some(asked)),
        (None, None, Some(asked)) => Some(Some(asked)),
        _ => None,
    }
}

/// Returns the maximum number of states, 1,000,000 if no value is given. None if the value is not a number of 64 bits.
pub(crate) fn states_of(value: Option<&str>) -> Option<usize>
    ensures { result ≡ states_of (option_map (λ v. v.now) value.entry) }
{
    match value {
        None => Some(1_000_000),
        Some(word) => number_of(word),
    }
}

/// Returns the claim that is asked for, if one is. The outer result is None if there is more than one.
pub(crate) fn claim_of<'a>(
    find: Option<&'a str>,
    never: Option<&'a str>,
    always: Option<&'a str>,
) -> Option<Option<Exploration<'a>>>
    ensures { option_map (option_map sought_by) result ≡ claim_of (option_map (λ v. v.now) find.entry)
        (option_map (λ v. v.now) never.entry) (option_map (λ v. v.now) always.entry) }
{
    let (claim, expression) = match (find, never, always) {
        (None, None, None) => return Some(None),
        (Some(expression), None, None) => (Claim::Find, expression),
        (None, Some(expression), None) => (Claim::Never, expression),
        (None, None, Some(expression)) => (Claim::Always, expression),
        _ => return None,
    };
    Some(Some(Exploration::Decide { claim, expression }))
}

/// Returns the claim that is asked for, or the claims of this text, if some are. The outer result is None if there is
/// more than one, or claims beside one.
pub(crate) fn claims_of<'a>(
    one: Option<Option<Exploration<'a>>>,
    claims: Option<&'a str>,
) -> Option<Option<Exploration<'a>>>
    ensures { option_map (option_map sought_by) result
        ≡ claims_of (option_map (option_map sought_by) one.entry) (option_map (λ v. v.now) claims.entry) }
{
    match (one, claims) {
        (one, None) => one,
        (Some(None), Some(claims)) => Some(Some(Exploration::Claims(claims))),
        (Some(Some(_)) | None, Some(_)) => None,
    }
}
