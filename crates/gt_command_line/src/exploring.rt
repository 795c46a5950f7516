//! Plans of `explore`.
ghost use Rattle.std.specs.Prelude.{◌≡◌};
ghost use Rattle.std.specs.Option.{option_map};
ghost use Rattle.gt_command_line.specs.Commands.{asked_by_some, explore_for, explore_with, formed_of};
ghost use Rattle.gt_command_line.specs.Commands.{one_sought, sought_by};

use crate::invocation::{Exploration, Format, Invocation, SearchOptions};
use crate::values::{ExploreForm, formed, sought_of};

// Plans a question about all texts, or the test whether a given text is one of them. None if both are asked for.
fn explore_for<'a>(
    sought: Option<Exploration<'a>>,
    given: Option<&'a str>,
    options: SearchOptions<'a>,
) -> Option<Invocation<'a>>
    ensures { asked_by_some result ≡ explore_for (option_map sought_by sought.entry)
        (option_map (λ v. v.now) given.entry) options.entry.format options.entry.states
        (option_map (λ v. v.now) options.entry.file) }
{
    match (sought, given) {
        (None, None) => Some(Invocation::Explore {
            asked: Exploration::Texts,
            options,
        }),
        (Some(asked), None) => Some(Invocation::Explore { asked, options }),
        (None, Some(given)) => Some(Invocation::ExploreHas { given, options }),
        (Some(_), Some(_)) => None,
    }
}

/// Plans what is asked for about the texts, by the values of the options. Returns None if an option does not take its
/// value, or if what is asked for does not go with a given text.
pub(crate) fn explore_with<'a>(
    sought: Option<(Option<Exploration<'a>>, Format)>,
    given: Option<&'a str>,
    states: Option<usize>,
    file: Option<&'a str>,
) -> Option<Invocation<'a>>
    ensures { asked_by_some result
        ≡ explore_with (option_map (λ p. (option_map sought_by p.0, p.1)) sought.entry)
        (option_map (λ v. v.now) given.entry) states (option_map (λ v. v.now) file.entry) }
{
    match (sought, states) {
        (Some((sought, format)), Some(states)) => explore_for(
            sought,
            given,
            SearchOptions {
                states,
                format,
                file,
            },
        ),
        _ => None,
    }
}

/// Returns what is asked for in this form, if the options take both values and they go together.
pub(crate) fn formed_of<'a>(
    sought: Option<Option<Exploration<'a>>>,
    form: Option<ExploreForm>,
) -> Option<(Option<Exploration<'a>>, Format)>
    ensures { option_map (λ p. (option_map sought_by p.0, p.1)) result
        ≡ formed_of (option_map (option_map sought_by) sought.entry) form }
{
    match (sought, form) {
        (Some(sought), Some(form)) => formed(form, sought),
        _ => None,
    }
}

/// Returns what is asked for about the texts. The outer result is None if an option does not take its value, or if more
/// than one of them is given.
pub(crate) fn one_sought<'a>(
    claim: Option<Option<Exploration<'a>>>,
    witness: Option<Option<Exploration<'a>>>,
    trace: Option<Option<Exploration<'a>>>,
) -> Option<Option<Exploration<'a>>>
    ensures { option_map (option_map sought_by) result ≡ one_sought (option_map (option_map sought_by) claim.entry)
        (option_map (option_map sought_by) witness.entry) (option_map (option_map sought_by) trace.entry) }
{
    match (claim, witness, trace) {
        (Some(claim), Some(witness), Some(trace)) => sought_of(claim, witness, trace),
        _ => None,
    }
}
