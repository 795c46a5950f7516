//! Texts that were found.
ghost use Rattle.std.specs.Prelude.{◌≡◌, IfOk, length};
ghost use Rattle.gt_explore_answers.specs.Exploring.{has_its_text};
ghost use Rattle.gt_explore_answers.specs.Texts.{texts_of_orders};
ghost use Rattle.gt_explore_answers.specs.Witness.{IsTextNumbered};

use crate::asking::ExploreRequest;
use gt_explore_faults::TextsFault;
use gt_explore_search::FoundText;

/// Texts that a script may give, each with turns that lead to it, in the order of their bytes, and the number of states
/// that the search met. `whole`: these are all texts. If not, the search met more states than its limit, and `depth` is
/// the number of states on the way to the last of them.
#[derive(Drop)]
pub struct FoundTexts {
    pub texts: Vec<FoundText>,
    pub states: usize,
    pub whole: bool,
    pub depth: usize,
}

/// Returns whether some text has the number that a request names. A request that names none has what it needs.
pub fn has_its_text(request: ExploreRequest<'_>, found: &FoundTexts) -> bool
    ensures { result ≡ has_its_text request.entry (length found.now.texts.items) }
{
    match request {
        ExploreRequest::Witness(number) => number > 0 && number <= found.texts.len(),
        ExploreRequest::Texts
        | ExploreRequest::Decide { .. }
        | ExploreRequest::Has(_)
        | ExploreRequest::Witnesses => true,
    }
}

/// Returns the order of the text of this number.
///
/// # Errors
/// `Astray` if no text has this number.
pub fn numbered<'f>(found: &'f FoundTexts, number: usize) -> Result<&'f FoundText, TextsFault>
    ensures { IfOk result (λ o.
        IsTextNumbered (texts_of_orders found.entry.now.texts.items) number o.now.text.items) }
{
    let Some(at) = number.checked_sub(1) else {
        return Err(TextsFault::Astray);
    };
    match found.texts.get(at) {
        Some(order) => Ok(order),
        None => Err(TextsFault::Astray),
    }
}
