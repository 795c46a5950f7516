//! What `explore` is asked for, and the format of its output.
use gt_explore_verdict::Claim;

/// A request to `explore`.
#[derive(Clone, Copy)]
pub enum ExploreRequest<'w> {
    /// Print the texts.
    Texts,
    /// Decide a claim on the conditions of an expression. `Find` prints the texts that satisfy them; the other claims
    /// print the verdict, or the first text that shows that they do not hold with a script for `play` that gives it.
    Decide { claim: Claim, expression: &'w str },
    /// Print the number of this text, if it is one of the texts.
    Has(&'w [u8]),
    /// Print a script for `play` that gives the text of this number.
    Witness(usize),
    /// Print such a script for each text.
    Witnesses,
}

/// The format of the output of `explore`.
#[derive(Clone, Copy)]
pub enum ExploreFormat {
    /// Lines of text, and scripts for `play`.
    Text,
    /// A JSON object a line: one for each text that is shown, and one at the end.
    Json,
}

/// The options of `explore`: the request, the largest number of states that the search may meet, and the format of the
/// output.
#[derive(Clone, Copy)]
pub struct ExploreOptions<'w> {
    pub request: ExploreRequest<'w>,
    pub states: usize,
    pub format: ExploreFormat,
}
