//! What is asked about the texts of a script together.
use gt_explore_answers::ExploreFormat;

/// A request about the texts of a script together.
#[derive(Clone, Copy)]
pub enum SummaryRequest {
    /// Print the lines whose answers vary, each answer with the number of texts that have it.
    Answers,
    /// Print the lines in which the texts of these two numbers differ, with both answers.
    Difference(usize, usize),
}

/// The options of a summary: the request, the largest number of states that the search may meet, and the format of the
/// output.
#[derive(Clone, Copy)]
pub struct SummaryOptions {
    pub request: SummaryRequest,
    pub states: usize,
    pub format: ExploreFormat,
}
