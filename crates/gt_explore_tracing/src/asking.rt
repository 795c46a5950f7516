//! What is asked about the moves that lead to a text.
use gt_explore_answers::ExploreFormat;

/// A request for the moves that lead to a text.
#[derive(Clone, Copy)]
pub enum TraceRequest {
    /// Print the moves that lead to the text of this number: a line each, or as JSON the object of the text and one for
    /// each move.
    Trace(usize),
    /// Print these moves as a sequence diagram of mermaid. It is the same in both formats.
    Diagram(usize),
}

/// The options of a trace: the request, the largest number of states that each of its two searches may meet, and the
/// format of the output.
#[derive(Clone, Copy)]
pub struct TraceOptions {
    pub request: TraceRequest,
    pub states: usize,
    pub format: ExploreFormat,
}
