//! Questions about the races of a script.

/// What is asked about the races of a script. They are numbered from 1 on, in ascending order.
#[derive(Clone, Copy)]
pub enum RaceRequest {
    /// Print a line for each race.
    Lines,
    /// Print a script for `play` that shows the race of this number.
    Witness(usize),
}

/// The options of `explore --races`: the request, and the largest number of states that the search may meet.
#[derive(Clone, Copy)]
pub struct RaceOptions {
    pub request: RaceRequest,
    pub states: usize,
}
