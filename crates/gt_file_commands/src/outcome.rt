//! The outcome of a command line.
ghost use Rattle.std.specs.Prelude.{◌≡◌};
ghost use Rattle.gt_file_commands.specs.Working.{outcome_of_answer, exit_status_of, outcome_of_command, worse};

use crate::failure::Failure;

/// The outcome of a command line. The program turns it into its exit status.
#[derive(Clone, Copy)]
pub enum Outcome {
    /// The command was done, and if it answers a question, the answer is yes.
    Yes,
    /// The answer is no. For `play`, `run` and `policy`: a failure.
    No,
    /// There is no answer: a failure of another command, or a wrong command line.
    Unknown,
}

impl Outcome {
    /// Returns the exit status: 0 for yes, 1 for no, 2 if there is no answer.
    pub fn exit_status(self) -> u8
        ensures { result ≡ exit_status_of self }
    {
        match self {
            Outcome::Yes => 0,
            Outcome::No => 1,
            Outcome::Unknown => 2,
        }
    }

    /// Returns the outcome of an answer.
    pub(crate) fn of_answer(is_yes: bool) -> Outcome
        ensures { result ≡ outcome_of_answer is_yes }
    {
        if is_yes { Outcome::Yes } else { Outcome::No }
    }
}

/// Returns the worse of two outcomes: no is worse than yes, and unknown than no.
pub(crate) fn worse(one: Outcome, other: Outcome) -> Outcome
    ensures { result ≡ worse one other }
{
    match (one, other) {
        (Outcome::Unknown, _) | (_, Outcome::Unknown) => Outcome::Unknown,
        (Outcome::No, _) | (_, Outcome::No) => Outcome::No,
        (Outcome::Yes, Outcome::Yes) => Outcome::Yes,
    }
}

/// Returns the outcome of a command with this result: `failed` after a failure.
pub fn outcome_of(failed: Outcome, ending: &Result<Outcome, Failure>) -> Outcome
    ensures { result ≡ outcome_of_command failed ending.now }
{
    match ending {
        Ok(outcome) => *outcome,
        Err(_) => failed,
    }
}
