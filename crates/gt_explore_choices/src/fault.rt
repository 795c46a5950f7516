//! Faults of choices.
use std::alloc::AllocError;
use std::error::Error;
use std::fmt;

/// The reason that a script with choices was not explored. It prints as one line, without a line end.
#[derive(Clone, Copy, Debug, PartialEq, Eq)]
pub enum ChoicesFault {
    /// An allocation failed.
    Memory,
    /// There are more choices than [`MOST_CHOICES`](crate::MOST_CHOICES).
    Many,
    /// What is asked has no answer for a script with choices.
    Unanswered,
}

impl fmt::Display for ChoicesFault {
    ghost use Rattle.std.specs.Prelude.{Some};
    ghost use Rattle.gt_explore_choices.specs.Choices.{choices_fault_text};

    ghost output = { λ fault. Some (choices_fault_text fault) };

    fn fmt<W: fmt::Write>(&self, f: &mut fmt::Formatter<W>) -> fmt::Result {
        match self {
            ChoicesFault::Memory => f.write_str("memory"),
            ChoicesFault::Many => f.write_str("more than 4096 choices"),
            ChoicesFault::Unanswered => f.write_str("not for a script with maybe or leave"),
        }
    }
}

impl Error for ChoicesFault {}

impl From<AllocError> for ChoicesFault {
    fn from(_error: AllocError) -> ChoicesFault {
        ChoicesFault::Memory
    }
}
