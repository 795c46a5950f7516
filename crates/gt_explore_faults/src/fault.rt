//! The types of the faults.
use gt_explore_search::SearchFault;
use gt_explore_verdict::{ConditionFault, ExpressionFault};
use gt_script_runs::PlayFault;
use gt_types::Memory;
use std::alloc::{AllocError, AllocFailed};
use std::error::Error;
use std::fmt;

/// The reason that the texts of a script were not found. It prints as one line, without a line end.
#[derive(Clone, Copy, Debug)]
pub enum TextsFault {
    /// An allocation failed.
    Memory,
    /// There are more states than the limit, or more than the search can number.
    States,
    /// The search found an order that the core does not follow to its text, a run that returned to a state, or a
    /// witness that does not give its text.
    Astray,
}

impl fmt::Display for TextsFault {
    ghost use Rattle.std.specs.Prelude.{Some};
    ghost use Rattle.gt_explore_faults.specs.Faults.{texts_fault_text};

    ghost output = { λ fault. Some (texts_fault_text fault) };

    fn fmt<W: fmt::Write>(&self, f: &mut fmt::Formatter<W>) -> fmt::Result {
        match self {
            TextsFault::Memory => f.write_str("memory"),
            TextsFault::States => f.write_str("states"),
            TextsFault::Astray => f.write_str("astray"),
        }
    }
}

impl Error for TextsFault {}

impl From<AllocError> for TextsFault {
    fn from(_error: AllocError) -> TextsFault {
        TextsFault::Memory
    }
}

impl<T: Drop> From<AllocFailed<T>> for TextsFault {
    fn from(_error: AllocFailed<T>) -> TextsFault {
        TextsFault::Memory
    }
}

impl From<SearchFault> for TextsFault {
    fn from(error: SearchFault) -> TextsFault {
        match error {
            SearchFault::Memory => TextsFault::Memory,
            SearchFault::States => TextsFault::States,
            SearchFault::Circle => TextsFault::Astray,
        }
    }
}

impl From<Memory> for TextsFault {
    fn from(_error: Memory) -> TextsFault {
        TextsFault::Memory
    }
}

/// The reason that a line of a given text is not the answer line that each run of the script has there.
#[derive(Clone, Copy, Debug, PartialEq, Eq)]
pub enum TextFault {
    /// It ends with a carriage return.
    CarriageReturn,
    /// It is an audit line.
    Audit,
    /// It is JSON.
    Json,
    /// The text ends in the line or before it.
    Cut,
    /// It is another line.
    Line,
}

impl fmt::Display for TextFault {
    ghost use Rattle.std.specs.Prelude.{Some};
    ghost use Rattle.gt_explore_faults.specs.Faults.{text_fault_text};

    ghost output = { λ fault. Some (text_fault_text fault) };

    fn fmt<W: fmt::Write>(&self, f: &mut fmt::Formatter<W>) -> fmt::Result {
        match self {
            TextFault::CarriageReturn => f.write_str("ends with CR LF; a text has LF"),
            TextFault::Audit => f.write_str("an audit line; give the text without --audit"),
            TextFault::Json => f.write_str("JSON; give the text without --format json"),
            TextFault::Cut => f.write_str("the text is cut off"),
            TextFault::Line => f.write_str("no answer line of this script"),
        }
    }
}

/// The fault that ended an exploration. It prints as one line, without a line end.
#[derive(Debug, Drop)]
pub enum ExploreFault {
    /// A fault that a play can have too: of the script, of memory, or of a read or a write. Only after a failed write
    /// was anything written: a prefix of the text.
    Play(PlayFault),
    /// A term of the expression, counted from 1, is not a condition, or names a line or a domain that the script does
    /// not have. Nothing was written.
    Term {
        number: usize,
        fault: ConditionFault,
    },
    /// No text has the number of the witness, the trace or the diagram. Nothing was written.
    Number,
    /// None of the texts found has that number, and the search stopped before it met all states. Nothing was written.
    Unfound,
    /// The given text is not one of the texts: its first line that is not an answer line has this number.
    /// Nothing was written.
    Text {
        line: usize,
        fault: TextFault,
    },
    /// The texts of the script were not found. Nothing was written.
    Texts(TextsFault),
}

impl fmt::Display for ExploreFault {
    ghost use Rattle.std.specs.Prelude.{Some};
    ghost use Rattle.gt_explore_faults.specs.Faults.{explore_fault_text};

    ghost output = { λ fault. Some (explore_fault_text fault) };

    fn fmt<W: fmt::Write>(&self, f: &mut fmt::Formatter<W>) -> fmt::Result {
        match self {
            ExploreFault::Play(fault) => write!(f, "{fault}"),
            ExploreFault::Term { number, fault } => write!(f, "term {number}: {fault}"),
            ExploreFault::Number => f.write_str("no such text"),
            ExploreFault::Unfound => f.write_str("no such text found"),
            ExploreFault::Text { line, fault } => write!(f, "text line {line}: {fault}"),
            ExploreFault::Texts(fault) => write!(f, "{fault}"),
        }
    }
}

impl Error for ExploreFault {}

impl From<ExpressionFault> for ExploreFault {
    ghost use Rattle.std.specs.Prelude.{◌≡◌};
    ghost use Rattle.gt_explore_faults.specs.Faults.{expression_fault};

    ghost from_gives = { λ error fault. fault ≡ expression_fault error };

    fn from(error: ExpressionFault) -> ExploreFault {
        match error {
            ExpressionFault::Memory => ExploreFault::Texts(TextsFault::Memory),
            ExpressionFault::Term { number, fault } => ExploreFault::Term { number, fault },
        }
    }
}
