//! Faults of an expression.
use crate::calls::CallName;
use crate::forms::AnswerForm;
use std::alloc::AllocError;
use std::error::Error;
use std::fmt;

/// The reason that a term of an expression is not a condition.
#[derive(Clone, Copy, Debug, PartialEq, Eq)]
pub enum ConditionFault {
    /// The term has no word.
    Empty,
    /// The term has several words, and begins with neither `LINE=` nor `ID:`.
    Words,
    /// The rule is not one of N1 to N26.
    Rule,
    /// The answer after `LINE=` or `ID:` begins with neither `ok` nor a rule.
    Answer,
    /// No answer has the word.
    Word,
    /// No answer begins with the words after `LINE=` or `ID:`.
    Beginning,
    /// No answer meets it and an earlier term on the same line.
    Excluded,
    /// No answer to the call of the line has this form.
    Unanswered { call: CallName, form: AnswerForm },
    /// No answer to a call of the domain has this form.
    UnansweredByAll { form: AnswerForm },
    /// No `&` or `|` is before it.
    Unjoined,
    /// After it, a `)` closes no bracket.
    Unopened,
    /// A `(` before it is not closed.
    Unclosed,
    /// The script has no call on the line.
    NoCall,
    /// The script has no domain of the number.
    NoDomain,
}

/// The reason that a text is not an expression: the first term that is not a condition, counted from 1, or an
/// allocation that failed. It prints as one line, without a line end.
#[derive(Clone, Copy, Debug, PartialEq, Eq)]
pub enum ExpressionFault {
    Memory,
    Term {
        number: usize,
        fault: ConditionFault,
    },
}

impl From<AllocError> for ExpressionFault {
    ghost use Rattle.std.specs.Prelude.{◌≡◌};
    ghost use Rattle.gt_explore_verdict.specs.declared.fault.ExpressionFault.TheVariants.{Memory};

    ghost from_gives = { λ error fault. fault ≡ Memory };

    fn from(_error: AllocError) -> ExpressionFault {
        ExpressionFault::Memory
    }
}

impl fmt::Display for ConditionFault {
    ghost use Rattle.std.specs.Prelude.{Some};
    ghost use Rattle.gt_explore_verdict.specs.Faults.{condition_fault_text};

    ghost output = { λ fault. Some (condition_fault_text fault) };

    fn fmt<W: fmt::Write>(&self, f: &mut fmt::Formatter<W>) -> fmt::Result {
        match self {
            ConditionFault::Empty => f.write_str("no condition"),
            ConditionFault::Words => f.write_str("more than one word without LINE= or ID:"),
            ConditionFault::Rule => f.write_str("no such rule; the rules are N1 to N26"),
            ConditionFault::Answer => f.write_str("an answer is ok or a rule"),
            ConditionFault::Word => f.write_str("no answer has this word"),
            ConditionFault::Beginning => f.write_str("no answer begins with these words"),
            ConditionFault::Excluded => f.write_str("an earlier term on its line excludes it"),
            ConditionFault::Unanswered { call, form } => {
                write!(f, "{} never answers {}", call.words(), form.word())
            }
            ConditionFault::UnansweredByAll { form } => {
                write!(f, "no call of this domain answers {}", form.word())
            }
            ConditionFault::Unjoined => f.write_str("no & or | before it"),
            ConditionFault::Unopened => f.write_str("a ) after it has no ("),
            ConditionFault::Unclosed => f.write_str("a ( before it has no )"),
            ConditionFault::NoCall => f.write_str("no call on this line"),
            ConditionFault::NoDomain => f.write_str("no such domain"),
        }
    }
}

impl Error for ConditionFault {}

impl fmt::Display for ExpressionFault {
    ghost use Rattle.std.specs.Prelude.{Some};
    ghost use Rattle.gt_explore_verdict.specs.Faults.{expression_fault_text};

    ghost output = { λ fault. Some (expression_fault_text fault) };

    fn fmt<W: fmt::Write>(&self, f: &mut fmt::Formatter<W>) -> fmt::Result {
        match self {
            ExpressionFault::Memory => f.write_str("memory"),
            ExpressionFault::Term { number, fault } => write!(f, "term {number}: {fault}"),
        }
    }
}

impl Error for ExpressionFault {}
