//! The fault of an exploration with claims.
use crate::fault::ExploreFault;
use gt_explore_verdict::{ConditionFault, ExpressionFault};
use gt_script_runs::PlayFault;
use std::alloc::AllocError;
use std::error::Error;
use std::fmt;

/// Why a term such as `12<17`, which is an order of two calls, can't be a part of an expression.
#[derive(Clone, Copy, Debug, PartialEq, Eq)]
pub enum PrecedenceFault {
    /// A side is neither the line of a call nor the name of one.
    Call,
}

impl fmt::Display for PrecedenceFault {
    ghost use Rattle.std.specs.Prelude.{Some};
    ghost use Rattle.gt_explore_faults.specs.Faults.{precedence_fault_text};

    ghost output = { λ fault. Some (precedence_fault_text fault) };

    fn fmt<W: fmt::Write>(&self, f: &mut fmt::Formatter<W>) -> fmt::Result {
        match self {
            PrecedenceFault::Call => f.write_str("no such call in an order of calls"),
        }
    }
}

impl Error for PrecedenceFault {}

/// The fault that ended an exploration with claims. It prints as one line, without a line end.
#[derive(Debug, Drop)]
pub enum ClaimsFault {
    /// A fault of an exploration.
    Explore(ExploreFault),
    /// The claim of this number, counted from 1, is not `find`, `never` or `always` with an expression. Nothing was
    /// written.
    Kind(usize),
    /// A term of the expression of a claim, both counted from 1, is not a condition, or no answer meets it. Nothing was
    /// written.
    Term {
        claim: usize,
        number: usize,
        fault: ConditionFault,
    },
    /// A name of an expression is that of the calls on both of these lines. Nothing was written.
    Repeated {
        first: usize,
        second: usize,
    },
    /// A term that is an order of two calls can't be a part of the expression. Nothing was written.
    Precedence(PrecedenceFault),
    /// An expression with the numbers of lines in place of names is not text. Nothing was written.
    Astray,
}

impl fmt::Display for ClaimsFault {
    ghost use Rattle.std.specs.Prelude.{Some};
    ghost use Rattle.gt_explore_faults.specs.Faults.{claims_fault_text};

    ghost output = { λ fault. Some (claims_fault_text fault) };

    fn fmt<W: fmt::Write>(&self, f: &mut fmt::Formatter<W>) -> fmt::Result {
        match self {
            ClaimsFault::Explore(fault) => write!(f, "{fault}"),
            ClaimsFault::Kind(number) => write!(f, "claim {number}: not find, never or always"),
            ClaimsFault::Term {
                claim,
                number,
                fault,
            } => {
                let number = *number;
                let fault = *fault;
                let term = ExpressionFault::Term { number, fault };
                write!(f, "claim {claim}: {term}")
            }
            ClaimsFault::Repeated { first, second } => {
                write!(f, "the same name on lines {first} and {second}")
            }
            ClaimsFault::Precedence(fault) => write!(f, "{fault}"),
            ClaimsFault::Astray => f.write_str("astray"),
        }
    }
}

impl Error for ClaimsFault {}

impl From<AllocError> for ClaimsFault {
    ghost use Rattle.std.specs.Prelude.{◌≡◌};
    ghost use Rattle.gt_explore_faults.specs.Faults.{claims_memory};

    ghost from_gives = { λ error fault. fault ≡ claims_memory };

    fn from(_error: AllocError) -> ClaimsFault {
        ClaimsFault::Explore(ExploreFault::Play(PlayFault::Memory))
    }
}

impl From<ExploreFault> for ClaimsFault {
    ghost use Rattle.std.specs.Prelude.{◌≡◌};
    ghost use Rattle.gt_explore_faults.specs.declared.claims.ClaimsFault.TheVariants as claims_faults;

    ghost from_gives = { λ error fault. fault ≡ claims_faults.Explore error };

    fn from(error: ExploreFault) -> ClaimsFault {
        ClaimsFault::Explore(error)
    }
}
