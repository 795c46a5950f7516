//! Faults of a claim about states.
use std::alloc::{AllocError, AllocFailed};
use std::error::Error;
use std::fmt;

/// The reason that a part of a text is not a term about an entry.
#[derive(Clone, Copy, Debug, PartialEq, Eq)]
pub enum StateTermFault {
    /// It has no word, or none after its `!`.
    Empty,
    /// It has a bracket.
    Bracket,
    /// It does not begin with `ID.REF`.
    Entry,
    /// `ID` is not below 2^16.
    Domain,
    /// `REF` is not below 2^32.
    Reference,
    /// It ends after `ID.REF`.
    Ended,
    /// It has more than one word after `ID.REF`.
    Words,
    /// No entry shows the word after `ID.REF`.
    Word,
    /// No number is after `=`, `<` or `>`.
    Number,
    /// The number is not below 2^64.
    Large,
}

/// The reason that a text is not a claim about the states of a script. It prints as one line, without a line end.
#[derive(Clone, Copy, Debug, PartialEq, Eq)]
pub enum StateClaimFault {
    /// An allocation failed.
    Memory,
    /// It has more than 1,048,576 bytes.
    Long,
    /// The first part that is not a term, counted from 1.
    Term {
        number: usize,
        fault: StateTermFault,
    },
    /// The script has no domain of this number.
    Domain(u16),
}

impl From<AllocError> for StateClaimFault {
    ghost use Rattle.std.specs.Prelude.{◌≡◌};
    ghost use Rattle.gt_state_claims.specs.declared.fault.StateClaimFault.TheVariants.{Memory};

    ghost from_gives = { λ error fault. fault ≡ Memory };

    fn from(_error: AllocError) -> StateClaimFault {
        StateClaimFault::Memory
    }
}

impl<T: Drop> From<AllocFailed<T>> for StateClaimFault {
    ghost use Rattle.std.specs.Prelude.{◌≡◌};
    ghost use Rattle.gt_state_claims.specs.declared.fault.StateClaimFault.TheVariants.{Memory};

    ghost from_gives = { λ error fault. fault ≡ Memory };

    fn from(_error: AllocFailed<T>) -> StateClaimFault {
        StateClaimFault::Memory
    }
}

impl fmt::Display for StateTermFault {
    ghost use Rattle.std.specs.Prelude.{Some};
    ghost use Rattle.gt_state_claims.specs.Faults.{state_term_fault_text};

    ghost output = { λ fault. Some (state_term_fault_text fault) };

    fn fmt<W: fmt::Write>(&self, f: &mut fmt::Formatter<W>) -> fmt::Result {
        match self {
            StateTermFault::Empty => f.write_str("no condition"),
            StateTermFault::Bracket => f.write_str("a claim about states has no brackets"),
            StateTermFault::Entry => f.write_str("it does not begin with ID.REF"),
            StateTermFault::Domain => f.write_str("the domain is not below 65536"),
            StateTermFault::Reference => f.write_str("the reference is not below 4294967296"),
            StateTermFault::Ended => f.write_str("no word after ID.REF"),
            StateTermFault::Words => f.write_str("more than one word after ID.REF"),
            StateTermFault::Word => f.write_str("no entry shows this word"),
            StateTermFault::Number => f.write_str("no number after =, < or >"),
            StateTermFault::Large => f.write_str("the number is not below 18446744073709551616"),
        }
    }
}

impl Error for StateTermFault {}

impl fmt::Display for StateClaimFault {
    ghost use Rattle.std.specs.Prelude.{Some};
    ghost use Rattle.gt_state_claims.specs.Faults.{state_claim_fault_text};

    ghost output = { λ fault. Some (state_claim_fault_text fault) };

    fn fmt<W: fmt::Write>(&self, f: &mut fmt::Formatter<W>) -> fmt::Result {
        match self {
            StateClaimFault::Memory => f.write_str("memory"),
            StateClaimFault::Long => f.write_str("a claim has at most 1048576 bytes"),
            StateClaimFault::Term { number, fault } => write!(f, "term {number}: {fault}"),
            StateClaimFault::Domain(number) => write!(f, "no such domain: {number}"),
        }
    }
}

impl Error for StateClaimFault {}
