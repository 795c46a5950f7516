//! Faults of a text of `neverallow` statements.
ghost use Rattle.std.specs.Prelude.{◌≡◌, Some, None, IfOk};
ghost use Rattle.gt_policy.specs.Shown.{fault_shown, kind_shown, out_of_memory};
ghost use Rattle.gt_policy.specs.declared.fault.TokenFault.{TokenFault};
ghost use Rattle.gt_neverallow.specs.Reading.{parse_fault_in, fault_kind};

use gt_findings::Finding;
use gt_policy::{PolicyFault, PolicyFaultKind, TextPiece};
use std::alloc::{AllocError, Global};

/// The reason that a policy was not compared with `neverallow` statements.
#[derive(Drop)]
pub enum NeverFault {
    /// The first fault of the policy; its kind is `Memory` if an allocation failed.
    Policy(PolicyFault),
    /// The first fault of the `neverallow` statements; its kind is `Memory` if an allocation failed.
    Statements(PolicyFault),
    /// No `neverallow` statement forbids permissions of class `grant`. It has the line of the first one, or 1, and a
    /// finding for each word of the statements that nothing knows.
    ForbidsNothing { line: u32, words: Vec<Finding> },
}

/// The kind of a fault at a token.
#[derive(Drop)]
pub(crate) enum TokenKind<'a> {
    Syntax,
    Unknown(TextPiece<'a>),
    Permission(TextPiece<'a>),
    Outside(TextPiece<'a>),
    Limit,
}

/// The error of a step of the parser: a failed allocation, or a fault with the line of its token.
#[derive(Drop)]
pub(crate) enum ParseError<'a> {
    Memory,
    Fault(u32, TokenKind<'a>),
}

impl<'a> From<AllocError> for ParseError<'a> {
    ghost use Rattle.std.specs.Prelude.{◌≡◌};
    ghost use Rattle.gt_neverallow.specs.declared.fault.ParseError.TheVariants.{Memory};

    ghost from_gives = { λ _ e. e ≡ Memory };

    fn from(_e: AllocError) -> ParseError<'a> {
        ParseError::Memory
    }
}

/// Returns the fault of a failed allocation.
pub(crate) fn memory() -> PolicyFault
    ensures { result ≡ out_of_memory }
{
    PolicyFault {
        line: 0,
        kind: PolicyFaultKind::Memory,
    }
}

fn kind_of<'a>(alloc: Global, kind: TokenKind<'a>) -> Result<PolicyFaultKind, AllocError>
    ensures { IfOk result (λ k. kind_shown k ≡ Some (fault_kind kind.entry)) }
{
    match kind {
        TokenKind::Syntax => Ok(PolicyFaultKind::Syntax),
        TokenKind::Unknown(name) => Ok(PolicyFaultKind::Unknown(name.to_string(alloc)?)),
        TokenKind::Permission(name) => Ok(PolicyFaultKind::Permission(name.to_string(alloc)?)),
        TokenKind::Outside(name) => Ok(PolicyFaultKind::Outside(name.to_string(alloc)?)),
        TokenKind::Limit => Ok(PolicyFaultKind::Limit),
    }
}

/// Returns the fault of an error, with its words.
pub(crate) fn fault_of<'a>(alloc: Global, error: ParseError<'a>) -> PolicyFault
    ensures fault { (f : TokenFault) → fault_shown result ≡ Some f → parse_fault_in error.entry ≡ Some f }
    ensures memory { fault_shown result ≡ None → result ≡ out_of_memory }
{
    let ParseError::Fault(line, kind) = error else {
        return memory();
    };
    match kind_of(alloc, kind) {
        Ok(kind) => PolicyFault { line, kind },
        Err(_) => memory(),
    }
}
