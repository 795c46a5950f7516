//! Reads a policy, and the `neverallow` and `neverflow` statements of a text about it.
ghost use Rattle.std.specs.Prelude.{◌≡◌, ◌≤◌, length, IfOk, IfErr, IfSome, Some, None, Ok, Err, [], ◌↔◌};
ghost use Rattle.gt_policy.specs.Shown.{fault_shown, out_of_memory};
ghost use Rattle.gt_policy.specs.declared.fault.TokenFault.{TokenFault};
ghost use Rattle.gt_policy_text.specs.Lexing.{lexemes_of};
ghost use Rattle.gt_neverallow.specs.Breaking.{IsNeverFault, IsNothingForbidden, ReadsTexts};
ghost use Rattle.gt_neverallow.specs.Naming.{ReadsAsNever, named_with, mentions_of, undeclared};
ghost use Rattle.gt_neverallow.specs.Reading.{ReadsTo};
ghost use Rattle.std.specs.List.{flat_map};

use crate::fault::{NeverFault, ParseError, TokenKind, fault_of, memory};
use crate::forbidding::{first_line, some_forbids};
use crate::names::undeclared;
use crate::parser::statements;
use crate::statement::NeverStatement;
use crate::words::unknown_words;
use gt_policy::{Items, LinedStatement, PolicyFault, PolicyFaultKind};
use gt_policy_statements::read_policy;
use gt_policy_text::Lexer;
use gt_types::LONGEST_TEXT;
use std::alloc::Global;

/// The statements of a policy, and the `neverallow` and `neverflow` statements of a text about it.
#[derive(Drop)]
pub struct ReadTexts<'p, 'n> {
    pub policy: Items<LinedStatement<'p>>,
    pub nevers: Items<NeverStatement<'n>>,
}

fn parsed<'a>(alloc: Global, text: &'a [u8]) -> Result<Items<NeverStatement<'a>>, ParseError<'a>>
    requires { length text.now ≤ LONGEST_TEXT }
    ensures { ReadsTo result (lexemes_of text.entry.now) }
{
    let mut lexer = Lexer::new(text);
    statements(&mut lexer, alloc)
}

// Returns the fault of the first name that the policy does not declare.
fn fault_of_name(
    alloc: Global,
    policy: &[LinedStatement],
    nevers: &[NeverStatement],
) -> Option<PolicyFault>
    ensures none { result ≡ None → undeclared policy.now (flat_map mentions_of nevers.now) ≡ None }
    ensures fault { IfSome result (λ e. (f : TokenFault) → fault_shown e ≡ Some f →
        named_with nevers.now (undeclared policy.now (flat_map mentions_of nevers.now)) ≡ Err f) }
    ensures memory { IfSome result (λ e. fault_shown e ≡ None → e ≡ out_of_memory) }
{
    let mention = undeclared(policy, nevers)?;
    let kind = TokenKind::Unknown(mention.name.again());
    Some(fault_of(alloc, ParseError::Fault(mention.line, kind)))
}

// Returns the statements, if the policy declares the names in them.
fn named<'a>(
    alloc: Global,
    policy: &[LinedStatement],
    nevers: Items<NeverStatement<'a>>,
) -> Result<Items<NeverStatement<'a>>, PolicyFault>
    ensures ok { IfOk result (λ ns.
        named_with nevers.entry (undeclared policy.now (flat_map mentions_of nevers.entry)) ≡ Ok ns) }
    ensures fault { IfErr result (λ e. (f : TokenFault) → fault_shown e ≡ Some f →
        named_with nevers.entry (undeclared policy.now (flat_map mentions_of nevers.entry)) ≡ Err f) }
    ensures memory { IfErr result (λ e. fault_shown e ≡ None → e ≡ out_of_memory) }
{
    match fault_of_name(alloc, policy, nevers.as_slice()) {
        Some(fault) => Err(fault),
        None => Ok(nevers),
    }
}

// Returns the statements of a text, or its first fault, for the policy of these statements. If an allocation fails, the
// fault is `Memory` with line 0.
fn read_nevers<'a>(
    alloc: Global,
    policy: &[LinedStatement],
    text: &'a str,
) -> Result<Items<NeverStatement<'a>>, PolicyFault>
    ensures ok { IfOk result (λ ns. ReadsAsNever policy.now text.entry.now (Ok ns)) }
    ensures fault { IfErr result (λ e. (f : TokenFault) → fault_shown e ≡ Some f →
        ReadsAsNever policy.now text.entry.now (Err f)) }
    ensures memory { IfErr result (λ e. fault_shown e ≡ None → e ≡ out_of_memory) }
{
    if text.len() > LONGEST_TEXT {
        return Err(PolicyFault {
            line: 1,
            kind: PolicyFaultKind::Limit,
        });
    }
    match parsed(alloc, text.as_bytes()) {
        Ok(nevers) => named(alloc, policy, nevers),
        Err(error) => Err(fault_of(alloc, error)),
    }
}

// Returns the fault of statements that forbid no permissions of class `grant` and no flows. The text has the statements.
fn nothing_forbidden(alloc: Global, text: &str, nevers: &[NeverStatement]) -> NeverFault
    ensures { IsNothingForbidden text.now nevers.now result }
{
    match unknown_words(alloc, text, nevers) {
        Ok(words) => NeverFault::ForbidsNothing {
            line: first_line(nevers),
            words,
        },
        Err(_) => NeverFault::Statements(memory()),
    }
}

/// Returns the statements of a policy and of a text of `neverallow` and `neverflow` statements. The names in these are
/// those of the policy.
///
/// # Errors
/// The first fault of the policy, or else of the other text, or that no statement of the other text forbids permissions
/// of class `grant` or flows. If an allocation fails, its kind is [`PolicyFaultKind::Memory`], with line 0.
pub fn read_texts<'p, 'n>(
    alloc: Global,
    policy: &'p str,
    never: &'n str,
) -> Result<ReadTexts<'p, 'n>, NeverFault>
    ensures ok { IfOk result (λ read. ReadsTexts policy.entry.now never.entry.now read.policy read.nevers) }
    ensures fault { IfErr result (λ e. IsNeverFault policy.entry.now never.entry.now e) }
{
    let policy = match read_policy(alloc, policy) {
        Ok(statements) => statements,
        Err(fault) => return Err(NeverFault::Policy(fault)),
    };
    let nevers = match read_nevers(alloc, policy.as_slice(), never) {
        Ok(nevers) => nevers,
        Err(fault) => return Err(NeverFault::Statements(fault)),
    };
    if some_forbids(nevers.as_slice()) {
        Ok(ReadTexts { policy, nevers })
    } else {
        Err(nothing_forbidden(alloc, never, nevers.as_slice()))
    }
}
