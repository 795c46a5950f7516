//! Answers for each pair of types that a question asks for.
ghost use Rattle.std.specs.Prelude.{◌≡◌, IfErr, IfOk, None, Ok, Err, Some};
ghost use Rattle.std.specs.List.{list_any};
ghost use Rattle.std.specs.Option.{option_map};
ghost use Rattle.std.specs.Str.{bytes_eq};
ghost use Rattle.gt_policy.specs.Shown.{fault_shown, out_of_memory};
ghost use Rattle.gt_policy.specs.Whole.{ReadsAs};
ghost use Rattle.gt_policy.specs.declared.fault.TokenFault.{TokenFault};
ghost use Rattle.gt_policy_statements.specs.Members.{is_asked};
ghost use Rattle.gt_policy_questions.specs.Pairs.{AnswersPairs, ArePairsOf, is_type_asked, types_asked_of};

use crate::listing::{allowed_pairs, pairs_between, push_lines};
use gt_allow::AllowTable;
use gt_policy::{LinedStatement, Policy, PolicyFault, PolicyFaultKind, TextPiece, statements_of};
use gt_policy_statements::{Member, members_of};
use gt_types::{Allows, Perms, TypeId};
use std::alloc::{AllocError, Global};

/// A question: for which pairs of a source and a target is the permission allowed? The name of an attribute asks for
/// each type that has it. None asks for each declared type, or for any permission.
#[derive(Clone, Copy)]
pub struct PairsQuestion<'q> {
    pub source: Option<&'q str>,
    pub target: Option<&'q str>,
    pub perm: Option<Perms>,
}

/// The answers for the pairs of a question: how many are allowed, of how many, and a line for each,
/// `SOURCE TARGET allowed` or `SOURCE TARGET denied`. The pairs are in the order of the declarations of their types,
/// source by source.
#[derive(Drop)]
pub struct PairsReport {
    pub allowed: usize,
    pub pairs: usize,
    pub lines: Vec<u8>,
}

// Returns whether a name is among these.
fn has_name(names: &[TextPiece], wanted: &[u8]) -> bool
    ensures { result ≡ list_any (λ v. bytes_eq v wanted.now) names.now }
{
    'names: for name in names {
        if name.as_bytes() == wanted {
            return true;
        }
    }
    false
}

// Returns whether a type with these names is asked for.
fn is_asked(asked: Option<&str>, names: &[TextPiece]) -> bool
    ensures { result ≡ is_asked (option_map (λ a. a.now) asked.entry) names.now }
{
    match asked {
        Some(wanted) => has_name(names, wanted.as_bytes()),
        None => true,
    }
}

// Returns whether the type of this number is asked for.
fn is_type_asked(members: &[Member], asked: Option<&str>, id: u16) -> bool
    ensures { result ≡ is_type_asked members.now (option_map (λ a. a.now) asked.entry) id }
{
    match members.get(id as usize) {
        Some(member) => is_asked(asked, member.names.as_slice()),
        None => false,
    }
}

/// Returns the numbers of the types that are asked for, of this number of types: those that have the name, or all if
/// there is none.
pub fn types_asked_of(
    alloc: Global,
    members: &[Member],
    count: u16,
    asked: Option<&str>,
) -> Result<Vec<TypeId>, AllocError>
    ensures { IfOk result (λ ids. ids.items ≡ types_asked_of members.now (option_map (λ a. a.now) asked.entry) count) }
{
    let mut ids = Vec::new(alloc);
    'types: for id in 0..count {
        if is_type_asked(members, asked, id) {
            ids.push(TypeId(id))?;
        }
    }
    Ok(ids)
}

// Answers a question about a policy that was read.
fn answered<P: Allows>(
    alloc: Global,
    policy: &P,
    count: u16,
    statements: &[LinedStatement],
    question: &PairsQuestion,
) -> Result<PairsReport, AllocError>
    ensures { IfOk result (AnswersPairs (P.may policy.now) count statements.now question.now) }
{
    let members = members_of(alloc, statements, None)?;
    let sources = types_asked_of(alloc, members.as_slice(), count, question.source)?;
    let targets = types_asked_of(alloc, members.as_slice(), count, question.target)?;
    let pairs = pairs_between(alloc, sources.as_slice(), targets.as_slice())?;
    let allowed = allowed_pairs(alloc, policy, question.perm, pairs.as_slice())?;
    let mut lines = Vec::new(alloc);
    push_lines(
        &mut lines,
        policy,
        members.as_slice(),
        question.perm,
        pairs.as_slice(),
    )?;
    Ok(PairsReport {
        allowed: allowed.len(),
        pairs: pairs.len(),
        lines,
    })
}

// Returns the fault of a failed allocation.
fn out_of_memory() -> PolicyFault
    ensures { result ≡ out_of_memory }
{
    PolicyFault {
        line: 0,
        kind: PolicyFaultKind::Memory,
    }
}

/// Answers for each pair of a source and a target that the question asks for, by the policy of a text. A name that is
/// neither a declared type nor an attribute asks for no type, so there are no pairs.
///
/// # Errors
/// The first fault of a text that is not a policy. If an allocation fails, it is [`PolicyFaultKind::Memory`] with line 0.
pub fn pairs(
    alloc: Global,
    text: &str,
    question: &PairsQuestion,
) -> Result<PairsReport, PolicyFault>
    ensures ok { IfOk result (ArePairsOf text.now question.now) }
    ensures fault { IfErr result (λ e. (f : TokenFault) → fault_shown e ≡ Some f → ReadsAs text.now (Err f)) }
    ensures memory { IfErr result (λ e. fault_shown e ≡ None → e ≡ out_of_memory) }
{
    let policy = Policy::parse(alloc, text)?;
    let statements = statements_of(alloc, text)?;
    let Ok(table) = AllowTable::compile(alloc, &policy) else {
        return Err(out_of_memory());
    };
    match answered(
        alloc,
        &table,
        policy.count(),
        statements.as_slice(),
        question,
    ) {
        Ok(report) => Ok(report),
        Err(_) => Err(out_of_memory()),
    }
}
