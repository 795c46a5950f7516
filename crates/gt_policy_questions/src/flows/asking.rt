//! Answers whether bytes of a type reach another one by a policy text.
ghost use Rattle.std.specs.Prelude.{◌≡◌, ◌&&◌, [], IfErr, IfOk, None, Ok, Err, Some, is_some};
ghost use Rattle.std.specs.Prelude.{length, map};
ghost use Rattle.std.specs.Option.{option_map};
ghost use Rattle.gt_flow.specs.Accesses.{AreAmong, is_among};
ghost use Rattle.gt_policy.specs.Kept.{may_of};
ghost use Rattle.gt_policy.specs.Shown.{fault_shown, out_of_memory};
ghost use Rattle.gt_policy.specs.Whole.{ReadsAs};
ghost use Rattle.gt_policy.specs.declared.fault.TokenFault.{TokenFault};
ghost use Rattle.gt_policy_statements.specs.Members.{members_of};
ghost use Rattle.gt_policy_questions.specs.Asking.{IsFlowOf, IsFlowReport, ReportsFor, ReportsTypes, form_of, names_in};
ghost use Rattle.gt_policy_questions.specs.Asking.{Trusts};

use crate::asking::types_asked_of;
use crate::flows::format::{FlowFormat, FlowText};
use crate::flows::pairs::{PairForm, push_sources};
use crate::flows::steps::ReadPolicy;
use gt_allow::AllowTable;
use gt_policy::{LinedStatement, Policy, PolicyFault, PolicyFaultKind, statements_of};
use gt_policy_statements::{Member, members_of};
use gt_types::{Allows, TypeId};
use std::alloc::{AllocError, Global};

/// A question: do bytes of the source reach the target? The name of an attribute asks for each type that has it. None
/// asks for each declared type. Stores by domains of the trusted types, whose names are joined by commas, are left out.
/// The format is that of the answer.
#[derive(Clone, Copy)]
pub struct FlowQuestion<'q> {
    pub source: Option<&'q str>,
    pub target: Option<&'q str>,
    pub trusted: Option<&'q str>,
    pub format: FlowFormat,
}

/// The answer of a policy to a question.
#[derive(Clone, Copy)]
pub enum FlowAnswer {
    /// There is a path from some source to some target.
    Path,
    /// There is none.
    NoPath,
    /// The source is not a declared type, and no declared type has it as an attribute.
    NoSource,
    /// The same of the target.
    NoTarget,
    /// The same of a trusted type: the first such name, by its place among those of the question, counted from 0.
    NoTrusted(usize),
}

/// An answer, with its lines. For one source and one target: `SOURCE -> TARGET  N`, where N is the number of accesses,
/// and a line for each access of a shortest path; or `SOURCE -> TARGET  none`. For several pairs, a line for each. If
/// the question asks for each type, only pairs with a path have a line. For the other answers there are no lines. As
/// JSON each line is an object.
#[derive(Drop)]
pub struct FlowReport {
    pub answer: FlowAnswer,
    pub lines: Vec<u8>,
}

// Returns the names that are joined by commas.
fn names_in<'q>(alloc: Global, text: Option<&'q str>) -> Result<Vec<&'q str>, AllocError>
    ensures { IfOk result (λ names. map (λ n. n.now) names.items ≡ names_in (option_map (λ t. t.now) text.entry)) }
{
    match text {
        Some(text) => text.split(',').collect(alloc),
        None => Ok(Vec::new(alloc)),
    }
}

// Adds the types of these names up to the first that is not that of some type, and returns the place of that one.
fn push_trusted(
    alloc: Global,
    trusted: &mut Vec<TypeId>,
    members: &[Member],
    count: u16,
    names: &[&str],
) -> Result<Option<usize>, AllocError>
    ensures { IfOk result (λ place. Trusts members.now count (map (λ n. n.now) names.now) place trusted.old.items
        trusted.new.items) }
{
    'names: for (place, name) in names.iter().enumerate() {
        let ids = types_asked_of(alloc, members, count, Some(*name))?;
        if ids.is_empty() {
            return Ok(Some(place));
        }
        trusted.extend_from_slice(ids.as_slice())?;
    }
    Ok(None)
}

// Returns the form of the answers.
fn form_of(question: &FlowQuestion, sources: &[TypeId], targets: &[TypeId]) -> PairForm
    ensures { result ≡ form_of (is_some question.now.source && is_some question.now.target) (length sources.now)
        (length targets.now) }
{
    if question.source.is_none() || question.target.is_none() {
        PairForm::Reached
    } else if sources.len() == 1 && targets.len() == 1 {
        PairForm::Steps
    } else {
        PairForm::Pairs
    }
}

// Answers a question for these sources and targets.
fn answered<P: Allows>(
    alloc: Global,
    read: &ReadPolicy<'_, '_, P>,
    question: &FlowQuestion,
    sources: &[TypeId],
    targets: &[TypeId],
) -> Result<FlowReport, AllocError>
    requires { AreAmong read.now.count (P.may read.now.policy.now) }
    ensures { IfOk result (λ report. ReportsFor read.now.format (P.may read.now.policy.now)
        (is_among read.now.trusted.now) read.now.statements.now read.now.members.now question.now sources.now
        targets.now report) }
{
    if sources.is_empty() {
        return Ok(FlowReport {
            answer: FlowAnswer::NoSource,
            lines: Vec::new(alloc),
        });
    }
    if targets.is_empty() {
        return Ok(FlowReport {
            answer: FlowAnswer::NoTarget,
            lines: Vec::new(alloc),
        });
    }
    let mut text = FlowText {
        bytes: Vec::new(alloc),
        is_whole: true,
    };
    let form = form_of(question, sources, targets);
    let has_path = push_sources(alloc, &mut text, read, form, sources, targets);
    let FlowText { bytes, is_whole } = text;
    if !is_whole {
        return Err(AllocError);
    }
    let answer = if has_path {
        FlowAnswer::Path
    } else {
        FlowAnswer::NoPath
    };
    Ok(FlowReport {
        answer,
        lines: bytes,
    })
}

// Answers a question whose trusted types are known.
fn report_of<P: Allows>(
    alloc: Global,
    read: &ReadPolicy<'_, '_, P>,
    question: &FlowQuestion,
) -> Result<FlowReport, AllocError>
    requires { AreAmong read.now.count (P.may read.now.policy.now) }
    ensures { IfOk result (λ report. ReportsTypes None read.now.format (P.may read.now.policy.now)
        (is_among read.now.trusted.now) read.now.count read.now.statements.now read.now.members.now question.now
        report) }
{
    let sources = types_asked_of(alloc, read.members, read.count, question.source)?;
    let targets = types_asked_of(alloc, read.members, read.count, question.target)?;
    answered(
        alloc,
        read,
        question,
        sources.as_slice(),
        targets.as_slice(),
    )
}

// Answers a question about a policy that was read.
fn report<P: Allows>(
    alloc: Global,
    policy: &P,
    count: u16,
    statements: &[LinedStatement],
    question: &FlowQuestion,
) -> Result<FlowReport, AllocError>
    requires { AreAmong count (P.may policy.now) }
    ensures { IfOk result (λ report. IsFlowReport (P.may policy.now) count statements.now question.now report) }
{
    let names = names_in(alloc, question.trusted)?;
    let types = members_of(alloc, statements, None)?;
    let members = types.as_slice();
    let mut trusted = Vec::new(alloc);
    let unknown = push_trusted(alloc, &mut trusted, members, count, names.as_slice())?;
    if let Some(place) = unknown {
        return Ok(FlowReport {
            answer: FlowAnswer::NoTrusted(place),
            lines: Vec::new(alloc),
        });
    }
    let read = ReadPolicy {
        policy,
        count,
        members,
        statements,
        trusted: trusted.as_slice(),
        format: question.format,
    };
    report_of(alloc, &read, question)
}

/// Answers whether bytes of the source reach the target by the policy of a text, and by which accesses.
///
/// # Errors
/// The first fault of a text that is not a policy. If an allocation fails, it is [`PolicyFaultKind::Memory`] with line 0.
pub fn flow(alloc: Global, text: &str, question: &FlowQuestion) -> Result<FlowReport, PolicyFault>
    ensures ok { IfOk result (λ report. IsFlowOf text.now question.now report) }
    ensures fault { IfErr result (λ e. (f : TokenFault) → fault_shown e ≡ Some f → ReadsAs text.now (Err f)) }
    ensures memory { IfErr result (λ e. fault_shown e ≡ None → e ≡ out_of_memory) }
{
    let policy = Policy::parse(alloc, text)?;
    let statements = statements_of(alloc, text)?;
    policy.allows_among_its_types();
    let Ok(table) = AllowTable::compile(alloc, &policy) else {
        return Err(PolicyFault {
            line: 0,
            kind: PolicyFaultKind::Memory,
        });
    };
    match report(
        alloc,
        &table,
        policy.count(),
        statements.as_slice(),
        question,
    ) {
        Ok(report) => Ok(report),
        Err(_) => Err(PolicyFault {
            line: 0,
            kind: PolicyFaultKind::Memory,
        }),
    }
}
