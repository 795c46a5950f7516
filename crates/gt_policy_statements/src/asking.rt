//! Answers who may do what, and by which statements.
ghost use Rattle.std.specs.Prelude.{◌≡◌, ◌++◌, List, IfOk, IfErr, OnOk, None, Some, Ok, Err};
ghost use Rattle.std.specs.List.{list_any};
ghost use Rattle.std.specs.Option.{option_map};
ghost use Rattle.gt_policy.specs.Allowing.{Meaning};
ghost use Rattle.gt_policy.specs.Lined.{IsLined};
ghost use Rattle.gt_policy.specs.Shown.{fault_shown, out_of_memory};
ghost use Rattle.gt_policy.specs.Whole.{ReadsAs};
ghost use Rattle.gt_policy.specs.declared.fault.TokenFault.{TokenFault};
ghost use Rattle.gt_policy.specs.declared.lined.LinedStatement.{LinedStatement};
ghost use Rattle.gt_policy_statements.specs.Granting.{gives_of};
ghost use Rattle.gt_policy_statements.specs.Members.{members_of};
ghost use Rattle.gt_policy_statements.specs.Why.{entries_if, is_listed_under, is_unknown, answer_to_why, lines_with};
ghost use Rattle.gt_policy_statements.specs.Why.{IsExplained};

use crate::granting::{gives_of, near_of};
use crate::members::{Member, members_of};
use crate::reading::read_policy;
use crate::texts::push_entry;
use gt_policy::{LinedStatement, PolicyFault, PolicyFaultKind, Statement};
use gt_text::push_text;
use gt_types::Perms;
use std::alloc::{AllocError, Global};

/// A question: may the source do this to the target? The name of an attribute asks for each type that has it. None
/// means any declared type, or any permission.
#[derive(Clone, Copy)]
pub struct WhyQuestion<'q> {
    pub source: Option<&'q str>,
    pub target: Option<&'q str>,
    pub perm: Option<&'q str>,
}

/// The answer of a policy to a question.
#[derive(Clone, Copy)]
pub enum WhyAnswer {
    /// Some statement grants it.
    Allowed,
    /// No statement grants it.
    Denied,
    /// The source is not a declared type, and no declared type has it as an attribute.
    NoSource,
    /// The target is not a declared type, and no declared type has it as an attribute.
    NoTarget,
    /// The word is not one of the seven permissions.
    NoPermission,
}

/// An answer, with its lines: first `allowed` or `denied`, and then those of the statements that grant the permission,
/// or for a denied question those of the near misses. For the other answers there are no lines.
#[derive(Drop)]
pub struct Explanation {
    pub answer: WhyAnswer,
    pub lines: Vec<u8>,
}

// A question, with the types that match its source and its target.
#[derive(Clone, Copy)]
struct Asked<'m, 'a> {
    sources: &'m [Member<'a>],
    targets: &'m [Member<'a>],
    perm: Option<&'m str>,
}

// Returns whether some statement grants the permission to a source on a target.
fn is_allowed(statements: &[LinedStatement], asked: &Asked) -> bool
    ensures { result ≡ list_any
        (λ x. gives_of (option_map (λ p. p.now) asked.now.perm) asked.now.sources.now asked.now.targets.now x.statement) statements.now }
{
    'statements: for stated in statements {
        if gives_of(&stated.statement, asked.sources, asked.targets, asked.perm) {
            return true;
        }
    }
    false
}

// Returns whether a word that is asked for is not one of the seven permissions.
fn is_unknown(perm: Option<&str>) -> bool
    ensures { result ≡ is_unknown (option_map (λ p. p.now) perm.entry) }
{
    match perm {
        Some(word) => Perms::named(word.as_bytes()).is_none(),
        None => false,
    }
}

fn answer_with(statements: &[LinedStatement], asked: &Asked) -> WhyAnswer
    ensures { result ≡ answer_to_why (option_map (λ p. p.now) asked.now.perm) asked.now.sources.now asked.now.targets.now statements.now }
{
    if is_unknown(asked.perm) {
        WhyAnswer::NoPermission
    } else if asked.sources.is_empty() {
        WhyAnswer::NoSource
    } else if asked.targets.is_empty() {
        WhyAnswer::NoTarget
    } else if is_allowed(statements, asked) {
        WhyAnswer::Allowed
    } else {
        WhyAnswer::Denied
    }
}

// Returns whether a statement is listed: under Allowed if it grants the permission, and else if it is a near miss.
fn is_listed(answer: WhyAnswer, statement: &Statement, asked: &Asked) -> bool
    ensures { result ≡ is_listed_under answer (option_map (λ p. p.now) asked.now.perm) asked.now.sources.now asked.now.targets.now
        statement.now }
{
    match answer {
        WhyAnswer::Allowed => gives_of(statement, asked.sources, asked.targets, asked.perm),
        _ => near_of(statement, asked.sources, asked.targets, asked.perm),
    }
}

// Appends a text, and the lines of the listed statements.
fn push_listed(
    out: &mut Vec<u8>,
    title: &str,
    answer: WhyAnswer,
    file: &str,
    statements: &[LinedStatement],
    asked: &Asked,
) -> Result<(), AllocError>
    ensures { OnOk result (out.new.items ≡ out.old.items ++ title.now ++ entries_if
        (is_listed_under answer (option_map (λ p. p.now) asked.now.perm) asked.now.sources.now asked.now.targets.now)
        file.now asked.now.sources.now asked.now.targets.now statements.now) }
{
    push_text(out, title)?;
    'statements: for stated in statements {
        if is_listed(answer, &stated.statement, asked) {
            push_entry(out, file, stated, asked.sources, asked.targets)?;
        }
    }
    Ok(())
}

fn push_lines(
    out: &mut Vec<u8>,
    answer: WhyAnswer,
    file: &str,
    statements: &[LinedStatement],
    asked: &Asked,
) -> Result<(), AllocError>
    ensures { OnOk result (out.new.items ≡ out.old.items ++ lines_with answer
        file.now (option_map (λ p. p.now) asked.now.perm) asked.now.sources.now asked.now.targets.now statements.now) }
{
    match answer {
        WhyAnswer::Allowed => push_listed(out, "allowed\n", answer, file, statements, asked),
        WhyAnswer::Denied => push_listed(out, "denied\n", answer, file, statements, asked),
        _ => Ok(()),
    }
}

// Answers for these sources and targets, with the lines.
fn answered(
    alloc: Global,
    file: &str,
    statements: &[LinedStatement],
    asked: &Asked,
) -> Result<Explanation, AllocError>
    ensures answer { IfOk result (λ e. e.answer
        ≡ answer_to_why (option_map (λ p. p.now) asked.now.perm) asked.now.sources.now asked.now.targets.now statements.now) }
    ensures lines { IfOk result (λ e. e.lines.items ≡ lines_with e.answer
        file.now (option_map (λ p. p.now) asked.now.perm) asked.now.sources.now asked.now.targets.now statements.now) }
{
    let answer = answer_with(statements, asked);
    let mut lines = Vec::new(alloc);
    push_lines(&mut lines, answer, file, statements, asked)?;
    Ok(Explanation { answer, lines })
}

// Answers a question.
fn explained(
    alloc: Global,
    file: &str,
    statements: &[LinedStatement],
    question: &WhyQuestion,
) -> Result<Explanation, AllocError>
    ensures { IfOk result (λ e. IsExplained file.now question.now statements.now e) }
{
    let sources = members_of(alloc, statements, question.source)?;
    let targets = members_of(alloc, statements, question.target)?;
    let asked = Asked {
        sources: sources.as_slice(),
        targets: targets.as_slice(),
        perm: question.perm,
    };
    answered(alloc, file, statements, &asked)
}

/// Answers whether the policy of a text allows what is asked. The first line is `allowed` or `denied`. Then comes a
/// line for each allow statement that grants it: `FILE:LINE: STATEMENT  # SOURCES -> TARGETS`. The sources and targets
/// are the types asked for that the sets of the statement hold, each with the attribute through which the set holds it.
/// For a denied question, the lines are those of the near misses: they have the target, and the permission or the
/// source. A question about any permission is allowed if the policy allows one of the seven.
///
/// The error is the first fault of a text that is not a policy. If an allocation fails, it is
/// [`PolicyFaultKind::Memory`] with line 0.
pub fn why(
    alloc: Global,
    file: &str,
    text: &str,
    question: &WhyQuestion,
) -> Result<Explanation, PolicyFault>
    ensures ok { IfOk result (λ e. (m : Meaning) × (xs : List LinedStatement) × ReadsAs text.now (Ok m)
        × IsLined text.now xs × IsExplained file.now question.now xs e) }
    ensures fault { IfErr result (λ e. (f : TokenFault) → fault_shown e ≡ Some f → ReadsAs text.now (Err f)) }
    ensures memory { IfErr result (λ e. fault_shown e ≡ None → e ≡ out_of_memory) }
{
    let statements = match read_policy(alloc, text) {
        Ok(statements) => statements,
        Err(fault) => return Err(fault),
    };
    match explained(alloc, file, statements.as_slice(), question) {
        Ok(explanation) => Ok(explanation),
        Err(_) => Err(PolicyFault {
            line: 0,
            kind: PolicyFaultKind::Memory,
        }),
    }
}
