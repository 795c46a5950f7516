//! Warnings about the statements of a policy.
ghost use Rattle.std.specs.Prelude.{◌≡◌, ◌+◌, ◌<◌, ◌≤◌, ◌∷◌, [], length, map, filter, slice_get, take, All, IfOk};
ghost use Rattle.std.specs.Prelude.{ℕ, List, Some, OnOk};
ghost use Rattle.std.specs.List.{flat_map};
ghost use Rattle.gt_findings.specs.Findings.{HasColumn, KeepsColumns};
ghost use Rattle.gt_policy_check.specs.Earlier.{IsStated, ListsEarlier};
ghost use Rattle.gt_policy.specs.declared.lined.LinedStatement.{LinedStatement};
ghost use Rattle.gt_policy_check.specs.AllowColumns.{AreStatementColumns};
ghost use Rattle.gt_findings.specs.LineWords.{IsLineWords};
ghost use Rattle.gt_policy_check.specs.Placing.{IsLinedPolicy};
ghost use Rattle.gt_findings.specs.Placing.{IsPlace};
ghost use Rattle.gt_findings.specs.Findings.{Quiet, AddsUseless, error_lines};
ghost use Rattle.gt_policy_check.specs.Check.{allows_nothing, lines_repeated};
ghost use Rattle.gt_findings.specs.Findings.{nothing_lines, repeat_lines};
ghost use Rattle.gt_policy_check.specs.Check.{repeat_line, repeated_with, useless_line};

use crate::allow_columns::statement_columns;
use crate::domains::{Judged, warn_matter, warn_type, worn_members};
use crate::earlier::{EarlierStatements, sources_of, triple_of};
use crate::useless::{UselessReason, is_useless, reason_of};
use gt_findings::{
    Finding, FindingKind, FindingNote, LineWords, Place, line_starts, line_words, message_of,
    push_note, push_of_statement,
};
use gt_policy::{LinedStatement, Statement};
use gt_policy_statements::{Member, members_of};
use gt_policy_words::warn_words;
use gt_text::{push_number, push_text};
use gt_types::Memory;
use std::alloc::{AllocError, Global};

/// A statement that is judged, with those before it: whether it allows something, and the index of the first of them
/// that allows all that it does.
#[derive(Clone, Copy)]
struct Stated<'s, 'a> {
    stated: &'s LinedStatement<'a>,
    before: &'s [LinedStatement<'a>],
    allows: bool,
    repeats: Option<usize>,
}

// Returns the message for a statement that allows nothing.
fn reason_text(reason: UselessReason) -> &'static str {
    match reason {
        UselessReason::NoPermission => {
            "this statement allows nothing: it lists no permission of class grant"
        }
        UselessReason::NoSource => "this statement allows nothing: its source set is empty",
        UselessReason::NoTarget => "this statement allows nothing: its target set is empty",
    }
}

#[tactic(auto, using(gt_findings::proofs::KeepLemmas::keeps_same, gt_findings::proofs::KeepLemmas::keeps_then))]
fn warn_nothing(
    alloc: Global,
    found: &mut Vec<Finding>,
    place: &Place,
    it: &Stated,
    members: &[Member],
) -> Result<(), AllocError>
    requires judged { IsStated members.now it.now }
    requires position { IsPlace place.now }
    requires on_line { place.now.words.now.number ≡ it.now.stated.now.line }
    ensures useless { OnOk result (AddsUseless found.old.items found.new.items
        (useless_line members.now it.now.stated.now) []) }
    ensures columns { OnOk result (KeepsColumns place.now.words.now.bytes.now found.old.items found.new.items) }
{
    if is_useless(&it.stated.statement, it.allows, members) {
        let said = reason_text(reason_of(&it.stated.statement, members));
        let message = message_of(alloc, said)?;
        return push_of_statement(found, FindingKind::AllowsNothing, place, message);
    }
    Ok(())
}

// Makes the message for a statement that repeats the one on this line.
fn repeat_message(alloc: Global, line: u32) -> Result<Vec<u8>, AllocError> {
    let mut message = message_of(alloc, "this statement allows only what the one on line ")?;
    push_number(&mut message, line)?;
    push_text(&mut message, " allows")?;
    Ok(message)
}

// Adds the note at the statement that is repeated, the one at this index.
fn push_repeat_note(
    alloc: Global,
    found: &mut Vec<Finding>,
    policy: &Judged,
    first: usize,
) -> Result<(), AllocError>
    requires columns { AreStatementColumns policy.now.bytes.now policy.now.statements.now policy.now.columns.now }
    requires within { first < length policy.now.statements.now }
    ensures quiet { OnOk result (Quiet found.old.items found.new.items) }
    ensures columns { OnOk result (KeepsColumns policy.now.bytes.now found.old.items found.new.items) }
{
    let line = policy.statements[first].line;
    let column = policy.columns[first];
    let message = message_of(alloc, "this statement allows it first")?;
    push_note(
        found,
        FindingNote {
            line,
            column,
            message,
        },
    )
}

// Adds the finding that a statement repeats the one on this line.
fn push_repeated(
    alloc: Global,
    found: &mut Vec<Finding>,
    place: &Place,
    first: u32,
) -> Result<(), AllocError>
    requires { IsPlace place.now }
    ensures useless { OnOk result (AddsUseless found.old.items found.new.items [] (place.now.words.now.number ∷ [])) }
    ensures columns { OnOk result (KeepsColumns place.now.words.now.bytes.now found.old.items found.new.items) }
{
    let message = repeat_message(alloc, first)?;
    push_of_statement(found, FindingKind::Repeats, place, message)
}

// Warns of a statement that repeats an earlier one.
#[tactic(auto, using(gt_findings::proofs::FindingLemmas::repeat_then_note, gt_findings::proofs::KeepLemmas::keeps_same, gt_findings::proofs::KeepLemmas::keeps_then))]
fn warn_repeat(
    alloc: Global,
    found: &mut Vec<Finding>,
    place: &Place,
    policy: &Judged,
    it: &Stated,
) -> Result<(), AllocError>
    requires text { place.now.words.now.bytes.now ≡ policy.now.bytes.now }
    requires statements { AreStatementColumns policy.now.bytes.now policy.now.statements.now policy.now.columns.now }
    requires before { length it.now.before.now ≤ length policy.now.statements.now }
    requires judged { IsStated policy.now.members.now it.now }
    requires position { IsPlace place.now }
    requires on_line { place.now.words.now.number ≡ it.now.stated.now.line }
    ensures useless { OnOk result (AddsUseless found.old.items found.new.items []
        (repeat_line policy.now.members.now it.now.before.now it.now.stated.now)) }
    ensures columns { OnOk result (KeepsColumns place.now.words.now.bytes.now found.old.items found.new.items) }
{
    match it.repeats {
        Some(first) => {
            push_repeated(alloc, found, place, it.before[first].line)?;
            push_repeat_note(alloc, found, policy, first)
        }
        None => Ok(()),
    }
}

// Warns of a statement that allows something, but nothing to the domains of the script.
#[tactic(auto, using(gt_findings::proofs::KeepLemmas::keeps_same))]
fn warn_if_no_matter(
    alloc: Global,
    found: &mut Vec<Finding>,
    place: &Place,
    policy: &Judged,
    it: &Stated,
) -> Result<(), AllocError>
    requires { IsPlace place.now }
    ensures quiet { OnOk result (Quiet found.old.items found.new.items) }
    ensures columns { OnOk result (KeepsColumns place.now.words.now.bytes.now found.old.items found.new.items) }
{
    if it.allows {
        warn_matter(alloc, found, place, policy, &it.stated.statement)
    } else {
        Ok(())
    }
}

// Warns of useless parts of a statement.
#[tactic(auto, using(gt_findings::proofs::KeepLemmas::keeps_same, gt_findings::proofs::KeepLemmas::keeps_then))]
fn warn_parts(
    alloc: Global,
    found: &mut Vec<Finding>,
    place: &Place,
    policy: &Judged,
    statement: &Statement,
) -> Result<(), AllocError>
    requires { IsPlace place.now }
    ensures quiet { OnOk result (Quiet found.old.items found.new.items) }
    ensures columns { OnOk result (KeepsColumns place.now.words.now.bytes.now found.old.items found.new.items) }
{
    match statement {
        Statement::Allow(allowed) => warn_words(alloc, found, place, allowed),
        Statement::DeclareType(name, _) => warn_type(alloc, found, place, policy, name),
        _ => Ok(()),
    }
}

// Warns of what is useless in a statement at this position.
#[tactic(auto, using(gt_findings::proofs::FindingLemmas::tells_all, gt_findings::proofs::KeepLemmas::keeps_then))]
fn warn_at(
    alloc: Global,
    found: &mut Vec<Finding>,
    place: &Place,
    policy: &Judged,
    it: &Stated,
) -> Result<(), AllocError>
    requires text { place.now.words.now.bytes.now ≡ policy.now.bytes.now }
    requires statements { AreStatementColumns policy.now.bytes.now policy.now.statements.now policy.now.columns.now }
    requires before { length it.now.before.now ≤ length policy.now.statements.now }
    requires judged { IsStated policy.now.members.now it.now }
    requires position { IsPlace place.now }
    requires on_line { place.now.words.now.number ≡ it.now.stated.now.line }
    ensures useless { OnOk result (AddsUseless found.old.items found.new.items
        (useless_line policy.now.members.now it.now.stated.now)
        (repeat_line policy.now.members.now it.now.before.now it.now.stated.now)) }
    ensures columns { OnOk result (KeepsColumns place.now.words.now.bytes.now found.old.items found.new.items) }
{
    warn_parts(alloc, found, place, policy, &it.stated.statement)?;
    warn_nothing(alloc, found, place, it, policy.members)?;
    warn_repeat(alloc, found, place, policy, it)?;
    warn_if_no_matter(alloc, found, place, policy, it)
}

// What is known of the statements before the next one: which may grant all that it does, and the words of the last line.
#[derive(Drop)]
struct Progress<'p> {
    earlier: EarlierStatements,
    words: LineWords<'p>,
}

// Warns of what is useless in the next statement, and adds it to the earlier ones.
fn warn_next<'p>(
    alloc: Global,
    found: &mut Vec<Finding>,
    policy: &Judged<'p, '_>,
    progress: &mut Progress<'p>,
    number: usize,
) -> Result<(), AllocError>
    requires policy { IsLinedPolicy policy.now }
    requires within { number < length policy.now.statements.now }
    requires lists { ListsEarlier policy.now.members.now (take number policy.now.statements.now) progress.old.earlier }
    requires words { IsLineWords progress.old.words }
    requires text { progress.old.words.bytes.now ≡ policy.now.bytes.now }
    ensures lists { OnOk result
        (ListsEarlier policy.now.members.now (take (number + 1) policy.now.statements.now) progress.new.earlier) }
    ensures words { OnOk result (IsLineWords progress.new.words) }
    ensures text { OnOk result (progress.new.words.bytes.now ≡ policy.now.bytes.now) }
    ensures useless { (x : LinedStatement) → slice_get policy.now.statements.now number ≡ Some x
        → OnOk result (AddsUseless found.old.items found.new.items
        (useless_line policy.now.members.now x)
        (repeat_line policy.now.members.now (take number policy.now.statements.now) x)) }
    ensures columns { OnOk result (KeepsColumns policy.now.bytes.now found.old.items found.new.items) }
{
    let stated = &policy.statements[number];
    let before = &policy.statements[..number];
    let members = policy.members;
    let sources = sources_of(alloc, &stated.statement, members)?;
    let triple = triple_of(&stated.statement, sources.as_slice(), members);
    let it = Stated {
        stated,
        before,
        allows: triple.is_some(),
        repeats: progress
            .earlier
            .repeated(&stated.statement, triple, before, members),
    };
    progress.words.go_to(alloc, policy.lines, stated.line)?;
    let place = Place {
        words: &progress.words,
        column: policy.columns[number],
    };
    warn_at(alloc, found, &place, policy, &it)?;
    progress.earlier.add(number, sources.as_slice())
}

// Warns of what is useless in the statements of a policy.
#[tactic(auto, using(gt_findings::proofs::KeepLemmas::keeps_same, gt_findings::proofs::KeepLemmas::keeps_then))]
fn warn_all(alloc: Global, policy: &Judged) -> Result<Vec<Finding>, Memory>
    requires { IsLinedPolicy policy.now }
    ensures no_error { IfOk result (λ v. error_lines v.items ≡ []) }
    ensures nothing { IfOk result (λ v. nothing_lines v.items
        ≡ flat_map (λ x. useless_line policy.now.members.now x) policy.now.statements.now) }
    ensures repeated { IfOk result (λ v. repeat_lines v.items
        ≡ repeated_with policy.now.members.now [] policy.now.statements.now) }
    ensures columns { IfOk result (λ v. All (HasColumn policy.now.bytes.now) v.items) }
{
    let mut found = Vec::new(alloc);
    let mut progress = Progress {
        earlier: EarlierStatements::new(alloc, policy.members)?,
        words: line_words(alloc, policy.bytes, policy.lines, 0)?,
    };
    'statements: for i in 0..policy.statements.len() {
        warn_next(alloc, &mut found, policy, &mut progress, i)?;
    }
    Ok(found)
}

// Adds the finding that a policy has no statement.
#[tactic(auto, using(gt_findings::proofs::FindingLemmas::quiet_push, gt_findings::proofs::KeepLemmas::keeps_first))]
fn push_no_statement(
    alloc: Global,
    found: &mut Vec<Finding>,
    is_empty: bool,
) -> Result<(), AllocError>
    ensures quiet { OnOk result (Quiet found.old.items found.new.items) }
    ensures columns { (text : List ℕ) → OnOk result (KeepsColumns text found.old.items found.new.items) }
{
    let message = if is_empty {
        message_of(alloc, "the text is empty: it allows nothing")?
    } else {
        message_of(alloc, "the text has no statement: it allows nothing")?
    };
    found.push(Finding {
        kind: FindingKind::NoStatement,
        line: 1,
        column: 1,
        message,
    })?;
    Ok(())
}

// Warns of a policy that has no statement, unless it is that of a script.
#[tactic(auto, using(gt_findings::proofs::KeepLemmas::keeps_same))]
fn warn_empty(alloc: Global, found: &mut Vec<Finding>, policy: &Judged) -> Result<(), AllocError>
    ensures quiet { OnOk result (Quiet found.old.items found.new.items) }
    ensures columns { OnOk result (KeepsColumns policy.now.bytes.now found.old.items found.new.items) }
{
    if policy.of_script || !policy.statements.is_empty() {
        return Ok(());
    }
    push_no_statement(alloc, found, policy.bytes.is_empty())
}

/// Warns of what is useless in statements. `worn` has the names of the types of a script's domains.
pub(crate) fn warnings(
    alloc: Global,
    bytes: &[u8],
    statements: &[LinedStatement],
    worn: Option<&[&str]>,
) -> Result<Vec<Finding>, Memory>
    ensures no_error { IfOk result (λ v. error_lines v.items ≡ []) }
    ensures nothing { IfOk result (λ v. nothing_lines v.items
        ≡ map (λ x. x.line) (filter (λ x. allows_nothing statements.now x.statement) statements.now)) }
    ensures repeated { IfOk result (λ v. repeat_lines v.items ≡ lines_repeated statements.now [] statements.now) }
    ensures columns { IfOk result (λ v. All (HasColumn bytes.now) v.items) }
{
    let members = members_of(alloc, statements, None)?;
    let lines = line_starts(alloc, bytes)?;
    let columns = statement_columns(alloc, bytes, &lines, statements)?;
    let of_script = worn.is_some();
    let worn = worn_members(alloc, statements, worn)?;
    let policy = Judged {
        bytes,
        lines: &lines,
        statements,
        columns: columns.as_slice(),
        members: members.as_slice(),
        of_script,
        worn: worn.as_slice(),
    };
    let mut found = warn_all(alloc, &policy)?;
    warn_empty(alloc, &mut found, &policy)?;
    Ok(found)
}
