//! Warnings about types that no statement names, and about types and statements that no domain of a script uses.
ghost use Rattle.std.specs.Prelude.{OnOk};
ghost use Rattle.gt_findings.specs.Findings.{KeepsColumns, Quiet};
ghost use Rattle.gt_findings.specs.Placing.{IsPlace};

use crate::useless::allows_something;
use gt_findings::{
    Finding, FindingKind, LineStarts, Place, message_of, push_of_statement, push_of_word, said_of,
};
use gt_policy::{LinedStatement, Statement, TextPiece};
use gt_policy_statements::{Member, gives_of, is_same, names_type, push_members};
use std::alloc::{AllocError, Global};

/// A policy that is checked: its text with where the lines begin, its statements with their columns, its types, and if it
/// is that of a script, those types that a domain has.
#[derive(Clone, Copy)]
pub(crate) struct Judged<'p, 'a> {
    pub bytes: &'p [u8],
    pub lines: &'p LineStarts,
    pub statements: &'p [LinedStatement<'a>],
    pub columns: &'p [u32],
    pub members: &'p [Member<'a>],
    pub of_script: bool,
    pub worn: &'p [Member<'a>],
}

/// Returns the types of a script's domains, by these names; none if no names are given.
pub(crate) fn worn_members<'a>(
    alloc: Global,
    statements: &[LinedStatement<'a>],
    worn: Option<&[&str]>,
) -> Result<Vec<Member<'a>>, AllocError> {
    let mut members = Vec::new(alloc);
    let Some(names) = worn else {
        return Ok(members);
    };
    for name in names {
        push_members(alloc, &mut members, statements, Some(*name))?;
    }
    Ok(members)
}

// Finds the type with this name.
fn member_named<'m, 'a>(members: &'m [Member<'a>], name: &TextPiece) -> Option<&'m Member<'a>> {
    for member in members {
        if is_same(&member.name, name) {
            return Some(member);
        }
    }
    None
}

// Returns whether some allow statement has the type in a set.
fn names_member(statements: &[LinedStatement], member: &Member) -> bool {
    for stated in statements {
        if names_type(&stated.statement, member) {
            return true;
        }
    }
    false
}

// Returns whether some allow statement has the type with this name in a set. Returns true if the name is not that of a
// type.
fn is_named(policy: &Judged, name: &TextPiece) -> bool {
    match member_named(policy.members, name) {
        Some(member) => names_member(policy.statements, member),
        None => true,
    }
}

// Returns whether a domain of the script has the type, or the policy is not that of a script.
fn is_worn(policy: &Judged, name: &TextPiece) -> bool {
    !policy.of_script || member_named(policy.worn, name).is_some()
}

// Returns what is wrong with a type that no allow statement names. The caller of a copy is not asked, so it may copy
// between others.
fn unnamed_text(policy: &Judged) -> &'static str {
    for stated in policy.statements {
        if gives_of(
            &stated.statement,
            policy.members,
            policy.members,
            Some("copy"),
        ) {
            return " is not named by any allow statement, yet its domains may copy between other types";
        }
    }
    " is not named by any allow statement"
}

/// Warns of a type that no allow statement names, or that no domain has.
#[tactic(auto, using(gt_findings::proofs::KeepLemmas::keeps_same, gt_findings::proofs::KeepLemmas::keeps_then))]
pub(crate) fn warn_type(
    alloc: Global,
    found: &mut Vec<Finding>,
    place: &Place,
    policy: &Judged,
    name: &TextPiece,
) -> Result<(), AllocError>
    requires { IsPlace place.now }
    ensures quiet { OnOk result (Quiet found.old.items found.new.items) }
    ensures columns { OnOk result (KeepsColumns place.now.words.now.bytes.now found.old.items found.new.items) }
{
    let word = name.as_str();
    if !is_named(policy, name) {
        let message = said_of(alloc, word, unnamed_text(policy))?;
        return push_of_word(found, FindingKind::NeverNamed, place, word, message);
    }
    if !is_worn(policy, name) {
        let message = said_of(alloc, word, " is not the type of any domain in this script")?;
        return push_of_word(found, FindingKind::NoDomain, place, word, message);
    }
    Ok(())
}

// Returns whether a statement that allows something allows nothing to the types that a domain of the script has.
fn never_matters(statement: &Statement, policy: &Judged) -> bool {
    policy.of_script && !allows_something(statement, policy.worn)
}

/// Warns of a statement that allows something, but nothing to the domains of the script.
#[tactic(auto, using(gt_findings::proofs::FindingLemmas::adds_quietly, gt_findings::proofs::KeepLemmas::keeps_same))]
pub(crate) fn warn_matter(
    alloc: Global,
    found: &mut Vec<Finding>,
    place: &Place,
    policy: &Judged,
    statement: &Statement,
) -> Result<(), AllocError>
    requires { IsPlace place.now }
    ensures quiet { OnOk result (Quiet found.old.items found.new.items) }
    ensures columns { OnOk result (KeepsColumns place.now.words.now.bytes.now found.old.items found.new.items) }
{
    if !never_matters(statement, policy) {
        return Ok(());
    }
    let said = "this statement allows nothing to the domains in this script";
    let message = message_of(alloc, said)?;
    push_of_statement(found, FindingKind::NeverMatters, place, message)
}
