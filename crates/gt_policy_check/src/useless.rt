//! Statements that allow nothing, or only what an earlier one allows.
ghost use Rattle.std.specs.Prelude.{◌≡◌};
ghost use Rattle.gt_policy_check.specs.Check.{exceeds_with, grants_with, is_useless_with, no_more_with};
ghost use Rattle.gt_policy_check.specs.Useless.{holds_some, lists_some, IsReason, IsUselessFor};

use gt_policy::{Allowance, SetElement, Statement};
use gt_policy_statements::{Member, exceeds_some, gives_any_permission, has_grant, holds, lists};
use gt_types::Perms;

/// Returns whether a statement allows some of these types something on some of them.
pub(crate) fn allows_something(statement: &Statement, members: &[Member]) -> bool
    ensures { result ≡ grants_with members.now statement.now }
{
    gives_any_permission(statement, members, members)
}

/// Returns whether a statement of class `grant` allows nothing. `allows` is whether it allows something.
pub(crate) fn is_useless(statement: &Statement, allows: bool, members: &[Member]) -> bool
    requires { allows ≡ grants_with members.now statement.now }
    ensures { result ≡ is_useless_with members.now statement.now }
{
    match statement {
        Statement::Allow(allowed) => has_grant(allowed.classes.as_slice()) && !allows,
        _ => false,
    }
}

/// The reason that an allow statement of class `grant` allows nothing.
#[derive(Clone, Copy)]
pub(crate) enum UselessReason {
    /// It lists no permission of class `grant`.
    NoPermission,
    /// Its source set holds no type.
    NoSource,
    /// It lists a permission and has a source, so its target set holds no type.
    NoTarget,
}

fn lists_some(allowed: &Allowance) -> bool
    ensures { result ≡ lists_some allowed.now }
{
    'perms: for perm in Perms::EVERY {
        if lists(&allowed.perms, perm.name()) {
            return true;
        }
    }
    false
}

// Returns whether a set holds some of these types.
fn holds_some(members: &[Member], items: &[SetElement]) -> bool
    ensures { result ≡ holds_some members.now items.now }
{
    'members: for member in members {
        if holds(member.names.as_slice(), items) {
            return true;
        }
    }
    false
}

// Returns why an allow statement allows nothing.
fn reason_of_allowance(allowed: &Allowance, members: &[Member]) -> UselessReason
    ensures { IsUselessFor members.now allowed.now result }
{
    if !lists_some(allowed) {
        UselessReason::NoPermission
    } else if !holds_some(members, allowed.source.as_slice()) {
        UselessReason::NoSource
    } else {
        UselessReason::NoTarget
    }
}

/// Returns why a statement of class `grant` allows nothing.
pub(crate) fn reason_of(statement: &Statement, members: &[Member]) -> UselessReason
    ensures { IsReason members.now statement.now result }
{
    match statement {
        Statement::Allow(allowed) => reason_of_allowance(allowed, members),
        _ => UselessReason::NoPermission,
    }
}

// Returns whether a statement grants something that another does not.
fn exceeds(statement: &Statement, other: &Statement, members: &[Member]) -> bool
    ensures { result ≡ exceeds_with members.now statement.now other.now }
{
    'perms: for perm in Perms::EVERY {
        if exceeds_some(statement, other, members, perm.name()) {
            return true;
        }
    }
    false
}

/// Returns whether a statement grants nothing that another does not.
pub(crate) fn grants_no_more(statement: &Statement, other: &Statement, members: &[Member]) -> bool
    ensures { result ≡ no_more_with members.now statement.now other.now }
{
    !exceeds(statement, other, members)
}
