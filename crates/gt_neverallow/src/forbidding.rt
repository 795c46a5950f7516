//! What a `neverallow` or `neverflow` statement forbids.
ghost use Rattle.std.specs.Prelude.{◌≡◌};
ghost use Rattle.std.specs.List.{list_any};
ghost use Rattle.gt_types.specs.Names.{every_permission, permission_name};
ghost use Rattle.gt_policy.specs.Granting.{lists_word};
ghost use Rattle.gt_neverallow.specs.Breaking.{chooses_self, chosen_by, denies, first_line, forbids_some};
ghost use Rattle.gt_neverallow.specs.Breaking.{forbids_source, forbids_target};

use crate::statement::{Forbidden, NeverStatement, TypeChoice};
use gt_policy::Permissions;
use gt_policy_statements::{Member, has_grant, has_self, holds, is_same, lists};
use gt_types::Perms;

/// Returns whether a choice of types has the type.
pub fn is_chosen(choice: &TypeChoice, member: &Member) -> bool
    ensures { result ≡ chosen_by choice.now member.now.names }
{
    match choice {
        TypeChoice::Every => true,
        TypeChoice::Of(items) => holds(member.names.as_slice(), items.as_slice()),
        TypeChoice::But(items) => !holds(member.names.as_slice(), items.as_slice()),
    }
}

// Returns whether a choice of types contains `self`.
fn chooses_self(choice: &TypeChoice) -> bool
    ensures { result ≡ chooses_self choice.now }
{
    match choice {
        TypeChoice::Every => false,
        TypeChoice::Of(items) => has_self(items.as_slice()),
        TypeChoice::But(_) => false,
    }
}

// Returns whether a permission of class `grant` is forbidden.
fn denies(what: &Forbidden, perm: &str) -> bool
    ensures { result ≡ denies what.now perm.now }
{
    match what {
        Forbidden::Grants { classes, perms } => {
            has_grant(classes.as_slice()) && lists(perms, perm)
        }
        Forbidden::Flow => false,
    }
}

// Returns whether the permission is forbidden to the source, on whatever target.
pub(crate) fn forbids_source(never: &NeverStatement, source: &Member, perm: &str) -> bool
    ensures { result ≡ forbids_source perm.now source.now never.now }
{
    denies(&never.what, perm) && is_chosen(&never.source, source)
}

// Returns whether the target is one of those on which the source is forbidden something.
pub(crate) fn forbids_target(never: &NeverStatement, source: &Member, target: &Member) -> bool
    ensures { result ≡ forbids_target source.now target.now never.now }
{
    is_chosen(&never.target, target)
        || (chooses_self(&never.target) && is_same(&source.name, &target.name))
}

// Returns whether permissions of class `grant` are listed.
fn lists_some(perms: &Permissions) -> bool
    ensures { result ≡ list_any (λ p. lists_word perms.now (permission_name p)) every_permission }
{
    'perms: for perm in Perms::EVERY {
        if lists(perms, perm.name()) {
            return true;
        }
    }
    false
}

// Returns whether a statement forbids permissions of class `grant`, or flows.
fn forbids_some(never: &NeverStatement) -> bool
    ensures { result ≡ forbids_some never.now }
{
    match &never.what {
        Forbidden::Grants { classes, perms } => has_grant(classes.as_slice()) && lists_some(perms),
        Forbidden::Flow => true,
    }
}

/// Returns whether some statement forbids permissions of class `grant`, or flows.
pub(crate) fn some_forbids(nevers: &[NeverStatement]) -> bool
    ensures { result ≡ list_any forbids_some nevers.now }
{
    'nevers: for never in nevers {
        if forbids_some(never) {
            return true;
        }
    }
    false
}

/// Returns the line of the first statement; 1 if there is none.
pub(crate) fn first_line(nevers: &[NeverStatement]) -> u32
    ensures { result ≡ first_line nevers.now }
{
    match nevers {
        [] => 1,
        [first, ..] => first.line,
    }
}
