//! The example of a breach: what an allow statement grants though a `neverallow` statement forbids it.
ghost use Rattle.std.specs.Prelude.{◌≡◌, ◌++◌, ◌&&◌, true, is_some, take, Contains, IfOk, IfSome, OnOk};
ghost use Rattle.std.specs.List.{list_any};
ghost use Rattle.gt_policy_statements.specs.Granting.{reaches_by};
ghost use Rattle.gt_neverallow.specs.Breaking.{breaks_by, breaks_on, breaks_some, breaks_with, example_text};
ghost use Rattle.gt_neverallow.specs.Breaking.{forbids_target, short_name, shows_by, shows_some, shows_with};
ghost use Rattle.gt_neverallow.specs.Breaking.{IsBrokenOn};

use crate::forbidding::{forbids_source, forbids_target};
use crate::statement::NeverStatement;
use gt_policy::{Allowance, Statement};
use gt_policy_statements::{Member, gives_source, reaches};
use gt_text::push_text;
use gt_types::Perms;
use std::alloc::{AllocError, Global};

// Returns the first target that an allow statement reaches, and that is forbidden to the source.
fn target_on<'m, 'a>(
    never: &NeverStatement,
    allowed: &Allowance,
    source: &Member,
    targets: &'m [Member<'a>],
) -> Option<&'m Member<'a>>
    ensures is { is_some result ≡ breaks_on targets.entry.now never.now allowed.now source.now }
    ensures target { IfSome result (λ t. Contains targets.entry.now t.now
        × ((reaches_by source.now t.now allowed.now && forbids_target source.now t.now never.now) ≡ true)) }
{
    'targets: for target in targets {
        if reaches(allowed, source, target) && forbids_target(never, source, target) {
            return Some(target);
        }
    }
    None
}

// Returns the first target on which an allow statement grants the source the permission though it is forbidden.
fn target_of<'m, 'a>(
    never: &NeverStatement,
    allowed: &Allowance,
    source: &Member,
    members: &'m [Member<'a>],
    perm: &str,
) -> Option<&'m Member<'a>>
    ensures is { is_some result ≡ breaks_by perm.now members.entry.now never.now allowed.now source.now }
    ensures target { IfSome result (λ t. IsBrokenOn perm.now members.entry.now never.now allowed.now source.now t.now) }
{
    if gives_source(allowed, source, perm) && forbids_source(never, source, perm) {
        target_on(never, allowed, source, members)
    } else {
        None
    }
}

// The most bytes of a name that are shown.
const LONGEST_NAME: usize = 160;

// Returns the first of these bytes, at most 160.
fn first_bytes<'n>(bytes: &'n [u8]) -> &'n [u8]
    ensures { result.now ≡ take 160 bytes.entry.now }
{
    if bytes.len() < LONGEST_NAME {
        bytes
    } else {
        &bytes[..LONGEST_NAME]
    }
}

/// Appends a name as it is shown in a message; of a long one the first 160 bytes, and `...`.
pub fn push_short_name(out: &mut Vec<u8>, name: &str) -> Result<(), AllocError>
    ensures { OnOk result (out.new.items ≡ out.old.items ++ short_name name.now) }
{
    out.extend_from_slice(first_bytes(name.as_bytes()))?;
    push_text(out, if name.len() > LONGEST_NAME { "..." } else { "" })
}

// Returns the names of a source, a permission and a target, separated by blanks.
fn example_text(
    alloc: Global,
    source: &Member,
    perm: &str,
    target: &Member,
) -> Result<Vec<u8>, AllocError>
    ensures { IfOk result (λ text. text.items ≡ example_text source.now.name perm.now target.now.name) }
{
    let mut out = Vec::new(alloc);
    push_short_name(&mut out, source.name.as_str())?;
    push_text(&mut out, " ")?;
    push_text(&mut out, perm)?;
    push_text(&mut out, " ")?;
    push_short_name(&mut out, target.name.as_str())?;
    Ok(out)
}

// Returns an example for the source and the permission.
fn example_by(
    alloc: Global,
    never: &NeverStatement,
    allowed: &Allowance,
    source: &Member,
    members: &[Member],
    perm: &str,
) -> Result<Option<Vec<u8>>, AllocError>
    ensures is { IfOk result (λ e. is_some e ≡ breaks_by perm.now members.now never.now allowed.now source.now) }
    ensures shows { IfOk result (λ e. IfSome e (λ text.
        shows_by text.items perm.now members.now never.now allowed.now source.now ≡ true)) }
{
    match target_of(never, allowed, source, members, perm) {
        Some(target) => Ok(Some(example_text(alloc, source, perm, target)?)),
        None => Ok(None),
    }
}

// Returns an example for the permission, of the first source that has one.
fn example_for(
    alloc: Global,
    never: &NeverStatement,
    allowed: &Allowance,
    members: &[Member],
    perm: &str,
) -> Result<Option<Vec<u8>>, AllocError>
    ensures is { IfOk result (λ e. is_some e
        ≡ list_any (λ s. breaks_by perm.now members.now never.now allowed.now s) members.now) }
    ensures shows { IfOk result (λ e. IfSome e (λ text.
        list_any (λ s. shows_by text.items perm.now members.now never.now allowed.now s) members.now ≡ true)) }
{
    'members: for source in members {
        let found = example_by(alloc, never, allowed, source, members, perm)?;
        if found.is_some() {
            return Ok(found);
        }
    }
    Ok(None)
}

// Returns an example of a statement for the permission.
fn example_of(
    alloc: Global,
    never: &NeverStatement,
    statement: &Statement,
    members: &[Member],
    perm: &str,
) -> Result<Option<Vec<u8>>, AllocError>
    ensures is { IfOk result (λ e. is_some e ≡ breaks_some perm.now members.now never.now statement.now) }
    ensures shows { IfOk result (λ e. IfSome e (λ text.
        shows_some text.items perm.now members.now never.now statement.now ≡ true)) }
{
    match statement {
        Statement::Allow(allowed) => example_for(alloc, never, allowed, members, perm),
        _ => Ok(None),
    }
}

/// Returns an example of what a statement grants one of these types on one of them though it is forbidden: the names of
/// the source, the permission and the target. If there is no example, the statement does not break the `neverallow`
/// statement.
pub(crate) fn breach_example(
    alloc: Global,
    never: &NeverStatement,
    statement: &Statement,
    members: &[Member],
) -> Result<Option<Vec<u8>>, AllocError>
    ensures is { IfOk result (λ e. is_some e ≡ breaks_with members.now never.now statement.now) }
    ensures shows { IfOk result (λ e. IfSome e (λ text.
        shows_with text.items members.now never.now statement.now ≡ true)) }
{
    'perms: for perm in Perms::EVERY {
        let found = example_of(alloc, never, statement, members, perm.name())?;
        if found.is_some() {
            return Ok(found);
        }
    }
    Ok(None)
}
