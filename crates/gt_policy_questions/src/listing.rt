//! Pairs of types, and the lines that tell whether each is allowed.
ghost use Rattle.std.specs.Prelude.{◌≡◌, ◌++◌, OnOk, IfOk, filter};
ghost use Rattle.std.specs.List.{flat_map};
ghost use Rattle.gt_policy_questions.specs.Listing.{is_pair_allowed, pair_line, pairs_between, pairs_of, pair_type_name};

use gt_policy_statements::Member;
use gt_text::push_text;
use gt_types::{Allows, Perms, TypeId};
use std::alloc::{AllocError, Global};

/// A source and a target.
#[derive(Clone, Copy)]
pub(crate) struct TypePair {
    pub source: TypeId,
    pub target: TypeId,
}

// Appends the pairs of a source with these targets.
fn push_pairs(
    pairs: &mut Vec<TypePair>,
    source: TypeId,
    targets: &[TypeId],
) -> Result<(), AllocError>
    ensures { OnOk result (pairs.new.items ≡ pairs.old.items ++ pairs_of source targets.now) }
{
    'targets: for target in targets {
        pairs.push(TypePair {
            source,
            target: *target,
        })?;
    }
    Ok(())
}

/// Returns the pairs of these sources with these targets, source by source.
pub(crate) fn pairs_between(
    alloc: Global,
    sources: &[TypeId],
    targets: &[TypeId],
) -> Result<Vec<TypePair>, AllocError>
    ensures { IfOk result (λ pairs. pairs.items ≡ pairs_between sources.now targets.now) }
{
    let mut pairs = Vec::new(alloc);
    'sources: for source in sources {
        push_pairs(&mut pairs, *source, targets)?;
    }
    Ok(pairs)
}

// Returns whether the policy allows the permission, or some permission if it is None.
fn is_pair_allowed<P: Allows>(policy: &P, perm: Option<Perms>, pair: TypePair) -> bool
    ensures { result ≡ is_pair_allowed (P.may policy.now) perm pair }
{
    if let Some(perm) = perm {
        return policy.allows(pair.source, pair.target, perm);
    }
    'perms: for perm in Perms::EVERY {
        if policy.allows(pair.source, pair.target, perm) {
            return true;
        }
    }
    false
}

/// Returns those of the pairs that the policy allows.
pub(crate) fn allowed_pairs<P: Allows>(
    alloc: Global,
    policy: &P,
    perm: Option<Perms>,
    pairs: &[TypePair],
) -> Result<Vec<TypePair>, AllocError>
    ensures { IfOk result (λ allowed. allowed.items ≡ filter (is_pair_allowed (P.may policy.now) perm) pairs.now) }
{
    let mut allowed = Vec::new(alloc);
    'pairs: for pair in pairs {
        if is_pair_allowed(policy, perm, *pair) {
            allowed.push(*pair)?;
        }
    }
    Ok(allowed)
}

/// Returns the name of a type, by its number; nothing if there is no such type.
pub fn pair_type_name<'t>(members: &'t [Member<'_>], id: TypeId) -> &'t str
    ensures { result.now ≡ pair_type_name members.entry.now id }
{
    match members.get(id.0 as usize) {
        Some(member) => member.name.as_str(),
        None => "",
    }
}

// Appends the line of a pair.
fn push_line<P: Allows>(
    out: &mut Vec<u8>,
    policy: &P,
    members: &[Member],
    perm: Option<Perms>,
    pair: TypePair,
) -> Result<(), AllocError>
    ensures { OnOk result (out.new.items
        ≡ out.old.items ++ pair_line (P.may policy.now) members.now perm pair) }
{
    push_text(out, pair_type_name(members, pair.source))?;
    push_text(out, " ")?;
    push_text(out, pair_type_name(members, pair.target))?;
    if is_pair_allowed(policy, perm, pair) {
        push_text(out, " allowed\n")
    } else {
        push_text(out, " denied\n")
    }
}

/// Appends the lines of the pairs.
pub(crate) fn push_lines<P: Allows>(
    out: &mut Vec<u8>,
    policy: &P,
    members: &[Member],
    perm: Option<Perms>,
    pairs: &[TypePair],
) -> Result<(), AllocError>
    ensures { OnOk result (out.new.items
        ≡ out.old.items ++ flat_map (pair_line (P.may policy.now) members.now perm) pairs.now) }
{
    'pairs: for pair in pairs {
        push_line(out, policy, members, perm, *pair)?;
    }
    Ok(())
}
