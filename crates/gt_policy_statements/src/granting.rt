//! What a statement grants to which types.
ghost use Rattle.std.specs.Prelude.{◌≡◌, ◌&&◌, None};
ghost use Rattle.std.specs.List.{list_any};
ghost use Rattle.std.specs.Option.{option_map};
ghost use Rattle.std.specs.Str.{bytes_eq};
ghost use Rattle.gt_policy.specs.Granting.{lists_word, is_self};
ghost use Rattle.gt_policy.specs.Resolving.{has_grant};
ghost use Rattle.gt_policy_statements.specs.Granting.{puts_in, takes_out, elements_hold, reaches_by, gives_source, gives_by};
ghost use Rattle.gt_policy_statements.specs.Granting.{gives_of, gives_some, near_of};
ghost use Rattle.gt_policy_statements.specs.Granting.{is_near_miss, exceeds_on, exceeds_some, gives_one, near_some};

use crate::members::{Member, is_same};
use gt_policy::{Allowance, Permissions, SetElement, Statement, TextPiece};
use gt_types::Perms;

/// Returns whether the word is among these.
pub fn has_word(words: &[TextPiece], word: &[u8]) -> bool
    ensures { result ≡ list_any (λ v. bytes_eq v word.now) words.now }
{
    'words: for listed in words {
        if listed.as_bytes() == word {
            return true;
        }
    }
    false
}

/// Returns whether class `grant` is among the classes.
pub fn has_grant(classes: &[TextPiece]) -> bool
    ensures { result ≡ has_grant classes.now }
{
    has_word(classes, "grant".as_bytes())
}

/// Returns whether the word is among the permissions. `*` has every word.
pub fn lists(perms: &Permissions, word: &str) -> bool
    ensures { result ≡ lists_word perms.now word.now }
{
    match perms {
        Permissions::Every => true,
        Permissions::Named(words) => has_word(words.as_slice(), word.as_bytes()),
    }
}

/// Returns whether an item puts a type with these names into its set.
pub(crate) fn puts_in(names: &[TextPiece], item: &SetElement) -> bool
    ensures { result ≡ puts_in names.now item.now }
{
    match item {
        SetElement::With(mention) => has_word(names, mention.name.as_bytes()),
        SetElement::Without(_) => false,
        SetElement::Itself => false,
    }
}

// Returns whether an item takes a type with these names out of its set.
fn takes_out(names: &[TextPiece], item: &SetElement) -> bool
    ensures { result ≡ takes_out names.now item.now }
{
    match item {
        SetElement::With(_) => false,
        SetElement::Without(mention) => has_word(names, mention.name.as_bytes()),
        SetElement::Itself => false,
    }
}

fn some_puts_in(names: &[TextPiece], items: &[SetElement]) -> bool
    ensures { result ≡ list_any (λ i. puts_in names.now i) items.now }
{
    'items: for item in items {
        if puts_in(names, item) {
            return true;
        }
    }
    false
}

fn some_takes_out(names: &[TextPiece], items: &[SetElement]) -> bool
    ensures { result ≡ list_any (λ i. takes_out names.now i) items.now }
{
    'items: for item in items {
        if takes_out(names, item) {
            return true;
        }
    }
    false
}

/// Returns whether a set holds a type with these names.
pub fn holds(names: &[TextPiece], items: &[SetElement]) -> bool
    ensures { result ≡ elements_hold names.now items.now }
{
    some_puts_in(names, items) && !some_takes_out(names, items)
}

fn is_self(item: &SetElement) -> bool
    ensures { result ≡ is_self item.now }
{
    matches!(item, SetElement::Itself)
}

/// Returns whether a set contains `self`.
pub fn has_self(items: &[SetElement]) -> bool
    ensures { result ≡ list_any is_self items.now }
{
    'items: for item in items {
        if is_self(item) {
            return true;
        }
    }
    false
}

/// Returns whether the target set holds the target, or contains `self` and the two types are one.
pub fn reaches(allowed: &Allowance, source: &Member, target: &Member) -> bool
    ensures { result ≡ reaches_by source.now target.now allowed.now }
{
    holds(target.names.as_slice(), allowed.target.as_slice())
        || (has_self(allowed.target.as_slice()) && is_same(&source.name, &target.name))
}

fn reaches_some(allowed: &Allowance, source: &Member, targets: &[Member]) -> bool
    ensures { result ≡ list_any (λ t. reaches_by source.now t allowed.now) targets.now }
{
    'targets: for target in targets {
        if reaches(allowed, source, target) {
            return true;
        }
    }
    false
}

/// Returns whether the statement grants the permission to the source, on whatever target.
pub fn gives_source(allowed: &Allowance, source: &Member, perm: &str) -> bool
    ensures { result ≡ gives_source perm.now source.now allowed.now }
{
    has_grant(allowed.classes.as_slice())
        && lists(&allowed.perms, perm)
        && holds(source.names.as_slice(), allowed.source.as_slice())
}

// Returns whether the statement grants the permission to the source on some of the targets.
fn gives(allowed: &Allowance, source: &Member, targets: &[Member], perm: &str) -> bool
    ensures { result ≡ gives_by perm.now targets.now source.now allowed.now }
{
    gives_source(allowed, source, perm) && reaches_some(allowed, source, targets)
}

// Returns whether the statement grants the permission to some of the sources on some of the targets.
fn gives_any(allowed: &Allowance, sources: &[Member], targets: &[Member], perm: &str) -> bool
    ensures { result ≡ list_any (λ s. gives_by perm.now targets.now s allowed.now) sources.now }
{
    'sources: for source in sources {
        if gives(allowed, source, targets, perm) {
            return true;
        }
    }
    false
}

// Returns whether a statement grants the permission to some of the sources on some of the targets.
fn gives_some(statement: &Statement, sources: &[Member], targets: &[Member], perm: &str) -> bool
    ensures { result ≡ gives_some perm.now sources.now targets.now statement.now }
{
    match statement {
        Statement::Allow(allowed) => gives_any(allowed, sources, targets, perm),
        _ => false,
    }
}

/// Returns whether a statement grants some permission to some of the sources on some of the targets.
pub fn gives_any_permission<'a>(
    statement: &Statement,
    sources: &[Member<'a>],
    targets: &[Member<'a>],
) -> bool
    ensures { result ≡ gives_of None sources.now targets.now statement.now }
{
    'perms: for perm in Perms::EVERY {
        if gives_some(statement, sources, targets, perm.name()) {
            return true;
        }
    }
    false
}

/// Returns whether a statement grants the permission, or any permission if it is `None`, to some of the sources on some
/// of the targets.
pub fn gives_of(
    statement: &Statement,
    sources: &[Member],
    targets: &[Member],
    perm: Option<&str>,
) -> bool
    ensures { result ≡ gives_of (option_map (λ p. p.now) perm.entry) sources.now targets.now statement.now }
{
    match perm {
        Some(word) => gives_some(statement, sources, targets, word),
        None => gives_any_permission(statement, sources, targets),
    }
}

// Returns whether a statement is a near miss for the source: it reaches some of the targets, and lists the permission
// or holds the source.
fn is_near_miss(allowed: &Allowance, source: &Member, targets: &[Member], perm: &str) -> bool
    ensures { result ≡ is_near_miss perm.now targets.now source.now allowed.now }
{
    has_grant(allowed.classes.as_slice())
        && (lists(&allowed.perms, perm)
            || holds(source.names.as_slice(), allowed.source.as_slice()))
        && reaches_some(allowed, source, targets)
}

fn near_any(allowed: &Allowance, sources: &[Member], targets: &[Member], perm: &str) -> bool
    ensures { result ≡ list_any (λ s. is_near_miss perm.now targets.now s allowed.now) sources.now }
{
    'sources: for source in sources {
        if is_near_miss(allowed, source, targets, perm) {
            return true;
        }
    }
    false
}

// Returns whether a statement is a near miss: it has a target, and the permission or a source.
fn near_some(statement: &Statement, sources: &[Member], targets: &[Member], perm: &str) -> bool
    ensures { result ≡ near_some perm.now sources.now targets.now statement.now }
{
    match statement {
        Statement::Allow(allowed) => near_any(allowed, sources, targets, perm),
        _ => false,
    }
}

// Returns whether a statement is a near miss for some permission.
fn near_any_permission(statement: &Statement, sources: &[Member], targets: &[Member]) -> bool
    ensures { result ≡ near_of None sources.now targets.now statement.now }
{
    'perms: for perm in Perms::EVERY {
        if near_some(statement, sources, targets, perm.name()) {
            return true;
        }
    }
    false
}

/// Returns whether a statement is a near miss for the permission, or for any permission if it is `None`.
pub(crate) fn near_of(
    statement: &Statement,
    sources: &[Member],
    targets: &[Member],
    perm: Option<&str>,
) -> bool
    ensures { result ≡ near_of (option_map (λ p. p.now) perm.entry) sources.now targets.now statement.now }
{
    match perm {
        Some(word) => near_some(statement, sources, targets, word),
        None => near_any_permission(statement, sources, targets),
    }
}

/// Returns whether a statement grants the permission to the source on the target.
pub fn gives_one(statement: &Statement, source: &Member, target: &Member, perm: &str) -> bool
    ensures { result ≡ gives_one perm.now source.now target.now statement.now }
{
    match statement {
        Statement::Allow(allowed) => {
            gives_source(allowed, source, perm) && reaches(allowed, source, target)
        }
        _ => false,
    }
}

// Returns whether a statement that grants the permission to the source does so on a target on which `other` does not.
fn exceeds_on(
    allowed: &Allowance,
    other: &Statement,
    source: &Member,
    targets: &[Member],
    perm: &str,
) -> bool
    ensures { result ≡ exceeds_on perm.now targets.now allowed.now other.now source.now }
{
    'targets: for target in targets {
        if reaches(allowed, source, target) && !gives_one(other, source, target, perm) {
            return true;
        }
    }
    false
}

// Returns whether a statement grants the permission to some source on some target on which `other` does not.
fn exceeds_any(allowed: &Allowance, other: &Statement, members: &[Member], perm: &str) -> bool
    ensures { result ≡ list_any (λ s. gives_source perm.now s allowed.now
        && exceeds_on perm.now members.now allowed.now other.now s) members.now }
{
    'members: for source in members {
        if gives_source(allowed, source, perm)
            && exceeds_on(allowed, other, source, members, perm)
        {
            return true;
        }
    }
    false
}

/// Returns whether a statement grants the permission to some type on some type on which `other` does not.
pub fn exceeds_some(
    statement: &Statement,
    other: &Statement,
    members: &[Member],
    perm: &str,
) -> bool
    ensures { result ≡ exceeds_some perm.now members.now statement.now other.now }
{
    match statement {
        Statement::Allow(allowed) => exceeds_any(allowed, other, members, perm),
        _ => false,
    }
}

/// Returns whether the source set or the target set of an allow statement holds the type.
pub fn names_type(statement: &Statement, member: &Member) -> bool {
    match statement {
        Statement::Allow(allowed) => {
            let names = member.names.as_slice();
            holds(names, allowed.source.as_slice()) || holds(names, allowed.target.as_slice())
        }
        _ => false,
    }
}
