//! Names and numbers of types, what a source may do, and every prefix of a text.
use crate::compare::{same, text_is};
use crate::texts::{GUESTS, declarations};
use bitflags::Flags;
use gt_policy::{Policy, PolicyFaultKind};
use gt_types::{Allows, Perms, TypeId};
use std::alloc::{AllocError, Global};
use std::process::Abort;

// Returns whether a text is a policy, if a statement has just ended, and otherwise has one fault.
fn is_ended(alloc: Global, text: &str, is_end: bool) -> bool {
    match Policy::parse(alloc, text) {
        Ok(_) => is_end,
        Err(fault) => !is_end && !matches!(&fault.kind, PolicyFaultKind::Memory),
    }
}

// Compares this for each beginning of a text.
fn beginnings_are(rt: &impl Abort, alloc: Global) -> Result<(), AllocError> {
    let mut text = String::new(alloc);
    for c in GUESTS.chars() {
        text.push(c)?;
        let is_told = is_ended(alloc, text.as_str(), c == ';' || c == '\n');
        same(rt, &(text.len(), is_told), &(text.len(), true));
    }
    Ok(())
}

#[test]
fn ends_each_beginning_of_a_text(rt: HostRuntime) {
    same(&rt, &beginnings_are(&rt, rt.alloc()), &Ok(()));
}

// Returns how many types a policy has, the names of some of them, and the numbers of some names.
fn names_said(alloc: Global, policy: &Policy) -> Result<String, AllocError> {
    let count = policy.count();
    let first = policy.name(TypeId(0));
    let second = policy.name(TypeId(1));
    let third = policy.name(TypeId(2));
    let last = policy.name(TypeId(255));
    let guest = policy.type_spelled(b"domU_t");
    let attribute = policy.type_spelled(b"domain");
    let bad = policy.type_spelled(b"\xff");
    let (same, none) = (policy.type_of("domU_t"), policy.type_of("domain"));
    format!(in alloc;
        "{count} {first:?} {second:?} {third:?} {last:?} {guest:?} {attribute:?} {bad:?} {same:?} {none:?}"
    )
}

const NAMES_OF_GUESTS: &str =
    "2 Some(\"dom0_t\") Some(\"domU_t\") None None Some(TypeId(1)) None None Some(TypeId(1)) None";

const NAMES_OF_MANY: &str =
    "256 Some(\"n0\") Some(\"n1\") Some(\"n2\") Some(\"n255\") None None None None None";

// Returns them for the policy of a text, if it is one.
fn names_of(alloc: Global, text: &str) -> Result<String, AllocError> {
    match Policy::parse(alloc, text) {
        Ok(policy) => names_said(alloc, &policy),
        Err(fault) => fault.to_string(alloc),
    }
}

fn names_of_many(alloc: Global) -> Result<String, AllocError> {
    let many = declarations(alloc, "type", 256)?;
    names_of(alloc, many.as_str())
}

#[test]
fn tells_types_by_number_and_name(rt: HostRuntime) {
    text_is(&rt, names_of(rt.alloc(), GUESTS), NAMES_OF_GUESTS);
    text_is(&rt, names_of_many(rt.alloc()), NAMES_OF_MANY);
}

// Returns whether the types of a policy, by their names, have these numbers.
fn are_by_name(alloc: Global, text: &str, wanted: &[TypeId]) -> Result<bool, AllocError> {
    match Policy::parse(alloc, text) {
        Ok(policy) => Ok(policy.by_name(alloc)?.as_slice() == wanted),
        Err(_) => Ok(false),
    }
}

const UNORDERED: &str = "type b;type a-b;type a0;type a;type B;type a.b;";

#[test]
fn lists_types_by_name(rt: HostRuntime) {
    let wanted = [4, 3, 1, 5, 2, 0].map(TypeId);
    same(&rt, &are_by_name(rt.alloc(), UNORDERED, &wanted), &Ok(true));
}

const COPY_AND_QUERY: &str = "attribute domain;\n\
type dom0_t, domain;\n\
type domU_t, domain;\n\
allow { domain -dom0_t } domain:grant { map_read copy };\n\
allow dom0_t self:grant query;\n";

// Returns what a source may do to a target.
fn rights_on(policy: &Policy, source: u16, target: u16) -> Perms {
    policy.row(TypeId(source)).on(TypeId(target))
}

// Returns the rights of each source on each target, and of types that do not exist.
fn rights_of(policy: &Policy) -> [Perms; 6] {
    [
        rights_on(policy, 0, 0),
        rights_on(policy, 0, 1),
        rights_on(policy, 1, 0),
        rights_on(policy, 1, 1),
        rights_on(policy, 1, 2),
        rights_on(policy, 300, 0),
    ]
}

// The number of types of a policy, the rights, and the answers to three questions.
type Answers = (u16, [Perms; 6], [bool; 3]);

fn answers(policy: &Policy) -> Answers {
    let answers = [
        policy.allows(TypeId(1), TypeId(0), Perms::MAP_READ),
        policy.allows(TypeId(0), TypeId(0), Perms::QUERY),
        policy.allows(TypeId(0), TypeId(1), Perms::QUERY),
    ];
    (policy.count(), rights_of(policy), answers)
}

// Returns them for the policy, or whether its fault is `Memory`.
fn copy_and_query(alloc: Global) -> Result<Answers, bool> {
    match Policy::parse(alloc, COPY_AND_QUERY) {
        Ok(policy) => Ok(answers(&policy)),
        Err(fault) => Err(matches!(&fault.kind, PolicyFaultKind::Memory)),
    }
}

fn wanted() -> Result<Answers, bool> {
    let both = Perms::MAP_READ | Perms::COPY;
    let none = Perms::empty();
    let rights = [Perms::QUERY, none, both, both, none, none];
    Ok((2, rights, [true, true, false]))
}

#[test]
fn says_what_a_source_may_do(rt: HostRuntime) {
    same(&rt, &copy_and_query(rt.alloc()), &wanted());
}

// With tools/refused.sh, which makes each allocation fail in turn: the answer is the same, or the fault is `Memory`.
#[test]
fn memory(rt: HostRuntime) {
    let found = copy_and_query(rt.alloc());
    let wanted = if found == Err(true) {
        Err(true)
    } else {
        wanted()
    };
    same(&rt, &found, &wanted);
}
