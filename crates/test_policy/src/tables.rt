//! The compiled table compared with the walk of the statements: both answer every question alike.
use crate::compare::same;
use crate::texts::{GUESTS, TAKEN_OUT};
use bitflags::Flags;
use gt_allow::AllowTable;
use gt_policy::Policy;
use gt_types::{Allows, Perms, Triple, Triples, TypeId};
use std::alloc::{AllocError, Global};

const ONE_STATEMENT: &str = "type a_t; type b_t; allow b_t a_t:grant map_read;\n";

const DOM0_TAKEN_FIRST: &str = "attribute domain;\n\
type dom0_t, domain;\n\
type domU_t, domain;\n\
allow { -dom0_t domain } domain:grant { map_read copy };\n";

const THREE_DOMAINS: &str = "attribute dom;\n\
type a_t, dom;\n\
type b_t, dom;\n\
type c_t, dom;\n\
allow dom dom:grant { map_read map_write unmap copy query };\n\
allow dom self:grant setup;\n";

/// The policy of the split driver, which a script and a policy text of the examples share.
const SPLIT_DRIVER: &str = "attribute domain;\n\
attribute guest;\n\
type control_t, domain;\n\
type driver_t, domain;\n\
type guest_a_t, domain, guest;\n\
type guest_b_t, domain, guest;\n\
allow domain self:grant setup;\n\
allow driver_t guest:grant { map_read map_write unmap copy };\n\
allow control_t { domain -control_t }:grant { map_read unmap };\n\
allow control_t domain:grant query;\n";

const OF_ANOTHER_CLASS: &str =
    "type a_t; allow a_t a_t:file *; allow a_t a_t:{ grant file } map_red;\n";

// Counts the triples of this number of types that the policy allows, and those on which its table answers otherwise.
fn compared(policy: &Policy, table: &AllowTable, types: u16) -> (u32, u32) {
    let mut allowed: u32 = 0;
    let mut other: u32 = 0;
    for source in 0..types {
        for target in 0..types {
            for perm in Perms::EVERY {
                let walk = policy.allows(TypeId(source), TypeId(target), perm);
                let found = table.allows(TypeId(source), TypeId(target), perm);
                allowed = allowed.wrapping_add(u32::from(walk));
                other = other.wrapping_add(u32::from(walk != found));
            }
        }
    }
    (allowed, other)
}

// Policies, each with the number of triples that it allows.
static POLICIES: [(&str, u32); 8] = [
    (TAKEN_OUT, 3),
    (ONE_STATEMENT, 1),
    (GUESTS, 4),
    (DOM0_TAKEN_FIRST, 4),
    (THREE_DOMAINS, 48),
    (SPLIT_DRIVER, 22),
    (OF_ANOTHER_CLASS, 0),
    ("", 0),
];

// Returns these counts for the policy of a text, with one undeclared type, if it is a policy.
fn compared_in(alloc: Global, text: &str) -> Option<(u32, u32)> {
    let Ok(policy) = Policy::parse(alloc, text) else {
        return None;
    };
    let Ok(table) = AllowTable::compile(alloc, &policy) else {
        return None;
    };
    Some(compared(&policy, &table, policy.count().wrapping_add(1)))
}

// Compares them on every triple of the types, and of one undeclared type.
#[test]
fn a_table_answers_as_the_walk(rt: HostRuntime) {
    for (text, triples) in POLICIES.iter() {
        let found = compared_in(rt.alloc(), text);
        same(&rt, &(*text, found), &(*text, Some((*triples, 0))));
    }
}

// Returns the answers of the walk, of the table, and of a list that has this question, to the question for these
// permissions.
fn answers_for(
    alloc: Global,
    policy: &Policy,
    table: &AllowTable,
    perm: Perms,
) -> Result<[bool; 3], AllocError> {
    let a = TypeId(0);
    let triple = Triple {
        source: a,
        target: a,
        perm,
    };
    let triples = Triples {
        allowed: vec![in alloc; triple]?,
    };
    Ok([
        policy.allows(a, a, perm),
        table.allows(a, a, perm),
        triples.allows(a, a, perm),
    ])
}

// Returns these answers for one permission, for none, for two and for all.
fn several_answered(alloc: Global) -> Option<[Result<[bool; 3], AllocError>; 4]> {
    let Ok(policy) = Policy::parse(alloc, "type a_t; allow a_t a_t:grant *;") else {
        return None;
    };
    let Ok(table) = AllowTable::compile(alloc, &policy) else {
        return None;
    };
    let several = Perms::MAP_READ | Perms::MAP_WRITE;
    Some([
        answers_for(alloc, &policy, &table, Perms::COPY),
        answers_for(alloc, &policy, &table, Perms::empty()),
        answers_for(alloc, &policy, &table, several),
        answers_for(alloc, &policy, &table, Perms::all()),
    ])
}

// A question for several permissions, or for none, is answered no in all three forms.
#[test]
fn several_permissions_are_none(rt: HostRuntime) {
    let none = Ok([false; 3]);
    same(
        &rt,
        &several_answered(rt.alloc()),
        &Some([Ok([true; 3]), none, none, none]),
    );
}
