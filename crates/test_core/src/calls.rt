//! All calls, by the rights that they need.
mod copy_rows;
mod owner_rows;
mod script;

use crate::calls::copy_rows::{COPIES, PAIRS, TO_MIDDLE};
use crate::calls::owner_rows::{BY_HANDLE, HANDLE, MAPPING, MAPS, OLDER, OWNERS, PAGE};
use crate::calls::script::{
    CALLER, MIDDLE, OWNER, Part, Row, Script, goes, known, rights, three_domains,
};
use gt_calls::{CallerState, EntryChange, Handles, HeldPin, OwnerEntry, Request};
use gt_roster::Roster;
use gt_types::{DomId, Memory, Perms, StartFault, Triples};
use std::alloc::Global;
use std::process::Abort;

// The permissions, the pairs of domains that have them, and the calls.
type Group = (&'static [Perms], &'static [(DomId, DomId)], &'static [Row]);

static ALL_COPIES: Group = (&[Perms::COPY], &PAIRS, &COPIES);

static COPIES_TO_MIDDLE: Group = (&[Perms::COPY], &[(CALLER, MIDDLE)], &TO_MIDDLE);

static ALL_MAPS: Group = (
    &[Perms::MAP_READ, Perms::MAP_WRITE],
    &[(CALLER, OWNER)],
    &MAPS,
);

static ALL_OF_OWNERS: Group = (&[], &[], &OWNERS);

static ALL_BY_HANDLE: Group = (&[Perms::UNMAP], &[(CALLER, OWNER)], &BY_HANDLE);

// Each of these returns a group. A function that names a group lists it in each of its states, so that no other one
// does.
fn copies() -> &'static Group {
    &ALL_COPIES
}

fn copies_to_middle() -> &'static Group {
    &COPIES_TO_MIDDLE
}

fn maps() -> &'static Group {
    &ALL_MAPS
}

fn calls_of_owners() -> &'static Group {
    &ALL_OF_OWNERS
}

fn calls_by_handle() -> &'static Group {
    &ALL_BY_HANDLE
}

// Returns the mappings of the caller: one was unmapped, and the next has its key.
fn mappings(rt: &impl Abort, alloc: Global) -> Result<Handles<HeldPin>, Memory> {
    let mut mappings = Handles::new(alloc);
    mappings.reserve()?;
    let older = mappings.insert(MAPPING);
    let _ = mappings.take(older);
    let handle = mappings.insert(MAPPING);
    assert_eq!(rt; (older, handle), (OLDER, HANDLE));
    Ok(mappings)
}

// Returns whether the caller's request follows the script of these parts, and the number of its actions.
fn found(
    alloc: Global,
    known: &CallerState<'_, Triples>,
    caller: DomId,
    request: Request<'_>,
    parts: &[Part],
) -> Result<(bool, usize), Memory> {
    let script = Script::new(alloc, parts)?;
    Ok((goes(known, caller, request, &script), script.lines.len()))
}

// Compares calls.
fn rows_go(
    rt: &impl Abort,
    alloc: Global,
    known: &CallerState<'_, Triples>,
    rows: &[Row],
) -> Result<(), Memory> {
    for (at, (caller, request, actions, parts)) in rows.iter().enumerate() {
        let found = found(alloc, known, *caller, *request, parts)?;
        assert_eq!(rt; found, (true, *actions), "row {at} of its group");
    }
    Ok(())
}

// Compares the calls of a group.
fn group_goes(
    rt: &impl Abort,
    alloc: Global,
    config: &Roster,
    own: &[OwnerEntry],
    mappings: &Handles<HeldPin>,
    group: &Group,
) -> Result<(), Memory> {
    let rights = rights(alloc, group.0, group.1)?;
    let known = known(config, &rights, own, mappings);
    rows_go(rt, alloc, &known, group.2)
}

// Compares the calls of all groups.
fn groups_go(
    rt: &impl Abort,
    alloc: Global,
    config: &Roster,
    mappings: &Handles<HeldPin>,
) -> Result<(), Memory> {
    let own = [
        OwnerEntry::new(0),
        OwnerEntry::new(0).after(EntryChange::Publish(PAGE)),
    ];
    group_goes(rt, alloc, config, &own, mappings, copies())?;
    group_goes(rt, alloc, config, &own, mappings, copies_to_middle())?;
    group_goes(rt, alloc, config, &own, mappings, maps())?;
    group_goes(rt, alloc, config, &own, mappings, calls_of_owners())?;
    group_goes(rt, alloc, config, &own, mappings, calls_by_handle())
}

fn all_go(rt: &impl Abort, alloc: Global) -> Result<(), StartFault> {
    let config = three_domains(alloc)?;
    let mappings = mappings(rt, alloc)?;
    groups_go(rt, alloc, &config, &mappings)?;
    Ok(())
}

#[test]
fn calls_go_by_their_scripts(rt: HostRuntime) {
    assert_eq!(rt; all_go(&rt, rt.alloc()), Ok(()));
}
