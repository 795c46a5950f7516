//! The exports for a domain's mappings of other domains' pages, and the names of mappings.
ghost use Rattle.std.specs.Prelude.{◌≡◌, length, map, true, false, None};
ghost use Rattle.gt_attached.specs.Encoding.{encoded};
ghost use Rattle.gt_attached.specs.declared.answer.AttachedOutcome.TheVariants as outcomes;
ghost use Rattle.gt_handles.specs.Handles.{value_of};
ghost use Rattle.gt_types.specs.declared.denial.Rule.TheVariants.{N1};
ghost use Rattle.gt_c.specs.Asking.{handle_named, is_of_domain};
ghost use Rattle.gt_c.specs.Calling.{MayBeCalled, TurnedAway, RefusesNumber, Within16, named_mapping, outcome_mapped};
ghost use Rattle.gt_c.specs.Calling.{outcome_released};
ghost use Rattle.gt_c.specs.Promises.{Maps, MapsEach, SearchesMapping, Unmaps};
ghost use Rattle.gt_c.specs.Reports.{outcome_next};
ghost use Rattle.gt_c.specs.Several.{named_each};

use crate::c_domain::CDomain;
use crate::calls::{MOST, refused_number, turned_away};
use crate::handle::DomainHandle;
use crate::lending::lent_mut;
use gt_attached::{AttachedOutcome, EncodedAnswer, MapRequest, MappingName, NamedMapping};
use gt_calls::Handle as Name;
use gt_live::{LeftWord, NewMapping};
use gt_types::{DOMID_SELF, Denial, DomId, GrantRef, Rule};

/// The name of a mapping: its handle, the number of its run, and the domain that has it.
#[repr(C)]
#[derive(Clone, Copy)]
pub struct MapHandle {
    pub serial: u64,
    pub key: usize,
    pub run: u32,
    pub dom: u32,
}

// Returns the handle in a name, for a call of this domain. For a name of another domain or another run it returns a
// handle under which the domain has no mapping.
pub(crate) fn handle_named(lent: &CDomain, name: MapHandle) -> Name
    ensures value { result ≡ handle_named lent.now name }
    ensures foreign { is_of_domain lent.now name ≡ false → value_of lent.now.attached.domain.mappings result ≡ None }
{
    if name.run != lent.run || name.dom != u32::from(lent.attached.dom().0) {
        return lent.attached.unused_handle();
    }
    Name {
        serial: name.serial,
        key: name.key,
    }
}

// Map and unmap are the hot path, so they store their answer where the caller wants it. An answer that is returned has
// one place for all its values, and each field goes through a register. These three functions store rare answers. They
// are not inlined, so that an Ok has its stores for itself.
#[cold]
#[inline(never)]
pub(crate) fn store_no_domain(answer: &mut EncodedAnswer)
    ensures { answer.new ≡ encoded outcomes.NoDomain }
{
    *answer = EncodedAnswer::of(AttachedOutcome::NoDomain);
}

#[cold]
#[inline(never)]
fn store_busy(answer: &mut EncodedAnswer)
    ensures { answer.new ≡ encoded outcomes.Busy }
{
    *answer = EncodedAnswer::of(AttachedOutcome::Busy);
}

#[cold]
#[inline(never)]
fn store_refusal(answer: &mut EncodedAnswer, denial: Denial)
    ensures { answer.new ≡ encoded (outcomes.Denied denial) }
{
    *answer = EncodedAnswer::of(AttachedOutcome::Denied(denial));
}

// Stores why no call is made on a handle, and returns true; or returns false, and the call may be made.
#[inline(always)]
pub(crate) fn is_turned_away(domain: &mut DomainHandle, answer: &mut EncodedAnswer) -> bool
    ensures away { result ≡ true → TurnedAway domain.old.held.value domain.new.held.value answer.new }
    ensures may { result ≡ false → MayBeCalled domain.old.held.value domain.new.held.value }
{
    if domain.is_ready {
        return false;
    }
    is_barred(domain, answer)
}

// Stores why no call is made on a handle that is not ready, and returns true; or returns false if it is ready after all.
#[cold]
#[inline(never)]
fn is_barred(domain: &mut DomainHandle, answer: &mut EncodedAnswer) -> bool
    ensures away { result ≡ true → TurnedAway domain.old.held.value domain.new.held.value answer.new }
    ensures may { result ≡ false → MayBeCalled domain.old.held.value domain.new.held.value }
{
    if !domain.is_live {
        store_no_domain(answer);
        return true;
    }
    let lent = lent_mut(&mut domain.held);
    if lent.attached.is_copying() {
        store_busy(answer);
        return true;
    }
    false
}

// Converts a mapping of this domain in this run, with its name.
#[inline(always)]
fn named_mapping(made: NewMapping, dom: DomId, run: u32) -> NamedMapping
    ensures { result ≡ named_mapping dom run made }
{
    let handle = made.handle;
    NamedMapping {
        name: MappingName { handle, dom, run },
        owner: made.held.dom,
        gref: made.held.gref,
        frame: made.held.entry.frame(),
        dir: made.held.dir,
    }
}

#[inline(always)]
fn store_mapped(
    answer: &mut EncodedAnswer,
    answered: Result<NewMapping, Denial>,
    dom: DomId,
    run: u32,
)
    ensures { answer.new ≡ encoded (outcome_mapped dom run answered) }
{
    match answered {
        Ok(made) => {
            *answer = EncodedAnswer::of(AttachedOutcome::Mapped(named_mapping(made, dom, run)));
        }
        Err(denial) => store_refusal(answer, denial),
    }
}

#[inline(always)]
fn store_released(answer: &mut EncodedAnswer, answered: Result<LeftWord, Denial>)
    ensures { answer.new ≡ encoded (outcome_released answered) }
{
    match answered {
        Ok(left) => *answer = EncodedAnswer::of(AttachedOutcome::Released(left)),
        Err(denial) => store_refusal(answer, denial),
    }
}

// Stores the answer to a map with a number that does not fit: an answer that is returned would be cleared by each map.
#[cold]
#[inline(never)]
fn store_refused_number(domain: &mut DomainHandle, answer: &mut EncodedAnswer)
    ensures { RefusesNumber N1 answer.new domain.old.held.value domain.new.held.value }
{
    *answer = refused_number(domain, Rule::N1);
}

// The flags of a map for reading, and of one for reading and writing. A map with either has a body for itself, in which
// the flags are a constant.
const READING: u32 = 6;

const WRITING: u32 = 2;

struct ForReading;

struct ForWriting;

// Maps an entry of a domain whose number fits.
#[inline(always)]
fn map_of<Site>(
    domain: &mut DomainHandle,
    dom: u16,
    gref: u32,
    flags: u32,
    answer: &mut EncodedAnswer,
)
    ensures { Maps dom gref flags answer.new domain.old.held.value domain.new.held.value }
{
    if is_turned_away(domain, answer) {
        return;
    }
    let lent = lent_mut(&mut domain.held);
    let caller = lent.attached.dom();
    let answered = lent
        .attached
        .map_at::<Site>(DomId(dom), GrantRef(gref), flags);
    store_mapped(answer, answered, caller, lent.run);
}

// Maps an entry with arguments that few maps have: `DOMID_SELF`, a number that does not fit, or other flags.
#[cold]
#[inline(never)]
fn map_rarely(
    domain: &mut DomainHandle,
    dom: u32,
    gref: u32,
    flags: u32,
    answer: &mut EncodedAnswer,
)
    ensures { Within16 N1 dom answer.new domain.old.held.value domain.new.held.value
        (Maps dom gref flags answer.new domain.old.held.value domain.new.held.value) }
{
    if dom > MOST {
        store_refused_number(domain, answer);
        return;
    }
    map_of::<()>(domain, dom as u16, gref, flags, answer);
}

/// Maps an entry of a domain, for reading and writing (flags 2) or for reading (flags 6).
#[unsafe(no_mangle)]
pub extern "C" fn gthost_map_at(
    domain: &mut DomainHandle,
    dom: u32,
    gref: u32,
    flags: u32,
    answer: &mut EncodedAnswer,
)
    ensures { Within16 N1 dom answer.new domain.old.held.value domain.new.held.value
        (Maps dom gref flags answer.new domain.old.held.value domain.new.held.value) }
{
    if dom >= u32::from(DOMID_SELF) {
        map_rarely(domain, dom, gref, flags, answer);
        return;
    }
    if flags == READING {
        map_of::<ForReading>(domain, dom as u16, gref, READING, answer);
    } else if flags == WRITING {
        map_of::<ForWriting>(domain, dom as u16, gref, WRITING, answer);
    } else {
        map_rarely(domain, dom, gref, flags, answer);
    }
}

/// Unmaps a mapping.
#[unsafe(no_mangle)]
pub extern "C" fn gthost_unmap_at(
    domain: &mut DomainHandle,
    name: &MapHandle,
    answer: &mut EncodedAnswer,
)
    ensures { Unmaps name.now answer.new domain.old.held.value domain.new.held.value }
{
    if is_turned_away(domain, answer) {
        return;
    }
    let lent = lent_mut(&mut domain.held);
    let handle = handle_named(lent, *name);
    let answered = lent.attached.unmap(handle);
    store_released(answer, answered);
}

// Returns the result of a search for a mapping of this domain in this run.
fn next_outcome(found: Option<NewMapping>, dom: DomId, run: u32) -> AttachedOutcome
    ensures { result ≡ outcome_next dom run found }
{
    match found {
        None => AttachedOutcome::Absent,
        Some(made) => AttachedOutcome::Mapped(named_mapping(made, dom, run)),
    }
}

/// Returns the mapping with the least key from `from` on that the caller has, with its name, or that there is none. Looks
/// at each key before it.
#[unsafe(no_mangle)]
pub extern "C" fn gthost_mappings_at(
    domain: &mut DomainHandle,
    from: usize,
    answer: &mut EncodedAnswer,
)
    ensures { SearchesMapping from answer.new domain.old.held.value domain.new.held.value }
{
    if is_turned_away(domain, answer) {
        return;
    }
    let lent = lent_mut(&mut domain.held);
    let found = lent.attached.next_mapping(from);
    *answer = EncodedAnswer::of(next_outcome(found, lent.attached.dom(), lent.run));
}

// Writes the name of each request's mapping, in a run with this number, which this domain has.
fn name_each(names: &mut [MapHandle], requests: &[MapRequest], dom: DomId, run: u32)
    requires count { length names.old ≡ length requests.now }
    ensures { names.new ≡ map (named_each dom run) requests.now }
{
    'names: for at in 0..names.len() {
        let request = requests[at];
        names[at] = MapHandle {
            serial: request.serial,
            key: request.key,
            run,
            dom: u32::from(dom.0),
        };
    }
}

/// Makes the map of each request, in order, and writes the name of its mapping to its place in `names`, which has a place
/// for each. After the first refusal it releases the mappings that it made, without asking the policy, and `names` is
/// unchanged: the answer is that refusal, with the index of its request. The fields `serial` and `key` of the requests
/// are its own.
#[unsafe(no_mangle)]
pub extern "C" fn gthost_map_all_at(
    domain: &mut DomainHandle,
    requests: &mut [MapRequest],
    names: &mut [MapHandle],
) -> EncodedAnswer
    ensures { MapsEach requests.old requests.new names.old names.new result
        domain.old.held.value domain.new.held.value }
{
    if let Some(answer) = turned_away(domain) {
        return answer;
    }
    if names.len() != requests.len() {
        return EncodedAnswer::of(AttachedOutcome::Absent);
    }
    let lent = lent_mut(&mut domain.held);
    match lent.attached.map_all(requests) {
        Ok(()) => {
            name_each(names, requests, lent.attached.dom(), lent.run);
            EncodedAnswer::of(AttachedOutcome::MappedAll(requests.len() as u64))
        }
        Err(refused) => EncodedAnswer::of(AttachedOutcome::RefusedAt(refused)),
    }
}
