//! Whole runs, from their settings to the end of each guest.
use gt_allow::AllowTable;
use gt_attached::{AttachedDomain, MapRequest};
use gt_calls::Handle;
use gt_entry::{Control, Entry, EntryKind};
use gt_live::Followed;
use gt_start::{DomainSettings, begin_run, type_name, type_of};
use gt_types::{DomId, GrantRef, LAST_GENERATION, Rule};
use std::alloc::{AllocError, Global};

const POLICY: &[u8] =
    b"type other_t; type guest_t; allow guest_t guest_t:grant { map_read map_write unmap };";

const PAGE: GrantRef = GrantRef(7);

// The frames of each domain, as many as there can be. The last one is granted.
const FRAMES: u32 = u32::MAX;

// Returns settings of domains with consecutive numbers, starting at 1.
fn settings(alloc: Global, count: u16, label: u16) -> Result<Vec<DomainSettings>, AllocError> {
    let mut all = Vec::new(alloc);
    for place in 0..count {
        all.push(DomainSettings {
            id: u32::from(place.saturating_add(1)),
            label: u32::from(label),
            frames: FRAMES,
            table_frames: 1,
            version: 1,
        })?;
    }
    Ok(all)
}

// Grants a page to a domain.
fn grants(guest: &mut AttachedDomain<AllowTable>, to: u16) -> bool {
    let page = Entry::Page {
        dom: DomId(to),
        ro: false,
        frame: u64::from(FRAMES) - 1,
    };
    !guest.is_copying() && guest.grant(PAGE, &page).is_ok()
}

// Maps the page of a domain.
fn maps(guest: &mut AttachedDomain<AllowTable>, owner: u16) -> Option<Handle> {
    if guest.is_copying() {
        return None;
    }
    guest
        .map(DomId(owner), PAGE, 2)
        .ok()
        .map(|made| made.handle)
}

// Returns the rule by which a map of the page of a domain is refused.
fn map_refused_by(guest: &mut AttachedDomain<AllowTable>, owner: u16) -> Option<Rule> {
    if guest.is_copying() {
        return None;
    }
    guest
        .map(DomId(owner), PAGE, 2)
        .err()
        .map(|denial| denial.rule)
}

// Unmaps a mapping.
fn unmaps(guest: &mut AttachedDomain<AllowTable>, handle: Handle) -> bool {
    !guest.is_copying() && guest.unmap(handle).is_ok()
}

// Returns the kind of the page's entry and its pins for writing, by the word that an unmap of it leaves.
fn left_by(guest: &mut AttachedDomain<AllowTable>, handle: Handle) -> Option<(EntryKind, u16)> {
    if guest.is_copying() {
        return None;
    }
    let left = Control::unpack(guest.unmap(handle).ok()?.word);
    Some((left.kind, left.writes))
}

// Returns the first of the guest's entries that is invalid and still has pins.
fn unused(guest: &mut AttachedDomain<AllowTable>) -> Option<GrantRef> {
    if guest.is_copying() {
        return None;
    }
    guest.unused(GrantRef(0))
}

// Returns the rule by which a revocation of the page is refused.
fn kept_by(guest: &mut AttachedDomain<AllowTable>) -> Option<Rule> {
    if guest.is_copying() {
        return None;
    }
    guest.revoke(PAGE).err().map(|denial| denial.rule)
}

// Returns the kind of the page's entry, and its pins for writing.
fn status(guest: &mut AttachedDomain<AllowTable>) -> Option<(EntryKind, u16)> {
    if guest.is_copying() {
        return None;
    }
    let control = guest.status(PAGE)?;
    Some((control.kind, control.writes))
}

// Lets the page's entry follow its guest's bytes of version 1: these flags, domain 2, and this frame.
fn follows(
    guest: &mut AttachedDomain<AllowTable>,
    flags: u8,
    frame: u8,
) -> Option<Result<Followed, Rule>> {
    if guest.is_copying() {
        return None;
    }
    match guest.follow(PAGE, &[flags, 0, 2, 0, frame, 0, 0, 0]) {
        Ok(followed) => Some(Ok(followed)),
        Err(denial) => Some(Err(denial.rule)),
    }
}

// Makes a guest ready for its successor. Returns how many entries are in use.
fn resets(guest: &mut AttachedDomain<AllowTable>) -> Option<u64> {
    if guest.is_copying() {
        return None;
    }
    Some(guest.reset().in_use)
}

// Lets the guest leave. Returns how many of its entries are in use.
fn leaves(guest: AttachedDomain<AllowTable>) -> Option<u64> {
    if guest.is_copying() {
        return None;
    }
    Some(guest.finish().remains.in_use)
}

// Returns the number of the domain after the one at a position, cyclically.
fn next(place: u16, count: u16) -> u16 {
    let after = place.saturating_add(1);
    if after < count {
        after.saturating_add(1)
    } else {
        1
    }
}

// Lets each guest grant its page to the next one. Returns how many did.
fn grant_all(guests: &mut [AttachedDomain<AllowTable>], count: u16) -> u16 {
    let mut done = 0u16;
    let mut place = 0u16;
    for guest in guests.iter_mut() {
        if grants(guest, next(place, count)) {
            done = done.saturating_add(1);
        }
        place = place.saturating_add(1);
    }
    done
}

// Lets each guest map the page of the one before it. Returns how many did.
fn map_all(guests: &mut [AttachedDomain<AllowTable>], count: u16) -> u16 {
    let mut done = 0u16;
    let mut owner = count;
    for guest in guests.iter_mut() {
        if maps(guest, owner).is_some() {
            done = done.saturating_add(1);
        }
        owner = guest.dom().0;
    }
    done
}

// Counts the guests that can't revoke their page, since it is in use.
fn count_busy(guests: &mut [AttachedDomain<AllowTable>]) -> u16 {
    let mut busy = 0u16;
    for guest in guests.iter_mut() {
        if kept_by(guest) == Some(Rule::N19) {
            busy = busy.saturating_add(1);
        }
    }
    busy
}

// Lets each guest leave, the first one first. Returns how many left an entry in use.
fn leave_all(guests: Vec<AttachedDomain<AllowTable>>) -> u16 {
    let mut left = 0u16;
    for guest in guests {
        if leaves(guest) == Some(1) {
            left = left.saturating_add(1);
        }
    }
    left
}

// Makes a run of this number of domains. Returns how many pages were granted, mapped, in use, and left in use.
fn run(alloc: Global, count: u16) -> Result<(usize, [u16; 4]), AllocError> {
    let label = match type_of(alloc, POLICY, b"guest_t") {
        Ok(id) => id.0,
        Err(_) => return Err(AllocError),
    };
    let settings = settings(alloc, count, label)?;
    let Ok(mut guests) = begin_run(alloc, settings.as_slice(), 0, POLICY) else {
        return Err(AllocError);
    };
    let len = guests.len();
    let granted = grant_all(guests.as_mut_slice(), count);
    let mapped = map_all(guests.as_mut_slice(), count);
    let busy = count_busy(guests.as_mut_slice());
    Ok((len, [granted, mapped, busy, leave_all(guests)]))
}

// Begins a run of this number of domains, which leave without a call. Returns how many began.
fn begins(alloc: Global, count: u16) -> Result<usize, AllocError> {
    let settings = settings(alloc, count, 1)?;
    match begin_run(alloc, settings.as_slice(), 0, POLICY) {
        Ok(guests) => Ok(guests.len()),
        Err(_) => Ok(0),
    }
}

#[test]
fn each_number_of_domains_begins(rt: HostRuntime) -> Result<(), AllocError> {
    for count in 1..65u16 {
        assert_eq!(rt; begins(rt.alloc(), count)?, usize::from(count));
    }
    Ok(())
}

// Numbers of domains: the ends of the range, and half of it.
static COUNTS: [u16; 7] = [1, 2, 31, 32, 33, 63, 64];

#[test]
fn runs_of_few_and_many_domains_begin_and_end(rt: HostRuntime) -> Result<(), AllocError> {
    let alloc = rt.alloc();
    for count in COUNTS.iter() {
        // the mapper of the last domain's page is the first one that leaves
        let left = count.saturating_sub(1);
        assert_eq!(rt;
            run(alloc, *count)?,
            (usize::from(*count), [*count, *count, *count, left])
        );
    }
    Ok(())
}

// The owner of the page, the guest that maps it, and the last mapping.
#[derive(Drop)]
struct Pair {
    owner: AttachedDomain<AllowTable>,
    mapper: AttachedDomain<AllowTable>,
    mapped: Option<Handle>,
}

// What one of the two does, and the expected result.
#[derive(Clone, Copy)]
enum Act {
    /// The owner grants its page.
    Grants,
    /// The mapper maps the page, if it may.
    Maps(bool),
    /// The mapper unmaps it, which leaves a word of this kind without pins for writing.
    Unmaps(EntryKind),
    /// Whether the page's entry is the first of the owner's that is invalid and has pins, or there is none.
    IsUnused(bool),
    /// The page's entry is of this kind, with this number of pins for writing.
    Is(EntryKind, u16),
    /// The owner is made ready for its successor, with this number of entries in use.
    OwnerResets(u64),
    /// The same for the mapper.
    MapperResets(u64),
    /// The page's entry follows bytes with these flags and this frame.
    Follows(u8, u8, Result<Followed, Rule>),
}

// Maps the page. Returns whether it did.
fn maps_page(pair: &mut Pair) -> bool {
    let mapped = maps(&mut pair.mapper, 1);
    if mapped.is_some() {
        pair.mapped = mapped;
    }
    mapped.is_some()
}

// Returns whether this has the expected result.
fn goes(pair: &mut Pair, act: Act) -> bool {
    match act {
        Act::Grants => grants(&mut pair.owner, 2),
        Act::Maps(may) => maps_page(pair) == may,
        Act::Unmaps(kind) => match pair.mapped {
            Some(handle) => left_by(&mut pair.mapper, handle) == Some((kind, 0)),
            None => false,
        },
        Act::IsUnused(is) => unused(&mut pair.owner) == if is { Some(PAGE) } else { None },
        Act::Is(kind, writes) => status(&mut pair.owner) == Some((kind, writes)),
        Act::OwnerResets(in_use) => resets(&mut pair.owner) == Some(in_use),
        Act::MapperResets(in_use) => resets(&mut pair.mapper) == Some(in_use),
        Act::Follows(flags, frame, wanted) => {
            follows(&mut pair.owner, flags, frame) == Some(wanted)
        }
    }
}

// Returns the index of the first act that has another result.
fn first_wrong(pair: &mut Pair, acts: &[Act]) -> Option<usize> {
    for (at, act) in acts.iter().enumerate() {
        if !goes(pair, *act) {
            return Some(at);
        }
    }
    None
}

fn begin_pair(alloc: Global, first_gen: u32) -> Result<Pair, AllocError> {
    let settings = settings(alloc, 2, 1)?;
    let Ok(mut guests) = begin_run(alloc, settings.as_slice(), first_gen, POLICY) else {
        return Err(AllocError);
    };
    let (Some(mapper), Some(owner)) = (guests.pop(), guests.pop()) else {
        return Err(AllocError);
    };
    Ok(Pair {
        owner,
        mapper,
        mapped: None,
    })
}

// Returns the index of the first act that has another result, and how many entries of each are in use when they leave.
fn told(
    alloc: Global,
    first_gen: u32,
    acts: &[Act],
) -> Result<(Option<usize>, [Option<u64>; 2]), AllocError> {
    let mut pair = begin_pair(alloc, first_gen)?;
    let wrong = first_wrong(&mut pair, acts);
    let Pair {
        owner,
        mapper,
        mapped: _,
    } = pair;
    Ok((wrong, [leaves(owner), leaves(mapper)]))
}

// A place is made ready for the next guest while its page is mapped.
static READY: [Act; 14] = [
    Act::Grants,
    Act::Maps(true),
    Act::IsUnused(false),
    Act::Is(EntryKind::Page, 1),
    Act::OwnerResets(1),
    Act::Is(EntryKind::Invalid, 1),
    Act::IsUnused(true),
    Act::Maps(false),
    Act::Unmaps(EntryKind::Invalid),
    Act::IsUnused(false),
    Act::Is(EntryKind::Invalid, 0),
    Act::Grants,
    Act::Maps(true),
    Act::MapperResets(0),
];

#[test]
fn a_place_is_made_ready_for_the_next_guest(rt: HostRuntime) -> Result<(), AllocError> {
    let told = told(rt.alloc(), 3, &READY)?;
    assert_eq!(rt; told, (None, [Some(0), Some(0)]));
    Ok(())
}

// An entry follows the bytes of its guest. After the map the VMM has marked the entry as in use.
static FOLLOWING: [Act; 18] = [
    Act::Follows(0, 4, Ok(Followed::Same)),
    Act::Follows(1, 4, Ok(Followed::Granted)),
    Act::Maps(true),
    Act::Follows(25, 4, Ok(Followed::Same)),
    Act::Follows(29, 4, Err(Rule::N19)),
    Act::Is(EntryKind::Page, 1),
    Act::Follows(1, 5, Err(Rule::N19)),
    Act::Is(EntryKind::Invalid, 1),
    Act::Unmaps(EntryKind::Invalid),
    Act::Follows(1, 5, Ok(Followed::Granted)),
    Act::Follows(5, 5, Ok(Followed::Demoted)),
    Act::Maps(false),
    Act::Follows(1, 5, Ok(Followed::Promoted)),
    Act::Follows(1, 6, Ok(Followed::Granted)),
    Act::Follows(0, 6, Ok(Followed::Withdrawn)),
    Act::Follows(1, 6, Ok(Followed::Granted)),
    Act::Follows(2, 6, Err(Rule::N25)),
    Act::Is(EntryKind::Invalid, 0),
];

#[test]
fn an_entry_follows_the_bytes_of_its_guest(rt: HostRuntime) -> Result<(), AllocError> {
    let told = told(rt.alloc(), 0, &FOLLOWING)?;
    assert_eq!(rt; told, (None, [Some(0), Some(0)]));
    Ok(())
}

// Lets the owner of a new run grant what that of the run before has granted. Returns whether it did.
fn takes_over(next: &mut Pair, pair: &Pair) -> bool {
    !next.owner.is_copying() && next.owner.grant_all_of(&pair.owner).is_ok()
}

// Returns the first entry that differs between the owners of two runs, or `None` if one of them is in a copy.
fn difference(next: &mut Pair, pair: &mut Pair) -> Option<Option<GrantRef>> {
    if next.owner.is_copying() || pair.owner.is_copying() {
        return None;
    }
    Some(next.owner.first_difference(&mut pair.owner))
}

#[test]
fn a_new_run_takes_over_what_the_one_before_has(rt: HostRuntime) -> Result<(), AllocError> {
    let mut pair = begin_pair(rt.alloc(), LAST_GENERATION - 1)?;
    let mut next = begin_pair(rt.alloc(), 0)?;
    assert_eq!(rt; difference(&mut next, &mut pair), Some(None));
    assert!(rt; grants(&mut pair.owner, 2) && maps_page(&mut pair));
    assert!(rt; takes_over(&mut next, &pair) && !takes_over(&mut next, &pair));
    assert_eq!(rt; difference(&mut next, &mut pair), Some(Some(PAGE)));
    assert!(rt; maps_page(&mut next));
    assert_eq!(rt; difference(&mut next, &mut pair), Some(None));
    Ok(())
}

// A reference that its guest uses again at once.
const HOT: GrantRef = GrantRef(0);

// Grants an entry for the hot reference, and revokes it. Returns the rule of a refusal.
fn uses_once(guest: &mut AttachedDomain<AllowTable>) -> Option<Rule> {
    if guest.is_copying() {
        return Some(Rule::N2);
    }
    let page = Entry::Page {
        dom: DomId(2),
        ro: false,
        frame: 3,
    };
    if let Err(denial) = guest.grant(HOT, &page) {
        return Some(denial.rule);
    }
    guest.revoke(HOT).err().map(|denial| denial.rule)
}

// Uses the hot reference until it is refused. Returns the number of grants, and the rule of the refusal.
fn wears(guest: &mut AttachedDomain<AllowTable>) -> (u32, Option<Rule>) {
    for grants in 0..LAST_GENERATION + 1 {
        let refused = uses_once(guest);
        if refused.is_some() {
            return (grants, refused);
        }
    }
    (LAST_GENERATION + 1, None)
}

// Renews a run of a pair: the owner takes over the entries, the mapper maps the page again, and the old pair leaves.
// Returns the new pair, or `None` if the owners' entries differ then.
fn renewed(alloc: Global, mut pair: Pair) -> Result<Option<Pair>, AllocError> {
    let mut next = begin_pair(alloc, 0)?;
    if !takes_over(&mut next, &pair) || !maps_page(&mut next) {
        return Ok(None);
    }
    Ok(match difference(&mut next, &mut pair) {
        Some(None) => Some(next),
        _ => None,
    })
}

// Wears the hot reference of a pair out and renews its run, three times. Returns the number of grants of all, and the
// rule of the last refusal.
fn worn_three_times(alloc: Global, pair: Pair) -> Result<Option<(Pair, u32)>, AllocError> {
    let mut pair = pair;
    let mut all = 0u32;
    for _ in 0..3u32 {
        let (grants, refused) = wears(&mut pair.owner);
        let Some(next) = renewed(alloc, pair)? else {
            return Ok(None);
        };
        pair = next;
        if refused != Some(Rule::N22) {
            return Ok(None);
        }
        all = all.saturating_add(grants);
    }
    Ok(Some((pair, all)))
}

#[test]
fn a_mapping_lives_while_a_reference_is_worn_three_times(
    rt: HostRuntime,
) -> Result<(), AllocError> {
    let mut pair = begin_pair(rt.alloc(), 0)?;
    assert!(rt; grants(&mut pair.owner, 2) && maps_page(&mut pair));
    match worn_three_times(rt.alloc(), pair)? {
        Some((mut pair, all)) => {
            assert_eq!(rt; all, 3 * LAST_GENERATION);
            assert_eq!(rt; status(&mut pair.owner), Some((EntryKind::Page, 1)));
            assert!(rt; goes(&mut pair, Act::Unmaps(EntryKind::Page)));
        }
        None => assert!(rt; false, "no renewal"),
    }
    Ok(())
}

fn request(gref: GrantRef, flags: u32) -> MapRequest {
    MapRequest {
        dom: 1,
        gref: gref.0,
        flags,
        serial: 0,
        key: 0,
    }
}

// Makes several maps, or none. Returns the index and the rule of the refusal.
fn maps_each(
    guest: &mut AttachedDomain<AllowTable>,
    requests: &mut [MapRequest],
) -> Option<(u64, Rule)> {
    if guest.is_copying() {
        return Some((0, Rule::N2));
    }
    match guest.map_all(requests) {
        Ok(()) => None,
        Err(refused) => Some((refused.index, refused.denial.rule)),
    }
}

fn named(request: MapRequest) -> Handle {
    Handle {
        serial: request.serial,
        key: request.key,
    }
}

#[test]
fn several_maps_are_made_or_none_remains(rt: HostRuntime) -> Result<(), AllocError> {
    let mut pair = begin_pair(rt.alloc(), 0)?;
    assert!(rt; grants(&mut pair.owner, 2));
    let mut three = [request(PAGE, 2), request(PAGE, 2), request(HOT, 2)];
    let mut two = [request(PAGE, 2), request(PAGE, 2)];
    assert_eq!(rt;
        maps_each(&mut pair.mapper, &mut three),
        Some((2, Rule::N10))
    );
    assert_eq!(rt; status(&mut pair.owner), Some((EntryKind::Page, 0)));
    assert_eq!(rt; maps_each(&mut pair.mapper, &mut two), None);
    assert_eq!(rt; status(&mut pair.owner), Some((EntryKind::Page, 2)));
    for left in [1u16, 0] {
        let handle = named(two[usize::from(left)]);
        assert_eq!(rt;
            left_by(&mut pair.mapper, handle),
            Some((EntryKind::Page, left))
        );
    }
    Ok(())
}

#[test]
fn a_type_has_its_name(rt: HostRuntime) -> Result<(), AllocError> {
    let mut name = [b'-'; 9];
    let found = type_name(rt.alloc(), POLICY, 1, &mut name).map_err(|_| AllocError)?;
    assert_eq!(rt; (found, name), (7, *b"guest_t--"));
    assert!(rt; type_name(rt.alloc(), POLICY, 2, &mut name).is_err_and(|fault| fault.kind == 20));
    Ok(())
}

// Lets the owner grant its page, lets the mapper map it if `maps_first`, and drops the owner. Returns whether the grant
// was Ok, the rule by which a map of the page is then refused, and whether a mapping was there to be unmapped.
fn dropped(alloc: Global, maps_first: bool) -> Result<(bool, Option<Rule>, bool), AllocError> {
    let Pair {
        mut owner,
        mut mapper,
        mapped: _,
    } = begin_pair(alloc, 0)?;
    let granted = grants(&mut owner, 2);
    let mapped = if maps_first {
        maps(&mut mapper, 1)
    } else {
        None
    };
    drop(owner);
    let rule = map_refused_by(&mut mapper, 1);
    let is_unmapped = match mapped {
        Some(handle) => unmaps(&mut mapper, handle),
        None => false,
    };
    Ok((granted, rule, is_unmapped))
}

#[test]
fn a_dropped_domain_closes_its_table(rt: HostRuntime) -> Result<(), AllocError> {
    for maps_first in [false, true] {
        assert_eq!(rt;
            dropped(rt.alloc(), maps_first)?,
            (true, Some(Rule::N10), maps_first)
        );
    }
    Ok(())
}

#[test]
fn a_label_past_the_types_is_a_fault(rt: HostRuntime) -> Result<(), AllocError> {
    let settings = settings(rt.alloc(), 2, 2)?;
    match begin_run(rt.alloc(), settings.as_slice(), 0, POLICY) {
        Ok(_) => assert!(rt; false, "it began"),
        Err(fault) => assert_eq!(rt; (fault.kind, fault.dom), (19, 1)),
    }
    Ok(())
}
