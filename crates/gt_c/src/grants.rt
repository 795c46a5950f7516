//! The exports for a domain's own entries.
ghost use Rattle.std.specs.Prelude.{◌≡◌};
ghost use Rattle.gt_types.specs.declared.denial.Rule.TheVariants.{N1, N21};
ghost use Rattle.gt_c.specs.Asking.{page, spelled, sub, via};
ghost use Rattle.gt_c.specs.Calling.{outcome_followed, ref_at, Within16};
ghost use Rattle.gt_c.specs.Grantees.{noted_at};
ghost use Rattle.gt_c.specs.Promises.{DemotesEntry, FollowsEntryBytes, GrantsBytes, GrantsPage, GrantsEntry, GrantsSub};
ghost use Rattle.gt_c.specs.Promises.{GrantsVia, Promotes, RevokesEntry, WithdrawsEntry};

use crate::c_domain::CDomain;
use crate::calls::{MOST, done, refused_number, turned_away};
use crate::handle::DomainHandle;
use crate::lending::lent_mut;
use gt_attached::{AttachedOutcome, EncodedAnswer};
use gt_entry::Entry;
use gt_live::Followed;
use gt_types::{Denial, DomId, GrantRef, Rule};

/// The bytes of an entry: the first 8 or 16. With any other `len` there are none.
#[repr(C)]
#[derive(Clone, Copy)]
pub struct EntryBytes {
    pub len: u64,
    pub bytes: [u8; 16],
}

fn spelled(bytes: &EntryBytes) -> &[u8]
    ensures { result.now ≡ spelled bytes.now }
{
    match bytes.len {
        8 => &bytes.bytes[..8],
        16 => &bytes.bytes,
        _ => &[],
    }
}

fn followed_outcome(answer: Result<Followed, Denial>) -> AttachedOutcome
    ensures { result ≡ outcome_followed answer }
{
    match answer {
        Ok(followed) => AttachedOutcome::Followed(followed),
        Err(denial) => AttachedOutcome::Denied(denial),
    }
}

// These functions make an entry from C's fields.
fn page(to: u16, frame: u64, ro: u32) -> Entry
    ensures { result ≡ page to frame ro }
{
    Entry::Page {
        dom: DomId(to),
        ro: ro != 0,
        frame,
    }
}

fn sub(to: u16, frame: u64, off: u16, len: u16, ro: u32) -> Entry
    ensures { result ≡ sub to frame off len ro }
{
    Entry::Sub {
        dom: DomId(to),
        ro: ro != 0,
        frame,
        off,
        len,
    }
}

fn via(to: u16, dom2: u16, ref2: u32, ro: u32) -> Entry
    ensures { result ≡ via to dom2 ref2 ro }
{
    Entry::Via {
        dom: DomId(to),
        ro: ro != 0,
        dom2: DomId(dom2),
        gref: GrantRef(ref2),
    }
}

// Notes to whom this entry is granted, as the domain has it.
#[inline(always)]
pub(crate) fn note(lent: &mut CDomain, gref: u32)
    ensures { lent.new ≡ noted_at (ref_at gref) lent.old }
{
    let gref = GrantRef(gref);
    let entry = lent.attached.entry_at(gref);
    lent.granted.note(gref, entry);
}

// Grants an entry of the caller. Each kind of grant has the steps for itself: shared ones would take the entry in memory.
#[inline(always)]
fn grant_entry(domain: &mut DomainHandle, gref: u32, entry: Entry) -> EncodedAnswer
    ensures { GrantsEntry gref entry result domain.old.held.value domain.new.held.value }
{
    if let Some(answer) = turned_away(domain) {
        return answer;
    }
    let lent = lent_mut(&mut domain.held);
    let answer = EncodedAnswer::of(done(lent.attached.grant(GrantRef(gref), &entry)));
    note(lent, gref);
    answer
}

/// Grants a page of the caller to a domain, for reading only if `ro` is not 0.
#[unsafe(no_mangle)]
pub extern "C" fn gthost_grant_page_at(
    domain: &mut DomainHandle,
    gref: u32,
    to: u32,
    frame: u64,
    ro: u32,
) -> EncodedAnswer
    ensures { Within16 N1 to result domain.old.held.value domain.new.held.value
        (GrantsPage gref to frame ro result domain.old.held.value domain.new.held.value) }
{
    if to > MOST {
        return refused_number(domain, Rule::N1);
    }
    grant_entry(domain, gref, page(to as u16, frame, ro))
}

/// Grants bytes of a page of the caller to a domain, for copies only.
#[unsafe(no_mangle)]
pub extern "C" fn gthost_grant_sub_at(
    domain: &mut DomainHandle,
    gref: u32,
    to: u32,
    frame: u64,
    off: u32,
    len: u32,
    ro: u32,
) -> EncodedAnswer
    ensures { Within16 N1 to result domain.old.held.value domain.new.held.value
        (Within16 N21 off result domain.old.held.value domain.new.held.value
        (Within16 N21 len result domain.old.held.value domain.new.held.value
        (GrantsSub gref to frame off len ro result domain.old.held.value domain.new.held.value))) }
{
    if to > MOST {
        return refused_number(domain, Rule::N1);
    }
    if off > MOST {
        return refused_number(domain, Rule::N21);
    }
    if len > MOST {
        return refused_number(domain, Rule::N21);
    }
    grant_entry(
        domain,
        gref,
        sub(to as u16, frame, off as u16, len as u16, ro),
    )
}

/// Grants a domain the copies that the entry `ref2` of the domain `dom2` permits the caller.
#[unsafe(no_mangle)]
pub extern "C" fn gthost_grant_via_at(
    domain: &mut DomainHandle,
    gref: u32,
    to: u32,
    dom2: u32,
    ref2: u32,
    ro: u32,
) -> EncodedAnswer
    ensures { Within16 N1 to result domain.old.held.value domain.new.held.value
        (Within16 N1 dom2 result domain.old.held.value domain.new.held.value
        (GrantsVia gref to dom2 ref2 ro result domain.old.held.value domain.new.held.value)) }
{
    if to > MOST {
        return refused_number(domain, Rule::N1);
    }
    if dom2 > MOST {
        return refused_number(domain, Rule::N1);
    }
    grant_entry(domain, gref, via(to as u16, dom2 as u16, ref2, ro))
}

/// Grants the entry that the bytes encode.
#[unsafe(no_mangle)]
pub extern "C" fn gthost_grant_bytes_at(
    domain: &mut DomainHandle,
    gref: u32,
    bytes: EntryBytes,
) -> EncodedAnswer
    ensures { GrantsBytes gref bytes result domain.old.held.value domain.new.held.value }
{
    if let Some(answer) = turned_away(domain) {
        return answer;
    }
    let lent = lent_mut(&mut domain.held);
    let answer = EncodedAnswer::of(done(
        lent.attached.grant_bytes(GrantRef(gref), spelled(&bytes)),
    ));
    note(lent, gref);
    answer
}

/// Brings an entry of the caller to what its guest has written: the bytes are the guest's entry as its memory has them.
#[unsafe(no_mangle)]
pub extern "C" fn gthost_follow_at(
    domain: &mut DomainHandle,
    gref: u32,
    bytes: EntryBytes,
) -> EncodedAnswer
    ensures { FollowsEntryBytes gref bytes result domain.old.held.value domain.new.held.value }
{
    if let Some(answer) = turned_away(domain) {
        return answer;
    }
    let lent = lent_mut(&mut domain.held);
    let followed = lent.attached.follow(GrantRef(gref), spelled(&bytes));
    let answer = EncodedAnswer::of(followed_outcome(followed));
    note(lent, gref);
    answer
}

/// Makes an entry of the caller invalid if it has no pins.
#[unsafe(no_mangle)]
pub extern "C" fn gthost_revoke_at(domain: &mut DomainHandle, gref: u32) -> EncodedAnswer
    ensures { RevokesEntry gref result domain.old.held.value domain.new.held.value }
{
    if let Some(answer) = turned_away(domain) {
        return answer;
    }
    let lent = lent_mut(&mut domain.held);
    EncodedAnswer::of(done(lent.attached.revoke(GrantRef(gref))))
}

/// Makes an entry of the caller invalid, with or without pins.
#[unsafe(no_mangle)]
pub extern "C" fn gthost_withdraw_at(domain: &mut DomainHandle, gref: u32) -> EncodedAnswer
    ensures { WithdrawsEntry gref result domain.old.held.value domain.new.held.value }
{
    if let Some(answer) = turned_away(domain) {
        return answer;
    }
    let lent = lent_mut(&mut domain.held);
    EncodedAnswer::of(done(lent.attached.withdraw(GrantRef(gref))))
}

/// Makes an entry of the caller read-only if it has no write pins.
#[unsafe(no_mangle)]
pub extern "C" fn gthost_demote_at(domain: &mut DomainHandle, gref: u32) -> EncodedAnswer
    ensures { DemotesEntry gref result domain.old.held.value domain.new.held.value }
{
    if let Some(answer) = turned_away(domain) {
        return answer;
    }
    let lent = lent_mut(&mut domain.held);
    EncodedAnswer::of(done(lent.attached.demote(GrantRef(gref))))
}

/// Makes an entry of the caller writable.
#[unsafe(no_mangle)]
pub extern "C" fn gthost_promote_at(domain: &mut DomainHandle, gref: u32) -> EncodedAnswer
    ensures { Promotes gref result domain.old.held.value domain.new.held.value }
{
    if let Some(answer) = turned_away(domain) {
        return answer;
    }
    let lent = lent_mut(&mut domain.held);
    EncodedAnswer::of(done(lent.attached.promote(GrantRef(gref))))
}
