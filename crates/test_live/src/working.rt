//! The parts of domains that run at the same time, each in its own thread.
use gt_calls::{CopyArgs, End};
use gt_entry::{Control, Entry, EntryKind};
use gt_types::{DOMID_SELF, Denial, DomId, Facts, GrantRef, Memory, Rule};
use std::alloc::{AllocError, Global};
use std::sync::Wait;
use std::thread::{self, Threads};
use test_monitor::{Calls, READ_ONLY, TestCall, TestReply, WRITABLE};
use test_rows::{copy, end};

/// The number of bytes of one access.
pub const LEN: u16 = 64;

/// The number of bytes of a page.
pub const PAGE_LEN: u16 = 4096;

// A copy of the whole page of entry 0 of domain 1.
const TAKE: TestCall<'static> = fetch!(1, 0, 0, 3, 0, PAGE_LEN);

// Copies of the page to which the entries 0 and 1 of domain 2 lead, which are transitive.
const FOLLOWS: [TestCall<'static>; 2] = [fetch!(2, 0, 0, 3, 0, LEN), fetch!(2, 1, 0, 3, 0, LEN)];

/// The owner's knowledge of its entry, from its own calls.
#[derive(Clone, Copy)]
pub struct Kept {
    valid: bool,
    ro: bool,
    generation: u32,
}

/// Its knowledge at the start.
pub const UNUSED: Kept = Kept {
    valid: false,
    ro: false,
    generation: 0,
};

/// A call that writes equal bytes, and one that reads as many, which must be equal.
#[derive(Clone, Copy)]
pub struct Access {
    pub write: TestCall<'static>,
    pub read: TestCall<'static>,
}

/// The part of a domain, round by round.
#[derive(Clone, Copy)]
pub enum Part {
    /// Grants its entry 0 to domain 2, and revokes it once it is not in use.
    Lends,
    /// Maps the entry 0 of domain 1 and unmaps it. The map may be refused if that entry is not granted.
    Borrows,
    /// Grants, demotes, promotes and revokes by turns its entry 0, which names domain 3, and its entry 1, for domain 4.
    Owns { first: Kept, second: Kept },
    /// Maps this entry of the domains 1 and 2 by turns, for reading and for writing.
    Maps(u32),
    /// Grants its entry 0 to domain 2 and revokes it.
    Toggles(Kept),
    /// Maps the entry 0 of domain 1 for reading and unmaps it.
    Churns,
    /// Grants its entry 0 to domain 2, the frames 5 and 6 by turns, and withdraws it.
    Withdraws(Kept),
    /// The same, with a revocation instead.
    Revokes(Kept),
    /// Copies the page of entry 0 of domain 1, and checks all bytes.
    Takes,
    /// Grants and revokes by turns its entry 0, for domain 3, and its entry 1, for domain 4. Both lead to entry 0 of
    /// domain 1.
    Forwards { first: Kept, second: Kept },
    /// Copies from the page to which this entry of domain 2 leads.
    Follows(usize),
    Accesses(Access),
}

/// A domain in a thread, and whether all its calls so far were answered as the rules allow.
#[derive(Drop)]
struct Worker<D: Calls + Drop> {
    domain: D,
    part: Part,
    rounds: u32,
    fair: bool,
}

fn page(dom: u16, ro: bool) -> Entry {
    Entry::Page {
        dom: DomId(dom),
        ro,
        frame: 5,
    }
}

// Returns a transitive entry for this domain that leads to entry 0 of domain 1.
fn via(dom: u16) -> Entry {
    Entry::Via {
        dom: DomId(dom),
        ro: false,
        dom2: DomId(1),
        gref: GrantRef(0),
    }
}

// Returns the page entry of this frame, for domain 2 to read.
fn page_of(frame: u64) -> Entry {
    Entry::Page {
        dom: DomId(2),
        ro: true,
        frame,
    }
}

// Returns the control of the word in a refusal, if that is an entry's.
fn control_of(denial: Denial) -> Option<Control> {
    match denial.facts {
        Facts::Entry { word, .. } => Some(Control::unpack(word)),
        _ => None,
    }
}

// Returns whether the word in the refusal fits its rule.
fn stands(denial: Denial) -> bool {
    let Some(control) = control_of(denial) else {
        return false;
    };
    match denial.rule {
        Rule::N10 => control.kind == EntryKind::Invalid
            && control.reads == 0
            && control.writes == 0,
        Rule::N13 => control.kind == EntryKind::Page && control.ro,
        Rule::N19 => control.kind != EntryKind::Invalid
            && (control.reads > 0 || control.writes > 0),
        Rule::N18 => true,
        _ => false,
    }
}

// Returns whether the refusal is by one of these two rules, with a word that fits it.
fn stands_by(denial: Denial, one: Rule, other: Rule) -> bool {
    (denial.rule == one || denial.rule == other) && stands(denial)
}

// Returns whether the call is Ok, or refused by one of these two rules with a word that fits it.
fn is_fair(answer: Result<(), Denial>, one: Rule, other: Rule) -> bool {
    match answer {
        Ok(()) => true,
        Err(denial) => stands_by(denial, one, other),
    }
}

fn lend<D: Calls>(domain: &mut D) -> bool {
    if domain.grant(0, &page(2, true)).is_err() {
        return false;
    }
    for _ in 0..u64::MAX {
        if domain.revoke(0).is_ok() {
            return true;
        }
    }
    false
}

fn borrow<D: Calls>(domain: &mut D) -> bool {
    match domain.map(1, 0, READ_ONLY) {
        Ok(()) => domain.unmap().is_ok(),
        Err(denial) => denial.rule == Rule::N10 || denial.rule == Rule::N18,
    }
}

// Grants an entry if it is not granted, and updates what the owner knows.
fn grant_once<D: Calls>(domain: &mut D, gref: u32, entry: &Entry, kept: &mut Kept) -> bool {
    let was_valid = kept.valid;
    let granted = domain.grant(gref, entry).is_ok();
    if granted {
        *kept = Kept {
            valid: true,
            ro: false,
            generation: kept.generation.saturating_add(1),
        };
    }
    granted != was_valid
}

// Revokes an entry, and updates what the owner knows.
fn revoke_once<D: Calls>(domain: &mut D, gref: u32, kept: &mut Kept) -> bool {
    let revoked = domain.revoke(gref);
    if revoked.is_ok() {
        kept.valid = false;
    }
    is_fair(revoked, Rule::N19, Rule::N19)
}

// Demotes an entry and promotes it again.
fn turn_once<D: Calls>(domain: &mut D, gref: u32, kept: &mut Kept) -> bool {
    let demoted = domain.demote(gref);
    if demoted.is_ok() && !kept.ro {
        kept.ro = true;
        kept.generation = kept.generation.saturating_add(1);
    }
    let promoted = domain.promote(gref);
    if promoted.is_ok() && kept.ro {
        kept.ro = false;
        kept.generation = kept.generation.saturating_add(1);
    }
    is_fair(demoted, Rule::N18, Rule::N19) && is_fair(promoted, Rule::N18, Rule::N18)
}

// Makes one round of an owner: its entry is granted if it is not, demoted, promoted, and revoked.
fn own_once<D: Calls>(domain: &mut D, gref: u32, named: u16, kept: &mut Kept) -> bool {
    let granted = grant_once(domain, gref, &page(named, false), kept);
    let turned = turn_once(domain, gref, kept);
    let revoked = revoke_once(domain, gref, kept);
    granted && turned && revoked
}

// Makes one round of a mapper.
fn map_once<D: Calls>(domain: &mut D, owner: u16, gref: u32, flags: u32) -> bool {
    match domain.map(owner, gref, flags) {
        Ok(()) => domain.unmap().is_ok(),
        Err(denial) => match denial.rule {
            Rule::N10 | Rule::N18 => stands(denial),
            Rule::N13 => flags == WRITABLE && stands(denial),
            _ => false,
        },
    }
}

// Returns whether the refusal carries the word of a withdrawn entry that still has read pins.
fn finds_old_pins(denial: Denial) -> bool {
    match control_of(denial) {
        Some(control) => control.kind == EntryKind::Invalid && control.reads > 0,
        None => false,
    }
}

// Grants the frame if the entry is not granted. The grant may be refused for the pins that a withdrawal left.
fn grant_frame<D: Calls>(domain: &mut D, frame: u64, kept: &mut Kept) -> bool {
    match domain.grant(0, &page_of(frame)) {
        Ok(()) => {
            let fair = !kept.valid;
            *kept = Kept {
                valid: true,
                ro: true,
                generation: kept.generation.saturating_add(1),
            };
            fair
        }
        Err(denial) => match denial.rule {
            Rule::N19 => !kept.valid && finds_old_pins(denial),
            Rule::N20 => kept.valid,
            _ => false,
        },
    }
}

// Withdraws the entry. It may be refused if the entry is not granted, or if each of four tries met other pins.
fn withdraw_once<D: Calls>(domain: &mut D, kept: &mut Kept) -> bool {
    match domain.withdraw(0) {
        Ok(()) => {
            let fair = kept.valid;
            kept.valid = false;
            fair
        }
        Err(denial) => match denial.rule {
            Rule::N10 => !kept.valid,
            Rule::N18 => kept.valid && stands(denial),
            _ => false,
        },
    }
}

// Returns the byte to which all bytes read are equal, if they are equal and this many: so no write came in between.
fn byte_of(said: &TestReply, len: u16) -> Option<u8> {
    let TestReply::Bytes(bytes) = said else {
        return None;
    };
    let Some(first) = bytes.first() else {
        return None;
    };
    'bytes: for byte in bytes.iter() {
        if byte != first {
            return None;
        }
    }
    if bytes.len() == usize::from(len) {
        Some(*first)
    } else {
        None
    }
}

// Returns whether these are the bytes of a whole page as its owner wrote it: the page is not torn.
fn is_whole(said: &TestReply) -> bool {
    matches!(byte_of(said, PAGE_LEN), Some(0x55 | 0x66))
}

// Makes one round of a domain that copies a page which its owner may withdraw.
fn take_once<R: Wait, D: Calls>(rt: &R, domain: &mut D) -> bool {
    match domain.ask(rt, TAKE) {
        TestReply::Done => is_whole(&domain.ask(rt, TestCall::Peek(3, 0, PAGE_LEN))),
        TestReply::Denied(denial) => stands_by(denial, Rule::N10, Rule::N18),
        _ => false,
    }
}

// Makes one round of a domain with transitive entries: one of them is granted if it is not, and revoked.
fn forward_once<D: Calls>(domain: &mut D, gref: u32, named: u16, kept: &mut Kept) -> bool {
    let granted = grant_once(domain, gref, &via(named), kept);
    revoke_once(domain, gref, kept) && granted
}

// Makes one round of a domain that copies through a transitive entry. Either of the two entries may then be invalid, or
// change its pins in each try.
fn follow_once<R: Wait, D: Calls>(rt: &R, domain: &mut D, asks: TestCall<'_>) -> bool {
    match domain.ask(rt, asks) {
        TestReply::Done => true,
        TestReply::Denied(denial) => stands_by(denial, Rule::N10, Rule::N18),
        _ => false,
    }
}

fn access_once<R: Wait, D: Calls>(rt: &R, domain: &mut D, access: Access) -> bool {
    let wrote = matches!(domain.ask(rt, access.write), TestReply::Done);
    byte_of(&domain.ask(rt, access.read), LEN).is_some() && wrote
}

// Makes one round of a domain, and returns whether its answers are allowed by the rules.
fn round_of<R: Wait, D: Calls>(rt: &R, domain: &mut D, part: &mut Part, round: u32) -> bool {
    let odd = round % 2 == 1;
    match part {
        Part::Lends => lend(domain),
        Part::Borrows => borrow(domain),
        Part::Owns { second, .. } if odd => own_once(domain, 1, 4, second),
        Part::Owns { first, .. } => own_once(domain, 0, 3, first),
        Part::Maps(gref) => {
            let flags = if round % 4 < 2 { READ_ONLY } else { WRITABLE };
            map_once(domain, if odd { 2 } else { 1 }, *gref, flags)
        }
        Part::Toggles(kept) => {
            let granted = grant_once(domain, 0, &page(2, false), kept);
            revoke_once(domain, 0, kept) && granted
        }
        Part::Churns => map_once(domain, 1, 0, READ_ONLY),
        Part::Withdraws(kept) => {
            let granted = grant_frame(domain, if odd { 6 } else { 5 }, kept);
            withdraw_once(domain, kept) && granted
        }
        Part::Revokes(kept) => {
            let granted = grant_once(domain, 0, &page_of(if odd { 6 } else { 5 }), kept);
            revoke_once(domain, 0, kept) && granted
        }
        Part::Takes => take_once(rt, domain),
        Part::Forwards { second, .. } if odd => forward_once(domain, 1, 4, second),
        Part::Forwards { first, .. } => forward_once(domain, 0, 3, first),
        Part::Follows(gref) => follow_once(rt, domain, FOLLOWS[*gref % 2]),
        Part::Accesses(access) => access_once(rt, domain, *access),
    }
}

fn work<R: Wait, D: Calls + Drop>(rt: &R, worker: Worker<D>) -> Worker<D> {
    let Worker {
        mut domain,
        mut part,
        rounds,
        mut fair,
    } = worker;
    'rounds: for round in 0..rounds {
        fair = round_of(rt, &mut domain, &mut part, round) && fair;
    }
    Worker {
        domain,
        part,
        rounds,
        fair,
    }
}

// Runs all of them, each in its own thread.
fn at_once<D: Calls + Send + Drop, R: Threads + Wait + Sync>(
    rt: &R,
    workers: Vec<Worker<D>>,
) -> Result<Vec<Worker<D>>, AllocError> {
    thread::map_vec(rt, workers, &|worker| work(rt, worker))
}

// Returns what the owner knows of this entry.
fn kept_of(part: Part, gref: u32) -> Kept {
    match part {
        Part::Owns { first, second } | Part::Forwards { first, second } => {
            if gref == 0 { first } else { second }
        }
        Part::Toggles(kept) | Part::Revokes(kept) | Part::Withdraws(kept) => kept,
        _ => UNUSED,
    }
}

// Returns whether a map is refused by the word of an entry that is invalid and has no pins, at this generation.
fn finds_idle<D: Calls>(mapper: &mut D, dom: u16, gref: u32, generation: u32) -> bool {
    let idle = Control {
        kind: EntryKind::Invalid,
        ro: false,
        reads: 0,
        writes: 0,
        dom: DomId(0),
        generation,
    };
    match mapper.map(dom, gref, READ_ONLY) {
        Err(denial) => denial.rule == Rule::N10 && control_of(denial) == Some(idle),
        Ok(()) => false,
    }
}

/// An entry that the threads leave: the indices of its owner and of a domain that may map it, the owner's number, and
/// its reference.
pub type Behind = (usize, usize, u16, u32);

// Returns whether the entry is idle at the generation that its owner counts, once the owner has revoked it, and can
// then be granted again.
fn is_idle<D: Calls + Drop>(workers: &mut [Worker<D>], behind: Behind) -> bool {
    let (owner, mapper, dom, gref) = behind;
    let Some(one) = workers.get_mut(owner) else {
        return false;
    };
    let kept = kept_of(one.part, gref);
    let taken_back = match one.part {
        Part::Withdraws(_) => one.domain.withdraw(gref),
        _ => one.domain.revoke(gref),
    };
    if taken_back.is_ok() != kept.valid {
        return false;
    }
    let idle = match workers.get_mut(mapper) {
        Some(other) => finds_idle(&mut other.domain, dom, gref, kept.generation),
        None => false,
    };
    match workers.get_mut(owner) {
        Some(one) => one.domain.grant(gref, &page_of(5)).is_ok() && idle,
        None => false,
    }
}

/// Lets the domains do their parts, each in its own thread, for this number of rounds. Returns whether all calls were
/// answered as the rules allow, and these entries are then idle.
pub fn work_at_once<D: Calls + Send + Drop, R: Threads + Wait + Sync>(
    rt: &R,
    alloc: Global,
    domains: Vec<D>,
    parts: &[(Part, u32)],
    behind: &[Behind],
) -> Result<bool, Memory> {
    let mut domains = domains;
    let mut workers = Vec::new(alloc);
    'parts: for (part, rounds) in parts.iter().rev() {
        if let Some(domain) = domains.pop() {
            workers.push(Worker {
                domain,
                part: *part,
                rounds: *rounds,
                fair: true,
            })?;
        }
    }
    workers.reverse();
    let mut workers = at_once(rt, workers)?;
    let mut fair = workers.len() == parts.len();
    'workers: for worker in workers.iter() {
        fair = worker.fair && fair;
    }
    'behind: for entry in behind.iter() {
        fair = is_idle(workers.as_mut_slice(), *entry) && fair;
    }
    Ok(fair)
}
