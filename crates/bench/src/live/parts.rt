//! The parts of the threads.
use crate::extent::{MIDDLE, MOST, OWNER};
use crate::live::audit::{Audit, record_calls};
use gt_audit::Trail;
use gt_calls::{CopyArgs, End};
use gt_entry::Entry;
use gt_types::{DOMID_SELF, DomId, GrantRef, LAST_GENERATION};
use std::alloc::Global;
use std::sync::Wait;
use test_monitor::{Calls, READ_ONLY, WRITABLE};

/// The entry of the first mapper.
const FIRST: u32 = 64;

/// The first of the domains that map; the others follow it.
const FIRST_MAPPER: u16 = 3;

/// The number of rounds after which records are taken.
const BEFORE_TAKEN: u32 = 128;

/// The bytes before and behind a thread's buffer that nothing uses: two cache lines, since a processor fetches them in
/// pairs.
const UNUSED: usize = 128;

/// This number of entries, starting at the first, with this distance.
#[derive(Clone, Copy)]
pub(crate) struct Spread {
    pub count: u32,
    pub stride: u32,
}

impl Spread {
    /// Returns the entry at this index, cyclically, and the domain that maps it.
    pub fn at(self, place: u64) -> (u32, DomId) {
        let place = if self.count == 0 {
            0
        } else {
            (place % u64::from(self.count)) as u32 % MOST
        };
        let gref = FIRST + place * (self.stride % 256);
        (gref, DomId(FIRST_MAPPER + place as u16))
    }
}

/// The work of the threads on bytes.
#[derive(Clone, Copy)]
pub(crate) enum Moves {
    /// Loads into a buffer of the thread's.
    Loads,
    /// Loads into fresh memory.
    Fresh,
    Stores,
    Copies,
    /// Copies through a transitive entry at each end.
    Forwards,
}

/// Accesses to bytes: by the entry of this reference, this number of bytes at a time.
#[derive(Clone, Copy)]
pub(crate) struct Accesses {
    pub moves: Moves,
    pub gref: u32,
    pub len: u16,
}

/// The part of a domain, with the entries that it maps or grants.
#[derive(Clone, Copy)]
pub(crate) enum Part {
    Maps(u32),
    Grants(Spread),
    Withdraws(Spread),
    Turns(Spread),
    Moves(Accesses),
}

#[derive(Drop)]
pub(crate) struct Worker<D: Calls + Drop> {
    pub domain: D,
    pub part: Part,
}

/// Returns a page entry for the domain, writable, with this frame.
pub(crate) fn page(dom: DomId, frame: u64) -> Entry {
    Entry::Page {
        dom,
        ro: false,
        frame,
    }
}

// Revokes the entries and grants them again by turns, this number of times, each time with as many tries as it takes.
// Returns how often it did: fewer times if the entries reach their last generation.
fn revoke_and_grant<D: Calls>(owner: &mut D, spread: Spread, rounds: u32) -> u32 {
    let mut done = 0;
    'rounds: for turn in 0..u64::MAX {
        if done >= rounds || done >= LAST_GENERATION - 1 {
            break;
        }
        let (gref, dom) = spread.at(turn);
        if owner.revoke(gref).is_ok() && owner.grant(gref, &page(dom, 5)).is_ok() {
            done += 1;
        }
    }
    done
}

// Withdraws the entries by turns, and grants each again once it has no pin, this number of times, each time with as
// many tries as it takes. Returns how often it did: fewer times if the entries reach their last generation.
fn withdraw_and_grant<D: Calls>(owner: &mut D, spread: Spread, rounds: u32) -> u32 {
    let mut done = 0;
    let mut withdrawn = false;
    'rounds: for _ in 0..u64::MAX {
        if done >= rounds || done >= LAST_GENERATION - 1 {
            break;
        }
        let (gref, dom) = spread.at(u64::from(done));
        if !withdrawn {
            withdrawn = owner.withdraw(gref).is_ok();
        } else if owner.grant(gref, &page(dom, 5)).is_ok() {
            withdrawn = false;
            done += 1;
        }
    }
    done
}

// Demotes and promotes the entries by turns, this number of times. Returns how often both were done.
fn demote_and_promote<D: Calls>(owner: &mut D, spread: Spread, rounds: u32) -> u32 {
    let mut done = 0u32;
    'rounds: for round in 0..rounds {
        let (gref, _) = spread.at(u64::from(round));
        if owner.demote(gref).is_ok() && owner.promote(gref).is_ok() {
            done = done.saturating_add(1);
        }
    }
    done
}

// Maps an entry and unmaps it, this number of times, each time with as many tries as it takes. If the mapping stays, maps
// it once and returns 1, or 0 if that was refused. It is the one place that maps, so that the compiler inlines the call, as
// it does in the programs in C.
fn map_and_unmap<D: Calls>(domain: &mut D, gref: u32, flags: u32, stays: bool, rounds: u32) -> u32 {
    let mut done = 0;
    'rounds: for _ in 0..u64::MAX {
        if done >= rounds {
            break;
        }
        let mapped = domain.map(OWNER.0, gref, flags).is_ok();
        if stays {
            return u32::from(mapped);
        }
        if mapped && domain.unmap().is_ok() {
            done += 1;
        }
    }
    done
}

// Does the same in parts, after each of which the records are taken.
fn map_and_take<D: Calls>(alloc: Global, domain: &mut D, gref: u32, rounds: u32) -> u32 {
    let mut done: u32 = 0;
    let mut taken = Trail::new(alloc);
    'parts: for _ in 0..u64::MAX {
        let left = rounds.saturating_sub(done);
        if left == 0 {
            break;
        }
        let part = map_and_unmap(domain, gref, READ_ONLY, false, left.min(BEFORE_TAKEN));
        taken = domain.take_records(taken);
        done = done.saturating_add(part);
    }
    done
}

// Returns the copy that a thread makes: from the owner's page to a frame of the thread's domain, or from one page of
// the owner's to another, through two entries of the middle domain.
fn copy_of(accesses: Accesses) -> CopyArgs {
    let Accesses { moves, gref, len } = accesses;
    let forwards = matches!(moves, Moves::Forwards);
    let dest = gref.saturating_add(MOST);
    CopyArgs {
        source: End {
            ptr: u64::from(gref),
            domid: if forwards { MIDDLE } else { OWNER },
            offset: 0,
        },
        dest: End {
            ptr: if forwards { u64::from(dest) } else { 0 },
            domid: if forwards { MIDDLE } else { DomId(DOMID_SELF) },
            offset: 0,
        },
        len,
        flags: if forwards { 3 } else { 1 },
    }
}

// Loads over the buffer this number of times. Returns how many loads were done. Each kind of access has a loop of its
// own, so that no loop has registers for the others.
fn load_often<R: Wait, D: Calls>(rt: &R, domain: &mut D, buffer: &mut [u8], rounds: u32) -> u32 {
    let mut done = 0u32;
    'rounds: for _ in 0..rounds {
        if domain.load_into(rt, 0, buffer).is_ok() {
            done = done.saturating_add(1);
        }
    }
    done
}

// The same into fresh memory.
fn load_fresh_often<R: Wait, D: Calls>(rt: &R, domain: &mut D, len: u16, rounds: u32) -> u32 {
    let mut done = 0u32;
    'rounds: for _ in 0..rounds {
        if domain.load(rt, 0, len).is_ok() {
            done = done.saturating_add(1);
        }
    }
    done
}

// Stores the buffer's bytes this number of times. Returns how many stores were done.
fn store_often<R: Wait, D: Calls>(rt: &R, domain: &mut D, buffer: &[u8], rounds: u32) -> u32 {
    let mut done = 0u32;
    'rounds: for _ in 0..rounds {
        if domain.store(rt, 0, buffer).is_ok() {
            done = done.saturating_add(1);
        }
    }
    done
}

// Copies this number of times. Returns how many copies were done.
fn copy_often<R: Wait, D: Calls>(rt: &R, domain: &mut D, copy: &CopyArgs, rounds: u32) -> u32 {
    let mut done = 0u32;
    'rounds: for _ in 0..rounds {
        if domain.copy(rt, copy).is_ok() {
            done = done.saturating_add(1);
        }
    }
    done
}

// Makes this number of accesses. Returns how many were done.
fn move_often<R: Wait, D: Calls>(
    rt: &R,
    domain: &mut D,
    moves: Moves,
    copy: &CopyArgs,
    buffer: &mut [u8],
    rounds: u32,
) -> u32 {
    match moves {
        Moves::Loads => load_often(rt, domain, buffer, rounds),
        Moves::Fresh => load_fresh_often(rt, domain, copy.len, rounds),
        Moves::Stores => store_often(rt, domain, buffer, rounds),
        Moves::Copies | Moves::Forwards => copy_often(rt, domain, copy, rounds),
    }
}

// Does the same with a buffer that only the thread uses, and that lies in no cache line of another one's. Loads and
// stores go through a mapping. If the records are taken, they are taken after each part of the accesses.
fn move_bytes<R: Wait, D: Calls>(
    rt: &R,
    alloc: Global,
    domain: &mut D,
    accesses: Accesses,
    audit: Audit,
    rounds: u32,
) -> u32 {
    let Accesses { moves, gref, len } = accesses;
    let end = UNUSED + usize::from(len);
    let Ok(mut block) = vec![in alloc; 0x5au8; end + UNUSED] else {
        return 0;
    };
    let buffer = &mut block.as_mut_slice()[UNUSED..end];
    let maps = !matches!(moves, Moves::Copies | Moves::Forwards);
    if maps && map_and_unmap(domain, gref, WRITABLE, true, 1) == 0 {
        return 0;
    }
    let copy = copy_of(accesses);
    let takes = matches!(audit, Audit::Taken);
    let at_once = if takes { BEFORE_TAKEN } else { rounds };
    let mut taken = Trail::new(alloc);
    let (mut left, mut done) = (rounds, 0u32);
    'parts: for _ in 0..rounds {
        let part = left.min(at_once);
        if part == 0 {
            break;
        }
        left -= part;
        done = done.saturating_add(move_often(rt, domain, moves, &copy, buffer, part));
        if takes {
            taken = domain.take_records(taken);
        }
    }
    done
}

/// Does the part of a worker for this number of rounds. Returns how many were done.
pub(crate) fn work<R: Wait, D: Calls + Drop>(
    rt: &R,
    alloc: Global,
    worker: Worker<D>,
    audit: Audit,
    rounds: u32,
) -> u32 {
    let Worker { mut domain, part } = worker;
    let domain = &mut domain;
    if !record_calls(domain, audit) {
        return 0;
    }
    match part {
        Part::Maps(gref) if matches!(audit, Audit::Taken) => map_and_take(
            alloc, domain, gref, rounds,
        ),
        Part::Maps(gref) => map_and_unmap(domain, gref, READ_ONLY, false, rounds),
        Part::Grants(spread) => revoke_and_grant(domain, spread, rounds),
        Part::Withdraws(spread) => withdraw_and_grant(domain, spread, rounds),
        Part::Turns(spread) => demote_and_promote(domain, spread, rounds),
        Part::Moves(accesses) => move_bytes(rt, alloc, domain, accesses, audit, rounds),
    }
}
