//! The digests by which parts of states are found again.
use crate::actor::{Actor, ActorCall, LabelledMapping};
use crate::parts::PartInState;
use crate::phases::{Digest, mix_held, mix_phase};
use crate::scene::SearchContext;
use gt_calls::{BodyWord, OwnerEntry, PinHolder, Step};
use gt_core::PinCounts;
use gt_explore_state::{SparsePage, SparseTable, TableRow};

// Mixes in what the owner knows of the entries that have a row.
fn mix_own(digest: &mut Digest, own: &[TableRow<OwnerEntry>]) {
    for row in own {
        digest.mix_all(&[1, u64::from(row.gref.0), row.value.idle_word()]);
    }
    digest.mix(0)
}

// Mixes in the pins and body words of the entries that have a row.
fn mix_counts(digest: &mut Digest, counts: &[TableRow<PinCounts>]) {
    for row in counts {
        let pins = u64::from(row.value.reads()) << 32 | u64::from(row.value.writes());
        let first = row.value.body(BodyWord::First);
        let second = row.value.body(BodyWord::Second);
        digest.mix_all(&[1, u64::from(row.gref.0), pins, first, second]);
    }
    digest.mix(0)
}

fn mix_table(digest: &mut Digest, table: &SparseTable) {
    let header = table.header;
    digest.mix_all(&[u64::from(header.version), u64::from(header.frames)]);
    mix_own(digest, table.own.as_slice());
    mix_counts(digest, table.counts.as_slice())
}

// Mixes in the bytes that are not zero, with their places.
fn mix_bytes(digest: &mut Digest, bytes: &[u8]) {
    for (at, byte) in bytes.iter().enumerate() {
        if *byte != 0 {
            digest.mix((at % 65_536) as u64 * 256 + u64::from(*byte));
        }
    }
}

fn mix_mapping(digest: &mut Digest, mapping: &LabelledMapping) {
    if let Some(label) = mapping.label {
        digest.mix(1);
        mix_bytes(digest, label);
    } else {
        digest.mix(0);
    }
    mix_held(digest, &mapping.held)
}

fn mix_mappings(digest: &mut Digest, mappings: &[LabelledMapping]) {
    digest.mix(mappings.len() as u64);
    for mapping in mappings {
        mix_mapping(digest, mapping);
    }
}

// Returns the index of the mapping that a call drops.
fn place_given(open: &ActorCall) -> u64 {
    match open.step {
        Step::Unpin {
            holder: PinHolder::Mapping(handle),
            ..
        } => handle.serial,
        _ => 0,
    }
}

fn mix_open(digest: &mut Digest, open: Option<&ActorCall>) {
    let Some(open) = open else {
        return digest.mix(0);
    };
    digest.mix(if open.task.is_some() { 1 } else { 2 });
    digest.mix(u64::from(open.call.caller.0));
    digest.mix(place_given(open));
    match open.call.phase.as_ref() {
        Some(phase) => mix_phase(digest, phase),
        None => digest.mix(0),
    }
}

fn mix_actor(digest: &mut Digest, actor: &Actor) {
    digest.mix(actor.next as u64);
    mix_mappings(digest, actor.mappings.as_slice());
    mix_open(digest, actor.open.as_ref())
}

// Mixes flags, 64 at a time.
fn mix_flags(digest: &mut Digest, told: &[bool]) {
    for some in told.chunks(64) {
        let mut word = 0;
        for is_raised in some {
            word = word << 1 | u64::from(*is_raised);
        }
        digest.mix(word);
    }
}

fn mix_page(digest: &mut Digest, page: &SparsePage) {
    digest.mix_all(&[u64::from(page.owner.0), page.frame]);
    mix_bytes(digest, page.bytes.as_slice());
}

impl<'s, 'a> SearchContext<'s, 'a> {
    /// Returns a number that is equal for parts that are the same, and rarely for others.
    pub fn digest(&self, part: PartInState<'_, 'a>) -> u64 {
        let mut digest = Digest::new();
        match part {
            PartInState::Flags(told) => mix_flags(&mut digest, told.as_slice()),
            PartInState::Domain(actor) => mix_actor(&mut digest, actor),
            PartInState::Table(table) => mix_table(&mut digest, table),
            PartInState::Page(page) => mix_page(&mut digest, page),
        }
        digest.value
    }
}
