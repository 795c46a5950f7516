//! The table and its first seat at the start.
ghost use Rattle.std.specs.Prelude.{◌≡◌, ℕ, ◌+◌, ◌*◌, ◌%◌, ◌<◌, ◌≤◌, [], length, slice_index, IfOk};
ghost use Rattle.gt_word_history.specs.History.{initial};
ghost use Rattle.gt_word_history.specs.Places.{first_view};
ghost use Rattle.gt_word_history.specs.Rule.{layout_of};
ghost use Rattle.gt_shared_table.specs.Words.{HasTable, frames_kept};

use crate::slots::{LOCK_WORDS, first_slots, frames_kept, in_slots};
use crate::table::{SharedTable, TableSeat};
use atomic_table::{Refused, Table};
use gt_entry::Entry;
use gt_frames::{frame_counts, frames_of_zeros};
use gt_types::{Config, Memory};
use gt_word_history::{DOMAIN_ROWS, DOMAIN_WORDS, ENTRY_WORDS, first_header, idle_word};
use std::alloc::{AllocError, Global};

// Returns the first word of a row: the header of its domain, or the control word of an invalid entry.
fn first_word(config: &Config, at: usize) -> u64
    requires { HasTable config.now × (at < length config.now.domains.items * DOMAIN_WORDS)
        × (at % ENTRY_WORDS ≡ 0) }
    ensures { result ≡ initial (layout_of config.now) at }
{
    if at % DOMAIN_WORDS == 0 {
        first_header(config.domains[at / DOMAIN_WORDS]).pack()
    } else {
        idle_word(Entry::Invalid, config.first_gen)
    }
}

// Makes the words at the start: each header as configured, each entry invalid at the first generation, a free lock for
// each frame, and flags that are not raised.
fn first_words(
    alloc: Global,
    config: &Config,
    frames: usize,
    flags: u32,
) -> Result<Vec<u64>, AllocError>
    requires config { HasTable config.now }
    requires frames { frames ≤ 4096 }
    ensures many { IfOk result (λ v. length v.items
        ≡ length config.now.domains.items * DOMAIN_WORDS + 8 * frames + flags) }
    ensures words { IfOk result (λ v. (i : ℕ) → i < length config.now.domains.items * DOMAIN_WORDS
        → slice_index v.items i ≡ initial (layout_of config.now) i) }
    ensures zeros { IfOk result (λ v. (i : ℕ) → length config.now.domains.items * DOMAIN_WORDS ≤ i → i < length v.items
        → slice_index v.items i ≡ 0) }
{
    let count = config.domains.len() * DOMAIN_WORDS + frames * LOCK_WORDS + flags as usize;
    let mut words = vec![in alloc; 0; count]?;
    for row in 0..config.domains.len() * DOMAIN_ROWS {
        words[row * ENTRY_WORDS] = first_word(config, row * ENTRY_WORDS);
    }
    Ok(words)
}

impl SharedTable {
    /// Makes the table of a run and its first seat. All entries are invalid, at the first generation, all frames are
    /// zeros, and none of the flags is raised. A domain may have no frame in the table.
    ///
    /// # Errors
    /// `Memory`.
    pub fn new(
        alloc: Global,
        config: &Config,
        flags: u32,
    ) -> Result<(SharedTable, TableSeat), Memory>
        requires { HasTable config.now }
        ensures run { IfOk result (λ r. r.0.layout ≡ layout_of config.now) }
        ensures frames { IfOk result (λ r. r.0.frames ≡ frames_kept config.now) }
        ensures flags { IfOk result (λ r. r.0.flags ≡ flags) }
        ensures seat { IfOk result (λ r. r.1
            ≡ record { table = r.0.table; view = first_view (layout_of config.now); locks = [] }) }
    {
        let firsts = first_slots(alloc, config)?;
        let frames = frames_kept(alloc, config)?;
        let counts = frame_counts(alloc, config)?;
        let slots = in_slots(alloc, frames_of_zeros(alloc, &counts)?)?;
        let words = first_words(alloc, config, slots.len(), flags)?;
        let first_flag = config.domains.len() * DOMAIN_WORDS + slots.len() * LOCK_WORDS;
        match Table::new(alloc, &words, slots, config) {
            Ok((table, seat)) => Ok((
                SharedTable {
                    table,
                    firsts,
                    frames,
                    first_flag,
                    flags,
                },
                TableSeat { seat },
            )),
            Err(Refused { .. }) => Err(Memory),
        }
    }
}
