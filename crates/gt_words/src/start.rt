//! The words and the seats of a run at its start.
ghost use Rattle.std.specs.Prelude.{◌≡◌, ℕ, ◌<◌, length, IfOk, HoldsAt};
ghost use Rattle.gt_types.specs.Config.{IsWithinLimits};
ghost use Rattle.gt_words.specs.Answers.{IsNewSeat};
ghost use Rattle.gt_words.specs.Frameless.{IsFrameless};
ghost use Rattle.gt_words.specs.Frames.{KeepsFrame};
ghost use Rattle.gt_shared_table.specs.Words.{HasTable, frames_kept};
ghost use Rattle.gt_types.specs.declared.places.FrameName.{FrameName};
ghost use Rattle.gt_word_history.specs.Places.{IsNewPlace};
ghost use Rattle.gt_word_history.specs.Rule.{layout_of};

use crate::words::{DomainPosition, Seat, Words};
use gt_roster::Positions;
use gt_shared_table::{SharedTable, TableSeat};
use gt_types::{Config, DomainConfig, Memory};
use gt_word_history::first_header;
use std::alloc::{AllocError, Global};

// Makes the seat of the domain at a position, which has made no step. Only the proof uses `words`.
fn new_seat(words: &SharedTable, config: &Config, place: TableSeat, at: usize) -> Seat
    requires config { IsWithinLimits config.now × (at < length config.now.domains.items) }
    requires run { words.now.layout ≡ layout_of config.now }
    requires place { IsNewPlace words.now.table (layout_of config.now) at place }
    ensures { IsNewSeat words.now at result }
{
    let _ = words;
    let domain = config.domains[at];
    let first = DomainPosition {
        dom: config.domains[0].id,
        position: 0,
    };
    Seat {
        place,
        dom: domain.id,
        position: at,
        header: first_header(domain),
        found: first,
        before: first,
    }
}

// Makes the seats of all domains, in order, from the first one.
fn deal_seats(
    alloc: Global,
    words: &SharedTable,
    config: &Config,
    mut first: TableSeat,
) -> Result<Vec<Seat>, AllocError>
    requires config { IsWithinLimits config.now × (words.now.layout ≡ layout_of config.now) }
    requires first { IsNewPlace words.now.table (layout_of config.now) 0 first × (first.view.dealt ≡ 1) }
    ensures count { IfOk result (λ v. length v.items ≡ length config.now.domains.items) }
    ensures seats { IfOk result (λ v. (i : ℕ) → i < length config.now.domains.items
        → HoldsAt (IsNewSeat words.now i) v.items i) }
{
    let count = config.domains.len();
    let mut seats = Vec::with_capacity(alloc, count)?;
    for at in 1..count {
        let place = words.deal(&mut first);
        seats.push(new_seat(words, config, place, at))?;
    }
    seats.insert(0, new_seat(words, config, first, 0))?;
    Ok(seats)
}

// Copies a configuration, with no frames.
fn without_frames(alloc: Global, config: &Config) -> Result<Config, Memory>
    ensures { IfOk result (λ c. IsFrameless config.now c) }
{
    let mut domains = Vec::new(alloc);
    'domains: for domain in &config.domains {
        domains.push(DomainConfig {
            frames: 0,
            ..*domain
        })?;
    }
    Ok(Config {
        domains,
        first_gen: config.first_gen,
    })
}

/// Makes the words and the seats of `config`, which is within the limits, with the frames of `framed`. The two are the
/// same except for the numbers of frames.
pub(crate) fn make_words(
    alloc: Global,
    config: &Config,
    framed: &Config,
    flags: u32,
) -> Result<(Words, Vec<Seat>), Memory>
    requires limits { IsWithinLimits config.now }
    requires table { HasTable framed.now }
    requires same { layout_of framed.now ≡ layout_of config.now }
    ensures words { IfOk result (λ r. r.0.layout ≡ layout_of config.now) }
    ensures frames { IfOk result (λ r. r.0.frames ≡ frames_kept framed.now) }
    ensures flags { IfOk result (λ r. r.0.flags ≡ flags) }
    ensures count { IfOk result (λ r. length r.1.items ≡ length config.now.domains.items) }
    ensures seats { IfOk result (λ r. (i : ℕ) → i < length config.now.domains.items
        → HoldsAt (IsNewSeat r.0 i) r.1.items i) }
{
    let (words, first) = SharedTable::new(alloc, framed, flags)?;
    let ids = Positions::new(alloc, config)?;
    let seats = deal_seats(alloc, &words, config, first)?;
    Ok((Words { words, ids }, seats))
}

/// Makes the words and the seats of a configuration within the limits, without frames.
pub(crate) fn make_without_frames(
    alloc: Global,
    config: &Config,
) -> Result<(Words, Vec<Seat>), Memory>
    requires { IsWithinLimits config.now }
    ensures words { IfOk result (λ r. r.0.layout ≡ layout_of config.now) }
    ensures frames { IfOk result (λ r. (name : FrameName) → KeepsFrame r.0 name → ⊥) }
    ensures count { IfOk result (λ r. length r.1.items ≡ length config.now.domains.items) }
    ensures seats { IfOk result (λ r. (i : ℕ) → i < length config.now.domains.items
        → HoldsAt (IsNewSeat r.0 i) r.1.items i) }
{
    let frameless = without_frames(alloc, config)?;
    make_words(alloc, config, &frameless, 0)
}
