//! The start of a run.
ghost use Rattle.std.specs.Prelude.{◌≡◌, ◌+◌, ◌<◌, ◌≤◌, ℕ, length, replicate, All, HoldsAt, IfOk, IfErr, OnOk};
ghost use Rattle.gt_types.specs.Config.{IsWithinLimits};
ghost use Rattle.gt_word_history.specs.Rule.{layout_of};
ghost use Rattle.gt_words.specs.Answers.{IsNewSeat, IsStartFault};
ghost use Rattle.gt_roster.specs.Frameless.{IsFramelessFault, IsRunnable};
ghost use Rattle.gt_live.specs.Starting.{first_rows, IsNewDomain};
ghost use Rattle.gt_shared_table.specs.Words.{frames_kept};
ghost use Rattle.gt_types.specs.declared.places.FrameName.{FrameName};
ghost use Rattle.gt_words.specs.Frames.{KeepsFrame};
ghost use Rattle.gt_live.specs.Parts.{config_of, rights_of, words_of};

use crate::domain::Domain;
use crate::monitor::Monitor;
use gt_audit::Trail;
use gt_calls::{ENTRIES, Handles, OwnerEntry};
use gt_roster::{
    Roster, every_configuration_within_limits_is_runnable, one_frame_is_enough, with_one_frame,
};
use gt_types::{Allows, Config, StartFault};
use gt_words::{Seat, Words};
use std::alloc::{AllocError, Global};

// Makes the rows of a domain at the start.
#[tactic(auto, unfolding(crate::specs::Starting::first_rows))]
fn first_rows(alloc: Global, first_gen: u32) -> Result<Vec<OwnerEntry>, AllocError>
    requires { first_gen < 1048576 }
    ensures { IfOk result (λ v. v.items ≡ first_rows first_gen) }
{
    let mut rows = Vec::new(alloc);
    rows.resize(ENTRIES, OwnerEntry::new(first_gen))?;
    Ok(rows)
}

// Makes the rows of this number of domains.
fn all_rows(alloc: Global, first_gen: u32, count: usize) -> Result<Vec<Vec<OwnerEntry>>, AllocError>
    requires first { first_gen < 1048576 }
    ensures count { IfOk result (λ v. length v.items ≡ count) }
    ensures rows { IfOk result (λ v. All (λ w. w.items ≡ first_rows first_gen) v.items) }
{
    let mut all = Vec::new(alloc);
    'rows: for at in 0..count {
        all.push(first_rows(alloc, first_gen)?)?;
    }
    Ok(all)
}

// Makes a domain for each seat, in order.
fn make_domains<P: Allows>(
    alloc: Global,
    monitor: &Monitor<P>,
    mut seats: Vec<Seat>,
    first_gen: u32,
) -> Result<Vec<Domain>, AllocError>
    requires config { IsRunnable monitor.now.config }
    requires first { first_gen ≡ monitor.now.config.first_gen }
    requires count { length seats.items ≡ length monitor.now.config.domains.items }
    requires seats { (i : ℕ) → i < length monitor.now.config.domains.items
        → HoldsAt (λ s. IsNewSeat monitor.now.words i s) seats.items i }
    ensures count { IfOk result (λ v. length v.items ≡ length monitor.now.config.domains.items) }
    ensures domains { IfOk result (λ v.
        (i : ℕ) → i < length monitor.now.config.domains.items
        → HoldsAt (λ d. IsNewDomain monitor.now.words monitor.now.config (P.may monitor.now.rights) i d) v.items i) }
{
    let count = seats.len();
    let mut rows = all_rows(alloc, first_gen, count)?;
    let mut domains = Vec::with_capacity(alloc, count)?;
    'domains: for at in 0..count {
        let seat = seats.remove(0);
        if let Some(own) = rows.pop() {
            let mappings = Handles::new(alloc);
            let trail = Trail::new(alloc);
            domains.push_reserved(Domain::new(alloc, seat, own, mappings, trail));
        }
    }
    Ok(domains)
}

// Makes the words and seats of a run whose frames the caller keeps, and its roster. The configuration is checked with
// at most one frame a domain.
fn frameless_words(alloc: Global, config: Config) -> Result<(Words, Vec<Seat>, Roster), StartFault>
    ensures ok { OnOk result (IsRunnable config) }
    ensures words { IfOk result (λ r. r.0.layout ≡ layout_of config) }
    ensures frames { IfOk result (λ r. (name : FrameName) → KeepsFrame r.0 name → ⊥) }
    ensures roster { IfOk result (λ r. r.2 ≡ config) }
    ensures count { IfOk result (λ r. length r.1.items ≡ length config.domains.items) }
    ensures seats { IfOk result (λ r. (i : ℕ) → i < length config.domains.items
        → HoldsAt (λ s. IsNewSeat r.0 i s) r.1.items i) }
    ensures err { IfErr result (IsFramelessFault config) }
{
    one_frame_is_enough();
    let Ok(one_frame) = with_one_frame(alloc, &config) else {
        return Err(StartFault::Memory);
    };
    let (words, seats) = match Words::without_frames(alloc, &one_frame) {
        Ok(made) => made,
        Err(fault) => return Err(fault),
    };
    match Roster::of_runnable(alloc, config, &one_frame) {
        Ok(roster) => Ok((words, seats, roster)),
        Err(AllocError) => Err(StartFault::Memory),
    }
}

impl<P: Allows + Drop> Monitor<P> {
    ghost use Rattle.gt_live.specs.Domains.{BelongsTo};

    /// Makes the monitor of a run, and its domains in order.
    ///
    /// # Errors
    /// The first fault of the configuration, or `Memory` if it has none and allocation fails.
    pub fn new(
        alloc: Global,
        config: Config,
        rights: P,
    ) -> Result<(Monitor<P>, Vec<Domain>), StartFault>
        ensures ok { OnOk result (IsWithinLimits config) }
        ensures run { IfOk result (λ r. (config_of r.0 ≡ config) × (rights_of r.0 ≡ rights)) }
        ensures frames { IfOk result (λ r. (words_of r.0).frames ≡ frames_kept config) }
        ensures count { IfOk result (λ r. length r.1.items ≡ length config.domains.items) }
        ensures domains { IfOk result (λ r.
            (i : ℕ) → i < length config.domains.items
            → HoldsAt (λ d. IsNewDomain (words_of r.0) config (P.may rights) i d) r.1.items i) }
        ensures mine { IfOk result (λ r. All (λ d. BelongsTo P.may r.0 d) r.1.items) }
        ensures err { IfErr result (IsStartFault config) }
    {
        Monitor::with_flags(alloc, config, rights, 0)
    }

    /// Makes the monitor of a run, and its domains in order, with this number of flags, none of which is raised.
    ///
    /// # Errors
    /// The first fault of the configuration, or `Memory` if it has none and allocation fails.
    pub fn with_flags(
        alloc: Global,
        config: Config,
        rights: P,
        flags: u32,
    ) -> Result<(Monitor<P>, Vec<Domain>), StartFault>
        ensures ok { OnOk result (IsWithinLimits config) }
        ensures run { IfOk result (λ r. (config_of r.0 ≡ config) × (rights_of r.0 ≡ rights)) }
        ensures frames { IfOk result (λ r. (words_of r.0).frames ≡ frames_kept config) }
        ensures flags { IfOk result (λ r. (words_of r.0).flags ≡ flags) }
        ensures count { IfOk result (λ r. length r.1.items ≡ length config.domains.items) }
        ensures domains { IfOk result (λ r.
            (i : ℕ) → i < length config.domains.items
            → HoldsAt (λ d. IsNewDomain (words_of r.0) config (P.may rights) i d) r.1.items i) }
        ensures mine { IfOk result (λ r. All (λ d. BelongsTo P.may r.0 d) r.1.items) }
        ensures err { IfErr result (IsStartFault config) }
    {
        let (words, seats) = match Words::with_flags(alloc, &config, flags) {
            Ok(made) => made,
            Err(fault) => return Err(fault),
        };
        let first_gen = config.first_gen;
        let Ok(config) = Roster::new(alloc, config) else {
            return Err(StartFault::Memory);
        };
        every_configuration_within_limits_is_runnable();
        let monitor = Monitor {
            config,
            rights,
            words,
        };
        match make_domains(alloc, &monitor, seats, first_gen) {
            Ok(domains) => Ok((monitor, domains)),
            Err(AllocError) => Err(StartFault::Memory),
        }
    }

    /// Makes the monitor of a run that keeps no frames, and its domains in order. The caller keeps the frames, and
    /// moves the bytes of a copy between [`Domain::copy_begin`] and [`Domain::copy_end`]. Loads, stores, peeks, pokes
    /// and whole copies are refused by N16 at their access. A domain may have from 1 to `u32::MAX` frames.
    ///
    /// # Errors
    /// The first fault of the configuration, or `Memory` if allocation fails, which may be before the check.
    pub fn without_frames(
        alloc: Global,
        config: Config,
        rights: P,
    ) -> Result<(Monitor<P>, Vec<Domain>), StartFault>
        ensures ok { OnOk result (IsRunnable config) }
        ensures run { IfOk result (λ r. (config_of r.0 ≡ config) × (rights_of r.0 ≡ rights)) }
        ensures frames { IfOk result (λ r. (name : FrameName) → KeepsFrame (words_of r.0) name → ⊥) }
        ensures count { IfOk result (λ r. length r.1.items ≡ length config.domains.items) }
        ensures domains { IfOk result (λ r.
            (i : ℕ) → i < length config.domains.items
            → HoldsAt (λ d. IsNewDomain (words_of r.0) config (P.may rights) i d) r.1.items i) }
        ensures mine { IfOk result (λ r. All (λ d. BelongsTo P.may r.0 d) r.1.items) }
        ensures err { IfErr result (IsFramelessFault config) }
    {
        let first_gen = config.first_gen;
        let (words, seats, config) = match frameless_words(alloc, config) {
            Ok(made) => made,
            Err(fault) => return Err(fault),
        };
        let monitor = Monitor {
            config,
            rights,
            words,
        };
        match make_domains(alloc, &monitor, seats, first_gen) {
            Ok(domains) => Ok((monitor, domains)),
            Err(AllocError) => Err(StartFault::Memory),
        }
    }
}
