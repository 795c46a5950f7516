//! A domain together with its monitor, for a caller outside Rattle.
//!
//! [`start`] makes a run, with an [`AttachedDomain`] for each domain: the domain, and a share of the monitor that all
//! of them use. Its calls take no monitor. A domain that is dropped leaves the run, and the last one frees the monitor.
//! [`EncodedAnswer`] is the result of a call, and [`EncodedRecord`] an audit record, in layouts that C reads.
//!
//! Each call promises what the call of `gt_live` promises, on the domain's own monitor. A copy in two halves holds its
//! pins from one to the other. An [`EncodedAnswer`] has all that the call returned, since it decodes to the same
//! result. None of these calls waits.
//!
//! It uses `gt_live`, `gt_calls` (handles), `gt_entry` (entries), `gt_audit` (records), `gt_types` and `bitflags`. Its
//! contracts also name definitions of `gt_handles`, `gt_roster` and `gt_words`.
#![tactic(auto)]

mod answer;
mod attached;
mod attachment;
mod record;
mod renewing;
mod several;
mod starting;
mod unused;

pub use answer::{
    AttachedOutcome, Departure, EncodedAnswer, MappingName, NamedMapping, RefusedMap, TakenCounts,
    answers_are_read_back, writes,
};
pub use attached::AttachedDomain;
pub use attachment::{CopyPlaces, LeftDomain};
pub use record::{CopyEnd, EncodedRecord};
pub use renewing::domains_without_a_difference_have_the_same_entries;
pub use several::MapRequest;
pub use starting::start;
