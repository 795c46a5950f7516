//! Noninterference: what low domains see and have does not depend on the accesses and bytes of high domains. And the
//! search for the types that bytes of a type reach.
//!
//! A policy says between which types an access may bring bytes (`MayFlow`, `specs/Flow.antt`). A set of types that no
//! access leaves is called high. For each such set, two legal traces of `gt_core` whose events are the same without the
//! loads, stores, peeks and pokes of high domains did the same at all other events, and all frames of low domains hold
//! the same ([`high_accesses_never_reach_low_domains`]). Trusted domains may store bytes of their own choice across
//! ([`trusted_domains_may_store`]). Each law is a function that does nothing, whose contract is the law. The laws about
//! all calls of domains with which no other shares are in `gt_separation`.
//!
//! [`search`] lists the types that bytes of one type reach, each with its distance, and [`ReachedTypes::path_to`]
//! returns a shortest path to one of them. It is proved that a path is returned exactly if there is one, that it is
//! one, and that none is shorter ([`every_path_is_found`]). Stores by domains of trusted types are left out. If there
//! is no path, the types that are reached are a set that no access leaves, except for these stores
//! ([`what_is_reached_is_closed`]): the premise of the law about trusted domains.
//!
//! It uses `gt_core`, `gt_calls`, `gt_entry`, `gt_frames`, `gt_handles`, `gt_roster` and `gt_types`.
#![tactic(auto)]

mod accesses;
mod laws;
mod searching;

pub use accesses::{Access, access_between, is_among};
pub use laws::{
    each_run_has_others, events_do_not_interfere, every_flow_is_allowed, every_path_is_found,
    high_accesses_never_reach_low_domains, high_bytes_never_reach_low_domains,
    low_frames_are_the_same, reached_types_are_closed, reached_types_are_least,
    trusted_domains_may_store, what_is_reached_is_closed,
};
pub use searching::{Reach, ReachedTypes, search};
