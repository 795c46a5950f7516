//! Separation: a domain with which no other shares, and whose copies name no reference of another, is to the others as
//! if it were not there.
//!
//! Any domains may be called high, and the others are low. Noninterference (`gt_flow`) is about accesses and bytes. Here
//! all calls of high domains are left out: their grants, maps, copies and queries too. If no request of a low domain
//! names a high one, and no copy of a high domain has a reference of a low one at an end, all calls of high domains may
//! be made or not, and each step, answer, word and byte of low domains is the same
//! ([`unshared_domains_make_no_difference`]). If low domains do share, an item of a high domain shows in the words of
//! their tables only as a pin that it takes or releases ([`high_items_show_only_pins`]). Each law is a function that does
//! nothing, whose contract is the law.
//!
//! It uses `gt_flow` (parts of traces), `gt_explore_state` (which entry a call reads), `gt_core`, `gt_calls`, `gt_entry`,
//! `gt_frames`, `gt_handles`, `gt_model`, `gt_roster` and `gt_types`.
#![tactic(auto)]

mod laws;

pub use laws::{
    high_calls_make_no_difference, high_items_leave_low, high_items_show_only_pins,
    low_parts_are_legal, requests_keep_apart, unshared_domains_make_no_difference,
};
