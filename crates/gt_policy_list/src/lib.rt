//! The listing of a policy: the triples that its text allows, as `gthost policy` writes them.
//!
//! `policy` reads a policy text and writes one line `SOURCE TARGET PERMISSION` for each triple that the text allows. It
//! takes any reader and writer, so the program, a test and a service drive the same code.
//!
//! It is proved that the text that goes out is the lines of the allowed triples, by source, then by target, then by
//! permission, and that it is whole if `policy` returns Ok. For a text with a fault nothing is written, and the error
//! is the first fault of the text. After a failed write or allocation, a prefix of those lines has gone out.
//!
//! It uses `gt_policy` and `gt_allow` (what a text allows), `gt_types` (types and permissions) and `gt_text` (reads and
//! writes).
#![tactic(auto)]

mod fault;
mod laws;
mod lines;
mod listing;
mod sources;
mod text;

pub use fault::ListingFault;
pub use laws::one_listing;
pub use listing::policy;
pub use text::policy_text;
