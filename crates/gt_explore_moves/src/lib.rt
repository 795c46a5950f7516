//! A search for the texts that a script's domains can print, in all orders of their moves.
//!
//! [`search`] visits states that runs of a script can reach, each once, and enough of them to meet each text. It
//! returns an order with its text for each list of answers that it meets. A state is small: the entries that were
//! touched, the bytes that were written, the mappings, the open calls and the positions of the domains in their lists.
//! The states are a space of `gt_explore_search`, which does the search.
//!
//! It promises that each text that an order of the script gives is that of one of the orders returned (`FindsAll` in
//! specs/Spaces.antt). Nothing is claimed of the turns: replay them on the core (`gt_explore_replay`) to see what they
//! lead to.
//!
//! A [`SearchContext`] is the space itself, for a search of another kind: `every_turn` leaves out no move of a state.
//!
//! It uses `gt_explore_search` (the search), `gt_calls` (the steps of calls), `gt_explore_state` (words and bytes, and
//! equality of calls), `gt_script_runs` (what lines ask and print), `gt_script` and `gt_script_lines` (scripts),
//! `gt_core` (answers), `gt_entry`, `gt_roster` and `gt_types`. Its definitions also name `gt_commuting` (items that
//! change places), `gt_explore_replay` (orders and turns) and `gt_handles`, and its proofs `hex`.
#![tactic(auto)]

mod actor;
mod calls;
mod digests;
mod flag_runs;
mod granted;
mod kept_actor;
mod moves;
mod names;
mod partial;
mod parts;
mod phases;
mod same;
mod scene;
mod searching;
mod space;
mod touches;

pub use gt_explore_search::{FoundText, PartialResult, SearchFault, SearchResult};
pub use partial::search_within;
pub use parts::StatePart;
pub use scene::{SearchContext, SearchState};
pub use searching::search;
