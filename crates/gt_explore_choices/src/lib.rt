//! Scripts with choices: a line `maybe ID CALL` may be left out, and at a line `leave ID` the list of a domain may end.
//!
//! [`choices_of`] returns the choices of such a script. Each is the text of a plain script with the same lines: a
//! `maybe` line is a `do` line or empty, and a `leave` line is empty. If its domain leaves there, so are all later lines
//! of that domain. Lines keep their numbers, and words their columns. The choices are exactly the texts that `IsChoiceOf`
//! in `specs/` allows, which is about lines, and not about how they are found.
//!
//! [`first_choice`] finds the first line of either kind. It uses `gt_script_lines` (lines and words) and `gt_text`.
#![tactic(auto)]

mod choices;
mod choosing;
mod fault;
mod kinds;
mod texts;

pub use choices::{Choices, choices_of};
pub use choosing::MOST_CHOICES;
pub use fault::ChoicesFault;
pub use kinds::{ChoicePlace, ChoiceWord, first_choice};
