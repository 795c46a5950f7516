//! The commands of the program `gthost`, and the meaning of the words of a command line.
//!
//! [`plan`] returns what the words ask for: a command with its options and its FILE. The flags, options and words of a
//! command are data, `usage_of` of specs/Commands.antt. What words mean by such data is defined once, for every
//! command, in specs/Usage.antt. The kit's `clap` parses the line and makes help and refusals.
//!
//! A line that asks for a command is answered by its plan, and is refused only if an allocation fails. Any other line
//! is refused, with an error of a kind that fits it. The proof shows that clap's own walk over the words has the same
//! result, for any flags, options and words. Before that, [`command_first`], [`with_long_flags`] and [`with_claims`] put
//! words in the order and the form in which the parser takes them. [`refusal_text`] is the text of a refusal. The crate
//! uses `clap`, and the claims of `gt_explore_verdict`.
#![tactic(auto)]

mod claiming;
mod commands;
mod exploring;
mod help;
mod invocation;
mod leading;
mod letters;
mod line;
mod planning;
mod refused;
mod values;

pub use claiming::with_claims;
pub use invocation::{
    CheckedFiles, EntriesOptions, Exploration, FlowOptions, Format, Invocation, Mode, MoreFiles,
    ScriptOptions, SearchOptions,
};
pub use leading::{command_first, leading_word};
pub use letters::with_long_flags;
pub use planning::{mode_of, plan};
pub use refused::refusal_text;
