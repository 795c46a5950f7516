//! The frame of programs that try worked texts and print what each gives under its name.
//!
//! [`say_all`] goes over the words of the command line: a word is one of the program's own ([`Cases::takes`]), or the
//! name of a text, a file in the folder that it is run in. What the program does with a text is a [`Job`]. A job can be
//! done as it is, beside the same with records ([`tried_said`]), on each prefix of the text ([`beginnings_said`]), and
//! with readers and writers that fail ([`failing_said`]).
#![tactic(auto)]

mod failing;
mod jobs;
mod names;

pub use failing::failing_said;
pub use jobs::{Job, Limits, UNLIMITED, beginnings_said, tried_said};
pub use names::{Cases, mode_of, say_all};
