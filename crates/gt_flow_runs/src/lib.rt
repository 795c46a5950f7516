//! Noninterference of scripts: the lines of low domains in the texts that a script may give do not depend on the bytes
//! that high domains store. Each law is a function that does nothing, whose contract is the law.
#![tactic(auto)]

mod laws;

pub use laws::{
    each_printed_text_has_others, each_run_text_has_others, each_text_has_others, others_are_alike,
};
