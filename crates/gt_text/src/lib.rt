//! Texts: read whole, written in lines, and made of what answers print.
//!
//! A read stops one byte beyond the longest text, so that its length shows whether there was more. Lines are
//! buffered until there are enough of them for a write, and a writer that takes a part is given the rest. Answers and
//! audit lines end in the same words: entries, names of types, refusals, and the values of calls.
//!
//! What holds over any reader and writer: what was read is what the reader had left, or its first bytes, and the reader
//! has lost no more than those. What went out is at all times a prefix of the text, and all of it if a call returns Ok.
//! An error gives the cause: an allocation, a read or a write failed. Each `push_` function appends exactly its text,
//! for any names, facts and numbers, and bytes that were UTF-8 stay UTF-8.
//!
//! It uses `gt_types` (the names of rules, fields and permissions), `gt_entry` (entries) and `itoa` (numbers).
#![tactic(auto)]

mod denials;
mod entries;
mod fault;
mod laws;
mod numbers;
mod streams;
mod text;
mod values;

pub use denials::{push_denial, push_facts, push_type};
pub use entries::push_entry;
pub use fault::{ReadFault, WriteFault};
pub use laws::{every_text_goes_on, every_writer_keeps_what_it_has, the_read_limit};
pub use numbers::{push_next_number, push_number, push_part};
pub use streams::{CHUNK, READ_LIMIT, finish, read_text, send, write_text};
pub use text::{push_text, text_of};
pub use values::{push_frames, push_size, push_version};
