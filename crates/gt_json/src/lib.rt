//! The texts that commands print, as JSON Lines.
//!
//! Each line of a text becomes an object on one line, with a member for each word: `16 2 N5 -8 source=b_t` becomes
//! `{"line":16,"domain":2,"rule":"N5","status":-8,"source":"b_t"}`. A word `NAME=VALUE` has its own name; any other
//! word is named by its position in the line. The colon of an audit line is not a member.
//!
//! It is proved that exactly the JSON of the text goes out, for any bytes; that the names and values of an object give
//! back its line, so that nothing is lost and nothing added; and that every string is encoded as RFC 8259 requires.
//!
//! It uses `gt_text` (texts that wait and go out).
#![tactic(auto)]

mod fault;
mod laws;
mod lines;
mod members;
mod places;
mod values;
mod words;

pub use fault::JsonFault;
pub use laws::{every_line_has_its_object, every_string_spells_its_text};
pub use lines::write_json;
pub use places::PrintedText;
pub use values::push_quoted;
