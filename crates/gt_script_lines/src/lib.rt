//! The lines of a script, one by one.
//!
//! `text_lines` splits a text into its lines, and `line_words` a line into its words. `read_line` returns what the
//! words mean: a triple, a first generation, a domain, or a line of the body. Names, labels and hexadecimal texts
//! borrow the bytes of the script, so reading a line allocates only the list of its words.
//!
//! The meaning of the words is defined in `specs/` by patterns on them, and it is proved that each function returns
//! exactly that. `gt_script` checks whether a line may be where it is. The crate uses `gt_types` and `gt_entry` (the
//! names, numbers and entries that the words give) and `hex`.
#![tactic(auto)]

mod body;
mod call_names;
mod calls;
mod fields;
mod hexadecimal;
mod laws;
mod lines;
mod numbers;
mod texts;
mod words;

pub use body::BodyLine;
pub use call_names::split_name;
pub use calls::ScriptCall;
pub use fields::is_word;
pub use hexadecimal::hex_bytes;
pub use laws::every_hex_text_gives_its_bytes;
pub use lines::{DomainLine, ScriptLine, TripleLine, read_line};
pub use numbers::Number;
pub use texts::Text;
pub use words::{line_words, text_lines};
