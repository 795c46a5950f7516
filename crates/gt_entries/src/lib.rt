//! `entries`: prints the entries of a dump of grant-table frames.
//!
//! `entries` reads the frames of a table, as they are in memory or as hexadecimal text, and writes a line for each
//! entry by its reference: the entry, or the field that is refused. An entry of zeros has a line only if that is asked
//! for. A live host sets two bits of an entry, reading and writing (`GTF_reading` and `GTF_writing` of
//! `grant_table.h`). They are cleared first and printed after the entry, so a dump of a running guest is read too. The
//! lines can also be those of a script that grants the same.
//!
//! It is proved that each line is what the decoders of `gt_entry` return for the bytes with the two bits cleared, for
//! each entry that is not left out once, in order, and that nothing else goes out (`Dumped`).
//!
//! It uses `gt_entry`, `gt_types`, `gt_text` (texts, reads and writes) and `hex`.
#![tactic(auto)]

mod asked;
mod dumping;
mod fault;
mod input;
mod laws;
mod lines;
mod live;
mod look;
mod script;
mod showing;

pub use asked::DumpOptions;
pub use dumping::{entries, write_dump};
pub use fault::DumpFault;
pub use input::bytes_of;
pub use laws::only_the_live_bits_are_cleared;
pub use live::cleared;
pub use look::{DumpLook, look_of};
