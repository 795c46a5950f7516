//! What fails for a test: readers and writers after a number of bytes, and allocations.
//!
//! [`FailingReader`] and [`FailingWriter`] are in memory. They promise nothing beyond the traits `Read` and `Write`.
//!
//! A [`Flood`] makes allocations fail: it takes all memory, and lets some bytes through. A test can't pass its own
//! allocator to what it tests, since all of gthost allocates on `Global`. So a flood asks that allocator for blocks
//! until none is left, the largest first, and keeps them untouched. That costs addresses and hardly any memory. While
//! it is closed, each request of the program fails, or is served from what is let through. If this grows by 16 bytes at
//! a time, each request of a call is at some time the first that fails. It promises nothing about which request that
//! is. A test in which no request fails must itself report a failure.
//!
//! The crate uses no other.
#![tactic(auto)]

mod flood;
mod lines;
mod reader;
mod writer;

pub use flood::Flood;
pub use lines::failing_line;
pub use reader::FailingReader;
pub use writer::FailingWriter;
