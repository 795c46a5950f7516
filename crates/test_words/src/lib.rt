//! Tests of the words and the frames of a run, over the public items of `gt_words`, and of the plain frames of
//! `gt_frames`.
//!
//! They test what no contract specifies. By its contract a call could always answer `None`, `false` or `Memory`; the
//! tests show that it does its work if memory is ample. They compare the worked words of grants, pins, changes and
//! headers, and, by tables of copies, the bytes that a reader of a frame finds. Threads that grant and pin at the same
//! time leave the words that one of them by itself would leave, and two threads copy between the same two frames.
//!
//! The callers that they drive meet each condition by what the calls before it ensured. The tests of a single frame are
//! in `test_base`.
#![tactic(auto)]

#[cfg(test)]
mod calls;
#[cfg(test)]
mod cases;
#[cfg(test)]
mod frames;
#[cfg(test)]
mod places;
#[cfg(test)]
mod runs;
#[cfg(test)]
mod table;
