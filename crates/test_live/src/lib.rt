//! Tests of `gt_live`, over its public items.
//!
//! They test what no contract specifies: that a run starts if memory is ample; the worked rows of calls with the bytes
//! that they read and the words that their refusals carry (`rows.rt`); and whole runs (`runs.rt`): the records that a
//! domain leaves, calls whose allocations fail (with tools/refused.sh), and domains in threads at the same time. Two of
//! those share a page, a storm of four leaves every word idle, and three access the same frames.
//!
//! One function plays all rows (`playing.rt`), since each function that starts a run costs as much proof as all tables.
//! What a domain does in its thread is in `working.rt`. The domains and their calls as values are those of
//! `test_monitor`.
#![tactic(auto)]

// A copy from a grant of a domain to one of the caller's own frames: domain, reference, offset; frame, offset; and
// length.
#[cfg(test)]
macro_rules! fetch {
    ($dom:expr, $gref:expr, $off:expr, $frame:expr, $to:expr, $len:expr) => {
        TestCall::Copy(copy!(
            end!($gref, DomId($dom), $off),
            end!($frame, DomId(DOMID_SELF), $to),
            $len,
            1
        ))
    };
}

#[cfg(test)]
mod playing;
#[cfg(test)]
mod rows;
#[cfg(test)]
mod runs;
#[cfg(test)]
mod working;
