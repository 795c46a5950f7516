//! The recording of calls.
use test_monitor::Calls;

/// The recording of the calls of a domain.
#[derive(Clone, Copy)]
pub enum Audit {
    /// Each record is allocated as it comes.
    On,
    /// Space for all records is reserved before the first call.
    Ahead,
    /// Records are taken as the domain runs, and their space is used again.
    Taken,
    /// No record is kept.
    Off,
}

/// The number of records for which space is reserved ahead: more than a load of a timed run has.
const RECORDS_AHEAD: usize = 400_000;

/// Sets the recording of the calls of a domain. Returns whether it could.
pub(crate) fn record_calls<D: Calls>(domain: &mut D, audit: Audit) -> bool {
    match audit {
        Audit::On | Audit::Taken => true,
        Audit::Ahead => domain.reserve_records(RECORDS_AHEAD).is_ok(),
        Audit::Off => {
            domain.keep_at_most(0);
            true
        }
    }
}
