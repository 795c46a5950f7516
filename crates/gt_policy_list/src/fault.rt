//! The errors of a listing.
use gt_policy::{PolicyFault, PolicyFaultKind};
use gt_text::{ReadFault, WriteFault};
use std::alloc::AllocError;
use std::error::Error;
use std::fmt;

/// The error of a listing. It prints as one line, without a line feed.
#[derive(Debug, Drop)]
pub enum ListingFault {
    /// The bytes are not UTF-8, and the first bad byte is on this line, counted from 1. Nothing was written.
    Utf8 { line: usize },
    /// The first fault of the text, with its line. Nothing was written.
    Policy(PolicyFault),
    /// An allocation failed. A prefix of the lines was written, or nothing.
    Memory,
    /// A read failed, or the text can't be opened. Nothing was written.
    Read,
    /// A write failed. A prefix of the lines was written.
    Write,
}

impl fmt::Display for ListingFault {
    ghost use Rattle.std.specs.Prelude.{Some};
    ghost use Rattle.gt_policy_list.specs.Faults.{listing_fault_text};

    ghost output = { λ fault. Some (listing_fault_text fault) };

    fn fmt<W: fmt::Write>(&self, f: &mut fmt::Formatter<W>) -> fmt::Result {
        match self {
            ListingFault::Utf8 { line } => write!(f, "line {line}: utf8"),
            ListingFault::Policy(fault) => write!(f, "{fault}"),
            ListingFault::Memory => f.write_str("memory"),
            ListingFault::Read => f.write_str("read"),
            ListingFault::Write => f.write_str("write"),
        }
    }
}

impl Error for ListingFault {}

impl From<AllocError> for ListingFault {
    ghost use Rattle.std.specs.Prelude.{◌≡◌};
    ghost use Rattle.gt_policy_list.specs.declared.fault.ListingFault.TheVariants as listing_faults;

    ghost from_gives = { λ _ e. e ≡ listing_faults.Memory };

    fn from(_error: AllocError) -> ListingFault {
        ListingFault::Memory
    }
}

impl From<PolicyFault> for ListingFault {
    ghost use Rattle.std.specs.Prelude.{◌≡◌};
    ghost use Rattle.gt_policy_list.specs.Faults.{listing_fault_of};

    ghost from_gives = { λ error fault. fault ≡ listing_fault_of error.line error.kind };

    fn from(error: PolicyFault) -> ListingFault {
        let PolicyFault { line, kind } = error;
        match kind {
            PolicyFaultKind::Memory => ListingFault::Memory,
            kind => ListingFault::Policy(PolicyFault { line, kind }),
        }
    }
}

impl From<ReadFault> for ListingFault {
    ghost use Rattle.std.specs.Prelude.{◌≡◌};
    ghost use Rattle.gt_policy_list.specs.Faults.{listing_read_fault};

    ghost from_gives = { λ error fault. fault ≡ listing_read_fault error };

    fn from(error: ReadFault) -> ListingFault {
        match error {
            ReadFault::Memory => ListingFault::Memory,
            ReadFault::Read => ListingFault::Read,
        }
    }
}

impl From<WriteFault> for ListingFault {
    ghost use Rattle.std.specs.Prelude.{◌≡◌};
    ghost use Rattle.gt_policy_list.specs.declared.fault.ListingFault.TheVariants as listing_faults;

    ghost from_gives = { λ _ e. e ≡ listing_faults.Write };

    fn from(_error: WriteFault) -> ListingFault {
        ListingFault::Write
    }
}
