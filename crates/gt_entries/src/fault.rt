//! The errors of `entries`.
use gt_text::{ReadFault, WriteFault};
use std::alloc::AllocError;
use std::error::Error;
use std::fmt;

/// The error of `entries`. It prints as one word.
#[derive(Clone, Copy, Debug, PartialEq, Eq)]
pub enum DumpFault {
    /// An allocation failed. Nothing was written.
    Memory,
    /// A read failed, or the dump can't be opened. Nothing was written.
    Read,
    /// A write failed. A prefix of the lines was written.
    Write,
    /// The dump has more than 16 frames, or its text more than 1,048,576 bytes. Nothing was written.
    Limit,
    /// The text is not hexadecimal. Nothing was written.
    Syntax,
}

impl fmt::Display for DumpFault {
    ghost use Rattle.std.specs.Prelude.{Some};
    ghost use Rattle.gt_entries.specs.Faults.{dump_fault_text};

    ghost output = { λ fault. Some (dump_fault_text fault) };

    fn fmt<W: fmt::Write>(&self, f: &mut fmt::Formatter<W>) -> fmt::Result {
        f.write_str(match self {
            DumpFault::Memory => "memory",
            DumpFault::Read => "read",
            DumpFault::Write => "write",
            DumpFault::Limit => "limit",
            DumpFault::Syntax => "syntax",
        })
    }
}

impl Error for DumpFault {}

impl From<AllocError> for DumpFault {
    ghost use Rattle.std.specs.Prelude.{◌≡◌};
    ghost use Rattle.gt_entries.specs.declared.fault.DumpFault.TheVariants as dump_faults;

    ghost from_gives = { λ _ e. e ≡ dump_faults.Memory };

    fn from(_error: AllocError) -> DumpFault {
        DumpFault::Memory
    }
}

impl From<ReadFault> for DumpFault {
    ghost use Rattle.std.specs.Prelude.{◌≡◌};
    ghost use Rattle.gt_entries.specs.Faults.{dump_read_fault};

    ghost from_gives = { λ error fault. fault ≡ dump_read_fault error };

    fn from(error: ReadFault) -> DumpFault {
        match error {
            ReadFault::Memory => DumpFault::Memory,
            ReadFault::Read => DumpFault::Read,
        }
    }
}

impl From<WriteFault> for DumpFault {
    ghost use Rattle.std.specs.Prelude.{◌≡◌};
    ghost use Rattle.gt_entries.specs.declared.fault.DumpFault.TheVariants as dump_faults;

    ghost from_gives = { λ _ e. e ≡ dump_faults.Write };

    fn from(_error: WriteFault) -> DumpFault {
        DumpFault::Write
    }
}
