//! The errors of a play.
use gt_script::{BlockFault, ScriptError, ScriptFault};
use gt_text::ReadFault;
use std::error::Error;
use std::fmt;

/// The error of a play. It prints as one line, without a line feed.
#[derive(Debug, Drop)]
pub enum PlayFault {
    /// The first fault of the script, with its line. Nothing was written.
    Script(ScriptFault),
    /// The first fault of the script, if it is one of its policy block. Nothing was written.
    Policy(BlockFault),
    /// An allocation failed. A prefix of the text was written, or nothing.
    Memory,
    /// A read failed, or the script can't be opened. Nothing was written.
    Read,
    /// A write failed. A prefix of the text was written.
    Write,
}

impl fmt::Display for PlayFault {
    ghost use Rattle.std.specs.Prelude.{Some};
    ghost use Rattle.gt_script_runs.specs.Faults.{play_fault_text};

    ghost output = { λ fault. Some (play_fault_text fault) };

    fn fmt<W: fmt::Write>(&self, f: &mut fmt::Formatter<W>) -> fmt::Result {
        match self {
            PlayFault::Script(fault) => write!(f, "{fault}"),
            PlayFault::Policy(fault) => write!(f, "{fault}"),
            PlayFault::Memory => f.write_str("memory"),
            PlayFault::Read => f.write_str("read"),
            PlayFault::Write => f.write_str("write"),
        }
    }
}

impl Error for PlayFault {}

impl From<ScriptError> for PlayFault {
    ghost use Rattle.std.specs.Prelude.{◌≡◌};
    ghost use Rattle.gt_script_runs.specs.Faults.{fault_of};

    ghost from_gives = { λ error fault. fault ≡ fault_of error };

    fn from(error: ScriptError) -> PlayFault {
        match error {
            ScriptError::Memory => PlayFault::Memory,
            ScriptError::Fault(fault) => PlayFault::Script(fault),
            ScriptError::Policy(fault) => PlayFault::Policy(fault),
        }
    }
}

impl From<ReadFault> for PlayFault {
    ghost use Rattle.std.specs.Prelude.{◌≡◌};
    ghost use Rattle.gt_script_runs.specs.Faults.{read_fault};

    ghost from_gives = { λ error fault. fault ≡ read_fault error };

    fn from(error: ReadFault) -> PlayFault {
        match error {
            ReadFault::Memory => PlayFault::Memory,
            ReadFault::Read => PlayFault::Read,
        }
    }
}
