//! Faults of a run.
use gt_script_runs::PlayFault;
use gt_text::WriteFault;
use gt_types::Memory;
use std::alloc::{AllocError, AllocFailed};
use std::error::Error;
use std::fmt;

/// The fault that ended a run. It prints as one line, without a line end.
#[derive(Debug, Drop)]
pub enum RunFault {
    /// A fault that a play can have too: of the script, of memory, or of a read or a write.
    Play(PlayFault),
    /// A thread could not be started. No list ran, and nothing was written.
    Thread,
}

impl fmt::Display for RunFault {
    ghost use Rattle.std.specs.Prelude.{Some};
    ghost use Rattle.gt_run.specs.Faults.{run_fault_text};

    ghost output = { λ fault. Some (run_fault_text fault) };

    fn fmt<W: fmt::Write>(&self, f: &mut fmt::Formatter<W>) -> fmt::Result {
        match self {
            RunFault::Play(fault) => write!(f, "{fault}"),
            RunFault::Thread => f.write_str("thread"),
        }
    }
}

impl Error for RunFault {}

impl From<Memory> for RunFault {
    ghost use Rattle.std.specs.Prelude.{◌≡◌};
    ghost use Rattle.gt_run.specs.Faults.{run_out_of_memory};

    ghost from_gives = { λ _ fault. fault ≡ run_out_of_memory };

    fn from(_error: Memory) -> RunFault {
        RunFault::Play(PlayFault::Memory)
    }
}

impl From<AllocError> for RunFault {
    ghost use Rattle.std.specs.Prelude.{◌≡◌};
    ghost use Rattle.gt_run.specs.Faults.{run_out_of_memory};

    ghost from_gives = { λ _ fault. fault ≡ run_out_of_memory };

    fn from(_error: AllocError) -> RunFault {
        RunFault::Play(PlayFault::Memory)
    }
}

impl<T: Drop> From<AllocFailed<T>> for RunFault {
    ghost use Rattle.std.specs.Prelude.{◌≡◌};
    ghost use Rattle.gt_run.specs.Faults.{run_out_of_memory};

    ghost from_gives = { λ _ fault. fault ≡ run_out_of_memory };

    fn from(_error: AllocFailed<T>) -> RunFault {
        RunFault::Play(PlayFault::Memory)
    }
}

impl From<WriteFault> for RunFault {
    ghost use Rattle.std.specs.Prelude.{◌≡◌};
    ghost use Rattle.gt_run.specs.Faults.{not_written};

    ghost from_gives = { λ _ fault. fault ≡ not_written };

    fn from(_error: WriteFault) -> RunFault {
        RunFault::Play(PlayFault::Write)
    }
}
