//! The errors of the steps of a script.
use gt_script_runs::PlayFault;
use gt_text::WriteFault;
use gt_types::Memory;
use std::alloc::{AllocError, AllocFailed};

/// The error of the steps of a script. A prefix of the text was written.
#[derive(Clone, Copy, Debug, PartialEq, Eq)]
pub enum StepsFault {
    /// An allocation failed.
    Memory,
    /// A write failed.
    Write,
}

impl From<AllocError> for StepsFault {
    ghost use Rattle.std.specs.Prelude.{◌≡◌};
    ghost use Rattle.gt_host.specs.declared.fault.StepsFault.TheVariants as steps_faults;

    ghost from_gives = { λ _ e. e ≡ steps_faults.Memory };

    fn from(_error: AllocError) -> StepsFault {
        StepsFault::Memory
    }
}

impl<T: Drop> From<AllocFailed<T>> for StepsFault {
    ghost use Rattle.std.specs.Prelude.{◌≡◌};
    ghost use Rattle.gt_host.specs.declared.fault.StepsFault.TheVariants as steps_faults;

    ghost from_gives = { λ _ e. e ≡ steps_faults.Memory };

    fn from(_error: AllocFailed<T>) -> StepsFault {
        StepsFault::Memory
    }
}

impl From<Memory> for StepsFault {
    ghost use Rattle.std.specs.Prelude.{◌≡◌};
    ghost use Rattle.gt_host.specs.declared.fault.StepsFault.TheVariants as steps_faults;

    ghost from_gives = { λ _ e. e ≡ steps_faults.Memory };

    fn from(_error: Memory) -> StepsFault {
        StepsFault::Memory
    }
}

impl From<WriteFault> for StepsFault {
    ghost use Rattle.std.specs.Prelude.{◌≡◌};
    ghost use Rattle.gt_host.specs.declared.fault.StepsFault.TheVariants as steps_faults;

    ghost from_gives = { λ _ e. e ≡ steps_faults.Write };

    fn from(_error: WriteFault) -> StepsFault {
        StepsFault::Write
    }
}

impl StepsFault {
    ghost use Rattle.std.specs.Prelude.{◌≡◌};
    ghost use Rattle.gt_host.specs.Faults.{play_ended};

    /// Converts the result of the steps of a script to that of the play.
    pub fn as_play(outcome: Result<(), StepsFault>) -> Result<(), PlayFault>
        ensures { result ≡ play_ended outcome }
    {
        match outcome {
            Ok(()) => Ok(()),
            Err(StepsFault::Memory) => Err(PlayFault::Memory),
            Err(StepsFault::Write) => Err(PlayFault::Write),
        }
    }
}
