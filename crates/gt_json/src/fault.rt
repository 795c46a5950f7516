//! The errors of writing JSON.
use gt_text::WriteFault;
use std::alloc::AllocError;

/// The error of writing a text as JSON. A prefix of its JSON may have gone out.
#[derive(Clone, Copy, Debug, PartialEq, Eq)]
pub enum JsonFault {
    /// An allocation failed.
    Memory,
    /// A write failed.
    Write,
}

impl From<AllocError> for JsonFault {
    ghost use Rattle.std.specs.Prelude.{◌≡◌};
    ghost use Rattle.gt_json.specs.declared.fault.JsonFault.TheVariants as json_faults;

    ghost from_gives = { λ _ fault. fault ≡ json_faults.Memory };

    fn from(_error: AllocError) -> JsonFault {
        JsonFault::Memory
    }
}

impl From<WriteFault> for JsonFault {
    ghost use Rattle.std.specs.Prelude.{◌≡◌};
    ghost use Rattle.gt_json.specs.declared.fault.JsonFault.TheVariants as json_faults;

    ghost from_gives = { λ _ fault. fault ≡ json_faults.Write };

    fn from(_error: WriteFault) -> JsonFault {
        JsonFault::Write
    }
}
