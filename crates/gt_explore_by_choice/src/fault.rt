//! The fault of an exploration of a script with choices.
use gt_explore_choices::ChoicesFault;
use gt_explore_faults::ClaimsFault;

/// The fault that ended an exploration of a script with choices.
#[derive(Debug, Drop)]
pub enum UnitedFault {
    /// A fault that an exploration of a plain script can have too. A fault of the script is that of one of its choices.
    Claims(ClaimsFault),
    /// A fault of the choices. Nothing was written.
    Choices(ChoicesFault),
}
