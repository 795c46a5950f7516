//! Laws of configurations. A law does nothing; its contract is the theorem.
ghost use Rattle.gt_roster.specs.Frameless.{LimitsAreRunnable, OneFrameIsEnough};

/// A law: a configuration within the limits may also be that of a monitor that keeps no frames.
pub fn every_configuration_within_limits_is_runnable()
    ensures { LimitsAreRunnable }
{}

/// A law: a monitor that keeps no frames can run with a configuration exactly if it is within the limits with at most
/// one frame a domain.
pub fn one_frame_is_enough()
    ensures { OneFrameIsEnough }
{}
