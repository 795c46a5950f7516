//! Laws that follow from the definitions of this crate. Each is a function that does nothing, whose contract is the
//! law.
ghost use Rattle.gt_explore_state.specs.Likeness.{LikeReachedFits, LikeReachedGoesOn, LikeReachedStarts};
ghost use Rattle.gt_explore_state.specs.Shows.{BeginningsChangeNothing, RightStepsFit};

/// States that each right step after a history that some core represents fits: there is room for its effect, and an
/// unpin releases a live pin. The step looks only at words of domains of the run.
pub fn every_right_step_fits()
    ensures { RightStepsFit }
{}

/// States the same for a history that differs only in the keys of handles from one that some core represents.
pub fn every_like_step_fits()
    ensures { LikeReachedFits }
{}

/// States that the empty history is one of these, in each configuration within the limits.
pub fn every_like_run_starts()
    ensures { LikeReachedStarts }
{}

/// States that a history remains one of these with each right item of a domain of the run that uses no handle but one
/// known to it.
pub fn every_like_run_goes_on()
    ensures { LikeReachedGoesOn }
{}

/// States that a call that begins changes no table, and writes no bytes.
pub fn every_beginning_changes_nothing()
    ensures { BeginningsChangeNothing }
{}
