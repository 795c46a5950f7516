//! Questions about the moments of a script, and the reasons why one was not answered.
use gt_explore_faults::TextsFault;
use gt_script_runs::PlayFault;
use gt_state_claims::StateClaimFault;

/// A claim about the states of a script: at no moment does this hold of what entries show. `states` is the largest
/// number of states that the search may meet.
#[derive(Clone, Copy)]
pub struct MomentOptions<'e> {
    pub claim: &'e str,
    pub states: usize,
}

/// The reason that a claim was not answered.
#[derive(Debug, Drop)]
pub enum MomentFault {
    /// A fault of the script, or an allocation or a write failed. Only after a failed write was anything written: a
    /// prefix of the answer.
    Play(PlayFault),
    /// The text is not a claim about the script. Nothing was written.
    Claim(StateClaimFault),
    /// The search failed, or a script for `play` does not show the moment that was found. Nothing was written.
    Texts(TextsFault),
}
