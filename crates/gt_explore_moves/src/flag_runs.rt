//! Flags as a search keeps them.
ghost use Rattle.std.specs.Prelude.{◌≡◌, ◌++◌, IfOk, IsTrue, OnOk, length, replicate};

use std::alloc::{AllocError, Global};
use std::marker::Model;

/// Flags, kept as the lengths of their runs: at first of flags that are not raised, then of raised ones, and so on. A
/// run longer than 255 continues after an empty run of the other kind. So they take at most a byte for each flag and
/// one more.
#[derive(Drop)]
pub struct FlagRuns {
    runs: Vec<u8>,
}

impl Model for FlagRuns {
    ghost use Rattle.std.specs.Prelude.{Bool, List, false};
    ghost use Rattle.gt_explore_moves.specs.RunLengths.{flags_of_runs};

    ghost Value = { List Bool };

    ghost view = { λ f. flags_of_runs false f.runs.items };
}

// Returns whether each of these flags is of this kind.
fn are_all(flags: &[bool], is_raised: bool) -> bool
    ensures { IsTrue result → flags.now ≡ replicate (length flags.now) is_raised }
{
    flags.iter().all(|flag| *flag == is_raised)
}

impl FlagRuns {
    /// Keeps these flags.
    pub fn of(alloc: Global, flags: &[bool]) -> Result<FlagRuns, AllocError>
        ensures { IfOk result (λ kept. kept ≡ flags.now) }
    {
        let mut runs = Vec::new(alloc);
        let mut is_raised = false;
        let mut len = 0;
        'flags: for flag in flags {
            if *flag != is_raised {
                runs.push(len)?;
                is_raised = *flag;
                len = 1;
            } else if len == u8::MAX {
                runs.push(len)?;
                runs.push(0)?;
                len = 1;
            } else {
                len += 1;
            }
        }
        runs.push(len)?;
        runs.shrink_to_fit();
        Ok(FlagRuns { runs })
    }

    /// Appends the flags.
    pub fn append_to(&self, flags: &mut Vec<bool>) -> Result<(), AllocError>
        ensures { OnOk result (flags.new.items ≡ flags.old.items ++ self.now) }
    {
        let mut is_raised = false;
        'runs: for len in self.runs.as_slice() {
            flags.resize(flags.len() + usize::from(*len), is_raised)?;
            is_raised = !is_raised;
        }
        Ok(())
    }

    /// Returns whether these are the flags.
    pub fn is_of(&self, flags: &[bool]) -> bool
        ensures { IsTrue result → self.now ≡ flags.now }
    {
        let mut rest = flags;
        let mut is_raised = false;
        'runs: for len in self.runs.as_slice() {
            let Some((run, later)) = rest.split_at_checked(usize::from(*len)) else {
                return false;
            };
            if !are_all(run, is_raised) {
                return false;
            }
            rest = later;
            is_raised = !is_raised;
        }
        rest.is_empty()
    }

    /// Copies the flags.
    pub fn copy(&self, alloc: Global) -> Result<FlagRuns, AllocError>
        ensures { IfOk result (λ kept. kept ≡ self.now) }
    {
        let runs = Vec::from_slice(alloc, self.runs.as_slice())?;
        Ok(FlagRuns { runs })
    }
}
