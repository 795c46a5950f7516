//! The steps of a domain on flags, on which domains wait for one another. They are not calls of the core.
ghost use Rattle.std.specs.Prelude.{◌≡◌, ◌<◌, ◌↔◌, IsTrue, MatchBool};
ghost use Rattle.gt_word_history.specs.declared.view.FlagStep.TheVariants.{Passed, Raised};
ghost use Rattle.gt_live.specs.Domains.{BelongsTo, StaysIn};
ghost use Rattle.gt_live.specs.Flags.{FlagStepped};
ghost use Rattle.gt_live.specs.Parts.{words_of};

use super::Domain;
use crate::monitor::Monitor;
use gt_types::Allows;

impl<P> Monitor<P> {
    /// Returns whether the run has the flag.
    #[inline]
    pub fn has_flag(&self, flag: usize) -> bool
        ensures { IsTrue result ↔ (flag < (words_of self.now).flags) }
    {
        self.words.has_flag(flag)
    }
}

impl Domain {
    /// Raises a flag, which the run must have ([`Monitor::has_flag`]). This is one step of the history, after all
    /// earlier steps of the domain.
    pub fn raise_flag<P: Allows>(&mut self, monitor: &Monitor<P>, flag: usize)
        requires mine { BelongsTo P.may monitor.now self.old }
        requires inside { flag < (words_of monitor.now).flags }
        ensures stays { StaysIn P.may monitor.now self.old self.new }
        ensures raised { FlagStepped (words_of monitor.now).layout flag Raised self.old self.new }
    {
        monitor.words.raise_flag(&mut self.seat, flag);
    }

    /// Passes a flag, which the run must have, if it is raised. This is one step of the history, and an earlier one
    /// raised the flag. Otherwise returns false and makes no step.
    pub fn pass_flag<P: Allows>(&mut self, monitor: &Monitor<P>, flag: usize) -> bool
        requires mine { BelongsTo P.may monitor.now self.old }
        requires inside { flag < (words_of monitor.now).flags }
        ensures stays { StaysIn P.may monitor.now self.old self.new }
        ensures passed { MatchBool result (FlagStepped (words_of monitor.now).layout flag Passed self.old self.new)
            (self.new ≡ self.old) }
    {
        monitor.words.pass_flag(&mut self.seat, flag)
    }
}
