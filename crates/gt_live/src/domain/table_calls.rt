//! Calls on headers: version, size, and questions about a table. None waits.
ghost use Rattle.gt_live.specs.Domains.{AnswersQuietly, AnswersRecorded, StaysIn};
ghost use Rattle.gt_live.specs.Domains.{frames_granted};
ghost use Rattle.gt_live.specs.Walks.{Called};

use super::{
    Domain, done, frames_granted, frames_reply, known_with, outcome_reply, refusal_of, size_by,
    size_reply, version_by, version_reply,
};
use crate::headers::{drive_query, drive_setup, drive_version};
use crate::monitor::Monitor;
use gt_audit::Hypercall;
use gt_calls::{judge_query, judge_setup, judge_version};
use gt_types::{Allows, Denial, DomId, Size};

impl Domain {
    ghost use Rattle.std.specs.Prelude.{◌≡◌, Some};
    ghost use Rattle.gt_live.specs.Domains.{BelongsTo};
    ghost use Rattle.gt_live.specs.Domains.{KeepsPinned};
    ghost use Rattle.gt_live.specs.Questions.{answer_by, asks_question};
    ghost use Rattle.gt_model.specs.Path.{path};
    ghost use Rattle.gt_model.specs.declared.action.HeaderQuery.{HeaderQuery};
    ghost use Rattle.gt_model.specs.declared.request.Request.{Request};
    ghost use Rattle.gt_live.specs.Domains.{known_on, verdict_of, verdict_of_frames, verdict_of_size};
    ghost use Rattle.gt_live.specs.Domains.{verdict_of_version};

    // Stores another version in the header of the domain's table, without a record.
    #[inline(always)]
    fn change_version<P: Allows>(
        &mut self,
        monitor: &Monitor<P>,
        version: u32,
    ) -> Result<(), Denial>
        requires mine { BelongsTo P.may monitor.now self.old }
        ensures stays { StaysIn P.may monitor.now self.old self.new }
        ensures answers { AnswersQuietly P.may monitor.now self.old
            (Request.SetVersion version) (verdict_of result) self.new }
    {
        let known = known_with(monitor, &self.seat, &self.own, &self.mappings);
        if let Some(verdict) = judge_version(known.header, known.own, version) {
            return done(verdict);
        }
        let caller = self.seat.dom();
        drive_version(&monitor.words, &known, &mut self.seat, caller, version);
        Ok(())
    }

    // Stores a larger number of frames in the header of the domain's table, without a record. Returns the number that
    // it then has.
    #[inline(always)]
    fn change_size<P: Allows>(&mut self, monitor: &Monitor<P>, frames: u32) -> Result<u32, Denial>
        requires mine { BelongsTo P.may monitor.now self.old }
        ensures stays { StaysIn P.may monitor.now self.old self.new }
        ensures answers { AnswersQuietly P.may monitor.now self.old
            (Request.SetupTable frames) (verdict_of_frames result) self.new }
    {
        let label = self.label(monitor);
        let known = known_with(monitor, &self.seat, &self.own, &self.mappings);
        if let Some(verdict) = judge_setup(&known, label, frames) {
            return frames_granted(verdict);
        }
        let caller = self.seat.dom();
        drive_setup(&monitor.words, &known, &mut self.seat, caller, frames);
        Ok(frames)
    }

    // Looks at the header of a domain's table for a question, without a record.
    #[inline(always)]
    fn ask<P: Allows>(&mut self, monitor: &Monitor<P>, dom: DomId) -> Result<u64, Denial>
        requires mine { BelongsTo P.may monitor.now self.old }
        ensures stays { StaysIn P.may monitor.now self.old self.new }
        ensures called { (question : HeaderQuery) → Called monitor.now.words.layout
            (path (known_on P.may monitor.now self.old) self.old.seat.dom (asks_question dom question))
            (answer_by question result) self.old.seat.view self.new.seat.view }
        ensures kept { KeepsPinned self.old self.new }
        ensures silent { self.new.trail ≡ self.old.trail }
    {
        let label = self.label(monitor);
        let known = known_with(monitor, &self.seat, &self.own, &self.mappings);
        let caller = self.seat.dom();
        if let Some(verdict) = judge_query(&known, caller, label, dom) {
            return Err(refusal_of(verdict));
        }
        Ok(drive_query(&monitor.words, &known, &mut self.seat, caller, dom))
    }

    /// Gives the domain's table this version, 1 or 2, while all its entries are invalid. Returns Ok without a change if
    /// it has that version already.
    ///
    /// # Errors
    /// N2 or N24. Nothing changes.
    pub fn set_version<P: Allows>(
        &mut self,
        monitor: &Monitor<P>,
        version: u32,
    ) -> Result<(), Denial>
        requires mine { BelongsTo P.may monitor.now self.old }
        ensures stays { StaysIn P.may monitor.now self.old self.new }
        ensures answers { AnswersRecorded P.may monitor.now self.old
            (Request.SetVersion version) (Hypercall.SetVersion version) (verdict_of result) self.new }
    {
        let result = self.change_version(monitor, version);
        self.add_record(Hypercall::SetVersion { version }, outcome_reply(&result));
        result
    }

    /// Grows the domain's table to `frames` frames, at most [`gt_types::MAX_TABLE_FRAMES`], and returns the number that
    /// it then has. A table with that many or more is unchanged.
    ///
    /// # Errors
    /// N5 or N23. Nothing changes.
    pub fn setup_table<P: Allows>(
        &mut self,
        monitor: &Monitor<P>,
        frames: u32,
    ) -> Result<u32, Denial>
        requires mine { BelongsTo P.may monitor.now self.old }
        ensures stays { StaysIn P.may monitor.now self.old self.new }
        ensures answers { AnswersRecorded P.may monitor.now self.old
            (Request.SetupTable frames) (Hypercall.SetupTable frames) (verdict_of_frames result) self.new }
    {
        let result = self.change_size(monitor, frames);
        self.add_record(Hypercall::SetupTable { frames }, frames_reply(&result));
        result
    }

    /// Returns the number of frames of a domain's table, and the maximum.
    ///
    /// # Errors
    /// N1 or N5.
    pub fn query_size<P: Allows>(
        &mut self,
        monitor: &Monitor<P>,
        dom: DomId,
    ) -> Result<Size, Denial>
        requires mine { BelongsTo P.may monitor.now self.old }
        ensures stays { StaysIn P.may monitor.now self.old self.new }
        ensures answers { AnswersRecorded P.may monitor.now self.old
            (Request.QuerySize dom) (Hypercall.QuerySize dom) (verdict_of_size result) self.new }
    {
        let result = size_by(self.ask(monitor, dom));
        self.add_record(Hypercall::QuerySize { dom }, size_reply(&result));
        result
    }

    /// Returns the version of a domain's table.
    ///
    /// # Errors
    /// N1 or N5.
    pub fn get_version<P: Allows>(
        &mut self,
        monitor: &Monitor<P>,
        dom: DomId,
    ) -> Result<u32, Denial>
        requires mine { BelongsTo P.may monitor.now self.old }
        ensures stays { StaysIn P.may monitor.now self.old self.new }
        ensures answers { AnswersRecorded P.may monitor.now self.old
            (Request.GetVersion dom) (Hypercall.GetVersion dom) (verdict_of_version result) self.new }
    {
        let result = version_by(self.ask(monitor, dom));
        self.add_record(Hypercall::GetVersion { dom }, version_reply(&result));
        result
    }
}
