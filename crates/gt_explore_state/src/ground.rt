//! The tables and pages of a state.
use crate::copies::first_tables;
use crate::effects::apply_to;
use crate::pages::{SparsePage, read};
use crate::sight::see_in;
use crate::table::SparseTable;
use crate::writing::write_to;
use gt_calls::{Observation, Step};
use gt_roster::Roster;
use gt_types::{DomId, DomainConfig};
use std::alloc::{AllocError, Global};

/// The tables of the domains of a run, in their order, and the bytes of its frames.
#[derive(Drop)]
pub struct SparseState {
    pub tables: Vec<SparseTable>,
    pub pages: Vec<SparsePage>,
}

impl SparseState {
    ghost use Rattle.std.specs.Prelude.{◌≡◌, ◌+◌, ◌≤◌, ◌∷◌, [], ℕ, IfOk, OnOk, take, drop};
    ghost use Rattle.gt_types.specs.Config.{IsWithinLimits};
    ghost use Rattle.gt_types.specs.declared.config.Config.{Config};
    ghost use Rattle.gt_types.specs.declared.limits.TheConstants.{FRAME_SIZE};
    ghost use Rattle.gt_model.specs.declared.trace.Item.{Item};
    ghost use Rattle.gt_model.specs.History.{History, Setting, contents_at, seen_by};
    ghost use Rattle.gt_model.specs.declared.action.Observation.{Observation};
    ghost use Rattle.gt_explore_state.specs.Shows.{IsGivenTo, IsItemOfStep, IsSettingOf, LooksInRun, PagesShow, TablesShow};

    /// Makes the tables of these domains and the frames of a run, before anything happened.
    ///
    /// # Errors
    /// `AllocError` if an allocation fails.
    pub fn new(alloc: Global, domains: &[DomainConfig]) -> Result<SparseState, AllocError>
        ensures tables { (c : Config) (s : Setting) → IsSettingOf c s → IsWithinLimits c →
            c.domains.items ≡ domains.now → IfOk result (λ g. TablesShow s [] g.tables.items) }
        ensures pages { IfOk result (λ g. PagesShow [] g.pages.items) }
    {
        let tables = first_tables(alloc, domains)?;
        let pages = Vec::new(alloc);
        Ok(SparseState { tables, pages })
    }

    /// Returns what a step of the domain sees.
    pub fn see(&self, config: &Roster, actor: DomId, step: Step) -> Observation
        ensures { (s : Setting) (h : History) → IsSettingOf config.now s → TablesShow s h self.now.tables.items →
            LooksInRun s actor step → result ≡ seen_by s h actor step }
    {
        see_in(config, self.tables.as_slice(), actor, step)
    }

    /// Applies to the tables a step, with this observation, of the domain at this position.
    ///
    /// # Errors
    /// `AllocError` if an allocation fails. The tables must not be used after that.
    pub fn apply(
        &mut self,
        config: &Roster,
        at: usize,
        step: Step,
        seen: Observation,
    ) -> Result<(), AllocError>
        ensures shows { (s : Setting) (h : History) (i : Item) → IsSettingOf config.now s →
            TablesShow s h self.old.tables.items → IsItemOfStep s h i at step seen →
            OnOk result (TablesShow s (i ∷ h) self.new.tables.items) }
        ensures pages { self.new.pages ≡ self.old.pages }
    {
        apply_to(config, self.tables.as_mut_slice(), at, step, seen)
    }

    /// Writes to the pages what a step writes whose call was given these bytes.
    ///
    /// # Errors
    /// `AllocError` if an allocation fails. The pages must not be used after that.
    pub fn write(&mut self, alloc: Global, step: Step, given: &[u8]) -> Result<(), AllocError>
        ensures shows { (s : Setting) (h : History) (i : Item) (at : ℕ) (seen : Observation) →
            PagesShow h self.old.pages.items → IsItemOfStep s h i at step seen → IsGivenTo h i.actor step given.now →
            OnOk result (PagesShow (i ∷ h) self.new.pages.items) }
        ensures tables { self.new.tables ≡ self.old.tables }
    {
        write_to(alloc, &mut self.pages, step, given)
    }

    /// Reads `len` bytes of a frame, starting at `off`.
    ///
    /// # Errors
    /// `AllocError` if an allocation fails.
    pub fn read(
        &self,
        alloc: Global,
        owner: DomId,
        frame: u64,
        off: u16,
        len: u16,
    ) -> Result<Vec<u8>, AllocError>
        ensures { (h : History) → PagesShow h self.now.pages.items → off + len ≤ FRAME_SIZE →
            IfOk result (λ v. v.items ≡ take len (drop off (contents_at h owner.0 frame))) }
    {
        read(alloc, self.pages.as_slice(), owner, frame, off, len)
    }
}
