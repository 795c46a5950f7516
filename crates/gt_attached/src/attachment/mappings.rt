//! The calls of an attached domain on mappings: map, unmap, and a look at those that it has.
use crate::attached::AttachedDomain;
use gt_calls::{Handle, HeldPin};
use gt_live::{LeftWord, NewMapping};
use gt_types::{Allows, Denial, DomId, GrantRef};

impl<P: Allows + Drop> AttachedDomain<P> {
    ghost use Rattle.std.specs.Prelude.{◌≡◌, Err, IfOk, IsSome, None, Ok, OnErr, OnOk};
    ghost use Rattle.gt_audit.specs.Trails.{AppendsRecord};
    ghost use Rattle.gt_audit.specs.declared.record.Hypercall.TheVariants as hypercalls;
    ghost use Rattle.gt_model.specs.declared.request.Request.TheVariants as requests;
    ghost use Rattle.gt_model.specs.declared.held.HeldPin.{HeldPin as Pin};
    ghost use Rattle.gt_types.specs.Denial.{denial_of};
    ghost use Rattle.gt_types.specs.declared.denial.Facts.TheVariants as facts;
    ghost use Rattle.gt_types.specs.declared.denial.Rule.TheVariants.{N6};
    ghost use Rattle.gt_handles.specs.Handles.{value_of};
    ghost use Rattle.gt_live.specs.Domains.{Answered, KeepsPinned, outcome_of, record_of_result, reply_of, subject_of};
    ghost use Rattle.gt_live.specs.Domains.{verdict_of};
    ghost use Rattle.gt_live.specs.Mappings.{Removes, unused_handle};
    ghost use Rattle.gt_live.specs.Parts.{mappings_of, seat_of, trail_of, words_of};
    ghost use Rattle.gt_live.specs.Releasing.{DropsTo, MapAdds};
    ghost use Rattle.gt_attached.specs.Searching.{FindsMapping};
    ghost use Rattle.gt_attached.specs.Seated.{StaysIdle};

    /// Maps an entry of a domain, for reading and writing (flags 2) or for reading (flags 6): `GNTMAP_host_map` and
    /// `GNTMAP_readonly` of `grant_table.h`. Returns the mapping that was added.
    ///
    /// # Errors
    /// N1, N2, N5, N8 to N13, N16 to N18, or N26. Mappings and pins are unchanged.
    pub fn map(&mut self, dom: DomId, gref: GrantRef, flags: u32) -> Result<NewMapping, Denial>
        requires idle { self.old.copying ≡ None }
        ensures stays { StaysIdle self.old self.new }
        ensures answered { MapAdds P.may self.old.monitor self.old.domain
            (requests.Map dom gref flags) result self.new.domain }
        ensures recorded { AppendsRecord (trail_of self.old.domain)
            (record {
              dom = (seat_of self.old.domain).dom;
              call = hypercalls.Map dom gref flags;
              reply = reply_of (outcome_of result);
            })
            (trail_of self.new.domain) }
    {
        self.map_at::<()>(dom, gref, flags)
    }

    /// Maps an entry of a domain as [`map`](AttachedDomain::map) does. `Site` is any type that no other caller passes: each
    /// caller then inlines a separate body, which does not test the flags that are constant in that caller.
    ///
    /// # Errors
    /// Those of [`map`](AttachedDomain::map).
    #[inline(always)]
    pub fn map_at<Site>(
        &mut self,
        dom: DomId,
        gref: GrantRef,
        flags: u32,
    ) -> Result<NewMapping, Denial>
        requires idle { self.old.copying ≡ None }
        ensures stays { StaysIdle self.old self.new }
        ensures answered { MapAdds P.may self.old.monitor self.old.domain
            (requests.Map dom gref flags) result self.new.domain }
        ensures recorded { AppendsRecord (trail_of self.old.domain)
            (record {
              dom = (seat_of self.old.domain).dom;
              call = hypercalls.Map dom gref flags;
              reply = reply_of (outcome_of result);
            })
            (trail_of self.new.domain) }
    {
        self.attachment
            .domain
            .map_with_pin::<P, Site>(&self.monitor, dom, gref, flags)
    }

    /// Unmaps a mapping, and releases its pin. Returns its entry, with the control word that this left.
    ///
    /// # Errors
    /// N6 if the handle names no mapping of the domain, or N5. Mappings and pins are unchanged.
    pub fn unmap(&mut self, handle: Handle) -> Result<LeftWord, Denial>
        requires idle { self.old.copying ≡ None }
        ensures stays { StaysIdle self.old self.new }
        ensures answered { Answered P.may self.old.monitor self.old.domain
            (requests.Unmap handle) (outcome_of result) self.new.domain }
        ensures removed { IfOk result (λ left. DropsTo (words_of self.old.monitor).layout handle left
            (mappings_of self.old.domain) (seat_of self.old.domain).view
            (mappings_of self.new.domain) (seat_of self.new.domain).view) }
        ensures refused { OnErr result (KeepsPinned self.old.domain self.new.domain) }
        ensures absent { value_of (mappings_of self.old.domain) handle ≡ None → result ≡ Err (denial_of N6 facts.None) }
        ensures recorded { AppendsRecord (trail_of self.old.domain)
            (record_of_result self.old.domain
            (hypercalls.Unmap (subject_of self.old.domain handle)) (outcome_of result))
            (trail_of self.new.domain) }
    {
        self.attachment
            .domain
            .unmap_with_word(&self.monitor, handle)
    }

    /// Drops a mapping, and releases its pin, without asking the policy and without a record.
    ///
    /// # Errors
    /// N6 if the handle names no mapping of the domain. Mappings and pins are unchanged.
    pub(crate) fn release(&mut self, handle: Handle) -> Result<(), Denial>
        requires idle { self.old.copying ≡ None }
        ensures stays { StaysIdle self.old self.new }
        ensures answered { Answered P.may self.old.monitor self.old.domain
            (requests.Release handle) (verdict_of result) self.new.domain }
        ensures removed { OnOk result ((p : Pin) ×
            Removes (mappings_of self.old.domain) (mappings_of self.new.domain) handle p) }
        ensures there { IsSome (value_of (mappings_of self.old.domain) handle) → result ≡ Ok tt }
        ensures silent { trail_of self.new.domain ≡ trail_of self.old.domain }
    {
        self.attachment.domain.release(&self.monitor, handle)
    }

    /// Returns the mapping under a handle, or `None` if the domain has no such mapping.
    pub fn mapping(&self, handle: Handle) -> Option<HeldPin>
        requires idle { self.now.copying ≡ None }
        ensures { result ≡ value_of (mappings_of self.now.domain) handle }
    {
        self.attachment.domain.mapping(&self.monitor, handle)
    }

    /// Returns the mapping of the domain with the least key from `from` on, or `None` if no key from there on has one. Looks
    /// at each key before it.
    pub fn next_mapping(&self, from: usize) -> Option<NewMapping>
        requires idle { self.now.copying ≡ None }
        ensures { FindsMapping (mappings_of self.now.domain) from result }
    {
        let handle = self.attachment.domain.next_mapping(from)?;
        let held = self.mapping(handle)?;
        Some(NewMapping { handle, held })
    }

    /// Returns a handle under which the domain has no mapping now. Its serial is that of the next mapping.
    pub fn unused_handle(&self) -> Handle
        ensures value { result ≡ unused_handle self.now.domain }
        ensures unused { value_of (mappings_of self.now.domain) result ≡ None }
    {
        self.attachment.domain.unused_handle()
    }
}
