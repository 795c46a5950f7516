//! Map and unmap.
ghost use Rattle.std.specs.Prelude.{◌≡◌};
ghost use Rattle.gt_words.specs.Conditions.{IsSameSeat, position_at};
ghost use Rattle.gt_live.specs.Walks.{Called};
ghost use Rattle.gt_live.specs.Driving.{Leaves};
ghost use Rattle.gt_audit.specs.Trails.{AppendsRecord};
ghost use Rattle.gt_live.specs.Parts.{mappings_of, seat_of, trail_of};

use super::{Domain, known_with, record_done, refusal_of};
use crate::driving::{MapArgs, PlacedLeg, drive_map, pin_of};
use crate::monitor::Monitor;
use gt_audit::{Hypercall, Record, Reply, Trail};
use gt_calls::{CallResult, Handle, HeldPin, Leg, judge_map, judge_release, judge_unmap, map_leg};
use gt_types::{Allows, Denial, DomId, Facts, GrantRef, Rule, TypeId};

/// A mapping that a map added: its handle, and the pin that it holds.
#[derive(Clone, Copy)]
pub struct NewMapping {
    pub handle: Handle,
    pub held: HeldPin,
}

/// What an unmap left: the entry that the mapping was of, and its control word just after the release of the pin. The
/// word has whether the entry is valid, and the pins that it still has.
#[derive(Clone, Copy)]
pub struct LeftWord {
    pub dom: DomId,
    pub gref: GrantRef,
    pub word: u64,
}

// Returns the position of a domain in the run, or the number of domains if the run does not have it. A map has looked
// its owner up for the rules just before, so this look costs nothing.
#[inline(always)]
fn position_of<P: Allows>(monitor: &Monitor<P>, dom: DomId) -> usize
    ensures { result ≡ position_at monitor.now.words dom }
{
    match monitor.config.position(dom) {
        Some(at) => at,
        None => monitor.config.config().domains.len(),
    }
}

// Records a map that was Ok. The record of a refused map is made elsewhere, so a map that is Ok makes no room for that
// record.
#[inline(always)]
fn record_map(trail: &mut Trail, caller: DomId, dom: DomId, gref: GrantRef, flags: u32)
    ensures { AppendsRecord trail.old (record { dom = caller; call = Hypercall.Map dom gref flags; reply = Reply.Done })
        trail.new }
{
    record_done(trail, caller, Hypercall::Map { dom, gref, flags });
}

#[inline(always)]
fn record_map_refusal(
    trail: &mut Trail,
    caller: DomId,
    dom: DomId,
    gref: GrantRef,
    flags: u32,
    denial: Denial,
)
    ensures { AppendsRecord trail.old
        (record { dom = caller; call = Hypercall.Map dom gref flags; reply = Reply.Denied denial }) trail.new }
{
    let call = Hypercall::Map { dom, gref, flags };
    let reply = Reply::Denied(denial);
    trail.push(Record {
        dom: caller,
        call,
        reply,
    });
}

// Records an unmap that was Ok.
#[inline(always)]
fn record_unmap(trail: &mut Trail, caller: DomId, subject: Option<(DomId, GrantRef)>)
    ensures { AppendsRecord trail.old
        (record { dom = caller; call = Hypercall.Unmap subject; reply = Reply.Done }) trail.new }
{
    record_done(trail, caller, Hypercall::Unmap { subject });
}

// Records a refused unmap. It is inlined, since a call of it would make each unmap keep room for the refusal.
#[inline(always)]
fn record_unmap_refusal(
    trail: &mut Trail,
    caller: DomId,
    subject: Option<(DomId, GrantRef)>,
    denial: Denial,
)
    ensures { AppendsRecord trail.old
        (record { dom = caller; call = Hypercall.Unmap subject; reply = Reply.Denied denial }) trail.new }
{
    trail.push(Record {
        dom: caller,
        call: Hypercall::Unmap { subject },
        reply: Reply::Denied(denial),
    });
}

impl Domain {
    ghost use Rattle.std.specs.Prelude.{◌≡◌, IfOk, OnOk, OnErr, None, Some};
    ghost use Rattle.gt_live.specs.Domains.{mapping_reply, subject_of, record_of_result, Answered, BelongsTo};
    ghost use Rattle.gt_live.specs.Domains.{outcome_of, reply_of};
    ghost use Rattle.gt_live.specs.Releasing.{DropsTo, MapAdds};
    ghost use Rattle.gt_live.specs.Parts.{words_of};
    ghost use Rattle.gt_live.specs.Domains.{Drops, IsUnsettled, KeepsPinned, MapAnswered};
    ghost use Rattle.gt_live.specs.Maps.{pin_effect, pin_verdict};
    ghost use Rattle.gt_model.specs.Path.{map_leg, path};
    ghost use Rattle.gt_model.specs.declared.request.Request.{Request};
    ghost use Rattle.gt_model.specs.Rules.{map_begun, owner_label, unmap_begun};
    ghost use Rattle.gt_model.specs.declared.request.OpenRequest.TheVariants as asks;
    ghost use Rattle.gt_live.specs.Domains.{known_on, verdict_of};
    ghost use Rattle.std.specs.Option.{IsSome};
    ghost use Rattle.gt_handles.specs.Handles.{value_of};
    ghost use Rattle.gt_live.specs.Mappings.{Removes};
    ghost use Rattle.gt_model.specs.declared.held.HeldPin.{HeldPin};

    // Builds the leg of a map.
    #[inline(always)]
    fn map_leg<P: Allows>(&self, monitor: &Monitor<P>, map: MapArgs) -> Leg
        ensures { result ≡ map_leg (known_on P.may monitor.now self.now) self.now.seat.dom
            map.dom map.gref map.flags }
    {
        map_leg(
            &self.known(monitor),
            self.seat.dom(),
            map.dom,
            map.gref,
            map.flags,
        )
    }

    // Drives a map to its end. Requires that it is not decided at its beginning.
    #[inline(always)]
    fn drive_map<P: Allows>(
        &mut self,
        monitor: &Monitor<P>,
        map: MapArgs,
        placed: &PlacedLeg,
    ) -> Result<HeldPin, Denial>
        requires mine { BelongsTo P.may monitor.now self.old }
        requires unanswered { map_begun (known_on P.may monitor.now self.old) self.old.seat.dom map.dom map.flags
            ≡ None }
        requires leg { placed.now.leg ≡ map_leg (known_on P.may monitor.now self.old) self.old.seat.dom
            map.dom map.gref map.flags }
        requires place { placed.now.at ≡ position_at monitor.now.words placed.now.leg.dom }
        ensures kept { IsUnsettled self.old self.new }
        ensures called { Called monitor.now.words.layout
            (path (known_on P.may monitor.now self.old) self.old.seat.dom (asks.Map map.dom map.gref map.flags))
            (pin_verdict result) self.old.seat.view self.new.seat.view }
        ensures leaves { Leaves (known_on P.may monitor.now self.old) monitor.now.words.layout self.old.seat.dom
            (asks.Map map.dom map.gref map.flags) self.old.seat.view self.new.seat.view (pin_effect result) }
    {
        let known = known_with(monitor, &self.seat, &self.own, &self.mappings);
        let caller = self.seat.dom();
        drive_map(&monitor.words, &known, &mut self.seat, caller, map, placed)
    }

    // Maps an entry, without a record. Its leg is built before room is made: after an allocation the owner would have
    // to be looked up again.
    #[inline(always)]
    fn make_mapping<P: Allows, Site>(
        &mut self,
        monitor: &Monitor<P>,
        dom: DomId,
        gref: GrantRef,
        flags: u32,
    ) -> Result<NewMapping, Denial>
        requires mine { BelongsTo P.may monitor.now self.old }
        ensures mine { BelongsTo P.may monitor.now self.new }
        ensures seat { IsSameSeat self.old.seat self.new.seat }
        ensures answered { MapAdds P.may monitor.now self.old (Request.Map dom gref flags) result self.new }
        ensures silent { self.new.trail ≡ self.old.trail }
    {
        if let Some(verdict) = self.judge_map(monitor, dom, flags) {
            return Err(refusal_of(verdict));
        }
        let map = MapArgs { dom, gref, flags };
        let leg = self.map_leg(monitor, map);
        let at = position_of(monitor, leg.dom);
        let placed = PlacedLeg { leg, at };
        if self.mappings.reserve().is_err() {
            return Err(Denial::new(Rule::N26, Facts::None));
        }
        match self.drive_map(monitor, map, &placed) {
            Ok(held) => {
                let handle = self.mappings.insert(held);
                Ok(NewMapping { handle, held })
            }
            Err(denial) => Err(denial),
        }
    }

    /// Maps an entry of a domain as [`map`](Domain::map) does, and returns the mapping that was added. `Site` is any type
    /// that no other caller passes: each caller then has a map of its own to inline, while one map for several callers would
    /// be too large for that.
    ///
    /// # Errors
    /// Those of [`map`](Domain::map).
    #[inline(always)]
    pub fn map_with_pin<P: Allows, Site>(
        &mut self,
        monitor: &Monitor<P>,
        dom: DomId,
        gref: GrantRef,
        flags: u32,
    ) -> Result<NewMapping, Denial>
        requires mine { BelongsTo P.may monitor.now self.old }
        ensures mine { BelongsTo P.may monitor.now self.new }
        ensures seat { IsSameSeat (seat_of self.old) (seat_of self.new) }
        ensures answered { MapAdds P.may monitor.now self.old (Request.Map dom gref flags) result self.new }
        ensures recorded { AppendsRecord (trail_of self.old)
            (record {
              dom = (seat_of self.old).dom;
              call = Hypercall.Map dom gref flags;
              reply = reply_of (outcome_of result);
            })
            (trail_of self.new) }
    {
        let caller = self.seat.dom();
        match self.make_mapping::<P, Site>(monitor, dom, gref, flags) {
            Ok(made) => {
                record_map(&mut self.trail, caller, dom, gref, flags);
                Ok(made)
            }
            Err(denial) => {
                record_map_refusal(&mut self.trail, caller, dom, gref, flags, denial);
                Err(denial)
            }
        }
    }

    /// Maps an entry of a domain, for reading and writing (flags 2) or for reading (flags 6). The flags are
    /// `GNTMAP_host_map` (2) and `GNTMAP_readonly` (4) of `grant_table.h`. `DOMID_SELF` names the caller. The handle
    /// names the mapping, and is never used again.
    ///
    /// # Errors
    /// The first rule that applies: N1, N2, N5 or N8 at the beginning; N9 with the header's word; N10 to N13, N16, N17
    /// or N18 with the entry's word. N26 if no rule applies at the beginning and the mapping cannot be allocated.
    /// Mappings and pins are unchanged.
    pub fn map<P: Allows>(
        &mut self,
        monitor: &Monitor<P>,
        dom: DomId,
        gref: GrantRef,
        flags: u32,
    ) -> Result<Handle, Denial>
        requires mine { BelongsTo P.may monitor.now self.old }
        ensures mine { BelongsTo P.may monitor.now self.new }
        ensures seat { IsSameSeat (seat_of self.old) (seat_of self.new) }
        ensures answered { MapAnswered P.may monitor.now self.old (Request.Map dom gref flags) result self.new }
        ensures recorded { AppendsRecord (trail_of self.old)
            (record { dom = (seat_of self.old).dom; call = Hypercall.Map dom gref flags; reply = mapping_reply result })
            (trail_of self.new) }
    {
        match self.map_with_pin::<P, ()>(monitor, dom, gref, flags) {
            Ok(made) => Ok(made.handle),
            Err(denial) => Err(denial),
        }
    }

    // Returns the result of a map, if it is decided at its beginning.
    #[inline(always)]
    fn judge_map<P: Allows>(
        &self,
        monitor: &Monitor<P>,
        dom: DomId,
        flags: u32,
    ) -> Option<CallResult>
        requires mine { BelongsTo P.may monitor.now self.now }
        ensures { result ≡ map_begun (known_on P.may monitor.now self.now) self.now.seat.dom dom flags }
    {
        let (caller, label) = (self.seat.dom(), self.label(monitor));
        judge_map(&self.known(monitor), caller, label, dom, flags)
    }

    // Returns the label of the owner of the mapping under a handle.
    #[inline(always)]
    fn owner_label<P: Allows>(&self, monitor: &Monitor<P>, handle: Handle) -> TypeId
        requires mine { BelongsTo P.may monitor.now self.now }
        ensures { result ≡ owner_label monitor.now.config.domains.items (value_of self.now.mappings handle) }
    {
        match self.mappings.get(handle).copied() {
            Some(held) => monitor.config.domain(held.dom).unwrap().label,
            None => TypeId(0),
        }
    }

    // Returns the position of the owner of the mapping under a handle.
    #[inline(always)]
    fn position_under<P: Allows>(&self, monitor: &Monitor<P>, handle: Handle) -> usize
        requires mine { BelongsTo P.may monitor.now self.now }
        ensures { (p : HeldPin) → value_of self.now.mappings handle ≡ Some p
            → result ≡ position_at monitor.now.words p.dom }
    {
        match self.mappings.get(handle).copied() {
            Some(held) => monitor.config.position(held.dom).unwrap(),
            None => 0,
        }
    }

    // Returns the result of an unmap, if it is decided at its beginning. The owner of a mapping is of the run, so its
    // label is there.
    #[inline(always)]
    fn judge_unmap<P: Allows>(&self, monitor: &Monitor<P>, handle: Handle) -> Option<CallResult>
        requires mine { BelongsTo P.may monitor.now self.now }
        ensures { result ≡ unmap_begun (known_on P.may monitor.now self.now) self.now.seat.dom handle }
    {
        let source = self.label(monitor);
        let target = self.owner_label(monitor, handle);
        judge_unmap(&self.known(monitor), source, target, handle)
    }

    // Drops the mapping that the handle names, and releases its pin. Returns its entry, and the word that this left.
    #[inline(always)]
    fn drop_mapping<P: Allows>(&mut self, monitor: &Monitor<P>, handle: Handle) -> LeftWord
        requires mine { BelongsTo P.may monitor.now self.old }
        requires there { IsSome (value_of self.old.mappings handle) }
        ensures mine { BelongsTo P.may monitor.now self.new }
        ensures seat { IsSameSeat self.old.seat self.new.seat }
        ensures dropped { Drops monitor.now.words.layout handle self.old.mappings self.old.seat.view
            self.new.mappings self.new.seat.view }
        ensures left { DropsTo monitor.now.words.layout handle result self.old.mappings self.old.seat.view
            self.new.mappings self.new.seat.view }
        ensures silent { self.new.trail ≡ self.old.trail }
    {
        let at = self.position_under(monitor, handle);
        let held = self.mappings.take(handle).unwrap();
        let word = monitor.words.unpin_at(&mut self.seat, pin_of(held), at);
        LeftWord {
            dom: held.dom,
            gref: held.gref,
            word,
        }
    }

    // Unmaps a mapping, without a record.
    #[inline(always)]
    fn unmap_unrecorded<P: Allows>(
        &mut self,
        monitor: &Monitor<P>,
        handle: Handle,
    ) -> Result<LeftWord, Denial>
        requires mine { BelongsTo P.may monitor.now self.old }
        ensures mine { BelongsTo P.may monitor.now self.new }
        ensures seat { IsSameSeat self.old.seat self.new.seat }
        ensures answered { Answered P.may monitor.now self.old (Request.Unmap handle) (outcome_of result) self.new }
        ensures removed { IfOk result (λ left. DropsTo monitor.now.words.layout handle left
            self.old.mappings self.old.seat.view self.new.mappings self.new.seat.view) }
        ensures refused { OnErr result (KeepsPinned self.old self.new) }
        ensures silent { self.new.trail ≡ self.old.trail }
    {
        if let Some(verdict) = self.judge_unmap(monitor, handle) {
            return Err(refusal_of(verdict));
        }
        Ok(self.drop_mapping(monitor, handle))
    }

    /// Drops a mapping, and releases its pin, without asking the policy and without a record. [`Domain::finish`] does
    /// this with each mapping.
    ///
    /// # Errors
    /// N6. Mappings and pins are unchanged.
    pub fn release<P: Allows>(&mut self, monitor: &Monitor<P>, handle: Handle) -> Result<(), Denial>
        requires mine { BelongsTo P.may monitor.now self.old }
        ensures mine { BelongsTo P.may monitor.now self.new }
        ensures seat { IsSameSeat (seat_of self.old) (seat_of self.new) }
        ensures answered { Answered P.may monitor.now self.old (Request.Release handle) (verdict_of result) self.new }
        ensures removed { OnOk result ((p : HeldPin) × Removes (mappings_of self.old) (mappings_of self.new) handle p) }
        ensures refused { OnErr result (KeepsPinned self.old self.new) }
        ensures silent { trail_of self.new ≡ trail_of self.old }
    {
        if let Some(verdict) = judge_release(&self.mappings, handle) {
            return Err(refusal_of(verdict));
        }
        self.drop_mapping(monitor, handle);
        Ok(())
    }

    // Unmaps a mapping of this entry, and records the call.
    #[inline(always)]
    fn unmap_of<P: Allows>(
        &mut self,
        monitor: &Monitor<P>,
        handle: Handle,
        subject: Option<(DomId, GrantRef)>,
    ) -> Result<LeftWord, Denial>
        requires mine { BelongsTo P.may monitor.now self.old }
        requires subject { subject ≡ subject_of self.old handle }
        ensures mine { BelongsTo P.may monitor.now self.new }
        ensures seat { IsSameSeat self.old.seat self.new.seat }
        ensures answered { Answered P.may monitor.now self.old (Request.Unmap handle) (outcome_of result) self.new }
        ensures removed { IfOk result (λ left. DropsTo monitor.now.words.layout handle left
            self.old.mappings self.old.seat.view self.new.mappings self.new.seat.view) }
        ensures refused { OnErr result (KeepsPinned self.old self.new) }
        ensures recorded { AppendsRecord self.old.trail
            (record_of_result self.old (Hypercall.Unmap (subject_of self.old handle)) (outcome_of result))
            self.new.trail }
    {
        let caller = self.seat.dom();
        match self.unmap_unrecorded(monitor, handle) {
            Ok(left) => {
                record_unmap(&mut self.trail, caller, subject);
                Ok(left)
            }
            Err(denial) => {
                record_unmap_refusal(&mut self.trail, caller, subject, denial);
                Err(denial)
            }
        }
    }

    /// Unmaps a mapping as [`unmap`](Domain::unmap) does, and returns its entry with the control word that the release of
    /// the pin left. So the caller sees whether it was the last one.
    ///
    /// # Errors
    /// Those of [`unmap`](Domain::unmap).
    #[inline(always)]
    pub fn unmap_with_word<P: Allows>(
        &mut self,
        monitor: &Monitor<P>,
        handle: Handle,
    ) -> Result<LeftWord, Denial>
        requires mine { BelongsTo P.may monitor.now self.old }
        ensures mine { BelongsTo P.may monitor.now self.new }
        ensures seat { IsSameSeat (seat_of self.old) (seat_of self.new) }
        ensures answered { Answered P.may monitor.now self.old (Request.Unmap handle) (outcome_of result) self.new }
        ensures removed { IfOk result (λ left. DropsTo (words_of monitor.now).layout handle left
            (mappings_of self.old) (seat_of self.old).view (mappings_of self.new) (seat_of self.new).view) }
        ensures refused { OnErr result (KeepsPinned self.old self.new) }
        ensures recorded { AppendsRecord (trail_of self.old)
            (record_of_result self.old (Hypercall.Unmap (subject_of self.old handle)) (outcome_of result))
            (trail_of self.new) }
    {
        // Each arm has its own copy of the call, so a handle with a mapping is looked up only once.
        match self.subject(handle) {
            Some(subject) => self.unmap_of(monitor, handle, Some(subject)),
            None => self.unmap_of(monitor, handle, None),
        }
    }

    /// Unmaps a mapping, and releases its pin.
    ///
    /// # Errors
    /// N6 or N5. Mappings and pins are unchanged.
    pub fn unmap<P: Allows>(&mut self, monitor: &Monitor<P>, handle: Handle) -> Result<(), Denial>
        requires mine { BelongsTo P.may monitor.now self.old }
        ensures mine { BelongsTo P.may monitor.now self.new }
        ensures seat { IsSameSeat (seat_of self.old) (seat_of self.new) }
        ensures answered { Answered P.may monitor.now self.old (Request.Unmap handle) (verdict_of result) self.new }
        ensures removed { OnOk result ((p : HeldPin) × Removes (mappings_of self.old) (mappings_of self.new) handle p) }
        ensures refused { OnErr result (KeepsPinned self.old self.new) }
        ensures recorded { AppendsRecord (trail_of self.old)
            (record_of_result self.old (Hypercall.Unmap (subject_of self.old handle)) (verdict_of result))
            (trail_of self.new) }
    {
        match self.unmap_with_word(monitor, handle) {
            Ok(_left) => Ok(()),
            Err(denial) => Err(denial),
        }
    }
}
