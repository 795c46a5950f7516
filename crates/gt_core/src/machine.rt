//! The words and frames of a core, and what its calls do to them.
ghost use Rattle.std.specs.Prelude.{◌≡◌, ◌<◌, [], length, slice_get, map, IfOk, IfErr, OnOk, OnErr, IsOk};
ghost use Rattle.std.specs.Prelude.{Option, Some, None};
ghost use Rattle.gt_types.specs.Config.{IsWithinLimits};
ghost use Rattle.gt_model.specs.Rules.{CallerKnowledge};
ghost use Rattle.gt_calls.specs.Known.{knows};
ghost use Rattle.gt_calls.specs.Following.{Goes, IsLeftAlike};
ghost use Rattle.gt_model.specs.Asking.{bytes_given_by};
ghost use Rattle.gt_frames.specs.Sets.{all_zeros, AreKept};
ghost use Rattle.gt_frames.specs.Places.{frame_counts};
ghost use Rattle.gt_model.specs.History.{History};
ghost use Rattle.gt_core.specs.States.{State};
ghost use Rattle.gt_core.specs.Accesses.{IsReadable, IsAdmitted, AccessedBy, IsWriting};
ghost use Rattle.gt_core.specs.Effects.{applied};
ghost use Rattle.gt_core.specs.Sight.{sees};
ghost use Rattle.gt_core.specs.Shown.{shown_at};
ghost use Rattle.gt_core.specs.Acting.{OpensAs, IsStartFaultOf, Closed};
ghost use Rattle.gt_core.specs.Standing.{DomainsStand, StandsForSome, DoesEvent, DomainsDo};
ghost use Rattle.gt_core.specs.Acting.{Settled};
ghost use Rattle.gt_core.specs.Acting.{IsRoomFor};
ghost use Rattle.gt_core.specs.Acting.{WantsMemory, WantsMemoryNow, setting_by, state_by, known_by};
ghost use Rattle.gt_model.specs.History.{setting_of};
ghost use Rattle.gt_core.specs.Acting.{begun_element, ticked_element, ticked_with, answer_with, answer_of};
ghost use Rattle.gt_core.specs.Standing.{first_state};
ghost use Rattle.gt_model.specs.declared.trace.Event.TheVariants.{Begin, Tick};

use crate::accesses::{read_bytes, write_bytes};
use crate::core_state::{Begun, EntryView, Ticked};
use crate::effects::apply;
use crate::kept::Machine;
use crate::sight::see;
use crate::state::{DomainState, find};
use crate::underway::OpenCall;
use gt_calls::{
    Action, Call, CallResult, CallValue, CallerState, Judged, Observation, Request, Step,
    asked_fits,
};
use gt_frames::{FrameName, Frames};
use gt_model::{Answer, Bytes};
use gt_roster::Roster;
use gt_types::{Allows, Config, DomId, GrantRef, Memory, StartFault};
use std::alloc::Global;

// Opens a call, with its first step, or answers it at its beginning.
fn open_call<P: Allows>(
    known: &CallerState<'_, P>,
    dom: DomId,
    request: Request<'_>,
) -> Judged<OpenCall>
    ensures { OpensAs (knows P.may known.now) dom request.entry result }
{
    match Call::begin(dom, request, known) {
        Judged::Answered(verdict) => Judged::Answered(verdict),
        Judged::Open(first) => {
            let mut call = first;
            match call.next(known, Observation::Nothing) {
                Action::Step(step) => Judged::Open(OpenCall { call, step }),
                Action::Done(verdict) => Judged::Answered(verdict),
            }
        }
    }
}

fn answer_with(value: CallValue) -> Answer
    ensures { result ≡ answer_with value }
{
    match value {
        CallValue::Frames(frames) => Answer::Frames(frames),
        CallValue::Size(size) => Answer::Size(size),
        CallValue::Version(version) => Answer::Version(version),
    }
}

/// Returns the answer of a call with this result, if it gives no mapping and no bytes.
pub fn answer_of(verdict: CallResult) -> Answer
    ensures { result ≡ answer_of verdict }
{
    match verdict {
        CallResult::Granted | CallResult::Mapped(_) => Answer::Done,
        CallResult::Given(value) => answer_with(value),
        CallResult::Refused(denial) => Answer::Denied(denial),
    }
}

// Builds the result of a tick.
fn ticked_as(step: Step, seen: Observation, answer: Option<Answer>) -> Ticked
    ensures { result ≡ ticked_with step seen answer }
{
    match answer {
        None => Ticked::Step(step, seen),
        Some(answer) => Ticked::Done(step, seen, answer),
    }
}

// Returns the bytes that a request passes to be written.
fn given_by<'a>(request: Request<'a>) -> &'a [u8]
    ensures { result.now ≡ bytes_given_by request.entry }
{
    match request {
        Request::Store { bytes, .. } | Request::Poke { bytes, .. } => bytes,
        _ => &[],
    }
}

impl<P: Allows> Machine<P> {
    // Returns what the domain at this index knows by itself, and what the policy allows.
    fn known_at(&self, at: usize) -> CallerState<'_, P>
        requires { at < length self.now.domains.items }
        ensures { (d : State) → slice_get self.now.domains.items at ≡ Some d →
            knows P.may result ≡ known_by P.may self.now d }
    {
        let domain = &self.domains[at];
        CallerState {
            config: &self.config,
            rights: &self.rights,
            own: &domain.own,
            header: domain.header,
            mappings: &domain.mappings,
        }
    }

    /// Begins a call of the domain.
    ///
    /// # Errors
    ///
    /// `Memory`, if an allocation fails. The domains are then unchanged.
    pub fn begin(&mut self, dom: DomId, request: Request<'_>) -> Result<Begun, Memory>
        ensures stands { IfOk result (λ b. DomainsDo (setting_by P.may self.old) self.old.domains.items
            (Begin dom request.entry) (begun_element dom request.entry b) self.new.domains.items) }
        ensures config { self.new.config ≡ self.old.config }
        ensures rights { self.new.rights ≡ self.old.rights }
        ensures frames { self.new.frames ≡ self.old.frames }
        ensures memory { (h : History) → DomainsStand (setting_by P.may self.old) h self.old.domains.items →
            OnErr result (WantsMemory (setting_by P.may self.old) h dom request.entry) }
        ensures err { OnErr result (self.new.domains.items ≡ self.old.domains.items) }
    {
        let Some(at) = find(&self.config, &self.domains, dom) else {
            return Ok(Begun::NoDomain);
        };
        if self.domains[at].underway().is_some() {
            return Ok(Begun::Busy);
        }
        let judged = open_call(&self.known_at(at), dom, request);
        match judged {
            Judged::Open(open) => {
                asked_fits(open.call.request);
                let alloc = self.alloc;
                self.domains[at].start_call(alloc, open, given_by(request))?;
                Ok(Begun::Open)
            }
            Judged::Answered(verdict) => Ok(Begun::Done(answer_of(verdict))),
        }
    }

    // Makes the step of the domain's open call: writes the bytes that it writes, and changes words and mappings.
    // Returns what the step saw.
    fn perform(&mut self, at: usize, dom: DomId, last: OpenCall) -> Result<Observation, Memory>
        requires there { at < length self.old.domains.items }
        requires admitted { (d : State) → slice_get self.old.domains.items at ≡ Some d →
            IsAdmitted self.old.frames d last.call last.step }
        ensures sees { IfOk result (λ seen. seen ≡ sees self.old.domains.items dom last.step) }
        ensures applied { IfOk result (λ seen.
            self.new.domains.items ≡ applied dom last.step seen self.old.domains.items) }
        ensures accessed { OnOk result ((d : State) → slice_get self.old.domains.items at ≡ Some d →
            AccessedBy d last.call last.step self.old.frames self.new.frames) }
        ensures config { self.new.config ≡ self.old.config }
        ensures rights { self.new.rights ≡ self.old.rights }
        ensures memory { OnErr result (IsWriting last.step) }
        ensures domains { OnErr result (self.new.domains.items ≡ self.old.domains.items) }
        ensures frames { OnErr result (self.new.frames ≡ self.old.frames) }
    {
        write_bytes(&mut self.frames, &self.domains[at], last)?;
        let seen = see(&self.config, &self.domains, dom, last.step);
        apply(&self.config, &mut self.domains, dom, last.step, seen);
        Ok(seen)
    }

    // Returns the call after what its last step saw, and its next action. What its domain knew before that step would
    // lead to the same phase.
    fn advance(&self, at: usize, last: OpenCall, seen: Observation) -> (Call, Action)
        requires { at < length self.now.domains.items }
        ensures caller { result.0.caller ≡ last.call.caller }
        ensures request { result.0.request ≡ last.call.request }
        ensures goes { (d : State) → slice_get self.now.domains.items at ≡ Some d → (k : CallerKnowledge) →
            IsLeftAlike k (known_by P.may self.now d) last.call seen → Goes k last.call seen result.0 result.1 }
    {
        let mut call = last.call;
        let action = call.next(&self.known_at(at), seen);
        (call, action)
    }

    // Closes a call that is Ok and has no value. The answer is what its last step read, or nothing.
    fn close(&mut self, at: usize, last: OpenCall) -> Answer
        requires there { at < length self.old.domains.items }
        requires under { (d : State) → slice_get self.old.domains.items at ≡ Some d → d.underway ≡ Some last }
        requires readable { IsReadable self.old.frames last.call last.step }
        ensures config { self.new.config ≡ self.old.config }
        ensures rights { self.new.rights ≡ self.old.rights }
        ensures frames { self.new.frames ≡ self.old.frames }
        ensures settles { (d : State) → slice_get self.old.domains.items at ≡ Some d →
            Closed self.old.frames self.old.domains.items at d last.step result self.new.domains.items }
    {
        match last.step {
            Step::Read {
                dom,
                frame,
                off,
                ..
            } => {
                let out = self.domains[at].close_load(self.alloc);
                let name = FrameName {
                    owner: dom,
                    number: frame,
                };
                let bytes = read_bytes(&self.frames, name, off, out);
                Answer::Bytes(Bytes { bytes })
            }
            _ => {
                self.domains[at].close();
                Answer::Done
            }
        }
    }

    // Does what this action requires: keeps the next step of the domain's call, or returns the answer, which ends
    // the call.
    fn settle_call(
        &mut self,
        at: usize,
        last: OpenCall,
        call: Call,
        action: Action,
    ) -> Option<Answer>
        requires there { at < length self.old.domains.items }
        requires under { (d : State) → slice_get self.old.domains.items at ≡ Some d → d.underway ≡ Some last }
        requires readable { IsReadable self.old.frames last.call last.step }
        requires asks { call.request ≡ last.call.request }
        requires room { IsRoomFor last.call.request action }
        ensures config { self.new.config ≡ self.old.config }
        ensures rights { self.new.rights ≡ self.old.rights }
        ensures frames { self.new.frames ≡ self.old.frames }
        ensures settles { (d : State) → slice_get self.old.domains.items at ≡ Some d →
            Settled self.old.frames self.old.domains.items at d last.step call action result self.new.domains.items }
    {
        match action {
            Action::Step(step) => {
                self.domains[at].go_on(OpenCall { call, step });
                None
            }
            Action::Done(verdict) => match verdict {
                CallResult::Granted => Some(self.close(at, last)),
                CallResult::Mapped(held) => Some(Answer::Mapped(self.domains[at].add_mapping(
                    held,
                ))),
                _ => {
                    self.domains[at].close();
                    Some(answer_of(verdict))
                }
            },
        }
    }

    /// Makes the next step of the domain's open call.
    ///
    /// # Errors
    ///
    /// `Memory`, if an allocation fails. The domains and frames are then unchanged.
    pub fn tick(&mut self, dom: DomId) -> Result<Ticked, Memory>
        requires { StandsForSome (setting_by P.may self.old) (state_by self.old) }
        ensures stands { IfOk result (λ t. DoesEvent (setting_by P.may self.old) (state_by self.old)
            (Tick dom) (ticked_element dom t) (state_by self.new)) }
        ensures config { self.new.config ≡ self.old.config }
        ensures rights { self.new.rights ≡ self.old.rights }
        ensures memory { (h : History) → DomainsStand (setting_by P.may self.old) h self.old.domains.items →
            OnErr result (WantsMemoryNow (setting_by P.may self.old) h dom) }
        ensures domains { OnErr result (self.new.domains.items ≡ self.old.domains.items) }
        ensures frames { OnErr result (self.new.frames ≡ self.old.frames) }
    {
        let Some(at) = find(&self.config, &self.domains, dom) else {
            return Ok(Ticked::NoDomain);
        };
        let Some(open) = self.domains[at].underway() else {
            return Ok(Ticked::Idle);
        };
        let seen = self.perform(at, dom, open)?;
        let (call, action) = self.advance(at, open, seen);
        let answer = self.settle_call(at, open, call, action);
        Ok(ticked_as(open.step, seen, answer))
    }

    /// Returns what an entry of a domain shows. None for a reference beyond the table, or if the run has no such
    /// domain.
    pub fn show(&self, dom: DomId, gref: GrantRef) -> Option<EntryView>
        ensures { (h : History) → DomainsStand (setting_by P.may self.now) h self.now.domains.items →
            result ≡ shown_at (setting_by P.may self.now) h dom gref.0 }
    {
        let at = find(&self.config, &self.domains, dom)?;
        let domain = &self.domains[at];
        if gref.0 >= domain.header.entries() {
            return None;
        }
        domain.shown(gref)
    }
}

fn start_domains(alloc: Global, config: &Config) -> Result<Vec<DomainState>, Memory>
    ensures { IfOk result (λ states. states.items ≡ map (first_state config.now.first_gen) config.now.domains.items) }
{
    let mut domains = Vec::new(alloc);
    for domain in &config.domains {
        domains.push(DomainState::new(alloc, *domain, config.first_gen)?)?;
    }
    Ok(domains)
}

impl<P: Allows + Drop> Machine<P> {
    /// Returns a machine in which no call was made.
    ///
    /// # Errors
    ///
    /// The first fault of the configuration, or `Memory` if it has none.
    pub fn new(alloc: Global, config: Config, rights: P) -> Result<Machine<P>, StartFault>
        ensures domains { IfOk result (λ m. DomainsStand (setting_of config (P.may rights)) [] m.domains.items) }
        ensures frames { IfOk result (λ m. m.frames ≡ all_zeros (frame_counts config.domains.items)) }
        ensures kept { IfOk result (λ m. AreKept m.frames) }
        ensures config { IfOk result (λ m. m.config ≡ config) }
        ensures rights { IfOk result (λ m. m.rights ≡ rights) }
        ensures fits { IsOk result → IsWithinLimits config }
        ensures fault { IfErr result (IsStartFaultOf config) }
    {
        if let Err(fault) = config.check() {
            return Err(StartFault::Config(fault));
        }
        let domains = start_domains(alloc, &config)?;
        let frames = Frames::new(alloc, &config)?;
        let Ok(config) = Roster::new(alloc, config) else {
            return Err(StartFault::Memory);
        };
        Ok(Machine {
            alloc,
            config,
            rights,
            domains,
            frames,
        })
    }
}
