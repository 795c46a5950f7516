//! The core: a machine over events.
ghost use Rattle.std.specs.Prelude.{◌≡◌, [], IfOk, IfErr, OnErr, IsOk};
ghost use Rattle.gt_types.specs.Config.{IsWithinLimits};
ghost use Rattle.gt_model.specs.Legal.{Legal};
ghost use Rattle.gt_core.specs.Standing.{DoesEvent, setting_in};
ghost use Rattle.gt_core.specs.Acting.{IsStartFaultOf, begun_element, ticked_element};
ghost use Rattle.gt_model.specs.History.{setting_of};

use crate::kept::Machine;
use gt_calls::{Handle, Observation, Request, Step};
use gt_entry::Entry;
use gt_model::{Answer, Element, Event, Item, ItemEvent, Trace};
use gt_types::{Allows, Config, DomId, GrantRef, Memory, StartFault};
use std::alloc::Global;
use std::marker::Model;

/// The grant tables of a run. Its type guarantees that it represents a history of items, and that each write to
/// each frame was by right.
#[derive(Drop)]
pub struct Core<P: Allows> {
    machine: Machine<P>,
}

impl<P: Allows> Model for Core<P> {
    ghost use Rattle.gt_core.specs.Standing.{CoreModel, StandsForSome};
    ghost use Rattle.gt_core.specs.Acting.{setting_by, state_by};

    ghost Value = { CoreModel P };

    ghost view = { λ c. record {
      config = c.machine.config;
      rights = c.machine.rights;
      state = state_by c.machine;
    } };

    ghost invariant = { λ c. StandsForSome (setting_by P.may c.machine) (state_by c.machine) };
}

/// The result of `begin`.
#[derive(Drop)]
pub enum Begun {
    /// The call is open. `tick` makes its steps.
    Open,
    /// The call was answered at its beginning.
    Done(Answer),
    /// The domain has a call open. Nothing happened.
    Busy,
    /// The run has no such domain. Nothing happened.
    NoDomain,
}

/// The result of `tick`.
#[derive(Drop)]
pub enum Ticked {
    /// The step was made, and saw this. The call is still open.
    Step(Step, Observation),
    /// The step was made, and saw this. The call ended with this answer.
    Done(Step, Observation, Answer),
    /// The domain has no call open. Nothing happened.
    Idle,
    /// The run has no such domain. Nothing happened.
    NoDomain,
}

/// What an entry shows: the entry, its generation, and the number of its live read and write pins.
#[derive(Clone, Copy, PartialEq, Eq)]
pub struct EntryView {
    pub entry: Entry,
    pub generation: u32,
    pub reads: u16,
    pub writes: u16,
}

impl<P: Allows> Core<P> {
    ghost use Rattle.std.specs.Prelude.{◌≡◌, IfOk, OnErr};
    ghost use Rattle.gt_frames.specs.Sets.{AreKept};
    ghost use Rattle.gt_model.specs.History.{History};
    ghost use Rattle.gt_core.specs.Shown.{shown_at};
    ghost use Rattle.gt_core.specs.Subject.{subject_at};
    ghost use Rattle.gt_core.specs.Standing.{CoreStands, DoesEvent, setting_in};
    ghost use Rattle.gt_core.specs.Acting.{WantsMemory, WantsMemoryNow};
    ghost use Rattle.gt_core.specs.Acting.{begun_element, ticked_element};
    ghost use Rattle.gt_model.specs.declared.trace.Event.TheVariants.{Begin, Tick};

    /// Begins a call of the domain: checks the rules at its beginning, and makes the room that its answer needs.
    /// `tick` makes its steps.
    ///
    /// # Errors
    ///
    /// `Memory`, only if a domain of the run, with no open call, begins a map, a load, a store, a peek or a poke to
    /// which no rule applies. The core is then unchanged.
    pub fn begin(&mut self, dom: DomId, request: Request<'_>) -> Result<Begun, Memory>
        ensures stands { IfOk result (λ b. DoesEvent (setting_in P.may self.old) self.old.state
            (Begin dom request.entry) (begun_element dom request.entry b) self.new.state) }
        ensures config { self.new.config ≡ self.old.config }
        ensures rights { self.new.rights ≡ self.old.rights }
        ensures memory { (h : History) → CoreStands (setting_in P.may self.old) h self.old.state →
            OnErr result (WantsMemory (setting_in P.may self.old) h dom request.entry) }
        ensures err { OnErr result (self.new.state ≡ self.old.state) }
        ensures kept { AreKept self.new.state.frames }
    {
        self.machine.begin(dom, request)
    }

    /// Makes the next step of the domain's open call. Returns the step and what it saw, and the call's answer if that
    /// step is the last one. After a refusal, entries, mappings, tables and frames are unchanged, except the body
    /// words of an invalid entry, and the call holds no pin.
    ///
    /// # Errors
    ///
    /// `Memory`, only if that step is the access of a store, a poke or a copy, of which its frame keeps a record.
    /// The core is then unchanged, and the next tick tries again.
    pub fn tick(&mut self, dom: DomId) -> Result<Ticked, Memory>
        ensures stands { IfOk result (λ t. DoesEvent (setting_in P.may self.old) self.old.state
            (Tick dom) (ticked_element dom t) self.new.state) }
        ensures config { self.new.config ≡ self.old.config }
        ensures rights { self.new.rights ≡ self.old.rights }
        ensures memory { (h : History) → CoreStands (setting_in P.may self.old) h self.old.state →
            OnErr result (WantsMemoryNow (setting_in P.may self.old) h dom) }
        ensures err { OnErr result (self.new.state ≡ self.old.state) }
        ensures kept { AreKept self.new.state.frames }
    {
        self.machine.tick(dom)
    }

    /// Returns what an entry of a domain shows. None for a reference beyond the table, or if the run has no such
    /// domain.
    pub fn show(&self, dom: DomId, gref: GrantRef) -> Option<EntryView>
        ensures { (h : History) → CoreStands (setting_in P.may self.now) h self.now.state →
            result ≡ shown_at (setting_in P.may self.now) h dom gref.0 }
    {
        self.machine.show(dom, gref)
    }

    /// Returns the domain and the reference of the entry that the domain has mapped with this handle. None if the
    /// handle names none of its mappings (for example after an unmap), or if the run has no such domain.
    pub fn subject(&self, dom: DomId, handle: Handle) -> Option<(DomId, GrantRef)>
        ensures { (h : History) → CoreStands (setting_in P.may self.now) h self.now.state →
            result ≡ subject_at (setting_in P.may self.now) h dom handle }
    {
        self.machine.subject(dom, handle)
    }
}

// Returns the element of a trace for the result of `begin`.
fn begun_element<'a>(actor: DomId, request: Request<'a>, begun: Begun) -> Element<'a>
    ensures { result ≡ begun_element actor request.entry begun }
{
    let happened = ItemEvent::Began(request);
    match begun {
        Begun::Open => Element::Item(Item {
            actor,
            happened,
            answer: None,
        }),
        Begun::Done(answer) => Element::Item(Item {
            actor,
            happened,
            answer: Some(answer),
        }),
        Begun::Busy => Element::Busy,
        Begun::NoDomain => Element::NoDomain,
    }
}

// Returns the element of a trace for the result of `tick`.
fn ticked_element<'a>(actor: DomId, ticked: Ticked) -> Element<'a>
    ensures { result ≡ ticked_element actor ticked }
{
    match ticked {
        Ticked::Step(step, seen) => Element::Item(Item {
            actor,
            happened: ItemEvent::Stepped(step, seen),
            answer: None,
        }),
        Ticked::Done(step, seen, answer) => Element::Item(Item {
            actor,
            happened: ItemEvent::Stepped(step, seen),
            answer: Some(answer),
        }),
        Ticked::Idle => Element::Idle,
        Ticked::NoDomain => Element::NoDomain,
    }
}

fn one_event<'a, P: Allows>(core: &mut Core<P>, event: Event<'a>) -> Result<Element<'a>, Memory>
    ensures stands { IfOk result (λ x. DoesEvent (setting_in P.may core.old) core.old.state
        event.entry x core.new.state) }
    ensures config { core.new.config ≡ core.old.config }
    ensures rights { core.new.rights ≡ core.old.rights }
{
    match event {
        Event::Begin(actor, request) => {
            let begun = core.begin(actor, request)?;
            Ok(begun_element(actor, request, begun))
        }
        Event::Tick(actor) => {
            let ticked = core.tick(actor)?;
            Ok(ticked_element(actor, ticked))
        }
    }
}

/// Plays the events on a new core. Returns one element for each, in order.
///
/// # Errors
///
/// The first fault of the configuration, or `Memory` if it has none. The trace is then lost.
pub fn play<'a, P: Allows + Drop>(
    alloc: Global,
    config: Config,
    rights: P,
    events: &[Event<'a>],
) -> Result<Trace<'a>, StartFault>
    ensures legal { IfOk result (λ trace. Legal (setting_of config (P.may rights)) events.now trace.items) }
    ensures fits { IsOk result → IsWithinLimits config }
    ensures fault { IfErr result (IsStartFaultOf config) }
{
    let mut core = Core::new(alloc, config, rights)?;
    let mut trace = Vec::new(alloc);
    for next in events {
        trace.push(one_event(&mut core, *next)?)?;
    }
    Ok(trace)
}

impl<P: Allows + Drop> Core<P> {
    ghost use Rattle.std.specs.Prelude.{◌≡◌, [], IfOk, IfErr, IsOk};
    ghost use Rattle.gt_types.specs.Config.{IsWithinLimits};
    ghost use Rattle.gt_frames.specs.Sets.{AreKept};
    ghost use Rattle.gt_core.specs.Standing.{CoreStands};
    ghost use Rattle.gt_core.specs.Acting.{IsStartFaultOf};
    ghost use Rattle.gt_model.specs.History.{setting_of};

    /// Returns a new core: all entries are invalid and at the first generation, all frames are zero, and there is
    /// no mapping and no call.
    ///
    /// # Errors
    ///
    /// The first fault of the configuration, or `Memory` if it has none.
    pub fn new(alloc: Global, config: Config, rights: P) -> Result<Core<P>, StartFault>
        ensures stands { IfOk result (λ core. CoreStands (setting_of config (P.may rights)) [] core.state) }
        ensures kept { IfOk result (λ core. AreKept core.state.frames) }
        ensures config { IfOk result (λ core. core.config ≡ config) }
        ensures rights { IfOk result (λ core. core.rights ≡ rights) }
        ensures fits { IsOk result → IsWithinLimits config }
        ensures fault { IfErr result (IsStartFaultOf config) }
    {
        let machine = Machine::new(alloc, config, rights)?;
        Ok(Core { machine })
    }
}
