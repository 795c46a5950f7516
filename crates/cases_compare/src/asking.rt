//! A core and running domains that get the same calls.
use crate::scarce::{Place, Scarce};
use crate::stops::Stop;
use gt_core::{Answer, Begun, Core, Request, Ticked};
use gt_script_runs::ScriptPolicy;
use gt_types::{DomId, DomainConfig, GrantRef, Rule};
use std::alloc::Global;
use std::sync::Wait;
use test_monitor::{Calls, READ_ONLY};

// The maximum number of steps of a call.
const MOST_STEPS: u32 = 71;

// The number of entries of each domain that are compared after each call.
const ENTRIES: u32 = 9;

const PAGE: u16 = 4_096;

/// A core, and the running domains of a monitor with the same configuration. It counts the calls with a record that
/// failed on the monitor for want of memory.
#[derive(Drop)]
pub struct Both<D: Calls + Drop> {
    pub alloc: Global,
    pub configured: Vec<DomainConfig>,
    pub core: Core<ScriptPolicy>,
    pub domains: Vec<D>,
    pub refused: usize,
}

/// The result of a call on both.
#[derive(Drop)]
pub enum Asked {
    Alike(Answer),
    Otherwise,
    /// An allocation of the monitor failed, and the core did not get the call.
    Refused,
}

/// The first thing other than an answer in which both differ: a domain with its frame or its entry.
#[derive(Clone, Copy)]
pub enum Shows {
    Frame(u16, u64),
    Entry(u16, u32),
}

// Makes the next tick once. Returns None if an allocation failed.
fn tick_once(
    core: &mut Core<ScriptPolicy>,
    scarce: &mut Scarce,
    dom: DomId,
) -> Result<Option<Ticked>, Stop> {
    scarce.close()?;
    let ticked = core.tick(dom).ok();
    scarce.lift();
    Ok(ticked)
}

// Makes the next tick of a call with this name, again each time that an allocation fails.
fn ticked(
    core: &mut Core<ScriptPolicy>,
    scarce: &mut Scarce,
    dom: DomId,
    name: &'static str,
) -> Result<Ticked, Stop> {
    for _ in 0..scarce.prepare_call() {
        if let Some(ticked) = tick_once(core, scarce, dom)? {
            return Ok(ticked);
        }
        scarce.refused(Place::Tick, name)?;
    }
    Err(Stop::Memory)
}

// Makes the steps of the open call, which has this name, and returns its answer.
fn ended(
    core: &mut Core<ScriptPolicy>,
    scarce: &mut Scarce,
    dom: DomId,
    name: &'static str,
) -> Result<Answer, Stop> {
    for _ in 0..MOST_STEPS {
        if let Ticked::Done(_, _, answer) = ticked(core, scarce, dom, name)? {
            return Ok(answer);
        }
    }
    Err(Stop::Stuck)
}

// Begins a call of the core once. Returns None if an allocation failed.
fn begin_once(
    core: &mut Core<ScriptPolicy>,
    scarce: &mut Scarce,
    dom: DomId,
    request: Request<'_>,
) -> Result<Option<Begun>, Stop> {
    scarce.close()?;
    let begun = core.begin(dom, request).ok();
    scarce.lift();
    Ok(begun)
}

// Begins a call of the core, again each time that an allocation fails.
fn begun(
    core: &mut Core<ScriptPolicy>,
    scarce: &mut Scarce,
    dom: DomId,
    request: Request<'_>,
) -> Result<Begun, Stop> {
    for _ in 0..scarce.prepare_call() {
        if let Some(begun) = begin_once(core, scarce, dom, request)? {
            return Ok(begun);
        }
        scarce.refused(Place::Begin, name_of(&request))?;
    }
    Err(Stop::Memory)
}

// Makes a whole call of the core.
fn on_core(
    core: &mut Core<ScriptPolicy>,
    scarce: &mut Scarce,
    dom: DomId,
    request: Request<'_>,
) -> Result<Answer, Stop> {
    match begun(core, scarce, dom, request)? {
        Begun::Done(answer) => Ok(answer),
        Begun::Open => ended(core, scarce, dom, name_of(&request)),
        Begun::Busy | Begun::NoDomain => Err(Stop::Stuck),
    }
}

// Returns the name of a call that allocates. No other call may fail so.
fn name_of(request: &Request<'_>) -> &'static str {
    match request {
        Request::Map { .. } => " map",
        Request::Load { .. } => " load",
        Request::Store { .. } => " store",
        Request::Peek { .. } => " peek",
        Request::Poke { .. } => " poke",
        Request::Copy(_) => " copy",
        _ => " another",
    }
}

// Returns whether two answers are the same, with the word or bytes that they carry.
fn is_same(one: &Answer, other: &Answer) -> bool {
    match (one, other) {
        (Answer::Done, Answer::Done) => true,
        (Answer::Denied(one), Answer::Denied(other)) => one == other,
        (Answer::Mapped(one), Answer::Mapped(other)) => one == other,
        (Answer::Bytes(one), Answer::Bytes(other)) => {
            one.bytes.as_slice() == other.bytes.as_slice()
        }
        (Answer::Frames(one), Answer::Frames(other)) => one == other,
        (Answer::Size(one), Answer::Size(other)) => one == other,
        (Answer::Version(one), Answer::Version(other)) => one == other,
        _ => false,
    }
}

fn is_of_memory(answer: &Answer) -> bool {
    match answer {
        Answer::Denied(denial) => denial.rule == Rule::N26,
        _ => false,
    }
}

// Returns whether the monitor records a refusal of this call for want of memory.
fn is_recorded(request: &Request<'_>) -> bool {
    matches!(request, Request::Map { .. } | Request::Copy(_))
}

impl<D: Calls + Drop> Both<D> {
    /// Returns the position of a domain among those configured.
    pub fn domain_place(&self, dom: DomId) -> usize {
        for (place, domain) in self.configured.iter().enumerate() {
            if domain.id == dom {
                return place;
            }
        }
        usize::MAX
    }

    // Returns the answer of the domain at this position on the monitor.
    fn on_monitor<R: Wait>(
        &mut self,
        rt: &R,
        scarce: &mut Scarce,
        place: usize,
        request: Request<'_>,
    ) -> Result<Answer, Stop> {
        let Some(domain) = self.domains.get_mut(place) else {
            return Err(Stop::NoDomain);
        };
        scarce.close()?;
        let live = domain.make(rt, request);
        scarce.lift();
        Ok(live)
    }

    // Returns the configuration of the domain at this position.
    fn domain_at(&self, place: usize) -> Result<DomainConfig, Stop> {
        match self.configured.get(place) {
            Some(domain) => Ok(*domain),
            None => Err(Stop::NoDomain),
        }
    }

    /// Makes a call of the domain at this position on the monitor, and then on the core.
    pub fn ask<R: Wait>(
        &mut self,
        rt: &R,
        scarce: &mut Scarce,
        place: usize,
        request: Request<'_>,
    ) -> Result<Asked, Stop> {
        let live = self.on_monitor(rt, scarce, place, request)?;
        if is_of_memory(&live) {
            let recorded = usize::from(is_recorded(&request));
            self.refused = self.refused.saturating_add(recorded);
            scarce.refused(Place::Monitor, name_of(&request))?;
            return Ok(Asked::Refused);
        }
        let dom = self.domain_at(place)?.id;
        let answer = on_core(&mut self.core, scarce, dom, request)?;
        if is_same(&live, &answer) {
            Ok(Asked::Alike(live))
        } else {
            Ok(Asked::Otherwise)
        }
    }

    // Returns whether both answer the same. A call whose allocation fails is made again.
    fn agrees<R: Wait>(
        &mut self,
        rt: &R,
        place: usize,
        request: Request<'_>,
    ) -> Result<bool, Stop> {
        let mut plenty = Scarce::plenty(self.alloc);
        for _ in 0..2 {
            match self.ask(rt, &mut plenty, place, request)? {
                Asked::Alike(_) => return Ok(true),
                Asked::Otherwise => return Ok(false),
                Asked::Refused => {}
            }
        }
        Ok(false)
    }

    // Returns whether both show the same bytes of a frame of the domain at this position.
    fn frame_agrees<R: Wait>(&mut self, rt: &R, place: usize, frame: u64) -> Result<bool, Stop> {
        let peek = Request::Peek {
            frame,
            off: 0,
            len: PAGE,
        };
        self.agrees(rt, place, peek)
    }

    // Returns whether the last domain finds the same on both when it maps this entry.
    fn entry_agrees<R: Wait>(&mut self, rt: &R, dom: DomId, gref: u32) -> Result<bool, Stop> {
        let map = Request::Map {
            dom,
            gref: GrantRef(gref),
            flags: READ_ONLY,
        };
        let looker = self.domains.len().saturating_sub(1);
        self.agrees(rt, looker, map)
    }

    // Returns the first frame of the domain at this position, or its first entry, in which both differ.
    fn shown_of<R: Wait>(&mut self, rt: &R, place: usize) -> Result<Option<Shows>, Stop> {
        let domain = self.domain_at(place)?;
        for frame in 0..u64::from(domain.frames) {
            if !self.frame_agrees(rt, place, frame)? {
                return Ok(Some(Shows::Frame(domain.id.0, frame)));
            }
        }
        for gref in 0..ENTRIES {
            if !self.entry_agrees(rt, domain.id, gref)? {
                return Ok(Some(Shows::Entry(domain.id.0, gref)));
            }
        }
        Ok(None)
    }

    /// Returns the first of all domains' frames and entries in which both differ.
    pub fn shown_by_all<R: Wait>(&mut self, rt: &R) -> Result<Option<Shows>, Stop> {
        for place in 0..self.configured.len() {
            let shown = self.shown_of(rt, place)?;
            if shown.is_some() {
                return Ok(shown);
            }
        }
        Ok(None)
    }
}
