//! The actions of a test on a core, and their results as texts.
use gt_core::{
    Answer, Begun, Core, Element, EntryView, Event, Handle, Item, ItemEvent, Observation, Request,
    Spot, Step, Ticked,
};
use gt_entry::{Control, status_word};
use gt_types::{
    Config, Denial, DomId, DomainConfig, Facts, GrantRef, Memory, Perms, StartFault, Triple,
    Triples, TypeId,
};
use std::alloc::{AllocError, Global};

pub const OWNER: DomId = DomId(1);

pub const PEER: DomId = DomId(2);

pub const OTHER: DomId = DomId(3);

// The GNTMAP flags of a map.
pub const WRITABLE: u32 = 2;

pub const READ_ONLY: u32 = 6;

// Requests in one line each: their fields in order. The entries that are mapped are the owner's.
macro_rules! grant {
    ($gref:expr, $entry:expr) => {
        Request::Grant {
            gref: GrantRef($gref),
            entry: $entry,
        }
    };
}

macro_rules! map {
    ($gref:expr, $flags:expr) => {
        Request::Map {
            dom: OWNER,
            gref: GrantRef($gref),
            flags: $flags,
        }
    };
}

macro_rules! load {
    ($handle:expr, $off:expr, $len:expr) => {
        Request::Load {
            handle: $handle,
            off: $off,
            len: $len,
        }
    };
}

macro_rules! store {
    ($handle:expr, $off:expr, $bytes:expr) => {
        Request::Store {
            handle: $handle,
            off: $off,
            bytes: $bytes,
        }
    };
}

macro_rules! peek {
    ($frame:expr, $off:expr, $len:expr) => {
        Request::Peek {
            frame: $frame,
            off: $off,
            len: $len,
        }
    };
}

macro_rules! poke {
    ($frame:expr, $off:expr, $bytes:expr) => {
        Request::Poke {
            frame: $frame,
            off: $off,
            bytes: $bytes,
        }
    };
}

pub(crate) use grant;
pub(crate) use load;
pub(crate) use map;
pub(crate) use peek;
pub(crate) use poke;
pub(crate) use store;

// The maximum number of steps of a call.
const MOST_STEPS: u32 = 71;

/// Returns a configuration of three domains whose types have their numbers, with 8 frames and one table frame each.
pub fn three_domains(alloc: Global, version: u32) -> Result<Config, Memory> {
    let domain = DomainConfig {
        id: OWNER,
        label: TypeId(1),
        frames: 8,
        table_frames: 1,
        version,
    };
    let peer = DomainConfig {
        id: PEER,
        label: TypeId(2),
        ..domain
    };
    let other = DomainConfig {
        id: OTHER,
        label: TypeId(3),
        ..domain
    };
    Ok(Config {
        domains: vec![in alloc; domain, peer, other]?,
        first_gen: 0,
    })
}

/// Returns the rights of most tests. The peer and the other may map and unmap the owner's pages. The owner may map the
/// peer's pages for reading, and the peer the other's. The owner may set up its own table, and the peer may query it.
pub fn rights(alloc: Global) -> Result<Triples, Memory> {
    let mut allowed = Vec::new(alloc);
    for (source, target, perm) in [
        (PEER, OWNER, Perms::MAP_READ),
        (PEER, OWNER, Perms::MAP_WRITE),
        (PEER, OWNER, Perms::UNMAP),
        (OTHER, OWNER, Perms::MAP_READ),
        (OTHER, OWNER, Perms::MAP_WRITE),
        (OTHER, OWNER, Perms::UNMAP),
        (OWNER, PEER, Perms::MAP_READ),
        (PEER, OTHER, Perms::MAP_READ),
        (OWNER, OWNER, Perms::SETUP),
        (PEER, OWNER, Perms::QUERY),
    ] {
        allowed.push(Triple {
            source: TypeId(source.0),
            target: TypeId(target.0),
            perm,
        })?;
    }
    Ok(Triples { allowed })
}

// Starts a core of the three domains.
fn start_once(
    alloc: Global,
    version: u32,
    pairs: &[(DomId, DomId)],
) -> Result<Core<Triples>, StartFault> {
    let mut rights = rights(alloc)?;
    for (source, target) in pairs {
        rights.allowed.push(Triple {
            source: TypeId(source.0),
            target: TypeId(target.0),
            perm: Perms::COPY,
        })?;
    }
    Core::new(alloc, three_domains(alloc, version)?, rights)
}

/// Starts a core of the three domains. In addition, bytes may be copied from the first domain of each pair to the
/// second. Tries again if an allocation failed.
pub fn start(
    alloc: Global,
    version: u32,
    pairs: &[(DomId, DomId)],
) -> Result<Core<Triples>, StartFault> {
    match start_once(alloc, version, pairs) {
        Err(StartFault::Memory) => start_once(alloc, version, pairs),
        started => started,
    }
}

/// An action on a core.
#[derive(Clone, Copy)]
pub enum Doing<'a> {
    /// A whole call: its answer.
    Do(DomId, Request<'a>),
    /// A whole call: its steps with what each saw, and its answer.
    Steps(DomId, Request<'a>),
    /// A whole call this number of times, each of which gives the next handle.
    Often(DomId, Request<'a>, u32),
    /// Only the beginning of a call.
    Begin(DomId, Request<'a>),
    /// This number of ticks of the domain, or fewer if its call ends: the answer, if it ended.
    Tick(DomId, u32),
    /// A view of an owner's entry from outside.
    Show(u32),
}

/// An action, and its expected result.
pub type Row = (Doing<'static>, &'static str);

// Begins a call. A caller that takes the result apart costs less proof without the contract of `Core::begin`.
fn begin_once(core: &mut Core<Triples>, dom: DomId, request: Request<'_>) -> Result<Begun, Memory> {
    core.begin(dom, request)
}

// Makes the next step of the domain's call.
fn tick_once(core: &mut Core<Triples>, dom: DomId) -> Result<Ticked, Memory> {
    core.tick(dom)
}

// Returns a view of an owner's entry.
fn show(core: &Core<Triples>, gref: u32) -> Option<EntryView> {
    core.show(OWNER, GrantRef(gref))
}

// Returns whether the owner's first entry is as before, and the domain has no call open.
fn is_as_before(core: &mut Core<Triples>, dom: DomId, before: Option<EntryView>) -> bool {
    show(core, 0) == before && matches!(tick_once(core, dom), Ok(Ticked::Idle))
}

// Begins a call, and again if an allocation failed, unless that changed the core.
fn begin_call(core: &mut Core<Triples>, dom: DomId, request: Request<'_>) -> Result<Begun, Memory> {
    let before = show(core, 0);
    match begin_once(core, dom, request) {
        Err(Memory) if is_as_before(core, dom, before) => begin_once(core, dom, request),
        begun => begun,
    }
}

// Makes the next step of the domain's call, and again if an allocation failed, unless that changed the core.
fn tick(core: &mut Core<Triples>, dom: DomId) -> Result<Ticked, Memory> {
    let before = show(core, 0);
    match tick_once(core, dom) {
        Err(Memory) if show(core, 0) == before => tick_once(core, dom),
        ticked => ticked,
    }
}

fn word_said(alloc: Global, word: u64) -> Result<String, AllocError> {
    format!(in alloc; " {word:x}")
}

// Returns an answer as a text: `ok` with its values, or the rule that refused and what decided it: the word seen, in
// hexadecimal digits, the field, or the two types and the permission.
fn answer_said(alloc: Global, answer: &Answer) -> Result<String, AllocError> {
    match answer {
        Answer::Done => String::from_str(alloc, "ok"),
        Answer::Mapped(Handle { serial, key }) => format!(in alloc; "ok {serial}.{key}"),
        Answer::Bytes(b) => format!(in alloc; "ok {:?}", b.bytes),
        Answer::Frames(n) => format!(in alloc; "ok frames={n}"),
        Answer::Size(size) => format!(in alloc; "ok frames={} max={}", size.frames, size.max),
        Answer::Version(n) => format!(in alloc; "ok version={n}"),
        Answer::Denied(denial) => denial_said(alloc, denial),
    }
}

fn denial_said(alloc: Global, denial: &Denial) -> Result<String, AllocError> {
    let rule = denial.rule;
    match denial.facts {
        Facts::Field(field) => format!(in alloc; "{rule} {field}"),
        Facts::Header { word, .. } | Facts::Entry { word, .. } => {
            format!(in alloc; "{rule} {word:x}")
        }
        Facts::Policy {
            source,
            target,
            perm,
        } => format!(in alloc; "{rule} source={} target={} {perm:?}", source.0, target.0),
        _ => format!(in alloc; "{rule}"),
    }
}

// Returns what a step saw: a word in hexadecimal digits, `taken` or `missed` with the word found; `-` for nothing.
fn seen_said(alloc: Global, seen: Observation) -> Result<String, AllocError> {
    match seen {
        Observation::Nothing => String::from_str(alloc, " -"),
        Observation::Word(word) => word_said(alloc, word),
        Observation::Taken => String::from_str(alloc, " taken"),
        Observation::Missed(word) => format!(in alloc; " missed {word:x}"),
    }
}

// Returns the view of an entry, with its status word.
fn shown_said(alloc: Global, shown: Option<EntryView>) -> Result<String, AllocError> {
    let Some(shown) = shown else {
        return String::from_str(alloc, "none");
    };
    let EntryView {
        entry,
        generation,
        reads,
        writes,
    } = shown;
    let status = status_word(&Control::of_entry(entry, generation, reads, writes));
    format!(in alloc; "{entry:?} gen={generation} reads={reads} writes={writes} status={status:x}")
}

// Returns the view of an entry as a text. Tries again if an allocation failed.
fn view_said(alloc: Global, shown: Option<EntryView>) -> Result<String, AllocError> {
    match shown_said(alloc, shown) {
        Err(_) => shown_said(alloc, shown),
        text => text,
    }
}

// Makes this number of ticks of the open call, or fewer if it ends.
fn ticked(core: &mut Core<Triples>, dom: DomId, ticks: u32) -> Result<Begun, Memory> {
    for _ in 0..ticks {
        if let Ticked::Done(_, _, answer) = tick(core, dom)? {
            return Ok(Begun::Done(answer));
        }
    }
    Ok(Begun::Open)
}

// Begins a call, and makes this number of ticks or fewer.
fn called(
    core: &mut Core<Triples>,
    dom: DomId,
    request: Request<'_>,
    ticks: u32,
) -> Result<Begun, Memory> {
    match begin_call(core, dom, request)? {
        Begun::Open => ticked(core, dom, ticks),
        begun => Ok(begun),
    }
}

// Returns how far a call has come: its answer, or that it is still open.
fn begun_said(alloc: Global, begun: &Begun) -> Result<String, AllocError> {
    match begun {
        Begun::Done(answer) => answer_said(alloc, answer),
        Begun::Busy => String::from_str(alloc, "busy"),
        Begun::NoDomain => String::from_str(alloc, "no domain"),
        Begun::Open => String::from_str(alloc, "open"),
    }
}

// Returns the same. Tries again if an allocation failed.
fn call_said(alloc: Global, begun: &Begun) -> Result<String, Memory> {
    match begun_said(alloc, begun) {
        Err(_) => Ok(begun_said(alloc, begun)?),
        Ok(text) => Ok(text),
    }
}

// Appends a step with what it saw.
fn push_step(
    out: &mut String,
    alloc: Global,
    step: Step,
    seen: Observation,
) -> Result<(), AllocError> {
    out.push_str(step_said(alloc, step)?.as_str())?;
    out.push_str(seen_said(alloc, seen)?.as_str())?;
    out.push_str("; ")
}

// Makes a step of the open call, and appends it. Returns the answer if the call ends, and None if no call is open.
fn push_tick(
    out: &mut String,
    alloc: Global,
    core: &mut Core<Triples>,
    dom: DomId,
) -> Result<Option<Option<Answer>>, Memory> {
    match tick(core, dom)? {
        Ticked::Step(step, seen) => {
            push_step(out, alloc, step, seen)?;
            Ok(Some(None))
        }
        Ticked::Done(step, seen, answer) => {
            push_step(out, alloc, step, seen)?;
            Ok(Some(Some(answer)))
        }
        _ => Ok(None),
    }
}

// Returns the steps of the open call with what each saw, and its answer.
fn steps_said(alloc: Global, core: &mut Core<Triples>, dom: DomId) -> Result<String, Memory> {
    let mut out = String::new(alloc);
    for _ in 0..MOST_STEPS {
        match push_tick(&mut out, alloc, core, dom)? {
            Some(None) => {}
            Some(Some(answer)) => {
                out.push_str(answer_said(alloc, &answer)?.as_str())?;
                break;
            }
            None => break,
        }
    }
    Ok(out)
}

// Returns a step by a letter, with the numbers of its domain and entry or frame. A look at a header is H, at a control
// word C, at a body word B; a pin is P, an unpin U, the access of a copy A, a store of a header S, a store of a body
// word W, and an exchange by the owner E. No row has another access, which would be an empty text.
fn step_said(alloc: Global, step: Step) -> Result<String, AllocError> {
    match step {
        Step::LookHeader { dom } => format!(in alloc; "H {}", dom.0),
        Step::LookControl { dom, gref } => format!(in alloc; "C {} {}", dom.0, gref.0),
        Step::LookBody {
            dom,
            gref,
            body_word,
        } => { format!(in alloc; "B {} {} {body_word:?}", dom.0, gref.0) }
        Step::Pin { held } => {
            format!(in alloc; "P {} {} {:?}", held.dom.0, held.gref.0, held.dir)
        }
        Step::Unpin { held, .. } => {
            format!(in alloc; "U {} {} {:?}", held.dom.0, held.gref.0, held.dir)
        }
        Step::Copy { from, to, len } => {
            let from = place_said(alloc, from)?;
            let to = place_said(alloc, to)?;
            format!(in alloc; "A {from} to {to} len {len}")
        }
        Step::StoreHeader { version, frames } => format!(in alloc; "S {version} {frames}"),
        Step::StoreBody {
            gref,
            body_word,
            word,
        } => { format!(in alloc; "W {} {body_word:?} {word}", gref.0) }
        Step::Exchange {
            gref,
            looked,
            change,
        } => format!(in alloc; "E {} {looked} {change:?}", gref.0),
        Step::Read { .. } | Step::Write { .. } => Ok(String::new(alloc)),
    }
}

fn place_said(alloc: Global, place: Spot) -> Result<String, AllocError> {
    format!(in alloc;
        "{} {} {}",
        place.frame.owner.0, place.frame.number, place.off
    )
}

// Begins a call. Returns all its steps with what each saw, and its answer.
fn call_steps_said(
    alloc: Global,
    core: &mut Core<Triples>,
    dom: DomId,
    request: Request<'_>,
) -> Result<String, Memory> {
    match begin_call(core, dom, request)? {
        Begun::Open => steps_said(alloc, core, dom),
        begun => call_said(alloc, &begun),
    }
}

// Makes a call this number of times. Returns how often it was answered with the next handle before it was not.
fn handles_given(
    core: &mut Core<Triples>,
    dom: DomId,
    request: Request<'_>,
    times: u32,
) -> Result<u32, Memory> {
    for number in 0..times {
        let begun = called(core, dom, request, MOST_STEPS)?;
        if !is_handle(&begun, number) {
            return Ok(number);
        }
    }
    Ok(times)
}

// Returns whether a call was answered with the handle of this number.
fn is_handle(begun: &Begun, number: u32) -> bool {
    let wanted = Handle {
        serial: u64::from(number),
        key: number as usize,
    };
    matches!(begun, Begun::Done(Answer::Mapped(handle)) if *handle == wanted)
}

fn done_said(
    alloc: Global,
    core: &mut Core<Triples>,
    dom: DomId,
    request: Request<'_>,
    ticks: u32,
) -> Result<String, Memory> {
    let begun = called(core, dom, request, ticks)?;
    call_said(alloc, &begun)
}

fn ticks_said(
    alloc: Global,
    core: &mut Core<Triples>,
    dom: DomId,
    ticks: u32,
) -> Result<String, Memory> {
    let begun = ticked(core, dom, ticks)?;
    call_said(alloc, &begun)
}

fn often_said(
    alloc: Global,
    core: &mut Core<Triples>,
    dom: DomId,
    request: Request<'_>,
    times: u32,
) -> Result<String, Memory> {
    let count = handles_given(core, dom, request, times)?;
    Ok(format!(in alloc; "{count} handles, 0.0 and on")?)
}

/// Takes the action, and returns its result as a text. A beginning, a tick and a view whose allocation fails are tried
/// again.
pub fn said(alloc: Global, core: &mut Core<Triples>, doing: Doing<'_>) -> Result<String, Memory> {
    match doing {
        Doing::Do(dom, request) => done_said(alloc, core, dom, request, MOST_STEPS),
        Doing::Steps(dom, request) => call_steps_said(alloc, core, dom, request),
        Doing::Often(dom, request, times) => often_said(alloc, core, dom, request, times),
        Doing::Begin(dom, request) => done_said(alloc, core, dom, request, 0),
        Doing::Tick(dom, ticks) => ticks_said(alloc, core, dom, ticks),
        Doing::Show(gref) => Ok(view_said(alloc, show(core, gref))?),
    }
}

// Returns what an event did: its domain, `begins` or what its step saw, and the answer if the call ended.
fn item_said(alloc: Global, item: &Item) -> Result<String, AllocError> {
    let actor = item.actor.0;
    let saw = match &item.happened {
        ItemEvent::Began(_) => String::from_str(alloc, " begins")?,
        ItemEvent::Stepped(_, seen) => seen_said(alloc, *seen)?,
    };
    match &item.answer {
        None => format!(in alloc; "{actor}{saw}\n"),
        Some(answer) => {
            let answer = answer_said(alloc, answer)?;
            format!(in alloc; "{actor}{saw} {answer}\n")
        }
    }
}

/// Returns what each event did, one line each.
pub fn trace_said(alloc: Global, trace: &[Element]) -> Result<String, AllocError> {
    let mut out = String::new(alloc);
    for element in trace {
        match element {
            Element::Item(item) => out.push_str(item_said(alloc, item)?.as_str())?,
            _ => out.push_str("nothing\n")?,
        }
    }
    Ok(out)
}

/// Appends this number of ticks of the domain.
pub fn add_ticks(events: &mut Vec<Event<'_>>, dom: DomId, ticks: u32) -> Result<(), Memory> {
    for _ in 0..ticks {
        events.push(Event::Tick(dom))?;
    }
    Ok(())
}

/// Appends the events of a call: its beginning, and this number of ticks.
pub fn add_call<'a>(
    events: &mut Vec<Event<'a>>,
    dom: DomId,
    request: Request<'a>,
    ticks: u32,
) -> Result<(), Memory> {
    events.push(Event::Begin(dom, request))?;
    add_ticks(events, dom, ticks)
}
