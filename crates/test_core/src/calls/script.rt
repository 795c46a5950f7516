//! A call driven by a script of what its steps see.
use gt_calls::{
    Action, BodyWord, Call, CallResult, CallerState, Handles, HeldPin, Judged, Observation,
    OwnerEntry, PinHolder, Request, Step,
};
use gt_entry::{Entry, Header};
use gt_explore_state::{same_result, same_step};
use gt_roster::Roster;
use gt_types::{
    Config, Denial, DomId, DomainConfig, Facts, GrantRef, Memory, Perms, Rule, StartFault, Triple,
    Triples, TypeId,
};
use std::alloc::Global;

pub const OWNER: DomId = DomId(1);

pub const MIDDLE: DomId = DomId(2);

pub const CALLER: DomId = DomId(3);

/// The header word of a table of version 2 and one frame.
pub const HEADER: u64 = 6;

/// The caller, its request, the number of actions of its call, and the parts of the call.
pub type Row = (DomId, Request<'static>, usize, &'static [Part]);

/// A part of a call: some of its steps with what they see, or its end.
#[derive(Clone, Copy)]
pub enum Part {
    /// This step, with this observation.
    Step(Step, Observation),
    /// A look at the header of a domain.
    Header(DomId),
    /// A look at the control word of the entry of this pin, which is the word from which the pin is taken.
    Control(HeldPin),
    /// The looks at the body words of the entry of this pin.
    Body(HeldPin),
    /// A try of this pin: the looks at its entry, and the pin, with this observation.
    Try(HeldPin, Observation),
    /// A leg whose first try takes this pin.
    Leg(HeldPin),
    /// A leg that misses the first pin three times, since there is one more read pin, before it takes the other.
    LongLeg(HeldPin, HeldPin),
    /// These pins are released, the last one first.
    Unpin(&'static [HeldPin]),
    Ends(CallResult),
    Refused(Rule, Facts),
    /// A refusal by the word found in the entry of this pin.
    RefusedAt(Rule, HeldPin),
}

/// The call ends, and has done what was requested.
pub const GRANTED: Part = Part::Ends(CallResult::Granted);

// A step that sees nothing.
macro_rules! unseen {
    ($step:expr) => {
        Part::Step($step, Observation::Nothing)
    };
}

// A pin: domain, reference, direction, entry, and the word from which it is taken.
macro_rules! pin {
    ($dom:expr, $gref:expr, $dir:ident, $entry:expr, $word:expr) => {
        HeldPin {
            dom: $dom,
            gref: GrantRef($gref),
            dir: Dir::$dir,
            entry: $entry,
            word: $word,
        }
    };
}

pub(crate) use pin;
pub(crate) use unseen;

/// A driver's script of a call: what each step sees, and the action that the call then gives.
#[derive(Drop)]
pub struct Script {
    pub lines: Vec<(Observation, Action)>,
    seen: Observation,
}

impl Script {
    /// Makes the script of these parts.
    pub fn new(alloc: Global, parts: &[Part]) -> Result<Script, Memory> {
        let mut script = Script {
            lines: Vec::new(alloc),
            seen: Observation::Nothing,
        };
        for part in parts {
            script.add(*part)?;
        }
        Ok(script)
    }

    fn add(&mut self, part: Part) -> Result<(), Memory> {
        match part {
            Part::Step(step, seen) => self.step(step, seen),
            Part::Header(dom) => self.header(dom),
            Part::Control(held) => self.control(held),
            Part::Body(held) => self.body(held),
            Part::Try(held, seen) => self.try_pin(held, seen),
            Part::Leg(held) => self.leg(held),
            Part::LongLeg(missed, held) => self.long_leg(missed, held),
            Part::Unpin(pins) => self.unpin(pins),
            Part::Ends(verdict) => self.ends(verdict),
            Part::Refused(rule, facts) => self.ends(CallResult::Refused(Denial::new(rule, facts))),
            Part::RefusedAt(rule, held) => {
                let HeldPin {
                    dom,
                    gref,
                    word,
                    ..
                } = held;
                let facts = Facts::Entry { dom, gref, word };
                self.ends(CallResult::Refused(Denial::new(rule, facts)))
            }
        }
    }

    fn step(&mut self, step: Step, seen: Observation) -> Result<(), Memory> {
        self.lines.push((self.seen, Action::Step(step)))?;
        self.seen = seen;
        Ok(())
    }

    fn ends(&mut self, verdict: CallResult) -> Result<(), Memory> {
        self.lines.push((self.seen, Action::Done(verdict)))?;
        Ok(())
    }

    fn header(&mut self, dom: DomId) -> Result<(), Memory> {
        self.step(Step::LookHeader { dom }, Observation::Word(HEADER))
    }

    fn control(&mut self, held: HeldPin) -> Result<(), Memory> {
        let step = Step::LookControl {
            dom: held.dom,
            gref: held.gref,
        };
        self.step(step, Observation::Word(held.word))
    }

    fn body(&mut self, held: HeldPin) -> Result<(), Memory> {
        self.body_word(held, BodyWord::First, first_body(held.entry))?;
        match held.entry {
            Entry::Sub { off, len, .. } => {
                self.body_word(
                    held,
                    BodyWord::Second,
                    u64::from(off) + u64::from(len) * 65_536,
                )
            }
            _ => Ok(()),
        }
    }

    fn body_word(&mut self, held: HeldPin, body_word: BodyWord, word: u64) -> Result<(), Memory> {
        let step = Step::LookBody {
            dom: held.dom,
            gref: held.gref,
            body_word,
        };
        self.step(step, Observation::Word(word))
    }

    fn try_pin(&mut self, held: HeldPin, seen: Observation) -> Result<(), Memory> {
        self.control(held)?;
        self.body(held)?;
        self.step(Step::Pin { held }, seen)
    }

    fn leg(&mut self, held: HeldPin) -> Result<(), Memory> {
        self.header(held.dom)?;
        self.try_pin(held, Observation::Taken)
    }

    fn long_leg(&mut self, missed: HeldPin, held: HeldPin) -> Result<(), Memory> {
        self.header(held.dom)?;
        for _ in 0..3 {
            self.try_pin(missed, Observation::Missed(missed.word ^ 16))?;
        }
        self.try_pin(held, Observation::Taken)
    }

    fn unpin(&mut self, pins: &[HeldPin]) -> Result<(), Memory> {
        let mut number = u8::try_from(pins.len()).unwrap_or(0);
        for held in pins {
            number = number.wrapping_sub(1);
            let step = Step::Unpin {
                held: *held,
                holder: PinHolder::Leg(number),
            };
            self.step(step, Observation::Nothing)?;
        }
        Ok(())
    }
}

fn first_body(entry: Entry) -> u64 {
    match entry {
        Entry::Invalid => 0,
        Entry::Page { frame, .. } | Entry::Sub { frame, .. } => frame,
        Entry::Via { dom2, gref, .. } => u64::from(dom2.0) + u64::from(gref.0) * 65_536,
    }
}

const DOMAIN: DomainConfig = DomainConfig {
    id: OWNER,
    label: TypeId(1),
    frames: 8,
    table_frames: 1,
    version: 2,
};

const DOMAINS: [DomainConfig; 3] = [
    DOMAIN,
    DomainConfig {
        id: MIDDLE,
        label: TypeId(2),
        ..DOMAIN
    },
    DomainConfig {
        id: CALLER,
        label: TypeId(3),
        ..DOMAIN
    },
];

/// Returns three domains whose types have their numbers.
pub fn three_domains(alloc: Global) -> Result<Roster, StartFault> {
    let Ok(domains) = DOMAINS.to_vec(alloc) else {
        return Err(StartFault::Memory);
    };
    let config = Config {
        domains,
        first_gen: 0,
    };
    Roster::new(alloc, config)
}

/// Returns all these permissions, for each of these pairs.
pub fn rights(alloc: Global, perms: &[Perms], pairs: &[(DomId, DomId)]) -> Result<Triples, Memory> {
    let mut allowed = Vec::new(alloc);
    for pair in pairs {
        for perm in perms {
            allowed.push(Triple {
                source: TypeId(pair.0.0),
                target: TypeId(pair.1.0),
                perm: *perm,
            })?;
        }
    }
    Ok(Triples { allowed })
}

/// Returns what a domain with a table of version 2 and one frame knows.
pub fn known<'a>(
    config: &'a Roster,
    rights: &'a Triples,
    own: &'a [OwnerEntry],
    mappings: &'a Handles<HeldPin>,
) -> CallerState<'a, Triples> {
    CallerState {
        config,
        rights,
        own,
        header: Header {
            version: 2,
            frames: 1,
        },
        mappings,
    }
}

// Returns true only if both actions are the same.
fn is_same(one: Action, other: Action) -> bool {
    match (one, other) {
        (Action::Step(step), Action::Step(s)) => same_step(step, s),
        (Action::Done(verdict), Action::Done(v)) => same_result(verdict, v),
        _ => false,
    }
}

/// Returns whether the caller's request follows the script.
pub fn goes(
    known: &CallerState<'_, Triples>,
    caller: DomId,
    request: Request<'_>,
    script: &Script,
) -> bool {
    let mut call = match Call::begin(caller, request, known) {
        Judged::Open(call) => call,
        Judged::Answered(verdict) => {
            return script.lines.len() == 1 && is_same(script.lines[0].1, Action::Done(verdict));
        }
    };
    for line in &script.lines {
        let (seen, action) = *line;
        if !is_same(call.next(known, seen), action) {
            return false;
        }
    }
    true
}
