//! The digest of the phase of an open call.
use gt_calls::{AccessPath, CallPins, CallResult, HeldPin, Leg, LegPhase, Phase, PinPurpose};
use gt_types::{Dir, Facts};

/// A digest of the numbers that were mixed into it, so that different parts rarely share one. It is FNV-1a, with a
/// number of 64 bits in place of each byte.
#[derive(Drop)]
pub struct Digest {
    pub value: u64,
}

impl Digest {
    /// Makes a digest of nothing.
    pub fn new() -> Digest {
        Digest {
            value: 0xcbf2_9ce4_8422_2325,
        }
    }

    /// Mixes a number into it.
    pub fn mix(&mut self, number: u64) {
        self.value = (self.value ^ number).wrapping_mul(0x0000_0100_0000_01b3);
    }

    /// Mixes numbers into it, one after the other.
    pub fn mix_all(&mut self, numbers: &[u64]) {
        for number in numbers {
            self.mix(*number);
        }
    }
}

/// Mixes in a pin: its entry and direction, the bodies of that entry, and the word from which it was taken.
pub fn mix_held(digest: &mut Digest, held: &HeldPin) {
    let writes = matches!(held.dir, Dir::Write);
    digest.mix_all(&[
        u64::from(held.dom.0) * 2 + u64::from(writes),
        u64::from(held.gref.0),
        held.entry.first_body(),
        held.entry.second_body(),
        held.word,
    ])
}

fn mix_via(digest: &mut Digest, via: Option<&HeldPin>) {
    match via {
        None => digest.mix(0),
        Some(held) => {
            digest.mix(1);
            mix_held(digest, held)
        }
    }
}

fn mix_access_path(digest: &mut Digest, access_path: &AccessPath) {
    match access_path {
        AccessPath::Own => digest.mix(0),
        AccessPath::Direct(held) => {
            digest.mix(1);
            mix_held(digest, held)
        }
        AccessPath::Through { via, held } => {
            digest.mix(2);
            mix_held(digest, via);
            mix_held(digest, held)
        }
    }
}

fn mix_pins(digest: &mut Digest, pins: &CallPins) {
    mix_access_path(digest, &pins.source);
    mix_access_path(digest, &pins.dest)
}

// Mixes in a phase of this number, with this number of tries left.
fn mix_try(digest: &mut Digest, number: u8, more: u8) {
    digest.mix(u64::from(number) * 256 + u64::from(more))
}

// Mixes in a phase of this number, with this number of tries left, and what was seen before it.
fn mix_later_try(digest: &mut Digest, number: u8, more: u8, seen: &[u64]) {
    mix_try(digest, number, more);
    digest.mix_all(seen)
}

fn mix_leg_phase(digest: &mut Digest, at: &LegPhase) {
    match at {
        LegPhase::Header => digest.mix(0),
        LegPhase::Look { more } => mix_try(digest, 1, *more),
        LegPhase::Body { more, word } => mix_later_try(digest, 2, *more, &[*word]),
        LegPhase::Second { more, word, body } => mix_later_try(digest, 3, *more, &[*word, *body]),
        LegPhase::Pinning {
            more,
            word,
            body,
            second,
        } => mix_later_try(digest, 4, *more, &[*word, *body, *second]),
        LegPhase::Relook { more, word, rule } => {
            mix_later_try(digest, 5, *more, &[*word, u64::from(rule.number())])
        }
    }
}

fn mix_purpose(digest: &mut Digest, pin_purpose: &PinPurpose) {
    match pin_purpose {
        PinPurpose::Mapping => digest.mix(0),
        PinPurpose::Source { via, .. } => {
            digest.mix(1);
            mix_via(digest, via.as_ref())
        }
        PinPurpose::Dest { source, via, .. } => {
            digest.mix(2);
            mix_access_path(digest, source);
            mix_via(digest, via.as_ref())
        }
    }
}

fn mix_leg(digest: &mut Digest, leg: &Leg) {
    digest.mix_all(&[
        u64::from(leg.grantee.0),
        u64::from(leg.dom.0),
        u64::from(leg.gref.0),
    ])
}

// Mixes in the types that a refusal by the policy is about.
fn mix_types(digest: &mut Digest, facts: Facts) {
    match facts {
        Facts::Policy { source, target, .. } => {
            digest.mix_all(&[u64::from(source.0) + 1, u64::from(target.0)])
        }
        _ => digest.mix(0),
    }
}

// Mixes in the verdict with which a call will end, if it is a refusal.
fn mix_verdict(digest: &mut Digest, verdict: CallResult) {
    match verdict {
        CallResult::Refused(denial) => {
            digest.mix(u64::from(denial.rule.number()));
            mix_types(digest, denial.facts)
        }
        _ => digest.mix(0),
    }
}

/// Mixes in what an open call has left to do. What follows from its line is left out.
pub fn mix_phase(digest: &mut Digest, phase: &Phase) {
    match phase {
        Phase::Storing { .. } => digest.mix(1),
        Phase::StoringSecond { .. } => digest.mix(2),
        Phase::Exchanging { .. } => digest.mix(3),
        Phase::Looking { more, .. } => mix_try(digest, 4, *more),
        Phase::Changing { more, looked, .. } => {
            mix_try(digest, 5, *more);
            digest.mix(*looked)
        }
        Phase::Walking {
            pin_purpose,
            leg,
            at,
        } => {
            digest.mix(6);
            mix_purpose(digest, pin_purpose);
            mix_leg(digest, leg);
            mix_leg_phase(digest, at)
        }
        Phase::Accessing { source, dest, .. } => {
            digest.mix(7);
            mix_access_path(digest, source);
            mix_access_path(digest, dest)
        }
        Phase::Asking { .. } => digest.mix(8),
        Phase::Last { .. } => digest.mix(9),
        Phase::Ending { pins, verdict } => {
            digest.mix(10);
            mix_pins(digest, pins);
            mix_verdict(digest, *verdict)
        }
    }
}
