//! Equality of calls.
ghost use Rattle.std.specs.Prelude.{◌≡◌, IsTrue};

use crate::same::steps::same_step;
use gt_calls::{
    AccessPath, Call, CallPins, CallResult, CallValue, HeaderQuery, HeldPin, Leg, LegPhase,
    OpenRequest, Phase, PinPurpose,
};
use gt_types::{Denial, Facts};

// Returns whether two accesses to bytes are the same.
fn same_access(one: OpenRequest, other: OpenRequest) -> bool
    ensures { IsTrue result → other ≡ one }
{
    match (one, other) {
        (
            OpenRequest::Load { handle, off, len },
            OpenRequest::Load {
                handle: h,
                off: o,
                len: l,
            },
        ) => handle == h && off == o && len == l,
        (
            OpenRequest::Store { handle, off, len },
            OpenRequest::Store {
                handle: h,
                off: o,
                len: l,
            },
        ) => handle == h && off == o && len == l,
        (
            OpenRequest::Peek { frame, off, len },
            OpenRequest::Peek {
                frame: f,
                off: o,
                len: l,
            },
        ) => frame == f && off == o && len == l,
        (
            OpenRequest::Poke { frame, off, len },
            OpenRequest::Poke {
                frame: f,
                off: o,
                len: l,
            },
        ) => frame == f && off == o && len == l,
        (OpenRequest::Copy(args), OpenRequest::Copy(a))
        | (OpenRequest::Probe(args), OpenRequest::Probe(a)) => args == a,
        _ => false,
    }
}

fn same_asked(one: OpenRequest, other: OpenRequest) -> bool
    ensures { IsTrue result → other ≡ one }
{
    match (one, other) {
        (OpenRequest::Grant { gref, entry }, OpenRequest::Grant { gref: g, entry: e }) => {
            gref == g && entry == e
        }
        (OpenRequest::Revoke { gref }, OpenRequest::Revoke { gref: g })
        | (OpenRequest::Withdraw { gref }, OpenRequest::Withdraw { gref: g })
        | (OpenRequest::Demote { gref }, OpenRequest::Demote { gref: g })
        | (OpenRequest::Promote { gref }, OpenRequest::Promote { gref: g }) => gref == g,
        (
            OpenRequest::Map { dom, gref, flags },
            OpenRequest::Map {
                dom: d,
                gref: g,
                flags: f,
            },
        ) => dom == d && gref == g && flags == f,
        (OpenRequest::Unmap { handle }, OpenRequest::Unmap { handle: h })
        | (OpenRequest::Release { handle }, OpenRequest::Release { handle: h }) => handle == h,
        (OpenRequest::SetVersion { version }, OpenRequest::SetVersion { version: v }) => version
            == v,
        (OpenRequest::SetupTable { frames }, OpenRequest::SetupTable { frames: f }) => frames == f,
        (OpenRequest::QuerySize { dom }, OpenRequest::QuerySize { dom: d })
        | (OpenRequest::GetVersion { dom }, OpenRequest::GetVersion { dom: d }) => dom == d,
        _ => same_access(one, other),
    }
}

fn same_question(one: HeaderQuery, other: HeaderQuery) -> bool
    ensures { IsTrue result → other ≡ one }
{
    match (one, other) {
        (HeaderQuery::Size, HeaderQuery::Size) | (HeaderQuery::Version, HeaderQuery::Version) =>
            true,
        _ => false,
    }
}

/// Returns true only if both pins are the same.
pub fn same_held(one: HeldPin, other: HeldPin) -> bool
    ensures { IsTrue result → other ≡ one }
{
    other == one
}

fn same_value(one: CallValue, other: CallValue) -> bool
    ensures { IsTrue result → other ≡ one }
{
    one == other
}

fn same_facts(one: Facts, other: Facts) -> bool
    ensures { IsTrue result → other ≡ one }
{
    one == other
}

fn same_denial(one: Denial, other: Denial) -> bool
    ensures { IsTrue result → other ≡ one }
{
    one.rule == other.rule && one.status == other.status && same_facts(one.facts, other.facts)
}

/// Returns true only if both ends of a call are the same.
pub fn same_result(one: CallResult, other: CallResult) -> bool
    ensures { IsTrue result → other ≡ one }
{
    match (one, other) {
        (CallResult::Granted, CallResult::Granted) => true,
        (CallResult::Given(value), CallResult::Given(v)) => same_value(value, v),
        (CallResult::Mapped(held), CallResult::Mapped(h)) => same_held(held, h),
        (CallResult::Refused(denial), CallResult::Refused(d)) => same_denial(denial, d),
        _ => false,
    }
}

fn same_via(one: Option<HeldPin>, other: Option<HeldPin>) -> bool
    ensures { IsTrue result → other ≡ one }
{
    match (one, other) {
        (None, None) => true,
        (Some(held), Some(h)) => same_held(held, h),
        _ => false,
    }
}

fn same_access_path(one: AccessPath, other: AccessPath) -> bool
    ensures { IsTrue result → other ≡ one }
{
    match (one, other) {
        (AccessPath::Own, AccessPath::Own) => true,
        (AccessPath::Direct(held), AccessPath::Direct(h)) => same_held(held, h),
        (AccessPath::Through { via, held }, AccessPath::Through { via: v, held: h }) => {
            same_held(via, v) && same_held(held, h)
        }
        _ => false,
    }
}

fn same_pins(one: CallPins, other: CallPins) -> bool
    ensures { IsTrue result → other ≡ one }
{
    same_access_path(one.source, other.source) && same_access_path(one.dest, other.dest)
}

fn same_leg(one: Leg, other: Leg) -> bool
    ensures { IsTrue result → other ≡ one }
{
    one.grantee == other.grantee
        && one.dom == other.dom
        && one.gref == other.gref
        && one.dir == other.dir
        && one.purpose == other.purpose
        && one.beyond_via == other.beyond_via
        && one.off == other.off
        && one.len == other.len
        && one.frames == other.frames
}

fn same_leg_phase(one: LegPhase, other: LegPhase) -> bool
    ensures { IsTrue result → other ≡ one }
{
    match (one, other) {
        (LegPhase::Header, LegPhase::Header) => true,
        (LegPhase::Look { more }, LegPhase::Look { more: m }) => more == m,
        (LegPhase::Body { more, word }, LegPhase::Body { more: m, word: w }) => {
            more == m && word == w
        }
        (
            LegPhase::Second { more, word, body },
            LegPhase::Second {
                more: m,
                word: w,
                body: b,
            },
        ) => more == m && word == w && body == b,
        (
            LegPhase::Pinning {
                more,
                word,
                body,
                second,
            },
            LegPhase::Pinning {
                more: m,
                word: w,
                body: b,
                second: s,
            },
        ) => more == m && word == w && body == b && second == s,
        (
            LegPhase::Relook { more, word, rule },
            LegPhase::Relook {
                more: m,
                word: w,
                rule: r,
            },
        ) => more == m && word == w && rule == r,
        _ => false,
    }
}

fn same_purpose(one: PinPurpose, other: PinPurpose) -> bool
    ensures { IsTrue result → other ≡ one }
{
    match (one, other) {
        (PinPurpose::Mapping, PinPurpose::Mapping) => true,
        (PinPurpose::Source { copy, via }, PinPurpose::Source { copy: c, via: v }) => {
            copy == c && same_via(via, v)
        }
        (
            PinPurpose::Dest { copy, source, via },
            PinPurpose::Dest {
                copy: c,
                source: s,
                via: v,
            },
        ) => copy == c && same_access_path(source, s) && same_via(via, v),
        _ => false,
    }
}

// Compares phases of a call on an own entry. It returns false for all others.
fn same_own_phase(one: Phase, other: Phase) -> bool
    ensures { IsTrue result → other ≡ one }
{
    match (one, other) {
        (Phase::Storing { gref, entry }, Phase::Storing { gref: g, entry: e })
        | (Phase::StoringSecond { gref, entry }, Phase::StoringSecond { gref: g, entry: e }) => {
            gref == g && entry == e
        }
        (
            Phase::Exchanging {
                gref,
                looked,
                change,
            },
            Phase::Exchanging {
                gref: g,
                looked: l,
                change: c,
            },
        ) => gref == g && looked == l && change == c,
        (
            Phase::Looking { gref, change, more },
            Phase::Looking {
                gref: g,
                change: c,
                more: m,
            },
        ) => gref == g && change == c && more == m,
        (
            Phase::Changing {
                gref,
                change,
                more,
                looked,
            },
            Phase::Changing {
                gref: g,
                change: c,
                more: m,
                looked: l,
            },
        ) => gref == g && change == c && more == m && looked == l,
        _ => false,
    }
}

// Compares the other phases.
fn same_other_phase(one: Phase, other: Phase) -> bool
    ensures { IsTrue result → other ≡ one }
{
    match (one, other) {
        (
            Phase::Walking {
                pin_purpose,
                leg,
                at,
            },
            Phase::Walking {
                pin_purpose: a,
                leg: l,
                at: p,
            },
        ) => same_purpose(pin_purpose, a) && same_leg(leg, l) && same_leg_phase(at, p),
        (
            Phase::Accessing { copy, source, dest },
            Phase::Accessing {
                copy: c,
                source: s,
                dest: d,
            },
        ) => copy == c && same_access_path(source, s) && same_access_path(dest, d),
        (
            Phase::Asking { dom, question },
            Phase::Asking {
                dom: d,
                question: q,
            },
        ) => dom == d && same_question(question, q),
        (
            Phase::Last { step, verdict },
            Phase::Last {
                step: s,
                verdict: v,
            },
        ) => same_step(step, s) && same_result(verdict, v),
        (
            Phase::Ending { pins, verdict },
            Phase::Ending {
                pins: p,
                verdict: v,
            },
        ) => same_pins(pins, p) && same_result(verdict, v),
        _ => false,
    }
}

fn same_phase(one: Option<Phase>, other: Option<Phase>) -> bool
    ensures { IsTrue result → other ≡ one }
{
    match (one, other) {
        (None, None) => true,
        (Some(phase), Some(p)) => same_own_phase(phase, p) || same_other_phase(phase, p),
        _ => false,
    }
}

/// Returns true only if both calls are the same: the caller, the request, and how far each is.
pub fn same_call(one: Call, other: Call) -> bool
    ensures { IsTrue result → other ≡ one }
{
    one.caller == other.caller
        && same_asked(one.request, other.request)
        && same_phase(one.phase, other.phase)
}
