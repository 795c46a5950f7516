//! Equality of steps.
ghost use Rattle.std.specs.Prelude.{◌≡◌, IsTrue};

use crate::same::calls::same_held;
use gt_calls::Step;

// Compares steps that look at a word. It returns false for all others.
fn same_look(one: Step, other: Step) -> bool
    ensures { IsTrue result → other ≡ one }
{
    match (one, other) {
        (Step::LookHeader { dom }, Step::LookHeader { dom: d }) => dom == d,
        (Step::LookControl { dom, gref }, Step::LookControl { dom: d, gref: g }) => {
            dom == d && gref == g
        }
        (
            Step::LookBody {
                dom,
                gref,
                body_word,
            },
            Step::LookBody {
                dom: d,
                gref: g,
                body_word: h,
            },
        ) => dom == d && gref == g && body_word == h,
        _ => false,
    }
}

// Compares steps that change a word.
fn same_change(one: Step, other: Step) -> bool
    ensures { IsTrue result → other ≡ one }
{
    match (one, other) {
        (Step::Pin { held }, Step::Pin { held: h }) => same_held(held, h),
        (Step::Unpin { held, holder }, Step::Unpin { held: h, holder: o }) => {
            same_held(held, h) && holder == o
        }
        (
            Step::StoreBody {
                gref,
                body_word,
                word,
            },
            Step::StoreBody {
                gref: g,
                body_word: h,
                word: w,
            },
        ) => gref == g && body_word == h && word == w,
        (
            Step::Exchange {
                gref,
                looked,
                change,
            },
            Step::Exchange {
                gref: g,
                looked: l,
                change: c,
            },
        ) => gref == g && looked == l && change == c,
        (
            Step::StoreHeader { version, frames },
            Step::StoreHeader {
                version: v,
                frames: f,
            },
        ) => version == v && frames == f,
        _ => false,
    }
}

// Compares steps on bytes.
fn same_access(one: Step, other: Step) -> bool
    ensures { IsTrue result → other ≡ one }
{
    match (one, other) {
        (
            Step::Read {
                dom,
                frame,
                off,
                len,
            },
            Step::Read {
                dom: d,
                frame: f,
                off: o,
                len: l,
            },
        ) => dom == d && frame == f && off == o && len == l,
        (
            Step::Write {
                dom,
                frame,
                off,
                len,
            },
            Step::Write {
                dom: d,
                frame: f,
                off: o,
                len: l,
            },
        ) => dom == d && frame == f && off == o && len == l,
        (
            Step::Copy { from, to, len },
            Step::Copy {
                from: f,
                to: t,
                len: l,
            },
        ) => from == f && to == t && len == l,
        _ => false,
    }
}

/// Returns true only if both steps are the same.
pub fn same_step(one: Step, other: Step) -> bool
    ensures { IsTrue result → other ≡ one }
{
    same_look(one, other) || same_change(one, other) || same_access(one, other)
}
