//! The lines of a script that moves belong to.
ghost use Rattle.std.specs.Prelude.{◌≡◌, IfOk, count_by};
ghost use Rattle.std.specs.Option.{option_map};
ghost use Rattle.gt_script.specs.RunContents.{run_contents};
ghost use Rattle.gt_explore_trace.specs.Places.{begins_own, index_after, is_beginning, task_of_move};

use crate::moves::TracedMove;
use gt_explore_replay::Moved;
use gt_script::{RunScript, RunTask};
use gt_types::DomId;
use std::alloc::{AllocError, Global};

// Returns whether by this move a domain begins a line of its list, or at its end a release.
fn is_beginning(moved: &Moved) -> bool
    ensures { result ≡ is_beginning moved.now }
{
    match moved {
        Moved::Raised | Moved::Passed | Moved::Began(_) => true,
        Moved::Stepped(_, _, _) => false,
    }
}

// Returns whether by this move this domain begins a line or a release.
fn begins_own(dom: DomId, traced: &TracedMove) -> bool
    ensures { result ≡ begins_own dom traced.now }
{
    traced.dom.0 == dom.0 && is_beginning(&traced.moved)
}

// Returns how many lines and releases a domain began by these moves.
fn begun_by(dom: DomId, moves: &[TracedMove]) -> usize
    ensures { result ≡ count_by (begins_own dom) moves.now }
{
    moves
        .iter()
        .filter(|traced| begins_own(dom, *traced))
        .count()
}

// Returns the index of the line that a move belongs to, after its domain has begun this number of lines.
fn index_after(begun: usize, moved: &Moved) -> usize
    ensures { result ≡ index_after begun moved.now }
{
    if is_beginning(moved) {
        begun
    } else {
        begun.saturating_sub(1)
    }
}

/// Returns the line that a move belongs to, after these moves; None for a release at the end of the list.
pub fn task_of<'s, 'a>(
    alloc: Global,
    script: &'s RunScript<'a>,
    before: &[TracedMove],
    traced: &TracedMove,
) -> Result<Option<&'s RunTask<'a>>, AllocError>
    ensures { IfOk result (λ t. option_map (λ u. u.now) t
        ≡ task_of_move (run_contents script.entry.now) before.now traced.now) }
{
    let list = script.list_of(alloc, traced.dom)?;
    let index = index_after(begun_by(traced.dom, before), &traced.moved);
    if index < list.len() {
        Ok(Some(list[index]))
    } else {
        Ok(None)
    }
}
