//! The answers for pairs of types: whether bytes of the one reach the other.
ghost use Rattle.std.specs.Prelude.{◌≡◌, None, Some};
ghost use Rattle.gt_flow.specs.Accesses.{AreAmong, is_among};
ghost use Rattle.gt_flow.specs.Paths.{IsSearched};
ghost use Rattle.gt_policy_questions.specs.Format.{TextGrows, GrowsBy};
ghost use Rattle.gt_policy_questions.specs.FlowPairs.{AnswersAll, AnswersEach, AnswersPair, leaves_out, pair_answer_text};

use crate::flows::format::FlowText;
use crate::flows::lines::{FlowLine, push_parts};
use crate::flows::steps::{NO_PATH, PATH, ReadPolicy, push_path};
use gt_flow::{ReachedTypes, search};
use gt_types::{Allows, TypeId};
use std::alloc::Global;

/// What is printed for a pair of types.
#[derive(Clone, Copy)]
pub(crate) enum PairForm {
    /// The number of accesses or `none`, and the steps of the path.
    Steps,
    /// The number of accesses or `none`. Nothing for a type and itself.
    Pairs,
    /// The number of accesses. Nothing if there is no path, nor for a type and itself.
    Reached,
}

// A source, with the types that its bytes reach.
#[derive(Clone, Copy)]
struct SearchedSource<'t> {
    id: TypeId,
    reached: &'t ReachedTypes,
}

// Appends the answer for a pair without a path.
fn push_none<P: Allows>(
    out: &mut FlowText,
    read: &ReadPolicy<'_, '_, P>,
    form: PairForm,
    source: TypeId,
    target: TypeId,
)
    ensures { TextGrows out.old out.new (pair_answer_text read.now.format (P.may read.now.policy.now)
        (is_among read.now.trusted.now) read.now.statements.now read.now.members.now form source target None) }
{
    let line = FlowLine {
        format: read.format,
        members: read.members,
        statements: read.statements,
        source,
        target,
        accesses: 0,
    };
    match form {
        PairForm::Steps => push_parts(out, &line, &NO_PATH),
        PairForm::Pairs => push_parts(out, &line, &NO_PATH),
        PairForm::Reached => {}
    }
}

// Appends the answer for a pair with this path.
fn push_found<P: Allows>(
    out: &mut FlowText,
    read: &ReadPolicy<'_, '_, P>,
    form: PairForm,
    source: TypeId,
    target: TypeId,
    path: &[TypeId],
)
    ensures { TextGrows out.old out.new (pair_answer_text read.now.format (P.may read.now.policy.now)
        (is_among read.now.trusted.now) read.now.statements.now read.now.members.now form source target
        (Some path.now)) }
{
    let line = FlowLine {
        format: read.format,
        members: read.members,
        statements: read.statements,
        source,
        target,
        accesses: path.len(),
    };
    push_parts(out, &line, &PATH);
    match form {
        PairForm::Steps => push_path(out, read, source, path),
        PairForm::Pairs => {}
        PairForm::Reached => {}
    }
}

// Returns whether a pair is left out: a type and itself, unless it is the only pair.
fn leaves_out(form: PairForm, source: TypeId, target: TypeId) -> bool
    ensures { result ≡ leaves_out form source target }
{
    match form {
        PairForm::Steps => false,
        PairForm::Pairs | PairForm::Reached => source.0 == target.0,
    }
}

// Appends the answer for a source and one target, and returns whether there is a path.
fn push_target<P: Allows>(
    alloc: Global,
    out: &mut FlowText,
    read: &ReadPolicy<'_, '_, P>,
    form: PairForm,
    source: &SearchedSource,
    target: TypeId,
) -> bool
    requires { IsSearched (P.may read.now.policy.now) (is_among read.now.trusted.now) source.now.id
        source.now.reached.now }
    ensures { GrowsBy (λ text. AnswersPair read.now.format (P.may read.now.policy.now) (is_among read.now.trusted.now)
        read.now.statements.now read.now.members.now form source.now.id target text result) out.old out.new }
{
    if leaves_out(form, source.id, target) {
        return false;
    }
    match source.reached.path_to(alloc, target) {
        Ok(Some(path)) => {
            push_found(out, read, form, source.id, target, path.as_slice());
            true
        }
        Ok(None) => {
            push_none(out, read, form, source.id, target);
            false
        }
        Err(_) => {
            out.is_whole = false;
            false
        }
    }
}

// Appends the answers for a source and these targets, and returns whether there is a path to one of them.
fn push_targets<P: Allows>(
    alloc: Global,
    out: &mut FlowText,
    read: &ReadPolicy<'_, '_, P>,
    form: PairForm,
    source: &SearchedSource,
    targets: &[TypeId],
) -> bool
    requires { IsSearched (P.may read.now.policy.now) (is_among read.now.trusted.now) source.now.id
        source.now.reached.now }
    ensures { GrowsBy (λ text. AnswersEach read.now.format (P.may read.now.policy.now) (is_among read.now.trusted.now)
        read.now.statements.now read.now.members.now form source.now.id targets.now text result) out.old out.new }
{
    match targets {
        [] => false,
        [target, rest @ ..] => {
            let first = push_target(alloc, out, read, form, source, *target);
            let others = push_targets(alloc, out, read, form, source, rest);
            first || others
        }
    }
}

// Appends the answers for these sources and targets, and returns whether there is a path from one of the sources to one
// of the targets. Each source is searched from once.
pub(crate) fn push_sources<P: Allows>(
    alloc: Global,
    out: &mut FlowText,
    read: &ReadPolicy<'_, '_, P>,
    form: PairForm,
    sources: &[TypeId],
    targets: &[TypeId],
) -> bool
    requires { AreAmong read.now.count (P.may read.now.policy.now) }
    ensures { GrowsBy (λ text. AnswersAll read.now.format (P.may read.now.policy.now) (is_among read.now.trusted.now)
        read.now.statements.now read.now.members.now form targets.now sources.now text result) out.old out.new }
{
    match sources {
        [] => false,
        [id, rest @ ..] => {
            let Ok(reached) = search(alloc, read.policy, read.trusted, read.count, *id) else {
                out.is_whole = false;
                return false;
            };
            let source = SearchedSource {
                id: *id,
                reached: &reached,
            };
            let first = push_targets(alloc, out, read, form, &source, targets);
            let others = push_sources(alloc, out, read, form, rest, targets);
            first || others
        }
    }
}
