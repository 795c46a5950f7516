//! The command `explore` for a claim with terms of order.
ghost use Rattle.std.specs.Prelude.{◌≡◌, ℕ, List, IfErr, IfOk, IfSome, map, take};
ghost use Rattle.std.specs.Str.Lines.{lines as lines_in};
ghost use Rattle.gt_call_names.specs.Naming.{with_line_numbers};
ghost use Rattle.gt_script.specs.RunContents.{run_contents};
ghost use Rattle.gt_script.specs.RunScripts.{CanConfigure, ReadsAsRun};
ghost use Rattle.gt_script.specs.Contents.{contents_of};
ghost use Rattle.gt_script.specs.Stuck.{AreNumbered};
ghost use Rattle.gt_text.specs.declared.streams.TheConstants.{READ_LIMIT};
ghost use Rattle.gt_explore_precedence.specs.Exploring.{AreRunsOf, IsRestFault, PrecedingExplored, RestExplored, is_joined_freely};
ghost use Rattle.gt_explore_precedence.specs.Exploring.{IsShownAs, PartsExplored, is_always, is_negated_order};
ghost use Rattle.gt_explore_precedence.specs.Exploring.{negates_order};
ghost use Rattle.gt_explore_precedence.specs.Pairs.{IsPairsFault};
ghost use Rattle.gt_explore_precedence.specs.Terms.{parts_between, rest_of};

use crate::orders::explore_orders;
use crate::pairs::{has_not, pairs_of, preceding_all};
use crate::terms::{has_other_mark, has_precedence, number_among, parts_in, rest_of};
use gt_call_names::{NameFault, numbered};
use gt_explore::explore_script;
use gt_explore_answers::{ExploreFormat, ExploreOptions, ExploreRequest};
use gt_explore_faults::{ClaimsFault, ExploreFault};
use gt_explore_search::SearchWatch;
use gt_explore_verdict::{Claim, Verdict};
use gt_script::{RunScript, parse_run};
use gt_script_runs::PlayFault;
use gt_text::text_of;
use std::alloc::{AllocError, Global};
use std::io::Write;

/// A claim whose expression has terms of order. `states` is the largest number of states that the search may meet.
#[derive(Clone, Copy)]
pub struct PrecedenceOptions<'e> {
    pub claim: Claim,
    pub expression: &'e str,
    pub states: usize,
    pub format: ExploreFormat,
}

// What is explored: the text of the script, the parts of the expression, and the request without its terms of order.
#[derive(Clone, Copy)]
struct Rest<'x, 'e> {
    source: &'x str,
    parts: &'x [&'x [u8]],
    asked: ExploreOptions<'e>,
}

fn is_always(claim: Claim) -> bool
    ensures { result ≡ is_always claim }
{
    match claim {
        Claim::Always => true,
        Claim::Find | Claim::Never => false,
    }
}

// Returns whether a part has a term of order after `!`.
fn is_negated_order(part: &[u8]) -> bool
    ensures { result ≡ is_negated_order part.now }
{
    has_not(part) && has_precedence(part)
}

// Returns whether a term of order comes after `!`.
fn negates_order(parts: &[&[u8]]) -> bool
    ensures { result ≡ negates_order (map (λ part. part.now) parts.now) }
{
    parts.iter().any(|part| is_negated_order(part))
}

// Returns whether the terms of a claim with these parts have to be judged order by order: the claim is `always`, an order
// comes after `!`, or the terms are not all joined by `&`.
fn is_joined_freely(asked: &PrecedenceOptions<'_>, parts: &[&[u8]]) -> bool
    ensures { result ≡ is_joined_freely asked.now.claim asked.now.expression.now (map (λ part. part.now) parts.now) }
{
    is_always(asked.claim) || has_other_mark(asked.expression.as_bytes()) || negates_order(parts)
}

// Returns the script whose runs are those in which the calls that these parts name are in order.
fn in_precedence<'a>(
    alloc: Global,
    source: &str,
    script: RunScript<'a>,
    parts: &[&[u8]],
) -> Result<RunScript<'a>, ClaimsFault>
    ensures runs { let said = map (λ part. part.now) parts.now in
        IfOk result (λ s. AreRunsOf (lines_in source.now) (run_contents script.entry) said (run_contents s)) }
    ensures head { IfOk result (λ s. s.head ≡ script.entry.head) }
    ensures numbered { AreNumbered script.entry.flags script.entry.tasks →
        IfOk result (λ s. AreNumbered s.flags s.tasks) }
    ensures fault { IfErr result
        (IsPairsFault (lines_in source.now) script.entry.tasks (map (λ part. part.now) parts.now)) }
{
    let pairs = match pairs_of(alloc, source, &script, parts) {
        Ok(pairs) => pairs,
        Err(fault) => return Err(fault),
    };
    match preceding_all(alloc, script, pairs) {
        Ok(made) => Ok(made),
        Err(error) => Err(ClaimsFault::from(error)),
    }
}

// Returns an expression without its terms of order, with the numbers of lines in place of names.
fn rest_numbered(alloc: Global, source: &str, parts: &[&[u8]]) -> Result<Vec<u8>, ClaimsFault>
    ensures ok { IfOk result (λ text.
        text.items ≡ with_line_numbers (lines_in source.now) (rest_of (map (λ part. part.now) parts.now))) }
    ensures fault { IfErr result (IsRestFault (lines_in source.now) (map (λ part. part.now) parts.now)) }
{
    let rest = rest_of(alloc, parts)?;
    let Ok(text) = text_of(rest.as_slice()) else {
        return Err(ClaimsFault::Astray);
    };
    match numbered(alloc, source, text) {
        Ok(text) => Ok(text),
        Err(NameFault::Repeated { first, second }) => Err(ClaimsFault::Repeated { first, second }),
        Err(NameFault::Memory) => Err(ClaimsFault::from(AllocError)),
    }
}

// Returns the fault of an exploration, with the number that a term has in the whole expression.
fn numbered_fault(parts: &[&[u8]], fault: ExploreFault) -> ClaimsFault
    ensures { IsShownAs (map (λ part. part.now) parts.now) fault result }
{
    match fault {
        ExploreFault::Term { number, fault } => match number_among(parts, number) {
            Some(number) => ClaimsFault::Explore(ExploreFault::Term { number, fault }),
            None => ClaimsFault::Astray,
        },
        fault => ClaimsFault::Explore(fault),
    }
}

// Answers the request on the runs of the script in which the calls are in order.
fn explore_rest<W: Write, T: SearchWatch>(
    alloc: Global,
    rest: &Rest<'_, '_>,
    writer: &mut W,
    watch: &mut T,
) -> Result<Verdict, ClaimsFault>
    ensures { (all : List ℕ) → rest.now.source.now ≡ take READ_LIMIT all →
        RestExplored all (map (λ part. part.now) rest.now.parts.now) rest.now.asked (W.contents writer.old)
        (W.contents writer.new) result }
{
    let script = match parse_run(alloc, rest.source.as_bytes()) {
        Ok(script) => script,
        Err(error) => {
            return Err(ClaimsFault::Explore(ExploreFault::Play(PlayFault::from(error))));
        }
    };
    let made = match in_precedence(alloc, rest.source, script, rest.parts) {
        Ok(made) => made,
        Err(fault) => return Err(fault),
    };
    let source = rest.source.as_bytes();
    match explore_script(alloc, &rest.asked, source, &made, writer, watch) {
        Ok(verdict) => Ok(verdict),
        Err(fault) => Err(numbered_fault(rest.parts, fault)),
    }
}

// Decides a claim whose expression has these parts.
fn explore_parts<'x, W: Write, T: SearchWatch>(
    alloc: Global,
    asked: &PrecedenceOptions<'_>,
    source: &'x str,
    parts: &'x [&'x [u8]],
    writer: &mut W,
    watch: &mut T,
) -> Result<Verdict, ClaimsFault>
    ensures { (all : List ℕ) → source.now ≡ take READ_LIMIT all →
        PartsExplored all asked.now (map (λ part. part.now) parts.now) (W.contents writer.old) (W.contents writer.new)
        result }
{
    let numbered = match rest_numbered(alloc, source, parts) {
        Ok(numbered) => numbered,
        Err(fault) => return Err(fault),
    };
    let Ok(expression) = text_of(numbered.as_slice()) else {
        return Err(ClaimsFault::Astray);
    };
    let claim = asked.claim;
    let rest = Rest {
        source,
        parts,
        asked: ExploreOptions {
            request: ExploreRequest::Decide { claim, expression },
            states: asked.states,
            format: asked.format,
        },
    };
    explore_rest(alloc, &rest, writer, watch)
}

/// Decides a claim whose expression has terms of order, such as `17=ok & 12<17`, on the orders of a script.
///
/// If the claim is `find` or `never` and its terms are joined by `&` alone, with no order after `!`, a text counts if it
/// satisfies the other terms, and some run that gives it has the calls in that order. What is written is what `explore`
/// of `gt_explore` writes for the other terms and for those runs. A script for `play` shows such a run.
///
/// For any other claim a text comes once for each set of terms of order that hold in an order with it. `find` prints
/// those whose order satisfies the expression. Another claim prints the verdict, or the first text that shows that it does
/// not hold, as a comment. In `Json`, it is the object of the first text that shows the verdict, and the last object.
///
/// `source` is the text of the script, or its first 1,048,577 bytes.
///
/// # Errors
/// `Precedence` if a side names no call. `Repeated` if a name is that of two calls. `Explore` with a fault of `explore`,
/// but for failed reads. Nothing was written then, but for a prefix of the text if a write failed.
pub fn explore_preceding<W: Write, T: SearchWatch>(
    alloc: Global,
    asked: &PrecedenceOptions<'_>,
    source: &str,
    writer: &mut W,
    watch: &mut T,
) -> Result<Verdict, ClaimsFault>
    ensures { (all : List ℕ) → source.now ≡ take READ_LIMIT all →
        PrecedingExplored all asked.now (W.contents writer.old) (W.contents writer.new) result }
{
    let parts = parts_in(alloc, asked.expression.as_bytes())?;
    if is_joined_freely(asked, parts.as_slice()) {
        return explore_orders(alloc, asked, source, writer, watch);
    }
    explore_parts(alloc, asked, source, parts.as_slice(), writer, watch)
}
