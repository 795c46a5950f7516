//! The command `explore` for a claim about the orders of a script.
ghost use Rattle.std.specs.Prelude.{◌≡◌, ℕ, List, IfErr, IfOk, length, map, take};
ghost use Rattle.std.specs.List.{slice_split};
ghost use Rattle.std.specs.Str.Lines.{lines as lines_in};
ghost use Rattle.gt_script.specs.Contents.{contents_of};
ghost use Rattle.gt_script.specs.RunContents.{run_contents};
ghost use Rattle.gt_script.specs.RunScripts.{CanConfigure};
ghost use Rattle.gt_precedence.specs.Precedence.{IsOrderly};
ghost use Rattle.gt_text.specs.declared.streams.TheConstants.{READ_LIMIT};
ghost use Rattle.gt_explore_precedence.specs.Orders.{AreOrderPairs, IsExpressionWrong, IsOrderAnswer, OrdersExplored};
ghost use Rattle.gt_explore_precedence.specs.Orders.{IsPairsWrong, IsShownWithVerdict, MakesOrders, OrdersWritten};
ghost use Rattle.gt_explore_precedence.specs.Replacing.{is_join};

use crate::exploring::PrecedenceOptions;
use crate::judging::{JudgedOrders, OrderClaim, judge_orders};
use crate::pairs::pairs_of;
use crate::replacing::{is_join, replaced};
use crate::showing::{ShownClaim, order_output, texts_of_found};
use gt_call_names::{NameFault, numbered};
use gt_explore_answers::{ExploreOutput, ExploreRequest, conditions_asked};
use gt_explore_faults::{ClaimsFault, ExploreFault, TextsFault};
use gt_explore_search::SearchWatch;
use gt_explore_verdict::{Claim, ExpressionFault, Verdict};
use gt_precedence::parsed_scripts_are_orderly;
use gt_script::{Precedence, RunScript, parse_run};
use gt_script_runs::PlayFault;
use gt_text::{text_of, write_text};
use std::alloc::{AllocError, Global};
use std::io::Write;

// Splits an expression at the marks that join its terms.
fn terms_in<'e>(alloc: Global, expression: &'e [u8]) -> Result<Vec<&'e [u8]>, AllocError>
    ensures { IfOk result (λ terms. map (λ term. term.now) terms.items ≡ slice_split is_join expression.entry.now) }
{
    expression.split(|b| is_join(*b)).collect(alloc)
}

// Returns the calls that the terms of order of an expression name.
fn order_pairs(
    alloc: Global,
    asked: &PrecedenceOptions<'_>,
    source: &str,
    script: &RunScript<'_>,
) -> Result<Vec<Precedence>, ClaimsFault>
    ensures ok { IfOk result (λ pairs.
        AreOrderPairs (lines_in source.now) script.now.tasks asked.now.expression.now pairs.items) }
    ensures fault { IfErr result
        (IsPairsWrong (lines_in source.now) script.now.tasks asked.now.expression.now) }
{
    let terms = terms_in(alloc, asked.expression.as_bytes())?;
    pairs_of(alloc, source, script, terms.as_slice())
}

// Returns the first fault of an expression, if it has one. In place of each term of order it has one that some texts meet.
fn wrong_expression(
    alloc: Global,
    asked: &PrecedenceOptions<'_>,
    source: &str,
    script: &RunScript<'_>,
) -> Result<(), ClaimsFault>
    ensures { IfErr result
        (IsExpressionWrong (run_contents script.now) (lines_in source.now) asked.now.expression.now) }
{
    let made = replaced(alloc, asked.expression.as_bytes(), &[])?;
    let Ok(text) = text_of(made.as_slice()) else {
        return Err(ClaimsFault::Astray);
    };
    let numbers = match numbered(alloc, source, text) {
        Ok(numbers) => numbers,
        Err(NameFault::Repeated { first, second }) => {
            return Err(ClaimsFault::Repeated { first, second });
        }
        Err(NameFault::Memory) => return Err(ClaimsFault::from(AllocError)),
    };
    let Ok(expression) = text_of(numbers.as_slice()) else {
        return Err(ClaimsFault::Astray);
    };
    let claim = Claim::Find;
    match conditions_asked(alloc, script, ExploreRequest::Decide { claim, expression }) {
        Ok(_) => Ok(()),
        Err(ExpressionFault::Term { number, fault }) => {
            Err(ClaimsFault::Explore(ExploreFault::Term { number, fault }))
        }
        Err(ExpressionFault::Memory) => Err(ClaimsFault::from(AllocError)),
    }
}

// Returns what is printed of a claim that was judged, and its verdict.
fn shown_as(
    alloc: Global,
    asked: &PrecedenceOptions<'_>,
    judged: JudgedOrders,
) -> Result<ExploreOutput, TextsFault>
    requires { length judged.met.items ≡ length judged.found.texts.items }
    ensures { IfOk result (λ made. IsShownWithVerdict asked.now judged made.text.items made.verdict) }
{
    let judgement = judged.judgement;
    let met = judged.met;
    let found = texts_of_found(alloc, judged.found)?;
    let shown = ShownClaim {
        claim: asked.claim,
        judgement,
        states: asked.states,
        format: asked.format,
    };
    let text = order_output(alloc, &shown, &found, met.as_slice())?;
    let verdict = judgement.verdict;
    Ok(ExploreOutput { text, verdict })
}

// Judges a claim about the orders of a script, and returns the output.
fn order_answer<T: SearchWatch>(
    alloc: Global,
    asked: &PrecedenceOptions<'_>,
    source: &str,
    script: &RunScript<'_>,
    pairs: &[Precedence],
    watch: &mut T,
) -> Result<ExploreOutput, TextsFault>
    requires fits { CanConfigure (contents_of script.now.head) }
    requires orderly { IsOrderly (run_contents script.now) }
    ensures { IfOk result (λ made. IsOrderAnswer (run_contents script.now) (lines_in source.now) asked.now pairs.now
        made.text.items made.verdict) }
{
    let claim = OrderClaim {
        claim: asked.claim,
        expression: asked.expression.as_bytes(),
        source,
        pairs,
    };
    let judged = judge_orders(alloc, script, &claim, asked.states, watch)?;
    shown_as(alloc, asked, judged)
}

// Returns the output for a claim about the orders of a script.
fn made_orders<T: SearchWatch>(
    alloc: Global,
    asked: &PrecedenceOptions<'_>,
    source: &str,
    script: &RunScript<'_>,
    watch: &mut T,
) -> Result<ExploreOutput, ClaimsFault>
    requires fits { CanConfigure (contents_of script.now.head) }
    requires orderly { IsOrderly (run_contents script.now) }
    ensures { MakesOrders (run_contents script.now) (lines_in source.now) asked.now result }
{
    let pairs = match order_pairs(alloc, asked, source, script) {
        Ok(pairs) => pairs,
        Err(fault) => return Err(fault),
    };
    match wrong_expression(alloc, asked, source, script) {
        Ok(()) => (),
        Err(fault) => return Err(fault),
    }
    match order_answer(alloc, asked, source, script, pairs.as_slice(), watch) {
        Ok(made) => Ok(made),
        Err(fault) => Err(ClaimsFault::Explore(ExploreFault::Texts(fault))),
    }
}

// Decides a claim on the orders of a script that was parsed, and writes the output.
fn write_orders<W: Write, T: SearchWatch>(
    alloc: Global,
    asked: &PrecedenceOptions<'_>,
    source: &str,
    script: &RunScript<'_>,
    writer: &mut W,
    watch: &mut T,
) -> Result<Verdict, ClaimsFault>
    requires fits { CanConfigure (contents_of script.now.head) }
    requires orderly { IsOrderly (run_contents script.now) }
    ensures { OrdersWritten (run_contents script.now) (lines_in source.now) asked.now (W.contents writer.old)
        (W.contents writer.new) result }
{
    let made = match made_orders(alloc, asked, source, script, watch) {
        Ok(made) => made,
        Err(fault) => return Err(fault),
    };
    match write_text(writer, made.text.as_slice()) {
        Ok(()) => Ok(made.verdict),
        Err(_) => Err(ClaimsFault::Explore(ExploreFault::Play(PlayFault::Write))),
    }
}

/// Decides a claim on the orders of a script, in which terms of order and other terms may be joined in any way. A text
/// comes once for each set of precedences that hold in an order with it. In `Text`, `find` prints the texts whose orders
/// satisfy the expression. Another claim prints the verdict, or the first text that shows that it does not hold. In
/// `Json`, it is the object of the first text that shows the verdict, and the last object.
///
/// # Errors
/// `Precedence` if a side of a term of order names no call; `Repeated` if a name is that of two calls; and `Explore` with
/// a fault of `explore`, but for failed reads. Nothing was written then, but for a prefix of the text if a write failed.
pub(crate) fn explore_orders<W: Write, T: SearchWatch>(
    alloc: Global,
    asked: &PrecedenceOptions<'_>,
    source: &str,
    writer: &mut W,
    watch: &mut T,
) -> Result<Verdict, ClaimsFault>
    ensures { (all : List ℕ) → source.now ≡ take READ_LIMIT all →
        OrdersExplored all asked.now (W.contents writer.old) (W.contents writer.new) result }
{
    parsed_scripts_are_orderly();
    match parse_run(alloc, source.as_bytes()) {
        Ok(script) => write_orders(alloc, asked, source, &script, writer, watch),
        Err(error) => Err(ClaimsFault::Explore(ExploreFault::Play(PlayFault::from(error)))),
    }
}
