//! Claims about the orders of a script, by texts with the precedences of their orders.
ghost use Rattle.std.specs.Prelude.{◌≡◌, IfOk, map};
ghost use Rattle.std.specs.Str.Lines.{lines as lines_in};
ghost use Rattle.gt_script.specs.Contents.{contents_of};
ghost use Rattle.gt_script.specs.RunContents.{run_contents};
ghost use Rattle.gt_script.specs.RunScripts.{CanConfigure};
ghost use Rattle.gt_precedence.specs.Precedence.{IsOrderly};
ghost use Rattle.gt_explore_answers.specs.Exploring.{AreConditions};
ghost use Rattle.gt_explore_verdict.specs.Formulas.{operation_asked};
ghost use Rattle.gt_explore_precedence.specs.Judging.{JudgesOrders, expression_in, order_satisfies};
ghost use Rattle.gt_explore_precedence.specs.Judging.{satisfied_in};

use crate::replacing::replaced;
use gt_call_names::{NameFault, numbered};
use gt_explore_answers::{ExploreRequest, conditions_asked};
use gt_explore_faults::TextsFault;
use gt_explore_ordered::{OrderedFound, OrderedText, ordered_within};
use gt_explore_search::SearchWatch;
use gt_explore_verdict::{Claim, ExpressionFault, Judgement, Operation, judge, satisfies};
use gt_script::{Precedence, RunScript};
use gt_text::text_of;
use std::alloc::Global;

/// A claim about orders of a script: its kind, its expression, and the precedences that the terms of order name.
/// `source` is the text of the script.
#[derive(Clone, Copy)]
pub struct OrderClaim<'c> {
    pub claim: Claim,
    pub expression: &'c [u8],
    pub source: &'c str,
    pub pairs: &'c [Precedence],
}

/// Texts of orders, which of them satisfy the expression of a claim, and what is known of the claim.
#[derive(Drop)]
pub struct JudgedOrders {
    pub found: OrderedFound,
    pub met: Vec<bool>,
    pub judgement: Judgement,
}

// Reads an expression about a script.
fn conditions_in<'e>(
    alloc: Global,
    script: &RunScript<'_>,
    expression: &'e [u8],
) -> Result<Vec<Operation<'e>>, TextsFault>
    ensures { IfOk result (λ conditions. AreConditions (run_contents script.now) expression.entry.now
        (map operation_asked conditions.items)) }
{
    let Ok(expression) = text_of(expression) else {
        return Err(TextsFault::Astray);
    };
    let claim = Claim::Find;
    match conditions_asked(alloc, script, ExploreRequest::Decide { claim, expression }) {
        Ok(conditions) => Ok(conditions),
        Err(ExpressionFault::Term { .. }) => Err(TextsFault::Astray),
        Err(ExpressionFault::Memory) => Err(TextsFault::Memory),
    }
}

// Returns an expression with the numbers of lines in place of names, for an order in which these precedences hold.
fn expression_in(
    alloc: Global,
    source: &str,
    expression: &[u8],
    held: &[bool],
) -> Result<Vec<u8>, TextsFault>
    ensures { IfOk result (λ text. text.items ≡ expression_in (lines_in source.now) expression.now held.now) }
{
    let made = replaced(alloc, expression, held)?;
    let Ok(text) = text_of(made.as_slice()) else {
        return Err(TextsFault::Astray);
    };
    match numbered(alloc, source, text) {
        Ok(text) => Ok(text),
        Err(NameFault::Repeated { .. }) => Err(TextsFault::Astray),
        Err(NameFault::Memory) => Err(TextsFault::Memory),
    }
}

// Returns whether an order with this text and these precedences satisfies an expression.
fn order_satisfies(
    alloc: Global,
    script: &RunScript<'_>,
    claim: &OrderClaim<'_>,
    order: &OrderedText,
) -> Result<bool, TextsFault>
    ensures { IfOk result (λ b. b
        ≡ order_satisfies (lines_in claim.now.source.now) claim.now.expression.now order.now) }
{
    let said = expression_in(alloc, claim.source, claim.expression, order.held.as_slice())?;
    let conditions = conditions_in(alloc, script, said.as_slice())?;
    let met = satisfies(alloc, conditions.as_slice(), order.text.as_slice())?;
    Ok(met)
}

// Returns for each of these texts whether its order satisfies an expression.
fn orders_satisfy(
    alloc: Global,
    script: &RunScript<'_>,
    claim: &OrderClaim<'_>,
    orders: &[OrderedText],
) -> Result<Vec<bool>, TextsFault>
    ensures { IfOk result (λ met. met.items
        ≡ map (order_satisfies (lines_in claim.now.source.now) claim.now.expression.now) orders.now) }
{
    let mut met = Vec::new(alloc);
    'orders: for order in orders {
        let is_met = order_satisfies(alloc, script, claim, order)?;
        met.push(is_met)?;
    }
    Ok(met)
}

/// Judges a claim about the orders of a script by the texts with precedences that a search of at most `limit` states
/// finds.
///
/// # Errors
/// Those of [`ordered_within`], and `Astray` if the expression has a fault.
pub fn judge_orders<T: SearchWatch>(
    alloc: Global,
    script: &RunScript<'_>,
    claim: &OrderClaim<'_>,
    limit: usize,
    watch: &mut T,
) -> Result<JudgedOrders, TextsFault>
    requires fits { CanConfigure (contents_of script.now.head) }
    requires orderly { IsOrderly (run_contents script.now) }
    ensures { IfOk result (JudgesOrders (run_contents script.now) claim.now.pairs.now claim.now.claim
        (satisfied_in (lines_in claim.now.source.now) claim.now.expression.now)) }
{
    let found = ordered_within(alloc, script, claim.pairs, limit, watch)?;
    let met = orders_satisfy(alloc, script, claim, found.texts.as_slice())?;
    let judgement = judge(claim.claim, met.as_slice(), found.whole);
    Ok(JudgedOrders {
        found,
        met,
        judgement,
    })
}
