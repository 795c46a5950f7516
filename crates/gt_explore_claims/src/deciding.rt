//! Verdicts on several claims.
ghost use Rattle.std.specs.Prelude.{◌≡◌, ◌++◌, ◌+◌, ◌∷◌, [], IfErr, IfOk, OnOk, map};
ghost use Rattle.std.specs.List.{list_any};
ghost use Rattle.std.specs.Option.{option_map};
ghost use Rattle.std.specs.Str.Lines.{lines as lines_in};
ghost use Rattle.gt_call_names.specs.Naming.{with_line_numbers};
ghost use Rattle.gt_script.specs.RunContents.{run_contents};
ghost use Rattle.gt_explore_answers.specs.Exploring.{AreConditions};
ghost use Rattle.gt_explore_answers.specs.Outputs.{found_from};
ghost use Rattle.gt_explore_verdict.specs.Formulas.{operation_asked};
ghost use Rattle.gt_explore_claims.specs.Deciding.{AreNumberingFailures, IsNumberingFailure, claim_answer};
ghost use Rattle.gt_explore_claims.specs.Deciding.{claim_judged, claims_shown};
ghost use Rattle.gt_explore_claims.specs.Deciding.{fault_of_expression, first_fault, is_verdict, numbered_claim};
ghost use Rattle.gt_explore_claims.specs.Deciding.{numbered_claims};
ghost use Rattle.gt_explore_claims.specs.Deciding.{verdict_of_claims};
ghost use Rattle.gt_explore_claims.specs.Stating.{stated};

use crate::answers::{ClaimAnswer, push_answer};
use crate::stated::StatedClaim;
use gt_call_names::{NameFault, numbered};
use gt_explore::TextsTest;
use gt_explore_answers::{ExploreFormat, ExploreRequest, FoundTexts, conditions_asked, satisfied};
use gt_explore_faults::{ClaimsFault, TextsFault};
use gt_explore_verdict::{
    Claim, ConditionFault, ExpressionFault, Judgement, Operation, Verdict, judge,
};
use gt_script::RunScript;
use gt_text::text_of;
use std::alloc::{AllocError, Global};

/// A claim, and its expression with the numbers of lines in place of names.
#[derive(Drop)]
pub struct NumberedClaim<'c> {
    pub stated: StatedClaim<'c>,
    pub numbered: Vec<u8>,
}

/// Returns an expression with the numbers of the lines of a script in place of names.
pub fn numbered_expression(
    alloc: Global,
    source: &str,
    expression: &str,
) -> Result<Vec<u8>, ClaimsFault>
    ensures ok { IfOk result (λ text. text.items ≡ with_line_numbers (lines_in source.now) expression.now) }
    ensures fault { IfErr result (IsNumberingFailure (lines_in source.now) expression.now) }
{
    match numbered(alloc, source, expression) {
        Ok(text) => Ok(text),
        Err(NameFault::Repeated { first, second }) => Err(ClaimsFault::Repeated { first, second }),
        Err(NameFault::Memory) => Err(ClaimsFault::from(AllocError)),
    }
}

// Appends a claim with its numbered expression.
fn push_named<'c>(
    all: &mut Vec<NumberedClaim<'c>>,
    claim: StatedClaim<'c>,
    numbered: Vec<u8>,
) -> Result<(), AllocError>
    ensures { OnOk result (map numbered_claim all.new.items ≡ map numbered_claim all.old.items
        ++ record { stated = stated claim.entry; numbered = numbered.items } ∷ []) }
{
    all.push(NumberedClaim {
        stated: claim,
        numbered,
    })?;
    Ok(())
}

/// Returns these claims with the numbers of the lines of a script in place of names.
pub fn numbered_claims<'c>(
    alloc: Global,
    source: &str,
    claims: &[StatedClaim<'c>],
) -> Result<Vec<NumberedClaim<'c>>, ClaimsFault>
    ensures ok { IfOk result (λ all.
        map numbered_claim all.items ≡ numbered_claims (lines_in source.now) (map stated claims.now)) }
    ensures fault { IfErr result (AreNumberingFailures (lines_in source.now) (map stated claims.now)) }
{
    let mut all = Vec::new(alloc);
    'claims: for claim in claims {
        match numbered_expression(alloc, source, claim.expression) {
            Ok(numbered) => push_named(&mut all, *claim, numbered)?,
            Err(fault) => return Err(fault),
        }
    }
    Ok(all)
}

// Returns the first fault of an expression about a script, which is its term and the reason.
fn fault_of_expression(
    alloc: Global,
    script: &RunScript,
    expression: &[u8],
) -> Result<Option<(usize, ConditionFault)>, TextsFault>
    ensures { IfOk result (λ found. found ≡ fault_of_expression (run_contents script.now) expression.now) }
{
    let Ok(expression) = text_of(expression) else {
        return Err(TextsFault::Astray);
    };
    let claim = Claim::Find;
    match conditions_asked(alloc, script, ExploreRequest::Decide { claim, expression }) {
        Ok(_) => Ok(None),
        Err(ExpressionFault::Term { number, fault }) => Ok(Some((number, fault))),
        Err(ExpressionFault::Memory) => Err(TextsFault::Memory),
    }
}

/// Returns the first fault of these claims: the number of the claim, that of the term, and the reason.
pub fn first_fault(
    alloc: Global,
    script: &RunScript,
    claims: &[NumberedClaim<'_>],
) -> Result<Option<(usize, usize, ConditionFault)>, TextsFault>
    ensures { IfOk result (λ found. found ≡ first_fault (run_contents script.now) 1 (map numbered_claim claims.now)) }
{
    let mut claim = 1;
    'claims: for named in claims {
        if let Some((number, fault)) = fault_of_expression(
            alloc,
            script,
            named.numbered.as_slice(),
        )? {
            return Ok(Some((claim, number, fault)));
        }
        claim += 1;
    }
    Ok(None)
}

// Returns the number of a text at this index.
fn number_of(shown_by: Option<usize>) -> Result<Option<usize>, TextsFault>
    ensures { IfOk result (λ number. number ≡ option_map (λ at. at + 1) shown_by) }
{
    match shown_by {
        Some(at) => match at.checked_add(1) {
            Some(number) => Ok(Some(number)),
            None => Err(TextsFault::Astray),
        },
        None => Ok(None),
    }
}

/// Reads the expression of a claim about a script.
///
/// # Errors
/// `Astray` if the expression has a fault, and `Memory`.
pub fn conditions_of<'n>(
    alloc: Global,
    script: &RunScript,
    named: &'n NumberedClaim<'_>,
) -> Result<Vec<Operation<'n>>, TextsFault>
    ensures { IfOk result (λ conditions. AreConditions (run_contents script.now) named.entry.now.numbered.items
        (map operation_asked conditions.items)) }
{
    let Ok(expression) = text_of(named.numbered.as_slice()) else {
        return Err(TextsFault::Astray);
    };
    let claim = named.stated.claim;
    match conditions_asked(alloc, script, ExploreRequest::Decide { claim, expression }) {
        Ok(conditions) => Ok(conditions),
        Err(ExpressionFault::Term { .. }) => Err(TextsFault::Astray),
        Err(ExpressionFault::Memory) => Err(TextsFault::Memory),
    }
}

// Judges a claim by the texts found for a script.
fn judged(
    alloc: Global,
    script: &RunScript,
    found: &FoundTexts,
    named: &NumberedClaim<'_>,
) -> Result<Judgement, TextsFault>
    ensures { IfOk result (λ j. j ≡ claim_judged (found_from found.now) (numbered_claim named.now)) }
{
    let conditions = conditions_of(alloc, script, named)?;
    let met = satisfied(alloc, conditions.as_slice(), found.texts.as_slice())?;
    Ok(judge(named.stated.claim, met.as_slice(), found.whole))
}

/// Answers a claim by the texts found for a script.
pub fn claim_answer(
    alloc: Global,
    script: &RunScript,
    found: &FoundTexts,
    named: &NumberedClaim<'_>,
) -> Result<ClaimAnswer, TextsFault>
    ensures { IfOk result (λ answer. answer ≡ claim_answer (found_from found.now) (numbered_claim named.now)) }
{
    let judgement = judged(alloc, script, found, named)?;
    let number = number_of(judgement.shown_by)?;
    Ok(ClaimAnswer {
        verdict: judgement.verdict,
        number,
    })
}

/// The test of whether texts decide each of these claims about a script.
#[derive(Clone, Copy)]
pub struct ClaimsTest<'t, 's, 'c> {
    pub script: &'t RunScript<'s>,
    pub claims: &'t [NumberedClaim<'c>],
}

impl TextsTest for ClaimsTest<'_, '_, '_> {
    fn is_enough(&self, alloc: Global, found: &FoundTexts) -> Result<bool, TextsFault> {
        for named in self.claims {
            if judged(alloc, self.script, found, named)?.verdict == Verdict::Undecided {
                return Ok(false);
            }
        }
        Ok(true)
    }
}

/// Appends what is printed of each claim, and returns their verdicts.
pub fn push_answers(
    alloc: Global,
    out: &mut Vec<u8>,
    format: ExploreFormat,
    script: &RunScript,
    found: &FoundTexts,
    claims: &[NumberedClaim<'_>],
) -> Result<Vec<Verdict>, TextsFault>
    ensures text { OnOk result (out.new.items
        ≡ out.old.items ++ claims_shown format (found_from found.now) (map numbered_claim claims.now)) }
    ensures verdicts { IfOk result (λ verdicts. verdicts.items
        ≡ map (λ claim. (claim_answer (found_from found.now) claim).verdict) (map numbered_claim claims.now)) }
{
    let mut verdicts = Vec::new(alloc);
    'claims: for named in claims {
        let answer = claim_answer(alloc, script, found, named)?;
        push_answer(out, format, found, &named.stated, answer)?;
        verdicts.push(answer.verdict)?;
    }
    Ok(verdicts)
}

// Returns whether one of these verdicts is this one.
fn is_among(verdicts: &[Verdict], verdict: Verdict) -> bool
    ensures { result ≡ list_any (is_verdict verdict) verdicts.now }
{
    verdicts.iter().any(|other| *other == verdict)
}

/// Returns the verdict of all claims: it fails if one does, is undecided if one of the others is, and holds otherwise.
pub fn verdict_of_claims(verdicts: &[Verdict]) -> Verdict
    ensures { result ≡ verdict_of_claims verdicts.now }
{
    if is_among(verdicts, Verdict::Fails) {
        Verdict::Fails
    } else if is_among(verdicts, Verdict::Undecided) {
        Verdict::Undecided
    } else {
        Verdict::Holds
    }
}
