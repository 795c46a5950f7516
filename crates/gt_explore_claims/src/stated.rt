//! Claims as they are stated.
ghost use Rattle.std.specs.Prelude.{◌≡◌, ◌++◌, IfErr, IfOk, OnOk, Some, map};
ghost use Rattle.std.specs.List.{flat_map};
ghost use Rattle.std.specs.Option.{option_map, option_to_list};
ghost use Rattle.std.specs.Str.Lines.{lines as lines_in};
ghost use Rattle.gt_explore_claims.specs.Stating.{IsStatedAs, IsUnstatedFault, first_unstated, kind_named, stated};
ghost use Rattle.gt_explore_claims.specs.Stating.{stated_by, stated_line};
ghost use Rattle.gt_explore_claims.specs.Stating.{claim_name};

use gt_explore_faults::ClaimsFault;
use gt_explore_verdict::Claim;
use gt_script_lines::text_lines;
use std::alloc::{AllocError, Global};

/// A claim about the texts of a script: its kind, and its expression as the user wrote it.
#[derive(Clone, Copy)]
pub struct StatedClaim<'c> {
    pub claim: Claim,
    pub expression: &'c str,
}

/// Returns the word by which a claim of this kind is stated.
pub fn claim_name(claim: Claim) -> &'static str
    ensures { result.now ≡ claim_name claim }
{
    match claim {
        Claim::Find => "find",
        Claim::Never => "never",
        Claim::Always => "always",
    }
}

// Returns the kind of claim that this word states.
fn kind_named(word: &str) -> Option<Claim>
    ensures { result ≡ kind_named word.now }
{
    if word == "find" {
        Some(Claim::Find)
    } else if word == "never" {
        Some(Claim::Never)
    } else if word == "always" {
        Some(Claim::Always)
    } else {
        None
    }
}

// Reads a claim: the word before the first space, and the expression after it.
fn stated_line<'c>(line: &'c str) -> Option<StatedClaim<'c>>
    ensures { option_map stated result ≡ stated_line line.entry.now }
{
    match line.split_once(' ') {
        Some((word, expression)) => match kind_named(word) {
            Some(claim) => Some(StatedClaim { claim, expression }),
            None => None,
        },
        None => None,
    }
}

// Returns the number of the first line that states no claim, if the first of these lines has the number 1.
fn first_unstated(lines: &[&str]) -> Option<usize>
    ensures { result ≡ first_unstated 1 (map (λ line. line.now) lines.now) }
{
    let mut number = 1;
    'lines: for line in lines {
        if stated_line(line).is_none() {
            return Some(number);
        }
        number += 1;
    }
    None
}

// Appends the claim of a line, if it states one.
fn push_stated<'c>(claims: &mut Vec<StatedClaim<'c>>, line: &'c str) -> Result<(), AllocError>
    ensures { OnOk result (map stated claims.new.items
        ≡ map stated claims.old.items ++ option_to_list (stated_line line.entry.now)) }
{
    match stated_line(line) {
        Some(claim) => {
            claims.push(claim)?;
            Ok(())
        }
        None => Ok(()),
    }
}

// Returns the claims of these lines.
fn claims_of<'c>(alloc: Global, lines: &[&'c str]) -> Result<Vec<StatedClaim<'c>>, AllocError>
    ensures { IfOk result (λ claims. map stated claims.items
        ≡ flat_map (λ line. option_to_list (stated_line line)) (map (λ line. line.now) lines.now)) }
{
    let mut claims = Vec::new(alloc);
    'lines: for line in lines {
        push_stated(&mut claims, line)?;
    }
    Ok(claims)
}

/// Reads the claims of a text, one in each line: `find EXPRESSION`, `never EXPRESSION` or `always EXPRESSION`.
///
/// # Errors
/// `Kind` with the number of the first line that states no claim, and `Memory`.
pub fn claims_in<'c>(alloc: Global, text: &'c str) -> Result<Vec<StatedClaim<'c>>, ClaimsFault>
    ensures ok { IfOk result (λ claims. IsStatedAs (lines_in text.entry.now) (map stated claims.items)) }
    ensures fault { IfErr result (IsUnstatedFault (lines_in text.entry.now)) }
{
    let lines = text_lines(alloc, text)?;
    if let Some(number) = first_unstated(lines.as_slice()) {
        return Err(ClaimsFault::Kind(number));
    }
    let claims = claims_of(alloc, lines.as_slice())?;
    Ok(claims)
}
