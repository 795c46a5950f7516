//! The rules by which calls are refused, a line each.
ghost use Rattle.std.specs.Prelude.{◌≡◌, ◌++◌, IfOk, OnOk, map};
ghost use Rattle.std.specs.Option.{option_map};
ghost use Rattle.gt_file_commands.specs.Rules.{asked_among, digits_in, header_name, is_asked_rule, more_words};
ghost use Rattle.gt_file_commands.specs.Rules.{rule_head};
ghost use Rattle.gt_file_commands.specs.Rules.{rule_line, rules_text, styled, spaced_words, wrapped, PrintsRules};

use crate::failure::Failure;
use crate::outcome::Outcome;
use crate::reporting::report;
use gt_text::{finish, push_next_number, push_number, push_text};
use gt_types::{Rule, Status};
use std::alloc::{AllocError, Global};
use std::io::Write;

// What is printed of a rule: the rule, the reason for which it refuses a call, and the remedy for the caller.
type RuleRow = (Rule, &'static str, &'static str);

// All rules, in the order of their numbers.
static RULES: [RuleRow; 26] = [
    (
        Rule::N1,
        "a domain named, or the one that a transitive entry leads to, does not exist in this run",
        "name a domain of this run",
    ),
    (
        Rule::N2,
        "the flags of the map or copy, or the version, are not among those taken",
        "use flags 2 or 6 for a map, 0 to 3 for a copy, version 1 or 2",
    ),
    (
        Rule::N3,
        "offset plus length is above 4096",
        "ask for a range inside the page",
    ),
    (
        Rule::N4,
        "the copy names a frame of another domain by its number",
        "name one of the caller's frames, or a grant of that domain",
    ),
    (
        Rule::N5,
        "the policy has no allow rule for these types and this permission",
        "ask for a rule in the policy",
    ),
    (
        Rule::N6,
        "the caller has no mapping with this handle",
        "map first",
    ),
    (
        Rule::N7,
        "the store goes through a read-only mapping",
        "map the entry for writing",
    ),
    (
        Rule::N8,
        "the caller has 8192 mappings, or has used up its handles",
        "unmap some",
    ),
    (
        Rule::N9,
        "the reference is past the table",
        "ask the owner to set up more table frames",
    ),
    (
        Rule::N10,
        "the entry is invalid",
        "wait for the owner's grant",
    ),
    (
        Rule::N11,
        "the entry names another domain",
        "ask the owner for a grant of its own",
    ),
    (
        Rule::N12,
        "the map is of a sub-page or transitive entry",
        "copy instead",
    ),
    (
        Rule::N13,
        "the entry is read-only, and the call writes",
        "only read, or ask the owner to promote the entry",
    ),
    (
        Rule::N14,
        "the range is not inside the sub-page",
        "ask for a range inside the sub-page",
    ),
    (
        Rule::N15,
        "a transitive entry leads to another one",
        "ask the middle domain for a grant of its own page",
    ),
    (
        Rule::N16,
        "the frame number is not one of its owner's frames",
        "name a frame that the owner has",
    ),
    (
        Rule::N17,
        "4095 pins of that kind are live on the entry",
        "try again after others have unmapped",
    ),
    (
        Rule::N18,
        "the entry changed during all four tries of a pin, demotion, promotion or withdrawal",
        "try again",
    ),
    (
        Rule::N19,
        "the entry is in use: it has live pins (for a demotion: live write pins)",
        "try again after the other domains have unmapped; an entry to be revoked or demoted can be withdrawn now",
    ),
    (
        Rule::N20,
        "the entry is valid already",
        "revoke it first, or use another reference",
    ),
    (
        Rule::N21,
        "the entry given is invalid, or needs a table of version 2",
        "set version 2, or grant a whole page",
    ),
    (
        Rule::N22,
        "the entry is at its last generation",
        "use another reference",
    ),
    (
        Rule::N23,
        "more than 16 table frames are asked for",
        "ask for at most 16",
    ),
    (
        Rule::N24,
        "the table has valid entries",
        "revoke or withdraw all entries first",
    ),
    (
        Rule::N25,
        "the bytes are not an entry of a table of this version",
        "fix the field named",
    ),
    (Rule::N26, "out of memory", "try again when there is memory"),
];

// Returns the name of a status in `grant_table.h`.
fn header_name(status: Status) -> &'static str
    ensures { result.now ≡ header_name status }
{
    match status {
        Status::GeneralError => "GNTST_general_error",
        Status::BadDomain => "GNTST_bad_domain",
        Status::BadGntref => "GNTST_bad_gntref",
        Status::BadHandle => "GNTST_bad_handle",
        Status::PermissionDenied => "GNTST_permission_denied",
        Status::BadPage => "GNTST_bad_page",
        Status::BadCopyArg => "GNTST_bad_copy_arg",
        Status::Eagain => "GNTST_eagain",
    }
}

// Appends the name of a rule, and the number and the name of its status.
fn push_rule(out: &mut Vec<u8>, rule: Rule) -> Result<(), AllocError>
    ensures { OnOk result (out.new.items ≡ out.old.items ++ rule_head rule) }
{
    let status = rule.status();
    push_text(out, "N")?;
    push_number(out, rule.number())?;
    push_next_number(out, status.number())?;
    push_text(out, " ")?;
    push_text(out, header_name(status))
}

// Makes the line of a rule, without a line end.
fn rule_line(alloc: Global, row: &RuleRow) -> Result<Vec<u8>, AllocError>
    ensures { IfOk result (λ line. line.items ≡ rule_line (row.now.0, row.now.1.now, row.now.2.now)) }
{
    let (rule, reason, remedy) = *row;
    let mut line = Vec::new(alloc);
    push_rule(&mut line, rule)?;
    push_text(&mut line, ": ")?;
    push_text(&mut line, reason)?;
    push_text(&mut line, "; ")?;
    push_text(&mut line, remedy)?;
    Ok(line)
}

// Returns what is between the spaces of a line.
fn words_in<'l>(alloc: Global, line: &'l [u8]) -> Result<Vec<&'l [u8]>, AllocError>
    ensures { IfOk result (λ v. map (λ w. w.now) v.items ≡ spaced_words line.entry.now) }
{
    line.split(|b| *b == b' ').collect(alloc)
}

// Appends the words after the first, with this room left on its line.
fn push_more(
    out: &mut Vec<u8>,
    words: &[&[u8]],
    width: usize,
    mut room: usize,
) -> Result<(), AllocError>
    ensures { OnOk result (out.new.items ≡ out.old.items ++ more_words width room (map (λ w. w.now) words.now)) }
{
    'words: for word in words {
        if word.len() < room {
            push_text(out, " ")?;
            room = room - word.len() - 1;
        } else {
            push_text(out, "\n    ")?;
            room = width.saturating_sub(4).saturating_sub(word.len());
        }
        out.extend_from_slice(*word)?;
    }
    Ok(())
}

// Appends words in lines of at most this width. The lines after the first are indented.
fn push_wrapped(out: &mut Vec<u8>, words: &[&[u8]], width: usize) -> Result<(), AllocError>
    ensures { OnOk result (out.new.items ≡ out.old.items ++ wrapped width (map (λ w. w.now) words.now)) }
{
    match words {
        [] => Ok(()),
        [word, more @ ..] => {
            out.extend_from_slice(*word)?;
            push_more(out, more, width, width.saturating_sub(word.len()))
        }
    }
}

// Appends a line, in lines of at most the width, if one is given.
fn push_styled(
    alloc: Global,
    out: &mut Vec<u8>,
    line: &[u8],
    width: Option<usize>,
) -> Result<(), AllocError>
    ensures { OnOk result (out.new.items ≡ out.old.items ++ styled width line.now) }
{
    match width {
        Some(width) => {
            let words = words_in(alloc, line)?;
            push_wrapped(out, words.as_slice(), width)?;
            push_text(out, "\n")
        }
        None => {
            out.extend_from_slice(line)?;
            push_text(out, "\n")
        }
    }
}

// Returns the digits in the name of a rule, as `N19`, `n19` or `19`.
fn digits_in<'n>(name: &'n str) -> &'n str
    ensures { result.now ≡ digits_in name.entry.now }
{
    match name.strip_prefix("N") {
        Some(digits) => digits,
        None => name.strip_prefix("n").unwrap_or(name),
    }
}

// Returns whether the name is the rule's, or no name is given.
fn is_asked(alloc: Global, rule: Rule, name: Option<&str>) -> Result<bool, AllocError>
    ensures { IfOk result (λ asked. asked ≡ is_asked_rule (option_map (λ n. n.now) name.entry) rule) }
{
    let Some(name) = name else {
        return Ok(true);
    };
    let mut number = Vec::new(alloc);
    push_number(&mut number, rule.number())?;
    Ok(digits_in(name).as_bytes() == number.as_slice())
}

// Lists those of these rules that have the name, or all if no name is given.
fn asked_among(
    alloc: Global,
    rows: &[RuleRow],
    name: Option<&str>,
) -> Result<Vec<RuleRow>, AllocError>
    ensures { IfOk result (λ asked. map (λ row. (row.0, row.1.now, row.2.now)) asked.items
        ≡ asked_among (option_map (λ n. n.now) name.entry) (map (λ row. (row.0, row.1.now, row.2.now)) rows.now)) }
{
    let mut asked = Vec::new(alloc);
    'rows: for row in rows {
        if is_asked(alloc, row.0, name)? {
            asked.push(*row)?;
        }
    }
    Ok(asked)
}

// Makes the lines of these rules.
fn rules_text(alloc: Global, rows: &[RuleRow], width: Option<usize>) -> Result<Vec<u8>, AllocError>
    ensures { IfOk result (λ text. text.items
        ≡ rules_text width (map (λ row. (row.0, row.1.now, row.2.now)) rows.now)) }
{
    let mut text = Vec::new(alloc);
    'rows: for row in rows {
        let line = rule_line(alloc, row)?;
        push_styled(alloc, &mut text, line.as_slice(), width)?;
    }
    Ok(text)
}

// Reports that no rule has the name.
fn report_unnamed<E: Eprint>(err: &E, name: &str) {
    let _ = err.eprint("gthost: no rule '");
    let _ = err.eprint(name);
    let _ = err.eprintln("' (rules are N1 to N26)");
}

/// Writes the line of the rule of this name, or of each rule if there is no name, in lines of at most the width, if one
/// is given. Returns the outcome: yes, or unknown if they could not be written or no rule has that name.
pub fn print_rules<W: Write, E: Eprint>(
    alloc: Global,
    out: &mut W,
    err: &E,
    name: Option<&str>,
    width: Option<usize>,
) -> Outcome
    ensures { PrintsRules width (option_map (λ n. n.now) name.entry) (W.contents out.old) (W.contents out.new) result }
{
    let Ok(rows) = asked_among(alloc, &RULES, name) else {
        return report(err, Err(Failure::Memory), Outcome::Unknown);
    };
    if rows.is_empty() {
        report_unnamed(err, name.unwrap_or(""));
        return Outcome::Unknown;
    }
    match rules_text(alloc, rows.as_slice(), width) {
        Ok(text) => match finish(out, text.as_slice()) {
            Ok(()) => Outcome::Yes,
            Err(fault) => report(err, Err(Failure::Help(fault)), Outcome::Unknown),
        },
        Err(_) => report(err, Err(Failure::Memory), Outcome::Unknown),
    }
}
