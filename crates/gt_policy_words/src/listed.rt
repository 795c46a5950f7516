//! Warnings about the classes and permissions of an allow statement.
ghost use Rattle.std.specs.Prelude.{◌≡◌, ◌++◌, IfOk, OnOk};
ghost use Rattle.std.specs.List.{flat_map};
ghost use Rattle.gt_findings.specs.Findings.{error_lines, KeepsColumns, QuotesWord, Quiet};
ghost use Rattle.gt_findings.specs.LineWords.{IsLineWords};
ghost use Rattle.gt_findings.specs.Placing.{IsPlace};
ghost use Rattle.gt_findings.specs.Findings.{class_lines};
ghost use Rattle.gt_policy_words.specs.Words.{is_flask_class, is_known_class, unknown_line};

use gt_findings::{
    Finding, FindingKind, LineWords, Place, is_near_permission, push_hint, push_of_word,
    push_permission_hint, said_of,
};
use gt_policy::{Allowance, Permissions, TextPiece};
use gt_policy_statements::has_grant;
use gt_types::Perms;
use std::alloc::{AllocError, Global};

// Returns whether a class is another one of Xen's FLASK policy. Its rules are about other calls than those of grant
// tables.
fn is_flask_class(class: &str) -> bool
    ensures { result ≡ is_flask_class class.now }
{
    matches!(
        class,
        "xen"
            | "xen2"
            | "domain"
            | "domain2"
            | "hvm"
            | "mmu"
            | "resource"
            | "shadow"
            | "event"
            | "security"
            | "version"
            | "argo"
    )
}

// Returns whether a class is one of Xen's FLASK policy.
fn is_known_class(class: &str) -> bool
    ensures { result ≡ is_known_class class.now }
{
    class == "grant" || is_flask_class(class)
}

fn has_flask_class(classes: &[TextPiece]) -> bool {
    for class in classes {
        if is_flask_class(class.as_str()) {
            return true;
        }
    }
    false
}

// Makes the message about an unknown class.
fn class_message(alloc: Global, class: &str) -> Result<Vec<u8>, AllocError>
    ensures { IfOk result (λ v. QuotesWord class.now v.items) }
{
    let mut message = said_of(alloc, class, " is not a class of Xen's FLASK policy")?;
    push_hint(alloc, &mut message, class, ["grant"].as_slice())?;
    Ok(message)
}

// Warns of a class that Xen's FLASK policy doesn't have.
#[tactic(auto, using(gt_findings::proofs::KeepLemmas::keeps_same, gt_findings::proofs::KeepLemmas::keeps_then))]
fn warn_class(
    alloc: Global,
    found: &mut Vec<Finding>,
    place: &Place,
    class: &str,
) -> Result<(), AllocError>
    requires { IsPlace place.now }
    ensures quiet { OnOk result (Quiet found.old.items found.new.items) }
    ensures columns { OnOk result (KeepsColumns place.now.words.now.bytes.now found.old.items found.new.items) }
    ensures classes { OnOk result (class_lines found.new.items
        ≡ class_lines found.old.items ++ unknown_line place.now.words.now.number class.now) }
{
    if is_known_class(class) {
        return Ok(());
    }
    let message = class_message(alloc, class)?;
    push_of_word(found, FindingKind::OtherClass, place, class, message)
}

// Makes the message about a word that is not a permission of class `grant`.
fn permission_message(alloc: Global, word: &str) -> Result<Vec<u8>, AllocError>
    ensures { IfOk result (λ v. QuotesWord word.now v.items) }
{
    let mut message = said_of(alloc, word, " is not a permission of class grant")?;
    push_permission_hint(alloc, &mut message, word)?;
    Ok(message)
}

// Warns of a word that is not a permission of class `grant`, unless it may be one of another class.
#[tactic(auto, using(gt_findings::proofs::KeepLemmas::keeps_same, gt_findings::proofs::KeepLemmas::keeps_then))]
fn warn_other(
    alloc: Global,
    found: &mut Vec<Finding>,
    place: &Place,
    word: &str,
    has_flask_class: bool,
) -> Result<(), AllocError>
    requires { IsPlace place.now }
    ensures quiet { OnOk result (Quiet found.old.items found.new.items) }
    ensures columns { OnOk result (KeepsColumns place.now.words.now.bytes.now found.old.items found.new.items) }
    ensures classes { OnOk result (class_lines found.new.items ≡ class_lines found.old.items) }
{
    if Perms::named(word.as_bytes()).is_some() {
        return Ok(());
    }
    if has_flask_class && !is_near_permission(alloc, word)? {
        return Ok(());
    }
    let message = permission_message(alloc, word)?;
    push_of_word(found, FindingKind::OtherPermission, place, word, message)
}

// Warns of a word that is not a permission of class `grant`, or that no call asks for.
#[tactic(auto, using(gt_findings::proofs::KeepLemmas::keeps_same, gt_findings::proofs::KeepLemmas::keeps_then))]
fn warn_perm(
    alloc: Global,
    found: &mut Vec<Finding>,
    place: &Place,
    word: &str,
    has_flask_class: bool,
) -> Result<(), AllocError>
    requires { IsPlace place.now }
    ensures quiet { OnOk result (Quiet found.old.items found.new.items) }
    ensures columns { OnOk result (KeepsColumns place.now.words.now.bytes.now found.old.items found.new.items) }
{
    if word == "transfer" {
        let message = said_of(alloc, word, " is not asked for by any call")?;
        return push_of_word(found, FindingKind::NeverAsked, place, word, message);
    }
    warn_other(alloc, found, place, word, has_flask_class)
}

#[tactic(auto, using(gt_findings::proofs::KeepLemmas::keeps_same, gt_findings::proofs::KeepLemmas::keeps_then))]
fn warn_classes(
    alloc: Global,
    found: &mut Vec<Finding>,
    place: &Place,
    classes: &[TextPiece],
) -> Result<(), AllocError>
    requires { IsPlace place.now }
    ensures quiet { OnOk result (Quiet found.old.items found.new.items) }
    ensures columns { OnOk result (KeepsColumns place.now.words.now.bytes.now found.old.items found.new.items) }
    ensures classes { OnOk result (class_lines found.new.items
        ≡ class_lines found.old.items ++ flat_map (unknown_line place.now.words.now.number) classes.now) }
{
    'classes: for class in classes {
        warn_class(alloc, found, place, class.as_str())?;
    }
    Ok(())
}

#[tactic(auto, using(gt_findings::proofs::KeepLemmas::keeps_same, gt_findings::proofs::KeepLemmas::keeps_then))]
fn warn_perms(
    alloc: Global,
    found: &mut Vec<Finding>,
    place: &Place,
    perms: &[TextPiece],
    has_flask_class: bool,
) -> Result<(), AllocError>
    requires { IsPlace place.now }
    ensures quiet { OnOk result (Quiet found.old.items found.new.items) }
    ensures columns { OnOk result (KeepsColumns place.now.words.now.bytes.now found.old.items found.new.items) }
{
    'perms: for perm in perms {
        warn_perm(alloc, found, place, perm.as_str(), has_flask_class)?;
    }
    Ok(())
}

/// Warns of useless classes and permissions of an allow statement.
#[tactic(auto, using(gt_findings::proofs::KeepLemmas::keeps_same, gt_findings::proofs::KeepLemmas::keeps_then))]
pub fn warn_words(
    alloc: Global,
    found: &mut Vec<Finding>,
    place: &Place,
    allowed: &Allowance,
) -> Result<(), AllocError>
    requires { IsPlace place.now }
    ensures quiet { OnOk result (Quiet found.old.items found.new.items) }
    ensures columns { OnOk result (KeepsColumns place.now.words.now.bytes.now found.old.items found.new.items) }
{
    let classes = allowed.classes.as_slice();
    warn_classes(alloc, found, place, classes)?;
    if !has_grant(classes) {
        return Ok(());
    }
    match &allowed.perms {
        Permissions::Every => Ok(()),
        Permissions::Named(words) => {
            let is_mixed = has_flask_class(classes);
            warn_perms(alloc, found, place, words.as_slice(), is_mixed)
        }
    }
}

// Warns of words that are not permissions of class `grant`.
#[tactic(auto, using(gt_findings::proofs::KeepLemmas::keeps_same, gt_findings::proofs::KeepLemmas::keeps_then))]
fn warn_others(
    alloc: Global,
    found: &mut Vec<Finding>,
    place: &Place,
    perms: &[TextPiece],
    has_flask_class: bool,
) -> Result<(), AllocError>
    requires { IsPlace place.now }
    ensures quiet { OnOk result (Quiet found.old.items found.new.items) }
    ensures columns { OnOk result (KeepsColumns place.now.words.now.bytes.now found.old.items found.new.items) }
    ensures classes { OnOk result (class_lines found.new.items ≡ class_lines found.old.items) }
{
    'perms: for perm in perms {
        warn_other(alloc, found, place, perm.as_str(), has_flask_class)?;
    }
    Ok(())
}

// Warns of words of a statement that Xen's FLASK policy doesn't have.
#[tactic(auto, using(gt_findings::proofs::KeepLemmas::keeps_same, gt_findings::proofs::KeepLemmas::keeps_then))]
fn warn_unknown(
    alloc: Global,
    found: &mut Vec<Finding>,
    place: &Place,
    classes: &[TextPiece],
    perms: &Permissions,
) -> Result<(), AllocError>
    requires { IsPlace place.now }
    ensures quiet { OnOk result (Quiet found.old.items found.new.items) }
    ensures columns { OnOk result (KeepsColumns place.now.words.now.bytes.now found.old.items found.new.items) }
    ensures classes { OnOk result (class_lines found.new.items
        ≡ class_lines found.old.items ++ flat_map (unknown_line place.now.words.now.number) classes.now) }
{
    warn_classes(alloc, found, place, classes)?;
    match perms {
        Permissions::Every => Ok(()),
        Permissions::Named(words) => {
            if !has_grant(classes) {
                return Ok(());
            }
            let is_mixed = has_flask_class(classes);
            warn_others(alloc, found, place, words.as_slice(), is_mixed)
        }
    }
}

/// Adds the findings of the classes and permissions of a statement on the line of these words that Xen's FLASK policy
/// doesn't have: one for each such class, and beside class `grant` one for each word that is not a permission and may be
/// meant as one. None of them is an error. After an Err, some of them may have been added.
pub fn push_unknown_words(
    alloc: Global,
    found: &mut Vec<Finding>,
    words: &LineWords,
    classes: &[TextPiece],
    perms: &Permissions,
) -> Result<(), AllocError>
    requires { IsLineWords words.now }
    ensures errors { OnOk result (error_lines found.new.items ≡ error_lines found.old.items) }
    ensures columns { OnOk result (KeepsColumns words.now.bytes.now found.old.items found.new.items) }
    ensures classes { OnOk result (class_lines found.new.items
        ≡ class_lines found.old.items ++ flat_map (unknown_line words.now.number) classes.now) }
{
    let place = Place {
        words,
        column: words.column("allow"),
    };
    warn_unknown(alloc, found, &place, classes, perms)
}
