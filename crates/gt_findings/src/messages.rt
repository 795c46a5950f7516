//! The words of messages: quoted names, hints, and the names of permissions.
ghost use Rattle.std.specs.Prelude.{◌≡◌, ◌++◌, map, codes, IfOk, OnOk};
ghost use Rattle.gt_types.specs.Names.{every_permission, permission_name};
ghost use Rattle.gt_findings.specs.Findings.{QuotesWord};
ghost use Rattle.gt_findings.specs.Placing.{AddsSome};
ghost use Rattle.gt_findings.specs.Report.{shown_word};

use crate::nearest::nearest_name;
use crate::report::push_word;
use gt_text::push_text;
use gt_types::Perms;
use std::alloc::{AllocError, Global};

/// Appends a word in quotes, of a long word the first 160 characters.
pub fn push_quoted_word(out: &mut Vec<u8>, word: &str) -> Result<(), AllocError>
    ensures { OnOk result (out.new.items ≡ out.old.items ++ codes "\"" ++ shown_word word.now ++ codes "\"") }
{
    push_text(out, "\"")?;
    push_word(out, word)?;
    push_text(out, "\"")
}

/// Appends the name that may be meant.
pub fn push_meant(out: &mut Vec<u8>, meant: Option<&str>) -> Result<(), AllocError>
    ensures { OnOk result (AddsSome out.old.items out.new.items) }
{
    let Some(name) = meant else {
        return Ok(());
    };
    push_text(out, "; did you mean ")?;
    push_quoted_word(out, name)?;
    push_text(out, "?")
}

/// Appends `; did you mean "NAME"?` with the name that a misspelt word may be meant as, if there is one. After an Err,
/// part of it may have been appended.
pub fn push_hint(
    alloc: Global,
    out: &mut Vec<u8>,
    word: &str,
    names: &[&str],
) -> Result<(), AllocError>
    ensures { OnOk result (AddsSome out.old.items out.new.items) }
{
    let meant = nearest_name(alloc, word, names)?;
    push_meant(out, meant)
}

/// Appends the permission that a misspelt word may be meant as, if there is one.
pub fn push_permission_hint(alloc: Global, out: &mut Vec<u8>, word: &str) -> Result<(), AllocError>
    ensures { OnOk result (AddsSome out.old.items out.new.items) }
{
    let names = permission_names(alloc)?;
    push_hint(alloc, out, word, names.as_slice())
}

/// Returns whether a word may be meant as a permission.
pub fn is_near_permission(alloc: Global, word: &str) -> Result<bool, AllocError> {
    let names = permission_names(alloc)?;
    let meant = nearest_name(alloc, word, names.as_slice())?;
    Ok(meant.is_some())
}

// Adds the names of the permissions.
fn push_permission_names(names: &mut Vec<&'static str>) -> Result<(), AllocError>
    ensures { OnOk result (map (λ n. n.now) names.new.items
        ≡ map (λ n. n.now) names.old.items ++ map permission_name every_permission) }
{
    'perms: for perm in Perms::EVERY {
        names.push(perm.name())?;
    }
    Ok(())
}

/// Returns the names of the seven permissions of class `grant`.
pub fn permission_names(alloc: Global) -> Result<Vec<&'static str>, AllocError>
    ensures { IfOk result (λ names. map (λ n. n.now) names.items ≡ map permission_name every_permission) }
{
    let mut names: Vec<&'static str> = Vec::new(alloc);
    push_permission_names(&mut names)?;
    Ok(names)
}

/// Appends a word in quotes and a text.
pub fn push_said(out: &mut Vec<u8>, word: &str, said: &str) -> Result<(), AllocError>
    ensures { OnOk result (out.new.items
        ≡ out.old.items ++ codes "\"" ++ shown_word word.now ++ codes "\"" ++ said.now) }
{
    push_quoted_word(out, word)?;
    push_text(out, said)
}

/// Makes a message of a word in quotes and a text. U+FFFD replaces control characters of the word, except
/// tabs. Of a long word the message has the first 160 characters.
pub fn said_of(alloc: Global, word: &str, said: &str) -> Result<Vec<u8>, AllocError>
    ensures { IfOk result (λ v. QuotesWord word.now v.items) }
{
    let mut out = Vec::new(alloc);
    push_said(&mut out, word, said)?;
    Ok(out)
}

/// Makes a message of a text.
pub fn message_of(alloc: Global, text: &str) -> Result<Vec<u8>, AllocError> {
    let mut message = Vec::new(alloc);
    push_text(&mut message, text)?;
    Ok(message)
}
