//! Explains the fault of a text: its position, and what was expected there.
ghost use Rattle.std.specs.Prelude.{◌≡◌, None, IfOk, IfSome, OnOk};
ghost use Rattle.gt_findings.specs.Columns.{AreOfLine, IsColumnOf, IsEndOf};
ghost use Rattle.gt_findings.specs.Placing.{HasNoteColumn};
ghost use Rattle.gt_policy_check.specs.Placing.{IsOfFault};

use crate::declared::{Declared, declared_in};
use crate::misfits::{
    end_before, last_token, misfit, misfit_column, push_after, push_all_expected, push_stray_at,
};
use crate::outside::push_outside;
use gt_findings::{
    FindingNote, LineTokens, column_at, column_of_word, front_of, line_tokens, nearest_name,
    push_meant, push_permission_hint, push_said, said_of,
};
use gt_policy::{PolicyFault, PolicyFaultKind};
use gt_text::{push_number, push_text};
use std::alloc::{AllocError, Global};

/// The explanation of a fault: its column, the message, and perhaps a note.
#[derive(Drop)]
pub(crate) struct Explained {
    pub column: u32,
    pub message: Vec<u8>,
    pub note: Option<FindingNote>,
}

// Explains a token that fits nowhere, by what was expected after the token before it.
fn explain_syntax(
    alloc: Global,
    explained: &mut Explained,
    bytes: &[u8],
    line: &LineTokens,
) -> Result<(), AllocError>
    requires { AreOfLine bytes.now line.now }
    ensures column { OnOk result (IsEndOf bytes.now line.now.number explained.new.column) }
    ensures note { OnOk result (explained.new.note ≡ explained.old.note) }
{
    let number = misfit(alloc, bytes, line)?;
    let (end, column) = end_before(bytes, line, number);
    explained.column = column;
    let front = front_of(bytes, line, end);
    push_all_expected(alloc, &mut explained.message, front)?;
    push_after(&mut explained.message, last_token(alloc, front)?)?;
    push_stray_at(&mut explained.message, bytes, line, number)
}

// Makes a note at the declaration of a name.
fn note_of(
    alloc: Global,
    bytes: &[u8],
    declared: &Declared,
    said: &str,
) -> Result<FindingNote, AllocError>
    ensures { IfOk result (λ n. HasNoteColumn bytes.now n) }
{
    let line = line_tokens(alloc, bytes, declared.line)?;
    let column = column_at(bytes, &line, declared.name.as_bytes(), declared.place);
    let message = said_of(alloc, declared.name, said)?;
    Ok(FindingNote {
        line: declared.line,
        column,
        message,
    })
}

// Adds a note at the declaration of a name.
fn note_here(
    alloc: Global,
    explained: &mut Explained,
    bytes: &[u8],
    declared: &Declared,
    said: &str,
) -> Result<(), AllocError>
    ensures column { OnOk result (explained.new.column ≡ explained.old.column) }
    ensures note { OnOk result (IfSome explained.new.note (HasNoteColumn bytes.now)) }
{
    let note = note_of(alloc, bytes, declared, said)?;
    explained.note = Some(note);
    Ok(())
}

fn declaration<'d, 'a>(declared: &'d [Declared<'a>], name: &str) -> Option<&'d Declared<'a>> {
    for one in declared {
        if one.name == name {
            return Some(one);
        }
    }
    None
}

// Explains a name that is declared as something else than what is needed.
fn explain_other(
    alloc: Global,
    explained: &mut Explained,
    bytes: &[u8],
    declared: &Declared,
) -> Result<(), AllocError>
    requires { explained.old.note ≡ None }
    ensures column { OnOk result (explained.new.column ≡ explained.old.column) }
    ensures note { OnOk result (IfSome explained.new.note (HasNoteColumn bytes.now)) }
{
    let said = if declared.is_type {
        " is a type, and an attribute is expected here"
    } else {
        " is an attribute, and a type is expected here"
    };
    push_said(&mut explained.message, declared.name, said)?;
    note_here(alloc, explained, bytes, declared, " is declared here")
}

// Finds the declared name that is nearest to an undeclared one.
fn nearest_declared<'a>(
    alloc: Global,
    declared: &[Declared<'a>],
    name: &str,
) -> Result<Option<&'a str>, AllocError> {
    let mut names = Vec::new(alloc);
    for one in declared {
        names.push(one.name)?;
    }
    nearest_name(alloc, name, names.as_slice())
}

// Adds a note at the declaration of the name that may be meant.
fn note_meant(
    alloc: Global,
    explained: &mut Explained,
    bytes: &[u8],
    declared: &[Declared],
    meant: Option<&str>,
) -> Result<(), AllocError>
    requires { explained.old.note ≡ None }
    ensures column { OnOk result (explained.new.column ≡ explained.old.column) }
    ensures note { OnOk result (IfSome explained.new.note (HasNoteColumn bytes.now)) }
{
    let Some(meant) = meant else {
        return Ok(());
    };
    match declaration(declared, meant) {
        Some(near) => note_here(alloc, explained, bytes, near, " is declared here"),
        None => Ok(()),
    }
}

// Explains an undeclared name, by the nearest declared one.
fn explain_undeclared(
    alloc: Global,
    explained: &mut Explained,
    bytes: &[u8],
    declared: &[Declared],
    name: &str,
) -> Result<(), AllocError>
    requires { explained.old.note ≡ None }
    ensures column { OnOk result (explained.new.column ≡ explained.old.column) }
    ensures note { OnOk result (IfSome explained.new.note (HasNoteColumn bytes.now)) }
{
    push_said(&mut explained.message, name, " is not declared")?;
    let meant = nearest_declared(alloc, declared, name)?;
    push_meant(&mut explained.message, meant)?;
    note_meant(alloc, explained, bytes, declared, meant)
}

// Explains a name that is not declared as what it has to be.
fn explain_unknown(
    alloc: Global,
    explained: &mut Explained,
    text: &str,
    line: &LineTokens,
    name: &str,
) -> Result<(), AllocError>
    requires of_line { AreOfLine text.now line.now }
    requires no_note { explained.old.note ≡ None }
    ensures column { OnOk result (IsColumnOf text.now line.now.number name.now explained.new.column) }
    ensures note { OnOk result (IfSome explained.new.note (HasNoteColumn text.now)) }
{
    let bytes = text.as_bytes();
    explained.column = column_of_word(bytes, line, name.as_bytes(), 0);
    let declared = declared_in(alloc, text)?;
    match declaration(declared.as_slice(), name) {
        Some(other) => explain_other(alloc, explained, bytes, other),
        None => explain_undeclared(alloc, explained, bytes, declared.as_slice(), name),
    }
}

// Appends the line of the first declaration.
fn push_first(message: &mut Vec<u8>, line: u32) -> Result<(), AllocError> {
    push_text(message, ", and first on line ")?;
    push_number(message, line)
}

// Adds the line of the first declaration of a name, and a note there.
fn report_first(
    alloc: Global,
    explained: &mut Explained,
    bytes: &[u8],
    declared: &[Declared],
    name: &str,
) -> Result<(), AllocError>
    requires { explained.old.note ≡ None }
    ensures column { OnOk result (explained.new.column ≡ explained.old.column) }
    ensures note { OnOk result (IfSome explained.new.note (HasNoteColumn bytes.now)) }
{
    let Some(first) = declaration(declared, name) else {
        return Ok(());
    };
    push_first(&mut explained.message, first.line)?;
    note_here(alloc, explained, bytes, first, " is first declared here")
}

// Explains a name that is declared twice.
fn explain_twice(
    alloc: Global,
    explained: &mut Explained,
    text: &str,
    line: &LineTokens,
    name: &str,
) -> Result<(), AllocError>
    requires of_line { AreOfLine text.now line.now }
    requires no_note { explained.old.note ≡ None }
    ensures column { OnOk result (IsColumnOf text.now line.now.number name.now explained.new.column) }
    ensures note { OnOk result (IfSome explained.new.note (HasNoteColumn text.now)) }
{
    let bytes = text.as_bytes();
    explained.column = misfit_column(alloc, bytes, line, name)?;
    push_said(&mut explained.message, name, " is declared twice")?;
    let declared = declared_in(alloc, text)?;
    report_first(alloc, explained, bytes, declared.as_slice(), name)
}

// Explains a word that is not a permission, by the nearest permission.
fn explain_permission(
    alloc: Global,
    explained: &mut Explained,
    bytes: &[u8],
    line: &LineTokens,
    word: &str,
) -> Result<(), AllocError>
    requires { AreOfLine bytes.now line.now }
    ensures column { OnOk result (IsColumnOf bytes.now line.now.number word.now explained.new.column) }
    ensures note { OnOk result (explained.new.note ≡ explained.old.note) }
{
    explained.column = misfit_column(alloc, bytes, line, word)?;
    push_said(
        &mut explained.message,
        word,
        " is not a permission of class grant",
    )?;
    push_permission_hint(alloc, &mut explained.message, word)
}

// Explains a part of the language that is not supported.
fn explain_outside(
    alloc: Global,
    explained: &mut Explained,
    bytes: &[u8],
    line: &LineTokens,
    word: &str,
) -> Result<(), AllocError>
    requires { AreOfLine bytes.now line.now }
    ensures column { OnOk result (IsColumnOf bytes.now line.now.number word.now explained.new.column) }
    ensures note { OnOk result (explained.new.note ≡ explained.old.note) }
{
    explained.column = misfit_column(alloc, bytes, line, word)?;
    push_outside(alloc, &mut explained.message, word)
}

/// Explains the fault of a text.
pub(crate) fn explain(
    alloc: Global,
    explained: &mut Explained,
    text: &str,
    fault: &PolicyFault,
) -> Result<(), AllocError>
    requires column { explained.old.column ≡ 1 }
    requires no_note { explained.old.note ≡ None }
    ensures { OnOk result (IsOfFault text.now fault.now explained.new) }
{
    let bytes = text.as_bytes();
    let line = line_tokens(alloc, bytes, fault.line)?;
    match &fault.kind {
        PolicyFaultKind::Syntax => explain_syntax(alloc, explained, bytes, &line),
        PolicyFaultKind::Unknown(name) => explain_unknown(
            alloc,
            explained,
            text,
            &line,
            name.as_str(),
        ),
        PolicyFaultKind::Twice(name) => explain_twice(alloc, explained, text, &line, name.as_str()),
        PolicyFaultKind::Permission(name) => {
            explain_permission(alloc, explained, bytes, &line, name.as_str())
        }
        PolicyFaultKind::Outside(word) => {
            explain_outside(alloc, explained, bytes, &line, word.as_str())
        }
        PolicyFaultKind::Limit => push_text(&mut explained.message, LIMITS),
        PolicyFaultKind::Memory => Err(AllocError),
    }
}

const LIMITS: &str =
    "too much: a policy has at most 1048576 bytes, 256 types, 256 attributes and 65536 allow statements";
