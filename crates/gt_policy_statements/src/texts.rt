//! Allow statements as text.
ghost use Rattle.std.specs.Prelude.{◌≡◌, ◌++◌, codes, find, OnOk};
ghost use Rattle.std.specs.List.{list_any};
ghost use Rattle.gt_policy_statements.specs.Texts.{is_plain, item_text, items_text, set_text, words_text, list_text};
ghost use Rattle.gt_policy_statements.specs.Texts.{perms_text, allow_text, names_type, way_text, held_text, all_held_text};
ghost use Rattle.gt_policy_statements.specs.Texts.{self_text, note_text, place_text, report_entry_text, by_text};
ghost use Rattle.gt_policy_statements.specs.Texts.{item_by_text};
ghost use Rattle.gt_policy_statements.specs.Granting.{puts_in};

use crate::granting::{has_self, holds, puts_in};
use crate::members::{Member, is_same};
use gt_policy::{Allowance, LinedStatement, Permissions, SetElement, Statement, TextPiece};
use gt_text::{push_number, push_text};
use std::alloc::AllocError;

// Appends two texts, one after the other.
fn push_both(out: &mut Vec<u8>, first: &str, second: &str) -> Result<(), AllocError>
    ensures { OnOk result (out.new.items ≡ out.old.items ++ first.now ++ second.now) }
{
    push_text(out, first)?;
    push_text(out, second)
}

fn push_item(out: &mut Vec<u8>, item: &SetElement) -> Result<(), AllocError>
    ensures { OnOk result (out.new.items ≡ out.old.items ++ item_text item.now) }
{
    match item {
        SetElement::With(mention) => push_text(out, mention.name.as_str()),
        SetElement::Without(mention) => push_both(out, "-", mention.name.as_str()),
        SetElement::Itself => push_text(out, "self"),
    }
}

// Returns whether the set is one name or `self`, which needs no braces.
fn is_plain(items: &[SetElement]) -> bool
    ensures { result ≡ is_plain items.now }
{
    match items {
        [SetElement::With(_)] => true,
        [SetElement::Itself] => true,
        _ => false,
    }
}

// Appends the items, each with a space before it.
fn push_items(out: &mut Vec<u8>, items: &[SetElement]) -> Result<(), AllocError>
    ensures { OnOk result (out.new.items ≡ out.old.items ++ items_text items.now) }
{
    'items: for item in items {
        push_text(out, " ")?;
        push_item(out, item)?;
    }
    Ok(())
}

// Appends a set, with a space before it.
#[tactic(auto, unfolding(crate::specs::Texts::set_text))]
fn push_set(out: &mut Vec<u8>, items: &[SetElement]) -> Result<(), AllocError>
    ensures { OnOk result (out.new.items ≡ out.old.items ++ set_text items.now) }
{
    if is_plain(items) {
        return push_items(out, items);
    }
    push_text(out, " {")?;
    push_items(out, items)?;
    push_text(out, " }")
}

// Appends the words, each with a text before it.
fn push_words(out: &mut Vec<u8>, words: &[TextPiece], before: &str) -> Result<(), AllocError>
    ensures { OnOk result (out.new.items ≡ out.old.items ++ words_text before.now words.now) }
{
    'words: for word in words {
        push_both(out, before, word.as_str())?;
    }
    Ok(())
}

// Appends classes or permissions.
#[tactic(auto, unfolding(crate::specs::Texts::list_text))]
fn push_list(out: &mut Vec<u8>, words: &[TextPiece]) -> Result<(), AllocError>
    ensures { OnOk result (out.new.items ≡ out.old.items ++ list_text words.now) }
{
    if words.len() == 1 {
        return push_words(out, words, "");
    }
    push_text(out, "{")?;
    push_words(out, words, " ")?;
    push_text(out, " }")
}

fn push_perms(out: &mut Vec<u8>, perms: &Permissions) -> Result<(), AllocError>
    ensures { OnOk result (out.new.items ≡ out.old.items ++ perms_text perms.now) }
{
    match perms {
        Permissions::Every => push_text(out, " *"),
        Permissions::Named(words) => {
            push_text(out, " ")?;
            push_list(out, words.as_slice())
        }
    }
}

// Appends the word `allow` and the sets of a statement.
fn push_sets(out: &mut Vec<u8>, allowed: &Allowance) -> Result<(), AllocError>
    ensures { OnOk result (out.new.items ≡ out.old.items
        ++ codes "allow" ++ set_text allowed.now.source ++ set_text allowed.now.target) }
{
    push_text(out, "allow")?;
    push_set(out, allowed.source.as_slice())?;
    push_set(out, allowed.target.as_slice())
}

// Appends an allow statement on one line.
#[tactic(auto, unfolding(crate::specs::Texts::allow_text))]
fn push_allow(out: &mut Vec<u8>, allowed: &Allowance) -> Result<(), AllocError>
    ensures { OnOk result (out.new.items ≡ out.old.items ++ allow_text allowed.now) }
{
    push_sets(out, allowed)?;
    push_text(out, ":")?;
    push_list(out, allowed.classes.as_slice())?;
    push_perms(out, &allowed.perms)?;
    push_text(out, ";")
}

// Returns whether an item is exactly this type.
fn names_type(name: &TextPiece, item: &SetElement) -> bool
    ensures { result ≡ names_type name.now item.now }
{
    match item {
        SetElement::With(mention) => is_same(&mention.name, name),
        _ => false,
    }
}

// Returns whether some item is exactly this type.
fn is_named(name: &TextPiece, items: &[SetElement]) -> bool
    ensures { result ≡ list_any (λ i. names_type name.now i) items.now }
{
    'items: for item in items {
        if names_type(name, item) {
            return true;
        }
    }
    false
}

// Appends `(by` and the attribute of an item.
fn push_by(out: &mut Vec<u8>, item: &SetElement) -> Result<(), AllocError>
    ensures { OnOk result (out.new.items ≡ out.old.items ++ item_by_text item.now) }
{
    match item {
        SetElement::With(mention) => {
            push_both(out, " (by ", mention.name.as_str())?;
            push_text(out, ")")
        }
        _ => Ok(()),
    }
}

// Appends the attribute of the first item that puts a type with these names in.
fn push_attribute(
    out: &mut Vec<u8>,
    names: &[TextPiece],
    items: &[SetElement],
) -> Result<(), AllocError>
    ensures { OnOk result (out.new.items ≡ out.old.items ++ by_text (find (λ i. puts_in names.now i) items.now)) }
{
    'items: for item in items {
        if puts_in(names, item) {
            return push_by(out, item);
        }
    }
    Ok(())
}

// Appends the attribute through which a set holds a type, unless the set names the type.
fn push_way(out: &mut Vec<u8>, member: &Member, items: &[SetElement]) -> Result<(), AllocError>
    ensures { OnOk result (out.new.items ≡ out.old.items ++ way_text member.now items.now) }
{
    if is_named(&member.name, items) {
        return Ok(());
    }
    push_attribute(out, member.names.as_slice(), items)
}

// Appends a type if the set holds it, and the attribute through which it does.
#[tactic(auto, unfolding(crate::specs::Texts::held_text))]
fn push_held(out: &mut Vec<u8>, member: &Member, items: &[SetElement]) -> Result<(), AllocError>
    ensures { OnOk result (out.new.items ≡ out.old.items ++ held_text items.now member.now) }
{
    if !holds(member.names.as_slice(), items) {
        return Ok(());
    }
    push_both(out, " ", member.name.as_str())?;
    push_way(out, member, items)
}

// Appends a text, and those of the types that the set holds.
fn push_all_held(
    out: &mut Vec<u8>,
    before: &str,
    members: &[Member],
    items: &[SetElement],
) -> Result<(), AllocError>
    ensures { OnOk result (out.new.items ≡ out.old.items ++ before.now ++ all_held_text items.now members.now) }
{
    push_text(out, before)?;
    'members: for member in members {
        push_held(out, member, items)?;
    }
    Ok(())
}

// Appends `self` if the target set contains it, and the line end.
fn push_self(out: &mut Vec<u8>, items: &[SetElement]) -> Result<(), AllocError>
    ensures { OnOk result (out.new.items ≡ out.old.items ++ self_text items.now ++ codes "\n") }
{
    if has_self(items) {
        push_text(out, " self\n")
    } else {
        push_text(out, "\n")
    }
}

// Appends the sources and targets that the sets of a statement hold.
#[tactic(auto, unfolding(crate::specs::Texts::note_text))]
fn push_note(
    out: &mut Vec<u8>,
    allowed: &Allowance,
    sources: &[Member],
    targets: &[Member],
) -> Result<(), AllocError>
    ensures { OnOk result (out.new.items ≡ out.old.items ++ note_text sources.now targets.now allowed.now) }
{
    push_all_held(out, "  #", sources, allowed.source.as_slice())?;
    push_all_held(out, " ->", targets, allowed.target.as_slice())?;
    push_self(out, allowed.target.as_slice())
}

// Appends a file and a line, in the layout of compilers.
#[tactic(auto, unfolding(crate::specs::Texts::place_text))]
fn push_place(out: &mut Vec<u8>, file: &str, line: u32) -> Result<(), AllocError>
    ensures { OnOk result (out.new.items ≡ out.old.items ++ place_text file.now line) }
{
    push_both(out, file, ":")?;
    push_number(out, line)?;
    push_text(out, ": ")
}

/// Appends the line of an allow statement: its position, the statement, and the sources and targets that its sets hold.
/// Appends nothing for another statement.
pub(crate) fn push_entry(
    out: &mut Vec<u8>,
    file: &str,
    stated: &LinedStatement,
    sources: &[Member],
    targets: &[Member],
) -> Result<(), AllocError>
    ensures { OnOk result (out.new.items ≡ out.old.items
        ++ report_entry_text file.now sources.now targets.now stated.now) }
{
    let Statement::Allow(allowed) = &stated.statement else {
        return Ok(());
    };
    push_place(out, file, stated.line)?;
    push_allow(out, allowed)?;
    push_note(out, allowed, sources, targets)
}
