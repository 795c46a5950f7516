//! Types, with the names that denote them.
ghost use Rattle.std.specs.Prelude.{◌≡◌, ◌++◌, map, IfOk, OnOk};
ghost use Rattle.std.specs.Option.{option_map};
ghost use Rattle.std.specs.Str.{bytes_eq};
ghost use Rattle.gt_policy_statements.specs.Members.{names_given, names_in_lines, is_asked, members_in, members_of};

use crate::granting::has_word;
use gt_policy::{Items, LinedStatement, Mention, Statement, TextPiece};
use std::alloc::{AllocError, Global};

/// A type and the names that denote it: its name, and those of its attributes.
#[derive(Drop)]
pub struct Member<'a> {
    pub name: TextPiece<'a>,
    pub names: Items<TextPiece<'a>>,
}

/// Returns whether two pieces are the same text.
pub fn is_same(one: &TextPiece, other: &TextPiece) -> bool
    ensures { result ≡ bytes_eq one.now other.now }
{
    one.as_bytes() == other.as_bytes()
}

// Adds the names of the mentions.
fn push_mentions<'a>(
    names: &mut Items<TextPiece<'a>>,
    mentions: &[Mention<'a>],
) -> Result<(), AllocError>
    ensures { OnOk result (names.new ≡ names.old ++ map (λ m. m.name) mentions.now) }
{
    'mentions: for mention in mentions {
        names.push(mention.name.again())?;
    }
    Ok(())
}

// Adds the attributes that a statement gives the type.
fn push_given<'a>(
    names: &mut Items<TextPiece<'a>>,
    statement: &Statement<'a>,
    name: &TextPiece<'a>,
) -> Result<(), AllocError>
    ensures { OnOk result (names.new ≡ names.old ++ names_given name.now statement.now) }
{
    match statement {
        Statement::DeclareType(declared, attributes) => {
            if is_same(declared, name) {
                return push_mentions(names, attributes.as_slice());
            }
        }
        Statement::GiveAttributes(mention, attributes) => {
            if is_same(&mention.name, name) {
                return push_mentions(names, attributes.as_slice());
            }
        }
        _ => {}
    }
    Ok(())
}

// Adds the names that denote a type.
fn push_names<'a>(
    names: &mut Items<TextPiece<'a>>,
    statements: &[LinedStatement<'a>],
    name: &TextPiece<'a>,
) -> Result<(), AllocError>
    ensures { OnOk result (names.new ≡ names.old ++ names_in_lines statements.now name.now) }
{
    names.push(name.again())?;
    'statements: for statement in statements {
        push_given(names, &statement.statement, name)?;
    }
    Ok(())
}

// Returns whether a type with these names is asked for: by one of them, or as any type.
fn is_asked(asked: Option<&str>, names: &[TextPiece]) -> bool
    ensures { result ≡ is_asked (option_map (λ a. a.now) asked.entry) names.now }
{
    match asked {
        Some(wanted) => has_word(names, wanted.as_bytes()),
        None => true,
    }
}

// Adds the type that a statement declares, if it is asked for.
fn push_member<'a>(
    alloc: Global,
    members: &mut Vec<Member<'a>>,
    statements: &[LinedStatement<'a>],
    statement: &Statement<'a>,
    asked: Option<&str>,
) -> Result<(), AllocError>
    ensures { OnOk result (members.new.items ≡ members.old.items
        ++ members_in statements.now (option_map (λ a. a.now) asked.entry) statement.now) }
{
    if let Statement::DeclareType(name, _) = statement {
        let mut names = Items::new(alloc);
        push_names(&mut names, statements, name)?;
        if is_asked(asked, names.as_slice()) {
            members.push(Member {
                name: name.again(),
                names,
            })?;
        }
    }
    Ok(())
}

/// Adds the declared types with this name, their own or that of an attribute, in the order of their declarations; all
/// for None.
pub fn push_members<'a>(
    alloc: Global,
    members: &mut Vec<Member<'a>>,
    statements: &[LinedStatement<'a>],
    asked: Option<&str>,
) -> Result<(), AllocError>
    ensures { OnOk result (members.new.items
        ≡ members.old.items ++ members_of statements.now (option_map (λ a. a.now) asked.entry)) }
{
    'statements: for statement in statements {
        push_member(alloc, members, statements, &statement.statement, asked)?;
    }
    Ok(())
}

/// Returns the declared types with this name, their own or that of an attribute, in the order of their declarations;
/// all for None.
pub fn members_of<'a>(
    alloc: Global,
    statements: &[LinedStatement<'a>],
    asked: Option<&str>,
) -> Result<Vec<Member<'a>>, AllocError>
    ensures { IfOk result (λ v. v.items ≡ members_of statements.now (option_map (λ a. a.now) asked.entry)) }
{
    let mut members = Vec::new(alloc);
    push_members(alloc, &mut members, statements, asked)?;
    Ok(members)
}
