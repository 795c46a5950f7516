//! The names that `neverallow` statements use.
ghost use Rattle.std.specs.Prelude.{◌≡◌, ◌∷◌, []};
ghost use Rattle.std.specs.List.{flat_map};
ghost use Rattle.std.specs.Option.{option_map};
ghost use Rattle.gt_neverallow.specs.Naming.{declares, is_declared_in, names_chosen, mentions_in, mentions_of};
ghost use Rattle.gt_neverallow.specs.Naming.{undeclared as first_undeclared};

use crate::statement::{NeverStatement, TypeChoice};
use gt_policy::{LinedStatement, Mention, SetElement, Statement, TextPiece};
use gt_policy_statements::is_same;

// Returns whether a statement declares the name.
fn declares(statement: &Statement, name: &TextPiece) -> bool
    ensures { result ≡ declares name.now statement.now }
{
    match statement {
        Statement::DeclareType(declared, _) => is_same(declared, name),
        Statement::DeclareAttribute(declared) => is_same(declared, name),
        _ => false,
    }
}

fn is_declared(statements: &[LinedStatement], name: &TextPiece) -> bool
    ensures { result ≡ is_declared_in statements.now name.now }
{
    'statements: for stated in statements {
        if declares(&stated.statement, name) {
            return true;
        }
    }
    false
}

// Returns the name, if the policy does not declare it.
fn if_undeclared<'s, 'a>(
    statements: &[LinedStatement],
    mention: &'s Mention<'a>,
) -> Option<&'s Mention<'a>>
    ensures { option_map (λ m. m.now) result ≡ first_undeclared statements.now (mention.entry.now ∷ []) }
{
    if is_declared(statements, &mention.name) {
        None
    } else {
        Some(mention)
    }
}

fn undeclared_in<'s, 'a>(
    statements: &[LinedStatement],
    item: &'s SetElement<'a>,
) -> Option<&'s Mention<'a>>
    ensures { option_map (λ m. m.now) result ≡ first_undeclared statements.now (mentions_in item.entry.now) }
{
    match item {
        SetElement::With(mention) => if_undeclared(statements, mention),
        SetElement::Without(mention) => if_undeclared(statements, mention),
        SetElement::Itself => None,
    }
}

fn undeclared_among<'s, 'a>(
    statements: &[LinedStatement],
    items: &'s [SetElement<'a>],
) -> Option<&'s Mention<'a>>
    ensures { option_map (λ m. m.now) result ≡ first_undeclared statements.now (flat_map mentions_in items.entry.now) }
{
    'items: for item in items {
        if let Some(mention) = undeclared_in(statements, item) {
            return Some(mention);
        }
    }
    None
}

fn undeclared_choice<'s, 'a>(
    statements: &[LinedStatement],
    choice: &'s TypeChoice<'a>,
) -> Option<&'s Mention<'a>>
    ensures { option_map (λ m. m.now) result ≡ first_undeclared statements.now (names_chosen choice.entry.now) }
{
    match choice {
        TypeChoice::Every => None,
        TypeChoice::Of(items) => undeclared_among(statements, items.as_slice()),
        TypeChoice::But(items) => undeclared_among(statements, items.as_slice()),
    }
}

fn undeclared_of<'s, 'a>(
    statements: &[LinedStatement],
    never: &'s NeverStatement<'a>,
) -> Option<&'s Mention<'a>>
    ensures { option_map (λ m. m.now) result ≡ first_undeclared statements.now (mentions_of never.entry.now) }
{
    match undeclared_choice(statements, &never.source) {
        Some(mention) => Some(mention),
        None => undeclared_choice(statements, &never.target),
    }
}

/// Returns the first name of `neverallow` statements that the policy of these statements does not declare.
pub(crate) fn undeclared<'s, 'a>(
    statements: &[LinedStatement],
    nevers: &'s [NeverStatement<'a>],
) -> Option<&'s Mention<'a>>
    ensures { option_map (λ m. m.now) result ≡ first_undeclared statements.now (flat_map mentions_of nevers.entry.now) }
{
    'nevers: for never in nevers {
        if let Some(mention) = undeclared_of(statements, never) {
            return Some(mention);
        }
    }
    None
}
