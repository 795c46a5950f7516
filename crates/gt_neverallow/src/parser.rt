//! The parser of `neverallow` and `neverflow` statements.
ghost use Rattle.std.specs.Prelude.{◌≡◌, ◌∷◌, ◌<◌, ◌≤◌, length, IfOk, IsSome, false, Some};
ghost use Rattle.gt_policy.specs.Grammar.{at, classes_in_braces, classes_of, is_grant, is_grant_alone};
ghost use Rattle.gt_policy.specs.Grammar.{is_refused_word, colon, misfit, misfit_name, perms_in_braces, perms_of};
ghost use Rattle.gt_policy.specs.Grammar.{semicolon, set_in_braces, set_of, type_name};
ghost use Rattle.gt_neverallow.specs.Reading.{Reads, ReadsNext, ReadsNothing, ReadsTo, parse_fault_in, fault_kind};
ghost use Rattle.gt_neverallow.specs.Reading.{begins_flow, begins_statement, flow_statement, misfit_statement};
ghost use Rattle.gt_neverallow.specs.Reading.{never_statement, next_statement};
ghost use Rattle.gt_neverallow.specs.Reading.{types_of};

use crate::fault::{ParseError, TokenKind};
use crate::statement::{Forbidden, NeverStatement, TypeChoice};
use gt_policy::{Items, Mention, Permissions, SetElement, TextPiece};
use gt_policy_text::{Lexeme, Lexer, Token, is_text};
use gt_types::Perms;
use std::alloc::Global;

// Makes the error for a fault on a line.
fn fault_at<'a>(line: u32, kind: TokenKind<'a>) -> ParseError<'a>
    ensures { parse_fault_in result ≡ Some (at line (fault_kind kind.entry)) }
{
    ParseError::Fault(line, kind)
}

// Returns the kind of fault for a token that fits nowhere here.
#[tactic(auto, unfolding(gt_policy::specs::Grammar::misfit))]
fn misfit<'a>(token: Token<'a>) -> TokenKind<'a>
    ensures { fault_kind result ≡ misfit false token.entry }
{
    match token {
        Token::Tilde => TokenKind::Outside(TextPiece::new(b"~")),
        _ => TokenKind::Syntax,
    }
}

// Returns the kind of fault for a token where a type or a class is expected.
#[tactic(auto, unfolding(gt_policy::specs::Grammar::misfit_name))]
fn misfit_name<'a>(token: Token<'a>) -> TokenKind<'a>
    ensures { fault_kind result ≡ misfit_name false token.entry }
{
    match token {
        Token::Star => TokenKind::Outside(TextPiece::new(b"*")),
        _ => misfit(token),
    }
}

// Returns the kind of fault for a token where a statement is expected.
#[tactic(auto, unfolding(crate::specs::Reading::misfit_statement))]
fn misfit_statement<'a>(token: Token<'a>) -> TokenKind<'a>
    ensures { fault_kind result ≡ misfit_statement token.entry }
{
    match token {
        Token::TypeWord => TokenKind::Outside(TextPiece::new(b"type")),
        Token::AttributeWord => TokenKind::Outside(TextPiece::new(b"attribute")),
        Token::TypeattributeWord => TokenKind::Outside(TextPiece::new(b"typeattribute")),
        Token::AllowWord => TokenKind::Outside(TextPiece::new(b"allow")),
        Token::Name(name) => TokenKind::Outside(name),
        _ => misfit(token),
    }
}

// Parses the name of a type.
#[tactic(auto, unfolding(gt_policy::specs::Grammar::type_name))]
fn type_name<'a>(lexer: &mut Lexer<'a>) -> Result<Mention<'a>, ParseError<'a>>
    ensures value { Reads result lexer.new (type_name false lexer.old) }
    ensures shorter { length lexer.new ≤ length lexer.old }
{
    let (token, line) = lexer.next();
    match token {
        Token::Name(name) => Ok(Mention { name, line }),
        other => Err(fault_at(line, misfit_name(other))),
    }
}

// Parses the rest of a set in braces.
fn set_in_braces<'a>(
    lexer: &mut Lexer<'a>,
    alloc: Global,
    is_target: bool,
) -> Result<Items<SetElement<'a>>, ParseError<'a>>
    ensures value { Reads result lexer.new (set_in_braces is_target false lexer.old) }
    ensures shorter { length lexer.new ≤ length lexer.old }
{
    let mut items = Items::new(alloc);
    loop {
        let (token, line) = lexer.next();
        match token {
            Token::Close => {
                if items.is_empty() {
                    return Err(fault_at(line, TokenKind::Syntax));
                }
                return Ok(items);
            }
            Token::Name(name) => items.push(SetElement::With(Mention { name, line }))?,
            Token::Minus => items.push(SetElement::Without(type_name(lexer)?))?,
            Token::SelfWord => {
                if !is_target {
                    return Err(fault_at(line, TokenKind::Syntax));
                }
                items.push(SetElement::Itself)?;
            }
            other => return Err(fault_at(line, misfit_name(other))),
        }
    }
}

// Parses a set that begins with this token.
#[tactic(auto, unfolding(gt_policy::specs::Grammar::set_of))]
fn set_from<'a>(
    lexer: &mut Lexer<'a>,
    alloc: Global,
    is_target: bool,
    first: Lexeme<'a>,
) -> Result<Items<SetElement<'a>>, ParseError<'a>>
    ensures value { Reads result lexer.new (set_of is_target (first.entry ∷ lexer.old)) }
    ensures shorter { length lexer.new ≤ length lexer.old }
{
    let (token, line) = first;
    let mut items = Items::new(alloc);
    match token {
        Token::Open => return set_in_braces(lexer, alloc, is_target),
        Token::Name(name) => items.push(SetElement::With(Mention { name, line }))?,
        Token::SelfWord => {
            if !is_target {
                return Err(fault_at(line, TokenKind::Syntax));
            }
            items.push(SetElement::Itself)?;
        }
        other => return Err(fault_at(line, misfit_name(other))),
    }
    Ok(items)
}

// Parses the set after `~`.
fn set<'a>(lexer: &mut Lexer<'a>, alloc: Global) -> Result<Items<SetElement<'a>>, ParseError<'a>>
    ensures value { Reads result lexer.new (set_of false lexer.old) }
    ensures shorter { length lexer.new ≤ length lexer.old }
{
    let first = lexer.next();
    set_from(lexer, alloc, false, first)
}

// Parses a source or a target.
#[tactic(auto, unfolding(crate::specs::Reading::types_of))]
fn types<'a>(
    lexer: &mut Lexer<'a>,
    alloc: Global,
    is_target: bool,
) -> Result<TypeChoice<'a>, ParseError<'a>>
    ensures value { Reads result lexer.new (types_of is_target lexer.old) }
    ensures shorter { length lexer.new ≤ length lexer.old }
{
    let (token, line) = lexer.next();
    match token {
        Token::Star => Ok(TypeChoice::Every),
        Token::Tilde => Ok(TypeChoice::But(set(lexer, alloc)?)),
        first => Ok(TypeChoice::Of(set_from(lexer, alloc, is_target, (first, line))?)),
    }
}

#[tactic(auto, unfolding(gt_policy::specs::Grammar::colon))]
fn colon<'a>(lexer: &mut Lexer<'a>) -> Result<(), ParseError<'a>>
    ensures value { ReadsNothing result lexer.new (colon lexer.old) }
    ensures shorter { length lexer.new ≤ length lexer.old }
{
    let (token, line) = lexer.next();
    match token {
        Token::Colon => Ok(()),
        other => Err(fault_at(line, misfit(other))),
    }
}

#[tactic(auto, unfolding(gt_policy::specs::Grammar::semicolon))]
fn semicolon<'a>(lexer: &mut Lexer<'a>) -> Result<(), ParseError<'a>>
    ensures value { ReadsNothing result lexer.new (semicolon false lexer.old) }
    ensures shorter { length lexer.new ≤ length lexer.old }
{
    let (token, line) = lexer.next();
    match token {
        Token::Semicolon => Ok(()),
        other => Err(fault_at(line, misfit(other))),
    }
}

// Parses the rest of a list of classes in braces.
fn classes_in_braces<'a>(
    lexer: &mut Lexer<'a>,
    alloc: Global,
) -> Result<Items<TextPiece<'a>>, ParseError<'a>>
    ensures value { Reads result lexer.new (classes_in_braces false lexer.old) }
    ensures shorter { length lexer.new ≤ length lexer.old }
{
    let mut classes = Items::new(alloc);
    loop {
        let (token, line) = lexer.next();
        match token {
            Token::Close => {
                if classes.is_empty() {
                    return Err(fault_at(line, TokenKind::Syntax));
                }
                return Ok(classes);
            }
            Token::Name(name) => classes.push(name)?,
            other => return Err(fault_at(line, misfit_name(other))),
        }
    }
}

#[tactic(auto, unfolding(gt_policy::specs::Grammar::classes_of))]
fn classes<'a>(lexer: &mut Lexer<'a>, alloc: Global) -> Result<Items<TextPiece<'a>>, ParseError<'a>>
    ensures value { Reads result lexer.new (classes_of lexer.old) }
    ensures shorter { length lexer.new ≤ length lexer.old }
{
    let mut classes = Items::new(alloc);
    let (token, line) = lexer.next();
    match token {
        Token::Open => return classes_in_braces(lexer, alloc),
        Token::Name(name) => classes.push(name)?,
        other => return Err(fault_at(line, misfit_name(other))),
    }
    Ok(classes)
}

// Returns whether the word is the class `grant`.
fn is_grant(class: &TextPiece) -> bool
    ensures { result ≡ is_grant class.now }
{
    is_text(class.as_bytes(), b"grant")
}

fn is_grant_alone(classes: &[TextPiece]) -> bool
    ensures { result ≡ is_grant_alone classes.now }
{
    for class in classes {
        if !is_grant(class) {
            return false;
        }
    }
    true
}

// Returns whether a word in the permissions is a fault: one that is not a permission of class `grant`, if that is the
// only class.
fn is_refused(alone: bool, word: &TextPiece) -> bool
    ensures { result ≡ is_refused_word alone word.now }
{
    alone && Perms::named(word.as_bytes()).is_none()
}

// Parses the rest of a list of permissions in braces.
fn perms_in_braces<'a>(
    lexer: &mut Lexer<'a>,
    alloc: Global,
    alone: bool,
) -> Result<Items<TextPiece<'a>>, ParseError<'a>>
    ensures value { Reads result lexer.new (perms_in_braces alone false lexer.old) }
    ensures shorter { length lexer.new ≤ length lexer.old }
{
    let mut perms = Items::new(alloc);
    loop {
        let (token, line) = lexer.next();
        match token {
            Token::Close => {
                if perms.is_empty() {
                    return Err(fault_at(line, TokenKind::Syntax));
                }
                return Ok(perms);
            }
            Token::Name(name) => {
                if is_refused(alone, &name) {
                    return Err(fault_at(line, TokenKind::Permission(name)));
                }
                perms.push(name)?;
            }
            other => return Err(fault_at(line, misfit(other))),
        }
    }
}

// Parses permissions. `alone`: whether `grant` is the only class of the statement.
#[tactic(auto, unfolding(gt_policy::specs::Grammar::perms_of))]
fn perms<'a>(
    lexer: &mut Lexer<'a>,
    alloc: Global,
    alone: bool,
) -> Result<Permissions<'a>, ParseError<'a>>
    ensures value { Reads result lexer.new (perms_of alone lexer.old) }
    ensures shorter { length lexer.new ≤ length lexer.old }
{
    let mut perms = Items::new(alloc);
    let (token, line) = lexer.next();
    match token {
        Token::Star => return Ok(Permissions::Every),
        Token::Open => return Ok(Permissions::Named(perms_in_braces(lexer, alloc, alone)?)),
        Token::Name(name) => {
            if is_refused(alone, &name) {
                return Err(fault_at(line, TokenKind::Permission(name)));
            }
            perms.push(name)?;
        }
        other => return Err(fault_at(line, misfit(other))),
    }
    Ok(Permissions::Named(perms))
}

// Parses a statement `neverallow` whose first word is on this line, after that word.
#[tactic(auto, unfolding(crate::specs::Reading::never_statement))]
fn statement<'a>(
    lexer: &mut Lexer<'a>,
    alloc: Global,
    line: u32,
) -> Result<NeverStatement<'a>, ParseError<'a>>
    ensures value { Reads result lexer.new (never_statement line lexer.old) }
    ensures shorter { length lexer.new ≤ length lexer.old }
{
    let source = types(lexer, alloc, false)?;
    let target = types(lexer, alloc, true)?;
    colon(lexer)?;
    let classes = classes(lexer, alloc)?;
    let perms = perms(lexer, alloc, is_grant_alone(classes.as_slice()))?;
    semicolon(lexer)?;
    Ok(NeverStatement {
        line,
        source,
        target,
        what: Forbidden::Grants { classes, perms },
    })
}

// Parses a statement `neverflow` whose first word is on this line, after that word.
#[tactic(auto, unfolding(crate::specs::Reading::flow_statement))]
fn flow_statement<'a>(
    lexer: &mut Lexer<'a>,
    alloc: Global,
    line: u32,
) -> Result<NeverStatement<'a>, ParseError<'a>>
    ensures value { Reads result lexer.new (flow_statement line lexer.old) }
    ensures shorter { length lexer.new ≤ length lexer.old }
{
    let source = types(lexer, alloc, false)?;
    let target = types(lexer, alloc, false)?;
    semicolon(lexer)?;
    Ok(NeverStatement {
        line,
        source,
        target,
        what: Forbidden::Flow,
    })
}

// Returns whether a token is the word `neverallow`.
fn is_neverallow(token: &Token) -> bool
    ensures { result ≡ begins_statement token.now }
{
    match token {
        Token::Name(name) => is_text(name.as_bytes(), b"neverallow"),
        _ => false,
    }
}

// Returns whether a token is the word `neverflow`.
fn is_neverflow(token: &Token) -> bool
    ensures { result ≡ begins_flow token.now }
{
    match token {
        Token::Name(name) => is_text(name.as_bytes(), b"neverflow"),
        _ => false,
    }
}

// Parses the next statement, or returns None at the end of the text.
#[tactic(auto, unfolding(crate::specs::Reading::next_statement))]
fn next_statement<'a>(
    lexer: &mut Lexer<'a>,
    alloc: Global,
) -> Result<Option<NeverStatement<'a>>, ParseError<'a>>
    ensures value { ReadsNext result lexer.new (next_statement lexer.old) }
    ensures shorter { IfOk result (λ s. IsSome s → length lexer.new < length lexer.old) }
{
    let (token, line) = lexer.next();
    if let Token::End = token {
        return Ok(None);
    }
    if is_neverallow(&token) {
        return Ok(Some(statement(lexer, alloc, line)?));
    }
    if is_neverflow(&token) {
        return Ok(Some(flow_statement(lexer, alloc, line)?));
    }
    Err(fault_at(line, misfit_statement(token)))
}

/// Parses the statements that are left.
pub(crate) fn statements<'a>(
    lexer: &mut Lexer<'a>,
    alloc: Global,
) -> Result<Items<NeverStatement<'a>>, ParseError<'a>>
    ensures { ReadsTo result lexer.old }
{
    let mut read = Items::new(alloc);
    'text: while let Some(one) = next_statement(lexer, alloc)? {
        read.push(one)?;
    }
    Ok(read)
}
