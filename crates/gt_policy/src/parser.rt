//! The parser of statements: types, attributes, and the frame of them all.
ghost use Rattle.std.specs.Prelude.{◌≡◌, ◌<◌, ◌≤◌, [], length, IfOk, IsSome, true, false};
ghost use Rattle.gt_policy.specs.Grammar.{Gives, misfit, misfit_name, excluded, type_name, attribute_name};
ghost use Rattle.gt_policy.specs.Grammar.{attributes, after, semicolon, GivesNothing, Fills};
ghost use Rattle.gt_policy.specs.Grammar.{typeattribute_statement, statement_behind};
ghost use Rattle.gt_policy.specs.Grammar.{type_statement, attribute_statement, statement, GivesSeen, GivesNext};

mod allowing;

use crate::fault::{ReadError, TokenFaultKind, fault_at, syntax_at};
use crate::statements::{Mention, Statement};
use crate::symbols::SymbolTable;
use gt_policy_text::{Items, Lexeme, Lexer, TextPiece, Token, is_text};
use std::alloc::Global;
use std::marker::Model;

// Returns whether the name is not allowed here: `alias` in a type statement.
fn is_excluded(in_type: bool, name: &TextPiece) -> bool
    ensures { result ≡ excluded in_type name.now }
{
    in_type && is_text(name.as_bytes(), b"alias")
}

// Returns the fault of a token that fits nowhere here.
#[tactic(auto, unfolding(crate::specs::Grammar::misfit))]
fn misfit<'a>(in_type: bool, line: u32, token: Token<'a>) -> ReadError<'a>
    ensures { result ≡ ReadError.Fault (record { line = line; kind = misfit in_type token.entry }) }
{
    match token {
        Token::Tilde => fault_at(line, TokenFaultKind::Outside(TextPiece::new(b"~"))),
        Token::Name(name) => {
            if is_excluded(in_type, &name) {
                fault_at(line, TokenFaultKind::Outside(name))
            } else {
                syntax_at(line)
            }
        }
        _ => syntax_at(line),
    }
}

// Returns the same where a type or a class is expected: `*` is outside the supported language there.
#[tactic(auto, unfolding(crate::specs::Grammar::misfit_name))]
fn misfit_name<'a>(in_type: bool, line: u32, token: Token<'a>) -> ReadError<'a>
    ensures { result ≡ ReadError.Fault (record { line = line; kind = misfit_name in_type token.entry }) }
{
    match token {
        Token::Star => fault_at(line, TokenFaultKind::Outside(TextPiece::new(b"*"))),
        _ => misfit(in_type, line, token),
    }
}

/// The rest of a text, as statements. A contract sees its tokens.
#[derive(Drop)]
pub struct Parser<'a> {
    lexer: Lexer<'a>,
}

impl<'a> Model for Parser<'a> {
    ghost use Rattle.std.specs.Prelude.{ℕ, List};
    ghost use Rattle.gt_policy_text.specs.declared.lexer.Token.{Token};

    ghost Value = { List (Token × ℕ) };

    ghost view = { λ p. p.lexer };
}

impl<'a> Parser<'a> {
    ghost use Rattle.std.specs.Prelude.{◌∷◌, ◌<◌, ◌^◌, ◌-◌, List, ℕ};
    ghost use Rattle.gt_policy_text.specs.Lexing.{behind, lexemes_of};
    ghost use Rattle.gt_policy_text.specs.declared.lexer.Token.{Token};

    pub(crate) fn new(text: &'a [u8]) -> Parser<'a>
        requires { length text.now < 2 ^ 32 - 2 }
        ensures { result ≡ lexemes_of text.entry.now }
    {
        Parser {
            lexer: Lexer::new(text),
        }
    }

    /// Returns the line of the next token, without taking it. At the end of the text the line is unspecified.
    pub(crate) fn line(&mut self) -> u32
        ensures same { self.new ≡ self.old }
        ensures line { (token : Token) (n : ℕ) (rest : List (Token × ℕ)) →
            self.old ≡ (token, n) ∷ rest → (token ≡ Token.End → ⊥) → result ≡ n }
    {
        self.lexer.line()
    }

    fn next(&mut self) -> Lexeme<'a>
        ensures front { self.old ≡ result ∷ behind result.0 self.new }
        ensures shorter { length self.new ≤ length self.old }
    {
        self.lexer.next()
    }

    // Parses the name of a type.
    #[tactic(auto, unfolding(crate::specs::Grammar::type_name))]
    fn type_name(&mut self, in_type: bool) -> Result<Mention<'a>, ReadError<'a>>
        ensures value { Gives result self.new (type_name in_type self.old) }
        ensures shorter { length self.new ≤ length self.old }
    {
        let (token, line) = self.next();
        match token {
            Token::Name(name) => {
                if is_excluded(in_type, &name) {
                    Err(fault_at(line, TokenFaultKind::Outside(name)))
                } else {
                    Ok(Mention { name, line })
                }
            }
            other => Err(misfit_name(in_type, line, other)),
        }
    }

    // Parses the name of an attribute.
    #[tactic(auto, unfolding(crate::specs::Grammar::attribute_name))]
    fn attribute_name(&mut self, in_type: bool) -> Result<Mention<'a>, ReadError<'a>>
        ensures value { Gives result self.new (attribute_name in_type self.old) }
        ensures shorter { length self.new ≤ length self.old }
    {
        let (token, line) = self.next();
        match token {
            Token::Name(name) => {
                if is_excluded(in_type, &name) {
                    Err(fault_at(line, TokenFaultKind::Outside(name)))
                } else {
                    Ok(Mention { name, line })
                }
            }
            other => Err(misfit(in_type, line, other)),
        }
    }

    // Parses the rest of a list of attributes, and appends it to `names`.
    fn attributes_behind(
        &mut self,
        in_type: bool,
        names: &mut Items<Mention<'a>>,
    ) -> Result<(), ReadError<'a>>
        ensures value { Fills result names.new self.new (after names.old (attributes in_type false self.old)) }
        ensures shorter { length self.new ≤ length self.old }
    {
        'names: loop {
            let (token, line) = self.next();
            match token {
                Token::Semicolon => return Ok(()),
                Token::Comma => names.push(self.attribute_name(in_type)?)?,
                other => return Err(misfit(in_type, line, other)),
            }
        }
    }

    // Parses the attributes of a `typeattribute` statement, into an empty list.
    fn attributes(&mut self, names: &mut Items<Mention<'a>>) -> Result<(), ReadError<'a>>
        requires { names.old ≡ [] }
        ensures value { Fills result names.new self.new (attributes false true self.old) }
        ensures shorter { length self.new ≤ length self.old }
    {
        names.push(self.attribute_name(false)?)?;
        self.attributes_behind(false, names)
    }

    #[tactic(auto, unfolding(crate::specs::Grammar::semicolon))]
    fn semicolon(&mut self, in_type: bool) -> Result<(), ReadError<'a>>
        ensures value { GivesNothing result self.new (semicolon in_type self.old) }
        ensures shorter { length self.new ≤ length self.old }
    {
        let (token, line) = self.next();
        match token {
            Token::Semicolon => Ok(()),
            other => Err(misfit(in_type, line, other)),
        }
    }

    // Parses a `typeattribute` statement, after its first word.
    #[tactic(auto, unfolding(crate::specs::Grammar::typeattribute_statement))]
    fn typeattribute_statement(&mut self, alloc: Global) -> Result<Statement<'a>, ReadError<'a>>
        ensures value { Gives result self.new (typeattribute_statement self.old) }
        ensures shorter { length self.new ≤ length self.old }
    {
        let name = self.type_name(false)?;
        let mut names = Items::new(alloc);
        self.attributes(&mut names)?;
        Ok(Statement::GiveAttributes(name, names))
    }

    // Parses a `type` statement, after its first word.
    #[tactic(auto, unfolding(crate::specs::Grammar::type_statement))]
    fn type_statement(
        &mut self,
        alloc: Global,
        seen: &mut SymbolTable<'a>,
    ) -> Result<Statement<'a>, ReadError<'a>>
        ensures value { GivesSeen result seen.new self.new (type_statement seen.old self.old) }
        ensures shorter { length self.new ≤ length self.old }
    {
        let Mention { name, line } = self.type_name(true)?;
        seen.declare_type(name.again(), line)?;
        let mut names = Items::new(alloc);
        self.attributes_behind(true, &mut names)?;
        Ok(Statement::DeclareType(name, names))
    }

    // Parses an `attribute` statement, after its first word.
    #[tactic(auto, unfolding(crate::specs::Grammar::attribute_statement))]
    fn attribute_statement(
        &mut self,
        seen: &mut SymbolTable<'a>,
    ) -> Result<Statement<'a>, ReadError<'a>>
        ensures value { GivesSeen result seen.new self.new (attribute_statement seen.old self.old) }
        ensures shorter { length self.new ≤ length self.old }
    {
        let Mention { name, line } = self.attribute_name(false)?;
        seen.declare_attribute(name.again(), line)?;
        self.semicolon(false)?;
        Ok(Statement::DeclareAttribute(name))
    }

    // Parses the statement that begins with this token.
    fn statement_behind(
        &mut self,
        alloc: Global,
        lexeme: Lexeme<'a>,
        seen: &mut SymbolTable<'a>,
    ) -> Result<Statement<'a>, ReadError<'a>>
        ensures value { GivesSeen result seen.new self.new (statement_behind seen.old lexeme.entry self.old) }
        ensures shorter { length self.new ≤ length self.old }
    {
        let (token, line) = lexeme;
        match token {
            Token::TypeWord => self.type_statement(alloc, seen),
            Token::AttributeWord => self.attribute_statement(seen),
            Token::TypeattributeWord => self.typeattribute_statement(alloc),
            Token::AllowWord => {
                seen.count_allow(line)?;
                self.allow_statement(alloc)
            }
            Token::Name(name) => Err(fault_at(line, TokenFaultKind::Outside(name))),
            other => Err(misfit(false, line, other)),
        }
    }

    /// Parses the next statement, or returns None at the end of the text.
    #[tactic(auto, unfolding(crate::specs::Grammar::statement))]
    pub(crate) fn statement(
        &mut self,
        alloc: Global,
        seen: &mut SymbolTable<'a>,
    ) -> Result<Option<Statement<'a>>, ReadError<'a>>
        ensures value { GivesNext result seen.old seen.new self.new (statement seen.old self.old) }
        ensures shorter { IfOk result (λ s. IsSome s → length self.new < length self.old) }
    {
        let lexeme = self.next();
        if let Token::End = lexeme.0 {
            return Ok(None);
        }
        Ok(Some(self.statement_behind(alloc, lexeme, seen)?))
    }
}
