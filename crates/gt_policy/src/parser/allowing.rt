//! The parser of allow statements.
ghost use Rattle.std.specs.Prelude.{◌≡◌, ◌≤◌, [], length, true, false};
ghost use Rattle.gt_policy.specs.Grammar.{Gives, GivesNothing, Fills, IsBlank, set_in_braces, set_of, colon};
ghost use Rattle.gt_policy.specs.Grammar.{is_grant_alone, is_refused_word, classes_of, classes_in_braces};
ghost use Rattle.gt_policy.specs.Grammar.{perms_of, perms_named, perms_in_braces, allow_statement};
ghost use Rattle.gt_policy.specs.declared.statements.Statement.TheVariants as statements;

use super::{Parser, misfit, misfit_name};
use crate::fault::{ReadError, TokenFaultKind, fault_at, syntax_at};
use crate::statements::{Allowance, Mention, Permissions, SetElement, Statement, is_grant};
use gt_policy_text::{Items, Lexeme, TextPiece, Token};
use gt_types::Perms;
use std::alloc::Global;

fn is_grant_alone(classes: &[TextPiece]) -> bool
    ensures { result ≡ is_grant_alone classes.now }
{
    for class in classes {
        if !is_grant(class) {
            return false;
        }
    }
    true
}

// Returns whether a word in the permissions is a fault: one that is not a permission of class `grant`, if that is the
// only class.
fn is_refused(alone: bool, word: &TextPiece) -> bool
    ensures { result ≡ is_refused_word alone word.now }
{
    alone && Perms::named(word.as_bytes()).is_none()
}

impl<'a> Parser<'a> {
    // Parses the rest of a set in braces, into an empty list.
    fn set_in_braces(
        &mut self,
        items: &mut Items<SetElement<'a>>,
        is_target: bool,
    ) -> Result<(), ReadError<'a>>
        requires { items.old ≡ [] }
        ensures value { Fills result items.new self.new (set_in_braces is_target false self.old) }
        ensures shorter { length self.new ≤ length self.old }
    {
        'items: loop {
            let (token, line) = self.next();
            match token {
                Token::Close => {
                    if items.is_empty() {
                        return Err(syntax_at(line));
                    }
                    return Ok(());
                }
                Token::Name(name) => items.push(SetElement::With(Mention { name, line }))?,
                Token::Minus => items.push(SetElement::Without(self.type_name(false)?))?,
                Token::SelfWord => {
                    if !is_target {
                        return Err(syntax_at(line));
                    }
                    items.push(SetElement::Itself)?;
                }
                other => return Err(misfit_name(false, line, other)),
            }
        }
    }

    // Parses a source or a target, into an empty list.
    #[tactic(auto, unfolding(crate::specs::Grammar::set_of))]
    fn set(
        &mut self,
        items: &mut Items<SetElement<'a>>,
        is_target: bool,
    ) -> Result<(), ReadError<'a>>
        requires { items.old ≡ [] }
        ensures value { Fills result items.new self.new (set_of is_target self.old) }
        ensures shorter { length self.new ≤ length self.old }
    {
        let (token, line) = self.next();
        match token {
            Token::Open => return self.set_in_braces(items, is_target),
            Token::Name(name) => items.push(SetElement::With(Mention { name, line }))?,
            Token::SelfWord => {
                if !is_target {
                    return Err(syntax_at(line));
                }
                items.push(SetElement::Itself)?;
            }
            other => return Err(misfit_name(false, line, other)),
        }
        Ok(())
    }

    #[tactic(auto, unfolding(crate::specs::Grammar::colon))]
    fn colon(&mut self) -> Result<(), ReadError<'a>>
        ensures value { GivesNothing result self.new (colon self.old) }
        ensures shorter { length self.new ≤ length self.old }
    {
        let (token, line) = self.next();
        match token {
            Token::Colon => Ok(()),
            other => Err(misfit(false, line, other)),
        }
    }

    // Parses the rest of a list of classes in braces, into an empty list.
    fn classes_in_braces(&mut self, classes: &mut Items<TextPiece<'a>>) -> Result<(), ReadError<'a>>
        requires { classes.old ≡ [] }
        ensures value { Fills result classes.new self.new (classes_in_braces false self.old) }
        ensures shorter { length self.new ≤ length self.old }
    {
        'classes: loop {
            let (token, line) = self.next();
            match token {
                Token::Close => {
                    if classes.is_empty() {
                        return Err(syntax_at(line));
                    }
                    return Ok(());
                }
                Token::Name(name) => classes.push(name)?,
                other => return Err(misfit_name(false, line, other)),
            }
        }
    }

    // Parses the classes of an allow statement, into an empty list.
    #[tactic(auto, unfolding(crate::specs::Grammar::classes_of))]
    fn classes(&mut self, classes: &mut Items<TextPiece<'a>>) -> Result<(), ReadError<'a>>
        requires { classes.old ≡ [] }
        ensures value { Fills result classes.new self.new (classes_of self.old) }
        ensures shorter { length self.new ≤ length self.old }
    {
        let (token, line) = self.next();
        match token {
            Token::Open => return self.classes_in_braces(classes),
            Token::Name(name) => classes.push(name)?,
            other => return Err(misfit_name(false, line, other)),
        }
        Ok(())
    }

    // Parses the rest of a list of permissions in braces, into an empty list.
    fn perms_in_braces(
        &mut self,
        perms: &mut Items<TextPiece<'a>>,
        alone: bool,
    ) -> Result<(), ReadError<'a>>
        requires { perms.old ≡ [] }
        ensures value { Fills result perms.new self.new (perms_in_braces alone false self.old) }
        ensures shorter { length self.new ≤ length self.old }
    {
        'perms: loop {
            let (token, line) = self.next();
            match token {
                Token::Close => {
                    if perms.is_empty() {
                        return Err(syntax_at(line));
                    }
                    return Ok(());
                }
                Token::Name(name) => {
                    if is_refused(alone, &name) {
                        return Err(fault_at(line, TokenFaultKind::Permission(name)));
                    }
                    perms.push(name)?;
                }
                other => return Err(misfit(false, line, other)),
            }
        }
    }

    // Parses permissions that are not `*` and begin with this token, into an empty list.
    #[tactic(auto, unfolding(crate::specs::Grammar::perms_named))]
    fn named_perms(
        &mut self,
        lexeme: Lexeme<'a>,
        perms: &mut Items<TextPiece<'a>>,
        alone: bool,
    ) -> Result<(), ReadError<'a>>
        requires { perms.old ≡ [] }
        ensures value { Fills result perms.new self.new (perms_named alone lexeme.entry self.old) }
        ensures shorter { length self.new ≤ length self.old }
    {
        let (token, line) = lexeme;
        match token {
            Token::Open => return self.perms_in_braces(perms, alone),
            Token::Name(name) => {
                if is_refused(alone, &name) {
                    return Err(fault_at(line, TokenFaultKind::Permission(name)));
                }
                perms.push(name)?;
            }
            other => return Err(misfit(false, line, other)),
        }
        Ok(())
    }

    // Parses the permissions of an allow statement. `alone`: whether `grant` is its only class.
    #[tactic(auto, unfolding(crate::specs::Grammar::perms_of, crate::specs::Grammar::perms_named))]
    fn perms(&mut self, alloc: Global, alone: bool) -> Result<Permissions<'a>, ReadError<'a>>
        ensures value { Gives result self.new (perms_of alone self.old) }
        ensures shorter { length self.new ≤ length self.old }
    {
        let lexeme = self.next();
        if let Token::Star = lexeme.0 {
            return Ok(Permissions::Every);
        }
        let mut perms = Items::new(alloc);
        self.named_perms(lexeme, &mut perms, alone)?;
        Ok(Permissions::Named(perms))
    }

    // Parses the parts of an allow statement, after its first word. The lists are empty before.
    #[tactic(auto, unfolding(crate::specs::Grammar::allow_statement))]
    fn allowance(
        &mut self,
        alloc: Global,
        allowance: &mut Allowance<'a>,
    ) -> Result<(), ReadError<'a>>
        requires { IsBlank allowance.old }
        ensures value { Fills result (statements.Allow allowance.new) self.new (allow_statement self.old) }
        ensures shorter { length self.new ≤ length self.old }
    {
        self.set(&mut allowance.source, false)?;
        self.set(&mut allowance.target, true)?;
        self.colon()?;
        self.classes(&mut allowance.classes)?;
        let alone = is_grant_alone(allowance.classes.as_slice());
        allowance.perms = self.perms(alloc, alone)?;
        self.semicolon(false)
    }

    // Parses an allow statement, after its first word.
    pub(super) fn allow_statement(&mut self, alloc: Global) -> Result<Statement<'a>, ReadError<'a>>
        ensures value { Gives result self.new (allow_statement self.old) }
        ensures shorter { length self.new ≤ length self.old }
    {
        let mut allowance = Allowance {
            source: Items::new(alloc),
            target: Items::new(alloc),
            classes: Items::new(alloc),
            perms: Permissions::Every,
        };
        self.allowance(alloc, &mut allowance)?;
        Ok(Statement::Allow(allowance))
    }
}
