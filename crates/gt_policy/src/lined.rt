//! The statements of a text, as they are written.
ghost use Rattle.std.specs.Prelude.{◌≡◌, ◌≤◌, length, IfOk, IfErr, Some, None, Err};
ghost use Rattle.gt_policy.specs.Lined.{HeedsLined, LinedIs, IsLined};
ghost use Rattle.gt_policy.specs.Shown.{fault_shown, out_of_memory};
ghost use Rattle.gt_policy.specs.Whole.{ReadsAs};
ghost use Rattle.gt_policy.specs.declared.fault.TokenFault.{TokenFault};

use crate::fault::ReadError;
use crate::parse::{PolicyFault, PolicyFaultKind, fault_of};
use crate::parser::Parser;
use crate::statements::Statement;
use crate::symbols::SymbolTable;
use gt_policy_text::Items;
use gt_types::LONGEST_TEXT;
use std::alloc::Global;

/// A statement, with the line of its first token, counted from 1.
#[derive(Drop)]
pub struct LinedStatement<'a> {
    pub line: u32,
    pub statement: Statement<'a>,
}

/// Parses the statements that are left, each with its line.
pub(crate) fn lined<'a>(
    alloc: Global,
    parser: &mut Parser<'a>,
    seen: &mut SymbolTable<'a>,
) -> Result<Items<LinedStatement<'a>>, ReadError<'a>>
    ensures { HeedsLined result seen.new seen.old parser.old }
{
    let mut read = Items::new(alloc);
    let mut line = parser.line();
    'text: while let Some(statement) = parser.statement(alloc, seen)? {
        read.push(LinedStatement { line, statement })?;
        line = parser.line();
    }
    Ok(read)
}

fn lined_of<'a>(alloc: Global, text: &'a [u8]) -> Result<Items<LinedStatement<'a>>, ReadError<'a>>
    requires { length text.now ≤ LONGEST_TEXT }
    ensures { LinedIs result text.entry.now }
{
    let mut seen = SymbolTable::new(alloc);
    let mut parser = Parser::new(text);
    lined(alloc, &mut parser, &mut seen)
}

/// Returns the statements of a text, each with the line on which it begins, or the first fault of the text. Names are
/// not looked up, so an undeclared name is not a fault here: [`Policy::parse`](crate::Policy::parse) finds it. If an
/// allocation fails, the fault is [`PolicyFaultKind::Memory`] with line 0.
pub fn statements_of<'a>(
    alloc: Global,
    text: &'a str,
) -> Result<Items<LinedStatement<'a>>, PolicyFault>
    ensures ok { IfOk result (λ statements. IsLined text.entry.now statements) }
    ensures fault { IfErr result (λ e. (f : TokenFault) → fault_shown e ≡ Some f → ReadsAs text.entry.now (Err f)) }
    ensures memory { IfErr result (λ e. fault_shown e ≡ None → e ≡ out_of_memory) }
{
    if text.len() > LONGEST_TEXT {
        return Err(PolicyFault {
            line: 1,
            kind: PolicyFaultKind::Limit,
        });
    }
    match lined_of(alloc, text.as_bytes()) {
        Ok(statements) => Ok(statements),
        Err(error) => Err(fault_of(alloc, error)),
    }
}
