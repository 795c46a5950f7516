//! A line of an answer, part by part.
ghost use Rattle.std.specs.Prelude.{◌≡◌, ◌++◌, OnOk, find, flat_map};
ghost use Rattle.std.specs.Option.{option_map};
ghost use Rattle.gt_policy_questions.specs.Format.{TextGrows};
ghost use Rattle.gt_policy_questions.specs.Lines.{line_part_text};
ghost use Rattle.gt_policy_questions.specs.Steps.{granting_line};

use crate::flows::format::{FlowFormat, FlowText, push_name};
use crate::listing::pair_type_name;
use gt_policy::LinedStatement;
use gt_policy_statements::{Member, gives_one};
use gt_text::{push_number, push_text};
use gt_types::TypeId;
use std::alloc::AllocError;

/// What a line is about: two types, and a number of accesses. With the format of the answer, the types of the policy in
/// the order of their numbers, and its statements.
#[derive(Drop)]
pub(crate) struct FlowLine<'t, 'a> {
    pub format: FlowFormat,
    pub members: &'t [Member<'a>],
    pub statements: &'t [LinedStatement<'a>],
    pub source: TypeId,
    pub target: TypeId,
    pub accesses: usize,
}

/// A part of a line.
pub(crate) enum LinePart {
    /// The first mark as text, and the second as JSON.
    Mark(&'static str, &'static str),
    /// A word.
    Word(&'static str),
    /// The name of the first type.
    Source,
    /// The name of the second type.
    Target,
    /// The number of accesses.
    Accesses,
    /// The line of the first statement that grants this permission to the first type on the second, or 0.
    Grant(&'static str),
    /// The same to the second type on the first.
    GrantBack(&'static str),
}

// Returns the line of the first statement that grants the permission to a type on a type, or 0.
fn granting_line(
    statements: &[LinedStatement],
    source: Option<&Member>,
    target: Option<&Member>,
    perm: &str,
) -> u32
    ensures { result ≡ granting_line statements.now (option_map (λ m. m.now) source.entry)
        (option_map (λ m. m.now) target.entry) perm.now }
{
    let Some(from) = source else {
        return 0;
    };
    let Some(to) = target else {
        return 0;
    };
    'statements: for stated in statements {
        if gives_one(&stated.statement, from, to, perm) {
            return stated.line;
        }
    }
    0
}

// Appends a part of a line.
fn push_part(out: &mut Vec<u8>, line: &FlowLine, part: &LinePart) -> Result<(), AllocError>
    ensures { OnOk result (out.new.items ≡ out.old.items ++ line_part_text line.now part.now) }
{
    match part {
        LinePart::Mark(text, json) => match line.format {
            FlowFormat::Text => push_text(out, text),
            FlowFormat::Json => push_text(out, json),
        },
        LinePart::Word(word) => push_text(out, word),
        LinePart::Source => push_name(out, line.format, pair_type_name(line.members, line.source)),
        LinePart::Target => push_name(out, line.format, pair_type_name(line.members, line.target)),
        LinePart::Accesses => push_number(out, line.accesses),
        LinePart::Grant(perm) => {
            let source = line.members.get(line.source.0 as usize);
            let target = line.members.get(line.target.0 as usize);
            push_number(
                out,
                granting_line(line.statements, source, target, perm) as usize,
            )
        }
        LinePart::GrantBack(perm) => {
            let source = line.members.get(line.source.0 as usize);
            let target = line.members.get(line.target.0 as usize);
            push_number(
                out,
                granting_line(line.statements, target, source, perm) as usize,
            )
        }
    }
}

/// Appends the parts of a line.
pub(crate) fn push_parts(out: &mut FlowText, line: &FlowLine, parts: &[LinePart])
    ensures { TextGrows out.old out.new (flat_map (line_part_text line.now) parts.now) }
{
    'parts: for part in parts {
        if push_part(&mut out.bytes, line, part).is_err() {
            out.is_whole = false;
        }
    }
}
