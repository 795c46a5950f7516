//! The lines of an answer: for a pair of types, and for each access of a path, with the statements that allow it.
ghost use Rattle.std.specs.Prelude.{◌≡◌};
ghost use Rattle.gt_flow.specs.Accesses.{is_among};
ghost use Rattle.gt_policy_questions.specs.Format.{TextGrows};
ghost use Rattle.gt_policy_questions.specs.Steps.{path_line_text, path_text};

use crate::flows::format::{FlowFormat, FlowText};
use crate::flows::lines::{FlowLine, LinePart, push_parts};
use gt_flow::{Access, access_between, is_among};
use gt_policy::LinedStatement;
use gt_policy_statements::Member;
use gt_types::{Allows, TypeId};

/// A policy with what it was read from: the number of its types, its types in the order of their numbers, and its
/// statements. And the types that are trusted, and the format of the answer.
#[derive(Drop)]
pub(crate) struct ReadPolicy<'t, 'a, P> {
    pub policy: &'t P,
    pub count: u16,
    pub members: &'t [Member<'a>],
    pub statements: &'t [LinedStatement<'a>],
    pub trusted: &'t [TypeId],
    pub format: FlowFormat,
}

// Before a line of a path.
const INDENT: LinePart = LinePart::Mark("  ", "");

// Before the first type.
const BEGIN: LinePart = LinePart::Mark("", "{\"source\":");

// Between the two types.
const ARROW: LinePart = LinePart::Mark(" -> ", ",\"target\":");

// After the second type.
const GAP: LinePart = LinePart::Mark("  ", ",");

// Before a permission.
const PERMISSION: LinePart = LinePart::Mark("", "{\"perm\":\"");

// Between a permission and the line of its statement.
const GRANTED: LinePart = LinePart::Mark(" (line ", "\",\"line\":");

// After the line of a statement.
const CLOSE: LinePart = LinePart::Mark(")", "}");

// After the last permission.
const NO_MORE: LinePart = LinePart::Mark("", "]");

// At the end of a line.
const END: LinePart = LinePart::Mark("\n", "}\n");

/// The line of a pair without a path.
pub(crate) static NO_PATH: [LinePart; 6] = [
    BEGIN,
    LinePart::Source,
    ARROW,
    LinePart::Target,
    GAP,
    LinePart::Mark("none\n", "\"accesses\":null}\n"),
];

/// The line of a pair with a path.
pub(crate) static PATH: [LinePart; 8] = [
    BEGIN,
    LinePart::Source,
    ARROW,
    LinePart::Target,
    GAP,
    LinePart::Mark("", "\"accesses\":"),
    LinePart::Accesses,
    END,
];

// The line of a load.
static LOAD: [LinePart; 14] = [
    INDENT,
    BEGIN,
    LinePart::Source,
    ARROW,
    LinePart::Target,
    GAP,
    LinePart::Mark("", "\"access\":\"load\",\"perms\":["),
    PERMISSION,
    LinePart::Word("map_read"),
    GRANTED,
    LinePart::GrantBack("map_read"),
    CLOSE,
    NO_MORE,
    END,
];

// The line of a copy.
static COPY: [LinePart; 14] = [
    INDENT,
    BEGIN,
    LinePart::Source,
    ARROW,
    LinePart::Target,
    GAP,
    LinePart::Mark("", "\"access\":\"copy\",\"perms\":["),
    PERMISSION,
    LinePart::Word("copy"),
    GRANTED,
    LinePart::Grant("copy"),
    CLOSE,
    NO_MORE,
    END,
];

// The line of a store.
static STORE: [LinePart; 20] = [
    INDENT,
    BEGIN,
    LinePart::Source,
    ARROW,
    LinePart::Target,
    GAP,
    LinePart::Mark("", "\"access\":\"store\",\"perms\":["),
    PERMISSION,
    LinePart::Word("map_read"),
    GRANTED,
    LinePart::Grant("map_read"),
    CLOSE,
    LinePart::Mark(", ", ","),
    PERMISSION,
    LinePart::Word("map_write"),
    GRANTED,
    LinePart::Grant("map_write"),
    CLOSE,
    NO_MORE,
    END,
];

// The line of two types without an access.
static NO_ACCESS: [LinePart; 7] = [
    INDENT,
    BEGIN,
    LinePart::Source,
    ARROW,
    LinePart::Target,
    GAP,
    END,
];

// Appends a line of a path.
fn push_step<P: Allows>(out: &mut FlowText, read: &ReadPolicy<'_, '_, P>, x: TypeId, y: TypeId)
    ensures { TextGrows out.old out.new (path_line_text read.now.format (P.may read.now.policy.now)
        (is_among read.now.trusted.now) read.now.statements.now read.now.members.now x y) }
{
    let line = FlowLine {
        format: read.format,
        members: read.members,
        statements: read.statements,
        source: x,
        target: y,
        accesses: 1,
    };
    match access_between(read.policy, is_among(read.trusted, x), x, y) {
        Some(Access::Load) => push_parts(out, &line, &LOAD),
        Some(Access::Copy) => push_parts(out, &line, &COPY),
        Some(Access::Store) => push_parts(out, &line, &STORE),
        None => push_parts(out, &line, &NO_ACCESS),
    }
}

/// Appends the lines of a path from a type: one for each access, with what it asks for and the lines of the statements
/// that grant that.
pub(crate) fn push_path<P: Allows>(
    out: &mut FlowText,
    read: &ReadPolicy<'_, '_, P>,
    from: TypeId,
    path: &[TypeId],
)
    ensures { TextGrows out.old out.new (path_text read.now.format (P.may read.now.policy.now)
        (is_among read.now.trusted.now) read.now.statements.now read.now.members.now from path.now) }
{
    match path {
        [] => {}
        [next, rest @ ..] => {
            push_step(out, read, from, *next);
            push_path(out, read, *next, rest);
        }
    }
}
