//! Expressions: from a text to operations.
ghost use Rattle.std.specs.Prelude.{◌≡◌, ◌++◌, ◌+◌, ◌<◌, ◌≤◌, ◌^◌, OnOk, filter, length, map, slice_get};
ghost use Rattle.std.specs.List.{slice_split};
ghost use Rattle.std.specs.Prelude.{[], ◌∷◌, false, if◌then◌else◌, IfErr, IfOk, Ok};
ghost use Rattle.gt_explore_verdict.specs.Expressions.{condition_asked, is_excluded, words_in};
ghost use Rattle.gt_explore_verdict.specs.Reading.{is_shut_out, joined_outside, with_bracket};
ghost use Rattle.gt_explore_verdict.specs.Formulas.{operation_asked};
ghost use Rattle.gt_explore_verdict.specs.Reading.{chosen, closed_in, end_read, infix_read, is_sign, level_asked};
ghost use Rattle.gt_explore_verdict.specs.Reading.{level_begun, mark_read, nothing_read, op_if, opened};
ghost use Rattle.gt_explore_verdict.specs.Reading.{operations_in, ops_ended, part_read, parts_read, prefix_read};
ghost use Rattle.gt_explore_verdict.specs.Reading.{reader_asked, segment_read, term_read, with_condition};
ghost use Rattle.gt_explore_verdict.specs.Reading.{with_operand, IsFaultOfTerms};

use crate::conditions::{Condition, copied, is_excluded, read_term, words_in};
use crate::fault::{ConditionFault, ExpressionFault};
use crate::operations::Operation;
use std::alloc::{AllocError, Global};
use std::collections::VecDeque;
use std::mem;

// What was read since the last bracket that is open.
#[derive(Drop)]
struct Level<'e> {
    // A disjunction was read, and a `|` after it.
    has_any: bool,
    // An operand of the last conjunction was read.
    has_all: bool,
    // An operand comes next.
    wants: bool,
    // It comes after an odd number of `!`.
    negated: bool,
    // The terms that must hold with the last conjunction.
    joined: Vec<Condition<'e>>,
}

// What was read of an expression: its operations, the level inside the last bracket that is open, those outside it, the
// innermost first, and the number of terms.
#[derive(Drop)]
struct Reader<'e> {
    alloc: Global,
    operations: Vec<Operation<'e>>,
    now: Level<'e>,
    outer: VecDeque<Level<'e>>,
    terms: usize,
}

// Makes a level at its beginning, or after a `|`.
fn level_begun<'e>(alloc: Global, after_or: bool) -> Level<'e>
    ensures { level_asked result ≡ level_begun after_or }
{
    Level {
        has_any: after_or,
        has_all: false,
        wants: true,
        negated: false,
        joined: Vec::new(alloc),
    }
}

// Appends an operation, if it is wanted.
fn push_if<'e>(
    operations: &mut Vec<Operation<'e>>,
    wanted: bool,
    operation: Operation<'e>,
) -> Result<(), AllocError>
    ensures { OnOk result (map operation_asked operations.new.items
        ≡ map operation_asked operations.old.items ++ op_if wanted (operation_asked operation.entry)) }
{
    if wanted {
        operations.push(operation)?;
    }
    Ok(())
}

// Appends a condition to those of a conjunction, if it is one of them.
fn join<'e>(
    alloc: Global,
    joined: &mut Vec<Condition<'e>>,
    negated: bool,
    condition: &Condition<'e>,
) -> Result<(), AllocError>
    ensures { OnOk result (map condition_asked joined.new.items
        ≡ (if negated then map condition_asked joined.old.items
        else map condition_asked joined.old.items ++ condition_asked condition.now ∷ [])) }
{
    if !negated {
        joined.push(copied(alloc, condition)?)?;
    }
    Ok(())
}

// Returns whether a condition outside of the last open bracket that must hold with those in it excludes this one.
fn is_excluded_outside(outer: &VecDeque<Level<'_>>, condition: &Condition<'_>) -> bool
    ensures { result ≡ is_excluded (joined_outside (map level_asked outer.now.items)) (condition_asked condition.now) }
{
    'levels: for level in outer {
        if level.negated {
            return false;
        }
        if is_excluded(level.joined.as_slice(), condition) {
            return true;
        }
    }
    false
}

// Returns whether an earlier condition that must hold with this one excludes it.
fn is_shut_out(reader: &Reader<'_>, condition: &Condition<'_>) -> bool
    ensures { result ≡ is_shut_out (reader_asked reader.entry.now) (condition_asked condition.now) }
{
    if reader.now.negated {
        return false;
    }
    is_excluded(reader.now.joined.as_slice(), condition)
        || is_excluded_outside(&reader.outer, condition)
}

// Ends an operand: appends the operations of the `!` and the `&` before it.
fn end_operand(reader: &mut Reader<'_>) -> Result<(), AllocError>
    ensures none { OnOk result (reader.new.terms ≡ reader.old.terms) }
    ensures ended { OnOk result (reader_asked reader.new ≡ with_operand (reader_asked reader.old)) }
{
    let negated = reader.now.negated;
    let has_all = reader.now.has_all;
    push_if(&mut reader.operations, negated, Operation::Not)?;
    push_if(&mut reader.operations, has_all, Operation::And)?;
    reader.now.has_all = true;
    reader.now.wants = false;
    reader.now.negated = false;
    Ok(())
}

// Adds a condition that was read.
fn add_condition<'e>(reader: &mut Reader<'e>, condition: Condition<'e>) -> Result<(), AllocError>
    requires { reader.old.terms + 1 < 2 ^ 64 }
    ensures one { OnOk result (reader.new.terms ≡ reader.old.terms + 1) }
    ensures added { OnOk result (reader_asked reader.new
        ≡ with_condition (reader_asked reader.old) (condition_asked condition.entry)) }
{
    let alloc = reader.alloc;
    let negated = reader.now.negated;
    join(alloc, &mut reader.now.joined, negated, &condition)?;
    reader.operations.push(Operation::Term(condition))?;
    reader.terms += 1;
    end_operand(reader)
}

// Reads the words of a term.
fn read_words<'e>(reader: &mut Reader<'e>, words: Vec<&'e [u8]>) -> Result<(), ExpressionFault>
    requires { reader.old.terms + 1 < 2 ^ 64 }
    ensures ok { OnOk result (term_read (reader_asked reader.old) (map (λ w. w.now) words.entry.items)
        ≡ Ok (reader_asked reader.new)) }
    ensures fault { IfErr result (IsFaultOfTerms
        (term_read (reader_asked reader.old) (map (λ w. w.now) words.entry.items))) }
    ensures one { OnOk result (reader.new.terms ≡ reader.old.terms + 1) }
{
    let number = reader.terms + 1;
    if !reader.now.wants {
        let fault = ConditionFault::Unjoined;
        return Err(ExpressionFault::Term { number, fault });
    }
    let condition = match read_term(words) {
        Ok(condition) => condition,
        Err(fault) => return Err(ExpressionFault::Term { number, fault }),
    };
    if is_shut_out(reader, &condition) {
        let fault = ConditionFault::Excluded;
        return Err(ExpressionFault::Term { number, fault });
    }
    add_condition(reader, condition)?;
    Ok(())
}

// Ends a conjunction: appends the operation of the `|` before it.
fn end_conjunction(reader: &mut Reader<'_>) -> Result<(), AllocError>
    ensures none { OnOk result (reader.new.terms ≡ reader.old.terms) }
    ensures ended { OnOk result (reader_asked reader.new
        ≡ record (reader_asked reader.old) { ops = ops_ended (reader_asked reader.old) }) }
{
    let has_any = reader.now.has_any;
    push_if(&mut reader.operations, has_any, Operation::Or)
}

// Opens a bracket.
fn open(reader: &mut Reader<'_>) -> Result<(), AllocError>
    ensures opened { OnOk result (reader_asked reader.new ≡ opened (reader_asked reader.old)) }
    ensures none { OnOk result (reader.new.terms ≡ reader.old.terms) }
{
    let level = level_begun(reader.alloc, false);
    let outside = mem::replace(&mut reader.now, level);
    reader.outer.push_front(outside)?;
    Ok(())
}

// Begins a conjunction after a `|`.
fn choose(reader: &mut Reader<'_>) -> Result<(), AllocError>
    ensures chosen { OnOk result (reader_asked reader.new ≡ chosen (reader_asked reader.old)) }
    ensures none { OnOk result (reader.new.terms ≡ reader.old.terms) }
{
    end_conjunction(reader)?;
    reader.now = level_begun(reader.alloc, true);
    Ok(())
}

// Joins the conditions of a bracket that is closed with those of the level outside of it.
fn join_bracket<'e>(level: &mut Level<'e>, inner: Level<'e>) -> Result<(), AllocError>
    ensures { OnOk result (level_asked level.new ≡ with_bracket (level_asked level.old) (level_asked inner.entry)) }
{
    if level.negated || inner.has_any {
        return Ok(());
    }
    level.joined.extend(inner.joined)
}

// Closes a bracket.
fn close(reader: &mut Reader<'_>) -> Result<(), ExpressionFault>
    ensures ok { OnOk result (closed_in (reader_asked reader.old) (reader_asked reader.old).outer
        ≡ Ok (reader_asked reader.new)) }
    ensures fault { IfErr result (IsFaultOfTerms
        (closed_in (reader_asked reader.old) (reader_asked reader.old).outer)) }
    ensures none { OnOk result (reader.new.terms ≡ reader.old.terms) }
{
    let Some(level) = reader.outer.pop_front() else {
        let fault = ConditionFault::Unopened;
        let number = reader.terms;
        return Err(ExpressionFault::Term { number, fault });
    };
    end_conjunction(reader)?;
    let inner = mem::replace(&mut reader.now, level);
    join_bracket(&mut reader.now, inner)?;
    end_operand(reader)?;
    Ok(())
}

// Reads a `!` or a `(`.
fn read_prefix(reader: &mut Reader<'_>, is_open: bool) -> Result<(), ExpressionFault>
    requires { reader.old.terms + 1 < 2 ^ 64 }
    ensures ok { OnOk result (prefix_read (reader_asked reader.old) is_open ≡ Ok (reader_asked reader.new)) }
    ensures fault { IfErr result (IsFaultOfTerms (prefix_read (reader_asked reader.old) is_open)) }
    ensures none { OnOk result (reader.new.terms ≡ reader.old.terms) }
{
    if !reader.now.wants {
        let fault = ConditionFault::Unjoined;
        let number = reader.terms + 1;
        return Err(ExpressionFault::Term { number, fault });
    }
    if is_open {
        open(reader)?;
        return Ok(());
    }
    reader.now.negated = !reader.now.negated;
    Ok(())
}

// Reads a `&`, a `|` or a `)` that comes after an operand.
fn read_infix(reader: &mut Reader<'_>, mark: u8) -> Result<(), ExpressionFault>
    ensures ok { OnOk result (infix_read (reader_asked reader.old) mark ≡ Ok (reader_asked reader.new)) }
    ensures fault { IfErr result (IsFaultOfTerms (infix_read (reader_asked reader.old) mark)) }
    ensures none { OnOk result (reader.new.terms ≡ reader.old.terms) }
{
    if mark == b'&' {
        reader.now.wants = true;
        return Ok(());
    }
    if mark == b'|' {
        choose(reader)?;
        return Ok(());
    }
    close(reader)
}

// Reads a mark.
fn read_mark(reader: &mut Reader<'_>, mark: u8) -> Result<(), ExpressionFault>
    requires { reader.old.terms + 1 < 2 ^ 64 }
    ensures ok { OnOk result (mark_read (reader_asked reader.old) mark ≡ Ok (reader_asked reader.new)) }
    ensures fault { IfErr result (IsFaultOfTerms (mark_read (reader_asked reader.old) mark)) }
    ensures none { OnOk result (reader.new.terms ≡ reader.old.terms) }
{
    if mark == b'!' {
        return read_prefix(reader, false);
    }
    if mark == b'(' {
        return read_prefix(reader, true);
    }
    if reader.now.wants {
        let fault = ConditionFault::Empty;
        let number = reader.terms + 1;
        return Err(ExpressionFault::Term { number, fault });
    }
    read_infix(reader, mark)
}

// Reads what is between two marks: a term, if there are words.
fn read_segment<'e>(reader: &mut Reader<'e>, segment: &'e [u8]) -> Result<(), ExpressionFault>
    requires { reader.old.terms + 1 < 2 ^ 64 }
    ensures ok { OnOk result (segment_read (reader_asked reader.old) (words_in segment.entry.now)
        ≡ Ok (reader_asked reader.new)) }
    ensures fault { IfErr result (IsFaultOfTerms
        (segment_read (reader_asked reader.old) (words_in segment.entry.now))) }
    ensures one { OnOk result (reader.new.terms ≤ reader.old.terms + 1) }
{
    let words = words_in(reader.alloc, segment)?;
    if words.is_empty() {
        return Ok(());
    }
    read_words(reader, words)
}

// Reads what is before a mark, and the mark, if there is one.
fn read_part<'e>(
    reader: &mut Reader<'e>,
    segment: &'e [u8],
    mark: Option<u8>,
) -> Result<(), ExpressionFault>
    requires { reader.old.terms + 2 < 2 ^ 64 }
    ensures ok { OnOk result (part_read (reader_asked reader.old) (words_in segment.entry.now) mark
        ≡ Ok (reader_asked reader.new)) }
    ensures fault { IfErr result (IsFaultOfTerms
        (part_read (reader_asked reader.old) (words_in segment.entry.now) mark)) }
    ensures one { OnOk result (reader.new.terms ≤ reader.old.terms + 1) }
{
    read_segment(reader, segment)?;
    match mark {
        Some(mark) => read_mark(reader, mark),
        None => Ok(()),
    }
}

// Returns the mark at this index.
fn mark_at(marks: &[u8], at: usize) -> Option<u8>
    ensures { result ≡ slice_get marks.now at }
{
    marks.get(at).copied()
}

// Reads all parts of an expression.
fn read_parts<'e>(
    reader: &mut Reader<'e>,
    segments: &[&'e [u8]],
    marks: &[u8],
) -> Result<(), ExpressionFault>
    requires { reader.old.terms ≡ 0 }
    ensures ok { OnOk result (parts_read (Ok (reader_asked reader.old)) (map (λ s. s.now) segments.now) marks.now
        ≡ Ok (reader_asked reader.new)) }
    ensures fault { IfErr result (IsFaultOfTerms
        (parts_read (Ok (reader_asked reader.old)) (map (λ s. s.now) segments.now) marks.now)) }
    ensures many { OnOk result (reader.new.terms ≤ length segments.now) }
{
    let mut at = 0;
    'segments: for segment in segments {
        read_part(reader, segment, mark_at(marks, at))?;
        at += 1;
    }
    Ok(())
}

// Returns whether a byte is a mark.
fn is_sign(byte: u8) -> bool
    ensures { result ≡ is_sign byte }
{
    byte == b'!' || byte == b'&' || byte == b'(' || byte == b')' || byte == b'|'
}

// Splits an expression at its marks.
fn segments_in<'e>(alloc: Global, text: &'e [u8]) -> Result<Vec<&'e [u8]>, AllocError>
    ensures { IfOk result (λ segments. map (λ s. s.now) segments.items ≡ slice_split is_sign text.entry.now) }
{
    text.split(|byte| is_sign(*byte)).collect(alloc)
}

// Returns the marks of an expression.
fn marks_in(alloc: Global, text: &[u8]) -> Result<Vec<u8>, AllocError>
    ensures { IfOk result (λ marks. marks.items ≡ filter is_sign text.now) }
{
    text.iter()
        .copied()
        .filter(|byte| is_sign(*byte))
        .collect(alloc)
}

// Ends an expression.
fn end_expression<'e>(mut reader: Reader<'e>) -> Result<Vec<Operation<'e>>, ExpressionFault>
    requires { reader.terms + 1 < 2 ^ 64 }
    ensures ok { IfOk result (λ ops. end_read (Ok (reader_asked reader.entry)) ≡ Ok (map operation_asked ops.items)) }
    ensures fault { IfErr result (IsFaultOfTerms (end_read (Ok (reader_asked reader.entry)))) }
{
    if reader.now.wants {
        let fault = ConditionFault::Empty;
        let number = reader.terms + 1;
        return Err(ExpressionFault::Term { number, fault });
    }
    if !reader.outer.is_empty() {
        let fault = ConditionFault::Unclosed;
        let number = reader.terms;
        return Err(ExpressionFault::Term { number, fault });
    }
    end_conjunction(&mut reader)?;
    Ok(reader.operations)
}

// Makes a reader that has read nothing.
fn nothing_read<'e>(alloc: Global) -> Reader<'e>
    ensures nothing { reader_asked result ≡ nothing_read }
    ensures none { result.terms ≡ 0 }
{
    Reader {
        alloc,
        operations: Vec::new(alloc),
        now: level_begun(alloc, false),
        outer: VecDeque::new(alloc),
        terms: 0,
    }
}

/// Reads an expression: terms, `!` before what is denied, `&` between what must hold together, `|` between what may
/// hold instead, and brackets; `!` binds more tightly than `&`, and `&` than `|`. A term is a word, for an answer that
/// has it; `LINE=ANSWER`, for an answer to this line of the script that begins with these words; or `ID:ANSWER`, for an
/// answer of this domain that does. A term that no answer can meet is refused, also after a `!`. So is a term without a
/// `!` if no answer meets both it and an earlier term on its line that must hold with it: one that only `&` joins with
/// it, also through brackets without a `!` before them.
///
/// # Errors
/// The first fault, with the number of its term, and `Memory`.
pub fn operations_of<'e>(
    alloc: Global,
    text: &'e str,
) -> Result<Vec<Operation<'e>>, ExpressionFault>
    ensures ok { IfOk result (λ ops. operations_in text.entry.now ≡ Ok (map operation_asked ops.items)) }
    ensures fault { IfErr result (IsFaultOfTerms (operations_in text.entry.now)) }
{
    let segments = segments_in(alloc, text.as_bytes())?;
    let marks = marks_in(alloc, text.as_bytes())?;
    let mut reader = nothing_read(alloc);
    read_parts(&mut reader, segments.as_slice(), marks.as_slice())?;
    end_expression(reader)
}
