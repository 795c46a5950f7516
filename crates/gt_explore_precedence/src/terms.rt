//! The parts of an expression between its `&`: terms of order, and the others.
ghost use Rattle.std.specs.Prelude.{◌≡◌, ◌++◌, ◌+◌, IfOk, IfSome, OnOk, map};
ghost use Rattle.std.specs.List.{list_any, slice_split};
ghost use Rattle.gt_explore_precedence.specs.Terms.{has_other_mark, has_precedence, is_and, is_less, is_other_mark};
ghost use Rattle.gt_explore_precedence.specs.Terms.{orders_before, plain_part, rest_of};

use std::alloc::{AllocError, Global};

// What follows the last part of the rest: terms that hold of each text, so that there is a rest if all parts are orders.
const ALWAYS: &[u8] = b"(ok|!ok)";

/// Returns whether a byte is the `<` of a term of order.
pub fn is_less(byte: u8) -> bool
    ensures { result ≡ is_less byte }
{
    byte == b'<'
}

fn is_and(byte: u8) -> bool
    ensures { result ≡ is_and byte }
{
    byte == b'&'
}

// Returns whether a byte joins terms in another way than `&`.
fn is_other_mark(byte: u8) -> bool
    ensures { result ≡ is_other_mark byte }
{
    byte == b'|' || byte == b'(' || byte == b')'
}

/// Returns whether an expression, or a part of one, has a term of order.
pub fn has_precedence(text: &[u8]) -> bool
    ensures { result ≡ has_precedence text.now }
{
    text.iter().any(|b| is_less(*b))
}

/// Returns whether an expression has `|` or a bracket.
pub fn has_other_mark(expression: &[u8]) -> bool
    ensures { result ≡ has_other_mark expression.now }
{
    expression.iter().any(|b| is_other_mark(*b))
}

/// Splits an expression at its `&`.
pub fn parts_in<'e>(alloc: Global, expression: &'e [u8]) -> Result<Vec<&'e [u8]>, AllocError>
    ensures { IfOk result (λ parts. map (λ part. part.now) parts.items ≡ slice_split is_and expression.entry.now) }
{
    expression.split(|b| is_and(*b)).collect(alloc)
}

// Appends a part and a `&`, unless it is a term of order.
fn push_plain(out: &mut Vec<u8>, part: &[u8]) -> Result<(), AllocError>
    ensures { OnOk result (out.new.items ≡ out.old.items ++ plain_part part.now) }
{
    if has_precedence(part) {
        return Ok(());
    }
    out.extend_from_slice(part)?;
    out.push(b'&')?;
    Ok(())
}

/// Returns an expression without its terms of order.
pub fn rest_of(alloc: Global, parts: &[&[u8]]) -> Result<Vec<u8>, AllocError>
    ensures { IfOk result (λ out. out.items ≡ rest_of (map (λ part. part.now) parts.now)) }
{
    let mut out = Vec::new(alloc);
    'parts: for part in parts {
        push_plain(&mut out, part)?;
    }
    out.extend_from_slice(ALWAYS)?;
    Ok(out)
}

/// Returns the number that a term of the rest has in the whole expression.
pub fn number_among(parts: &[&[u8]], number: usize) -> Option<usize>
    ensures { IfSome result (λ n. n ≡ number + orders_before (map (λ part. part.now) parts.now) number) }
{
    let mut orders = 0;
    let mut left = number;
    'parts: for part in parts {
        if has_precedence(part) {
            orders += 1;
        } else if left <= 1 {
            return number.checked_add(orders);
        } else {
            left -= 1;
        }
    }
    number.checked_add(orders)
}
