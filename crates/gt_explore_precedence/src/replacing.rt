//! Expressions with other terms in place of terms of order.
ghost use Rattle.std.specs.Prelude.{◌≡◌, ◌++◌, [], IfOk, OnOk};
ghost use Rattle.gt_explore_precedence.specs.Replacing.{is_join, order_count, replaced_from, term_in_place};
ghost use Rattle.gt_explore_precedence.specs.Replacing.{term_of_truth};

use crate::terms::has_precedence;
use std::alloc::{AllocError, Global};

/// Returns whether a byte joins terms: `&`, `|`, `!`, `(` or `)`.
pub fn is_join(byte: u8) -> bool
    ensures { result ≡ is_join byte }
{
    byte == b'&' || byte == b'|' || byte == b'!' || byte == b'(' || byte == b')'
}

// Returns 1 for a term of order, and otherwise 0.
fn order_count(term: &[u8]) -> usize
    ensures { result ≡ order_count term.now }
{
    if has_precedence(term) { 1 } else { 0 }
}

// Returns a term that is always met, or one that never is. Without a truth it is one that some texts meet.
fn term_of_truth(truth: Option<bool>) -> &'static [u8]
    ensures { result.now ≡ term_of_truth truth }
{
    match truth {
        Some(true) => b"(ok|!ok)",
        Some(false) => b"(ok&!ok)",
        None => b"ok",
    }
}

// Appends a term, or another in its place if it is one of order.
fn push_term(out: &mut Vec<u8>, term: &[u8], truth: Option<bool>) -> Result<(), AllocError>
    ensures { OnOk result (out.new.items ≡ out.old.items ++ term_in_place truth term.now) }
{
    if has_precedence(term) {
        out.extend_from_slice(term_of_truth(truth))
    } else {
        out.extend_from_slice(term)
    }
}

// An expression that is being read: what was made of it, the term that was read last, and the number of terms of order
// before that.
#[derive(Drop)]
struct Replacing {
    out: Vec<u8>,
    term: Vec<u8>,
    orders: usize,
}

impl Replacing {
    ghost use Rattle.std.specs.Prelude.{◌≡◌, ◌++◌, ◌∷◌, List, ℕ, OnOk, slice_get};
    ghost use Rattle.gt_explore_precedence.specs.Read.{read_so_far};
    ghost use Rattle.gt_explore_precedence.specs.Replacing.{term_in_place};

    // Ends the term that was read last.
    fn end_term(&mut self, held: &[bool]) -> Result<(), AllocError>
        ensures out { OnOk result (self.new.out.items ≡ self.old.out.items
            ++ term_in_place (slice_get held.now self.old.orders) self.old.term.items) }
        ensures term { self.new.term ≡ self.old.term }
        ensures orders { self.new.orders ≡ self.old.orders }
    {
        push_term(
            &mut self.out,
            self.term.as_slice(),
            held.get(self.orders).copied(),
        )
    }

    // Reads a byte.
    fn read(&mut self, held: &[bool], byte: u8) -> Result<(), AllocError>
        ensures { OnOk result ((more : List ℕ) →
            read_so_far held.now self.new more ≡ read_so_far held.now self.old (byte ∷ more)) }
    {
        if !is_join(byte) {
            self.term.push(byte)?;
            return Ok(());
        }
        self.end_term(held)?;
        let count = order_count(self.term.as_slice());
        let Some(orders) = self.orders.checked_add(count) else {
            return Err(AllocError);
        };
        self.orders = orders;
        self.term.clear();
        self.out.push(byte)?;
        Ok(())
    }
}

/// Returns an expression with other terms in place of its terms of order. In place of one that holds is a term that each
/// text meets, in place of one that does not hold a term that no text meets. `held` has for each term of order whether
/// it holds, in their order. In place of one after these is a term that some texts meet.
pub fn replaced(alloc: Global, expression: &[u8], held: &[bool]) -> Result<Vec<u8>, AllocError>
    ensures { IfOk result (λ out. out.items
        ≡ replaced_from held.now 0 [] expression.now) }
{
    let mut reading = Replacing {
        out: Vec::new(alloc),
        term: Vec::new(alloc),
        orders: 0,
    };
    'bytes: for byte in expression {
        reading.read(held, *byte)?;
    }
    reading.end_term(held)?;
    Ok(reading.out)
}
