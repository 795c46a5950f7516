//! Sequence diagrams of mermaid.
ghost use Rattle.std.specs.Prelude.{◌≡◌, ◌++◌, OnOk};
ghost use Rattle.std.specs.List.{flat_map, list_any};
ghost use Rattle.gt_explore_trace.specs.Diagram.{arrow_text, message_text, diagram_note, one_participant, owner_of};
ghost use Rattle.gt_explore_trace.specs.Diagram.{participant_kind, participant_name};
ghost use Rattle.gt_explore_trace.specs.Diagram.{participant_text, participants_text, table_text, touches_table};

use crate::moves::TracedMove;
use gt_core::Step;
use gt_explore_replay::Moved;
use gt_text::{push_number, push_text};
use gt_types::{DomId, DomainConfig};
use std::alloc::AllocError;

// Returns the domain whose table or frame a step of this domain touches; for a copy, the one whose frame it writes.
fn owner_of(dom: DomId, step: Step) -> DomId
    ensures { result ≡ owner_of dom step }
{
    match step {
        Step::LookHeader { dom: owner } => owner,
        Step::LookControl { dom: owner, .. } | Step::LookBody { dom: owner, .. } => owner,
        Step::Pin { held } | Step::Unpin { held, .. } => held.dom,
        Step::StoreBody { .. } | Step::Exchange { .. } | Step::StoreHeader { .. } => dom,
        Step::Read { dom: owner, .. } | Step::Write { dom: owner, .. } => owner,
        Step::Copy { to, .. } => to.frame.owner,
    }
}

/// Appends the beginning of a note over a domain.
#[tactic(auto, unfolding(crate::specs::Diagram::diagram_note))]
pub fn push_note(out: &mut Vec<u8>, dom: DomId) -> Result<(), AllocError>
    ensures { OnOk result (out.new.items ≡ out.old.items ++ diagram_note dom) }
{
    push_text(out, "    Note over D")?;
    push_number(out, dom.0)?;
    push_text(out, ": ")
}

// Appends the beginning of a message of a domain to the table of another.
#[tactic(auto, unfolding(crate::specs::Diagram::message_text))]
fn push_message(out: &mut Vec<u8>, dom: DomId, owner: DomId) -> Result<(), AllocError>
    ensures { OnOk result (out.new.items ≡ out.old.items ++ message_text dom owner) }
{
    push_text(out, "    D")?;
    push_number(out, dom.0)?;
    push_text(out, "->>T")?;
    push_number(out, owner.0)?;
    push_text(out, ": ")
}

/// Appends what is before the words of a move.
pub fn push_arrow(out: &mut Vec<u8>, dom: DomId, moved: &Moved) -> Result<(), AllocError>
    ensures { OnOk result (out.new.items ≡ out.old.items ++ arrow_text dom moved.now) }
{
    match moved {
        Moved::Raised | Moved::Passed | Moved::Began(_) => push_note(out, dom),
        Moved::Stepped(step, _, _) => push_message(out, dom, owner_of(dom, *step)),
    }
}

// Appends the name of the participant of this letter and this domain.
#[tactic(auto, unfolding(crate::specs::Diagram::participant_name))]
fn push_name(out: &mut Vec<u8>, letter: &str, dom: DomId) -> Result<(), AllocError>
    ensures { OnOk result (out.new.items ≡ out.old.items ++ participant_name letter.now dom) }
{
    push_text(out, "    participant ")?;
    push_text(out, letter)?;
    push_number(out, dom.0)
}

// Appends the kind of a participant, and the number of its domain.
#[tactic(auto, unfolding(crate::specs::Diagram::participant_kind))]
fn push_kind(out: &mut Vec<u8>, kind: &str, dom: DomId) -> Result<(), AllocError>
    ensures { OnOk result (out.new.items ≡ out.old.items ++ participant_kind kind.now dom) }
{
    push_text(out, " as ")?;
    push_text(out, kind)?;
    push_text(out, " ")?;
    push_number(out, dom.0)?;
    push_text(out, "\n")
}

// Appends the participant of this letter and this domain, with its kind.
#[tactic(auto, unfolding(crate::specs::Diagram::one_participant))]
fn push_one(out: &mut Vec<u8>, letter: &str, kind: &str, dom: DomId) -> Result<(), AllocError>
    ensures { OnOk result (out.new.items ≡ out.old.items ++ one_participant letter.now kind.now dom) }
{
    push_name(out, letter, dom)?;
    push_kind(out, kind, dom)
}

// Returns whether a move touches the table of this domain, or a frame of it.
fn touches_table(owner: DomId, traced: &TracedMove) -> bool
    ensures { result ≡ touches_table owner traced.now }
{
    match &traced.moved {
        Moved::Raised | Moved::Passed | Moved::Began(_) => false,
        Moved::Stepped(step, _, _) => owner_of(traced.dom, *step).0 == owner.0,
    }
}

// Returns whether one of these moves does.
fn is_touched(owner: DomId, moves: &[TracedMove]) -> bool
    ensures { result ≡ list_any (touches_table owner) moves.now }
{
    'moves: for traced in moves {
        if touches_table(owner, traced) {
            return true;
        }
    }
    false
}

// Appends the table of a domain as a participant, if it is touched.
fn push_table(out: &mut Vec<u8>, is_touched: bool, dom: DomId) -> Result<(), AllocError>
    ensures { OnOk result (out.new.items ≡ out.old.items ++ table_text is_touched dom) }
{
    if is_touched {
        push_one(out, "T", "table", dom)
    } else {
        Ok(())
    }
}

// Appends a domain as a participant, and its table if one of these moves touches it.
#[tactic(auto, unfolding(crate::specs::Diagram::participant_text))]
fn push_participant(
    out: &mut Vec<u8>,
    domain: &DomainConfig,
    moves: &[TracedMove],
) -> Result<(), AllocError>
    ensures { OnOk result (out.new.items ≡ out.old.items ++ participant_text moves.now domain.now) }
{
    push_one(out, "D", "domain", domain.id)?;
    push_table(out, is_touched(domain.id, moves), domain.id)
}

/// Appends the participants of a diagram of these moves: each domain, and each table that one of them touches. After an
/// Err, part of them may have been appended.
pub fn push_participants(
    out: &mut Vec<u8>,
    domains: &[DomainConfig],
    moves: &[TracedMove],
) -> Result<(), AllocError>
    ensures { OnOk result (out.new.items ≡ out.old.items ++ participants_text moves.now domains.now) }
{
    'domains: for domain in domains {
        push_participant(out, domain, moves)?;
    }
    Ok(())
}
