//! What steps see, over plain lists.
ghost use Rattle.std.specs.Prelude.{◌≡◌};
ghost use Rattle.gt_core.specs.Sight.{reads_in, writes_in, control_in, body_in, control_seen, header_seen, body_seen};
ghost use Rattle.gt_core.specs.Sight.{exchange_sees, sees};
ghost use Rattle.gt_core.specs.States.{IsPlaced};

use crate::pin_counts::PinCounts;
use crate::state::{DomainState, find};
use gt_calls::{BodyWord, Observation, OwnerEntry, Step, own_at};
use gt_entry::Control;
use gt_roster::Roster;
use gt_types::{DomId, GrantRef};

fn slot_at(slots: &[PinCounts], gref: GrantRef) -> PinCounts
    ensures reads { result.reads ≡ reads_in slots.now gref.0 }
    ensures writes { result.writes ≡ writes_in slots.now gref.0 }
    ensures first { result.first ≡ body_in slots.now gref.0 BodyWord.First }
    ensures second { result.second ≡ body_in slots.now gref.0 BodyWord.Second }
{
    let at = gref.0 as usize;
    if at < slots.len() {
        slots[at]
    } else {
        PinCounts::new()
    }
}

fn control_word(own: &[OwnerEntry], slots: &[PinCounts], gref: GrantRef) -> u64
    ensures { result ≡ control_in own.now slots.now gref.0 }
{
    let row = own_at(own, 0, gref);
    let slot = slot_at(slots, gref);
    Control::of_entry(row.entry(), row.generation(), slot.reads, slot.writes).pack()
}

fn look_header(config: &Roster, domains: &[DomainState], dom: DomId) -> u64
    requires { IsPlaced config.now.domains.items domains.now }
    ensures { result ≡ header_seen domains.now dom.0 }
{
    match find(config, domains, dom) {
        Some(at) => {
            let domain = &domains[at];
            domain.header.pack()
        }
        None => 0,
    }
}

fn look_control(config: &Roster, domains: &[DomainState], dom: DomId, gref: GrantRef) -> u64
    requires { IsPlaced config.now.domains.items domains.now }
    ensures { result ≡ control_seen domains.now dom.0 gref.0 }
{
    match find(config, domains, dom) {
        Some(at) => {
            let domain = &domains[at];
            control_word(&domain.own, &domain.slots, gref)
        }
        None => 0,
    }
}

fn look_body(
    config: &Roster,
    domains: &[DomainState],
    dom: DomId,
    gref: GrantRef,
    body_word: BodyWord,
) -> u64
    requires { IsPlaced config.now.domains.items domains.now }
    ensures { result ≡ body_seen domains.now dom.0 gref.0 body_word }
{
    match find(config, domains, dom) {
        Some(at) => {
            let domain = &domains[at];
            slot_at(&domain.slots, gref).body(body_word)
        }
        None => 0,
    }
}

/// Returns what an exchange from `looked` sees if the present word is `word`.
pub fn exchange_sees(word: u64, looked: u64) -> Observation
    ensures { result ≡ exchange_sees word looked }
{
    if word == looked {
        Observation::Taken
    } else {
        Observation::Missed(word)
    }
}

/// Returns what a step of the domain sees.
pub fn see(config: &Roster, domains: &[DomainState], actor: DomId, step: Step) -> Observation
    requires { IsPlaced config.now.domains.items domains.now }
    ensures { result ≡ sees domains.now actor step }
{
    match step {
        Step::LookHeader { dom } => Observation::Word(look_header(config, domains, dom)),
        Step::LookControl { dom, gref } => Observation::Word(look_control(
            config, domains, dom, gref,
        )),
        Step::LookBody {
            dom,
            gref,
            body_word,
        } => { Observation::Word(look_body(config, domains, dom, gref, body_word)) }
        Step::Pin { held } => exchange_sees(
            look_control(config, domains, held.dom, held.gref),
            held.word,
        ),
        Step::Exchange { gref, looked, .. } => {
            exchange_sees(look_control(config, domains, actor, gref), looked)
        }
        Step::Unpin { .. }
        | Step::StoreBody { .. }
        | Step::StoreHeader { .. }
        | Step::Read { .. }
        | Step::Write { .. }
        | Step::Copy { .. } => Observation::Nothing,
    }
}
