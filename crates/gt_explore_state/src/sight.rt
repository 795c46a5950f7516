//! The words that steps see.
ghost use Rattle.std.specs.Prelude.{◌≡◌};
ghost use Rattle.std.specs.Option.{option_copied};
ghost use Rattle.gt_explore_state.specs.Tables.{table_in, header_in_table, word_seen, body_in_table, step_sees};

use crate::table::SparseTable;
use gt_calls::{BodyWord, Observation, Step};
use gt_core::exchange_sees;
use gt_roster::Roster;
use gt_types::{DomId, GrantRef};

// Returns the table of the domain with this number.
fn table_of<'t>(config: &Roster, tables: &'t [SparseTable], dom: DomId) -> Option<&'t SparseTable>
    ensures { option_copied result ≡ table_in config.now.domains.items tables.now dom.0 }
{
    match config.position(dom) {
        Some(at) => tables.get(at),
        None => None,
    }
}

fn look_header(config: &Roster, tables: &[SparseTable], dom: DomId) -> u64
    ensures { result ≡ header_in_table (table_in config.now.domains.items tables.now dom.0) }
{
    match table_of(config, tables, dom) {
        Some(table) => table.header_word(),
        None => 0,
    }
}

fn look_control(config: &Roster, tables: &[SparseTable], dom: DomId, gref: GrantRef) -> u64
    ensures { result
        ≡ word_seen config.now.first_gen (table_in config.now.domains.items tables.now dom.0) gref.0 }
{
    match table_of(config, tables, dom) {
        Some(table) => table.word(config.config().first_gen, gref),
        None => 0,
    }
}

fn look_body(
    config: &Roster,
    tables: &[SparseTable],
    dom: DomId,
    gref: GrantRef,
    body_word: BodyWord,
) -> u64
    ensures { result ≡ body_in_table (table_in config.now.domains.items tables.now dom.0) gref.0 body_word }
{
    match table_of(config, tables, dom) {
        Some(table) => table.body(gref, body_word),
        None => 0,
    }
}

/// Returns what a step of the domain sees.
pub fn see_in(config: &Roster, tables: &[SparseTable], actor: DomId, step: Step) -> Observation
    ensures { result ≡ step_sees config.now.domains.items config.now.first_gen tables.now actor step }
{
    match step {
        Step::LookHeader { dom } => Observation::Word(look_header(config, tables, dom)),
        Step::LookControl { dom, gref } => Observation::Word(look_control(
            config, tables, dom, gref,
        )),
        Step::LookBody {
            dom,
            gref,
            body_word,
        } => { Observation::Word(look_body(config, tables, dom, gref, body_word)) }
        Step::Pin { held } => exchange_sees(
            look_control(config, tables, held.dom, held.gref),
            held.word,
        ),
        Step::Exchange { gref, looked, .. } => {
            exchange_sees(look_control(config, tables, actor, gref), looked)
        }
        _ => Observation::Nothing,
    }
}
