//! The searches of the choices of a script.
ghost use Rattle.std.specs.Prelude.{◌≡◌, ◌<◌, ◌++◌, ◌+◌, IfErr, IfNone, IfOk, IfSome, OnOk, Some, length};
ghost use Rattle.std.specs.Prelude.{slice_get, true};
ghost use Rattle.gt_explore_answers.specs.Outputs.{found_from};
ghost use Rattle.gt_explore_by_choice.specs.Gathering.{AreFoundFor, AreGatheredTexts, IsFaultAmong, IsFaultOfText, IsNoScript, is_stuck};
ghost use Rattle.gt_explore_by_choice.specs.Gathering.{is_stuck_kind};

use gt_explore::texts_found;
use gt_explore_answers::FoundTexts;
use gt_explore_choices::Choices;
use gt_explore_faults::{ExploreFault, TextsFault};
use gt_explore_search::{FoundText, SearchWatch};
use gt_script::{ScriptError, ScriptFaultKind, every_text_has_one_run, parse_run};
use gt_script_runs::PlayFault;
use std::alloc::{AllocError, Global};

// Returns whether a fault is that a domain waits for ever.
fn is_stuck_kind(kind: ScriptFaultKind) -> bool
    ensures { result ≡ is_stuck_kind kind }
{
    match kind {
        ScriptFaultKind::Stuck => true,
        ScriptFaultKind::Limit | ScriptFaultKind::Utf8 | ScriptFaultKind::Syntax => false,
        ScriptFaultKind::Config | ScriptFaultKind::Mode => false,
    }
}

// Returns the same of an error.
fn is_stuck(error: &ScriptError) -> bool
    ensures { result ≡ is_stuck error.now }
{
    match error {
        ScriptError::Fault(fault) => is_stuck_kind(fault.kind),
        ScriptError::Memory | ScriptError::Policy(_) => false,
    }
}

// Finds the texts of a choice. It returns `None` if a domain waits for ever in it.
fn texts_of_choice<T: SearchWatch>(
    alloc: Global,
    choice: &[u8],
    limit: usize,
    watch: &mut T,
) -> Result<Option<FoundTexts>, ExploreFault>
    ensures found { IfOk result (λ some. IfSome some (λ all. AreFoundFor choice.now (found_from all))) }
    ensures none { IfOk result (λ some. IfNone some (IsNoScript choice.now)) }
    ensures fault { IfErr result (IsFaultOfText choice.now) }
{
    every_text_has_one_run();
    match parse_run(alloc, choice) {
        Ok(script) => match texts_found(alloc, &script, limit, watch) {
            Ok(found) => Ok(Some(found)),
            Err(fault) => Err(ExploreFault::Texts(fault)),
        },
        Err(error) => {
            if is_stuck(&error) {
                Ok(None)
            } else {
                Err(ExploreFault::Play(PlayFault::from(error)))
            }
        }
    }
}

/// What the searches of choices found: an order for each of their texts, the number of states met, whether these were
/// all states, the number of states on the way to the last, and the number of choices in which a domain waits for ever.
#[derive(Drop)]
pub struct Gathered {
    pub orders: Vec<FoundText>,
    pub states: usize,
    pub whole: bool,
    pub depth: usize,
    pub waiting: usize,
}

// Appends orders.
fn push_orders(orders: &mut Vec<FoundText>, more: Vec<FoundText>) -> Result<(), AllocError>
    ensures { OnOk result (orders.new.items ≡ orders.old.items ++ more.items) }
{
    'more: for order in more {
        orders.push(order)?;
    }
    Ok(())
}

// Adds what the search of a choice found.
fn push_found(all: &mut Gathered, found: FoundTexts) -> Result<(), AllocError>
    ensures orders { OnOk result (all.new.orders.items ≡ all.old.orders.items ++ found.texts.items) }
    ensures whole { OnOk result (all.new.whole ≡ found.whole) }
    ensures waiting { OnOk result (all.new.waiting ≡ all.old.waiting) }
{
    push_orders(&mut all.orders, found.texts)?;
    all.states = all.states.saturating_add(found.states);
    all.whole = found.whole;
    all.depth = found.depth;
    Ok(())
}

// Returns the text of the choice at this index.
fn choice_at(alloc: Global, choices: &Choices<'_>, at: usize) -> Result<Vec<u8>, ExploreFault>
    requires { at < length choices.now }
    ensures ok { IfOk result (λ text. slice_get choices.now at ≡ Some text.items) }
    ensures fault { IfErr result (IsFaultAmong choices.now) }
{
    match choices.text(alloc, at) {
        Ok(text) => Ok(text),
        Err(_) => Err(ExploreFault::Texts(TextsFault::Memory)),
    }
}

// Searches the choice at this index, and adds what it found.
fn gather_choice<T: SearchWatch>(
    alloc: Global,
    choices: &Choices<'_>,
    at: usize,
    limit: usize,
    all: &mut Gathered,
    watch: &mut T,
) -> Result<(), ExploreFault>
    requires at { at < length choices.now }
    requires before { AreGatheredTexts choices.now at all.old.orders.items true all.old.waiting }
    requires whole { all.old.whole ≡ true }
    ensures ok { OnOk result (AreGatheredTexts choices.now (at + 1) all.new.orders.items all.new.whole all.new.waiting) }
    ensures fault { IfErr result (IsFaultAmong choices.now) }
{
    let choice = choice_at(alloc, choices, at)?;
    let left = limit.saturating_sub(all.states);
    match texts_of_choice(alloc, choice.as_slice(), left, watch)? {
        Some(found) => match push_found(all, found) {
            Ok(()) => Ok(()),
            Err(_) => Err(ExploreFault::Texts(TextsFault::Memory)),
        },
        None => {
            all.waiting = all.waiting.saturating_add(1);
            Ok(())
        }
    }
}

/// Searches the choices of a script, one after the other, until they met this number of states together.
///
/// # Errors
/// `Play` with the first fault of a choice as a script, unless it is that a domain waits for ever; `Texts` with a fault
/// of a search, or if an allocation failed.
pub fn gather_all<T: SearchWatch>(
    alloc: Global,
    choices: &Choices<'_>,
    limit: usize,
    watch: &mut T,
) -> Result<Gathered, ExploreFault>
    ensures ok { IfOk result (λ all.
        AreGatheredTexts choices.now (length choices.now) all.orders.items all.whole all.waiting) }
    ensures fault { IfErr result (IsFaultAmong choices.now) }
{
    let mut all = Gathered {
        orders: Vec::new(alloc),
        states: 0,
        whole: true,
        depth: 0,
        waiting: 0,
    };
    'choices: for at in 0..choices.len() {
        gather_choice(alloc, choices, at, limit, &mut all, watch)?;
        if !all.whole {
            return Ok(all);
        }
    }
    Ok(all)
}
