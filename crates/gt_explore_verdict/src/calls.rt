//! The answers that each call of a script can have.
ghost use Rattle.std.specs.Prelude.{◌≡◌, map, ◌∷◌};
ghost use Rattle.gt_explore_verdict.specs.Calls.{form_begun, form_begun_in, forms_of, may_answer};

use crate::forms::{AnswerForm, EVERY_FORM, begins_form, begins_one};
use gt_types::{DomId, Rule};

/// A kind of call.
#[derive(Clone, Copy, Debug, PartialEq, Eq)]
pub enum CallName {
    Grant,
    GrantBytes,
    Revoke,
    Withdraw,
    Demote,
    Promote,
    Map,
    Unmap,
    Load,
    Store,
    Peek,
    Poke,
    Copy,
    SetVersion,
    SetupTable,
    QuerySize,
    GetVersion,
}

/// A call of a script: its line, its domain, and its kind.
#[derive(Clone, Copy)]
pub struct PlacedCall {
    pub line: usize,
    pub dom: DomId,
    pub call: CallName,
}

// The forms of the answers to each call.

const GRANT_FORMS: [AnswerForm; 6] = [
    AnswerForm::Done,
    AnswerForm::Refused(Rule::N9),
    AnswerForm::Refused(Rule::N19),
    AnswerForm::Refused(Rule::N20),
    AnswerForm::Refused(Rule::N21),
    AnswerForm::Refused(Rule::N22),
];

const BYTES_FORMS: [AnswerForm; 6] = [
    AnswerForm::Done,
    AnswerForm::Refused(Rule::N9),
    AnswerForm::Refused(Rule::N19),
    AnswerForm::Refused(Rule::N20),
    AnswerForm::Refused(Rule::N22),
    AnswerForm::Refused(Rule::N25),
];

const REVOKE_FORMS: [AnswerForm; 4] = [
    AnswerForm::Done,
    AnswerForm::Refused(Rule::N9),
    AnswerForm::Refused(Rule::N10),
    AnswerForm::Refused(Rule::N19),
];

const WITHDRAW_FORMS: [AnswerForm; 4] = [
    AnswerForm::Done,
    AnswerForm::Refused(Rule::N9),
    AnswerForm::Refused(Rule::N10),
    AnswerForm::Refused(Rule::N18),
];

const DEMOTE_FORMS: [AnswerForm; 6] = [
    AnswerForm::Done,
    AnswerForm::Refused(Rule::N9),
    AnswerForm::Refused(Rule::N10),
    AnswerForm::Refused(Rule::N18),
    AnswerForm::Refused(Rule::N19),
    AnswerForm::Refused(Rule::N22),
];

const PROMOTE_FORMS: [AnswerForm; 5] = [
    AnswerForm::Done,
    AnswerForm::Refused(Rule::N9),
    AnswerForm::Refused(Rule::N10),
    AnswerForm::Refused(Rule::N18),
    AnswerForm::Refused(Rule::N22),
];

const MAP_FORMS: [AnswerForm; 13] = [
    AnswerForm::Done,
    AnswerForm::Refused(Rule::N1),
    AnswerForm::Refused(Rule::N2),
    AnswerForm::Refused(Rule::N5),
    AnswerForm::Refused(Rule::N8),
    AnswerForm::Refused(Rule::N9),
    AnswerForm::Refused(Rule::N10),
    AnswerForm::Refused(Rule::N11),
    AnswerForm::Refused(Rule::N12),
    AnswerForm::Refused(Rule::N13),
    AnswerForm::Refused(Rule::N16),
    AnswerForm::Refused(Rule::N17),
    AnswerForm::Refused(Rule::N18),
];

const UNMAP_FORMS: [AnswerForm; 3] = [
    AnswerForm::Done,
    AnswerForm::Refused(Rule::N5),
    AnswerForm::Refused(Rule::N6),
];

const LOAD_FORMS: [AnswerForm; 4] = [
    AnswerForm::Done,
    AnswerForm::Bytes,
    AnswerForm::Refused(Rule::N3),
    AnswerForm::Refused(Rule::N6),
];

const STORE_FORMS: [AnswerForm; 4] = [
    AnswerForm::Done,
    AnswerForm::Refused(Rule::N3),
    AnswerForm::Refused(Rule::N6),
    AnswerForm::Refused(Rule::N7),
];

const PEEK_FORMS: [AnswerForm; 4] = [
    AnswerForm::Done,
    AnswerForm::Bytes,
    AnswerForm::Refused(Rule::N3),
    AnswerForm::Refused(Rule::N16),
];

const POKE_FORMS: [AnswerForm; 3] = [
    AnswerForm::Done,
    AnswerForm::Refused(Rule::N3),
    AnswerForm::Refused(Rule::N16),
];

const COPY_FORMS: [AnswerForm; 15] = [
    AnswerForm::Done,
    AnswerForm::Refused(Rule::N1),
    AnswerForm::Refused(Rule::N2),
    AnswerForm::Refused(Rule::N3),
    AnswerForm::Refused(Rule::N4),
    AnswerForm::Refused(Rule::N5),
    AnswerForm::Refused(Rule::N9),
    AnswerForm::Refused(Rule::N10),
    AnswerForm::Refused(Rule::N11),
    AnswerForm::Refused(Rule::N13),
    AnswerForm::Refused(Rule::N14),
    AnswerForm::Refused(Rule::N15),
    AnswerForm::Refused(Rule::N16),
    AnswerForm::Refused(Rule::N17),
    AnswerForm::Refused(Rule::N18),
];

const VERSION_FORMS: [AnswerForm; 3] = [
    AnswerForm::Done,
    AnswerForm::Refused(Rule::N2),
    AnswerForm::Refused(Rule::N24),
];

const SETUP_FORMS: [AnswerForm; 3] = [
    AnswerForm::Frames,
    AnswerForm::Refused(Rule::N5),
    AnswerForm::Refused(Rule::N23),
];

const SIZE_FORMS: [AnswerForm; 3] = [
    AnswerForm::Size,
    AnswerForm::Refused(Rule::N1),
    AnswerForm::Refused(Rule::N5),
];

const GETVERSION_FORMS: [AnswerForm; 3] = [
    AnswerForm::Version,
    AnswerForm::Refused(Rule::N1),
    AnswerForm::Refused(Rule::N5),
];

// Returns the forms of the answers that a call can have.
fn forms_of(call: CallName) -> &'static [AnswerForm]
    ensures { result.now ≡ forms_of call }
{
    match call {
        CallName::Grant => &GRANT_FORMS,
        CallName::GrantBytes => &BYTES_FORMS,
        CallName::Revoke => &REVOKE_FORMS,
        CallName::Withdraw => &WITHDRAW_FORMS,
        CallName::Demote => &DEMOTE_FORMS,
        CallName::Promote => &PROMOTE_FORMS,
        CallName::Map => &MAP_FORMS,
        CallName::Unmap => &UNMAP_FORMS,
        CallName::Load => &LOAD_FORMS,
        CallName::Store => &STORE_FORMS,
        CallName::Peek => &PEEK_FORMS,
        CallName::Poke => &POKE_FORMS,
        CallName::Copy => &COPY_FORMS,
        CallName::SetVersion => &VERSION_FORMS,
        CallName::SetupTable => &SETUP_FORMS,
        CallName::QuerySize => &SIZE_FORMS,
        CallName::GetVersion => &GETVERSION_FORMS,
    }
}

/// Returns whether some answer to a call of this kind can begin with these words.
#[tactic(auto, unfolding(crate::specs::Calls::may_answer))]
pub fn may_answer(call: CallName, first: &[u8], more: &[&[u8]]) -> bool
    ensures { result ≡ may_answer call (first.now ∷ map (λ w. w.now) more.now) }
{
    begins_one(forms_of(call), first, more)
}

// Returns the first of these forms with which an answer can begin with these words, `Done` if there is none.
fn form_begun_in(forms: &[AnswerForm], first: &[u8], more: &[&[u8]]) -> AnswerForm
    ensures { result ≡ form_begun_in forms.now (first.now ∷ map (λ w. w.now) more.now) }
{
    'forms: for form in forms {
        if begins_form(*form, first, more) {
            return *form;
        }
    }
    AnswerForm::Done
}

/// Returns the first form of an answer that can begin with these words, `Done` if none can.
pub fn form_begun(first: &[u8], more: &[&[u8]]) -> AnswerForm
    ensures { result ≡ form_begun (first.now ∷ map (λ w. w.now) more.now) }
{
    form_begun_in(&EVERY_FORM, first, more)
}

impl CallName {
    ghost use Rattle.std.specs.Prelude.{◌≡◌};
    ghost use Rattle.gt_explore_verdict.specs.Calls.{call_words};

    /// Returns the name of such a call in a script, with its article.
    pub fn words(self) -> &'static str
        ensures { result.now ≡ call_words self }
    {
        match self {
            CallName::Grant => "a grant",
            CallName::GrantBytes => "a bytes",
            CallName::Revoke => "a revoke",
            CallName::Withdraw => "a withdraw",
            CallName::Demote => "a demote",
            CallName::Promote => "a promote",
            CallName::Map => "a map",
            CallName::Unmap => "an unmap",
            CallName::Load => "a load",
            CallName::Store => "a store",
            CallName::Peek => "a peek",
            CallName::Poke => "a poke",
            CallName::Copy => "a copy",
            CallName::SetVersion => "a version",
            CallName::SetupTable => "a setup",
            CallName::QuerySize => "a size",
            CallName::GetVersion => "a getversion",
        }
    }
}
