//! Laws about the answers to the calls of a script: which rules a call is refused by, and which forms its answers have.
//!
//! `gt_explore_verdict` refuses a term of a claim that no answer of its line can meet. These laws are why that is right:
//! each answer of a legal history has a form that it goes by, and each refusal one of its rules.
//!
//! No function of the program calls them, so the program does not wait for their proof. The crate uses `gt_model` (histories),
//! `gt_explore_verdict` (the forms and the rules), `gt_script_runs` (answer lines), `gt_types` and `hex`.
#![tactic(auto)]

ghost use Rattle.std.specs.Prelude.{ℕ, List};
ghost use Rattle.gt_model.specs.History.{History, Setting};
ghost use Rattle.gt_model.specs.declared.request.Request.{Request};
ghost use Rattle.gt_model.specs.declared.trace.Answer.{Answer};
ghost use Rattle.gt_model.specs.declared.trace.Item.{Item};
ghost use Rattle.gt_types.specs.declared.denial.Denial.{Denial};
ghost use Rattle.gt_explore_verdict.specs.declared.calls.CallName.{CallName};
ghost use Rattle.gt_answer_forms.specs.AnswerForms.{HasFormOfItsCall};
ghost use Rattle.gt_answer_forms.specs.AnswerWords.{IsWrittenInItsForm};
ghost use Rattle.gt_answer_forms.specs.Refusals.{IsRefusedByItsRules};

/// A law: if a legal history refuses a call, it does so by one of the rules of its kind of call. So a term on a line
/// that names another rule is met by no answer to the call of the line.
pub fn every_refusal_is_by_a_rule_of_its_call()
    ensures { (s : Setting) (before : History) (i : Item) (request : Request) (call : CallName) (denial : Denial) →
        IsRefusedByItsRules s before i request call denial }
{}

/// A law: each answer of a legal history has one of the forms of its kind of call, Ok or refused.
pub fn every_answer_has_a_form_of_its_call()
    ensures { (s : Setting) (before : History) (i : Item) (request : Request) (call : CallName) (answer : Answer) →
        HasFormOfItsCall s before i request call answer }
{}

/// A law: the words of an answer that is Ok are those of its form, if its numbers and bytes are within their types.
pub fn every_ok_answer_is_written_in_its_form()
    ensures { (names : List (List ℕ)) (answer : Answer) → IsWrittenInItsForm names answer }
{}
