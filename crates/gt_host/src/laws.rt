//! Laws about runs. A law is a function that does nothing; its contract is the law.
ghost use Rattle.std.specs.Prelude.{◌≡◌, ℕ, Bool, List, Option, Some, Ok};
ghost use Rattle.gt_script.specs.Contents.{Contents};
ghost use Rattle.gt_script.specs.Script.{ReadsAsScript};
ghost use Rattle.gt_script_runs.specs.Playing.{BeginsEvery, BeginsRun, IsLegalRunOf, Played, audited_text};
ghost use Rattle.gt_script_runs.specs.Runs.{Progress};

use gt_core::{
    every_alike_event_does_one_thing, every_alike_run_shows_one_thing,
    every_known_handle_has_one_subject,
};
use gt_script::every_text_has_one_meaning;

/// A law: a script prints one text. Any two legal runs of it that come to its end print the same, with the audit and
/// without. So the same bytes, played twice to the end, write the same.
pub fn every_script_prints_one_text()
    ensures run { (c : Contents) (audit : Bool) (p q : Progress) →
        IsLegalRunOf c c.steps p → IsLegalRunOf c c.steps q → audited_text c audit p ≡ audited_text c audit q }
    ensures played { (input : List ℕ) (audit : Bool) (old one other : List ℕ) →
        Played (ReadsAsScript input) audit (Some old) (Some one) (Ok tt) →
        Played (ReadsAsScript input) audit (Some old) (Some other) (Ok tt) → one ≡ other }
{
    every_alike_event_does_one_thing();
    every_alike_run_shows_one_thing();
    every_known_handle_has_one_subject();
    every_text_has_one_meaning();
}

/// A law: what a run wrote that stopped early is a prefix of what each run writes that reaches its end.
pub fn every_beginning_is_of_the_text()
    ensures { (c : Contents) (audit : Bool) (old new : Option (List ℕ)) →
        BeginsRun c audit old new → BeginsEvery c audit old new }
{
    every_alike_event_does_one_thing();
    every_alike_run_shows_one_thing();
    every_known_handle_has_one_subject();
}
