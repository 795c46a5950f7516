//! Laws about the meaning of bytes as a script.
ghost use Rattle.std.specs.Prelude.{◌≡◌, ℕ, List, Result, Err};
ghost use Rattle.gt_script.specs.Contents.{Contents};
ghost use Rattle.gt_script.specs.RunContents.{RunContents};
ghost use Rattle.gt_script.specs.RunScripts.{ReadsAsRun};
ghost use Rattle.gt_script.specs.Laws.{IsFaultOfScript, IsFaultOfBlock};
ghost use Rattle.gt_script.specs.Script.{ReadsAsScript, ReadsFor, Wrong, in_policy, in_script};
ghost use Rattle.gt_script.specs.declared.command.ScriptCommand.{ScriptCommand};
ghost use Rattle.gt_script.specs.declared.faults.ScriptFault.{ScriptFault};
ghost use Rattle.gt_policy.specs.declared.fault.TokenFault as policy;

use gt_policy::one_meaning;

/// A law: bytes mean only one thing, a script or a fault. Two contents that the same bytes mean are the same: what is
/// allowed, the types, domains and steps.
pub fn every_text_has_one_meaning()
    ensures { (bytes : List ℕ) (one other : Result Contents Wrong) →
        ReadsAsScript bytes one → ReadsAsScript bytes other → one ≡ other }
{
    one_meaning();
}

/// A law: a fault that is the first of the bytes, or of their policy block, is what they mean. So there is no other.
pub fn every_fault_is_reported()
    ensures script { (command : ScriptCommand) (bytes : List ℕ) (f : ScriptFault) →
        IsFaultOfScript command bytes f → ReadsFor command bytes (Err (in_script f)) }
    ensures block { (command : ScriptCommand) (bytes : List ℕ) (g : policy.TokenFault) →
        IsFaultOfBlock bytes g → ReadsFor command bytes (Err (in_policy g)) }
{}

/// A law: bytes mean only one thing as a script for `run`: a script, or its first fault.
pub fn every_text_has_one_run()
    ensures { (bytes : List ℕ) (one other : Result RunContents Wrong) →
        ReadsAsRun bytes one → ReadsAsRun bytes other → one ≡ other }
{
    one_meaning();
}
