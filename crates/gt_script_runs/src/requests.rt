//! The requests of the calls of a script, and the labels of their mappings.
ghost use Rattle.std.specs.Prelude.{◌≡◌, List, OnOk, IfOk};
ghost use Rattle.std.specs.Option.{option_map};
ghost use Rattle.gt_model.specs.Asking.{asked};
ghost use Rattle.gt_calls.specs.Probing.{IsProbe};
ghost use Rattle.gt_script_runs.specs.Runs.{Named, call_bytes as bytes_in_call, request_of, handle_given, with_name};
ghost use Rattle.gt_script_runs.specs.Runs.{label_given};
ghost use Rattle.gt_script_runs.specs.Naming.{AreNamed};

use crate::labels::Labels;
use gt_core::{Answer, Request};
use gt_script_lines::{ScriptCall, hex_bytes};
use gt_types::DomId;
use std::alloc::{AllocError, Global};

/// Decodes the bytes of a call: those of an entry, or those that it writes.
pub fn call_bytes<'a>(alloc: Global, call: &ScriptCall<'a>) -> Result<Vec<u8>, AllocError>
    ensures { IfOk result (λ bytes. bytes.items ≡ bytes_in_call call.now) }
{
    match call {
        ScriptCall::GrantBytes { hex, .. }
        | ScriptCall::Store { hex, .. }
        | ScriptCall::Poke { hex, .. } => hex_bytes(alloc, hex),
        _ => Ok(Vec::new(alloc)),
    }
}

/// Makes the request of a call with these bytes. A label is replaced by the handle that it names.
#[tactic(auto, unfolding(crate::specs::Runs::request_of))]
pub fn request_of<'a, 'c>(
    labels: &Labels<'a>,
    dom: DomId,
    bytes: &'c [u8],
    call: &ScriptCall<'a>,
) -> Request<'c>
    ensures makes { (named : List Named) → AreNamed labels.now named →
        result ≡ request_of named dom bytes.entry call.now }
    ensures plain { IsProbe (asked result) → ⊥ }
{
    match call {
        ScriptCall::Grant { gref, entry } => Request::Grant {
            gref: *gref,
            entry: *entry,
        },
        ScriptCall::GrantBytes { gref, .. } => Request::GrantBytes { gref: *gref, bytes },
        ScriptCall::Revoke { gref } => Request::Revoke { gref: *gref },
        ScriptCall::Withdraw { gref } => Request::Withdraw { gref: *gref },
        ScriptCall::Demote { gref } => Request::Demote { gref: *gref },
        ScriptCall::Promote { gref } => Request::Promote { gref: *gref },
        ScriptCall::Map {
            dom,
            gref,
            flags,
            ..
        } => Request::Map {
            dom: *dom,
            gref: *gref,
            flags: *flags,
        },
        ScriptCall::Unmap { label } => Request::Unmap {
            handle: labels.handle(dom, label.as_bytes()),
        },
        ScriptCall::Load { label, off, len } => Request::Load {
            handle: labels.handle(dom, label.as_bytes()),
            off: *off,
            len: *len,
        },
        ScriptCall::Store { label, off, .. } => Request::Store {
            handle: labels.handle(dom, label.as_bytes()),
            off: *off,
            bytes,
        },
        ScriptCall::Peek { frame, off, len } => Request::Peek {
            frame: *frame,
            off: *off,
            len: *len,
        },
        ScriptCall::Poke { frame, off, .. } => Request::Poke {
            frame: *frame,
            off: *off,
            bytes,
        },
        ScriptCall::Copy(copy) => Request::Copy(*copy),
        ScriptCall::SetVersion { version } => Request::SetVersion { version: *version },
        ScriptCall::SetupTable { frames } => Request::SetupTable { frames: *frames },
        ScriptCall::QuerySize { dom } => Request::QuerySize { dom: *dom },
        ScriptCall::GetVersion { dom } => Request::GetVersion { dom: *dom },
    }
}

/// Returns the label to which a call gives its handle: that of a map.
pub fn label_given<'a>(call: &ScriptCall<'a>) -> Option<&'a [u8]>
    ensures { option_map (λ l. l.now) result ≡ label_given call.now }
{
    match call {
        ScriptCall::Map { label, .. } => Some(label.as_bytes()),
        _ => None,
    }
}

/// Gives the handle of an answered map to this label. Other answers change nothing.
pub fn name_mapping<'a>(
    labels: &mut Labels<'a>,
    dom: DomId,
    label: Option<&'a [u8]>,
    answer: &Answer,
) -> Result<(), AllocError>
    ensures { OnOk result ((named : List Named) → AreNamed labels.old named → AreNamed labels.new
        (with_name named dom (option_map (λ l. l.now) label.entry) (handle_given answer.now))) }
{
    match (label, answer) {
        (Some(label), Answer::Mapped(handle)) => labels.name(dom, label, *handle),
        _ => Ok(()),
    }
}
