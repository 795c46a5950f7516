//! Requests at the beginning of their calls.
ghost use Rattle.std.specs.Prelude.{◌≡◌, IfOk, Option};
ghost use Rattle.gt_model.specs.Asking.{asked, plainly_asked, begun_of, bytes_begun};
ghost use Rattle.gt_calls.specs.Asking.{judged_as, JudgesBytes};
ghost use Rattle.gt_model.specs.Asking.{SpellsItsEntry};
ghost use Rattle.gt_calls.specs.Opening.{Opens};
ghost use Rattle.gt_model.specs.Rules.{CallerKnowledge, begun, change_begun, label_of};
ghost use Rattle.gt_calls.specs.Known.{knows, entry_in, own_generation};
ghost use Rattle.gt_model.specs.Rules.{grant_begun};

use crate::judging::{
    judge_change, judge_copy, judge_grant, judge_load, judge_map, judge_own_access, judge_probe,
    judge_query, judge_release, judge_revoke, judge_setup, judge_store, judge_unmap, judge_version,
    label_of, owner_label,
};
use crate::known::{CallerState, OwnerEntry, own_entry};
use gt_entry::{Entry, EntryChange, Header, decode};
use gt_model::{CallResult, OpenRequest, Request};
use gt_types::{Allows, Denial, DomId, Facts, GrantRef, LAST_GENERATION, Rule};

// Checks the beginning of a demotion or promotion by the entry's owner.
fn judge_own_change<P: Allows>(
    known: &CallerState<'_, P>,
    change: EntryChange,
    gref: GrantRef,
) -> Option<CallResult>
    ensures { result ≡ change_begun change known.now.header (entry_in known.now.own.now gref.0)
        (own_generation known.now.config.now.first_gen known.now.own.now gref.0) gref.0 }
{
    judge_change(change, known.header, own_entry(known, gref), gref)
}

// Returns the answer at the beginning of a call, if it is answered there.
fn judge_beginning<P: Allows>(
    known: &CallerState<'_, P>,
    caller: DomId,
    request: OpenRequest,
) -> Option<CallResult>
    ensures { result ≡ begun (knows P.may known.now) caller request }
{
    match request {
        OpenRequest::Grant { gref, entry } => {
            judge_grant(known.header, own_entry(known, gref), gref, entry)
        }
        OpenRequest::Revoke { gref } | OpenRequest::Withdraw { gref } => {
            judge_revoke(known.header, own_entry(known, gref), gref)
        }
        OpenRequest::Demote { gref } => judge_own_change(known, EntryChange::Demote, gref),
        OpenRequest::Promote { gref } => judge_own_change(known, EntryChange::Promote, gref),
        OpenRequest::Map { dom, flags, .. } => {
            let source = label_of(known.config, caller);
            judge_map(known, caller, source, dom, flags)
        }
        OpenRequest::Unmap { handle } => {
            let source = label_of(known.config, caller);
            let target = owner_label(known.config, known.mappings.get(handle).copied());
            judge_unmap(known, source, target, handle)
        }
        OpenRequest::Release { handle } => judge_release(known.mappings, handle),
        OpenRequest::Load { handle, off, len } => {
            judge_load(known.mappings, handle, off, usize::from(len))
        }
        OpenRequest::Store { handle, off, len } => judge_store(known.mappings, handle, off, len),
        OpenRequest::Peek { frame, off, len } => judge_own_access(
            known.config,
            caller,
            frame,
            off,
            usize::from(len),
        ),
        OpenRequest::Poke { frame, off, len } => {
            judge_own_access(known.config, caller, frame, off, len)
        }
        OpenRequest::Copy(copy) => judge_copy(known, caller, &copy),
        OpenRequest::Probe(copy) => judge_probe(known, caller, &copy),
        OpenRequest::SetVersion { version } => judge_version(known.header, known.own, version),
        OpenRequest::SetupTable { frames } => {
            judge_setup(known, label_of(known.config, caller), frames)
        }
        OpenRequest::QuerySize { dom } | OpenRequest::GetVersion { dom } => {
            let source = label_of(known.config, caller);
            judge_query(known, caller, source, dom)
        }
    }
}

/// Returns the entry that the bytes of a grant encode in a table with this header.
///
/// # Errors
///
/// The refusal at the beginning of the grant: N9, N20, N22, or N25 with the field refused.
pub fn judge_bytes(
    header: Header,
    own: OwnerEntry,
    gref: GrantRef,
    bytes: &[u8],
) -> Result<Entry, Denial>
    ensures judged { JudgesBytes header (bytes_begun header own.entry own.generation gref.0 bytes.now)
        bytes.now result }
    ensures unanswered { IfOk result (λ entry.
        grant_begun header own.entry own.generation gref.0 entry ≡ None) }
{
    if gref.0 >= header.entries() {
        return Err(Denial::new(Rule::N9, Facts::None));
    }
    if !own.entry().is_invalid() {
        return Err(Denial::new(Rule::N20, Facts::None));
    }
    if own.generation() == LAST_GENERATION {
        return Err(Denial::new(Rule::N22, Facts::None));
    }
    match decode(header.version, bytes) {
        Ok(entry) => Ok(entry),
        Err(field) => Err(Denial::new(Rule::N25, Facts::Field(field))),
    }
}

// Returns what a call keeps of its request. `judge_request` opens a grant by bytes itself, so it never comes here.
#[tactic(auto, unfolding(gt_model::specs::Asking::plainly_asked))]
fn plainly_asked(request: Request<'_>) -> OpenRequest
    ensures { result ≡ plainly_asked request.entry }
{
    match request {
        Request::Grant { gref, entry } => OpenRequest::Grant { gref, entry },
        Request::GrantBytes { gref, .. } => OpenRequest::Grant {
            gref,
            entry: Entry::Invalid,
        },
        Request::Revoke { gref } => OpenRequest::Revoke { gref },
        Request::Withdraw { gref } => OpenRequest::Withdraw { gref },
        Request::Demote { gref } => OpenRequest::Demote { gref },
        Request::Promote { gref } => OpenRequest::Promote { gref },
        Request::Map { dom, gref, flags } => OpenRequest::Map { dom, gref, flags },
        Request::Unmap { handle } => OpenRequest::Unmap { handle },
        Request::Release { handle } => OpenRequest::Release { handle },
        Request::Load { handle, off, len } => OpenRequest::Load { handle, off, len },
        Request::Store { handle, off, bytes } => OpenRequest::Store {
            handle,
            off,
            len: bytes.len(),
        },
        Request::Peek { frame, off, len } => OpenRequest::Peek { frame, off, len },
        Request::Poke { frame, off, bytes } => OpenRequest::Poke {
            frame,
            off,
            len: bytes.len(),
        },
        Request::Copy(copy) => OpenRequest::Copy(copy),
        Request::Probe(copy) => OpenRequest::Probe(copy),
        Request::SetVersion { version } => OpenRequest::SetVersion { version },
        Request::SetupTable { frames } => OpenRequest::SetupTable { frames },
        Request::QuerySize { dom } => OpenRequest::QuerySize { dom },
        Request::GetVersion { dom } => OpenRequest::GetVersion { dom },
    }
}

/// What the rules at the beginning of a call leave of it.
pub enum Judged<T> {
    /// No rule applies, and there is something left to do.
    Open(T),
    /// The call is answered at once, with Ok or by the first rule that applies.
    Answered(CallResult),
}

/// Checks the rules at the beginning of a call. An open call keeps what is needed of its request.
pub fn judge_request<P: Allows>(
    known: &CallerState<'_, P>,
    caller: DomId,
    request: Request<'_>,
) -> Judged<OpenRequest>
    ensures judged { result ≡ judged_as (asked request.entry) (begun_of (knows P.may known.now) caller request.entry) }
    ensures said { begun_of (knows P.may known.now) caller request.entry ≡ None
        → SpellsItsEntry known.now.header request.entry }
{
    if let Request::GrantBytes { gref, bytes } = request {
        return match judge_bytes(known.header, own_entry(known, gref), gref, bytes) {
            Ok(entry) => Judged::Open(OpenRequest::Grant { gref, entry }),
            Err(denial) => Judged::Answered(CallResult::Refused(denial)),
        };
    }
    let asked = plainly_asked(request);
    match judge_beginning(known, caller, asked) {
        Some(verdict) => Judged::Answered(verdict),
        None => Judged::Open(asked),
    }
}

/// Proves what holds for each call that no rule answers at its beginning (`Opens`).
pub fn every_open_call_is_in_order()
    ensures { (k : CallerKnowledge) (caller : DomId) (request : OpenRequest) → begun k caller request ≡ None
        → Opens k caller request }
{}
