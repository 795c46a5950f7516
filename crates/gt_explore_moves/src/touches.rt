//! What the next move of a domain touches, and what tasks of another domain may touch.
ghost use Rattle.std.specs.Prelude.{◌≡◌, IfOk};
ghost use Rattle.std.specs.List.{list_any};
ghost use Rattle.gt_explore_moves.specs.declared.actor.LabelledMapping.{LabelledMapping};
ghost use Rattle.gt_model.specs.Path.{gref_of};
ghost use Rattle.gt_commuting.specs.Swapping.{looks_body, looks_header, stores_header};
ghost use Rattle.gt_explore_moves.specs.Touches.{is_access_step, is_load, is_on, is_store, is_write, meets};
ghost use Rattle.gt_explore_moves.specs.Touches.{meets_bytes};
ghost use Rattle.gt_explore_moves.specs.Touches.{meets_call, meets_dest, meets_leg, meets_mapping};
ghost use Rattle.gt_explore_moves.specs.Touches.{meets_beyond, meets_end, meets_last, meets_mapped, meets_uses};
ghost use Rattle.gt_explore_moves.specs.Touches.{frame_touch, is_grant_of, meets_source, meets_task, next_accesses};
ghost use Rattle.gt_explore_moves.specs.Touches.{next_writes, reads_frame_at, step_meets, writes_frame_at};
ghost use Rattle.gt_explore_moves.specs.declared.granted.GrantedEntry.{GrantedEntry};
ghost use Rattle.gt_model.specs.Entries.{frame_of};

use crate::actor::LabelledMapping;
use crate::granted::GrantedEntry;
use gt_calls::{CopyArgs, HeldPin, Step, resolve};
use gt_entry::Entry;
use gt_script::{RunAction, RunTask};
use gt_script_lines::ScriptCall;
use gt_types::{Dir, DomId, GrantRef};

/// A part of a run's state, and what is done to it.
#[derive(Clone, Copy)]
pub enum Touch {
    /// The words of an entry are read, or its control word is changed.
    Entry(DomId, GrantRef),
    /// The words of an entry are read or changed, its body words too.
    WholeEntry(DomId, GrantRef),
    /// The header of a table is read.
    LooksHeader(DomId),
    /// The header of a table is stored.
    StoresHeader(DomId),
    /// This frame of the domain is read.
    Reads(DomId, u64),
    /// This frame of the domain is written.
    Writes(DomId, u64),
    /// A flag is raised.
    Raises(usize),
}

/// The uses of mappings by the tasks that a domain has not finished.
#[derive(Clone, Copy)]
pub struct MappingUse {
    pub loads: bool,
    pub stores: bool,
}

/// The next action of a domain.
#[derive(Clone, Copy)]
pub enum NextMove {
    /// It makes a step of its open call.
    Makes(DomId, Step),
    /// It waits for a flag that is not raised yet.
    Awaits(usize),
    /// It makes a move that conflicts with none of another domain: it begins a call, or raises or passes a flag. Or it
    /// has no move.
    Free,
}

// Returns whether a step of the first domain reads or changes the words of this entry.
fn is_on(dom: DomId, step: Step, owner: DomId, gref: GrantRef) -> bool
    ensures { result ≡ is_on dom step owner.0 gref.0 }
{
    match step {
        Step::LookControl { dom: at, gref: r }
        | Step::LookBody {
            dom: at,
            gref: r,
            ..
        } => { at.0 == owner.0 && r.0 == gref.0 }
        Step::Pin { held } | Step::Unpin { held, .. } => {
            held.dom.0 == owner.0 && held.gref.0 == gref.0
        }
        Step::StoreBody { gref: r, .. } | Step::Exchange { gref: r, .. } => {
            dom.0 == owner.0 && r.0 == gref.0
        }
        _ => false,
    }
}

// Returns whether a step reads a body word of an entry.
fn looks_body(step: Step) -> bool
    ensures { result ≡ looks_body step }
{
    matches!(step, Step::LookBody { .. })
}

// Returns whether a step reads the header of this domain's table.
fn looks_header(step: Step, owner: DomId) -> bool
    ensures { result ≡ looks_header step owner.0 }
{
    match step {
        Step::LookHeader { dom } => dom.0 == owner.0,
        _ => false,
    }
}

// Returns whether a step of the first domain stores the header of the other one's table.
fn stores_header(dom: DomId, step: Step, owner: DomId) -> bool
    ensures { result ≡ stores_header dom step owner.0 }
{
    match step {
        Step::StoreHeader { .. } => dom.0 == owner.0,
        _ => false,
    }
}

// Returns whether a step reads this frame of a domain.
fn reads_at(step: Step, owner: DomId, number: u64) -> bool
    ensures { result ≡ reads_frame_at step owner.0 number }
{
    match step {
        Step::Read { dom, frame, .. } => dom.0 == owner.0 && frame == number,
        Step::Copy { from, .. } => from.frame.owner.0 == owner.0 && from.frame.number == number,
        _ => false,
    }
}

// Returns whether a step writes to this frame of a domain.
fn writes_at(step: Step, owner: DomId, number: u64) -> bool
    ensures { result ≡ writes_frame_at step owner.0 number }
{
    match step {
        Step::Write { dom, frame, .. } => dom.0 == owner.0 && frame == number,
        Step::Copy { to, .. } => to.frame.owner.0 == owner.0 && to.frame.number == number,
        _ => false,
    }
}

// Returns whether a step of the first domain conflicts with a touch of another domain: both are of the same part, and
// one of them changes it.
fn step_meets(dom: DomId, step: Step, touch: Touch) -> bool
    ensures { result ≡ step_meets dom step touch }
{
    match touch {
        Touch::Entry(owner, gref) => is_on(dom, step, owner, gref) && !looks_body(step),
        Touch::WholeEntry(owner, gref) => is_on(dom, step, owner, gref),
        Touch::LooksHeader(owner) => stores_header(dom, step, owner),
        Touch::StoresHeader(owner) => looks_header(step, owner),
        Touch::Reads(owner, frame) => writes_at(step, owner, frame),
        Touch::Writes(owner, frame) => {
            reads_at(step, owner, frame) || writes_at(step, owner, frame)
        }
        Touch::Raises(_) => false,
    }
}

/// Returns whether a next move meets this touch of another domain: it conflicts with the touch, or awaits the flag that
/// is raised.
pub fn meets(next: NextMove, touch: Touch) -> bool
    ensures { result ≡ meets next touch }
{
    match next {
        NextMove::Makes(dom, step) => step_meets(dom, step, touch),
        NextMove::Awaits(flag) => match touch {
            Touch::Raises(raised) => raised == flag,
            _ => false,
        },
        NextMove::Free => false,
    }
}

// Returns whether a next move reads or writes bytes.
fn next_accesses(next: NextMove) -> bool
    ensures { result ≡ next_accesses next }
{
    match next {
        NextMove::Makes(_, step) => {
            matches!(
                step,
                Step::Read { .. } | Step::Write { .. } | Step::Copy { .. }
            )
        }
        _ => false,
    }
}

// Returns whether a next move writes bytes.
fn next_writes(next: NextMove) -> bool
    ensures { result ≡ next_writes next }
{
    match next {
        NextMove::Makes(_, step) => matches!(step, Step::Write { .. } | Step::Copy { .. }),
        _ => false,
    }
}

// Returns whether a next move meets a leg to this entry, or its header.
fn meets_leg(next: NextMove, owner: DomId, gref: GrantRef) -> bool
    ensures { result ≡ meets_leg next owner gref }
{
    meets(next, Touch::LooksHeader(owner)) || meets(next, Touch::Entry(owner, gref))
}

// Returns whether a next move conflicts with these uses of a mapping, if both are of the same frame.
fn meets_bytes(uses: MappingUse, next: NextMove) -> bool
    ensures { result ≡ meets_bytes uses next }
{
    uses.loads && next_writes(next) || uses.stores && next_accesses(next)
}

// Returns whether a next move meets the entry on which a mapping of another domain has its pin, or conflicts with these
// uses of the mapping's frame.
fn meets_mapping(uses: MappingUse, next: NextMove, held: HeldPin) -> bool
    ensures { result ≡ meets_mapping uses next held }
{
    let frame = held.entry.frame();
    meets(next, Touch::Entry(held.dom, held.gref))
        || uses.loads && meets(next, Touch::Reads(held.dom, frame))
        || uses.stores && meets(next, Touch::Writes(held.dom, frame))
}

// Returns the reference with this number, as a copy does: a number of more than 32 bits gives the largest one.
fn gref_of(ptr: u64) -> GrantRef
    ensures { result ≡ gref_of ptr }
{
    GrantRef(u32::try_from(ptr).unwrap_or(u32::MAX))
}

// Returns whether an entry is one that this domain may grant under this reference.
fn is_grant_of(owner: DomId, gref: GrantRef, granted: &GrantedEntry) -> bool
    ensures { result ≡ is_grant_of owner gref granted.now }
{
    granted.owner.0 == owner.0 && granted.gref.0 == gref.0
}

// Returns whether a next move conflicts with these uses of a frame.
fn meets_uses(uses: MappingUse, next: NextMove, owner: DomId, frame: u64) -> bool
    ensures { result ≡ meets_uses uses next owner frame }
{
    uses.loads && meets(next, Touch::Reads(owner, frame))
        || uses.stores && meets(next, Touch::Writes(owner, frame))
}

// Returns whether a next move conflicts with these uses of a frame that the entry may grant.
fn meets_mapped(
    grants: &[GrantedEntry],
    uses: MappingUse,
    next: NextMove,
    owner: DomId,
    gref: GrantRef,
) -> bool
    ensures { result ≡ meets_mapped grants.now uses next owner gref }
{
    if !meets_bytes(uses, next) {
        return false;
    }
    'grants: for granted in grants {
        if is_grant_of(owner, gref, granted)
            && meets_uses(uses, next, owner, granted.entry.frame())
        {
            return true;
        }
    }
    false
}

// Returns the touch of a frame that is read, or written.
fn frame_touch(dir: Dir, owner: DomId, frame: u64) -> Touch
    ensures { result ≡ frame_touch dir owner frame }
{
    match dir {
        Dir::Read => Touch::Reads(owner, frame),
        Dir::Write => Touch::Writes(owner, frame),
    }
}

// Returns whether a next move meets the access to a frame that the entry may grant.
fn meets_last(
    grants: &[GrantedEntry],
    next: NextMove,
    dir: Dir,
    owner: DomId,
    gref: GrantRef,
) -> bool
    ensures { result ≡ meets_last grants.now next dir owner gref }
{
    'grants: for granted in grants {
        if is_grant_of(owner, gref, granted)
            && meets(next, frame_touch(dir, owner, granted.entry.frame()))
        {
            return true;
        }
    }
    false
}

// Returns whether a next move meets what a copy touches after the pin on this entry: the access to its frame, or the
// entry that a transitive one leads to, with the access to a frame that this one may grant.
fn meets_beyond(
    grants: &[GrantedEntry],
    next: NextMove,
    dir: Dir,
    owner: DomId,
    entry: Entry,
) -> bool
    ensures { result ≡ meets_beyond grants.now next dir owner entry }
{
    match entry {
        Entry::Via { dom2, gref, .. } => {
            meets_leg(next, dom2, gref) || meets_last(grants, next, dir, dom2, gref)
        }
        _ => meets(next, frame_touch(dir, owner, entry.frame())),
    }
}

// Returns whether a next move meets what a copy may touch at an end that this reference names.
fn meets_end(
    grants: &[GrantedEntry],
    next: NextMove,
    dir: Dir,
    owner: DomId,
    gref: GrantRef,
) -> bool
    ensures { result ≡ meets_end grants.now next dir owner gref }
{
    if meets_leg(next, owner, gref) {
        return true;
    }
    'grants: for granted in grants {
        if is_grant_of(owner, gref, granted)
            && meets_beyond(grants, next, dir, owner, granted.entry)
        {
            return true;
        }
    }
    false
}

// Returns whether a next move meets the source of a copy of this other domain.
fn meets_source(grants: &[GrantedEntry], next: NextMove, dom: DomId, copy: CopyArgs) -> bool
    ensures { result ≡ meets_source grants.now next dom copy }
{
    if copy.is_source_granted() {
        let owner = resolve(dom, copy.source.domid);
        meets_end(grants, next, Dir::Read, owner, gref_of(copy.source.ptr))
    } else {
        meets(next, Touch::Reads(dom, copy.source.ptr))
    }
}

// Returns whether a next move meets the destination of a copy of this other domain.
fn meets_dest(grants: &[GrantedEntry], next: NextMove, dom: DomId, copy: CopyArgs) -> bool
    ensures { result ≡ meets_dest grants.now next dom copy }
{
    if copy.is_dest_granted() {
        let owner = resolve(dom, copy.dest.domid);
        meets_end(grants, next, Dir::Write, owner, gref_of(copy.dest.ptr))
    } else {
        meets(next, Touch::Writes(dom, copy.dest.ptr))
    }
}

// Returns whether a next move meets something that a call of this other domain may touch, or may touch through the
// mapping that it makes.
fn meets_call(
    grants: &[GrantedEntry],
    uses: MappingUse,
    next: NextMove,
    dom: DomId,
    call: &ScriptCall<'_>,
) -> bool
    ensures { result ≡ meets_call grants.now uses next dom call.now }
{
    match call {
        ScriptCall::Grant { gref, .. } | ScriptCall::GrantBytes { gref, .. } => {
            meets(next, Touch::WholeEntry(dom, *gref))
        }
        ScriptCall::Revoke { gref }
        | ScriptCall::Withdraw { gref }
        | ScriptCall::Demote { gref }
        | ScriptCall::Promote { gref } => meets(next, Touch::Entry(dom, *gref)),
        ScriptCall::Map {
            dom: owner,
            gref,
            ..
        } => {
            let owner = resolve(dom, *owner);
            meets_leg(next, owner, *gref) || meets_mapped(grants, uses, next, owner, *gref)
        }
        ScriptCall::Unmap { .. } | ScriptCall::Load { .. } | ScriptCall::Store { .. } => false,
        ScriptCall::Peek { frame, .. } => meets(next, Touch::Reads(dom, *frame)),
        ScriptCall::Poke { frame, .. } => meets(next, Touch::Writes(dom, *frame)),
        ScriptCall::Copy(copy) => {
            meets_source(grants, next, dom, *copy) || meets_dest(grants, next, dom, *copy)
        }
        ScriptCall::SetVersion { .. } | ScriptCall::SetupTable { .. } => {
            meets(next, Touch::StoresHeader(dom))
        }
        ScriptCall::QuerySize { dom: owner } | ScriptCall::GetVersion { dom: owner } => {
            meets(next, Touch::LooksHeader(resolve(dom, *owner)))
        }
    }
}

/// Returns whether a next move meets something that a task of another domain may touch.
pub fn meets_task(
    grants: &[GrantedEntry],
    uses: MappingUse,
    next: NextMove,
    task: &RunTask<'_>,
) -> bool
    ensures { result ≡ meets_task grants.now uses next task.now }
{
    match &task.run_action {
        RunAction::Do(call) => meets_call(grants, uses, next, task.dom, call),
        RunAction::Tell(flag) => meets(next, Touch::Raises(*flag)),
        RunAction::Await(_) => false,
    }
}

/// Returns whether a task loads through a mapping.
pub fn is_load(task: &RunTask<'_>) -> bool
    ensures { result ≡ is_load task.now }
{
    matches!(&task.run_action, RunAction::Do(ScriptCall::Load { .. }))
}

/// Returns whether a task stores through a mapping.
pub fn is_store(task: &RunTask<'_>) -> bool
    ensures { result ≡ is_store task.now }
{
    matches!(&task.run_action, RunAction::Do(ScriptCall::Store { .. }))
}

/// Returns whether a next move meets what one of these mappings of another domain may touch.
pub fn any_mapping_meets(uses: MappingUse, next: NextMove, mappings: &[LabelledMapping<'_>]) -> bool
    ensures { result ≡ list_any (λ (m : LabelledMapping). meets_mapping uses next m.held) mappings.now }
{
    'mappings: for mapping in mappings {
        if meets_mapping(uses, next, mapping.held) {
            return true;
        }
    }
    false
}
