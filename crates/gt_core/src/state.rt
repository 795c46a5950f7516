//! The state of a domain, as plain lists.
ghost use Rattle.std.specs.Prelude.{◌≡◌, ◌==◌, ◌%◌, position};
ghost use Rattle.gt_core.specs.Accesses.{basis_of};
ghost use Rattle.gt_core.specs.States.{IsPlaced};

use crate::core_state::EntryView;
use crate::pin_counts::{CountsChange, PinCounts};
use crate::underway::OpenCall;
use gt_calls::{
    AccessPath, Call, ENTRIES, EntryChange, HeldPin, OpenRequest, OwnerEntry, PinHolder,
};
use gt_entry::Header;
use gt_frames::{Writ, WriteBasis};
use gt_handles::{Handle, Handles};
use gt_roster::Roster;
use gt_types::{DomId, DomainConfig, GrantRef, LAST_GENERATION, Memory};
use std::alloc::Global;
use std::marker::Model;

/// A domain of the run.
#[derive(Drop)]
pub struct DomainState {
    pub(crate) id: DomId,
    pub(crate) header: Header,
    pub(crate) own: Vec<OwnerEntry>,
    pub(crate) slots: Vec<PinCounts>,
    pub(crate) mappings: Handles<HeldPin>,
    pub(crate) underway: Option<OpenCall>,
    pub(crate) given: Vec<u8>,
    pub(crate) room: Option<Vec<u8>>,
}

impl Model for DomainState {
    ghost use Rattle.std.specs.Prelude.{◌<◌, vec_len};
    ghost use Rattle.std.specs.Option.{option_map};
    ghost use Rattle.gt_core.specs.States.{State, HasRoom, asked_in};

    ghost Value = { State };

    ghost view = { λ d. record {
      id = d.id;
      header = d.header;
      own = d.own.items;
      slots = d.slots.items;
      mappings = record d.mappings { room = 0 };
      underway = d.underway;
      given = d.given.items;
    } };

    ghost invariant = { λ d.
        (d.header.version < 4) × HasRoom (asked_in d.underway) d.mappings (option_map (λ v. vec_len v) d.room) };
}

/// Returns the index of the domain with this number, in one look.
pub fn find(config: &Roster, domains: &[DomainState], dom: DomId) -> Option<usize>
    requires { IsPlaced config.now.domains.items domains.now }
    ensures { result ≡ position (λ d. d.id.0 == dom.0) domains.now }
{
    let _ = domains;
    config.position(dom)
}

// Returns the header of a table, as far as its word has room.
fn table_header(version: u32, frames: u32) -> Header
    ensures { result ≡ record { version = version % 4; frames = frames % 256 } }
{
    Header {
        version: (version % 4) as u8,
        frames: (frames % 256) as u8,
    }
}

// Returns the right of a write by this route.
fn basis_of(access_path: AccessPath) -> WriteBasis
    ensures { result ≡ basis_of access_path }
{
    match access_path {
        AccessPath::Own => WriteBasis::Owned,
        AccessPath::Direct(held) => WriteBasis::Granted(held.entry),
        AccessPath::Through { via, held } => WriteBasis::Forwarded {
            via: via.entry,
            middle: via.dom,
            entry: held.entry,
        },
    }
}

impl DomainState {
    ghost use Rattle.std.specs.Prelude.{◌≡◌, ◌<◌, ◌+◌, ◌^◌, IfOk, OnErr, OnOk, Some, None, true, slice_get, vec_len};
    ghost use Rattle.gt_core.specs.Accesses.{access_path_of, IsWritOf};
    ghost use Rattle.gt_core.specs.States.{first_state, asked_in, asks_memory, kept_by, IsMapping, IsLoading};
    ghost use Rattle.gt_core.specs.Shown.{shown_in};
    ghost use Rattle.gt_core.specs.Effects.{Adds, with_slot, with_own, with_header, with_underway, with_open_call};
    ghost use Rattle.gt_core.specs.Effects.{with_mapping, without_holder};

    /// Returns the state of a domain in which no call was made: all entries are invalid and at the first
    /// generation.
    pub fn new(alloc: Global, domain: DomainConfig, first_gen: u32) -> Result<DomainState, Memory>
        ensures { IfOk result (λ d. d ≡ first_state first_gen domain) }
    {
        let own = vec![in alloc; OwnerEntry::new(first_gen.min(LAST_GENERATION)); ENTRIES]?;
        let slots = vec![in alloc; PinCounts::new(); ENTRIES]?;
        Ok(DomainState {
            id: domain.id,
            header: table_header(domain.version, domain.table_frames),
            own,
            slots,
            mappings: Handles::new(alloc),
            underway: None,
            given: Vec::new(alloc),
            room: None,
        })
    }

    /// Returns the open call.
    pub fn underway(&self) -> Option<OpenCall>
        ensures { result ≡ self.now.underway }
    {
        self.underway
    }

    /// Opens a call. Copies the bytes that it is to write, and makes the room that its answer needs. For a map, a
    /// serial must be left.
    pub fn start_call(&mut self, alloc: Global, call: OpenCall, bytes: &[u8]) -> Result<(), Memory>
        requires { IsMapping (Some call.call.request) → self.old.mappings.given + 1 < 2 ^ 64 }
        ensures opened { OnOk result (self.new ≡ with_open_call call (kept_by call.call.request bytes.now) self.old) }
        ensures refused { OnErr result (self.new ≡ self.old) }
        ensures memory { OnErr result (asks_memory call.call.request ≡ true) }
    {
        let mut given = Vec::new(alloc);
        let mut room = None;
        match call.call.request {
            OpenRequest::Map { .. } => self.mappings.reserve()?,
            OpenRequest::Load { len, .. } | OpenRequest::Peek { len, .. } => {
                room = Some(vec![in alloc; 0u8; usize::from(len)]?);
            }
            OpenRequest::Store { .. } | OpenRequest::Poke { .. } => given = Vec::from_slice(
                alloc, bytes,
            )?,
            _ => {}
        }
        self.given = given;
        self.room = room;
        self.underway = Some(call);
        Ok(())
    }

    /// Keeps the call after a step, with its next one.
    pub fn go_on(&mut self, call: OpenCall)
        requires { asked_in self.old.underway ≡ Some call.call.request }
        ensures { self.new ≡ with_underway (Some call) self.old }
    {
        self.underway = Some(call);
    }

    /// Closes the call.
    pub fn close(&mut self)
        ensures { self.new ≡ with_underway None self.old }
    {
        self.underway = None;
        self.room = None;
    }

    /// Closes a load or a peek, and returns the room for its bytes.
    pub fn close_load(&mut self, alloc: Global) -> Vec<u8>
        ensures closed { self.new ≡ with_underway None self.old }
        ensures room { IsLoading (asked_in self.old.underway) (vec_len result) }
    {
        self.underway = None;
        match self.room.take() {
            Some(room) => room,
            None => Vec::new(alloc),
        }
    }

    /// Closes a map, and keeps its pin as a new mapping, with the next serial. `start_call` made the room for it.
    pub fn add_mapping(&mut self, held: HeldPin) -> Handle
        requires { IsMapping (asked_in self.old.underway) }
        ensures adds { Adds self.old.mappings self.new.mappings result held }
        ensures added { self.new ≡ with_mapping self.new.mappings self.old }
    {
        let handle = self.mappings.insert(held);
        self.underway = None;
        handle
    }

    // Returns the access path by which its call writes.
    fn access_path(&self, call: Call) -> AccessPath
        ensures { result ≡ access_path_of self.now.mappings call }
    {
        match call.request {
            OpenRequest::Store { handle, .. } => match self.mappings.get(handle) {
                Some(held) => AccessPath::Direct(*held),
                None => AccessPath::Own,
            },
            OpenRequest::Copy(_) => call.pins().dest,
            _ => AccessPath::Own,
        }
    }

    /// Returns the writ of its call: the caller writes to its own frame, or by the entries of the pins that it
    /// holds for that.
    pub fn writ(&self, call: Call) -> Writ
        ensures { IsWritOf self.now call result }
    {
        Writ {
            writer: call.caller,
            basis: basis_of(self.access_path(call)),
        }
    }

    /// Returns what an entry shows.
    pub fn shown(&self, gref: GrantRef) -> Option<EntryView>
        ensures { result ≡ shown_in (slice_get self.now.own gref.0) (slice_get self.now.slots gref.0) }
    {
        let at = gref.0 as usize;
        match (self.own.get(at), self.slots.get(at)) {
            (Some(own), Some(slot)) => Some(EntryView {
                entry: own.entry(),
                generation: own.generation(),
                reads: slot.reads,
                writes: slot.writes,
            }),
            _ => None,
        }
    }

    /// Changes the pins or a body word of an entry.
    pub fn change_slot(&mut self, gref: GrantRef, change: CountsChange)
        ensures { self.new ≡ with_slot gref.0 change self.old }
    {
        let at = gref.0 as usize;
        if at < self.slots.len() {
            self.slots[at] = self.slots[at].after(change);
        }
    }

    /// Changes what the owner knows of an entry.
    pub fn change_own(&mut self, gref: GrantRef, change: EntryChange)
        ensures { self.new ≡ with_own gref.0 change self.old }
    {
        let at = gref.0 as usize;
        if at < self.own.len() {
            self.own[at] = self.own[at].after(change);
        }
    }

    /// Stores the header of the table. Its word has room for versions below 4 and at most 255 frames.
    pub fn store_header(&mut self, version: u32, frames: u32)
        ensures { self.new ≡ with_header version frames self.old }
    {
        self.header = table_header(version, frames);
    }

    /// Drops the mapping, if a mapping was the holder.
    pub fn forget(&mut self, holder: PinHolder)
        ensures { self.new ≡ without_holder holder self.old }
    {
        if let PinHolder::Mapping(handle) = holder {
            let _ = self.mappings.take(handle);
        }
    }
}
