//! A list of records that grows by pieces, so that no record ever moves.
ghost use Rattle.std.specs.Prelude.{◌≡◌, ◌<◌, ◌≤◌, ◌+◌, ◌++◌, ◌∷◌, [], IfOk, OnErr, OnOk, length, slice_index_or};
ghost use Rattle.std.specs.Prelude.{replicate};
ghost use Rattle.gt_audit.specs.Pieces.{AreFilled, HasRoomAt, joined, room_of};

use crate::compact::Compact;
use crate::record::{Hypercall, Record, Reply};
use gt_types::DomId;
use std::alloc::{AllocError, Global};
use std::marker::Model;

/// The number of records that a piece has room for. A piece takes 12 KiB.
pub(crate) const PIECE: usize = 256;

/// The maximum number of records that one reservation makes room for: 2^24, which take 768 MiB.
pub const MOST_RESERVED: usize = 16_777_216;

// The filling of room for records while it is made.
const BLANK: Record = Record {
    dom: DomId(0),
    call: Hypercall::Unmap { subject: None },
    reply: Reply::Done,
};

// Some records, and room for the rest of a piece.
#[derive(Drop)]
struct Piece {
    records: Vec<Compact>,
}

impl Model for Piece {
    ghost use Rattle.std.specs.Prelude.{◌≡◌, ◌≤◌, List, length, vec_capacity};
    ghost use Rattle.gt_audit.specs.declared.record.Record.{Record};

    ghost Value = { List Record };

    ghost view = { λ p. p.records.items };

    ghost invariant = { λ p. (vec_capacity p.records ≡ 256) × (length p.records.items ≤ 256) };
}

impl Piece {
    ghost use Rattle.std.specs.Prelude.{◌≡◌, ◌<◌, ◌≤◌, ◌==◌, ◌++◌, ◌∷◌, [], IfOk, length, slice_get};
    ghost use Rattle.gt_audit.specs.declared.pieces.TheConstants.{PIECE};

    fn new(alloc: Global) -> Result<Piece, AllocError>
        ensures { IfOk result (λ p. p ≡ []) }
    {
        Ok(Piece {
            records: Vec::with_capacity(alloc, PIECE)?,
        })
    }

    // Makes a piece, and writes all its room once.
    fn written(alloc: Global) -> Result<Piece, AllocError>
        ensures { IfOk result (λ p. p ≡ []) }
    {
        let mut piece = Piece::new(alloc)?;
        'room: for _ in 0..PIECE {
            if !piece.is_full() {
                piece.push(BLANK);
            }
        }
        piece.clear();
        Ok(piece)
    }

    fn is_full(&self) -> bool
        ensures full { result ≡ (length self.now == PIECE) }
        ensures most { length self.now ≤ PIECE }
    {
        self.records.len() == PIECE
    }

    // Inlined, since the kinds of the call and of its answer are known in most callers.
    #[inline(always)]
    fn push(&mut self, recorded: Record)
        requires { length self.old < PIECE }
        ensures { self.new ≡ self.old ++ recorded ∷ [] }
    {
        self.records.push_reserved(Compact::of(recorded));
    }

    fn clear(&mut self)
        ensures { self.new ≡ [] }
    {
        self.records.clear();
    }

    fn get(&self, index: usize) -> Option<Record>
        ensures { result ≡ slice_get self.now index }
    {
        match self.records.get(index) {
            Some(kept) => Some(kept.record()),
            None => None,
        }
    }
}

// Adds an empty piece.
#[cold]
fn add_piece(alloc: Global, pieces: &mut Vec<Piece>) -> Result<(), AllocError>
    ensures added { OnOk result (pieces.new.items ≡ pieces.old.items ++ [] ∷ []) }
    ensures kept { OnErr result (pieces.new.items ≡ pieces.old.items) }
{
    let piece = Piece::new(alloc)?;
    pieces.push(piece)?;
    Ok(())
}

// Adds an empty piece whose room was written once.
fn add_written(alloc: Global, pieces: &mut Vec<Piece>) -> Result<(), AllocError>
    ensures added { OnOk result (pieces.new.items ≡ pieces.old.items ++ [] ∷ []) }
    ensures kept { OnErr result (pieces.new.items ≡ pieces.old.items) }
{
    let piece = Piece::written(alloc)?;
    pieces.push(piece)?;
    Ok(())
}

// Adds `count` empty pieces, or none if an allocation fails.
fn add_pieces(alloc: Global, pieces: &mut Vec<Piece>, count: usize) -> Result<(), AllocError>
    ensures added { OnOk result (pieces.new.items ≡ pieces.old.items ++ replicate count []) }
    ensures refused { OnErr result (pieces.new.items ≡ pieces.old.items) }
{
    let had = pieces.len();
    'added: for _ in 0..count {
        match add_written(alloc, pieces) {
            Ok(()) => {}
            Err(refused) => {
                pieces.truncate(had);
                return Err(refused);
            }
        }
    }
    Ok(())
}

// Returns the index of the first piece that has room, and the number of pieces if none has.
#[inline(always)]
fn place_of_room(pieces: &[Piece], at: usize) -> usize
    requires { AreFilled at pieces.now }
    ensures filled { AreFilled result pieces.now }
    ensures room { result < length pieces.now → length (slice_index_or pieces.now result []) < 256 }
{
    if at < pieces.len() && pieces[at].is_full() {
        at + 1
    } else {
        at
    }
}

// Returns the index of the first piece that has room, and adds a piece if none has.
#[inline(always)]
fn make_room(alloc: Global, pieces: &mut Vec<Piece>, at: usize) -> Result<usize, AllocError>
    requires { AreFilled at pieces.old.items }
    ensures place { IfOk result (λ n. HasRoomAt n pieces.new.items) }
    ensures records { joined pieces.new.items ≡ joined pieces.old.items }
    ensures grows { length pieces.old.items ≤ length pieces.new.items }
    ensures refused { OnErr result (pieces.new.items ≡ pieces.old.items) }
    ensures no_room { OnErr result (room_of pieces.old.items ≡ 0) }
{
    let place = place_of_room(pieces, at);
    if place < pieces.len() {
        return Ok(place);
    }
    match add_piece(alloc, pieces) {
        Ok(()) => Ok(place),
        Err(refused) => Err(refused),
    }
}

#[inline(always)]
fn put(pieces: &mut Vec<Piece>, at: usize, recorded: Record)
    requires { HasRoomAt at pieces.old.items }
    ensures filled { AreFilled at pieces.new.items }
    ensures records { joined pieces.new.items ≡ joined pieces.old.items ++ recorded ∷ [] }
    ensures len { length pieces.new.items ≡ length pieces.old.items }
{
    pieces[at].push(recorded);
}

fn empty(pieces: &mut Vec<Piece>)
    ensures filled { AreFilled 0 pieces.new.items }
    ensures records { joined pieces.new.items ≡ [] }
    ensures len { length pieces.new.items ≡ length pieces.old.items }
{
    'pieces: for place in 0..pieces.len() {
        pieces[place].clear();
    }
}

/// Records in order, in pieces. The pieces before the one at `at` are full, and those after it are empty.
#[derive(Drop)]
pub(crate) struct Pieces {
    alloc: Global,
    pieces: Vec<Piece>,
    at: usize,
}

impl Model for Pieces {
    ghost use Rattle.gt_audit.specs.Pieces.{Filling};

    ghost Value = { Filling };

    ghost use Rattle.gt_audit.specs.Pieces.{AreFilled, filling_of};

    ghost view = { λ p. filling_of p.pieces.items };

    ghost invariant = { λ p. AreFilled p.at p.pieces.items };
}

impl Pieces {
    ghost use Rattle.std.specs.Prelude.{◌≡◌, ◌≤◌, ◌+◌, ◌++◌, ◌∷◌, [], OnErr, OnOk, length, slice_get};
    ghost use Rattle.gt_audit.specs.declared.pieces.TheConstants.{MOST_RESERVED};

    /// Returns an empty list. It does not allocate.
    pub(crate) fn new(alloc: Global) -> Pieces
        ensures records { result.records ≡ [] }
        ensures room { result.room ≡ 0 }
    {
        Pieces {
            alloc,
            pieces: Vec::new(alloc),
            at: 0,
        }
    }

    /// Appends a record. No other record moves.
    #[inline(always)]
    pub(crate) fn push(&mut self, recorded: Record) -> Result<(), AllocError>
        ensures kept { OnOk result (self.new.records ≡ self.old.records ++ recorded ∷ []) }
        ensures refused { OnErr result (self.new.records ≡ self.old.records) }
        ensures no_room { OnErr result (self.old.room ≡ 0) }
        ensures room { self.old.room ≤ self.new.room + 1 }
    {
        self.at = make_room(self.alloc, &mut self.pieces, self.at)?;
        put(&mut self.pieces, self.at, recorded);
        Ok(())
    }

    /// Returns the record at this index.
    pub(crate) fn get(&self, index: usize) -> Option<Record>
        ensures { result ≡ slice_get self.now.records index }
    {
        let place = index / PIECE;
        if place < self.pieces.len() {
            self.pieces[place].get(index % PIECE)
        } else {
            None
        }
    }

    /// Drops all records, and keeps their room beside the room that was free.
    pub(crate) fn clear(&mut self)
        ensures records { self.new.records ≡ [] }
        ensures room { length self.old.records + self.old.room ≤ self.new.room }
    {
        empty(&mut self.pieces);
        self.at = 0;
    }

    /// Makes room for this many more records, and writes it once. If an allocation fails, the pieces taken for the
    /// room are released. For more than [`MOST_RESERVED`] it fails without any allocation.
    pub(crate) fn reserve(&mut self, records: usize) -> Result<(), AllocError>
        ensures records { self.new.records ≡ self.old.records }
        ensures grows { self.old.room ≤ self.new.room }
        ensures room { OnOk result (records ≤ self.new.room) }
        ensures bound { OnOk result (records ≤ MOST_RESERVED) }
        ensures refused { OnErr result (self.new ≡ self.old) }
    {
        if records > MOST_RESERVED {
            return Err(AllocError);
        }
        let ahead = self.pieces.len() - self.at;
        let wanted = records / PIECE + 2;
        add_pieces(self.alloc, &mut self.pieces, wanted.saturating_sub(ahead))
    }
}
