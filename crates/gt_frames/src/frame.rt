//! One frame: its bytes and its journal.
ghost use Rattle.std.specs.Prelude.{◌≡◌, ◌+◌, ◌≤◌, ◌++◌, [], ◌∷◌, None, length, slice_range, vec_capacity, vec_len};
ghost use Rattle.std.specs.Prelude.{IsTrue, IfOk};
ghost use Rattle.std.specs.Prelude.{OnOk, OnErr};
ghost use Rattle.gt_model.specs.Written.{overlay};
ghost use Rattle.gt_frames.specs.Frames.{recorded};
ghost use Rattle.gt_frames.specs.Writers.{KnowsWriters};

use crate::frame_bytes::Contents;
use crate::journal::Journal;
use crate::receipts::{CopiedEnd, CopiedRange};
use crate::writers::Writers;
use crate::{Copied, Filled, FrameBytes, Read, Writ, Written};
use gt_types::{DomId, FRAME_SIZE, Memory, Range};
use std::alloc::Global;
use std::marker::Model;
use std::snapshot::Snapshot;

// What a frame keeps.
#[derive(Drop)]
struct FrameParts {
    owner: DomId,
    number: u64,
    bytes: Contents,
    writers: Writers,
    journal: Journal,
}

/// A frame of 4,096 bytes, with all writes made to it. Its parts are in a box, so moving a frame moves one word.
#[derive(Drop)]
pub struct Frame {
    parts: Box<FrameParts>,
}

impl Model for Frame {
    ghost use Rattle.gt_frames.specs.Frames.{FrameState, IsSound};
    ghost use Rattle.gt_frames.specs.Writers.{KnowsWriters};

    ghost Value = { FrameState };

    ghost view = { λ f. record {
      owner = f.parts.value.owner;
      number = f.parts.value.number;
      journal = f.parts.value.journal;
    } };

    ghost invariant = { λ f.
        IsSound f.parts.value.owner f.parts.value.number f.parts.value.bytes f.parts.value.journal
        × KnowsWriters f.parts.value.writers f.parts.value.journal };
}

// Lays the bytes over the contents, and keeps by which writ they were written. Fails only if there is no room for a
// new writ.
#[inline(always)]
fn store(
    writers: &mut Writers,
    journal: &mut Journal,
    contents: &mut Contents,
    writ: &Writ,
    off: u16,
    bytes: &[u8],
) -> Result<(), Memory>
    requires size { length contents.old ≡ FRAME_SIZE }
    requires range { off + length bytes.now ≤ FRAME_SIZE }
    requires knows { KnowsWriters writers.old journal.old }
    ensures knows { KnowsWriters writers.new journal.new }
    ensures journal { OnOk result (journal.new ≡ recorded journal.old writ.now off bytes.now) }
    ensures contents { OnOk result (contents.new ≡ overlay contents.old off bytes.now) }
    ensures journal_kept { OnErr result (journal.new ≡ journal.old) }
    ensures contents_kept { OnErr result (contents.new ≡ contents.old) }
{
    let start = usize::from(off);
    match writers.number_of(writ) {
        Ok(number) => {
            writers.show(number, start, bytes.len());
            contents[start..start + bytes.len()].copy_from_slice(bytes);
            journal.add(writ, off, bytes.len(), contents);
            Ok(())
        }
        Err(refused) => Err(refused),
    }
}

// Returns the bytes of this range.
#[inline(always)]
fn range_of(bytes: &[u8], range: Range) -> &[u8]
    requires { range.off + range.len ≤ length bytes.now }
    ensures bytes { result.now ≡ slice_range bytes.now range.off (range.off + range.len) }
    ensures len { length result.now ≡ range.len }
{
    let start = usize::from(range.off);
    &bytes[start..start + usize::from(range.len)]
}

// Lays the bytes over the contents.
#[inline(always)]
fn lay(contents: &mut Contents, off: u16, bytes: &[u8])
    requires size { length contents.old ≡ FRAME_SIZE }
    requires range { off + length bytes.now ≤ FRAME_SIZE }
    ensures contents { contents.new ≡ overlay contents.old off bytes.now }
    ensures laid { slice_range contents.new off (off + length bytes.now) ≡ bytes.now }
{
    let start = usize::from(off);
    contents[start..start + bytes.len()].copy_from_slice(bytes);
}

// Moves a range of the contents within them. The ranges may overlap, so the bytes are first copied out. It is not
// inlined, since its caller would then have room for them too.
#[inline(never)]
fn move_own(contents: &mut Contents, range: Range, to_off: u16)
    requires size { length contents.old ≡ FRAME_SIZE }
    requires source { range.off + range.len ≤ FRAME_SIZE }
    requires range { to_off + range.len ≤ FRAME_SIZE }
    ensures contents { contents.new
        ≡ overlay contents.old to_off (slice_range contents.old range.off (range.off + range.len)) }
    ensures moved { slice_range contents.new to_off (to_off + range.len)
        ≡ slice_range contents.old range.off (range.off + range.len) }
{
    let mut room = [0; FRAME_SIZE as usize];
    let taken = &mut room[..usize::from(range.len)];
    taken.copy_from_slice(range_of(contents, range));
    lay(contents, to_off, taken);
}

// Copies a range of the contents within them, and keeps by which writ.
#[inline(always)]
fn store_own(
    writers: &mut Writers,
    journal: &mut Journal,
    contents: &mut Contents,
    writ: &Writ,
    range: Range,
    to_off: u16,
) -> Result<(), Memory>
    requires size { length contents.old ≡ FRAME_SIZE }
    requires source { range.off + range.len ≤ FRAME_SIZE }
    requires range { to_off + range.len ≤ FRAME_SIZE }
    requires knows { KnowsWriters writers.old journal.old }
    ensures knows { KnowsWriters writers.new journal.new }
    ensures journal { OnOk result (journal.new
        ≡ recorded journal.old writ.now to_off (slice_range contents.old range.off (range.off + range.len))) }
    ensures contents { OnOk result (contents.new
        ≡ overlay contents.old to_off (slice_range contents.old range.off (range.off + range.len))) }
    ensures journal_kept { OnErr result (journal.new ≡ journal.old) }
    ensures contents_kept { OnErr result (contents.new ≡ contents.old) }
{
    let number = writers.number_of(writ)?;
    let (start, len) = (usize::from(to_off), usize::from(range.len));
    writers.show(number, start, len);
    move_own(contents, range, to_off);
    journal.add(writ, to_off, len, contents);
    Ok(())
}

impl Frame {
    ghost use Rattle.gt_frames.specs.Copies.{CanCopy, IsCopy};
    ghost use Rattle.gt_frames.specs.Frames.{contents, covers, IsKept, IsWrite};
    ghost use Rattle.gt_frames.specs.Receipts.{reading_of, writing_of};
    ghost use Rattle.gt_frames.specs.Writers.{last_writ};

    /// Returns a frame of zeros with an empty journal.
    pub fn new(alloc: Global, owner: DomId, number: u64) -> Result<Self, Memory>
        ensures { IfOk result (λ f. f ≡ record { owner = owner; number = number; journal = [] }) }
    {
        let parts = FrameParts {
            owner,
            number,
            bytes: [0; FRAME_SIZE as usize],
            writers: Writers::new(alloc),
            journal: Journal::new(),
        };
        Ok(Frame {
            parts: Box::new(alloc, parts)?,
        })
    }

    /// Returns the owner.
    pub fn owner(&self) -> DomId
        ensures owner { result ≡ self.now.owner }
        ensures kept { IsKept self.now }
        ensures len { length (contents self.now) ≡ FRAME_SIZE }
    {
        self.parts.owner
    }

    /// Returns the frame's number among the owner's frames.
    pub fn number(&self) -> u64
        ensures { result ≡ self.now.number }
    {
        self.parts.number
    }

    /// Returns the writ by which a byte was last written; `None` if it never was.
    pub fn last_writ(&self, at: u16) -> Option<Writ>
        ensures { result ≡ last_writ self.now.journal at None }
    {
        self.parts.writers.last_writ(usize::from(at))
    }

    /// Reads over all of `out`, starting at offset `off`. The length of `out` is the length of the range. It does
    /// not allocate.
    pub fn read(&self, off: u16, mut out: Vec<u8>) -> Read
        requires { off + vec_len out ≤ FRAME_SIZE }
        ensures read { result ≡ reading_of self.now off (vec_len out) }
        ensures len { length result.bytes ≡ vec_len out }
    {
        let len = out.len();
        out.clear();
        self.read_to(off, len, out)
    }

    /// Reads `len` bytes, starting at offset `off`, into `room`, which is empty and has room for them. It does not
    /// allocate.
    pub fn read_to(&self, off: u16, len: usize, mut room: Vec<u8>) -> Read
        requires range { off + len ≤ FRAME_SIZE }
        requires room { (vec_len room ≡ 0) × (len ≤ vec_capacity room) }
        ensures read { result ≡ reading_of self.now off len }
        ensures len { length result.bytes ≡ len }
    {
        let start = usize::from(off);
        let _ = room.extend_from_slice(&self.parts.bytes[start..start + len]);
        Read {
            owner: self.parts.owner,
            number: self.parts.number,
            off,
            bytes: FrameBytes::from(room),
        }
    }

    /// Reads over all of the caller's `out`, starting at offset `off`. It does not allocate.
    #[inline(always)]
    pub fn read_into(&self, off: u16, out: &mut [u8]) -> Filled
        requires { off + length out.old ≤ FRAME_SIZE }
        ensures read { result ≡ reading_of self.now off (length out.old) }
        ensures len { length result.bytes ≡ length out.old }
        ensures filled { out.new ≡ result.bytes }
    {
        let (start, len) = (usize::from(off), out.len());
        out.copy_from_slice(&self.parts.bytes[start..start + len]);
        Filled {
            owner: self.parts.owner,
            number: self.parts.number,
            off,
            len,
            contents: Snapshot::of(&self.parts.bytes),
        }
    }

    /// Writes `bytes`, starting at offset `off`.
    ///
    /// # Errors
    ///
    /// `Memory`, if an allocation fails. The frame is then unchanged.
    #[inline(always)]
    pub fn write<'a>(
        &mut self,
        writ: &Writ,
        off: u16,
        bytes: &'a [u8],
    ) -> Result<Written<'a>, Memory>
        requires range { off + length bytes.now ≤ FRAME_SIZE }
        requires right { IsTrue (covers writ.now self.old.owner self.old.number off (length bytes.now)) }
        ensures written { OnOk result (IsWrite self.old self.new writ.now off bytes.now) }
        ensures kept { IsKept self.new }
        ensures receipt { IfOk result (λ r. r ≡ writing_of self.old off bytes.now writ.now.writer) }
        ensures refused { OnErr result (self.new ≡ self.old) }
    {
        let parts: &mut FrameParts = &mut self.parts;
        store(
            &mut parts.writers,
            &mut parts.journal,
            &mut parts.bytes,
            writ,
            off,
            bytes,
        )?;
        Ok(Written {
            owner: self.parts.owner,
            number: self.parts.number,
            off,
            bytes,
            writer: writ.writer,
        })
    }

    /// Copies a range of another frame, to offset `to_off`.
    ///
    /// # Errors
    ///
    /// `Memory`, if an allocation fails. The frame is then unchanged.
    #[inline(always)]
    pub fn copy_between(
        from: &Frame,
        to: &mut Frame,
        writ: &Writ,
        range: Range,
        to_off: u16,
    ) -> Result<Copied, Memory>
        requires { CanCopy writ.now to.old range to_off }
        ensures { IsCopy from.now to.old to.new writ.now range to_off result }
    {
        let bytes = range_of(&from.parts.bytes, range);
        let parts: &mut FrameParts = &mut to.parts;
        store(
            &mut parts.writers,
            &mut parts.journal,
            &mut parts.bytes,
            writ,
            to_off,
            bytes,
        )?;
        Ok(Copied::of(&CopiedRange {
            source: from.end(range.off),
            dest: to.end(to_off),
            len: range.len,
            writer: writ.writer,
        }))
    }

    /// Copies a range of this frame, to offset `to_off`. The ranges may overlap: the bytes written are those that
    /// the source range held before.
    ///
    /// # Errors
    ///
    /// `Memory`, if an allocation fails. The frame is then unchanged.
    #[inline(always)]
    pub fn copy_within(&mut self, writ: &Writ, range: Range, to_off: u16) -> Result<Copied, Memory>
        requires { CanCopy writ.now self.old range to_off }
        ensures { IsCopy self.old self.old self.new writ.now range to_off result }
    {
        let parts: &mut FrameParts = &mut self.parts;
        store_own(
            &mut parts.writers,
            &mut parts.journal,
            &mut parts.bytes,
            writ,
            range,
            to_off,
        )?;
        Ok(Copied::of(&CopiedRange {
            source: self.end(range.off),
            dest: self.end(to_off),
            len: range.len,
            writer: writ.writer,
        }))
    }

    fn end(&self, off: u16) -> CopiedEnd
        ensures owner { result.owner ≡ self.now.owner }
        ensures number { result.number ≡ self.now.number }
        ensures off { result.off ≡ off }
    {
        CopiedEnd {
            owner: self.parts.owner,
            number: self.parts.number,
            off,
        }
    }
}
