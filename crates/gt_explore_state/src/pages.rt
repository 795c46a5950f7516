//! The bytes of the frames that were written to.
ghost use Rattle.std.specs.Prelude.{◌≡◌, ◌≤◌, ◌+◌, ℕ, Some, IfOk, OnOk, length, position, take, drop, vec_len};
ghost use Rattle.gt_types.specs.declared.limits.TheConstants.{FRAME_SIZE};
ghost use Rattle.gt_model.specs.Written.{overlay};
ghost use Rattle.gt_explore_state.specs.Pages.{is_page_of, kept_bytes, padded, page_contents, WritesPage};

use crate::lists::lengthen;
use gt_types::DomId;
use std::alloc::{AllocError, Global};

/// The bytes of a frame up to the last one that was written. All later ones are zero.
#[derive(Drop)]
pub struct SparsePage {
    pub owner: DomId,
    pub frame: u64,
    pub bytes: Vec<u8>,
}

impl SparsePage {
    ghost use Rattle.std.specs.Prelude.{◌≡◌, ◌==◌, ◌&&◌, IfOk};
    ghost use Rattle.gt_explore_state.specs.Copies.{SamePage};
    ghost use Rattle.gt_explore_state.specs.Pages.{is_page_of};

    /// Copies the page.
    pub fn copy(&self, alloc: Global) -> Result<SparsePage, AllocError>
        ensures { IfOk result (SamePage self.now) }
    {
        Ok(SparsePage {
            owner: self.owner,
            frame: self.frame,
            bytes: Vec::from_slice(alloc, self.bytes.as_slice())?,
        })
    }

    // Returns whether it is of this frame.
    fn is_of(&self, owner: DomId, frame: u64) -> bool
        ensures { result ≡ is_page_of owner.0 frame self.now }
    {
        self.owner == owner && self.frame == frame
    }

    // Returns whether it comes after this frame in the order of pages.
    fn is_past(&self, owner: DomId, frame: u64) -> bool {
        self.owner.0 > owner.0 || (self.owner == owner && self.frame > frame)
    }
}

// Returns the index of the first page of a frame.
fn place_in(pages: &[SparsePage], owner: DomId, frame: u64) -> Option<usize>
    ensures { result ≡ position (is_page_of owner.0 frame) pages.now }
{
    pages.iter().position(|page| page.is_of(owner, frame))
}

// Returns the bytes that the page of a frame keeps.
fn kept(pages: &[SparsePage], owner: DomId, frame: u64) -> &[u8]
    ensures { result.now ≡ kept_bytes pages.now owner.0 frame }
{
    match place_in(pages, owner, frame) {
        Some(at) => pages[at].bytes.as_slice(),
        None => &[],
    }
}

/// Reads `len` bytes of a frame, starting at `off`.
pub fn read(
    alloc: Global,
    pages: &[SparsePage],
    owner: DomId,
    frame: u64,
    off: u16,
    len: u16,
) -> Result<Vec<u8>, AllocError>
    ensures { off + len ≤ FRAME_SIZE →
        IfOk result (λ v. v.items ≡ take len (drop off (page_contents pages.now owner.0 frame))) }
{
    let held = kept(pages, owner, frame);
    let start = usize::from(off).min(held.len());
    let end = (usize::from(off) + usize::from(len)).min(held.len());
    let mut out = Vec::from_slice(alloc, &held[start..end])?;
    out.resize(usize::from(len), 0)?;
    Ok(out)
}

// Returns the index for a page of a frame that has none. Pages are in the order of their frames.
fn place_for(pages: &[SparsePage], owner: DomId, frame: u64) -> usize
    ensures { result ≤ length pages.now }
{
    match pages.iter().position(|page| page.is_past(owner, frame)) {
        Some(at) => at,
        None => pages.len(),
    }
}

// Returns the index of the page of a frame, and makes the page if there is none.
fn made_page(
    alloc: Global,
    pages: &mut Vec<SparsePage>,
    owner: DomId,
    frame: u64,
) -> Result<usize, AllocError>
    ensures place { IfOk result (λ at. position (is_page_of owner.0 frame) pages.new.items ≡ Some at) }
    ensures same { OnOk result ((t f : ℕ) → kept_bytes pages.new.items t f ≡ kept_bytes pages.old.items t f) }
{
    if let Some(at) = place_in(pages.as_slice(), owner, frame) {
        return Ok(at);
    }
    let at = place_for(pages.as_slice(), owner, frame);
    let page = SparsePage {
        owner,
        frame,
        bytes: Vec::new(alloc),
    };
    pages.insert(at, page)?;
    Ok(at)
}

// Writes these bytes over the kept ones, starting at `off`. The kept ones reach at least to the end of these.
fn cover(held: &mut Vec<u8>, off: u16, bytes: &[u8])
    requires { off + length bytes.now ≤ vec_len held.old }
    ensures { held.new.items ≡ overlay held.old.items off bytes.now }
{
    let start = usize::from(off);
    held[start..start + bytes.len()].copy_from_slice(bytes);
}

// Writes these bytes over the kept ones, starting at `off`, and lengthens those first if need be.
fn lay(held: &mut Vec<u8>, off: u16, bytes: &[u8]) -> Result<(), AllocError>
    ensures { off ≤ FRAME_SIZE → OnOk result (padded held.new.items ≡ overlay (padded held.old.items) off bytes.now) }
{
    lengthen(held, usize::from(off) + bytes.len(), 0)?;
    cover(held, off, bytes);
    Ok(())
}

/// Writes the bytes to a frame, starting at `off`. After an error the pages must not be used.
pub fn write(
    alloc: Global,
    pages: &mut Vec<SparsePage>,
    owner: DomId,
    frame: u64,
    off: u16,
    bytes: &[u8],
) -> Result<(), AllocError>
    ensures { off ≤ FRAME_SIZE →
        OnOk result (WritesPage pages.old.items pages.new.items owner.0 frame off bytes.now) }
{
    let at = made_page(alloc, pages, owner, frame)?;
    lay(&mut pages[at].bytes, off, bytes)
}
