//! Entries as guests write them: the bytes of versions 1 and 2.
ghost use Rattle.std.specs.Prelude.{◌≡◌, ◌+◌, ◌<◌, ℕ, List, Some, None, IfOk, IfErr, IfSome, IfNone, MatchResult};
ghost use Rattle.gt_model.specs.declared.entry.Entry.{Entry};
ghost use Rattle.gt_model.specs.Words.{flag};
ghost use Rattle.gt_model.specs.Bytes.{SpellsV1, SpellsV2, Spells, IsZeroPadded, first_refused, is_set, refused_flag};

use crate::Entry;
use crate::fields::{read_u16, read_u32, read_u64, write_u16, write_u32, write_u64};
use gt_types::{DomId, Field, GrantRef};

/// The type of a page or a sub-page (`GTF_permit_access` of `grant_table.h`).
const PERMIT_ACCESS: u16 = 1;

/// The type of a transitive entry (`GTF_transitive`).
const TRANSITIVE: u16 = 3;

/// The readonly bit: the owner refuses writing (`GTF_readonly`).
const READONLY: u16 = 4;

/// The hypervisor's mark of a live pin (`GTF_reading`). No owner sets it.
const READING: u16 = 8;

/// The hypervisor's mark of a live write pin (`GTF_writing`). No owner sets it.
const WRITING: u16 = 16;

/// A cache bit of mappings (`GTF_PWT`), which this monitor refuses.
const PWT: u16 = 32;

/// A cache bit of mappings (`GTF_PCD`), which this monitor refuses.
const PCD: u16 = 64;

/// A cache bit of mappings (`GTF_PAT`), which this monitor refuses.
const PAT: u16 = 128;

/// The sub-page bit (`GTF_sub_page`), which goes with the type of a page.
const SUB_PAGE: u16 = 256;

/// The lowest bit that is not defined. The bits above it are not defined either.
const FIRST_RESERVED: u16 = 512;

fn is_set(flags: u16, bit: u16) -> bool
    requires { 0 < bit }
    ensures { result ≡ is_set flags bit }
{
    flags / bit % 2 == 1
}

/// Returns the first field of the flags that a table of this version refuses, None if it refuses none.
fn refused_field(version: u8, flags: u16) -> Option<Field>
    ensures { result ≡ refused_flag version flags }
{
    let kind = flags % 4;
    let is_kind = kind == PERMIT_ACCESS || (kind == TRANSITIVE && version == 2);
    if !is_kind {
        Some(Field::Kind)
    } else if is_set(flags, READING) {
        Some(Field::Reading)
    } else if is_set(flags, WRITING) {
        Some(Field::Writing)
    } else if is_set(flags, PWT) {
        Some(Field::Pwt)
    } else if is_set(flags, PCD) {
        Some(Field::Pcd)
    } else if is_set(flags, PAT) {
        Some(Field::Pat)
    } else if is_set(flags, SUB_PAGE) && (version != 2 || kind == TRANSITIVE) {
        Some(Field::SubPage)
    } else if flags >= FIRST_RESERVED {
        Some(Field::Reserved)
    } else {
        None
    }
}

/// Reads the entry that 8 bytes encode in a table of version 1 (`grant_entry_v1`). An error is the first field that
/// is refused.
pub fn decode_v1(bytes: &[u8; 8]) -> Result<Entry, Field>
    ensures ok { IfOk result (SpellsV1 bytes.now) }
    ensures taken { (entry : Entry) → SpellsV1 bytes.now entry → result ≡ Ok entry }
    ensures field { MatchResult result (λ _. first_refused 1 bytes.now ≡ None)
        (λ field. first_refused 1 bytes.now ≡ Some field) }
{
    let flags = read_u16(bytes, 0);
    if let Some(field) = refused_field(1, flags) {
        return Err(field);
    }
    Ok(Entry::Page {
        dom: DomId(read_u16(bytes, 2)),
        ro: is_set(flags, READONLY),
        frame: u64::from(read_u32(bytes, 4)),
    })
}

/// Reads the entry that 16 bytes encode in a table of version 2 (`grant_entry_v2`). An error is the first field
/// that is refused. Padding is ignored.
pub fn decode_v2(bytes: &[u8; 16]) -> Result<Entry, Field>
    ensures ok { IfOk result (SpellsV2 bytes.now) }
    ensures taken { (entry : Entry) → SpellsV2 bytes.now entry → result ≡ Ok entry }
    ensures field { MatchResult result (λ _. first_refused 2 bytes.now ≡ None)
        (λ field. first_refused 2 bytes.now ≡ Some field) }
{
    let flags = read_u16(bytes, 0);
    if let Some(field) = refused_field(2, flags) {
        return Err(field);
    }
    let dom = DomId(read_u16(bytes, 2));
    let ro = is_set(flags, READONLY);
    if flags % 4 == TRANSITIVE {
        return Ok(Entry::Via {
            dom,
            ro,
            dom2: DomId(read_u16(bytes, 4)),
            gref: GrantRef(read_u32(bytes, 8)),
        });
    }
    let frame = read_u64(bytes, 8);
    if !is_set(flags, SUB_PAGE) {
        return Ok(Entry::Page { dom, ro, frame });
    }
    Ok(Entry::Sub {
        dom,
        ro,
        frame,
        off: read_u16(bytes, 4),
        len: read_u16(bytes, 6),
    })
}

/// Reads the entry that these bytes encode in a table of this version. An error is the first field that is refused;
/// the length is checked first. Only tables of version 1 and 2 have entries, so in any other version every length
/// is refused.
pub fn decode(version: u8, bytes: &[u8]) -> Result<Entry, Field>
    ensures ok { IfOk result (Spells version bytes.now) }
    ensures taken { (entry : Entry) → Spells version bytes.now entry → result ≡ Ok entry }
    ensures field { MatchResult result (λ _. first_refused version bytes.now ≡ None)
        (λ field. first_refused version bytes.now ≡ Some field) }
{
    match version {
        1 => match bytes.as_array() {
            Some(bytes) => decode_v1(bytes),
            None => Err(Field::Length),
        },
        2 => match bytes.as_array() {
            Some(bytes) => decode_v2(bytes),
            None => Err(Field::Length),
        },
        _ => Err(Field::Length),
    }
}

fn flags_of(kind: u16, ro: bool) -> u16
    requires { kind < 512 }
    ensures { result ≡ kind + flag ro }
{
    if ro { kind + READONLY } else { kind }
}

/// Returns the 8 bytes that encode the entry in a table of version 1. None for an entry that version 1 can't
/// encode: an invalid entry, a sub-page, a transitive entry, or a frame number of more than 32 bits.
pub fn encode_v1(entry: &Entry) -> Option<[u8; 8]>
    ensures spelled { IfSome result (λ bytes. SpellsV1 bytes entry.now) }
    ensures none { IfNone result ((bytes : List ℕ) → SpellsV1 bytes entry.now → ⊥) }
{
    let Entry::Page { dom, ro, frame } = *entry else {
        return None;
    };
    if frame > u64::from(u32::MAX) {
        return None;
    }
    let mut bytes = [0; 8];
    write_u16(&mut bytes, 0, flags_of(PERMIT_ACCESS, ro));
    write_u16(&mut bytes, 2, dom.0);
    write_u32(&mut bytes, 4, frame as u32);
    Some(bytes)
}

/// Returns the 16 bytes that encode the entry in a table of version 2, with zero padding. None for an invalid
/// entry, which no bytes encode.
pub fn encode_v2(entry: &Entry) -> Option<[u8; 16]>
    ensures spelled { IfSome result (λ bytes. SpellsV2 bytes entry.now) }
    ensures padded { IfSome result (λ bytes. IsZeroPadded bytes entry.now) }
    ensures none { IfNone result ((bytes : List ℕ) → SpellsV2 bytes entry.now → ⊥) }
{
    let mut bytes = [0; 16];
    match *entry {
        Entry::Invalid => return None,
        Entry::Page { dom, ro, frame } => {
            write_u16(&mut bytes, 0, flags_of(PERMIT_ACCESS, ro));
            write_u16(&mut bytes, 2, dom.0);
            write_u64(&mut bytes, 8, frame);
        }
        Entry::Sub {
            dom,
            ro,
            frame,
            off,
            len,
        } => {
            write_u16(&mut bytes, 0, flags_of(PERMIT_ACCESS + SUB_PAGE, ro));
            write_u16(&mut bytes, 2, dom.0);
            write_u16(&mut bytes, 4, off);
            write_u16(&mut bytes, 6, len);
            write_u64(&mut bytes, 8, frame);
        }
        Entry::Via {
            dom,
            ro,
            dom2,
            gref,
        } => {
            write_u16(&mut bytes, 0, flags_of(TRANSITIVE, ro));
            write_u16(&mut bytes, 2, dom.0);
            write_u16(&mut bytes, 4, dom2.0);
            write_u32(&mut bytes, 8, gref.0);
        }
    }
    Some(bytes)
}

/// Proves that no bytes encode two entries in tables of one version.
pub fn every_spelling_is_of_one_entry()
    ensures first { (bytes : List ℕ) (a b : Entry) → SpellsV1 bytes a → SpellsV1 bytes b → a ≡ b }
    ensures second { (bytes : List ℕ) (a b : Entry) → SpellsV2 bytes a → SpellsV2 bytes b → a ≡ b }
{}
