//! A copy in two halves, for a program that keeps the frames: its beginning and its end.
ghost use Rattle.std.specs.Prelude.{◌≡◌, ◌≤◌, Ok};
ghost use Rattle.gt_attached.specs.Encoding.{encoded};
ghost use Rattle.gt_attached.specs.declared.answer.AttachedOutcome.TheVariants as outcomes;
ghost use Rattle.gt_c.specs.Promises.{BeginsCopy};
ghost use Rattle.gt_c.specs.Reports.{CopyEnds, copy_asked, end_asked, no_copy_places, place_report, places_report};

use crate::calls::MOST;
use crate::handle::DomainHandle;
use crate::lending::lent_mut;
use crate::mappings::{is_turned_away, store_no_domain};
use gt_attached::{AttachedOutcome, CopyEnd, CopyPlaces, EncodedAnswer};
use gt_calls::{CopyArgs, End, Spot};
use gt_types::{Denial, DomId, Facts, Rule};

/// The arguments of a copy. Bit 0 of the flags is set if the source is a grant reference, bit 1 if the destination is
/// one (`GNTCOPY_*` of `grant_table.h`).
#[repr(C)]
#[derive(Clone, Copy)]
pub struct CopySettings {
    pub source: CopyEnd,
    pub dest: CopyEnd,
    pub len: u32,
    pub flags: u32,
}

/// A place in a frame.
#[repr(C)]
#[derive(Clone, Copy)]
pub struct PlaceReport {
    pub frame: u64,
    pub owner: u32,
    pub off: u32,
}

/// The places of a copy: `len` bytes may be read at `from` and written at `to`.
#[repr(C)]
#[derive(Clone, Copy)]
pub struct PlacesReport {
    pub from: PlaceReport,
    pub to: PlaceReport,
    pub len: u32,
}

/// Whether a copy began, and its places: all zeros if it did not.
#[repr(C)]
#[derive(Clone, Copy)]
pub struct BegunReport {
    pub answer: EncodedAnswer,
    pub places: PlacesReport,
}

#[inline(always)]
fn end_asked(end: CopyEnd) -> End
    requires fits { (end.dom ≤ 65535) × (end.off ≤ 65535) }
    ensures { result ≡ end_asked end }
{
    End {
        ptr: end.ptr,
        domid: DomId(end.dom as u16),
        offset: end.off as u16,
    }
}

// Returns the copy that C asks for, with these flags, or the rule that refuses it because a number does not fit.
#[inline(always)]
fn copy_asked(copy: &CopySettings, flags: u32) -> Result<CopyArgs, Rule>
    requires flags { flags ≡ copy.now.flags }
    ensures { result ≡ copy_asked copy.now }
{
    if copy.source.dom > MOST || copy.dest.dom > MOST {
        return Err(Rule::N1);
    }
    if flags > MOST {
        return Err(Rule::N2);
    }
    if copy.source.off > MOST || copy.dest.off > MOST || copy.len > MOST {
        return Err(Rule::N3);
    }
    Ok(CopyArgs {
        source: end_asked(copy.source),
        dest: end_asked(copy.dest),
        len: copy.len as u16,
        flags: flags as u16,
    })
}

#[inline(always)]
fn place_report(place: Spot) -> PlaceReport
    ensures { result ≡ place_report place }
{
    PlaceReport {
        frame: place.frame.number,
        owner: u32::from(place.frame.owner.0),
        off: u32::from(place.off),
    }
}

const NO_PLACE: PlaceReport = PlaceReport {
    frame: 0,
    owner: 0,
    off: 0,
};

// Converts the places of a copy.
#[inline(always)]
fn places_report(places: CopyPlaces) -> PlacesReport
    ensures { result ≡ places_report (Ok places) }
{
    PlacesReport {
        from: place_report(places.from),
        to: place_report(places.to),
        len: u32::from(places.len),
    }
}

// Returns the places of a copy that did not begin: zeros.
fn no_places() -> PlacesReport
    ensures { result ≡ no_copy_places }
{
    PlacesReport {
        from: NO_PLACE,
        to: NO_PLACE,
        len: 0,
    }
}

// Like those of a map, the answers to a copy are stored where the caller wants them, and the rare ones by functions that
// are not inlined.
#[cold]
#[inline(never)]
fn store_no_copy(answer: &mut EncodedAnswer)
    ensures { answer.new ≡ encoded outcomes.NoCopy }
{
    *answer = EncodedAnswer::of(AttachedOutcome::NoCopy);
}

#[cold]
#[inline(never)]
fn store_refusal_apart(begun: &mut BegunReport, denial: Denial)
    ensures answer { begun.new.answer ≡ encoded (outcomes.Denied denial) }
    ensures places { begun.new.places ≡ no_copy_places }
{
    let answer = EncodedAnswer::of(AttachedOutcome::Denied(denial));
    let places = no_places();
    *begun = BegunReport { answer, places };
}

// Stores why a copy did not begin. It is inlined, so that only such a copy makes room for the refusal.
#[inline(always)]
fn store_refused_copy(begun: &mut BegunReport, denial: Denial)
    ensures answer { begun.new.answer ≡ encoded (outcomes.Denied denial) }
    ensures places { begun.new.places ≡ no_copy_places }
{
    store_refusal_apart(begun, denial);
}

// Stores that a copy began, and its places.
#[inline(always)]
fn store_begun(begun: &mut BegunReport, places: CopyPlaces)
    ensures answer { begun.new.answer ≡ encoded outcomes.Done }
    ensures places { begun.new.places ≡ places_report (Ok places) }
{
    begun.answer = EncodedAnswer::of(AttachedOutcome::Done);
    begun.places = places_report(places);
}

// The flags of a copy from a grant to a frame of the caller. Such a copy has a body for itself, in which the flags are a
// constant.
const FROM_GRANT: u32 = 1;

struct FromGrant;

// Begins a copy with these flags.
#[inline(always)]
fn begin_copy<Site>(
    domain: &mut DomainHandle,
    copy: &CopySettings,
    flags: u32,
    begun: &mut BegunReport,
)
    requires flags { flags ≡ copy.now.flags }
    ensures { BeginsCopy copy.now begun.new domain.old.held.value domain.new.held.value }
{
    if is_turned_away(domain, &mut begun.answer) {
        begun.places = no_places();
        return;
    }
    let lent = lent_mut(&mut domain.held);
    let args = match copy_asked(copy, flags) {
        Ok(args) => args,
        Err(rule) => {
            store_refused_copy(begun, Denial::new(rule, Facts::None));
            return;
        }
    };
    match lent.attached.copy_begin_at::<Site>(&args) {
        Ok(places) => {
            domain.is_ready = false;
            store_begun(begun, places);
        }
        Err(denial) => {
            domain.is_ready = true;
            store_refused_copy(begun, denial);
        }
    }
}

// Begins a copy with any flags.
#[inline(never)]
fn begin_any(domain: &mut DomainHandle, copy: &CopySettings, begun: &mut BegunReport)
    ensures { BeginsCopy copy.now begun.new domain.old.held.value domain.new.held.value }
{
    begin_copy::<()>(domain, copy, copy.flags, begun);
}

/// Begins a copy: takes its pins, and stores the places where bytes may be read and written until it ends. After a
/// refusal no pin is kept, and the places are all zeros. A domain's number above 65,535 is refused by N1, flags by N2, an
/// offset or a length by N3.
#[unsafe(no_mangle)]
pub extern "C" fn gthost_copy_begin_at(
    domain: &mut DomainHandle,
    copy: &CopySettings,
    begun: &mut BegunReport,
)
    ensures { BeginsCopy copy.now begun.new domain.old.held.value domain.new.held.value }
{
    if copy.flags == FROM_GRANT {
        begin_copy::<FromGrant>(domain, copy, FROM_GRANT, begun);
    } else {
        begin_any(domain, copy, begun);
    }
}

/// Ends the copy that the domain is in: releases its pins, the last one first. Stores the control words that this left.
#[unsafe(no_mangle)]
pub extern "C" fn gthost_copy_end_at(domain: &mut DomainHandle, answer: &mut EncodedAnswer)
    ensures { CopyEnds answer.new domain.old.held.value domain.new.held.value }
{
    if !domain.is_live {
        store_no_domain(answer);
        return;
    }
    let lent = lent_mut(&mut domain.held);
    if !lent.attached.is_copying() {
        store_no_copy(answer);
        return;
    }
    let left = lent.attached.copy_end();
    domain.is_ready = true;
    *answer = EncodedAnswer::of(AttachedOutcome::Ended(left));
}
