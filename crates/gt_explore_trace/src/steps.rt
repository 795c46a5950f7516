//! The facts of a step of a call, and of what it saw.
ghost use Rattle.std.specs.Prelude.{◌≡◌, ◌++◌, OnOk, codes};
ghost use Rattle.gt_explore_trace.specs.Steps.{access_start, change_name, copy_step_text, dir_name, entry_part};
ghost use Rattle.gt_explore_trace.specs.Steps.{exchange_text, from_part, header_look_text, header_text, look_letters};
ghost use Rattle.gt_explore_trace.specs.Steps.{look_text, pin_text, range_part, read_text, seen_part, step_text};
ghost use Rattle.gt_explore_trace.specs.Steps.{store_letters, store_text, taken_part, taken_pin_text, to_part};
ghost use Rattle.gt_explore_trace.specs.Steps.{write_text};

use crate::facts::{TraceForm, push_move_part, push_number_part, push_value_part, push_word_part};
use gt_core::{EntryChange, HeldPin, Observation, Spot, Step};
use gt_entry::BodyWord;
use gt_text::push_text;
use gt_types::{Dir, DomId, GrantRef};
use std::alloc::{AllocError, Global};

// Appends an entry: its owner and its reference.
fn push_entry(
    out: &mut Vec<u8>,
    form: TraceForm,
    dom: DomId,
    gref: GrantRef,
) -> Result<(), AllocError>
    ensures { OnOk result (out.new.items ≡ out.old.items ++ entry_part form dom gref) }
{
    push_number_part(out, form, "owner", dom.0)?;
    push_number_part(out, form, "ref", gref.0)
}

fn dir_name(dir: Dir) -> &'static str
    ensures { result.now ≡ dir_name dir }
{
    match dir {
        Dir::Read => "read",
        Dir::Write => "write",
    }
}

// Appends a step that takes or drops a pin, by its letter.
fn push_pin(
    out: &mut Vec<u8>,
    form: TraceForm,
    letter: &str,
    pin: HeldPin,
) -> Result<(), AllocError>
    ensures { OnOk result (out.new.items ≡ out.old.items ++ pin_text form letter.now pin) }
{
    push_move_part(out, form, letter)?;
    push_entry(out, form, pin.dom, pin.gref)?;
    push_value_part(out, form, "pin", dir_name(pin.dir))
}

fn change_name(change: EntryChange) -> &'static str
    ensures { result.now ≡ change_name change }
{
    match change {
        EntryChange::Publish(_) => "publish",
        EntryChange::Revoke => "revoke",
        EntryChange::Withdraw => "withdraw",
        EntryChange::Demote => "demote",
        EntryChange::Promote => "promote",
    }
}

// Appends a range of a frame: the owner, the frame, the offset and the length.
#[tactic(auto, unfolding(crate::specs::Steps::range_part))]
fn push_range(
    out: &mut Vec<u8>,
    form: TraceForm,
    dom: DomId,
    frame: u64,
    off: u16,
    len: usize,
) -> Result<(), AllocError>
    ensures { OnOk result (out.new.items ≡ out.old.items ++ range_part form dom frame off len) }
{
    push_number_part(out, form, "owner", dom.0)?;
    push_number_part(out, form, "frame", frame)?;
    push_number_part(out, form, "off", off)?;
    push_number_part(out, form, "len", len)
}

// Appends where a copy starts to read: the owner, the frame and the offset.
#[tactic(auto, unfolding(crate::specs::Steps::from_part))]
fn push_from(out: &mut Vec<u8>, form: TraceForm, at: Spot) -> Result<(), AllocError>
    ensures { OnOk result (out.new.items ≡ out.old.items ++ from_part form at) }
{
    push_number_part(out, form, "from_owner", at.frame.owner.0)?;
    push_number_part(out, form, "from_frame", at.frame.number)?;
    push_number_part(out, form, "from_off", at.off)
}

// Appends where a copy starts to write: the owner, the frame and the offset.
#[tactic(auto, unfolding(crate::specs::Steps::to_part))]
fn push_to(out: &mut Vec<u8>, form: TraceForm, at: Spot) -> Result<(), AllocError>
    ensures { OnOk result (out.new.items ≡ out.old.items ++ to_part form at) }
{
    push_number_part(out, form, "to_owner", at.frame.owner.0)?;
    push_number_part(out, form, "to_frame", at.frame.number)?;
    push_number_part(out, form, "to_off", at.off)
}

fn look_letters(body_word: BodyWord) -> &'static str
    ensures { result.now ≡ look_letters body_word }
{
    match body_word {
        BodyWord::First => "B0",
        BodyWord::Second => "B1",
    }
}

fn store_letters(body_word: BodyWord) -> &'static str
    ensures { result.now ≡ store_letters body_word }
{
    match body_word {
        BodyWord::First => "S0",
        BodyWord::Second => "S1",
    }
}

// Appends a load of a word of an entry, by its letters.
fn push_look(
    out: &mut Vec<u8>,
    form: TraceForm,
    letters: &str,
    dom: DomId,
    gref: GrantRef,
) -> Result<(), AllocError>
    ensures { OnOk result (out.new.items ≡ out.old.items ++ look_text form letters.now dom gref) }
{
    push_move_part(out, form, letters)?;
    push_entry(out, form, dom, gref)
}

// Appends the letter of an access to bytes, and its kind.
fn push_access(out: &mut Vec<u8>, form: TraceForm, access: &str) -> Result<(), AllocError>
    ensures { OnOk result (out.new.items ≡ out.old.items ++ access_start form access.now) }
{
    push_move_part(out, form, "A")?;
    push_value_part(out, form, "access", access)
}

// Appends an exchange of a control word by its owner.
#[tactic(auto, unfolding(crate::specs::Steps::exchange_text))]
fn push_exchange(
    alloc: Global,
    out: &mut Vec<u8>,
    form: TraceForm,
    place: (DomId, GrantRef),
    looked: u64,
    change: EntryChange,
) -> Result<(), AllocError>
    ensures { OnOk result (out.new.items ≡ out.old.items ++ exchange_text form place.0 place.1 looked change) }
{
    let (dom, gref) = place;
    push_move_part(out, form, "X")?;
    push_entry(out, form, dom, gref)?;
    push_value_part(out, form, "change", change_name(change))?;
    push_word_part(alloc, out, form, "from", looked)
}

// Appends a store of the header word of a table.
#[tactic(auto, unfolding(crate::specs::Steps::header_text))]
fn push_header(
    out: &mut Vec<u8>,
    form: TraceForm,
    dom: DomId,
    version: u32,
    frames: u32,
) -> Result<(), AllocError>
    ensures { OnOk result (out.new.items ≡ out.old.items ++ header_text form dom version frames) }
{
    push_move_part(out, form, "W")?;
    push_number_part(out, form, "owner", dom.0)?;
    push_number_part(out, form, "version", version)?;
    push_number_part(out, form, "frames", frames)
}

// Appends a copy of bytes.
#[tactic(auto, unfolding(crate::specs::Steps::copy_step_text))]
fn push_copy(
    out: &mut Vec<u8>,
    form: TraceForm,
    from: Spot,
    to: Spot,
    len: u16,
) -> Result<(), AllocError>
    ensures { OnOk result (out.new.items ≡ out.old.items ++ copy_step_text form from to len) }
{
    push_access(out, form, "copy")?;
    push_from(out, form, from)?;
    push_to(out, form, to)?;
    push_number_part(out, form, "len", len)
}

// Appends a load of the header word of a table.
fn push_header_look(out: &mut Vec<u8>, form: TraceForm, owner: DomId) -> Result<(), AllocError>
    ensures { OnOk result (out.new.items ≡ out.old.items ++ header_look_text form owner) }
{
    push_move_part(out, form, "H")?;
    push_number_part(out, form, "owner", owner.0)
}

// Appends a step that takes a pin, and the word that it looked at.
fn push_taken_pin(
    alloc: Global,
    out: &mut Vec<u8>,
    form: TraceForm,
    held: HeldPin,
) -> Result<(), AllocError>
    ensures { OnOk result (out.new.items ≡ out.old.items ++ taken_pin_text form held) }
{
    push_pin(out, form, "P", held)?;
    push_word_part(alloc, out, form, "from", held.word)
}

// Appends a store of a body word of an entry.
fn push_store(
    alloc: Global,
    out: &mut Vec<u8>,
    form: TraceForm,
    place: (DomId, GrantRef),
    body_word: BodyWord,
    word: u64,
) -> Result<(), AllocError>
    ensures { OnOk result (out.new.items ≡ out.old.items ++ store_text form place.0 place.1 body_word word) }
{
    let (dom, gref) = place;
    push_move_part(out, form, store_letters(body_word))?;
    push_entry(out, form, dom, gref)?;
    push_word_part(alloc, out, form, "word", word)
}

// Appends a read of bytes of a frame.
fn push_read(
    out: &mut Vec<u8>,
    form: TraceForm,
    owner: DomId,
    frame: u64,
    off: u16,
    len: u16,
) -> Result<(), AllocError>
    ensures { OnOk result (out.new.items ≡ out.old.items ++ read_text form owner frame off len) }
{
    push_access(out, form, "read")?;
    push_range(out, form, owner, frame, off, usize::from(len))
}

// Appends a write of bytes of a frame.
fn push_write(
    out: &mut Vec<u8>,
    form: TraceForm,
    owner: DomId,
    frame: u64,
    off: u16,
    len: usize,
) -> Result<(), AllocError>
    ensures { OnOk result (out.new.items ≡ out.old.items ++ write_text form owner frame off len) }
{
    push_access(out, form, "write")?;
    push_range(out, form, owner, frame, off, len)
}

/// Appends a step of a call of this domain.
#[tactic(auto, unfolding(crate::specs::Steps::step_text))]
pub fn push_step(
    alloc: Global,
    out: &mut Vec<u8>,
    form: TraceForm,
    dom: DomId,
    step: Step,
) -> Result<(), AllocError>
    ensures { OnOk result (out.new.items ≡ out.old.items ++ step_text form dom step) }
{
    match step {
        Step::LookHeader { dom: owner } => push_header_look(out, form, owner),
        Step::LookControl { dom: owner, gref } => push_look(out, form, "C", owner, gref),
        Step::LookBody {
            dom: owner,
            gref,
            body_word,
        } => push_look(out, form, look_letters(body_word), owner, gref),
        Step::Pin { held } => push_taken_pin(alloc, out, form, held),
        Step::Unpin { held, .. } => push_pin(out, form, "U", held),
        Step::StoreBody {
            gref,
            body_word,
            word,
        } => push_store(alloc, out, form, (dom, gref), body_word, word),
        Step::Exchange {
            gref,
            looked,
            change,
        } => push_exchange(alloc, out, form, (dom, gref), looked, change),
        Step::StoreHeader { version, frames } => push_header(out, form, dom, version, frames),
        Step::Read {
            dom: owner,
            frame,
            off,
            len,
        } => push_read(out, form, owner, frame, off, len),
        Step::Write {
            dom: owner,
            frame,
            off,
            len,
        } => push_write(out, form, owner, frame, off, len),
        Step::Copy { from, to, len } => push_copy(out, form, from, to, len),
    }
}

// Returns the fact that an exchange was taken.
fn taken_part(form: TraceForm) -> &'static str
    ensures { result.now ≡ taken_part form }
{
    match form {
        TraceForm::Json => ",\"taken\":true",
        TraceForm::Text | TraceForm::Mermaid => " taken",
    }
}

/// Appends what a step saw.
pub fn push_seen(
    alloc: Global,
    out: &mut Vec<u8>,
    form: TraceForm,
    seen: Observation,
) -> Result<(), AllocError>
    ensures { OnOk result (out.new.items ≡ out.old.items ++ seen_part form seen) }
{
    match seen {
        Observation::Nothing => Ok(()),
        Observation::Word(word) => push_word_part(alloc, out, form, "saw", word),
        Observation::Taken => push_text(out, taken_part(form)),
        Observation::Missed(word) => push_word_part(alloc, out, form, "missed", word),
    }
}
