//! A guest's own table: an entry follows the bytes that the guest keeps for it in its own memory.
ghost use Rattle.std.specs.Prelude.{◌≡◌, ◌↔◌, ◌%◌, ◌<◌, IsTrue, IfOk, MatchResult, Some, None};
ghost use Rattle.gt_model.specs.Bytes.{Spells, first_refused, flags_of};
ghost use Rattle.gt_types.specs.Denial.{denial_of};
ghost use Rattle.gt_types.specs.declared.denial.Rule.TheVariants as rules;
ghost use Rattle.gt_types.specs.declared.denial.Facts.TheVariants as facts;
ghost use Rattle.gt_live.specs.Unmarked.{unmarked, unmarked_byte};
ghost use Rattle.gt_live.specs.Following.{IsDue, Means, followed_by};

use super::Domain;
use crate::monitor::Monitor;
use gt_entry::{Entry, EntryChange, decode};
use gt_types::{Allows, Denial, Facts, Field, GrantRef, Rule};

/// The lowest bit that only the hypervisor sets (`GTF_reading` of `grant_table.h`).
const READING: u8 = 8;

/// The lowest bit above those that only the hypervisor sets (`GTF_reading` and `GTF_writing`).
const ABOVE_WRITING: u8 = 32;

/// What [`Domain::follow`] did to the entry.
#[derive(Clone, Copy, Debug, PartialEq, Eq)]
pub enum Followed {
    /// Nothing: the entry is already what the bytes mean.
    Same,
    /// The entry was writable, and is now read-only.
    Demoted,
    /// The entry was read-only, and is now writable.
    Promoted,
    /// The entry was valid, and is now Invalid.
    Withdrawn,
    /// The entry is now the one that the bytes encode. If it was another valid one, that was withdrawn first.
    Granted,
}

// What the bytes of an entry mean: access has ended, an entry is granted, or they encode no entry because of a field.
#[derive(Clone, Copy)]
enum Meaning {
    Ended,
    Grants(Entry),
    NoEntry(Field),
}

// What a domain has to do so that its entry becomes what the bytes mean: nothing, one change, a withdrawal and then a
// grant, a withdrawal and then the refusal of a field, or that refusal only.
#[derive(Clone, Copy)]
enum Due {
    Nothing,
    Change(EntryChange),
    Replace(Entry),
    Close(Field),
    Refuse(Field),
}

// Returns the first byte of an entry without the two bits that only the hypervisor sets.
fn unmarked_byte(byte: u8) -> u8
    ensures { result ≡ unmarked_byte byte }
{
    byte / ABOVE_WRITING * ABOVE_WRITING + byte % READING
}

// Returns the bytes of an entry of version 1 without the bits that only the hypervisor sets.
fn unmarked_v1(bytes: &[u8; 8]) -> [u8; 8]
    ensures { result ≡ unmarked bytes.now }
{
    let mut unmarked = *bytes;
    unmarked[0] = unmarked_byte(bytes[0]);
    unmarked
}

// Returns the bytes of an entry of version 2 without the bits that only the hypervisor sets.
fn unmarked_v2(bytes: &[u8; 16]) -> [u8; 16]
    ensures { result ≡ unmarked bytes.now }
{
    let mut unmarked = *bytes;
    unmarked[0] = unmarked_byte(bytes[0]);
    unmarked
}

// Reads the entry that the bytes encode in a table of this version. The bits that only the hypervisor sets count as
// clear.
fn decode_unmarked(version: u8, bytes: &[u8]) -> Result<Entry, Field>
    ensures ok { IfOk result (Spells version (unmarked bytes.now)) }
    ensures field { MatchResult result (λ _. first_refused version (unmarked bytes.now) ≡ None)
        (λ field. first_refused version (unmarked bytes.now) ≡ Some field) }
{
    if let Some(bytes) = bytes.as_array() {
        return decode(version, &unmarked_v1(bytes));
    }
    if let Some(bytes) = bytes.as_array() {
        return decode(version, &unmarked_v2(bytes));
    }
    Err(Field::Length)
}

// Returns whether the type of an entry is 0 (`GTF_invalid`): its guest has ended access.
fn is_ended(bytes: &[u8]) -> bool
    ensures { IsTrue result ↔ (flags_of bytes.now % 4 ≡ 0) }
{
    bytes.is_empty() || bytes[0] % 4 == 0
}

// Returns what the bytes of an entry mean in a table of this version.
fn meaning_of(version: u8, bytes: &[u8]) -> Meaning
    ensures { Means version bytes.now result }
{
    match decode_unmarked(version, bytes) {
        Ok(entry) => Meaning::Grants(entry),
        Err(field) => {
            if field == Field::Kind && is_ended(bytes) {
                Meaning::Ended
            } else {
                Meaning::NoEntry(field)
            }
        }
    }
}

// Returns what has to be done so that an entry becomes this one, which is not Invalid.
fn due_to_grant(old: Entry, entry: Entry) -> Due
    ensures { IsDue old (Meaning.Grants entry) result }
{
    if old == entry {
        return Due::Nothing;
    }
    if old.with_ro(entry.is_read_only()) == entry {
        return if entry.is_read_only() {
            Due::Change(EntryChange::Demote)
        } else {
            Due::Change(EntryChange::Promote)
        };
    }
    if old.is_invalid() {
        Due::Change(EntryChange::Publish(entry))
    } else {
        Due::Replace(entry)
    }
}

// Returns what has to be done so that an entry becomes what the bytes mean.
fn due_for(old: Entry, meaning: Meaning) -> Due
    ensures { IsDue old meaning result }
{
    match meaning {
        Meaning::Ended if old.is_invalid() => Due::Nothing,
        Meaning::Ended => Due::Change(EntryChange::Withdraw),
        Meaning::Grants(entry) => due_to_grant(old, entry),
        Meaning::NoEntry(field) if old.is_invalid() => Due::Refuse(field),
        Meaning::NoEntry(field) => Due::Close(field),
    }
}

// Returns what a change does, if it is made.
fn followed_by(change: EntryChange) -> Followed
    ensures { result ≡ followed_by change }
{
    match change {
        EntryChange::Publish(_) => Followed::Granted,
        EntryChange::Revoke | EntryChange::Withdraw => Followed::Withdrawn,
        EntryChange::Demote => Followed::Demoted,
        EntryChange::Promote => Followed::Promoted,
    }
}

// Returns the refusal of a field.
fn no_entry(field: Field) -> Denial
    ensures { result ≡ denial_of rules.N25 (facts.Field field) }
{
    Denial::new(Rule::N25, Facts::Field(field))
}

impl Domain {
    ghost use Rattle.std.specs.Prelude.{◌<◌};
    ghost use Rattle.gt_types.specs.declared.limits.TheConstants.{TABLE_ENTRIES};
    ghost use Rattle.gt_live.specs.Domains.{BelongsTo, StaysIn};
    ghost use Rattle.gt_live.specs.Following.{Does, Follows, MakesChange};

    // Makes a change of an entry of the table by the call of its name.
    fn make_change<P: Allows>(
        &mut self,
        monitor: &Monitor<P>,
        gref: GrantRef,
        change: EntryChange,
    ) -> Result<Followed, Denial>
        requires mine { BelongsTo P.may monitor.now self.old }
        requires entry { gref.0 < TABLE_ENTRIES }
        ensures stays { StaysIn P.may monitor.now self.old self.new }
        ensures makes { MakesChange P.may monitor.now self.old gref change result self.new }
    {
        match self.owner_call(monitor, gref, change) {
            Ok(()) => Ok(followed_by(change)),
            Err(denial) => Err(denial),
        }
    }

    // Does what is due to an entry of the table.
    fn make_due<P: Allows>(
        &mut self,
        monitor: &Monitor<P>,
        gref: GrantRef,
        due: Due,
    ) -> Result<Followed, Denial>
        requires mine { BelongsTo P.may monitor.now self.old }
        requires entry { gref.0 < TABLE_ENTRIES }
        ensures stays { StaysIn P.may monitor.now self.old self.new }
        ensures does { Does P.may monitor.now self.old gref due result self.new }
    {
        match due {
            Due::Nothing => Ok(Followed::Same),
            Due::Change(change) => self.make_change(monitor, gref, change),
            Due::Replace(entry) => match self.make_change(monitor, gref, EntryChange::Withdraw) {
                Ok(_) => self.make_change(monitor, gref, EntryChange::Publish(entry)),
                Err(denial) => Err(denial),
            },
            Due::Close(field) => match self.make_change(monitor, gref, EntryChange::Withdraw) {
                Ok(_) => Err(no_entry(field)),
                Err(denial) => Err(denial),
            },
            Due::Refuse(field) => Err(no_entry(field)),
        }
    }

    /// Brings one of the domain's entries to what its guest has written: the bytes are the guest's entry, as its memory
    /// has them. The bits `GTF_reading` and `GTF_writing`, which the hypervisor sets there, count as clear. Bytes of
    /// type 0 (`GTF_invalid`) mean that the guest has ended access. Each change is one of the domain's other calls:
    ///
    /// | The entry | The bytes mean | Calls |
    /// |---|---|---|
    /// | valid | the same entry | none |
    /// | valid | the same but read-only, or the same but writable | `demote`, or `promote` |
    /// | valid | another entry | `withdraw`, then `grant` |
    /// | valid | the guest has ended access | `withdraw` |
    /// | valid | no entry of this table | `withdraw`, then N25 |
    /// | Invalid | an entry | `grant` |
    /// | Invalid | the guest has ended access | none |
    /// | Invalid | no entry of this table | none, then N25 |
    ///
    /// If it is Ok, the entry is what the bytes mean. Like these calls it makes no record, allocates nothing and does
    /// not wait.
    ///
    /// # Errors
    /// N9, N25 with the field refused, or the refusal of a call: N18 (withdraw, demote or promote), N19 (old pins at a
    /// grant, or write pins at a demotion) or N22. The entry is then as before, or Invalid if it was withdrawn.
    pub fn follow<P: Allows>(
        &mut self,
        monitor: &Monitor<P>,
        gref: GrantRef,
        bytes: &[u8],
    ) -> Result<Followed, Denial>
        requires mine { BelongsTo P.may monitor.now self.old }
        ensures stays { StaysIn P.may monitor.now self.old self.new }
        ensures follows { Follows P.may monitor.now self.old gref bytes.now result self.new }
    {
        let header = self.seat.header();
        if gref.0 >= header.entries() {
            return Err(Denial::new(Rule::N9, Facts::None));
        }
        let old = self.own_entry(monitor, gref).entry();
        let due = due_for(old, meaning_of(header.version, bytes));
        self.make_due(monitor, gref, due)
    }
}
