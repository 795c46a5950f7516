//! Worked runs of two domains, and what each of them saw.
ghost use Rattle.gt_words.specs.Conditions.{HasDomain, IsSeatOf};
ghost use Rattle.test_words.specs.Rows.{BeginsWorkedRun};

use crate::calls::{
    ENTRY, Row, look, page, pin_twice, publish, revoke, revoke_pinned, try_pin, turn,
    withdraw_pinned,
};
use gt_types::{Dir, DomId};
use gt_words::{Pin, Seat, Words};
use std::alloc::{AllocError, Global};

/// The domain whose entry is used.
pub(crate) const OWNER: DomId = DomId(1);

/// The domain that pins it.
pub(crate) const OTHER: DomId = DomId(2);

/// A worked run. At its start the owner has granted a page with frame 5 to the other domain.
#[derive(Clone, Copy)]
pub(crate) enum Case {
    /// The other looks at the page. The owner revokes it and grants another one, and then the other tries to pin the
    /// first. Seen are the word looked at, the invalid word after the revocation, and the word that the pin found.
    Anew,
    /// The owner tries to revoke the page while it has a read pin, and while it has a write pin. Then come the word
    /// with none, and a revocation.
    Pinned,
    /// The owner withdraws the page under a write pin, and grants another before and after the pin is released. Seen
    /// are the word of the withdrawn page, both answers, and the word of the new page.
    Withdrawn,
    /// The other takes two pins and releases them. Seen are the words with two, with one and with none.
    Twice,
    /// The owner demotes the page, promotes it, promotes it again and revokes it. The other sees the word after each of
    /// the first two changes.
    Turned,
}

/// One thing that a run saw.
#[derive(Clone, Copy)]
pub(crate) enum Sign {
    /// A control word.
    Word(u64),
    /// A call was done.
    Done,
    /// A call was not made.
    Not,
    /// A call found this word.
    Found(u64),
    /// No more was seen.
    End,
}

use self::Sign::{Done, End, Found, Not, Word};

/// What a run saw, in order.
pub(crate) type Signs = [Sign; 6];

fn of_answer(answer: Result<(), u64>) -> Sign {
    match answer {
        Ok(()) => Done,
        Err(word) => Found(word),
    }
}

fn of_change(answer: Result<bool, u64>) -> Sign {
    match answer {
        Ok(true) => Done,
        Ok(false) => Not,
        Err(word) => Found(word),
    }
}

fn of_pin(answer: Option<Result<Pin, u64>>) -> Sign {
    match answer {
        None => Not,
        Some(Ok(_)) => Done,
        Some(Err(word)) => Found(word),
    }
}

fn of_try(answer: Option<Result<(), u64>>) -> Sign {
    match answer {
        None => Not,
        Some(answer) => of_answer(answer),
    }
}

fn anew(words: &Words, owner: &mut Seat, other: &mut Seat, row: &mut Row) -> Signs
    requires { BeginsWorkedRun words.now owner.old other.old row.old.generation row.old.entry }
{
    let sight = look(words, other, OWNER, ENTRY);
    let _ = revoke(words, owner, row);
    let idle = words.load_control(owner, OWNER, ENTRY);
    let _ = publish(words, owner, row, page(6));
    let late = try_pin(words, other, OWNER, ENTRY, &sight, Dir::Read);
    [Word(sight.word), Word(idle), of_pin(late), End, End, End]
}

fn pinned(words: &Words, owner: &mut Seat, other: &mut Seat, row: &mut Row) -> Signs
    requires { BeginsWorkedRun words.now owner.old other.old row.old.generation row.old.entry }
{
    let read = revoke_pinned(words, owner, other, row, Dir::Read);
    let write = revoke_pinned(words, owner, other, row, Dir::Write);
    let idle = words.load_control(owner, OWNER, ENTRY);
    let last = revoke(words, owner, row);
    [
        of_try(read),
        of_try(write),
        Word(idle),
        of_answer(last),
        End,
        End,
    ]
}

fn withdrawn(words: &Words, owner: &mut Seat, other: &mut Seat, row: &mut Row) -> Signs
    requires { BeginsWorkedRun words.now owner.old other.old row.old.generation row.old.entry }
{
    let done = withdraw_pinned(words, owner, other, row, page(6));
    let word = words.load_control(owner, OWNER, ENTRY);
    match done {
        None => [Not, Word(word), End, End, End, End],
        Some((closed, early, late)) => [
            Word(closed),
            of_answer(early),
            of_answer(late),
            Word(word),
            End,
            End,
        ],
    }
}

fn twice(words: &Words, owner: &mut Seat, other: &mut Seat) -> Signs
    requires owner { IsSeatOf words.now owner.old }
    requires other { IsSeatOf words.now other.old }
    requires domain { HasDomain words.now.layout (record { 0 = 1 }) }
{
    match pin_twice(words, owner, other, OWNER, ENTRY) {
        None => [Not, End, End, End, End, End],
        Some((both, one, none)) => [Word(both), Word(one), Word(none), End, End, End],
    }
}

fn turned(words: &Words, owner: &mut Seat, other: &mut Seat, row: &mut Row) -> Signs
    requires { BeginsWorkedRun words.now owner.old other.old row.old.generation row.old.entry }
{
    let demoted = turn(words, owner, row, true);
    let read_only = look(words, other, OWNER, ENTRY).word;
    let promoted = turn(words, owner, row, false);
    let writable = look(words, other, OWNER, ENTRY).word;
    let again = turn(words, owner, row, false);
    let last = revoke(words, owner, row);
    [
        of_change(demoted),
        Word(read_only),
        of_change(promoted),
        Word(writable),
        of_change(again),
        of_answer(last),
    ]
}

/// Makes the run.
pub(crate) fn seen(
    case: Case,
    words: &Words,
    owner: &mut Seat,
    other: &mut Seat,
    row: &mut Row,
) -> Signs
    requires { BeginsWorkedRun words.now owner.old other.old row.old.generation row.old.entry }
{
    match case {
        Case::Anew => anew(words, owner, other, row),
        Case::Pinned => pinned(words, owner, other, row),
        Case::Withdrawn => withdrawn(words, owner, other, row),
        Case::Twice => twice(words, owner, other),
        Case::Turned => turned(words, owner, other, row),
    }
}

/// The headers of both domains as both seats see them, in words.
pub(crate) fn headers(words: &Words, owner: &mut Seat, other: &mut Seat) -> [u64; 8]
    requires owner { IsSeatOf words.now owner.old }
    requires other { IsSeatOf words.now other.old }
    requires domains { HasDomain words.now.layout (record { 0 = 1 }) × HasDomain words.now.layout (record { 0 = 2 }) }
{
    let before = words.load_header(other, OWNER);
    let own_before = words.load_header(other, OTHER);
    words.set_version(owner, 2);
    words.setup(other, 3);
    let one = words.load_header(owner, OWNER);
    let two = words.load_header(owner, OTHER);
    let three = words.load_header(owner, OTHER);
    let four = words.load_header(owner, OWNER);
    let five = words.load_header(other, OWNER);
    let six = words.load_header(other, OTHER);
    [before, own_before, one, two, three, four, five, six]
}

// Returns a sign as a text, with words in base 16.
fn sign_text(alloc: Global, sign: Sign) -> Result<String, AllocError> {
    match sign {
        Word(word) => format!(in alloc; "{word:x} "),
        Done => String::from_str(alloc, "done "),
        Not => String::from_str(alloc, "not "),
        Found(word) => format!(in alloc; "found {word:x} "),
        End => Ok(String::new(alloc)),
    }
}

/// Returns the signs as a text, each followed by a space.
pub(crate) fn text(alloc: Global, signs: Signs) -> Result<String, AllocError> {
    let mut out = String::new(alloc);
    for sign in signs.iter() {
        out.push_str(sign_text(alloc, *sign)?.as_str())?;
    }
    Ok(out)
}
