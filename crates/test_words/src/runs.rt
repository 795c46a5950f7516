//! The worked runs with what they see, and threads that grant and pin at the same time.
use crate::calls::{ENTRY, UNUSED, churn, revoke, start, start_with_page, toggle};
use crate::cases::{Case, OWNER, Signs, headers, seen, text};
use gt_entry::{Control, Entry};
use gt_types::StartFault;
use gt_words::Seat;
use std::alloc::Global;
use std::process::Abort;
use std::test::Fail;
use std::thread::{Threads, join};

// Each run, and what it sees. A pin is not taken of an entry that was granted anew, a pinned entry is not revoked, and
// none is granted over pins.
static CASES: [(Case, &str); 5] = [
    (Case::Anew, "100020000001 100000000000 found 200020000001 "),
    (
        Case::Pinned,
        "found 100020000011 found 100020010001 100020000001 done ",
    ),
    (
        Case::Withdrawn,
        "100000010000 found 100000010000 done 200020000001 ",
    ),
    (Case::Twice, "100020000021 100020000011 100020000001 "),
    (
        Case::Turned,
        "done 200020000005 done 300020000001 not done ",
    ),
];

// Starts a run, and returns what it sees.
fn signs(rt: &impl Abort, alloc: Global, case: Case) -> Result<Signs, StartFault> {
    let (words, mut owner, mut other, mut row) = start_with_page(rt, alloc)?;
    Ok(seen(case, &words, &mut owner, &mut other, &mut row))
}

// Starts a run, and returns what it sees as a text.
fn said(rt: &impl Abort, alloc: Global, case: Case) -> Result<String, Fail> {
    let signs = signs(rt, alloc, case)?;
    Ok(text(alloc, signs)?)
}

#[test]
fn runs_see_the_worked_words(rt: HostRuntime) -> Result<(), Fail> {
    for (case, wanted) in CASES.iter() {
        let said = said(&rt, rt.alloc(), *case)?;
        assert_eq!(rt; said.as_str(), *wanted);
    }
    Ok(())
}

// Returns the version and the number of frames in the header of a seat's domain, as the seat keeps it.
fn kept(seat: &Seat) -> (u8, u8) {
    let header = seat.header();
    (header.version, header.frames)
}

// Starts a run. Returns the headers of both domains as both seats see them, and those that the seats keep.
fn headers_seen(alloc: Global) -> Result<([u64; 8], (u8, u8), (u8, u8)), StartFault> {
    let (words, mut owner, mut other) = start(alloc)?;
    let seen = headers(&words, &mut owner, &mut other);
    Ok((seen, kept(&owner), kept(&other)))
}

#[test]
fn finds_each_domain_by_its_number(rt: HostRuntime) -> Result<(), Fail> {
    let told = headers_seen(rt.alloc())?;
    assert_eq!(rt; told, ([5, 5, 6, 13, 13, 6, 6, 13], (2, 1), (1, 3)));
    Ok(())
}

// Starts a run in which a thread grants and revokes while another one pins. Returns how the last revocation ends, and
// the word that it leaves.
fn left_beside_pins<R: Threads>(
    rt: &R,
    alloc: Global,
) -> Result<(Result<(), u64>, u64), StartFault> {
    let (words, owner, other) = start(alloc)?;
    let (shared, row) = (&words, UNUSED);
    let ((mut owner, mut row), ()) = join(
        rt,
        || toggle(shared, owner, row, 1_000),
        || churn(shared, other, OWNER, ENTRY, 1_000),
    );
    let last = revoke(&words, &mut owner, &mut row);
    let word = words.load_control(&mut owner, OWNER, ENTRY);
    Ok((last, word))
}

// A thread that grants and revokes while another pins leaves the invalid word without pins.
#[test]
fn grants_beside_pins(rt: HostRuntime) -> Result<(), Fail> {
    let left = left_beside_pins(&rt, rt.alloc())?;
    let generation = Control::unpack(left.1).generation;
    let idle = Control::of_entry(Entry::Invalid, generation, 0, 0).pack();
    assert_eq!(rt; left, (Ok(()), idle));
    Ok(())
}
