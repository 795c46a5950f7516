//! Listings of texts at the limits and of texts that are cut off, and over readers and writers that fail.
use crate::compare::{same, text_is};
use crate::texts::{GUESTS, TAKEN_OUT, declarations};
use gt_policy_list::{ListingFault, policy};
use std::alloc::{AllocError, Global};
use std::io::{Read, Write};
use test_failing::{FailingReader, FailingWriter};

const TAKEN_OUT_LINES: &str = "a_t a_t copy\na_t b_t copy\nb_t b_t copy\n";

const GUESTS_LINES: &str = "domU_t dom0_t map_read\n\
domU_t dom0_t copy\n\
domU_t domU_t map_read\n\
domU_t domU_t copy\n";

// Lists a policy. A caller that takes the result apart costs less proof without the contract of `policy`.
fn list<R: Read, W: Write>(
    alloc: Global,
    reader: &mut R,
    writer: &mut W,
) -> Result<(), ListingFault> {
    policy(alloc, reader, writer)
}

// Returns the listing of a text, and the fault as it prints, if there is one.
fn listed(alloc: Global, mut text: &[u8]) -> Result<String, AllocError> {
    let mut writer = Vec::new(alloc);
    let mut out = match list(alloc, &mut text, &mut writer) {
        Ok(()) => String::new(alloc),
        Err(fault) => fault.to_string(alloc)?,
    };
    for byte in writer.iter() {
        out.push(char::from(*byte))?;
    }
    Ok(out)
}

// Returns whether the beginning of a text, of this length, is listed, or has one fault of a policy.
fn is_listed_or_refused(alloc: Global, length: usize) -> bool {
    let mut reader = &GUESTS.as_bytes()[..length.min(GUESTS.len())];
    let mut writer = Vec::new(alloc);
    match list(alloc, &mut reader, &mut writer) {
        Ok(()) if length.wrapping_add(1) == GUESTS.len() => writer.as_slice()
            == GUESTS_LINES.as_bytes(),
        Ok(()) | Err(ListingFault::Policy(_)) => writer.is_empty(),
        Err(_) => false,
    }
}

#[test]
fn every_beginning_is_listed_or_refused(rt: HostRuntime) {
    for length in 0..GUESTS.len() {
        let is_told = is_listed_or_refused(rt.alloc(), length);
        same(&rt, &(length, is_told), &(length, true));
    }
}

// A prefix, the text after it and how often it is repeated, and the listing or the fault: too many bytes are reported
// before bad ones.
static MANY: [(&str, &[u8], usize, &str); 7] = [
    ("type a;", b"allow a a:c d;\n", 65_536, ""),
    (
        "type a;",
        b"allow a a:c d;\n",
        65_537,
        "line 65537: policy limit",
    ),
    ("type a;", b"\n", 1_048_569, ""),
    ("type a;", b"\n", 1_048_570, "line 1: policy limit"),
    ("", b" ", 1_048_576, ""),
    ("", b" ", 1_048_577, "line 1: policy limit"),
    ("", b"\xff", 1_048_577, "line 1: policy limit"),
];

// Returns the listing of a prefix with a text after it, as often as this.
fn many_listed(alloc: Global, head: &str, each: &[u8], count: usize) -> Result<String, AllocError> {
    let mut text = head.as_bytes().to_vec(alloc)?;
    for _ in 0..count {
        text.extend_from_slice(each)?;
    }
    listed(alloc, text.as_slice())
}

#[test]
fn takes_the_most_statements_and_bytes(rt: HostRuntime) {
    for (head, each, count, wanted) in MANY.iter() {
        text_is(&rt, many_listed(rt.alloc(), head, each, *count), wanted);
    }
}

// A word of declarations, the text that follows 256 of them, one per line, and the listing or the fault.
static DECLARED: [(&str, &str, &str); 6] = [
    ("type", "", ""),
    ("type", "type n256;", "line 257: policy limit"),
    ("type", "type n255;", "line 257: policy twice n255"),
    ("attribute", "", ""),
    ("attribute", "attribute n256;", "line 257: policy limit"),
    (
        "attribute",
        "attribute n255;",
        "line 257: policy twice n255",
    ),
];

// Returns the listing of 256 declarations with a text after them.
fn declared_listed(alloc: Global, word: &str, behind: &str) -> Result<String, AllocError> {
    let mut text = declarations(alloc, word, 256)?;
    text.push_str(behind)?;
    listed(alloc, text.as_bytes())
}

#[test]
fn takes_256_types_and_256_attributes(rt: HostRuntime) {
    for (word, behind, wanted) in DECLARED.iter() {
        text_is(&rt, declared_listed(rt.alloc(), word, behind), wanted);
    }
}

// Returns whether a read that fails after this number of bytes is the fault of the listing, which has written nothing.
fn is_fault_of_reader(alloc: Global, left: usize) -> bool {
    let mut reader = FailingReader::new(GUESTS.as_bytes(), left);
    let mut writer = Vec::new(alloc);
    let outcome = list(alloc, &mut reader, &mut writer);
    matches!(outcome, Err(ListingFault::Read)) && writer.is_empty()
}

#[test]
fn a_reader_that_fails(rt: HostRuntime) {
    for left in 0..GUESTS.len() {
        let is_told = is_fault_of_reader(rt.alloc(), left);
        same(&rt, &(left, is_told), &(left, true));
    }
}

// Returns whether a write that fails after this number of bytes is the fault of the listing, which has written these.
fn is_fault_of_writer(alloc: Global, left: usize) -> bool {
    let lines = GUESTS_LINES.as_bytes();
    let mut writer = FailingWriter::new(Vec::new(alloc), left);
    let outcome = list(alloc, &mut GUESTS.as_bytes(), &mut writer);
    matches!(outcome, Err(ListingFault::Write))
        && writer.taken.as_slice() == &lines[..left.min(lines.len())]
}

#[test]
fn a_writer_that_fails(rt: HostRuntime) {
    for left in 0..GUESTS_LINES.len() + 1 {
        let is_told = is_fault_of_writer(rt.alloc(), left);
        same(&rt, &(left, is_told), &(left, true));
    }
}

// Returns whether a listing in which one allocation fails is as it must be. If that is one of `policy`, it returns the
// fault of memory, and a prefix of the lines was written. If it is one of the test itself, it is tried again.
fn is_refused_at_most_once(alloc: Global, text: &str, lines: &str) -> Result<bool, AllocError> {
    let taken = match Vec::with_capacity(alloc, 4096) {
        Ok(taken) => taken,
        Err(_) => Vec::with_capacity(alloc, 4096)?,
    };
    let mut writer = FailingWriter::new(taken, 4096);
    let outcome = list(alloc, &mut text.as_bytes(), &mut writer);
    Ok(match outcome {
        Ok(()) => writer.taken.as_slice() == lines.as_bytes(),
        Err(ListingFault::Memory) => lines.as_bytes().starts_with(writer.taken.as_slice()),
        Err(_) => false,
    })
}

#[test]
fn memory_that_is_refused(rt: HostRuntime) {
    for (text, lines) in [(GUESTS, GUESTS_LINES), (TAKEN_OUT, TAKEN_OUT_LINES)] {
        same(
            &rt,
            &is_refused_at_most_once(rt.alloc(), text, lines),
            &Ok(true),
        );
    }
}
