//! Streams in memory, and streams that fail.
use crate::compare::{bytes_are, same};
use gt_text::{ReadFault, WriteFault, finish, push_text, read_text, send, text_of, write_text};
use std::alloc::{AllocError, Global};
use std::io::ErrorKind;
use std::process::Abort;
use test_failing::{FailingReader, FailingWriter};

const TEXT: &[u8] = b"one line\nand another\n";

// Returns how many bytes are read of a text of this length.
fn length_read(alloc: Global, length: usize) -> Result<usize, ReadFault> {
    let Ok(text) = vec![in alloc; b' '; length] else {
        return Err(ReadFault::Memory);
    };
    Ok(read_text(alloc, &mut text.as_slice())?.len())
}

#[test]
fn texts_up_to_the_limit(rt: HostRuntime) {
    for (length, want) in [
        (0, 0),
        (4_097, 4_097),
        (1_048_577, 1_048_577),
        (1_048_600, 1_048_577),
    ] {
        same(&rt, &length_read(rt.alloc(), length), &Ok(want));
    }
}

// Returns the result of a reader that fails with this kind after this number of bytes, of which it gives some at a
// time.
fn read_behind(
    alloc: Global,
    bytes: &[u8],
    left: usize,
    most: usize,
    end: ErrorKind,
) -> Result<usize, ReadFault> {
    let mut reader = FailingReader::interrupted(bytes, left, most, end);
    Ok(read_text(alloc, &mut reader)?.len())
}

// Readers: after how many bytes they fail, how many they give at a time, the kind of the failure, and the result.
static FAILING: [(usize, usize, ErrorKind, Result<usize, ReadFault>); 7] = [
    (0, 3, ErrorKind::ConnectionReset, Err(ReadFault::Read)),
    (0, 3, ErrorKind::OutOfMemory, Err(ReadFault::Memory)),
    (21, 3, ErrorKind::ConnectionReset, Err(ReadFault::Read)),
    (21, 3, ErrorKind::OutOfMemory, Err(ReadFault::Memory)),
    (
        1_048_576,
        5_000,
        ErrorKind::UnexpectedEof,
        Err(ReadFault::Read),
    ),
    (1_048_577, 5_000, ErrorKind::UnexpectedEof, Ok(1_048_577)),
    (1_048_577, 1, ErrorKind::OutOfMemory, Ok(1_048_577)),
];

// Compares the results of all readers.
fn failing_reads(rt: &impl Abort, alloc: Global) -> Result<(), AllocError> {
    let long = vec![in alloc; b' '; 1_048_600]?;
    for (left, most, end, want) in FAILING.iter() {
        let read = read_behind(alloc, long.as_slice(), *left, *most, *end);
        same(rt, &(*left, read), &(*left, *want));
    }
    Ok(())
}

// A failed read is returned as its kind. Beyond the limit nothing is read.
#[test]
fn a_reader_that_fails(rt: HostRuntime) {
    same(&rt, &failing_reads(&rt, rt.alloc()), &Ok(()));
}

// Writes a text of this length to a writer of single bytes. Returns the result, and how many bytes are out.
fn written_singly(
    alloc: Global,
    length: usize,
) -> Result<(Result<(), WriteFault>, usize), AllocError> {
    let text = vec![in alloc; b'.'; length]?;
    let mut writer = FailingWriter::interrupted(Vec::new(alloc), length, 1, None);
    Ok((write_text(&mut writer, text.as_slice()), writer.taken.len()))
}

// As many writes as there are bytes, each after an interruption.
#[test]
fn a_writer_of_single_bytes(rt: HostRuntime) {
    same(
        &rt,
        &written_singly(rt.alloc(), 70_000),
        &Ok((Ok(()), 70_000)),
    );
}

// Writes the text to a writer that ends after this number of bytes. Returns the result, and whether just these are out.
fn written_before(
    alloc: Global,
    left: usize,
    end: Option<ErrorKind>,
) -> (Result<(), WriteFault>, bool) {
    let mut writer = FailingWriter::interrupted(Vec::new(alloc), left, 3, end);
    let written = write_text(&mut writer, TEXT);
    (
        written,
        writer.taken.as_slice() == &TEXT[..left.min(TEXT.len())],
    )
}

#[test]
fn writes_go_on_until_all_is_out(rt: HostRuntime) {
    for left in 0..TEXT.len() + 1 {
        let want = if left < TEXT.len() {
            Err(WriteFault)
        } else {
            Ok(())
        };
        for end in [None, Some(ErrorKind::BrokenPipe)] {
            let found = written_before(rt.alloc(), left, end);
            same(&rt, &(left, found), &(left, (want, true)));
        }
    }
}

// Sends this number of bytes. Returns the result, how many are out, and how many still wait.
fn sent(
    alloc: Global,
    length: usize,
) -> Result<(Result<(), WriteFault>, usize, usize), AllocError> {
    let mut writer = Vec::new(alloc);
    let mut waiting = vec![in alloc; b'.'; length]?;
    let sent = send(&mut writer, &mut waiting);
    Ok((sent, writer.len(), waiting.len()))
}

#[test]
fn lines_wait_for_enough_of_them(rt: HostRuntime) {
    for (length, written, left) in [(65_535, 0, 65_535), (65_536, 65_536, 0)] {
        same(&rt, &sent(rt.alloc(), length), &Ok((Ok(()), written, left)));
    }
}

// Ends a writer that has two bytes, and compares what it has then.
fn last_lines(rt: &impl Abort, alloc: Global) -> Result<(), AllocError> {
    let mut writer = vec![in alloc; b'.'; 2]?;
    same(rt, &finish(&mut writer, b"end\n"), &Ok(()));
    bytes_are(rt, writer.as_slice(), b"..end\n");
    Ok(())
}

#[test]
fn last_lines_go_out(rt: HostRuntime) {
    same(&rt, &last_lines(&rt, rt.alloc()), &Ok(()));
}

#[test]
fn bytes_are_a_text_or_have_a_bad_line(rt: HostRuntime) {
    same(&rt, &text_of(TEXT), &Ok("one line\nand another\n"));
    same(&rt, &text_of(b"\xffone\n"), &Err(1));
    same(&rt, &text_of(b"one\ntwo\n\xe2\x82"), &Err(3));
}

// Adds two texts to bytes, and compares these.
fn both_waiting(rt: &impl Abort, alloc: Global) -> Result<(), AllocError> {
    let mut waiting = Vec::new(alloc);
    push_text(&mut waiting, "one line\n")?;
    push_text(&mut waiting, "and another\n")?;
    bytes_are(rt, waiting.as_slice(), TEXT);
    Ok(())
}

#[test]
fn texts_wait_as_their_bytes(rt: HostRuntime) {
    same(&rt, &both_waiting(&rt, rt.alloc()), &Ok(()));
}

#[test]
fn what_the_writer_holds_is_handed_on(rt: HostRuntime) {
    let end = Some(ErrorKind::BrokenPipe);
    let mut writer = FailingWriter::interrupted(Vec::new(rt.alloc()), TEXT.len(), 3, end);
    same(&rt, &finish(&mut writer, TEXT), &Err(WriteFault));
    bytes_are(&rt, writer.taken.as_slice(), TEXT);
}
