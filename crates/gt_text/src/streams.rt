//! Whole texts from a reader, and lines to a writer.
ghost use Rattle.std.specs.Prelude.{◌≡◌, ◌+◌, ◌-◌, ◌<◌, ◌≤◌, OnOk, OnErr, IfOk, IfSome, ◌↔◌, take, drop, length};
ghost use Rattle.std.specs.Io.KnownBytes.{Appends, Consumes, Keeps};
ghost use Rattle.std.specs.IoError.{error_kind};
ghost use Rattle.gt_text.specs.Streams.{AppendsBeginning, ConsumesAtMost, ReadsOn, Sends};

use crate::fault::{ReadFault, WriteFault};
use std::alloc::Global;
use std::io::{Error, ErrorKind, Read, Write};

/// The maximum number of bytes that `read_text` reads: one more than a text may have.
pub const READ_LIMIT: usize = 1_048_577;

// The size of the buffer of one call of `read`, in bytes.
const PIECE: usize = 4_096;

/// The number of waiting bytes at which `send` writes them.
pub const CHUNK: usize = 65_536;

// Returns the error for a failed call of `read`.
fn fault_of(error: &Error) -> ReadFault
    ensures { (result ≡ ReadFault.Memory) ↔ (error_kind error.now ≡ ErrorKind.OutOfMemory) }
{
    if error.kind() == ErrorKind::OutOfMemory {
        ReadFault::Memory
    } else {
        ReadFault::Read
    }
}

// Makes one call of `read` for at most `room` bytes, and returns whether more bytes may follow. An interrupted call
// reads nothing, and more may follow.
fn read_on<R: Read>(reader: &mut R, bytes: &mut Vec<u8>, room: usize) -> Result<bool, ReadFault>
    requires { 0 < room }
    ensures ok { IfOk result (λ more.
        ReadsOn room more (R.remaining reader.old) (R.remaining reader.new) bytes.old.items bytes.new.items) }
    ensures err { OnErr result (ConsumesAtMost room (R.remaining reader.old) (R.remaining reader.new)) }
{
    let mut piece = [0; PIECE];
    let most = room.min(PIECE);
    match reader.read(&mut piece[..most]) {
        Ok(count) => match bytes.extend_from_slice(&piece[..count]) {
            Ok(()) => Ok(count != 0),
            Err(_) => Err(ReadFault::Memory),
        },
        Err(error) if error.kind() == ErrorKind::Interrupted => Ok(true),
        Err(error) => Err(fault_of(&error)),
    }
}

/// Reads the bytes that the reader has left, or the first 1,048,577 of them if there are more. The reader loses those
/// bytes and no others. An Err gives whether an allocation or a read failed; the reader has then lost at most 1,048,577
/// bytes.
pub fn read_text<R: Read>(alloc: Global, reader: &mut R) -> Result<Vec<u8>, ReadFault>
    ensures text { IfOk result (λ bytes.
        IfSome (R.remaining reader.old) (λ all. bytes.items ≡ take READ_LIMIT all)) }
    ensures limit { IfOk result (λ bytes. length bytes.items ≤ READ_LIMIT) }
    ensures read { IfOk result (λ bytes. Consumes (R.remaining reader.old) (R.remaining reader.new) bytes.items) }
    ensures err { OnErr result (ConsumesAtMost READ_LIMIT (R.remaining reader.old) (R.remaining reader.new)) }
{
    let mut bytes = Vec::new(alloc);
    'reads: for _ in 0..u64::MAX {
        let room = READ_LIMIT - bytes.len();
        if room == 0 {
            return Ok(bytes);
        }
        if !read_on(reader, &mut bytes, room)? {
            return Ok(bytes);
        }
    }
    Err(ReadFault::Read)
}

// Makes one call of `write` for the bytes after the first `done`, and returns how many are written then.
fn write_front<W: Write>(writer: &mut W, text: &[u8], done: usize) -> Result<usize, WriteFault>
    requires { done < length text.now }
    ensures ok { IfOk result (λ n. (done ≤ n) × (n ≤ length text.now)
        × Appends (W.contents writer.old) (W.contents writer.new) (take (n - done) (drop done text.now))) }
    ensures err { OnErr result (Keeps (W.contents writer.old) (W.contents writer.new)) }
{
    match writer.write(&text[done..]) {
        Ok(0) => Err(WriteFault),
        Ok(n) => Ok(done + n),
        Err(error) if error.kind() == ErrorKind::Interrupted => Ok(done),
        Err(_) => Err(WriteFault),
    }
}

/// Writes the text, by as many calls of `write` as it takes; an interrupted one is tried again. What went out is at all
/// times a prefix of the text.
pub fn write_text<W: Write>(writer: &mut W, text: &[u8]) -> Result<(), WriteFault>
    ensures whole { OnOk result (Appends (W.contents writer.old) (W.contents writer.new) text.now) }
    ensures beginning { AppendsBeginning (W.contents writer.old) (W.contents writer.new) text.now }
{
    let mut done = 0;
    'writes: for _ in 0..u64::MAX {
        if done == text.len() {
            return Ok(());
        }
        done = write_front(writer, text, done)?;
    }
    Err(WriteFault)
}

/// Writes the waiting lines if they have at least 65,536 bytes, so that fewer wait afterwards. After an Err, a prefix
/// of them may have gone out.
pub fn send<W: Write>(writer: &mut W, waiting: &mut Vec<u8>) -> Result<(), WriteFault>
    ensures ok { OnOk result (Sends (W.contents writer.old) (W.contents writer.new)
        waiting.old.items waiting.new.items) }
    ensures few { OnOk result (length waiting.new.items < CHUNK) }
    ensures err { OnErr result (AppendsBeginning (W.contents writer.old) (W.contents writer.new) waiting.old.items) }
{
    if waiting.len() >= CHUNK {
        write_text(writer, waiting.as_slice())?;
        waiting.clear();
    }
    Ok(())
}

/// Writes the last lines and flushes the writer. After an Err, a prefix of them may have gone out.
pub fn finish<W: Write>(writer: &mut W, waiting: &[u8]) -> Result<(), WriteFault>
    ensures whole { OnOk result (Appends (W.contents writer.old) (W.contents writer.new) waiting.now) }
    ensures beginning { AppendsBeginning (W.contents writer.old) (W.contents writer.new) waiting.now }
{
    write_text(writer, waiting)?;
    writer.flush().map_err(|_| WriteFault)
}
