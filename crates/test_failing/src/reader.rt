//! A reader that fails.
use std::io::{self, ErrorKind, Read};

/// A text of which a number of bytes can be read. After them each read fails.
#[derive(Drop)]
pub struct FailingReader<'a> {
    bytes: &'a [u8],
    left: usize,
    most: usize,
    interrupts: bool,
    is_interrupted: bool,
    end: ErrorKind,
}

impl<'a> FailingReader<'a> {
    /// Makes a reader that gives as many bytes as a read asks for, up to `left` of them. Then the connection is reset.
    pub fn new(bytes: &'a [u8], left: usize) -> FailingReader<'a> {
        FailingReader {
            bytes,
            left,
            most: usize::MAX,
            interrupts: false,
            is_interrupted: false,
            end: ErrorKind::ConnectionReset,
        }
    }

    /// Makes a reader that gives at most `most` bytes per read, with an interruption before each read. After `left`
    /// bytes each read fails with the kind `end`.
    pub fn interrupted(
        bytes: &'a [u8],
        left: usize,
        most: usize,
        end: ErrorKind,
    ) -> FailingReader<'a> {
        FailingReader {
            bytes,
            left,
            most,
            interrupts: true,
            is_interrupted: false,
            end,
        }
    }
}

impl<'a> Read for FailingReader<'a> {
    fn read(&mut self, buf: &mut [u8]) -> io::Result<usize> {
        self.is_interrupted = self.interrupts && !self.is_interrupted;
        if self.is_interrupted {
            return Err(io::Error::from(ErrorKind::Interrupted));
        }
        if self.left == 0 {
            return Err(io::Error::from(self.end));
        }
        let bytes: &'a [u8] = self.bytes;
        let count = buf.len().min(bytes.len()).min(self.left).min(self.most);
        buf[..count].copy_from_slice(&bytes[..count]);
        self.bytes = &bytes[count..];
        self.left -= count;
        Ok(count)
    }
}
