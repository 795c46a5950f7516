//! A writer that fails.
use std::io::{self, ErrorKind, Write};

/// A sink for a number of bytes, a few at a time. After them each write fails, and each flush.
#[derive(Drop)]
pub struct FailingWriter {
    /// The bytes written.
    pub taken: Vec<u8>,
    left: usize,
    most: usize,
    interrupts: bool,
    is_interrupted: bool,
    end: Option<ErrorKind>,
}

impl FailingWriter {
    /// Makes a writer that takes `left` bytes after those of `taken`, three at a time. Then the pipe is broken.
    pub fn new(taken: Vec<u8>, left: usize) -> FailingWriter {
        FailingWriter {
            taken,
            left,
            most: 3,
            interrupts: false,
            is_interrupted: false,
            end: Some(ErrorKind::BrokenPipe),
        }
    }

    /// Makes a writer that takes `left` bytes, at most `most` per write, with an interruption before each write. Then
    /// each write fails with the kind `end`, or takes nothing.
    pub fn interrupted(
        taken: Vec<u8>,
        left: usize,
        most: usize,
        end: Option<ErrorKind>,
    ) -> FailingWriter {
        FailingWriter {
            taken,
            left,
            most,
            interrupts: true,
            is_interrupted: false,
            end,
        }
    }

    // Returns the end, if it is reached.
    fn is_at_end(&self) -> io::Result<bool> {
        if self.left != 0 {
            return Ok(false);
        }
        match self.end {
            Some(kind) => Err(io::Error::from(kind)),
            None => Ok(true),
        }
    }
}

impl Write for FailingWriter {
    fn write(&mut self, buf: &[u8]) -> io::Result<usize> {
        self.is_interrupted = self.interrupts && !self.is_interrupted;
        if self.is_interrupted {
            return Err(io::Error::from(ErrorKind::Interrupted));
        }
        if self.is_at_end()? {
            return Ok(0);
        }
        let count = buf.len().min(self.left).min(self.most);
        self.taken.extend_from_slice(&buf[..count])?;
        self.left -= count;
        Ok(count)
    }

    fn flush(&mut self) -> io::Result<()> {
        self.is_at_end()?;
        Ok(())
    }
}
