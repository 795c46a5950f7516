//! A reader that keeps what it reads.
use std::alloc::Global;
use std::io::{self, Read, Write};

/// The bytes that were read, as far as they could be allocated, and the reason of the last failed read.
#[derive(Drop)]
pub struct KeptInput {
    bytes: Vec<u8>,
    is_whole: bool,
    fault: Vec<u8>,
}

impl KeptInput {
    fn new(alloc: Global) -> KeptInput {
        KeptInput {
            bytes: Vec::new(alloc),
            is_whole: true,
            fault: Vec::new(alloc),
        }
    }

    /// Returns these bytes as an input that was read.
    pub fn of(alloc: Global, bytes: &[u8]) -> KeptInput {
        let mut input = KeptInput::new(alloc);
        input.keep(bytes);
        input
    }

    /// Returns all bytes, or None if some could not be allocated.
    pub(crate) fn bytes(&self) -> Option<&[u8]> {
        if self.is_whole {
            Some(self.bytes.as_slice())
        } else {
            None
        }
    }

    /// Returns the reason of the last failed read, in the system's words. It is empty if none failed.
    pub(crate) fn fault(&self) -> &[u8] {
        self.fault.as_slice()
    }

    fn keep(&mut self, bytes: &[u8]) {
        if self.bytes.extend_from_slice(bytes).is_err() {
            self.is_whole = false;
        }
    }

    fn keep_fault(&mut self, error: &io::Error) {
        self.fault.clear();
        let _ = write!(self.fault, "{error}");
    }
}

/// A reader with the bytes that were read from it.
#[derive(Drop)]
pub struct CopyingReader<R> {
    pub inner: R,
    pub kept: KeptInput,
}

impl<R> CopyingReader<R> {
    ghost use Rattle.std.specs.Prelude.{◌≡◌};

    /// Returns a copying reader over this one, of which nothing was read yet.
    pub fn new(alloc: Global, inner: R) -> CopyingReader<R>
        ensures { result.inner ≡ inner }
    {
        CopyingReader {
            inner,
            kept: KeptInput::new(alloc),
        }
    }
}

impl<R: Read> Read for CopyingReader<R> {
    ghost remaining = { λ c. R.remaining c.inner };

    fn read(&mut self, buf: &mut [u8]) -> io::Result<usize> {
        match self.inner.read(buf) {
            Ok(count) => {
                self.kept.keep(&buf[..count]);
                Ok(count)
            }
            Err(error) => {
                self.kept.keep_fault(&error);
                Err(error)
            }
        }
    }
}
