//! A reader and a writer that fail at one of their calls.

use std::io;
use std::io::{ErrorKind, Read, Write};

/// A reader that gives its text a byte a call, and fails at the call `fails_at`, counted from 0.
#[derive(Drop)]
pub struct FailingReader<'a> {
    pub text: &'a [u8],
    pub fails_at: usize,
    pub calls: usize,
}

impl<'a> Read for FailingReader<'a> {
    // Counts a call, and fails where it is the call `fails_at`. Else reads one byte, or none where
    // the text is at its end or `buf` is empty.
    fn read(&mut self, buf: &mut [u8]) -> io::Result<usize> {
        let call = self.calls;
        self.calls = self.calls.saturating_add(1);
        if call == self.fails_at {
            return Err(ErrorKind::Other.into());
        }
        let Some(byte) = self.text.first() else {
            return Ok(0);
        };
        let Some(place) = buf.first_mut() else {
            return Ok(0);
        };
        *place = *byte;
        self.text = &self.text[1..];
        Ok(1)
    }
}

/// A writer that takes a byte a call, and fails at the call `fails_at`, counted from 0, where a
/// flush is a call, too.
#[derive(Drop)]
pub struct FailingWriter {
    pub fails_at: usize,
    pub calls: usize,
}

impl FailingWriter {
    /// A writer that fails at the call `fails_at`, counted from 0.
    pub fn at(fails_at: usize) -> FailingWriter {
        FailingWriter { fails_at, calls: 0 }
    }

    // Counts a call, and fails where it is the call `fails_at`.
    fn count_call(&mut self) -> io::Result<()> {
        let call = self.calls;
        self.calls = self.calls.saturating_add(1);
        if call == self.fails_at {
            return Err(ErrorKind::Other.into());
        }
        Ok(())
    }
}

impl Write for FailingWriter {
    // Counts a call, which may fail, and takes the first byte of `buf`, if there is one.
    fn write(&mut self, buf: &[u8]) -> io::Result<usize> {
        self.count_call()?;
        Ok(buf.len().min(1))
    }

    // Counts a call, which may fail; there is nothing to flush.
    fn flush(&mut self) -> io::Result<()> {
        self.count_call()
    }
}
