//! A reader or a writer that keeps the error with which it ended.

use std::io;
use std::io::{ErrorKind, Read, Write};

/// A reader or a writer that keeps the error of its last call, if this call failed. So it does not keep the error of a read or a write that
/// succeeded when it was tried again.
#[derive(Drop)]
pub struct Watched<'r, R> {
    inner: &'r mut R,
    error: Option<io::Error>,
}

impl<'r, R> Watched<'r, R> {
    /// Creates a value without an error: no call has failed yet.
    pub fn new(inner: &'r mut R) -> Watched<'r, R> {
        Watched { inner, error: None }
    }

    /// Returns the error of the last call. Returns `None` if it did not fail.
    pub fn error(&self) -> Option<io::Error> {
        self.error
    }

    /// Returns whether the last error is that of a write to a pipe that nobody reads. This happens, for example, when `head` has
    /// ended.
    pub fn is_closed_pipe(&self) -> bool {
        match self.error {
            Some(error) => error.kind() == ErrorKind::BrokenPipe,
            None => false,
        }
    }
}

impl<R: Read> Read for Watched<'_, R> {
    fn read(&mut self, buf: &mut [u8]) -> io::Result<usize> {
        match self.inner.read(buf) {
            Ok(count) => {
                self.error = None;
                Ok(count)
            }
            Err(error) => {
                self.error = Some(error);
                Err(error)
            }
        }
    }
}

impl<W: Write> Write for Watched<'_, W> {
    fn write(&mut self, buf: &[u8]) -> io::Result<usize> {
        match self.inner.write(buf) {
            Ok(count) => {
                self.error = None;
                Ok(count)
            }
            Err(error) => {
                self.error = Some(error);
                Err(error)
            }
        }
    }

    fn flush(&mut self) -> io::Result<()> {
        match self.inner.flush() {
            Ok(()) => Ok(()),
            Err(error) => {
                self.error = Some(error);
                Err(error)
            }
        }
    }
}
