// Readers that fail only if nothing is known of their bytes.
ghost use Rattle.std.specs.Prelude.{◌≡◌, IfErr, None, false};
ghost use Rattle.std.specs.Io.{ReadsAtMost};
ghost use Rattle.std.specs.Io.KnownBytes.{ReadConsumes};

use std::fs::File;
use std::io::{Read, Result, Stdin};

/// A reader that fails only if nothing is known of its bytes. One of bytes in memory never fails.
pub trait TextReader: Read {
    /// Reads as `read` does.
    fn read_text(&mut self, buf: &mut [u8]) -> Result<usize>
        ensures bound { ReadsAtMost result buf.new }
        ensures bytes { ReadConsumes (Self.remaining self.old) (Self.remaining self.new)
            result buf.new }
        ensures failed { IfErr result (λ _. Self.remaining self.old ≡ None) };
}

impl TextReader for File {
    fn read_text(&mut self, buf: &mut [u8]) -> Result<usize> {
        self.read(buf)
    }
}

impl TextReader for Stdin {
    fn read_text(&mut self, buf: &mut [u8]) -> Result<usize> {
        self.read(buf)
    }
}

impl TextReader for &[u8] {
    fn read_text(&mut self, buf: &mut [u8]) -> Result<usize> {
        self.read(buf)
    }
}

// A reader that notes whether a read failed. From then on nothing is known of its bytes.
#[derive(Drop)]
pub(crate) struct WatchedReader<'a, R> {
    reader: &'a mut R,
    has_failed: bool,
}

impl<'a, R: TextReader> WatchedReader<'a, R> {
    pub(crate) fn new(reader: &'a mut R) -> WatchedReader<'a, R>
        ensures reader { result.reader.now ≡ reader.old }
        ensures unfailed { result.has_failed ≡ false }
    {
        WatchedReader {
            reader,
            has_failed: false,
        }
    }

    // Returns whether a read failed.
    pub(crate) fn has_failed(&self) -> bool
        ensures { result ≡ self.now.has_failed }
    {
        self.has_failed
    }
}

impl<R: TextReader> Read for WatchedReader<'_, R> {
    ghost use Rattle.std.specs.Prelude.{None, if◌then◌else◌};

    ghost remaining = { λ watched.
        if watched.has_failed then None else R.remaining watched.reader.now };

    #[inline]
    fn read(&mut self, buf: &mut [u8]) -> Result<usize> {
        match self.reader.read_text(buf) {
            Ok(count) => Ok(count),
            Err(error) => {
                self.has_failed = true;
                Err(error)
            }
        }
    }
}
