//! A source and an output in memory that give and take a byte at a time, are interrupted, and fail at some byte. They tell
//! all of it.

ghost use Rattle.std.specs.Prelude.{Some, Ok, Err, bytes_eq, if◌then◌else◌};
ghost use Rattle.std.specs.declared.io.ErrorKind.TheVariants.{NotFound};

use crate::{FileSource, OpenFile, Output};
use std::io::{self, ErrorKind};

/// An open file that gives a byte at a time. A read is interrupted, and the next one is not, as often as is told. Where it
/// is broken, a read behind the last byte fails.
#[derive(Clone, Copy, Drop)]
pub(crate) struct ByteFile<'a> {
    pub bytes: &'a [u8],
    pub broken: bool,
    pub interrupts: u64,
    pub was_interrupted: bool,
}

impl OpenFile for ByteFile<'_> {
    ghost left = { λ f. Some (record {
      bytes = f.bytes.now;
      broken = f.broken;
      interrupts = f.interrupts;
    }) };

    fn read(&mut self, buf: &mut [u8]) -> io::Result<usize> {
        if self.interrupts > 0 && !self.was_interrupted {
            self.interrupts -= 1;
            self.was_interrupted = true;
            return Err(io::Error::from(ErrorKind::Interrupted));
        }
        self.was_interrupted = false;
        if self.bytes.is_empty() {
            return if self.broken {
                Err(io::Error::from(ErrorKind::BrokenPipe))
            } else {
                Ok(0)
            };
        }
        if buf.is_empty() {
            return Ok(0);
        }
        buf[0] = self.bytes[0];
        self.bytes = &self.bytes[1..];
        Ok(1)
    }
}

/// A source of one file, or of one that is not opened.
#[derive(Drop)]
pub(crate) struct ByteSource<'a> {
    pub name: &'a str,
    pub file: ByteFile<'a>,
    pub opens: u64,
}

impl<'a> FileSource for ByteSource<'a> {
    type File = ByteFile<'a>;

    ghost told = { λ s. Some (record {
      files = λ name. if bytes_eq s.name.now name then Ok (record {
        bytes = s.file.bytes.now;
        broken = s.file.broken;
        interrupts = s.file.interrupts;
      }) else Err NotFound;
      opens = s.opens;
    }) };

    fn open(&mut self, name: &str) -> io::Result<ByteFile<'a>> {
        self.opens = self.opens.saturating_add(1);
        if self.name == name {
            Ok(self.file)
        } else {
            Err(io::Error::from(ErrorKind::NotFound))
        }
    }
}

/// Takes a byte at a time, and at most so many. A write is interrupted, and the next one is not, as often as is told.
#[derive(Drop)]
pub(crate) struct ByteOutput {
    pub taken: Vec<u8>,
    pub room: usize,
    pub flushed: bool,
    pub flush_fails: bool,
    pub faults: u64,
    pub interrupts: u64,
    pub was_interrupted: bool,
}

impl Output for ByteOutput {
    ghost told = { λ s. Some (record {
      taken = s.taken.items;
      flushed = s.flushed;
      faults = s.faults;
      interrupts = s.interrupts;
    }) };

    fn write_some(&mut self, bytes: &[u8]) -> io::Result<usize> {
        if self.interrupts > 0 && !self.was_interrupted {
            self.interrupts -= 1;
            self.was_interrupted = true;
            return Err(io::Error::from(ErrorKind::Interrupted));
        }
        self.was_interrupted = false;
        if bytes.is_empty() {
            return Ok(0);
        }
        if self.taken.len() >= self.room {
            self.faults = self.faults.saturating_add(1);
            return Ok(0);
        }
        if self.taken.push(bytes[0]).is_err() {
            self.faults = self.faults.saturating_add(1);
            return Err(io::Error::from(ErrorKind::OutOfMemory));
        }
        self.flushed = false;
        Ok(1)
    }

    fn flush(&mut self) -> io::Result<()> {
        if self.flush_fails {
            self.faults = self.faults.saturating_add(1);
            return Err(io::Error::from(ErrorKind::BrokenPipe));
        }
        self.flushed = true;
        Ok(())
    }
}
