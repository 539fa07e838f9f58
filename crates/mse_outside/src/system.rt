//! The files and the standard output of the system. They tell nothing, so no contract says that these calls do what their
//! names say: they are to be read.

ghost use Rattle.std.specs.Prelude.{None};

use crate::{FileSource, OpenFile, Output};
use std::fs::{self, Files};
use std::io::{self, Read, Write};

/// The files of the current folder.
#[derive(Drop)]
pub struct SystemFiles<R: Files + Drop>(pub R);

/// An open file of the system.
#[derive(Drop)]
pub struct SystemFile<F: Read + Drop>(F);

/// Standard output.
#[derive(Drop)]
pub struct SystemOutput<R: Print + Drop>(pub R);

impl<R: Files + Drop> FileSource for SystemFiles<R> {
    type File = SystemFile<R::File>;

    ghost told = { λ _. None };

    fn open(&mut self, name: &str) -> io::Result<SystemFile<R::File>> {
        Ok(SystemFile(fs::open(&self.0, name)?))
    }
}

impl<F: Read + Drop> OpenFile for SystemFile<F> {
    ghost left = { λ _. None };

    fn read(&mut self, buf: &mut [u8]) -> io::Result<usize> {
        self.0.read(buf)
    }
}

impl<R: Print + Drop> Output for SystemOutput<R> {
    ghost told = { λ _. None };

    fn write_some(&mut self, bytes: &[u8]) -> io::Result<usize> {
        self.0.write_some(bytes)
    }

    fn flush(&mut self) -> io::Result<()> {
        io::writer(&self.0).flush()
    }
}
