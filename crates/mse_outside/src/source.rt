//! A source of files: opens the file of a name, which is then read.

ghost use Rattle.std.specs.Prelude.{◌≡◌, Option};
ghost use Rattle.std.specs.Io.{ReadsAtMost};
ghost use Rattle.mse_outside.specs.Outside.{IfTold};
ghost use Rattle.mse_outside.specs.Source.{IsOpened, IsRead, Source, StaysTold, Unread, with_open};

use std::io;

/// An open file.
pub trait OpenFile {
    /// What reads give from here on, where the file tells it.
    ghost left: { Self → Option Unread };

    /// Reads some bytes. `Ok(0)` is the end, where the buffer has room.
    fn read(&mut self, buf: &mut [u8]) -> io::Result<usize>
        ensures bound { ReadsAtMost result buf.new }
        ensures told { IfTold (left self.old) (left self.new) (IsRead buf.new result) };
}

/// Opens files by name.
pub trait FileSource {
    type File: OpenFile + Drop;

    /// The file of each name, and how often one was opened, where the source tells it.
    ghost told: { Self → Option Source };

    /// Opens the file of this name.
    fn open(&mut self, name: &str) -> io::Result<Self::File>
        ensures told { StaysTold (told self.old) (told self.new) (λ old new.
            (new ≡ with_open old)
            × IsOpened Self.File.left (old.files name.now) result) };
}
