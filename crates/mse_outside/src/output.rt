//! An output: takes some bytes at a time, and is flushed.

ghost use Rattle.std.specs.Prelude.{Option};
ghost use Rattle.std.specs.Io.{WritesAtMost};
ghost use Rattle.mse_outside.specs.Outside.{IfTold};
ghost use Rattle.mse_outside.specs.Output.{IsFlush, IsWrite, OutputState};

use std::io;

/// Takes bytes, some at a time.
pub trait Output {
    /// What it has taken, and what became of that, where the output tells it.
    ghost told: { Self → Option OutputState };

    /// Takes the first of these bytes, and answers how many.
    fn write_some(&mut self, bytes: &[u8]) -> io::Result<usize>
        ensures bound { WritesAtMost result bytes.now }
        ensures told { IfTold (told self.old) (told self.new) (IsWrite bytes.now result) };

    /// Passes on all that it has taken.
    fn flush(&mut self) -> io::Result<()>
        ensures told { IfTold (told self.old) (told self.new) (IsFlush result) };
}
