ghost use Rattle.std.specs.Prelude.{◌≡◌, ◌++◌, OnOk, OnErr};

use mse_base::{Bytes, OutOfMemory};

/// A piece, and how many bytes were pushed up to its end since the queue was made, modulo `2^64`:
/// what is dropped in front changes no such number.
#[derive(Debug, Drop)]
pub struct PieceWithEnd {
    pub piece: Bytes,
    pub end: u64,
}

impl PieceWithEnd {
    /// Appends bytes, with the new end. An `Err` changes nothing.
    pub fn extend(&mut self, bytes: &[u8], end: u64) -> Result<(), OutOfMemory>
        ensures piece { OnOk result (self.new.piece ≡ self.old.piece ++ bytes.now) }
        ensures end { OnOk result (self.new.end ≡ end) }
        ensures err { OnErr result (self.new ≡ self.old) }
    {
        self.piece.extend(bytes)?;
        self.end = end;
        Ok(())
    }
}
