ghost use Rattle.std.specs.Prelude.{◌≡◌, IfOk};
ghost use Rattle.bmff_boxes.specs.Reading.{Gives};
ghost use Rattle.remux.specs.Pieces.{pieces_of_file};

use crate::error::RemuxError;
use crate::fragmented::FragmentedFile;
use mse_base::{Bytes, OutOfMemory};
use sample_tables::{MediaTrack, read_file};
use std::alloc::Global;
use std::marker::Model;

/// A classic file whose tracks with video or audio were read, with their samples.
#[derive(Debug, Drop)]
pub struct ClassicFile {
    bytes: Bytes,
    tracks: Vec<MediaTrack>,
}

impl Model for ClassicFile {
    ghost use Rattle.std.specs.Prelude.{ℕ, List, length};
    ghost use Rattle.sample_tables.specs.Facts.{AreFileTracks};
    ghost use Rattle.remux.specs.Pieces.{pieces_of};

    ghost Value = { List (List ℕ) };

    ghost view = { λ f. pieces_of f.bytes f.tracks.items };

    ghost invariant = { λ f. AreFileTracks (length f.bytes) f.tracks.items };
}

impl ClassicFile {
    /// Reads the tables of a file, whose bytes it keeps. Contracts see what is read as the pieces of the fragmented
    /// file. An `Err` is want of memory or the first fault of the file.
    #[tactic(auto, unfolding(crate::specs::Pieces::pieces_of_file))]
    pub fn read(alloc: Global, bytes: Bytes) -> Result<ClassicFile, RemuxError>
        ensures { Gives (λ pieces. pieces) result (pieces_of_file bytes) }
    {
        let tracks = read_file(alloc, bytes.as_slice())?;
        Ok(ClassicFile { bytes, tracks })
    }

    /// The same file as a fragmented one, whose pieces can be made one by one.
    pub fn fragmented(&self, alloc: Global) -> Result<FragmentedFile<'_>, OutOfMemory>
        ensures { IfOk result (λ pieces. pieces ≡ self.now) }
    {
        FragmentedFile::of_tracks(alloc, &self.bytes, self.tracks.as_slice())
    }
}

/// The pieces of a fragmented file.
fn pieces_in(alloc: Global, file: &FragmentedFile<'_>) -> Result<Vec<Bytes>, OutOfMemory>
    ensures { IfOk result (λ v. v.items ≡ file.now) }
{
    let count = file.piece_count();
    let mut pieces = Vec::with_capacity(alloc, count)?;
    for i in 0..count {
        pieces.push(file.piece(i)?)?;
    }
    Ok(pieces)
}

/// A classic file as a fragmented one: the pieces in order, of which the first is the initialization segment and
/// each other a media segment.
pub fn remux(alloc: Global, file: &[u8]) -> Result<Vec<Bytes>, RemuxError>
    ensures { Gives (λ v. v.items) result (pieces_of_file file.now) }
{
    let Ok(bytes) = Bytes::copy_of(alloc, file) else {
        return Err(RemuxError::OutOfMemory);
    };
    let classic = ClassicFile::read(alloc, bytes)?;
    let Ok(fragmented) = classic.fragmented(alloc) else {
        return Err(RemuxError::OutOfMemory);
    };
    match pieces_in(alloc, &fragmented) {
        Ok(pieces) => Ok(pieces),
        Err(_) => Err(RemuxError::OutOfMemory),
    }
}
