ghost use Rattle.std.specs.Prelude.{◌≡◌, ◌<◌, length, Some, IfOk, slice_get};
ghost use Rattle.sample_tables.specs.Facts.{AreFileTracks};
ghost use Rattle.remux.specs.Pieces.{pieces_of};

use crate::pieces::{init_segment_of, segment_of};
use crate::runs::{RunOfTrack, runs_in_order};
use mse_base::{Bytes, OutOfMemory};
use sample_tables::MediaTrack;
use std::alloc::Global;
use std::marker::Model;

/// A classic file as a fragmented one, whose pieces are made one by one: the initialization segment, and a media
/// segment for each run.
#[derive(Debug, Drop)]
pub struct FragmentedFile<'a> {
    alloc: Global,
    file: &'a Bytes,
    tracks: &'a [MediaTrack],
    runs: Vec<RunOfTrack<'a>>,
}

impl<'a> Model for FragmentedFile<'a> {
    ghost use Rattle.std.specs.Prelude.{◌≡◌, ℕ, List, length, map};
    ghost use Rattle.sample_tables.specs.Facts.{AreFileTracks};
    ghost use Rattle.remux.specs.Runs.{run_value, runs_in_order};
    ghost use Rattle.remux.specs.Pieces.{pieces_of};

    ghost Value = { List (List ℕ) };

    ghost view = { λ f. pieces_of f.file.now f.tracks.now };

    ghost invariant = { λ f. AreFileTracks (length f.file.now) f.tracks.now
        × (map run_value f.runs.items ≡ runs_in_order f.tracks.now) };
}

impl<'a> FragmentedFile<'a> {
    /// A file with these tracks. Its samples are put in runs, and no byte of them is copied.
    pub(crate) fn of_tracks(
        alloc: Global,
        file: &'a Bytes,
        tracks: &'a [MediaTrack],
    ) -> Result<FragmentedFile<'a>, OutOfMemory>
        requires { AreFileTracks (length file.now) tracks.now }
        ensures { IfOk result (λ f. f ≡ pieces_of file.now tracks.now) }
    {
        let runs = runs_in_order(alloc, file.len(), tracks)?;
        Ok(FragmentedFile {
            alloc,
            file,
            tracks,
            runs,
        })
    }

    /// How many pieces there are: one more than runs.
    pub fn piece_count(&self) -> usize
        ensures { result ≡ length self.now }
    {
        self.runs.len() + 1
    }

    /// The piece at a place from 0 on: the initialization segment at 0, and then the media segments in order. It is
    /// made at each call.
    #[tactic(auto, unfolding(crate::specs::Pieces::pieces_of))]
    pub fn piece(&self, i: usize) -> Result<Bytes, OutOfMemory>
        requires { i < length self.now }
        ensures { IfOk result (λ piece. slice_get self.now i ≡ Some piece) }
    {
        if i == 0 {
            return init_segment_of(self.alloc, self.file.len(), self.tracks);
        }
        segment_of(self.alloc, self.file, i as u32, &self.runs[i - 1])
    }
}
