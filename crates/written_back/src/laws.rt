//! The laws: functions that do nothing, with the laws as their contracts.

ghost use Rattle.std.specs.Prelude.{◌≡◌, ◌<◌, ◌≤◌, ◌^◌, ◌+◌, ◌++◌, ◌∷◌, [], ℕ, List, Option, Ok, All, IsOkAnd, length, map};
ghost use Rattle.std.specs.List.{flat_map, AllByRecursion};
ghost use Rattle.mse_base.specs.declared.track.Presentation.{Presentation};
ghost use Rattle.mse_base.specs.declared.track.TrackInfo.{TrackInfo};
ghost use Rattle.bmff_fragment.specs.Plans.{plan_of};
ghost use Rattle.bmff_init.specs.Movies.{init_of};
ghost use Rattle.bmff_write.specs.declared.track_out.TrackOut.{TrackOut};
ghost use Rattle.bmff_write.specs.declared.traf_out.TrafOut.{TrafOut};
ghost use Rattle.bmff_write.specs.Fits.{IsFittingTrack};
ghost use Rattle.bmff_write.specs.Tracks.{AreTracksOut, AreSampleDescriptions, AreTrafsOut};
ghost use Rattle.bmff_write.specs.Movie.{moov_bytes, init_bytes, init_bytes_with};
ghost use Rattle.bmff_write.specs.Fragment.{moof_bytes, moof_len};
ghost use Rattle.bmff_write.specs.Made.{made_track, made_bytes};
ghost use Rattle.sample_tables.specs.declared.media_track.MediaTrack.{MediaTrack};
ghost use Rattle.sample_tables.specs.Movies.{file_tracks};
ghost use Rattle.remux.specs.Pieces.{pieces_of_file};
ghost use Rattle.segment_walk.specs.Segments.{items_of_string};
ghost use Rattle.written_back.specs.Tracks.{track_read, presentation_read};
ghost use Rattle.written_back.specs.Segments.{SegmentOut, IsTrafOf, IsSegmentOf, segments_bytes, items_read};
ghost use Rattle.written_back.specs.Fragments.{items_of_file};
ghost use Rattle.written_back.specs.Made.{made_segments_out};
ghost use Rattle.written_back.specs.Slots.{AreMedia, trafs_slots};

/// A movie box that was written tells the tracks that were handed in.
pub fn movie_law()
    ensures { (tracks : List TrackOut) (stsds : List (List ℕ)) → AreTracksOut tracks →
        AllByRecursion IsFittingTrack tracks
        → AreSampleDescriptions tracks stsds
        → init_of (moov_bytes tracks stsds) ≡ Ok (presentation_read tracks) }
{}

/// A movie fragment that was written announces the samples that were handed in, in order, with their times, and places
/// their bytes one after the other behind the header of mdat.
pub fn fragment_law()
    ensures { (tracks : List TrackInfo) (sequence : ℕ) (trafs : List TrafOut) → AreMedia tracks →
        AreTrafsOut trafs
        → AllByRecursion (IsTrafOf tracks) trafs
        → plan_of tracks (moof_bytes sequence trafs)
        ≡ Ok (trafs_slots tracks (moof_len trafs + 8) trafs) }
{}

/// What `write_init` wrote, and behind it any number of `write_segment`, whose track fragments name the tracks, reads
/// as one initialization segment with these tracks, and then for each segment as the coded frames that were handed in,
/// with their times and their very bytes, and its end, whichever presentation came before. No fault comes. The same of
/// `write_init_with`.
pub fn string_law()
    ensures plain { (before : Option Presentation) (tracks : List TrackOut)
        (segments : List SegmentOut) → AreTracksOut tracks → AllByRecursion IsFittingTrack tracks →
        AllByRecursion (IsSegmentOf (map track_read tracks)) segments
        → items_of_string before (init_bytes tracks ++ segments_bytes segments)
        ≡ items_read tracks (length (init_bytes tracks)) segments }
    ensures with_descriptions { (before : Option Presentation) (tracks : List TrackOut)
        (stsds : List (List ℕ)) (segments : List SegmentOut)
        → AreTracksOut tracks → AllByRecursion IsFittingTrack tracks
        → AreSampleDescriptions tracks stsds
        → AllByRecursion (IsSegmentOf (map track_read tracks)) segments
        → items_of_string before (init_bytes_with tracks stsds ++ segments_bytes segments)
        ≡ items_read tracks (length (init_bytes_with tracks stsds)) segments }
{}

/// A file that `make` makes from a number reads as the initialization segment of its track, which has 595 bytes, and
/// then its segments, whichever presentation came before.
pub fn make_law()
    ensures { (before : Option Presentation) (n : ℕ) → n ≤ 10000 →
        items_of_string before (made_bytes n)
        ≡ items_read (made_track ∷ []) 595 (made_segments_out n) }
{}

/// The pieces of a classic file, one behind the other, read as one initialization segment with the tracks of the file,
/// and then for each run as the coded frames of its samples, with their times and their very bytes, and its end,
/// whichever presentation came before. No fault comes.
pub fn remux_law()
    ensures { (before : Option Presentation) (file : List ℕ) (tracks : List MediaTrack)
        → All (λ byte. byte < 2 ^ 8) file → file_tracks file ≡ Ok tracks
        → IsOkAnd (pieces_of_file file) (λ pieces.
        items_of_string before (flat_map (λ piece. piece) pieces) ≡ items_of_file file tracks) }
{}
