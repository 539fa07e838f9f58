//! A file that is appended to one source buffer, at once or in parts: it meets no quota of 2^62
//! bytes, and comes to the same. Functions that do nothing, with the laws as their contracts.

ghost use Rattle.std.specs.Prelude.{◌≡◌, ◌+◌, ◌<◌, ◌^◌, ℕ, List, [], ◌∷◌, ◌++◌, length, None, Some, IsSome};
ghost use Rattle.mse_calls.specs.declared.calls.Piece.{Piece};
ghost use Rattle.mse_engine.specs.State.{State, core_of};
ghost use Rattle.mse_engine.specs.Work.{running_in};
ghost use Rattle.cut_law.specs.Cuts.{IsInParts, bytes_of_pieces};
ghost use Rattle.cut_law.specs.Outcomes.{AreAlike};
ghost use Rattle.cut_law.specs.Files.{IsRoomBeforeEach, after_pieces};
ghost use Rattle.cut_law.specs.FileRooms.{HasRoomForFile, IsFresh, whole_of};

/// Just before each part of fewer than 2^62 bytes the buffer is not full, where with what it holds
/// there are still fewer.
pub fn file_room()
    ensures { (blobs : List (List ℕ)) (k : ℕ) (st : State) (held : ℕ) (bytes : List ℕ)
        (parts : List Piece) → bytes_of_pieces blobs parts ≡ Some bytes
        → held + length bytes < 2 ^ 62 → running_in st ≡ None
        → HasRoomForFile held k (core_of st) → IsRoomBeforeEach blobs k st parts }
{}

/// A file of fewer than 2^62 bytes that is appended in parts, up to the first fault, to a buffer
/// that has received nothing comes to what the whole file comes to. Bytes behind the first fault
/// change nothing.
pub fn file_whole()
    ensures parts { (bytes : List ℕ) (k : ℕ) (st : State) (parts : List Piece)
        → length bytes < 2 ^ 62 → IsInParts (bytes ∷ []) (whole_of 0) parts → IsFresh k st
        → AreAlike (after_pieces (bytes ∷ []) k st parts)
        (after_pieces (bytes ∷ []) k st (whole_of 0 ∷ [])) }
    ensures behind { (bytes more : List ℕ) (k : ℕ) (st : State)
        → length (bytes ++ more) < 2 ^ 62 → IsFresh k st
        → IsSome (after_pieces (bytes ∷ []) k st (whole_of 0 ∷ [])).source.fault
        → AreAlike (after_pieces ((bytes ++ more) ∷ []) k st (whole_of 0 ∷ []))
        (after_pieces (bytes ∷ []) k st (whole_of 0 ∷ [])) }
{}
