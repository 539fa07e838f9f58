//! Cutting the bytes of an append leaves what appending comes to. Functions that do nothing, with the
//! laws as their contracts.

ghost use Rattle.std.specs.Prelude.{◌≡◌, ◌≢◌, ℕ, List, [], ◌++◌, None, IfSome};
ghost use Rattle.mse_base.specs.declared.ticks.Moment.{Moment};
ghost use Rattle.mse_calls.specs.declared.calls.Call.{Call};
ghost use Rattle.mse_calls.specs.declared.calls.Piece.{Piece};
ghost use Rattle.mse_calls.specs.declared.entry.Entry.{Entry};
ghost use Rattle.call_script.specs.declared.script.StepLine.{StepLine};
ghost use Rattle.mse_engine.specs.State.{State, core_of};
ghost use Rattle.mse_engine.specs.Calls.{after_call};
ghost use Rattle.mse_engine.specs.Work.{after_element_turn, fire_result, running_in};
ghost use Rattle.cut_law.specs.Cuts.{AreCuts, Cut, IsAwaited, IsInParts, cut_script, script_with, whole_script};
ghost use Rattle.cut_law.specs.Files.{IsRoomBeforeEach, after_piece, after_pieces};
ghost use Rattle.cut_law.specs.Outcomes.{AreAlike, outcome_of};
ghost use Rattle.cut_law.specs.Plays.{after_entry, after_line, play_of};
ghost use Rattle.cut_law.specs.Room.{HasRoomForEntry, HasRoomForCall, IsUnmet, HasRoomForLine};

/// What appending comes to follows from the core.
pub fn outcome_law()
    ensures { (a b : State) → core_of a ≡ core_of b → outcome_of a ≡ outcome_of b }
{}

/// An event that is fired, a turn of the element and the calls on the element leave the core.
pub fn element_law()
    ensures fire { (st : State)
        → IfSome (fire_result st) (λ fired. core_of fired.state ≡ core_of st) }
    ensures turn { (st : State) → IfSome (after_element_turn st) (λ new. core_of new ≡ core_of st) }
    ensures seek { (blobs : List (List ℕ)) (t : Moment) (st : State)
        → core_of (after_call blobs (Call.Seek t) st).state ≡ core_of st }
    ensures play { (blobs : List (List ℕ)) (st : State)
        → core_of (after_call blobs Call.Play st).state ≡ core_of st }
    ensures pause { (blobs : List (List ℕ)) (st : State)
        → core_of (after_call blobs Call.Pause st).state ≡ core_of st }
    ensures advance { (blobs : List (List ℕ)) (t : Moment) (st : State)
        → core_of (after_call blobs (Call.Advance t) st).state ≡ core_of st }
{}

/// Where no buffer is full just before an append, the core behind an entry, or behind a line of a
/// script whose listeners make no calls, follows from the core before it.
pub fn core_law()
    ensures entry { (blobs : List (List ℕ)) (a b : State) (entry : Entry) → core_of a ≡ core_of b
        → HasRoomForEntry blobs (core_of a) entry
        → core_of (after_entry blobs a entry) ≡ core_of (after_entry blobs b entry) }
    ensures line { (blobs : List (List ℕ)) (a b : State) (line : StepLine) → core_of a ≡ core_of b
        → HasRoomForLine blobs (core_of a) line
        → core_of (after_line blobs a line) ≡ core_of (after_line blobs b line) }
{}

/// Cutting the bytes of an awaited append anywhere comes to the same, where no buffer is full just
/// before an append of either script. So does one cut after another.
pub fn any_cutting()
    ensures once { (blobs : List (List ℕ)) (st : State) (cut : Cut)
        → IsInParts blobs cut.piece cut.parts → IsAwaited blobs st cut.front
        → IsUnmet blobs st (whole_script cut) → IsUnmet blobs st (cut_script cut)
        → AreAlike (play_of blobs st (cut_script cut)) (play_of blobs st (whole_script cut)) }
    ensures again { (blobs : List (List ℕ)) (st : State) (s t : List StepLine) (cuts : List Cut)
        → IsUnmet blobs st s → AreCuts blobs st s cuts t
        → AreAlike (play_of blobs st t) (play_of blobs st s) }
{}

/// Where one stops appending the parts of an awaited append behind one that brought an error, and
/// nothing comes behind the append, that comes to the same as the whole append.
pub fn stopped_parts()
    ensures { (blobs : List (List ℕ)) (st : State) (cut : Cut) (done left : List Piece)
        → IsInParts blobs cut.piece cut.parts → cut.back ≡ [] → cut.parts ≡ done ++ left
        → IsAwaited blobs st cut.front → IsUnmet blobs st (whole_script cut)
        → IsUnmet blobs st (script_with done cut)
        → (core_of (play_of blobs st (script_with done cut))).source.error ≢ 0
        → AreAlike (play_of blobs st (script_with done cut))
        (play_of blobs st (whole_script cut)) }
{}

/// A file that is appended piece by piece up to the first fault comes to what appending it at once
/// comes to, where nothing runs and there was no fault and no error before.
pub fn file_parts()
    ensures { (blobs : List (List ℕ)) (k : ℕ) (st : State) (whole : Piece) (parts : List Piece)
        → IsInParts blobs whole parts → running_in st ≡ None
        → st.source.fault ≡ None → (core_of st).source.error ≡ 0
        → HasRoomForCall blobs (core_of st) (Call.AppendBuffer k whole)
        → IsRoomBeforeEach blobs k st parts
        → AreAlike (after_pieces blobs k st parts) (after_piece blobs k st whole) }
{}

/// The law needs its premises: it does not hold without "awaited", nor without "no buffer is full"
/// of the script in which the append is cut, nor without that of the other script.
pub fn needed_premises()
    ensures awaited { ((blobs : List (List ℕ)) (st : State) (cut : Cut)
        → IsInParts blobs cut.piece cut.parts
        → IsUnmet blobs st (whole_script cut) → IsUnmet blobs st (cut_script cut)
        → outcome_of (play_of blobs st (cut_script cut))
        ≡ outcome_of (play_of blobs st (whole_script cut))) → ⊥ }
    ensures cut_has_room { ((blobs : List (List ℕ)) (st : State) (cut : Cut)
        → IsInParts blobs cut.piece cut.parts → IsAwaited blobs st cut.front
        → IsUnmet blobs st (whole_script cut)
        → outcome_of (play_of blobs st (cut_script cut))
        ≡ outcome_of (play_of blobs st (whole_script cut))) → ⊥ }
    ensures whole_has_room { ((blobs : List (List ℕ)) (st : State) (cut : Cut)
        → IsInParts blobs cut.piece cut.parts → IsAwaited blobs st cut.front
        → IsUnmet blobs st (cut_script cut)
        → outcome_of (play_of blobs st (cut_script cut))
        ≡ outcome_of (play_of blobs st (whole_script cut))) → ⊥ }
{}
