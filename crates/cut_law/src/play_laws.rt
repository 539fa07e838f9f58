//! The journal of a script whose listeners make no calls: there is one, that of the play, so that the
//! law of cuts holds of journals. Functions that do nothing, with the laws as their contracts.

ghost use Rattle.std.specs.Prelude.{◌≡◌, ℕ, List};
ghost use Rattle.mse_calls.specs.declared.entry.Entry.{Entry};
ghost use Rattle.call_script.specs.declared.script.StepLine.{StepLine};
ghost use Rattle.mse_engine.specs.State.{State};
ghost use Rattle.mse_engine.specs.Run.{after_entries};
ghost use Rattle.script_run.specs.DrainSteps.{IsDrain};
ghost use Rattle.script_run.specs.Lines.{Limits};
ghost use Rattle.script_run.specs.Turns.{calls_in};
ghost use Rattle.cut_law.specs.Plays.{drain_entries, play_entries};
ghost use Rattle.cut_law.specs.Silent.{AreCutsAlike, IsDrainCounted, IsSilentJournal};

/// A script has one whole journal that replays and in which no listener calls: that of its play. So
/// has a drain, whose steps are counted.
pub fn one_play()
    ensures some { (blobs : List (List ℕ)) (limits : Limits) (st : State)
        (lines : List StepLine)
        → IsSilentJournal blobs limits st lines (play_entries blobs 0 st lines) }
    ensures one { (blobs : List (List ℕ)) (limits : Limits) (st : State)
        (lines : List StepLine) (entries : List Entry)
        → IsSilentJournal blobs limits st lines entries
        → entries ≡ play_entries blobs 0 st lines }
    ensures drain { (blobs : List (List ℕ)) (st : State) (part : List Entry)
        → IsDrain blobs st part → calls_in part ≡ 0 → part ≡ drain_entries blobs st }
    ensures counts { (blobs : List (List ℕ)) (st : State) (part : List Entry)
        → IsDrain blobs st part → calls_in part ≡ 0 → IsDrainCounted blobs st part }
{}

/// Where the journal of a run has no listener's call, cutting awaited appends of its script comes to
/// the same as the run did, where no buffer is full just before an append of any of the scripts.
pub fn cut_journal()
    ensures { (blobs : List (List ℕ)) (limits : Limits) (st : State) (lines : List StepLine)
        (entries : List Entry) → IsSilentJournal blobs limits st lines entries
        → AreCutsAlike blobs st lines (after_entries blobs st entries) }
{}
