//! What a session comes to: functions that do nothing, with the laws as their contracts.

ghost use Rattle.std.specs.Prelude.{◌≡◌, ℕ, true, List, [], ◌∷◌, ◌++◌, length, All, Option, None, Ok};
ghost use Rattle.mse_outside.specs.Outside.{SinkView, Table};
ghost use Rattle.mse_calls.specs.declared.answers.Name.{Name};
ghost use Rattle.call_script.specs.declared.script.Script.{Script};
ghost use Rattle.call_script.specs.declared.script.StepLine.{StepLine};
ghost use Rattle.cut_law.specs.Plays.{after_line, drain_entries};
ghost use Rattle.mse_engine.specs.State.{State};
ghost use Rattle.live_session.specs.Next.{AreNextLines, after_lines, entries_of_lines};
ghost use Rattle.mse_commands.specs.declared.ending.Status.{Status};
ghost use Rattle.mse_commands.specs.Program.{by_rules, program_of, script_played};
ghost use Rattle.mse_commands.specs.Requests.{ByScript, opening_of, request_in};
ghost use Rattle.mse_engine.specs.Standing.{Stands};
ghost use Rattle.mse_commands.specs.Works.{script_closing};
ghost use Rattle.live_session.specs.Steps.{IsStepDone, SessionView, has_its_bytes, step_lines, step_refusal, without_front};
ghost use Rattle.live_session.specs.Sessions.{HasPlayed, IsInside, IsSameFor, lines_played_of, with_step};

/// A script with one step more prints the same lines and then those of the step, and comes to the state behind it. No
/// limit stops it, since nobody listens.
pub fn one_step_more()
    ensures lines { (script : Script) (blobs : List (List ℕ)) (line : StepLine)
        → lines_played_of (with_step line script) blobs
        ≡ lines_played_of script blobs
        ++ step_lines blobs (script_played [] script blobs).now.state line }
    ensures state { (script : Script) (blobs : List (List ℕ)) (line : StepLine)
        → (script_played [] (with_step line script) blobs).now.state
        ≡ after_line blobs (script_played [] script blobs).now.state line }
    ensures through { (script : Script) (blobs : List (List ℕ))
        → (script_played [] script blobs).stop ≡ None }
{}

/// Bytes that are handed over behind all that the steps name change nothing of them.
pub fn later_bytes()
    ensures lines { (script : Script) (blobs more : List (List ℕ))
        → All (IsInside (length blobs)) script.steps
        → lines_played_of script (blobs ++ more) ≡ lines_played_of script blobs }
    ensures state { (script : Script) (blobs more : List (List ℕ))
        → All (IsInside (length blobs)) script.steps
        → (script_played [] script (blobs ++ more)).now.state
        ≡ (script_played [] script blobs).now.state }
{}

/// What the program prints of a script without rules: the lines of its steps, and the block. So many listeners
/// without rules are as none.
pub fn program_of_steps()
    ensures lines { (files : Table) (words : List (List ℕ)) (script : Script)
        (blobs : List (List ℕ)) → (request_in files words).task ≡ Ok (ByScript script blobs)
        → program_of [] files words ≡ record {
          status = Status.Ok;
          lines = lines_played_of script blobs
              ++ script_closing (script_played [] script blobs).now.state;
        } }
    ensures unheard { (n : ℕ) (files : Table) (words : List (List ℕ)) (script : Script)
        (blobs : List (List ℕ)) → (request_in files words).task ≡ Ok (ByScript script blobs)
        → script.rules ≡ [] → program_of (by_rules n) files words ≡ program_of [] files words }
{}

/// A line goes by the bytes of the blob that it names, and by no other.
pub fn own_bytes()
    ensures lines { (blobs others : List (List ℕ)) (line : StepLine) (st : State)
        → IsSameFor line blobs others → step_lines blobs st line ≡ step_lines others st line }
    ensures state { (blobs others : List (List ℕ)) (line : StepLine) (st : State)
        → IsSameFor line blobs others → after_line blobs st line ≡ after_line others st line }
    ensures refusal { (blobs others : List (List ℕ)) (line : StepLine) (st : State)
        → IsSameFor line blobs others
        → step_refusal blobs st line ≡ step_refusal others st line }
{}

/// A session goes by the play of a script: that of what was handed over and done in it, whatever it forgets. The script is
/// any without steps where the session opens, with its quota and gap. What the steps printed, put together, are the
/// lines that the program prints of the script before its block, and the block is that of a state that the session
/// stands for.
pub fn sessions_are_plays()
    ensures opened { (script : Script) (s : SessionView) → script.steps ≡ []
        → Stands s.engine (opening_of (ByScript script [])) → s.blobs ≡ []
        → HasPlayed script [] [] s }
    ensures given { (script : Script) (blobs lines : List (List ℕ)) (bytes : List ℕ)
        (s : SessionView) → HasPlayed script blobs lines s
        → HasPlayed script (blobs ++ bytes ∷ []) lines
        (record s { blobs = s.blobs ++ bytes ∷ [] }) }
    ensures forgotten { (script : Script) (blobs lines : List (List ℕ)) (n : ℕ) (s : SessionView)
        → HasPlayed script blobs lines s → HasPlayed script blobs lines (without_front n s) }
    ensures stepped { (script : Script) (blobs lines : List (List ℕ)) (line : StepLine)
        (refused : Option Name) (old new : SessionView) (before now : SinkView)
        → HasPlayed script blobs lines old → has_its_bytes old line ≡ true
        → IsStepDone (script_played [] script blobs).now.state line refused old new before now
        → HasPlayed (with_step line script) blobs
        (lines ++ step_lines old.blobs (script_played [] script blobs).now.state line) new }
    ensures closed { (n : ℕ) (files : Table) (words : List (List ℕ)) (script : Script)
        (blobs lines : List (List ℕ)) (s : SessionView) → HasPlayed script blobs lines s
        → (request_in files words).task ≡ Ok (ByScript script blobs) → script.rules ≡ []
        → (st : State) × Stands s.engine st
        × (program_of (by_rules n) files words
        ≡ record { status = Status.Ok; lines = lines ++ script_closing st }) }
{}

/// Doing the next step again and again comes to an end, where there is none. It is a drain: with its entries, and to
/// its state.
pub fn steps_of_a_drain()
    ensures ends { (blobs : List (List ℕ)) (st : State)
        → (lines : List StepLine) × AreNextLines blobs st lines }
    ensures entries { (blobs : List (List ℕ)) (st : State) (lines : List StepLine)
        → AreNextLines blobs st lines → entries_of_lines blobs st lines ≡ drain_entries blobs st }
    ensures state { (blobs : List (List ℕ)) (st : State) (lines : List StepLine)
        → AreNextLines blobs st lines
        → after_lines blobs st lines ≡ after_line blobs st StepLine.Drain }
{}
