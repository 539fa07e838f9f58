//! What is true of the program as a function: functions that do nothing, with the laws as their
//! contracts.

ghost use Rattle.std.specs.Prelude.{◌≡◌, ◌<◌, ◌^◌, ℕ, List, length, map, Some, None, Ok};
ghost use Rattle.mse_outside.specs.Outside.{Table};
ghost use Rattle.call_script.specs.declared.script.Script.{Script};
ghost use Rattle.call_script.specs.declared.script.StepLine.{StepLine};
ghost use Rattle.listeners.specs.Ways.{AreByWay};
ghost use Rattle.run_steps.specs.Ways.{Way};
ghost use Rattle.script_run.specs.DrainSteps.{IsAtRest};
ghost use Rattle.cut_law.specs.Cuts.{AreCuts, Cut};
ghost use Rattle.cut_law.specs.Outcomes.{AreAlike};
ghost use Rattle.cut_law.specs.Room.{IsUnmet};
ghost use Rattle.mse_commands.specs.declared.ending.Status.{Status};
ghost use Rattle.mse_commands.specs.Files.{AreNamesOfOneFile};
ghost use Rattle.mse_commands.specs.Outcomes.{IsEndOfRun, RunOutcome};
ghost use Rattle.mse_commands.specs.Requests.{ByScript, opening_of, request_in};
ghost use Rattle.mse_commands.specs.Ends.{AreByWays, IsJournalBy, IsOutputBy, IsOwnJournal, IsPlayedSilently, IsRunByWays, with_steps};
ghost use Rattle.mse_commands.specs.Played.{PlayState, drain_played};
ghost use Rattle.mse_commands.specs.Program.{script_played, program_of};

use listeners::Listener;

/// A drain goes on until nothing is left, unless a limit of calls stops it: no bound of the
/// definition cuts it off.
pub fn drain_ends()
    ensures { (blobs : List (List ℕ)) (p : PlayState) → (drain_played blobs p).stop ≡ None
        → IsAtRest (drain_played blobs p).now.state }
{}

/// What is played is a journal of the script, of all that was done and heard.
pub fn own_journal()
    ensures { (ways : List Way) (script : Script) (blobs : List (List ℕ))
        → IsOwnJournal ways script blobs (script_played ways script blobs) }
{}

/// A script, and one that differs from it in cuts of awaited appends, come to the same where both are
/// played to their ends and no listener makes a call, if neither they nor the scripts between them,
/// one for each cut, find a buffer full just before an append.
pub fn cuts_alike()
    ensures { (ways : List Way) (script : Script) (blobs : List (List ℕ)) (cuts : List Cut)
        (steps : List StepLine) → IsUnmet blobs (opening_of (ByScript script blobs)) script.steps
        → AreCuts blobs (opening_of (ByScript script blobs)) script.steps cuts steps
        → IsPlayedSilently ways script blobs
        → IsPlayedSilently ways (with_steps steps script) blobs
        → AreAlike (script_played ways (with_steps steps script) blobs).now.state
        (script_played ways script blobs).now.state }
{}

/// A file of fewer than 2^62 bytes comes to the same output, by `ranges` and by `pieces` of any
/// size.
pub fn one_output()
    ensures { (ways : List Way) (files : Table) (a b : List (List ℕ)) (bytes : List ℕ)
        → AreNamesOfOneFile files a b bytes → length bytes < 2 ^ 62
        → program_of ways files a ≡ program_of ways files b }
{}

/// Where these are the ways that listeners tell, and all that was done is by them, each did what its
/// way gives by its rules.
pub fn by_ways(listeners: &[Box<dyn Listener>])
    ensures { (ways : List Way) → map (λ b. way b) listeners.now ≡ map (λ way. Some way) ways
        → AreByWay way rules notes listeners.now
        → AreByWays ways (map (λ b. rules b) listeners.now) (map (λ b. notes b) listeners.now) }
{}

/// Where neither the library nor the sink fails, and listeners that have heard nothing tell their
/// ways, a run ends with just the status of the program and writes just its lines, each a put of its
/// own, or there is no memory, and it writes a front of them. The journal of a script is that of the program, or a front
/// of it.
pub fn one_program()
    ensures ends { (ways : List Way) (files : Table) (words : List (List ℕ)) (outcome : RunOutcome)
        (end : Status) → IsRunByWays ways outcome end
        → IsEndOfRun (length ways) (request_in files words) outcome end
        → IsOutputBy (program_of ways files words) outcome.before.written outcome.now.written end }
    ensures journal { (ways : List Way) (files : Table) (words : List (List ℕ)) (script : Script)
        (blobs : List (List ℕ)) (outcome : RunOutcome) (end : Status)
        → (request_in files words).task ≡ Ok (ByScript script blobs)
        → IsRunByWays ways outcome end
        → IsEndOfRun (length ways) (request_in files words) outcome end
        → IsJournalBy (script_played ways script blobs).entries outcome.entries end }
{}
