//! What follows from the definitions: functions that do nothing, with the laws as their contracts.

ghost use Rattle.std.specs.Prelude.{◌≡◌, ◌≤◌, ◌<◌, ◌^◌, ℕ, List, ◌++◌, length, Some, IsSome};
ghost use Rattle.std.specs.Fmt.{decimal};
ghost use Rattle.mse_outside.specs.Outside.{Table};
ghost use Rattle.mse_calls.specs.declared.entry.Entry.{Entry};
ghost use Rattle.mse_engine.specs.State.{core_of};
ghost use Rattle.mse_commands.specs.declared.ending.Status.{Status};
ghost use Rattle.mse_commands.specs.declared.words.Command.{Command};
ghost use Rattle.mse_commands.specs.Requests.{ByFile};
ghost use Rattle.mse_commands.specs.Files.{IsJournalOf, IsThroughWith, AreNamesOfOneFile};
ghost use Rattle.mse_commands.specs.Outcomes.{RunOutcome};
ghost use Rattle.mse_commands.specs.Shown.{last_state, text_of};
ghost use Rattle.mse_commands.specs.Words.{count_of_word};

/// A word names a number up to the greatest one, which has 32 bits, exactly where it is that number
/// in decimal digits.
pub fn numbers_in_words()
    ensures in_digits { (most n : ℕ) (word : List ℕ) → most < 2 ^ 32
        → count_of_word most word ≡ Some n
        → (1 ≤ n) × (n ≤ most) × (word ≡ decimal n) }
    ensures each { (most n : ℕ) → most < 2 ^ 32 → 1 ≤ n → n ≤ most
        → count_of_word most (decimal n) ≡ Some n }
{}

/// Whole journals of a file of fewer than 2^62 bytes, by `ranges` or by `pieces` of any size, come
/// to one core, and the same is printed. Two runs that go through to their end with such a file
/// have one status and write the same bytes.
pub fn one_block()
    ensures core { (a b : Command) (bytes : List ℕ) (entries others : List Entry)
        → length bytes < 2 ^ 62 → IsJournalOf a bytes entries → IsJournalOf b bytes others
        → core_of (last_state (ByFile a bytes) entries)
        ≡ core_of (last_state (ByFile b bytes) others) }
    ensures text { (a b : Command) (bytes : List ℕ) (entries others : List Entry)
        → length bytes < 2 ^ 62 → IsJournalOf a bytes entries → IsJournalOf b bytes others
        → text_of (ByFile a bytes) entries ≡ text_of (ByFile b bytes) others }
    ensures runs { (files : Table) (a b : List (List ℕ)) (bytes before : List ℕ)
        (s t : RunOutcome) (x y : Status) → AreNamesOfOneFile files a b bytes
        → length bytes < 2 ^ 62
        → IsThroughWith files a before s x → IsThroughWith files b before t y
        → (x ≡ y) × (s.now.written.bytes ≡ t.now.written.bytes) }
{}

/// Bytes behind the first fault change nothing of what is printed.
pub fn behind_a_fault()
    ensures { (a b : Command) (bytes more : List ℕ) (entries others : List Entry)
        → length (bytes ++ more) < 2 ^ 62 → IsJournalOf a bytes entries
        → IsSome (last_state (ByFile a bytes) entries).source.fault
        → IsJournalOf b (bytes ++ more) others
        → text_of (ByFile b (bytes ++ more)) others ≡ text_of (ByFile a bytes) entries }
{}
