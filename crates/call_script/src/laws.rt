//! What holds of the definitions.

ghost use Rattle.std.specs.Prelude.{◌≡◌, ◌<◌, ◌^◌, ℕ, List, Some};
ghost use Rattle.std.specs.Fmt.{decimal};
ghost use Rattle.mse_calls.specs.declared.calls.Call.{Call};
ghost use Rattle.event_text.specs.Calls.{call_text};
ghost use Rattle.call_script.specs.Numbers.{number_of};
ghost use Rattle.call_script.specs.Lines.{call_of_line};
ghost use Rattle.call_script.specs.ReadBack.{IsReadableCall};

/// A number without leading zeros is a number as it is printed.
pub fn numbers_are_as_printed()
    ensures printed { (n : ℕ) → n < 10 ^ 64 → number_of (decimal n) ≡ Some n }
    ensures read { (text : List ℕ) (n : ℕ) → number_of text ≡ Some n → n < 2 ^ 64
        → text ≡ decimal n }
{}

/// The printed line of a call is a call line that reads back as the call, where its type has only
/// printable characters and its times have at most 24 digits in ticks.
pub fn printed_calls_read_back()
    ensures { (call : Call) → IsReadableCall call → call_of_line (call_text call) ≡ Some call }
{}
