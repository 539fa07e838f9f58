ghost use Rattle.std.specs.Prelude.{◌≡◌, ◌<◌};
ghost use Rattle.std.specs.Option.{option_copied};
ghost use Rattle.call_script.specs.Words.{text_before, rest_after, first_word, after_word};

/// What stands before the first `mark` of a text, and what stands behind it, where there is one.
pub fn split_at_mark(text: &str, mark: char) -> (&str, Option<&str>)
    requires { mark < 128 }
    ensures front { result.0.now ≡ text_before mark text.now }
    ensures rest { option_copied result.1 ≡ rest_after mark text.now }
{
    match text.split_once(mark) {
        Some((front, rest)) => (front, Some(rest)),
        None => (text, None),
    }
}

/// The first word of a text, and what stands behind the space after it, where there is one.
pub fn split_word(text: &str) -> (&str, Option<&str>)
    ensures word { result.0.now ≡ first_word text.now }
    ensures rest { option_copied result.1 ≡ after_word text.now }
{
    split_at_mark(text, ' ')
}
