//! The words of a call.

ghost use Rattle.std.specs.Prelude.{◌≡◌, IfOk, map, string_bytes};
ghost use Rattle.mseplay_c.specs.Given.{words_in};

use crate::ByteSlice;
use mse_base::OutOfMemory;
use std::alloc::Global;

/// The words as texts; none where one of them is no text.
pub(crate) fn read_words(alloc: Global, given: &[ByteSlice<'_>]) -> Result<Vec<String>, OutOfMemory>
    ensures { IfOk result (λ words. map string_bytes words.items ≡ words_in given.now) }
{
    let mut words = Vec::new(alloc);
    for word in given {
        match str::from_utf8(word.bytes) {
            Ok(text) => words.push(String::from_str(alloc, text)?)?,
            Err(_) => return Ok(Vec::new(alloc)),
        }
    }
    Ok(words)
}
