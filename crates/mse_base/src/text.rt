ghost use Rattle.std.specs.Prelude.{◌≡◌, IfOk, string_bytes};

use crate::OutOfMemory;
use std::alloc::Global;
use std::marker::Model;

/// An owned text. Contracts see its bytes, in UTF-8.
#[derive(Debug, Drop)]
pub struct Text {
    alloc: Global,
    text: String,
}

impl Model for Text {
    ghost use Rattle.std.specs.Prelude.{List, ℕ, string_bytes};

    ghost Value = { List ℕ };

    ghost view = { λ t. string_bytes t.text };
}

impl Text {
    /// A copy of a text.
    pub fn copy_of(alloc: Global, text: &str) -> Result<Text, OutOfMemory>
        ensures { IfOk result (λ t. t ≡ text.now) }
    {
        let text = String::from_str(alloc, text)?;
        Ok(Text { alloc, text })
    }

    /// The text of a string, which it takes over.
    pub fn from_string(alloc: Global, text: String) -> Text
        ensures { result ≡ string_bytes text }
    {
        Text { alloc, text }
    }

    /// The string of the text.
    pub fn into_string(self) -> String
        ensures { string_bytes result ≡ self }
    {
        self.text
    }

    /// The same text again.
    pub fn copy(&self) -> Result<Text, OutOfMemory>
        ensures { IfOk result (λ t. t ≡ self.now) }
    {
        Text::copy_of(self.alloc, self.text.as_str())
    }

    /// The text as a `str`.
    pub fn as_str(&self) -> &str
        ensures { result.now ≡ self.now }
    {
        self.text.as_str()
    }
}
