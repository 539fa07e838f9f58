ghost use Rattle.std.specs.Prelude.{◌≡◌, ◌<◌, ◌++◌, IfOk, OnOk, map, string_bytes};
ghost use Rattle.std.specs.Fmt.{decimal};
ghost use Rattle.event_text.specs.Words.{sign_of, printable_text};

use itoa::Buffer;
use mse_base::{OutOfMemory, Text};
use std::alloc::{AllocError, Global};

/// The sign that a character prints as: itself from 0x20 to 0x7E, else a question mark.
fn sign_of(c: char) -> char
    ensures sign { result ≡ sign_of c }
    ensures ascii { result < 128 }
{
    if ' ' <= c && c <= '~' { c } else { '?' }
}

/// Appends a text with one sign for each character.
pub fn push_signs(text: &mut String, shown: &str) -> Result<(), AllocError>
    ensures { OnOk result (string_bytes text.new
        ≡ string_bytes text.old ++ printable_text shown.now) }
{
    for c in shown.chars() {
        text.push(sign_of(c))?;
    }
    Ok(())
}

/// Appends the four bytes of a type of a box or a coding, with one sign for each byte.
pub fn push_code(text: &mut String, code: &[u8; 4]) -> Result<(), AllocError>
    ensures { OnOk result (string_bytes text.new ≡ string_bytes text.old ++ map sign_of code.now) }
{
    for byte in code {
        text.push(sign_of(char::from(*byte)))?;
    }
    Ok(())
}

/// A text as it is printed: a character from 0x20 to 0x7E as itself, and every other one as a
/// question mark.
pub fn printable_text(alloc: Global, text: &str) -> Result<Text, OutOfMemory>
    ensures { IfOk result (λ t. t ≡ printable_text text.now) }
{
    let mut signs = String::new(alloc);
    push_signs(&mut signs, text)?;
    Ok(Text::from_string(alloc, signs))
}

/// Appends a number in decimal: one digit as a character, since the others take longer.
pub fn push_decimal(text: &mut String, n: u32) -> Result<(), AllocError>
    ensures { OnOk result (string_bytes text.new ≡ string_bytes text.old ++ decimal n) }
{
    if n < 10 {
        return text.push(char::from(b'0' + n as u8));
    }
    let mut buffer = Buffer::new();
    text.push_str(buffer.format(n))
}
