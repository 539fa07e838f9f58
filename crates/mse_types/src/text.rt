ghost use Rattle.std.specs.Prelude.{◌≡◌, ◌↔◌, ◌≤◌, ◌==◌, [], length};
ghost use Rattle.std.specs.List.{position_or_len};
ghost use Rattle.std.specs.Option.{option_copied};
ghost use Rattle.mse_types.specs.Texts.{without_leading_spaces, without_trailing_spaces, is_codec, are_codecs, quoted_list, bare_list, list_in, codecs_in, is_type_end, type_of};
ghost use Rattle.mse_types.specs.Grammar.{IsType};

use crate::answer::{Container, TypeAnswer};
use crate::names::{container, is_codec_name};

/// Reads a type text: `video/mp4`, `audio/mp4` or `audio/aac` in letters of either case, alone or with the
/// parameter `codecs`. Between the media type and the semicolon, and between the semicolon and `codecs=`, there may
/// be spaces. The value is a list in double quotes, or a list with no space, double quote or comma. Each of its
/// parts between commas, up to the first full stop, is a known codec. Nothing may follow the value.
pub fn read_type(text: &str) -> TypeAnswer
    ensures value { result ≡ type_of text.now }
    ensures empty { (result ≡ TypeAnswer.Empty) ↔ (text.now ≡ []) }
    ensures supported { (container : Container) →
        (result ≡ TypeAnswer.Supported container) ↔ IsType text.now container }
{
    read_bytes(text.as_bytes())
}

fn read_bytes(text: &[u8]) -> TypeAnswer
    ensures { result ≡ type_of text.now }
{
    if text.is_empty() {
        return TypeAnswer::Empty;
    }
    let (essence, rest) = text.split_at(text.len().min(9));
    match container(essence) {
        Some(container) if is_end(rest) => TypeAnswer::Supported(container),
        _ => TypeAnswer::Unsupported,
    }
}

/// Whether the text may end like this after the media type.
fn is_end(rest: &[u8]) -> bool
    ensures { result ≡ is_type_end rest.now }
{
    if rest.is_empty() {
        return true;
    }
    match codecs(rest) {
        Some(list) => are_codecs(list),
        None => false,
    }
}

/// The list of codecs in what follows the media type.
fn codecs(rest: &[u8]) -> Option<&[u8]>
    ensures { option_copied result ≡ codecs_in rest.now }
{
    let parameter = trim_start(rest).strip_prefix(b";")?;
    let value = trim_start(parameter).strip_prefix(b"codecs=")?;
    codec_list(value)
}

/// The list of codecs in a value.
fn codec_list(value: &[u8]) -> Option<&[u8]>
    ensures { option_copied result ≡ list_in value.now }
{
    match value {
        [b'"', rest @ ..] => quoted_value(rest),
        _ => bare_value(value),
    }
}

fn quoted_value(rest: &[u8]) -> Option<&[u8]>
    ensures { option_copied result ≡ quoted_list rest.now }
{
    let end = len_before(rest, b'"');
    if end + 1 == rest.len() {
        Some(&rest[..end])
    } else {
        None
    }
}

fn bare_value(value: &[u8]) -> Option<&[u8]>
    ensures { option_copied result ≡ bare_list value.now }
{
    if value.iter().any(|b| *b == b' ' || *b == b'"' || *b == b',') {
        None
    } else {
        Some(value)
    }
}

fn are_codecs(list: &[u8]) -> bool
    ensures { result ≡ are_codecs list.now }
{
    list.split(|b| *b == b',').all(|part| is_codec(part))
}

fn is_codec(part: &[u8]) -> bool
    ensures { result ≡ is_codec part.now }
{
    let codec = trim_end(trim_start(part));
    is_codec_name(&codec[..len_before(codec, b'.')])
}

/// How many bytes stand before the first that is `byte`: all, if none is.
fn len_before(bytes: &[u8], byte: u8) -> usize
    ensures value { result ≡ position_or_len (λ b. b == byte) bytes.now }
    ensures bound { result ≤ length bytes.now }
{
    let mut len = 0;
    while len < bytes.len() && bytes[len] != byte {
        len += 1;
    }
    len
}

fn trim_start(bytes: &[u8]) -> &[u8]
    ensures { result.now ≡ without_leading_spaces bytes.now }
{
    let mut start = 0;
    while start < bytes.len() && bytes[start] == b' ' {
        start += 1;
    }
    &bytes[start..]
}

fn trim_end(bytes: &[u8]) -> &[u8]
    ensures { result.now ≡ without_trailing_spaces bytes.now }
{
    let mut end = bytes.len();
    while end > 0 && bytes[end - 1] == b' ' {
        end -= 1;
    }
    &bytes[..end]
}
