ghost use Rattle.std.specs.Prelude.{◌≡◌, IfOk};
ghost use Rattle.call_script.specs.Blobs.{file_of, hex_of, blob_of};

use crate::script::BlobText;
use crate::words::split_word;
use mse_base::{Bytes, OutOfMemory, Text};
use std::alloc::Global;

fn read_file(alloc: Global, name: &str) -> Result<Option<BlobText>, OutOfMemory>
    ensures { IfOk result (λ blob. blob ≡ file_of name.now) }
{
    if name.is_empty() {
        return Ok(None);
    }
    let name = Text::copy_of(alloc, name)?;
    Ok(Some(BlobText::File(name)))
}

fn read_hex(alloc: Global, digits: &str) -> Result<Option<BlobText>, OutOfMemory>
    ensures { IfOk result (λ blob. blob ≡ hex_of digits.now) }
{
    match hex::decode(alloc, digits) {
        Ok(bytes) => Ok(Some(BlobText::Hex(Bytes::from_vec(alloc, bytes)?))),
        Err(hex::FromHexError::OutOfMemory) => Err(OutOfMemory),
        Err(_) => Ok(None),
    }
}

/// The blob that a text of a script writes; `None` exactly where it writes none.
#[tactic(auto, unfolding(crate::specs::Blobs::blob_of))]
pub fn read_blob(alloc: Global, text: &str) -> Result<Option<BlobText>, OutOfMemory>
    ensures { IfOk result (λ blob. blob ≡ blob_of text.now) }
{
    let (word, rest) = split_word(text);
    let Some(rest) = rest else {
        return Ok(None);
    };
    if word == "file" {
        read_file(alloc, rest)
    } else if word == "hex" {
        read_hex(alloc, rest)
    } else {
        Ok(None)
    }
}
