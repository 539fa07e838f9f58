//! Files, scripts and blobs of the library.

ghost use Rattle.std.specs.Prelude.{◌≡◌, ◌⊎◌, ◌∷◌, ℕ, List, [], length, Ok, IfSome, IfOk, IfErr, OnOk, IsErrOf};
ghost use Rattle.mse_outside.specs.Outside.{AreLoaded, IsFailedLoad};
ghost use Rattle.mse_commands.specs.Requests.{IsReadOf, blob_bytes, blobs_bytes, blob_file_names, file_bytes, script_of_file};
ghost use Rattle.mse_commands.specs.Loads.{AreFailedLoadsTold, IsLoadEnd, IsScriptEnd, failures};

use crate::ending::End;
use call_script::{BlobText, Script, ScriptError, read_script};
use mse_base::{Bytes, Text};
use mse_calls::Blobs;
use mse_outside::{Library, Loaded};
use std::alloc::Global;

/// The file of this name is not there.
fn no_file(alloc: Global, name: &str) -> End
    ensures { (result ≡ End.Memory) ⊎ (result ≡ End.NoFile name.now) }
{
    match Text::copy_of(alloc, name) {
        Ok(name) => End::NoFile(name),
        Err(_) => End::Memory,
    }
}

/// The library failed to read the file of this name.
fn failed_read(alloc: Global, name: &str) -> End
    ensures { (result ≡ End.Memory) ⊎ (result ≡ End.Read name.now) }
{
    match Text::copy_of(alloc, name) {
        Ok(name) => End::Read(name),
        Err(_) => End::Memory,
    }
}

/// The bytes of a file.
///
/// `NoFile` where the library has no file of this name, `Read` where it failed to read it, and
/// `Memory`.
pub fn load<L: Library>(alloc: Global, library: &mut L, name: &str) -> Result<Vec<u8>, End>
    ensures table { L.table library.new ≡ L.table library.old }
    ensures failures { AreFailedLoadsTold (L.faults library.old) (L.faults library.new) result }
    ensures ok { IfSome (L.table library.old) (λ files.
        IfOk result (λ made. file_bytes files name.now ≡ Ok made.items)) }
    ensures early_end { IfErr result (IsLoadEnd (L.table library.old)
        (failures (L.faults library.old) (L.faults library.new))
        (name.now ∷ []) (λ files. file_bytes files name.now)) }
    ensures loads { OnOk result (AreLoaded L.load_gives (name.now ∷ []) library.old library.new) }
    ensures failed_load { (other : List ℕ) → IsErrOf result (End.Read other)
        → IsFailedLoad L.load_gives (name.now ∷ []) other library.old library.new }
{
    let mut bytes = Vec::new(alloc);
    match library.load(name, &mut bytes) {
        Loaded::Done => Ok(bytes),
        Loaded::NoFile => Err(no_file(alloc, name)),
        Loaded::Failed => Err(failed_read(alloc, name)),
        Loaded::OutOfMemory => Err(End::Memory),
    }
}

/// The script of a file.
///
/// As `load`; and `Script`, with its fault, where the bytes are no script.
pub fn load_script<L: Library>(alloc: Global, library: &mut L, name: &str) -> Result<Script, End>
    ensures table { L.table library.new ≡ L.table library.old }
    ensures failures { AreFailedLoadsTold (L.faults library.old) (L.faults library.new) result }
    ensures ok { IfSome (L.table library.old) (λ files.
        IfOk result (λ made. script_of_file files name.now ≡ Ok made)) }
    ensures as_read { IfOk result (λ made. IsReadOf (Ok made)) }
    ensures early_end { IfErr result (IsScriptEnd (L.table library.old)
        (failures (L.faults library.old) (L.faults library.new)) name.now) }
    ensures loads { OnOk result (AreLoaded L.load_gives (name.now ∷ []) library.old library.new) }
    ensures failed_load { (other : List ℕ) → IsErrOf result (End.Read other)
        → IsFailedLoad L.load_gives (name.now ∷ []) other library.old library.new }
{
    let bytes = match load(alloc, library, name) {
        Ok(bytes) => bytes,
        Err(end) => return Err(end),
    };
    match read_script(alloc, bytes.as_slice()) {
        Ok(script) => Ok(script),
        Err(ScriptError::OutOfMemory) => Err(End::Memory),
        Err(ScriptError::Fault(fault)) => Err(End::Script(fault)),
    }
}

/// The bytes of a blob.
fn load_blob<L: Library>(alloc: Global, library: &mut L, text: &BlobText) -> Result<Bytes, End>
    ensures table { L.table library.new ≡ L.table library.old }
    ensures failures { AreFailedLoadsTold (L.faults library.old) (L.faults library.new) result }
    ensures ok { IfSome (L.table library.old) (λ files.
        IfOk result (λ made. blob_bytes files text.now ≡ Ok made)) }
    ensures early_end { IfErr result (IsLoadEnd (L.table library.old)
        (failures (L.faults library.old) (L.faults library.new))
        (blob_file_names (text.now ∷ [])) (λ files. blob_bytes files text.now)) }
    ensures loads { OnOk result (AreLoaded L.load_gives (blob_file_names (text.now ∷ []))
        library.old library.new) }
    ensures failed_load { (other : List ℕ) → IsErrOf result (End.Read other)
        → IsFailedLoad L.load_gives (blob_file_names (text.now ∷ [])) other
        library.old library.new }
{
    match text {
        BlobText::File(name) => match load(alloc, library, name.as_str()) {
            Ok(bytes) => match Bytes::from_vec(alloc, bytes) {
                Ok(bytes) => Ok(bytes),
                Err(_) => Err(End::Memory),
            },
            Err(end) => Err(end),
        },
        BlobText::Hex(bytes) => match bytes.copy() {
            Ok(bytes) => Ok(bytes),
            Err(_) => Err(End::Memory),
        },
    }
}

/// The bytes of the blobs of a script, in their order: those of files, and those that stand in the
/// script.
///
/// As `load`, of the first file that is wanting; the files behind are not read.
pub fn load_blobs<L: Library>(
    alloc: Global,
    library: &mut L,
    texts: &[BlobText],
) -> Result<Blobs, End>
    ensures table { L.table library.new ≡ L.table library.old }
    ensures failures { AreFailedLoadsTold (L.faults library.old) (L.faults library.new) result }
    ensures ok { IfSome (L.table library.old) (λ files.
        IfOk result (λ made. blobs_bytes files texts.now ≡ Ok made)) }
    ensures count { IfOk result (λ made. length made ≡ length texts.now) }
    ensures early_end { IfErr result (IsLoadEnd (L.table library.old)
        (failures (L.faults library.old) (L.faults library.new))
        (blob_file_names texts.now) (λ files. blobs_bytes files texts.now)) }
    ensures loads { OnOk result (AreLoaded L.load_gives (blob_file_names texts.now)
        library.old library.new) }
    ensures failed_load { (other : List ℕ) → IsErrOf result (End.Read other)
        → IsFailedLoad L.load_gives (blob_file_names texts.now) other library.old library.new }
{
    let mut blobs = Blobs::new(alloc);
    for text in texts {
        let bytes = match load_blob(alloc, library, text) {
            Ok(bytes) => bytes,
            Err(end) => return Err(end),
        };
        match blobs.push(bytes) {
            Ok(()) => {}
            Err(_) => return Err(End::Memory),
        }
    }
    Ok(blobs)
}
