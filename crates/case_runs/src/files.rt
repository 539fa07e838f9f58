//! The files of a folder in memory.

ghost use Rattle.std.specs.Prelude.{◌≡◌, Some, None, IfOk, OnErr, option_map};
ghost use Rattle.std.specs.Str.{IsUtf8};
ghost use Rattle.mse_outside.specs.Memory.{table_of};
ghost use Rattle.case_runs.specs.Given.{files_in};

use anyhow::{Result, anyhow};
use std::fs;

/// A file by its path in the folder.
#[derive(Drop)]
pub struct CaseFile {
    pub name: String,
    pub bytes: Vec<u8>,
}

/// Reads the files of a folder, and notes the folders in it.
fn read_folder(
    rt: &HostRuntime,
    folder: &str,
    files: &mut Vec<CaseFile>,
    folders: &mut Vec<String>,
) -> Result<()> {
    let alloc = rt.alloc();
    for entry in fs::read_dir(rt, folder)? {
        let entry = entry?;
        let name = entry.file_name();
        let path = if folder == "." {
            String::from_str(alloc, name)?
        } else {
            format!(in alloc; "{folder}/{name}")?
        };
        if entry.file_type()?.is_dir() {
            folders.push(path)?;
        } else {
            let bytes = fs::read(rt, path.as_str())?;
            files.push(CaseFile { name: path, bytes })?;
        }
    }
    Ok(())
}

/// The files of the current folder and of the folders in it.
pub fn read_files(rt: &HostRuntime) -> Result<Vec<CaseFile>> {
    let alloc = rt.alloc();
    let mut files = Vec::new(alloc);
    let mut folders = Vec::new(alloc);
    folders.push(String::from_str(alloc, ".")?)?;
    for _ in 0..u64::MAX {
        let Some(folder) = folders.pop() else {
            break;
        };
        read_folder(rt, folder.as_str(), &mut files, &mut folders)?;
    }
    Ok(files)
}

/// The bytes of the first file of this name, if there is one.
pub fn find_bytes<'a>(files: &'a [CaseFile], name: &str) -> Option<&'a [u8]>
    ensures { option_map (λ bytes. bytes.now) result ≡ table_of (files_in files.now) name.now }
{
    for file in files {
        if file.name.as_str() == name {
            return Some(file.bytes.as_slice());
        }
    }
    None
}

/// The bytes of the first file of this name.
pub fn bytes_of<'a>(files: &'a [CaseFile], name: &str) -> Result<&'a [u8]>
    ensures bytes { IfOk result (λ bytes.
        table_of (files_in files.now) name.now ≡ Some bytes.now) }
    ensures no_file { OnErr result (table_of (files_in files.now) name.now ≡ None) }
{
    match find_bytes(files, name) {
        Some(bytes) => Ok(bytes),
        None => Err(anyhow!("no file {name}")),
    }
}

/// The text that these bytes are.
pub fn text_of(bytes: &[u8]) -> Result<&str>
    ensures text { IfOk result (λ text. text.now ≡ bytes.now) }
    ensures no_text { OnErr result (¬ (IsUtf8 bytes.now)) }
{
    match str::from_utf8(bytes) {
        Ok(text) => Ok(text),
        Err(_) => Err(anyhow!("a list, a script or a table is no text")),
    }
}
