//! The outside as the program sees it: a library of files to load, and a sink that takes bytes.
//!
//! It stands on std alone. Two traits say what the rest of the program may rely on. A `Library` may tell the bytes of
//! each of its files, and a `Sink` the bytes that it was given so far. Each counts its failures, and this count never
//! falls. The main contracts are those of `Library::load` and `Sink::put`: a load that is done appends just the bytes of
//! the file, any other load leaves the buffer as it was, a put that is done appends just its bytes, any other a front
//! part of them, and a failure is answered only where the count rose.
//!
//! Each trait has three implementations: one in memory that fails at chosen calls, one in memory that never fails, and
//! the real one (`FolderLibrary`, `StdoutSink`). The real ones stand on traits of their own, of single calls: a
//! `FileSource` opens a file, an `OpenFile` is read, an `Output` takes some bytes and is flushed. Where these tell their
//! bytes, it is proved which file is opened and that all bytes are handed on. The system's own tell nothing (`SystemFiles`,
//! `SystemFile`, `SystemOutput`).
#![tactic(auto)]

mod folder;
mod library;
mod memory_library;
mod memory_sink;
mod output;
mod sink;
mod source;
mod stdout;
mod system;

pub use folder::FolderLibrary;
pub use library::{Library, Loaded};
pub use memory_library::{MemoryLibrary, SureLibrary};
pub use memory_sink::{MemorySink, SureSink};
pub use output::Output;
pub use sink::{Put, Sink};
pub use source::{FileSource, OpenFile};
pub use stdout::StdoutSink;
pub use system::{SystemFile, SystemFiles, SystemOutput};

#[cfg(test)]
mod tests;
