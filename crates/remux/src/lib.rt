//! Turns a classic file into fragments, which Media Source Extensions takes.
//!
//! It stands on `sample_tables`, which reads the file, and on `bmff_write`, which writes the fragments. Its main
//! contracts are those of [`ClassicFile`] and [`FragmentedFile`], which make one segment after another, and of
//! [`remux`], which makes all of them: the bytes are those of the definition in `specs/Pieces.antt`, or the error is
//! the first fault of the file.
#![tactic(auto)]

mod classic;
mod error;
mod fragmented;
mod laws;
mod pieces;
mod runs;

pub use classic::{ClassicFile, remux};
pub use error::{RemuxError, RemuxFault};
pub use fragmented::FragmentedFile;
pub use laws::runs_law;
