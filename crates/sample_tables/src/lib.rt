//! The samples of a classic file: one movie box whose tables say where each sample stands in the file and when it
//! is decoded (ISO/IEC 14496-12, 8.5 to 8.7).
//!
//! It stands on `mse_base`, `bmff_boxes` and `bmff_init`; numbers of the tables are read by `byteorder`. Its main
//! contract is that of [`read_file`]: the tracks of `specs/Movies.antt` with their samples, or the first fault in
//! the order of reading. A table is the list of its entries, and what it tells of the samples is a list with an
//! element for each of them: durations, composition offsets, sync marks, sizes, and places by the chunks.
#![tactic(auto)]

mod box_place;
mod columns;
mod entries;
mod fault;
mod laws;
mod media_track;
mod movie;
mod numbers;
mod reading;
mod rules;
mod sample;
mod tables;
mod totals;
mod track_tables;

pub use box_place::BoxPlace;
pub use columns::SampleColumns;
pub use entries::{ChunkRun, DurationRun, OffsetRun, SampleSizes};
pub use fault::{FileError, MovieError, MovieFault, PlacedFault};
pub use laws::box_places_law;
pub use media_track::MediaTrack;
pub use movie::read_file;
pub use sample::Sample;
pub use tables::SampleTables;
pub use totals::Totals;
pub use track_tables::TrackTables;
