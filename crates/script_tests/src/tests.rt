//! Blobs, printed lines, scripts of calls, and the journal.

mod blobs;
mod journal;
mod printed_calls;
mod printed_lines;
mod rows;
mod scripts;
