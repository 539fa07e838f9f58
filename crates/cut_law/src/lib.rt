//! Cutting the bytes of an append anywhere leaves what appending comes to: laws, on the
//! definitions of the machine of `mse_engine` and of the journals of `script_run`.
//!
//! `specs/Plays.antt` says what the play of a script is whose listeners make no calls,
//! `specs/Cuts.antt` when two scripts differ in a cut, `specs/Room.antt` that no buffer is full just
//! before an append, `specs/Outcomes.antt` what appending comes to, and `specs/Files.antt` how a file
//! is appended piece by piece up to the first fault. `specs/Silent.antt` says which journals have no
//! call of a listener, and `specs/FileRooms.antt` when a buffer holds little enough for a file.
//!
//! The laws are the contracts of functions that do nothing: in `laws` those of cuts on the machine,
//! in `play_laws` those of journals, in `line_laws` that of a line that was cut off, in `file_laws`
//! those of a file that is appended to one buffer.
#![tactic(auto)]

pub mod file_laws;
pub mod laws;
pub mod line_laws;
pub mod play_laws;
