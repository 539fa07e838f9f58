//! A media element without a decoder (HTML, media elements): its level, its position, seeking, play
//! and pause, the passing of time, and the end of playback. Each call is one function of the
//! element's state and of the scene round it, which gives the events at the element in order and
//! the state that is left.
//!
//! It stands on `element_ready`, `mse_calls` and `mse_base`. Its main contract is that of
//! [`Player`]: each call tells and leaves what its function of `specs/` says. [`Player::settle`] is
//! the end of each step; made twice it is made once (`laws::settled_once`). Nothing here takes
//! memory.
#![tactic(auto)]

pub mod laws;
mod player;
mod player_answer;
mod scene;

pub use player::Player;
pub use player_answer::PlayerAnswer;
pub use scene::Scene;
