//! The level of a media element, its position, the element with its queue, and the queue alone.

mod element;
mod levels;
mod queue;
mod scenes;
mod seeks;
