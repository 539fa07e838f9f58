//! A module for each crate that is tested.

mod adts;
mod boxes;
mod containers;
mod fragments;
mod given;
mod rows;
mod segments;
mod writers;
