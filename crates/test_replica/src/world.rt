//! The tests of script_world.
mod events;
mod growths;
mod plays;
mod random;
mod words;
