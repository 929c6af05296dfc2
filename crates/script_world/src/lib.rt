//! A world of at most 16 sites, each with a replica, and the events that change it.
//!
//! `step` lets one event happen, `play` a list of them, and `bring` takes operations from outside the world. A new
//! world is honest, and its events keep it so (`specs/Honest.antt`): over all its sites no stamp is forked, and no
//! target is missing.
//!
//! A refused event changes nothing, but a gift that stops leaves its first operations.
#![tactic(auto)]

pub mod laws;
mod world;

pub use world::{Answer, Event, MAX_SITES, StepRefusal, World};
