//! The tests of desk_replica, with it of desk_walk, and of script_world.
#![tactic(auto)]

pub mod asked;
#[cfg(test)]
mod calls;
#[cfg(test)]
mod cases;
#[cfg(test)]
mod full;
#[cfg(test)]
mod growths;
#[cfg(test)]
mod kept;
#[cfg(test)]
mod listed;
#[cfg(test)]
mod lists;
#[cfg(test)]
mod long;
#[cfg(test)]
mod orders;
#[cfg(test)]
mod runs;
#[cfg(test)]
mod words;
#[cfg(test)]
mod worked;
#[cfg(test)]
mod world;
