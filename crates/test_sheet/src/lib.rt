//! The tests of feed_edit, feed_sites, feed_history and desk_script.
#![tactic(auto)]

#[cfg(test)]
mod log;
#[cfg(test)]
mod older;
#[cfg(test)]
mod renewing;
#[cfg(test)]
mod renumbering;
#[cfg(test)]
mod replace;
#[cfg(test)]
mod rooms;
#[cfg(test)]
mod sheet;
