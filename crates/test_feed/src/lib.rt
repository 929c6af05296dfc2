//! The tests of feed_sites, feed_check and feed_edit.
#![tactic(auto)]

#[cfg(test)]
mod check;
#[cfg(test)]
mod difference;
#[cfg(test)]
mod hand;
#[cfg(test)]
mod readings;
