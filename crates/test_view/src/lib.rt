//! The tests of what is made of a feed or a ribbon: proofs, ribbons, pictures, readings, lists of sorts, and where each
//! is stored.
#![tactic(auto)]

#[cfg(test)]
mod comparing;
#[cfg(test)]
mod holes;
#[cfg(test)]
mod metal;
#[cfg(test)]
mod notes;
#[cfg(test)]
mod outputs;
#[cfg(test)]
mod picture;
#[cfg(test)]
mod preview;
#[cfg(test)]
mod reading;
#[cfg(test)]
mod sorts;
