//! The tests of operations, copies as text, sets, readings, and the lists beneath.
#![tactic(auto)]

#[cfg(test)]
mod beside;
#[cfg(test)]
mod codec;
#[cfg(test)]
mod held;
#[cfg(test)]
mod ops;
#[cfg(test)]
mod pieces;
#[cfg(test)]
mod read_runs;
#[cfg(test)]
mod registers;
#[cfg(test)]
mod runs;
#[cfg(test)]
mod sequence;
#[cfg(test)]
mod text;
