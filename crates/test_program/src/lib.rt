//! The tests of desk_script, program_desk and what they are made of.
#![tactic(auto)]

#[cfg(test)]
mod documents;
#[cfg(test)]
mod feeds;
#[cfg(test)]
mod growths;
#[cfg(test)]
mod host;
#[cfg(test)]
mod jobs;
#[cfg(test)]
mod older;
#[cfg(test)]
mod program;
#[cfg(test)]
mod room;
#[cfg(test)]
mod running;
#[cfg(test)]
mod scripts;
#[cfg(test)]
mod views;
#[cfg(test)]
mod words;
#[cfg(test)]
mod worked;
