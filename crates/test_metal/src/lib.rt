//! The tests of desk_signals, desk_image, desk_units, desk_wedge, desk_case, desk_lines, desk_justify, desk_ribbon,
//! desk_caster, desk_job and view_galley.
#![tactic(auto)]

#[cfg(test)]
mod cases;
#[cfg(test)]
mod every_image;
#[cfg(test)]
mod hostile;
#[cfg(test)]
mod image;
#[cfg(test)]
mod job;
#[cfg(test)]
mod justify;
#[cfg(test)]
mod lines;
#[cfg(test)]
mod ribbon;
#[cfg(test)]
mod rows;
#[cfg(test)]
mod signals;
#[cfg(test)]
mod units;
#[cfg(test)]
mod wedges;
#[cfg(test)]
mod wide;
#[cfg(test)]
mod words;
