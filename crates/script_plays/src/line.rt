//! The lines of a list, and the events that they say.

ghost use Rattle.std.specs.Prelude.{IfOk};
ghost use Rattle.script_plays.specs.Line.{GivesLawful};
ghost use Rattle.script_world.specs.World.{IsSound, event_values};

use anyhow::{Result, bail};
use desk_codec::read_feed;
use desk_ops::{Key, Op, Symbol};
use script_answers::{Command, parse};
use script_world::Event;
use std::alloc::Global;

/// What a line says. An event borrows the operations that it gives; here they are the line's own.
#[derive(Drop)]
pub enum Line {
    Site(u16),
    Insert {
        site: u16,
        place: usize,
        symbol: Symbol,
    },
    Delete {
        site: u16,
        place: usize,
    },
    Set {
        site: u16,
        key: Key,
        value: u32,
    },
    Give {
        to: u16,
        ops: Vec<Op>,
    },
    Restart(u16),
}

/// The number of a site. One that no site can have stands as 0, which none has either.
pub fn number_of(site: u32) -> u16 {
    match u16::try_from(site) {
        Ok(number) => number,
        Err(_) => 0,
    }
}

/// The symbol that an event inserts.
fn symbol_of(copy: &[Symbol]) -> Result<Symbol> {
    match copy.first() {
        Some(symbol) if copy.len() == 1 => Ok(*symbol),
        _ => bail!("an event inserts one symbol"),
    }
}

impl Line {
    /// Reads a line of a script whose command is an event; `take` gives the operations of its feed.
    pub fn read(alloc: Global, words: &str) -> Result<Line>
        ensures { IfOk result GivesLawful }
    {
        match parse(alloc, words.as_bytes())? {
            Command::Site(site) => Ok(Line::Site(number_of(site))),
            Command::Insert { site, place, copy } => Ok(Line::Insert {
                site: number_of(site),
                place: place as usize,
                symbol: symbol_of(&copy)?,
            }),
            Command::Delete { site, place } => Ok(Line::Delete {
                site: number_of(site),
                place: place as usize,
            }),
            Command::Set { site, key, value } => Ok(Line::Set {
                site: number_of(site),
                key,
                value,
            }),
            Command::Take { site, feed } => Ok(Line::Give {
                to: number_of(site),
                ops: read_feed(alloc, &feed)?,
            }),
            Command::Restart(site) => Ok(Line::Restart(number_of(site))),
            _ => bail!("the line says no event"),
        }
    }

    /// The event that the line says.
    pub fn event(&self) -> Event<'_>
        requires { GivesLawful self.now }
        ensures { IsSound (event_values result) }
    {
        match self {
            Line::Site(site) => Event::Site(*site),
            Line::Insert {
                site,
                place,
                symbol,
            } => Event::Insert {
                site: *site,
                place: *place,
                symbol: *symbol,
            },
            Line::Delete { site, place } => Event::Delete {
                site: *site,
                place: *place,
            },
            Line::Set { site, key, value } => Event::Set {
                site: *site,
                key: *key,
                value: *value,
            },
            Line::Give { to, ops } => Event::Give { to: *to, ops },
            Line::Restart(site) => Event::Restart(*site),
        }
    }
}
