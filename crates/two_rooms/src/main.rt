//! The desk as a library: two rooms correct one copy, apart, and then both have the same copy and the same ribbon.
//!
//! docs/GUIDE.md shows this code. The gate runs it with the case and the wedge of `data`.
#![tactic(auto)]

use anyhow::{Result, ensure};
use desk_blocks::Blocks;
use desk_case::MatrixCase;
use desk_job::{JobRefusal, make};
use desk_ops::Key;
use desk_replica::Replica;
use desk_wedge::Wedge;
use std::alloc::Global;
use std::fs;
use text_copy::{read_text, write_text};

/// A site and the operations that it holds.
type Room = Replica<Blocks<Global>>;

/// Inserts a text at a place of the copy; `_.._` is italic.
fn key(alloc: Global, room: &mut Room, place: usize, text: &str) -> Result<()> {
    let mut at = place;
    for symbol in read_text(alloc, text.as_bytes(), false)?.iter() {
        room.insert_at(at, *symbol)?;
        at = at.saturating_add(1);
    }
    Ok(())
}

/// The settings of the job: the measure in points, the least and the greatest wedge sum, and the numbers of the metal.
fn set_up(room: &mut Room) -> Result<()> {
    room.set(Key::Measure, 150)?;
    room.set(Key::Tight, 40)?;
    room.set(Key::Loose, 240)?;
    room.set(Key::Case, 12)?;
    room.set(Key::Wedge, 5)?;
    Ok(())
}

/// Writes the copy, its faults, and how long its ribbon is, or why it has none.
fn report(rt: &HostRuntime, room: &Room, case: &MatrixCase, wedge: &Wedge) -> Result<()> {
    let alloc = rt.alloc();
    let text = String::from_utf8(write_text(alloc, &room.copy()?)?)?;
    println!(rt; "{text}")?;
    for fault in room.copy_faults()?.iter() {
        println!(rt; "not shown: {fault}")?;
    }
    match make(alloc, room, case, wedge) {
        Ok(ribbon) => println!(rt; "a ribbon of {} bytes", ribbon.len())?,
        Err(JobRefusal::Faults(faults)) => {
            for fault in faults.as_slice() {
                println!(rt; "no ribbon: {fault}")?;
            }
        }
        Err(JobRefusal::NoMemory) => println!(rt; "no ribbon: no memory")?,
    }
    Ok(())
}

fn main(rt: HostRuntime) -> Result<()> {
    let alloc = rt.alloc();
    let case = MatrixCase::read(alloc, &fs::read(&rt, "case12.toml")?)?;
    let wedge = Wedge::read(alloc, &fs::read(&rt, "wedge5.toml")?)?;

    // Room 1 keys the copy, and room 2 takes it.
    let mut one = Room::new(alloc, 1);
    set_up(&mut one)?;
    key(alloc, &mut one, 0, "Send word by noon to the room.")?;
    let mut two = Room::new(alloc, 2);
    two.merge(&one)?;

    // Apart: room 1 puts two words in, room 2 takes two out.
    key(alloc, &mut one, 5, "_a short_ ")?;
    for _ in 0..8 {
        two.delete_at(9)?;
    }

    // Together again, in whatever order.
    one.merge(&two)?;
    two.merge(&one)?;
    ensure!(
        one.write_feed()? == two.write_feed()?,
        "two rooms with the same corrections have one feed"
    );
    report(&rt, &one, &case, &wedge)?;
    report(&rt, &two, &case, &wedge)
}
