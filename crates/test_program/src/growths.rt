//! A run that finds no memory in its midst. Each growth of whole scripts is refused in turn over the built program, by
//! `tests/growths.py`.

use crate::running::{ran, same};
use feed_files::NoFiles;
use linked_list_allocator::LocalHeap;
use std::alloc::Global;
use std::io::{self, Read};
use std::test::Fail;

const HEAP: usize = 1_048_576;

/// Gives three parts, one in each call. While the second is answered all that a heap has left is taken.
#[derive(Drop)]
struct Pinch<'a, 'h> {
    parts: [&'a [u8]; 3],
    calls: usize,
    heap: &'h LocalHeap,
    taken: Vec<Vec<u8, &'h LocalHeap>>,
}

impl<'a, 'h> Pinch<'a, 'h> {
    /// Takes all that the heap has left.
    fn take_all(&mut self) {
        for power in 0..20u32 {
            for _ in 0..4u32 {
                let Ok(part) = Vec::with_capacity(self.heap, 524_288usize >> power) else {
                    break;
                };
                let _ = self.taken.push(part);
            }
        }
    }
}

impl<'a, 'h> Read for Pinch<'a, 'h> {
    fn read(&mut self, buf: &mut [u8]) -> io::Result<usize> {
        let call = self.calls;
        if call >= 3 {
            return Ok(0);
        }
        self.calls = call + 1;
        self.taken.clear();
        if call == 1 {
            self.take_all();
        }
        let part = self.parts[call];
        let n = part.len().min(buf.len());
        buf[..n].copy_from_slice(&part[..n]);
        Ok(n)
    }
}

/// The line that is no command is longer than each one later, so that these are kept with no more memory.
const BEFORE: &[u8] =
    b"site 1\nsite 2\ninsert 1 0 r\"ab\"\nxxxxxxxxxxxxxxxxxxxxxxxxxxxxxxxxxxxxxxxxxxxxxxxxxxxxxxxxxxxxxxxx\n";

const BEFORE_ANSWERS: &[u8] = b"ok\nok\nok 1.1..2.1\nrefused command\n";

/// What needs memory is refused for that, and what needs none is done, or refused for its own cause: a site, a value
/// and the place of a delete come before memory. The text of an insert takes memory before its place is looked at.
const PINCHED: &[u8] =
    b"insert 1 0 r\"xy\"\nshow 1\nfaults 1\nsettings 1\nfeed 1\nsend 1 2\nmerge 2 1\nrestart 1\ntake 2 4d464431\nshow 3\nsend 1 3\njump\nset 1 measure 11\ndelete 1 9\ndelete 1 0\n";

const PINCHED_ANSWERS: &[u8] =
    b"refused memory\nrefused memory\nrefused memory\nrefused memory\nrefused memory\nrefused memory\nrefused memory\nrefused memory\nrefused memory\nrefused site\nrefused site\nrefused command\nrefused value\nrefused place\nok 3.1\n";

const AFTER: &[u8] =
    b"show 1\nshow 2\ninsert 1 0 r\"xy\"\nshow 1\nrestart 1\nsend 1 2\nmerge 2 1\nshow 2\n";

const AFTER_ANSWERS: &[u8] =
    b"copy r\"b\"\ncopy\nok 4.1..5.1\ncopy r\"xyb\"\nok\nok new 5 known 0\nok new 0 known 5\ncopy r\"xyb\"\n";

/// While there is no memory each command that needs it is refused and changes nothing, and with memory it is done.
#[test]
fn refused_memory(rt: HostRuntime) -> Result<(), Fail> {
    let alloc: Global = rt.alloc();
    let heap = LocalHeap::new(alloc, HEAP)?;
    let mut reader = Pinch {
        parts: [BEFORE, PINCHED, AFTER],
        calls: 0,
        heap: &heap,
        taken: Vec::new(alloc),
    };
    let mut written = Vec::new(alloc);
    let result = ran(&heap, alloc, &mut reader, &mut written, &mut NoFiles);
    assert!(rt; result.is_ok());
    let before = BEFORE_ANSWERS.len().saturating_add(PINCHED_ANSWERS.len());
    same(
        &written[..BEFORE_ANSWERS.len().min(written.len())],
        BEFORE_ANSWERS,
        0,
    )?;
    same(
        &written[BEFORE_ANSWERS.len().min(written.len())..before.min(written.len())],
        PINCHED_ANSWERS,
        1,
    )?;
    same(&written[before.min(written.len())..], AFTER_ANSWERS, 2)
}
