//! The feed of most tests, and one that is missing.
use feed_stored::open_replica;
use linked_list_allocator::LocalHeap;
use std::test::Fail;

/// One insert, 1.3 of a Roman x.
pub const X: &[u8] = b"MFD2\x01\0\0\0\0\0\0\0\x01\0\x03\0\0\0\0\0\0\0\0\0\0\0\0\0\0x";

/// The bytes of a heap in which no list of operations has room.
const NONE: usize = 16;

/// A feed that is missing is opened whatever memory there is.
#[test]
fn missing_feed_takes_no_memory(rt: HostRuntime) -> Result<(), Fail> {
    let heap = LocalHeap::new(rt.alloc(), NONE)?;
    let opened = open_replica(&heap, &None, 1);
    assert!(rt; opened.is_ok_and(|it| it.is_empty()));
    Ok(())
}
