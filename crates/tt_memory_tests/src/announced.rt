//! Numbers that a section only announces, for which no memory is reserved.

use std::process::Abort;
use std::test::Fail;
use tt_cert::{CertFault, NEWEST_FORM, decode};
use tt_stream::Bytes;
use tt_test_fixtures::heap::Heap;

/// 16 times this many bytes are left: less than one byte for each of 65,534.
const LEFT: usize = 1_250;

/// A section of glyph 0 with a state at the start, up to the stack's cells.
const STATE: &[u8] = &[2, 0, 0, 0, 0, 0, 0, 0, 1, 0, 0, 0, 0, 0, 0];

/// No cells, and what is known of the graphics state where a program starts: the reference points
/// are 0, the zones 1, the loop number 1.
const START: &[u8] = &[
    0, 0, 1, 0, 0, 0, 0, 1, 0, 0, 0, 0, 1, 0, 0, 0, 0, 1, 1, 1, 1, 0, 0, 0, 1,
];

/// Parts of sections that end too early, and where they end.
const SECTIONS: &[(&[&[u8]], u64)] = &[
    // 65,534 contexts.
    (
        &[
            &[2, 0, 0, 0xFF, 0xFE, 0, 0, 0, 0, 0, 5, 0, 0, 0, 9],
            &[0, 0, 0, 1, 0, 0, 0, 1],
        ],
        23,
    ),
    // 4,294,967,295 states.
    (
        &[
            &[2, 0, 0, 0, 0, 0xFF, 0xFF, 0xFF, 0xFF, 0, 0, 0, 0, 0, 0],
            START,
            &[0; 4],
        ],
        44,
    ),
    // 65,535 cells.
    (&[STATE, &[0xFF, 0xFF, 1, 0, 0, 0, 7, 1, 0, 0, 0, 7]], 27),
    // 65,535 functions.
    (&[STATE, START, &[0xFF, 0xFF, 0, 0, 0, 0, 0, 3]], 48),
    // 65,535 storage cells.
    (&[STATE, START, &[0, 0, 0xFF, 0xFF, 0, 0, 0, 0, 0, 7]], 50),
];

#[test]
fn announced_numbers(rt: HostRuntime) -> Result<(), Fail> {
    let mut heap = Heap::new(rt.alloc());
    heap.leave(Some(LEFT));
    for (parts, end) in SECTIONS {
        let bytes = parts.concat(rt.alloc())?;
        heap.take_room();
        let read = decode(heap.alloc, &mut Bytes::new(&bytes), 0, NEWEST_FORM);
        heap.give_back();
        let is_end = matches!(read, Err(CertFault::Form(place)) if place == *end);
        assert!(rt; is_end, "{parts:?}");
    }
    Ok(())
}
