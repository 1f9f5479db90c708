//! Outputs of the command that can't be written.

use crate::outputs::{ROOM, path_of, printed};
use std::fs;
use std::rt::Files;
use std::test::Fail;
use tt_test_fixtures::fonts::{MAXP_WORD, font_of, square};

/// Whether a write that fails after this many bytes is told on the error output, if there is room,
/// and by the status; `whole` is what is printed where no write fails.
fn tells_failed_write<R: Files + AllocGlobal>(
    rt: &R,
    words: &[&str],
    whole: &[u8],
    room: usize,
) -> bool {
    let (status, out, err) = printed(rt, words, room, ROOM);
    let (mute, _, cut) = printed(rt, words, room, room);
    status == 2
        && out.len() == room
        && whole.starts_with(&out)
        && err.as_slice() == b"fault: 45 write\n".as_slice()
        && mute == 2
        && cut.len() == room.min(16)
}

/// Whether that is so after each number of bytes.
fn tells_failed_writes_of<R: Files + AllocGlobal>(rt: &R, words: &[&str]) -> bool {
    let (status, whole, err) = printed(rt, words, ROOM, 0);
    for room in 0..whole.len() {
        if !tells_failed_write(rt, words, &whole, room) {
            return false;
        }
    }
    status < 2 && err.is_empty()
}

/// Commands that print without a file.
const WITHOUT_FILES: &[&[&str]] = &[
    &["hintcheck", "bare", MAXP_WORD, "10", "4", "1"],
    &["hintcheck", "--help"],
];

#[test]
fn tells_failed_writes(rt: HostRuntime) {
    for words in WITHOUT_FILES {
        assert!(rt; tells_failed_writes_of(&rt, words), "{words:?}");
    }
}

/// Whether that is so of the list of a program.
fn tells_failed_writes_of_list<R: Files + AllocGlobal>(rt: &R, font: &str, program: &str) -> bool {
    tells_failed_writes_of(rt, &["hintcheck", "list", font, program])
}

/// A list of 34 bytes, and a refusal of as many.
#[test]
fn tells_failed_writes_of_a_list(rt: HostRuntime) -> Result<(), Fail> {
    let listed = square(rt.alloc(), &[0xB1, 0, 9, 0x3E])?;
    let refused = square(rt.alloc(), &[0x40, 3, 1, 2])?;
    let font = font_of(rt.alloc(), &[], &[], &[&listed, &refused])?;
    let path = path_of(&rt, "list.ttf").ok_or("a path")?;
    fs::write(&rt, path.as_str(), &font)?;
    assert!(rt; tells_failed_writes_of_list(&rt, path.as_str(), "g0"));
    assert!(rt; tells_failed_writes_of_list(&rt, path.as_str(), "g1"));
    fs::remove_file(&rt, path.as_str())?;
    Ok(())
}
