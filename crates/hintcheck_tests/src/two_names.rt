//! A file that would be written over the one that is read, by another name of it.

use crate::outputs::{ROOM, path_of, printed};
use std::fs;
use std::test::Fail;
use tt_test_fixtures::fonts::{font_of, square};

/// What is told of the second word of these commands.
const FIND: &str = "fault: words: CERT\nnote: the font would be written over\n";

const UPGRADE: &str = "fault: words: NEW\nnote: the old certificate would be written over\n";

/// Whether the command tells by this line that the second file is the first one, and leaves that as
/// it is.
fn is_kept(
    rt: &HostRuntime,
    subcommand: &str,
    (file, name): (&str, &str),
    line: &str,
    bytes: &[u8],
) -> Result<bool, Fail> {
    let words = ["hintcheck", subcommand, file, name];
    let (status, out, err) = printed(rt, &words, ROOM, ROOM);
    let is_told = status == 2 && out.is_empty() && err.as_slice() == line.as_bytes();
    Ok(is_told && fs::read(rt, file)?.as_slice() == bytes)
}

#[test]
fn one_file_by_two_names(rt: HostRuntime) -> Result<(), Fail> {
    let font = path_of(&rt, "twice.ttf").ok_or("a path")?;
    let link = path_of(&rt, "link.ttf").ok_or("a path")?;
    let glyph = square(rt.alloc(), &[])?;
    let bytes = font_of(rt.alloc(), &[], &[], &[&glyph])?;
    fs::write(&rt, font.as_str(), &bytes)?;
    fs::hard_link(&rt, font.as_str(), link.as_str())?;
    // The font's path again, by way of the root's own entry for itself.
    let dotted = format!(in rt.alloc(); "/.{}", font.as_str())?;
    for (subcommand, name, line) in [
        ("find", link.as_str(), FIND),
        ("upgrade", link.as_str(), UPGRADE),
        ("upgrade", font.as_str(), UPGRADE),
        ("find", dotted.as_str(), FIND),
    ] {
        let is_kept = is_kept(&rt, subcommand, (font.as_str(), name), line, &bytes)?;
        assert!(rt; is_kept, "{subcommand} by the name {name}");
    }
    fs::remove_file(&rt, link.as_str())?;
    fs::copy(&rt, font.as_str(), link.as_str())?;
    let find = ["hintcheck", "find", font.as_str(), link.as_str()];
    let (status, out, err) = printed(&rt, &find, ROOM, ROOM);
    assert_eq!(rt; (status, err.len()), (0, 0), "a copy is another file");
    assert!(rt; out.as_slice() == b"accepted: 3 programs\n".as_slice());
    fs::remove_file(&rt, link.as_str())?;
    fs::remove_file(&rt, font.as_str())?;
    Ok(())
}
