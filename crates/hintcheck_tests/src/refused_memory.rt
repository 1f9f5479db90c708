//! Growths of memory that are refused to commands, which tell of it in one line of the error
//! output, or `scan` in one of the output, and counts it. Printing takes no memory: nothing is left
//! then.

use crate::outputs::{ROOM, path_of, printed};
use hintcheck::{command, find_font};
use std::alloc::{AllocError, Global};
use std::fs;
use std::path::PathBuf;
use std::test::Fail;
use tt_stream::Counted;
use tt_test_fixtures::fonts::{MAXP_WORD, NoFile, font_of, square};
use tt_test_fixtures::heap::Heap;
use tt_test_fixtures::programs::POPPING;
use tt_test_fixtures::trials::{Told, Trial, assert_refused};

/// What `scan` counts where the font file is accepted.
const ONE_ACCEPTED: &[u8] = b"1 font: 1 accepted, 0 refused, 0 without an answer\n";

/// What `scan` counts where memory ran out at the font file.
const ONE_UNREAD: &[u8] = b"1 font: 0 accepted, 0 refused, 1 without an answer\n";

/// A command that is tried.
#[derive(Drop)]
struct Order<'a> {
    rt: &'a HostRuntime,
    words: Vec<&'a str>,
    /// What it prints with ample memory.
    whole: Vec<u8>,
    /// What `scan` prints where memory ran out.
    fault: String,
    /// Whether it is a `scan` that tells on the error output how many fonts there were.
    is_counting: bool,
}

impl Order<'_> {
    /// Whether the error output is this line of counts, if the command prints one, and otherwise
    /// empty.
    fn is_counted(&self, err: &[u8], counts: &[u8]) -> bool {
        if self.is_counting {
            err == counts
        } else {
            err.is_empty()
        }
    }

    /// Returns what a status tells, and what was printed with it: only explanations are begun
    /// before memory runs out.
    fn told_by(&self, status: u8, out: &[u8], err: &[u8]) -> Told {
        let is_explanation = self.words.get(1) == Some(&"explain");
        let is_begun = is_explanation && self.whole.starts_with(out);
        match (status, err) {
            (0 | 1, _) if out == self.whole.as_slice() && self.is_counted(err, ONE_ACCEPTED) => {
                Told::Done
            }
            (3, b"fault: 9 out of memory\n") if out.is_empty() || is_begun => Told::OutOfMemory,
            (3, _) if out == self.fault.as_bytes() && self.is_counted(err, ONE_UNREAD) => {
                Told::OutOfMemory
            }
            _ => Told::Wrong,
        }
    }
}

impl Trial for Order<'_> {
    fn told(&self, heap: &mut Heap) -> Told {
        let (Ok(out), Ok(err)) = (
            Vec::with_capacity(heap.alloc, ROOM),
            Vec::with_capacity(heap.alloc, ROOM),
        ) else {
            return Told::Wrong;
        };
        let (mut out, mut err) = (Counted::new(out), Counted::new(err));
        heap.take_room();
        let status = command(self.rt, &self.words, &mut out, &mut err);
        heap.give_back();
        self.told_by(status, &out.into_inner(), &err.into_inner())
    }
}

/// Returns a font of a glyph with this program, which may call function 0: that takes a number.
fn font_with(alloc: Global, program: &[u8]) -> Result<Vec<u8>, NoFile> {
    font_of(alloc, &POPPING, &[], &[&square(alloc, program)?])
}

/// Writes a font file, its certificate, and a font file with a refused program: returns their names,
/// and that of a new file.
fn write_files(rt: &HostRuntime) -> Result<[PathBuf; 4], Fail> {
    let paths = [
        path_of(rt, "ttf").ok_or("a path")?,
        path_of(rt, "cert").ok_or("a path")?,
        path_of(rt, "bad.ttf").ok_or("a path")?,
        path_of(rt, "new").ok_or("a path")?,
    ];
    let font = font_with(rt.alloc(), &[0xB1, 0x07, 0x00, 0x2B])?;
    let bad = font_with(rt.alloc(), &[0xB0, 0x00, 0x2B])?;
    let mut certificate = Counted::new(Vec::new(rt.alloc()));
    find_font(rt.alloc(), &font, &mut certificate)?;
    fs::write(rt, paths[0].as_str(), &font)?;
    fs::write(rt, paths[1].as_str(), &certificate.into_inner())?;
    fs::write(rt, paths[2].as_str(), &bad)?;
    Ok(paths)
}

/// Returns what `scan` prints of a file where memory ran out.
fn fault_of(alloc: Global, file: &str, is_json: bool) -> Result<String, AllocError> {
    if !is_json {
        return format!(in alloc; "{file}: fault: 9 out of memory\n");
    }
    let tool = "\"tool\":{\"name\":\"hintcheck\",\"version\":\"0.9.0\"}";
    let fault = "\"status\":3,\"fault\":{\"number\":9,\"text\":\"out of memory\"}";
    format!(in alloc; "{{\"version\":1,{tool},\"file\":\"{file}\",\"profile\":\"both\",{fault}}}\n")
}

/// Returns the name of the file that a word stands for, if it stands for one, or else the word.
fn name_of<'a>(word: &'a str, paths: &'a [PathBuf; 4]) -> &'a str {
    match word {
        "FONT" => paths[0].as_str(),
        "CERT" => paths[1].as_str(),
        "BAD" => paths[2].as_str(),
        "NEW" => paths[3].as_str(),
        word => word,
    }
}

/// Returns the words of a command, with names of files.
fn named<'a>(
    alloc: Global,
    command: &[&'a str],
    paths: &'a [PathBuf; 4],
) -> Result<Vec<&'a str>, AllocError> {
    let mut words = vec![in alloc; "hintcheck"]?;
    for word in command {
        words.push(name_of(word, paths))?;
    }
    Ok(words)
}

/// Asserts that a command is refused memory, and tells so. FONT, CERT, BAD and NEW stand for files.
fn assert_command_refused<'a>(
    rt: &'a HostRuntime,
    command: &[&'a str],
    paths: &'a [PathBuf; 4],
) -> Result<(), Fail> {
    let words = named(rt.alloc(), command, paths)?;
    let (_, whole, _) = printed(rt, &words, ROOM, ROOM);
    let is_json = command.contains(&"--json");
    let name = command.first().copied().unwrap_or("no words");
    let order = Order {
        rt,
        words,
        whole,
        fault: fault_of(rt.alloc(), paths[0].as_str(), is_json)?,
        is_counting: name == "scan" && !is_json,
    };
    assert_refused(rt, &mut Heap::new(rt.alloc()), name, &order)
}

/// Asserts that these commands are refused memory.
fn assert_commands_refused(rt: &HostRuntime, commands: &[&[&str]]) -> Result<(), Fail> {
    let paths = write_files(rt)?;
    for command in commands {
        assert_command_refused(rt, command, &paths)?;
    }
    for path in &paths {
        if fs::exists(rt, path.as_str())? {
            fs::remove_file(rt, path.as_str())?;
        }
    }
    Ok(())
}

#[test]
fn commands_that_read_files(rt: HostRuntime) -> Result<(), Fail> {
    let commands: [&[&str]; 4] = [
        &["verdict", "FONT"],
        &["verdict", "--symbolic", "FONT"],
        &["check", "FONT", "CERT"],
        &["list", "FONT", "g0"],
    ];
    assert_commands_refused(&rt, &commands)
}

#[test]
fn certificate_to_a_file(rt: HostRuntime) -> Result<(), Fail> {
    assert_commands_refused(&rt, &[&["find", "FONT", "NEW"]])
}

#[test]
fn upgrade_to_a_file(rt: HostRuntime) -> Result<(), Fail> {
    assert_commands_refused(&rt, &[&["upgrade", "CERT", "NEW"]])
}

#[test]
fn command_without_files(rt: HostRuntime) -> Result<(), Fail> {
    let words = ["bare", MAXP_WORD, "10", "4", "1", "B100093E"];
    assert_commands_refused(&rt, &[&words])
}

#[test]
fn scan_of_a_file(rt: HostRuntime) -> Result<(), Fail> {
    assert_commands_refused(&rt, &[&["scan", "FONT"]])
}

#[test]
fn scan_of_a_file_as_json(rt: HostRuntime) -> Result<(), Fail> {
    assert_commands_refused(&rt, &[&["scan", "--json", "FONT"]])
}

#[test]
fn explanations_of_files(rt: HostRuntime) -> Result<(), Fail> {
    let commands: [&[&str]; 6] = [
        &["explain", "FONT", "g0"],
        &["explain", "FONT", "g0", "3"],
        &["explain", "BAD", "g0"],
        &["explain", "BAD", "g0", "0"],
        &["explain", "--symbolic", "FONT", "g0"],
        &["explain", "--symbolic", "BAD", "g0"],
    ];
    assert_commands_refused(&rt, &commands)
}
