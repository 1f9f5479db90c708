//! The program: its words and its own streams, handed to the command, whose answer is the exit
//! status.
#![tactic(auto)]

ghost use Rattle.std.specs.Prelude.{◌≡◌, ◌⊎◌, IfErr, IfOk, map};
ghost use Rattle.std.specs.Process.{exit_status};
ghost use Rattle.std.specs.Vec.Iter.{into_iter_items};
ghost use Rattle.hintcheck_cli.specs.Statuses.{IsStatusAt, IsStatusOrClosed, IsStatusUnread, texts_of};

mod streams;

use hintcheck::command;
use std::alloc::{AllocError, Global};
use std::cell::Cell;
use std::env::{self, Args};
use std::io;
use std::io::ErrorKind;
use std::process::ExitCode;
use streams::{Noting, Quiet};
use tt_stream::Counted;

/// The exit status where a word isn't text, the same as where the command doesn't take the words.
const WORDS: u8 = 2;

/// The exit status where memory ran out.
const OUT_OF_MEMORY: u8 = 3;

/// The exit status where nobody reads the output any more: that of a program which a closed pipe
/// ends, as shells tell it.
const CLOSED: u8 = 141;

/// Returns all of the words.
///
/// # Errors
/// If memory runs out.
fn all_of(alloc: Global, words: Args) -> Result<Vec<String>, AllocError>
    ensures { IfOk result (λ all. all.items ≡ into_iter_items words) }
{
    words.collect(alloc)
}

/// Returns the words' texts.
///
/// # Errors
/// If memory runs out.
fn as_texts(alloc: Global, words: &[String]) -> Result<Vec<&str>, AllocError>
    ensures { IfOk result (λ texts. map (λ t. t.now) texts.items ≡ texts_of words.now) }
{
    words.iter().map(|word| word.as_str()).collect(alloc)
}

/// Returns the exit status that the process tells, by whether nobody reads the output any more.
fn told_status(status: u8, is_closed: bool) -> u8
    ensures { result ≡ status ⊎ (result ≡ 141 × status ≡ 2) }
{
    if status == WORDS && is_closed {
        CLOSED
    } else {
        status
    }
}

/// Runs the command at these words on the program's own streams, and returns the exit status. Where it
/// can't write since nobody reads the output any more, it says nothing.
///
/// # Errors
/// If memory runs out for the words.
fn run(rt: &HostRuntime, words: Args) -> Result<u8, AllocError>
    ensures { IfOk result (IsStatusOrClosed (texts_of (into_iter_items words))) }
{
    let words = all_of(rt.alloc(), words)?;
    let texts = as_texts(rt.alloc(), &words)?;
    let is_closed = Cell::new(false);
    let mut out = Counted::new(Noting {
        inner: rt.stdout(),
        is_closed: &is_closed,
    });
    let mut err = Counted::new(Quiet {
        inner: rt.stderr(),
        is_closed: &is_closed,
    });
    let status = command(rt, &texts, &mut out, &mut err);
    Ok(told_status(status, is_closed.get()))
}

/// Reports that memory ran out for the words, and returns the exit status.
fn tell_no_memory(rt: &HostRuntime) -> u8
    ensures { result ≡ 3 }
{
    let _ = eprintln!(rt; "fault: 9 out of memory");
    OUT_OF_MEMORY
}

/// Does what the words ask for, on the program's own streams, and returns what the process ends
/// with. The first word is the program's own name. No contract of the runtime tells that the words
/// that it gives are those that the process was started with.
pub fn program(rt: &HostRuntime, words: io::Result<Args>) -> ExitCode
    // The status is the one that the command returns for these words, or 141 in the place of its 2,
    // or 3 without memory for them.
    ensures words { IfOk words
        (λ args. IsStatusAt (texts_of (into_iter_items args)) (exit_status result)) }
    // Where they can't be read it is 2 or 3.
    ensures unread { IfErr words (λ _. IsStatusUnread (exit_status result)) }
{
    let words = match words {
        Ok(words) => words,
        Err(error) if error.kind() == ErrorKind::OutOfMemory => {
            return ExitCode::from(tell_no_memory(rt));
        }
        Err(_) => {
            let _ = eprintln!(rt; "fault: words");
            return ExitCode::from(WORDS);
        }
    };
    match run(rt, words) {
        Ok(status) => ExitCode::from(status),
        Err(AllocError) => ExitCode::from(tell_no_memory(rt)),
    }
}

fn main(rt: HostRuntime) -> ExitCode {
    program(&rt, env::args(&rt))
}
