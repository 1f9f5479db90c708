//! What the command prints, on two writers in memory, and the files that it is asked for.

use hintcheck::command;
use std::path::PathBuf;
use std::rt::Files;
use std::{env, process};
use tt_stream::Counted;
use tt_test_fixtures::streams::Taker;

/// More bytes than are printed.
pub(crate) const ROOM: usize = 10_000;

/// Returns the exit status at these words, and what writers with room for this many bytes have
/// taken.
pub(crate) fn printed<R: Files + AllocGlobal>(
    rt: &R,
    words: &[&str],
    out_room: usize,
    err_room: usize,
) -> (u8, Vec<u8>, Vec<u8>) {
    let mut out = Counted::new(Taker::new(rt.alloc(), 1, out_room));
    let mut err = Counted::new(Taker::new(rt.alloc(), 1, err_room));
    let status = command(rt, words, &mut out, &mut err);
    (status, out.into_inner().bytes, err.into_inner().bytes)
}

/// Returns the path of a temporary file with this ending, which no other process takes; nothing
/// where memory ran out, or there is no folder for it.
pub(crate) fn path_of(rt: &HostRuntime, ending: &str) -> Option<PathBuf> {
    let process = process::id(rt.process());
    let name = format!(in rt.alloc(); "hintcheck-{process}.{ending}").ok()?;
    env::temp_dir(rt).ok()?.join(rt.alloc(), name).ok()
}
