//! Calls that are left more and more memory, until they have enough.

use crate::heap::Heap;
use std::fmt::Display;
use std::io::Print;
use std::test::Fail;
use tt_stream::{Counted, Sink};

/// How many trials are made at most. In the last one a call is left 1,100,000 bytes: commands have
/// buffers of 256 KB to read and of 512 KB to write.
const TRIALS: usize = 68_751;

/// What a call tells.
#[derive(Clone, Copy, Debug, PartialEq, Eq)]
pub enum Told {
    /// What it has to with ample memory.
    Done,
    /// Memory ran out, and what is promised then is kept.
    OutOfMemory,
    /// Another answer, or something isn't as promised.
    Wrong,
}

/// A call that is tried.
pub trait Trial {
    /// Makes the call, for which the room of the heap is taken, and returns what it tells.
    fn told(&self, heap: &mut Heap) -> Told;
}

/// Returns what an answer tells: a fault says in its text whether memory ran out.
pub fn told_of<T: Drop, E: Display + Drop>(answer: Result<T, E>) -> Told {
    let Err(fault) = answer else {
        return Told::Done;
    };
    let mut text = [0u8; 32];
    let mut sink = Counted::new(text.as_mut_slice());
    if write!(sink, "{fault}").is_err() {
        return Told::Wrong;
    }
    drop(sink);
    if text.starts_with(b"out of memory\0") || text.starts_with(b"memory allocation failed\0") {
        Told::OutOfMemory
    } else {
        Told::Wrong
    }
}

/// Returns how often a call tells that memory ran out before it is left enough to tell what it has
/// to; nothing where it tells anything else, or doesn't tell that a growth was refused.
fn refusals<T: Trial>(heap: &mut Heap, trial: &T) -> Option<usize> {
    for number in 0..TRIALS {
        heap.leave(Some(number));
        match trial.told(heap) {
            Told::OutOfMemory => {}
            Told::Done if !heap.has_refused() => return Some(number),
            _ => return None,
        }
    }
    None
}

/// Makes a call with ample memory, and then with little, more and more until it has enough: it is
/// refused once at least, and tells of each refusal. Where nothing can be refused, it is made with
/// ample memory alone; where growths are refused by their number, how many are is printed.
///
/// # Errors
/// If it tells anything else.
pub fn assert_refused<T: Trial>(
    rt: &impl Print,
    heap: &mut Heap,
    name: &str,
    trial: &T,
) -> Result<(), Fail> {
    heap.leave(None);
    let ample = trial.told(heap);
    if ample != Told::Done {
        return Err(Fail::new(format_args!("{name}: {ample:?} with ample memory")));
    }
    if !heap.refuses() {
        return Ok(());
    }
    let Some(count) = refusals(heap, trial) else {
        return Err(Fail::new(format_args!("{name}: another answer than out of memory")));
    };
    if count == 0 {
        return Err(Fail::new(format_args!("{name}: no refusal")));
    }
    if heap.is_numbered() {
        println!(rt; "{name}: {count} growths refused")?;
    }
    Ok(())
}
