//! Tests of growths of memory that are refused to the calls below the command, whose own are in
//! `hintcheck_tests`. A test has a process of its own, whose heap it uses up; then it makes a call
//! again and again, each time with 16 bytes more, until it has enough. So the call is refused its
//! first growth, and then each further one that needs more memory than there was before it. A
//! growth that fits into memory that the call has freed can't be the first that is refused so.
//! `bench/refusals.py` runs the same tests with ample memory, of which each growth of a call is
//! refused by its number.
//!
//! `rt try` puts an allocator of its own in the place of the C library's, which can't be used up:
//! there each call is made with ample memory alone.
#![tactic(auto)]

#[cfg(test)]
mod announced;
#[cfg(test)]
mod builders;
#[cfg(test)]
mod fonts;
#[cfg(test)]
mod programs;

/// The programs of glyphs on which the calls are made, with their names. They are accepted where
/// function 0 takes one number.
#[cfg(test)]
pub(crate) const PROGRAMS: &[(&str, &[u8])] = &[
    // Two ways that leave different numbers on the stack.
    (
        "join-unknown",
        &[0x4B, 0x58, 0xB0, 0x01, 0x1B, 0xB0, 0x02, 0x59, 0x21],
    ),
    ("call-pops", &[0xB1, 0x07, 0x00, 0x2B]),
    // Three turns of the function.
    ("loopcall", &[0xB4, 0x01, 0x02, 0x03, 0x03, 0x00, 0x2A]),
];
