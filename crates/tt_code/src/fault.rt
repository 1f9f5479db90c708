//! Why bytes aren't a program: an instruction passes their end (Apple TrueType Reference Manual,
//! "Instructions"), or their structure is wrong ("Managing the flow of control", "Defining and
//! using functions and instructions").

use std::alloc::AllocError;
use thiserror::Error;

/// Why bytes aren't a program, with the offset of the fault; or that memory ran out.
#[derive(Debug, Drop, Error)]
pub enum CodeFault {
    /// The instruction that starts at this offset passes the end of the program.
    #[error("cannot cut at {0}")]
    CannotCut(u32),
    /// The instruction at this offset isn't allowed there, or something is still open at the
    /// program's end.
    #[error("wrong structure at {0}")]
    Structure(u32),
    /// Memory ran out.
    #[error("out of memory")]
    OutOfMemory(#[from(alloc)] AllocError),
}
