//! Reading to the end, and filling a buffer.

ghost use Rattle.std.specs.Prelude.{◌≡◌, length, IfOk, OnErr};
ghost use Rattle.std.specs.Io.{ReadsAtMost};
ghost use Rattle.tt_stream.specs.Reads.{ConsumesAll, ConsumesBeginning, ConsumesFewer, CountsReadFault, Fills};
ghost use Rattle.tt_stream.specs.Streams.{CountsFailure};

use crate::{ReadFailed, Source};
use std::alloc::{AllocError, Global};
use thiserror::Error;

/// How many bytes are asked for at a time.
const CHUNK: usize = 32_768;

/// Why not all bytes were read.
#[derive(Debug, Drop, Error)]
pub enum ReadFault {
    /// A read failed.
    #[error("read")]
    Read,
    /// Memory ran out.
    #[error("out of memory")]
    OutOfMemory(AllocError),
}

impl From<ReadFailed> for ReadFault {
    ghost use Rattle.tt_stream.specs.declared.reads.ReadFault.TheVariants.{Read};

    ghost from_gives = { λ _ fault. fault ≡ Read };

    fn from(_failed: ReadFailed) -> ReadFault {
        ReadFault::Read
    }
}

impl From<AllocError> for ReadFault {
    ghost use Rattle.tt_stream.specs.declared.reads.ReadFault.TheVariants.{OutOfMemory};

    ghost from_gives = { λ error fault. fault ≡ OutOfMemory error };

    fn from(error: AllocError) -> ReadFault {
        ReadFault::OutOfMemory(error)
    }
}

/// Reads all bytes that are left.
///
/// # Errors
/// If a read fails or memory runs out; then some beginning of what was left was read.
pub fn read_all<R: Source>(alloc: Global, source: &mut R) -> Result<Vec<u8>, ReadFault>
    ensures all { IfOk result (λ bytes.
        ConsumesAll (R.remaining source.old) (R.remaining source.new) bytes.items) }
    ensures beginning { OnErr result
        (ConsumesBeginning (R.remaining source.old) (R.remaining source.new)) }
    ensures failures { CountsReadFault result (R.failures source.old) (R.failures source.new) }
{
    let mut bytes = Vec::new(alloc);
    let mut buf = [0u8; CHUNK];
    loop {
        let count = source.read(&mut buf)?;
        if count == 0 {
            return Ok(bytes);
        }
        bytes.extend_from_slice(&buf[..count])?;
    }
}

/// Reads until the buffer is full or the input ends, and returns how many bytes were read into its
/// front.
///
/// # Errors
/// If a read fails; then some beginning of what was left was read: fewer bytes than the buffer has
/// room for.
#[tactic(auto, using(crate::proofs::Beginnings::consumes_beginning))]
pub fn read_full<R: Source>(source: &mut R, buf: &mut [u8]) -> Result<usize, ReadFailed>
    ensures bound { ReadsAtMost result buf.new }
    ensures bytes { IfOk result (λ n.
        Fills (R.remaining source.old) (R.remaining source.new) n buf.new) }
    ensures beginning { ConsumesBeginning (R.remaining source.old) (R.remaining source.new) }
    ensures few { OnErr result
        (ConsumesFewer (length buf.new) (R.remaining source.old) (R.remaining source.new)) }
    ensures failures { CountsFailure result (R.failures source.old) (R.failures source.new) }
{
    let mut at = 0;
    while at < buf.len() {
        let more = source.read(&mut buf[at..])?;
        if more == 0 {
            break;
        }
        at += more;
    }
    Ok(at)
}
