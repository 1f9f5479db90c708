//! The bytes that hexadecimal words spell.

ghost use Rattle.std.specs.Prelude.{◌≢◌, ◌≤◌, IfErr, IfOk, vec_len};
ghost use Rattle.hex.specs.declared.error.FromHexError.TheVariants.{OutOfMemory};
ghost use Rattle.hintcheck_words.specs.HexWords.{IsHexWord, Spells};

use std::alloc::Global;

/// Why a word gives no bytes: it isn't an even number of hexadecimal digits, or has more of them than
/// may be (`InvalidStringLength`); or memory ran out.
pub use hex::FromHexError as WordFault;

/// How many digits a word may have: those of 65,535 bytes.
const MOST_DIGITS: usize = 131_070;

/// Returns the bytes that a word of hexadecimal digits, of either case, spells.
///
/// # Errors
/// `OutOfMemory`; any other where the word isn't an even number of digits, at most 131,070.
pub fn word_bytes(alloc: Global, word: &str) -> Result<Vec<u8>, WordFault>
    ensures ok { IfOk result (λ bytes. IsHexWord word.now × Spells word.now bytes.items) }
    ensures within { IfOk result (λ bytes. vec_len bytes ≤ 65535) }
    ensures bad { IfErr result (λ fault. fault ≢ OutOfMemory → IsHexWord word.now → ⊥) }
{
    if word.len() > MOST_DIGITS {
        return Err(WordFault::InvalidStringLength);
    }
    hex::decode(alloc, word)
}
