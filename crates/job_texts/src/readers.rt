//! Readers read to their end.

ghost use Rattle.std.specs.Prelude.{◌≡◌, ◌⊎◌, ◌≤◌, ◌-◌, ◌+◌, ◌++◌, ℕ, List, Ok, false, length, vec_len, take, IfErr, IfOk, IfSome, OnOk, OnErr};
ghost use Rattle.std.specs.Io.KnownBytes.{Consumes, IsAtEnd, Keeps};
ghost use Rattle.job_texts.specs.Readers.{LosesAtMost};
ghost use Rattle.job_texts.specs.declared.readers.TheConstants.{MOST_BYTES};

use crate::JobFault;
use std::alloc::Global;
use std::io::{ErrorKind, Read};

/// The most bytes that are taken of a file: a gibibyte.
pub const MOST_BYTES: usize = 1_073_741_824;

/// How many bytes are asked for at once.
const PIECE: usize = 65_536;

/// Room for so many bytes.
fn room_for(alloc: Global, count: usize) -> Result<Vec<u8>, JobFault>
    ensures ok { IfOk result (λ room. vec_len room ≡ count) }
    ensures err { IfErr result (λ fault. fault ≡ JobFault.Memory) }
{
    match vec![in alloc; 0; count] {
        Ok(room) => Ok(room),
        Err(_) => Err(JobFault::Memory),
    }
}

/// Reads once, and answers how many bytes came. A read that a signal interrupts is made again.
fn read_piece<R: Read>(reader: &mut R, piece: &mut [u8]) -> Result<usize, JobFault>
    ensures fits { IfOk result (λ count. count ≤ length piece.new) }
    ensures ok { IfOk result (λ count. Consumes (R.remaining reader.old) (R.remaining reader.new) (take count piece.new)) }
    ensures end { IfOk result (λ count. count ≡ 0 → 1 ≤ length piece.old → IsAtEnd (R.remaining reader.new)) }
    ensures err { IfErr result (λ fault. (fault ≡ JobFault.Read) × Keeps (R.remaining reader.old) (R.remaining reader.new)) }
{
    for _ in 0..u64::MAX {
        match reader.read(piece) {
            Ok(count) => return Ok(count),
            Err(error) => {
                if error.kind() != ErrorKind::Interrupted {
                    return Err(JobFault::Read);
                }
            }
        }
    }
    Err(JobFault::Read)
}

/// Reads once, into a piece of memory that is used again and again, and adds what came. Answers whether anything did.
fn add_piece<R: Read>(
    reader: &mut R,
    piece: &mut [u8],
    bytes: &mut Vec<u8>,
) -> Result<bool, JobFault>
    requires piece { 1 ≤ length piece.old }
    requires bytes { vec_len bytes.old ≤ MOST_BYTES }
    ensures piece { 1 ≤ length piece.new }
    ensures most { OnOk result (vec_len bytes.new ≤ MOST_BYTES) }
    ensures ok { OnOk result ((taken : List ℕ) × Consumes (R.remaining reader.old) (R.remaining reader.new) taken × (bytes.new.items ≡ bytes.old.items ++ taken)) }
    ensures end { result ≡ Ok false → IsAtEnd (R.remaining reader.new) }
    ensures err { IfErr result (λ fault. (fault ≡ JobFault.Read) ⊎ (fault ≡ JobFault.Memory)) }
    ensures lost { OnErr result (LosesAtMost (MOST_BYTES + 1 - vec_len bytes.old) (R.remaining reader.old) (R.remaining reader.new)) }
{
    let room = MOST_BYTES - bytes.len();
    let most = piece.len().min(room + 1);
    let count = read_piece(reader, &mut piece[..most])?;
    if count > room {
        return Err(JobFault::Read);
    }
    match bytes.extend_from_slice(&piece[..count]) {
        Ok(()) => Ok(count > 0),
        Err(_) => Err(JobFault::Memory),
    }
}

/// All bytes of a reader, of which it takes one more than [`MOST_BYTES`] at most. The memory that they take is at most
/// twice as much, beside a small piece.
///
/// # Errors
///
/// `Read` where a read fails, or where there are more than [`MOST_BYTES`]; `Memory`.
pub fn read_all<R: Read>(alloc: Global, reader: &mut R) -> Result<Vec<u8>, JobFault>
    ensures all { IfOk result (λ bytes. IfSome (R.remaining reader.old) (λ held. bytes.items ≡ held)) }
    ensures end { OnOk result (IsAtEnd (R.remaining reader.new)) }
    ensures most { IfOk result (λ bytes. vec_len bytes ≤ MOST_BYTES) }
    ensures err { IfErr result (λ fault. (fault ≡ JobFault.Read) ⊎ (fault ≡ JobFault.Memory)) }
    ensures lost { LosesAtMost (MOST_BYTES + 1) (R.remaining reader.old) (R.remaining reader.new) }
{
    let mut piece = room_for(alloc, PIECE)?;
    let mut bytes = Vec::new(alloc);
    for _ in 0..u64::MAX {
        if !add_piece(reader, &mut piece, &mut bytes)? {
            return Ok(bytes);
        }
    }
    Err(JobFault::Read)
}
