ghost use Rattle.std.specs.Prelude.{◌≡◌, ◌+◌, ◌<◌, ◌≤◌, ◌^◌, ℕ, List, length, IfOk, IsErrOf};
ghost use Rattle.std.specs.Prelude.{Result, Option, vec_len};
ghost use Rattle.mp_types.specs.Count.{HasRisen};
ghost use Rattle.mount_one.specs.Reading.{Gathers, IsSpent, IsLonger};

use mp_io::{Failed, Source};
use std::alloc::{AllocError, Global};

/// Why reading ended without the whole.
#[derive(Clone, Copy, Debug, PartialEq, Eq)]
pub enum ReadFault {
    Source,
    /// There are more bytes than the limit.
    TooLong,
    Memory,
}

// How many bytes are asked for at once.
const PIECE: usize = 131_072;

fn new_piece(alloc: Global) -> Result<Vec<u8>, AllocError>
    ensures { IfOk result (λ piece. 0 < length piece.items) }
{
    vec![in alloc; 0u8; PIECE]
}

// One read of at most `most` bytes, put behind those that were read before.
fn read_piece<S: Source>(
    source: &mut S,
    piece: &mut [u8],
    bytes: &mut Vec<u8>,
) -> Result<usize, ReadFault>
    requires { 0 < length piece.old }
    ensures fits { IfOk result (λ n. n ≤ length piece.old) }
    ensures gathered { IfOk result (λ n. vec_len bytes.new ≡ vec_len bytes.old + n) }
    ensures told { (whole : Option (List ℕ)) → Gathers whole bytes.old.items (S.left source.old) → IfOk result (λ n. Gathers whole bytes.new.items (S.left source.new)) }
    ensures ended { IfOk result (λ n. n ≡ 0 → IsSpent (S.left source.new)) }
    ensures faults_grow { S.faults source.old ≤ S.faults source.new }
    ensures failed { IsErrOf result ReadFault.Source → HasRisen (S.faults source.old) (S.faults source.new) }
    ensures not_long { IsErrOf result ReadFault.TooLong → ⊥ }
{
    match source.read(piece) {
        Ok(n) => match bytes.extend_from_slice(&piece[..n]) {
            Ok(()) => Ok(n),
            Err(_) => Err(ReadFault::Memory),
        },
        Err(Failed) => Err(ReadFault::Source),
    }
}

/// Reads a source to its end, and at most one byte beyond the limit.
pub fn read_all<S: Source>(
    alloc: Global,
    source: &mut S,
    limit: usize,
) -> Result<Vec<u8>, ReadFault>
    requires { limit < 2 ^ 32 }
    ensures all { IfOk result (λ bytes. Gathers (S.left source.old) bytes.items (S.left source.new) × IsSpent (S.left source.new) × (length bytes.items ≤ limit)) }
    ensures too_long { IsErrOf result ReadFault.TooLong → IsLonger limit (S.left source.old) }
    ensures faults_grow { S.faults source.old ≤ S.faults source.new }
    ensures failed { IsErrOf result ReadFault.Source → HasRisen (S.faults source.old) (S.faults source.new) }
{
    let mut piece = match new_piece(alloc) {
        Ok(piece) => piece,
        Err(_) => return Err(ReadFault::Memory),
    };
    let mut bytes = Vec::new(alloc);
    while bytes.len() <= limit {
        let most = piece.len().min(limit - bytes.len() + 1);
        if read_piece(source, &mut piece[..most], &mut bytes)? == 0 {
            return Ok(bytes);
        }
    }
    Err(ReadFault::TooLong)
}
