ghost use Rattle.std.specs.Prelude.{◌≡◌, ◌+◌, ◌%◌, ◌<◌, ◌≤◌, length, IfOk};
ghost use Rattle.std.specs.List.{slice_range};
ghost use Rattle.mp_types.specs.Content.{bytes_of, pattern};

use crate::Octets;
use std::alloc::{AllocError, Global};

/// The bytes that a script gives to be stored.
#[derive(Debug, Drop)]
pub enum Data {
    /// These bytes.
    Literal(Octets),
    /// So many bytes, of which the one at place `i`, from 0, is `(seed + i) mod 251`.
    Pattern { seed: u32, length: u64 },
}

// The bytes of a pattern whose first byte is this one. Each is one more than the one before, modulo 251.
fn write_pattern(first: u8, out: &mut [u8])
    requires { first < 251 }
    ensures { out.new ≡ pattern first (length out.old) }
{
    let mut next = first;
    for byte in out.iter_mut() {
        *byte = next;
        next = if next == 250 { 0 } else { next + 1 };
    }
}

// The byte at a place of a pattern.
fn byte_at(seed: u32, place: u64) -> u8
    ensures value { result ≡ (seed + place) % 251 }
    ensures small { result < 251 }
{
    ((u64::from(seed) % 251 + place % 251) % 251) as u8
}

// A whole pattern.
fn pattern_vec(alloc: Global, seed: u32, count: u64) -> Result<Vec<u8>, AllocError>
    ensures { IfOk result (λ bytes. bytes.items ≡ pattern seed count) }
{
    let mut bytes = vec![in alloc; 0u8; count as usize]?;
    write_pattern(byte_at(seed, 0), bytes.as_mut_slice());
    Ok(bytes)
}

impl Data {
    /// How many bytes there are.
    pub fn len(&self) -> u64
        ensures { result ≡ length (bytes_of self.now) }
    {
        match self {
            Data::Literal(bytes) => bytes.len() as u64,
            Data::Pattern { length, .. } => *length,
        }
    }

    /// All the bytes, as a vector of their own.
    pub fn to_vec(&self, alloc: Global) -> Result<Vec<u8>, AllocError>
        ensures { IfOk result (λ bytes. bytes.items ≡ bytes_of self.now) }
    {
        match self {
            Data::Literal(bytes) => Ok(Vec::from_slice(alloc, bytes.as_slice())?),
            Data::Pattern { seed, length } => pattern_vec(alloc, *seed, *length),
        }
    }

    /// Writes the bytes from place `at` on.
    pub fn fill(&self, at: u64, out: &mut [u8])
        requires { at + length out.old ≤ length (bytes_of self.now) }
        ensures { out.new ≡ slice_range (bytes_of self.now) at (at + length out.old) }
    {
        match self {
            Data::Literal(bytes) => {
                let start = at as usize;
                out.copy_from_slice(&bytes.as_slice()[start..start + out.len()]);
            }
            Data::Pattern { seed, .. } => write_pattern(byte_at(*seed, at), out),
        }
    }
}
