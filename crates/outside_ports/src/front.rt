//! The front of a file.

ghost use Rattle.std.specs.Prelude.{◌≡◌, ◌≤◌, ◌<◌, ◌^◌, IfOk, OnOk, vec_len};
ghost use Rattle.outside_ports.specs.Faults.{CountsFault, CountsMiss};
ghost use Rattle.outside_ports.specs.Front.{IsFront, ReadsChunk, is_read_fault};
ghost use Rattle.outside_ports.specs.Ports.{file_of, IsThere};

use crate::shelf::Shelf;
use std::alloc::{AllocError, AllocFailed, Global};
use thiserror::Error;

/// The first bytes of a file, at most so many as were asked for.
#[derive(Drop)]
pub struct Front {
    pub bytes: Vec<u8>,
    /// Whether the file has more bytes than these.
    pub more: bool,
}

/// Why a file was not read.
#[derive(Debug, Drop, Error)]
pub enum ReadError {
    /// The shelf failed and counted it.
    #[error("a read failed")]
    ReadFault,
    /// Memory was refused; the shelf counts nothing.
    #[error("out of memory")]
    NoMemory,
}

impl From<AllocError> for ReadError {
    ghost use Rattle.std.specs.Prelude.{◌≡◌};
    ghost use Rattle.outside_ports.specs.declared.front.ReadError.TheVariants.{NoMemory};

    ghost from_gives = { λ _ e. e ≡ NoMemory };

    fn from(_e: AllocError) -> ReadError {
        ReadError::NoMemory
    }
}

impl<T: Drop> From<AllocFailed<T>> for ReadError {
    ghost use Rattle.std.specs.Prelude.{◌≡◌};
    ghost use Rattle.outside_ports.specs.declared.front.ReadError.TheVariants.{NoMemory};

    ghost from_gives = { λ _ e. e ≡ NoMemory };

    fn from(_e: AllocFailed<T>) -> ReadError {
        ReadError::NoMemory
    }
}

/// Reads the first `most` bytes of a file, in reads of one chunk, until a read gives nothing or
/// more than `most` bytes are there. A read that gives less than a chunk is not the end. A name
/// that is not there is a `ReadFault`.
pub fn read_front<H: Shelf>(
    alloc: Global,
    shelf: &mut H,
    name: &str,
    most: u64,
) -> Result<Front, ReadError>
    requires { most < 2 ^ 62 }
    ensures known_files { H.known_files shelf.new ≡ H.known_files shelf.old }
    ensures front { IfOk result (IsFront (file_of (H.known_files shelf.old) name.now) most) }
    ensures file_exists { OnOk result (IsThere (H.known_files shelf.old) name.now) }
    ensures short { IfOk result (λ front. vec_len front.bytes ≤ most) }
    ensures faults { CountsFault is_read_fault result (H.faults shelf.old) (H.faults shelf.new) }
    ensures misses { let known_files = H.known_files shelf.old in let before = H.misses shelf.old in
        CountsMiss is_read_fault result known_files name.now before (H.misses shelf.new) }
{
    let mut bytes = Vec::new(alloc);
    let mut chunk = new_chunk(alloc)?;
    'reading: while bytes.len() as u64 <= most {
        let count = read_chunk(shelf, name, bytes.len() as u64, &mut chunk)?;
        if count == 0 {
            return Ok(Front { bytes, more: false });
        }
        bytes.extend_from_slice(&chunk[..count])?;
    }
    bytes.truncate(most as usize);
    Ok(Front { bytes, more: true })
}

/// The bytes that are asked for at once. No clause tells how many, since a goal of so many elements
/// is too long.
pub fn new_chunk(alloc: Global) -> Result<Vec<u8>, AllocError>
    ensures { IfOk result (λ chunk. 0 < vec_len chunk) }
{
    vec![in alloc; 0u8; 65536]
}

/// Reads bytes of a file from a place on, as many as the shelf gives of a chunk; none are the end.
#[tactic(auto, using(crate::proofs::Fronts::misses_rise))]
pub fn read_chunk<H: Shelf>(
    shelf: &mut H,
    name: &str,
    at: u64,
    chunk: &mut Vec<u8>,
) -> Result<usize, ReadError>
    requires { 0 < vec_len chunk.old }
    ensures known_files { H.known_files shelf.new ≡ H.known_files shelf.old }
    ensures len { vec_len chunk.new ≡ vec_len chunk.old }
    ensures within { IfOk result (λ count. count ≤ vec_len chunk.new) }
    ensures file_exists { OnOk result (IsThere (H.known_files shelf.old) name.now) }
    ensures next { let file = file_of (H.known_files shelf.old) name.now in
        IfOk result (λ count. ReadsChunk file at chunk.new.items count) }
    ensures faults { CountsFault is_read_fault result (H.faults shelf.old) (H.faults shelf.new) }
    ensures misses { let known_files = H.known_files shelf.old in let before = H.misses shelf.old in
        CountsMiss is_read_fault result known_files name.now before (H.misses shelf.new) }
{
    match shelf.read(name, at, chunk) {
        Ok(count) => Ok(count),
        Err(_) => Err(ReadError::ReadFault),
    }
}
