//! All bytes of a reader, and the faults of reading that these bytes do not determine.

ghost use Rattle.std.specs.Prelude.{◌≡◌, ◌++◌, IfOk, IfErr, IfSome, OnOk};
ghost use Rattle.std.specs.Io.KnownBytes.{IsAtEnd};
ghost use Rattle.gr_record.specs.Prelude.{IsOutside};

use crate::fault::Fault;
use gr_model::memory::Memory;
use std::alloc::Allocator;
use std::io::Read;

/// How often a reader is asked for bytes, at most.
const MOST_READS: u64 = 4_294_967_296;

/// How many bytes are asked for at once.
const PIECE_LENGTH: usize = 65_536;

/// Keeps the bytes that were read.
fn keep<A: Allocator>(bytes: &mut Vec<u8, A>, piece: &[u8]) -> Result<(), Memory>
    ensures { OnOk result (bytes.new.items ≡ bytes.old.items ++ piece.now) }
{
    bytes.extend_from_slice(piece)?;
    Ok(())
}

/// All bytes up to the reader's end.
///
/// # Errors
/// `Read` at the first error of the reader, or if it does not come to its end within 4,294,967,296 calls; `Memory` if
/// an allocation is refused.
pub fn read_all<A: Allocator, T: Read>(alloc: A, reader: &mut T) -> Result<Vec<u8, A>, Fault>
    ensures bytes { IfOk result (λ v. IfSome (T.remaining reader.old) (λ bytes. v.items ≡ bytes)) }
    ensures end { OnOk result (IsAtEnd (T.remaining reader.new)) }
    ensures faults { IfErr result IsOutside }
{
    let mut bytes = Vec::new(alloc);
    let mut piece = [0u8; PIECE_LENGTH];
    for _ in 0..MOST_READS {
        match reader.read(&mut piece) {
            Err(_) => return Err(Fault::Read),
            Ok(0) => return Ok(bytes),
            Ok(n) => keep(&mut bytes, &piece[..n])?,
        }
    }
    Err(Fault::Read)
}
