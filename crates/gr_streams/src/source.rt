//! A reader after the header of its stream was read.

ghost use Rattle.std.specs.Prelude.{◌≡◌, ◌<◌, ℕ, List, length, IfErr, IfOk, IfSome, Ok, Some};
ghost use Rattle.std.specs.Io.KnownBytes.{Consumes, IsAtEnd};
ghost use Rattle.gr_record.specs.Prelude.{Fails, IsOfReading};
ghost use Rattle.gr_intake.specs.Intakes.{MayFollow};
ghost use Rattle.gr_intake.specs.Joined.{header_after};
ghost use Rattle.gr_streams.specs.Sources.{IsHeaded, known_of};

use crate::seen::Seen;
use arrayvec::ArrayVec;
use gr_record::fault::Fault;
use gr_record::header::Header;
use gr_record::layout::HEADER_LENGTH;
use gr_threads::sender::Sender;
use std::alloc::{Allocator, Global};
use std::io::Read;

/// A reader after the header of its stream was read.
#[derive(Drop)]
pub(crate) struct Source<T> {
    pub(crate) header: Header,
    /// The bytes of the header.
    pub(crate) prefix: ArrayVec<u8, HEADER_LENGTH>,
    /// It has the bytes after the header.
    pub(crate) reader: T,
}

/// A stream of which only the header was read: its place among the streams, its reader, and the sender for its events.
#[derive(Drop)]
pub(crate) struct Unread<T, A: Allocator = Global> {
    pub(crate) place: u64,
    pub(crate) source: Source<T>,
    pub(crate) sender: Sender<A>,
}

/// The bytes up to the end of a header, or fewer if the reader ends before.
///
/// # Errors
/// `Read` if the reader fails.
fn read_prefix<T: Read>(reader: &mut T) -> Result<ArrayVec<u8, HEADER_LENGTH>, Fault>
    ensures bytes { IfOk result (λ prefix. Consumes (T.remaining reader.old) (T.remaining reader.new) prefix.items) }
    ensures short { IfOk result (λ prefix. length prefix.items < HEADER_LENGTH → IsAtEnd (T.remaining reader.new)) }
    ensures fault { IfErr result (λ f. f ≡ Fault.Read) }
{
    let mut prefix = ArrayVec::new();
    let mut piece = [0u8; HEADER_LENGTH];
    while !prefix.is_full() {
        let missing = prefix.remaining_capacity();
        match reader.read(&mut piece[..missing]) {
            Err(_) => return Err(Fault::Read),
            Ok(0) => return Ok(prefix),
            Ok(count) => {
                let _ = prefix.try_extend_from_slice(&piece[..count]);
            }
        }
    }
    Ok(prefix)
}

/// Reads the header of a reader's stream, which comes after these headers.
///
/// # Errors
/// The header's fault; `SameGroup`; `OtherLaunch`; `Read` if the reader fails.
pub(crate) fn open<T: Read + Drop, A: Allocator>(
    mut reader: T,
    seen: &Seen<A>,
) -> Result<Source<T>, Fault>
    ensures known { IfOk result (λ s. IfSome (T.remaining reader) (λ bytes. known_of T.remaining s ≡ Some bytes)) }
    ensures header { IfOk result (λ s. IfSome (T.remaining reader) (λ bytes. (rest : List ℕ) × (header_after seen.now bytes ≡ Ok (s.header, rest)))) }
    ensures follows { IfOk result (λ s. MayFollow seen.now s.header) }
    ensures headed { IfOk result (λ s. IsHeaded s.header s.prefix.items) }
    ensures exact { IfErr result (λ f. IfSome (T.remaining reader) (λ bytes. Fails f (header_after seen.now bytes))) }
    ensures fault { IfErr result IsOfReading }
{
    let prefix = read_prefix(&mut reader)?;
    let (header, _rest) = seen.read_next(prefix.as_slice())?;
    Ok(Source {
        header,
        prefix,
        reader,
    })
}
