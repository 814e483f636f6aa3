//! Reading a prefix of a list of bytes: a header, or the records of a stream up to its end.

ghost use Rattle.std.specs.Prelude.{◌≡◌, ◌≢◌, ◌≤◌, length, Ok, IfErr, IfOk};
ghost use Rattle.gr_record.specs.Prelude.{IsHeader, records_at, behind_records_at, front_header_at, front_records_at};
ghost use Rattle.gr_record.specs.declared.error.RecordError.TheVariants as errors;
ghost use Rattle.gr_record.specs.WholeStreams.{Gives};

use crate::error::RecordError;
use crate::header::Header;
use crate::layout::HEADER_LENGTH;
use crate::reading::{read_event, read_header};
use gr_model::event::Event;
use gr_model::limits::MOST_RECORDS;
use std::alloc::Allocator;

/// The header at the start of the bytes, and the bytes after it.
///
/// # Errors
/// The first of these that is there: `Truncated` if there are fewer bytes than a header has; `BadMagic`; `BadHeader`.
/// It takes no memory.
#[tactic(auto, using(crate::proofs::Judging::header_apart), unfolding(crate::specs::WholeStreams::front_header_at))]
pub fn read_front_header(bytes: &[u8]) -> Result<(Header, &[u8]), RecordError>
    ensures exact { Gives (λ x. (x.0, x.1.now)) result (front_header_at bytes.now) }
    ensures range { IfOk result (λ x. IsHeader x.0) }
    ensures memory { IfErr result (λ e. e ≢ errors.Memory) }
{
    if bytes.len() < HEADER_LENGTH {
        return Err(RecordError::Truncated);
    }
    let header = read_header(bytes)?;
    Ok((header, &bytes[HEADER_LENGTH..]))
}

/// The records of the stream of this header, which are at the start of the bytes, and the bytes after its end.
///
/// # Errors
/// The fault of the first record that has one (see `RecordError`); `Truncated` if the bytes are over before that and
/// before the end; `Memory` if an allocation is refused.
#[tactic(auto, using(crate::proofs::Loop::loop_steps), unfolding(crate::specs::WholeStreams::front_records_at))]
pub fn read_front_records<A: Allocator>(
    alloc: A,
    header: Header,
    bytes: &[u8],
) -> Result<(Vec<Event, A>, &[u8]), RecordError>
    ensures { Gives (λ x. (x.0.items, x.1.now)) result (front_records_at header bytes.now) }
{
    let mut events = Vec::new(alloc);
    let size = header.version.record_length();
    let mut rest = bytes;
    for _ in 0..MOST_RECORDS {
        if rest.len() < size {
            return Err(RecordError::Truncated);
        }
        let (record, after) = rest.split_at(size);
        let event = read_event(header, record)?;
        let is_end = event.kind.is_end();
        events.push(event)?;
        rest = after;
        if is_end {
            return Ok((events, rest));
        }
    }
    if rest.len() < size {
        return Err(RecordError::Truncated);
    }
    Err(RecordError::TooManyRecords)
}

/// The bytes after the records of the stream of this header, which are at the start of the bytes. The records are checked
/// and not kept.
///
/// # Errors
/// The fault of the first record that has one (see `RecordError`); `Truncated` if the bytes are over before that and
/// before the end. It takes no memory.
#[tactic(auto, using(crate::proofs::Loop::loop_steps), unfolding(crate::specs::WholeStreams::front_records_at))]
pub fn skip_front_records(header: Header, bytes: &[u8]) -> Result<&[u8], RecordError>
    ensures exact { Gives (λ x. x.now) result (behind_records_at header bytes.now) }
    ensures memory { IfErr result (λ e. e ≢ errors.Memory) }
{
    let size = header.version.record_length();
    let mut rest = bytes;
    for _ in 0..MOST_RECORDS {
        if rest.len() < size {
            return Err(RecordError::Truncated);
        }
        let (record, after) = rest.split_at(size);
        let event = read_event(header, record)?;
        if event.kind.is_end() {
            return Ok(after);
        }
        rest = after;
    }
    if rest.len() < size {
        return Err(RecordError::Truncated);
    }
    Err(RecordError::TooManyRecords)
}
