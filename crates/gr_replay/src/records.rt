//! The records of one stream, in the bytes that have them.
//!
//! Invariant: the bytes begin with records, and the last of these is an end. Each use reads them again, so only the bytes are
//! kept.

ghost use Rattle.std.specs.Prelude.{◌≡◌, IfOk};
ghost use Rattle.gr_record.specs.WholeStreams.{Gives};
ghost use Rattle.gr_record.specs.Prelude.{front_records_at};

use gr_model::event::Event;
use gr_model::memory::Memory;
use gr_record::error::RecordError;
use gr_record::header::Header;
use gr_record::stream::{read_front_records, skip_front_records};
use std::alloc::Allocator;
use std::marker::Model;

/// The records of one stream up to its end. Contracts see their list.
#[derive(Debug, Drop)]
pub struct Records<'a> {
    header: Header,
    bytes: &'a [u8],
}

impl<'a> Model for Records<'a> {
    ghost use Rattle.std.specs.Prelude.{List};
    ghost use Rattle.gr_model.specs.declared.event.Event.{Event};
    ghost use Rattle.gr_replay.specs.Standing.{IsWholeStream, listed};

    ghost Value = { List Event };

    ghost view = { λ r. listed r.header r.bytes.now };

    ghost invariant = { λ r. IsWholeStream r.header r.bytes.now };
}

impl<'a> Records<'a> {
    /// The records at the front of the bytes up to the end, in the stream of this header, and the bytes after them.
    ///
    /// # Errors
    /// Those of `skip_front_records`. It takes no memory.
    pub fn find(header: Header, bytes: &'a [u8]) -> Result<(Records<'a>, &'a [u8]), RecordError>
        ensures { Gives (λ x. (x.0, x.1.now)) result (front_records_at header bytes.now) }
    {
        let rest = skip_front_records(header, bytes)?;
        Ok((Records { header, bytes }, rest))
    }

    /// The list of the records.
    ///
    /// # Errors
    /// `Memory`: out of memory.
    pub fn read<A: Allocator>(&self, alloc: A) -> Result<Vec<Event, A>, Memory>
        ensures { IfOk result (λ v. v.items ≡ self.now) }
    {
        match read_front_records(alloc, self.header, self.bytes) {
            Ok((events, _rest)) => Ok(events),
            Err(RecordError::Memory) => Err(Memory),
            Err(_) => unreachable!(),
        }
    }
}
