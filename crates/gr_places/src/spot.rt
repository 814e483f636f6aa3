//! Where in a stream its fault is.

ghost use Rattle.std.specs.Prelude.{◌≡◌, ◌≤◌, length};
ghost use Rattle.gr_record.specs.Prelude.{records_of};
ghost use Rattle.gr_places.specs.Spots.{spot};

use gr_model::limits::MOST_RECORDS;
use gr_record::error::RecordError;
use gr_record::header::Header;
use gr_record::reading::read_event;
use gr_record::stream::read_front_header;

/// Where in a stream its fault is. Bytes are counted from 0 at the start of the stream.
#[derive(Clone, Copy, Debug, PartialEq, Eq)]
pub enum Spot {
    /// At the header, which begins at byte 0.
    Header,
    /// At the record with this number, from 0, which begins at this byte.
    Record { number: u64, byte: u64 },
    /// After the end, at this byte.
    Behind { byte: u64 },
}

/// How many records are accepted at the start of the bytes, in a stream of this header and up to its end, and the bytes after
/// them.
#[tactic(auto, using(gr_record::proofs::Loop::loop_steps))]
fn skip_accepted(header: Header, bytes: &[u8]) -> (usize, &[u8])
    ensures number { result.0 ≡ length (records_of header MOST_RECORDS bytes.now).events }
    ensures rest { result.1.now ≡ (records_of header MOST_RECORDS bytes.now).rest }
    ensures few { length result.1.now ≤ length bytes.now }
{
    let size = header.version.record_length();
    let mut rest = bytes;
    for number in 0..MOST_RECORDS {
        if rest.len() < size {
            return (number, rest);
        }
        let (record, after) = rest.split_at(size);
        match read_event(header, record) {
            Err(_) => return (number, rest),
            Ok(event) if event.kind.is_end() => return (number + 1, after),
            Ok(_) => rest = after,
        }
    }
    (MOST_RECORDS, rest)
}

/// Where this fault is in a stream of these bytes: at the header, if it can't be read; else at the first record that is not
/// accepted, or after the end.
#[tactic(auto, unfolding(gr_record::specs::WholeStreams::front_header_at))]
pub(crate) fn spot_of(error: RecordError, bytes: &[u8]) -> Spot
    ensures { result ≡ spot error bytes.now }
{
    match read_front_header(bytes) {
        Err(_) => Spot::Header,
        Ok((header, records)) => {
            let (number, rest) = skip_accepted(header, records);
            let (number, byte) = (number as u64, (bytes.len() - rest.len()) as u64);
            match error {
                RecordError::AfterEnd => Spot::Behind { byte },
                _ => Spot::Record { number, byte },
            }
        }
    }
}
