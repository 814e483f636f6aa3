//! The header of a stream that comes after others, without a look at each of them.

ghost use Rattle.std.specs.Prelude.{◌≡◌, IfErr, IfOk, List, length, slice_get};
ghost use Rattle.gr_record.specs.declared.header.Header.{Header as AnyHeader};
ghost use Rattle.gr_record.specs.Prelude.{Gives, IsHeader, IsOfValues};
ghost use Rattle.gr_intake.specs.Intakes.{AreSeen};
ghost use Rattle.gr_intake.specs.Joined.{header_after};

use gr_model::event::ItemId;
use gr_model::growing::GrowingShape;
use gr_record::fault::Fault;
use gr_record::header::Header;
use gr_record::stream::read_front_header;
use std::alloc::Allocator;

/// The header at the front of the bytes, and the bytes after it. Before it so many headers came, with groups of these sizes; the
/// first of them is this.
///
/// # Errors
/// The header's fault; `SameGroup` if its group has come; `OtherLaunch` if the headers that came are of another launch.
pub fn read_header_after<'p, A: Allocator>(
    place: u64,
    groups: &GrowingShape<A>,
    first: Option<Header>,
    bytes: &'p [u8],
) -> Result<(Header, &'p [u8]), Fault>
    ensures exact { (seen : List AnyHeader) → length seen ≡ place → slice_get seen 0 ≡ first → AreSeen groups.now seen → Gives (λ x. (x.0, x.1.now)) result (header_after seen bytes.now) }
    ensures header { IfOk result (λ x. IsHeader x.0) }
    ensures values { IfErr result IsOfValues }
{
    let (header, rest) = match read_front_header(bytes) {
        Ok(found) => found,
        Err(error) => return Err(Fault::of_stream(place, error)),
    };
    let item = ItemId {
        group: header.group,
        item: 0,
    };
    if groups.has(item) {
        return Err(Fault::SameGroup(place));
    }
    if first.is_some_and(|first| first.launch != header.launch) {
        return Err(Fault::OtherLaunch(place));
    }
    Ok((header, rest))
}
