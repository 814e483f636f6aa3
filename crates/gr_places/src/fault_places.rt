//! What a fault of files is about: which file, where in it, and with which other file it does not fit.

ghost use Rattle.std.specs.Prelude.{◌≡◌, map, option_map, slice_get};
ghost use Rattle.gr_places.specs.Places as spec;
ghost use Rattle.gr_places.specs.Spots.{spot};
ghost use Rattle.gr_replay.specs.Each.{inputs_of};

use crate::neighbours::{first_above, first_like, name_at};
use crate::spot::{Spot, spot_of};
use gr_record::error::RecordError;
use gr_record::fault::Fault;
use std::alloc::Allocator;

/// What a fault of files is about.
#[derive(Clone, Copy, Debug, PartialEq, Eq)]
pub enum FaultPlace<'a> {
    /// A stream: its place among the files, the name of its file, and where in it the fault is.
    Stream {
        stream: u64,
        file: Option<&'a str>,
        spot: Option<Spot>,
    },
    /// A stream that does not fit to another: its place, the name of its file, and the name of the other file.
    Beside {
        stream: u64,
        file: Option<&'a str>,
        beside: Option<&'a str>,
    },
    /// A group that is missing, and the name of the first file of a greater one.
    Missing {
        group: u16,
        beside: Option<&'a str>,
    },
    /// No stream and no group.
    Nothing,
}

/// Where in the file at this place this fault is, if there is such a file.
fn spot_in<A: Allocator>(inputs: &[Vec<u8, A>], place: u64, error: RecordError) -> Option<Spot>
    ensures { result ≡ option_map (spot error) (slice_get (inputs_of inputs.now) place) }
{
    Some(spot_of(error, inputs.get(place as usize)?.as_slice()))
}

/// What this fault is about. The inputs come from files of these names.
pub(crate) fn place_of<'a, A: Allocator>(
    names: &[&'a str],
    inputs: &[Vec<u8, A>],
    fault: Fault,
) -> FaultPlace<'a>
    ensures { spec.place_said result ≡ spec.place_of (map (λ s. s.now) names.now) (inputs_of inputs.now) fault }
{
    match fault {
        Fault::Stream(place, error) => FaultPlace::Stream {
            stream: place,
            file: name_at(names, place),
            spot: spot_in(inputs, place, error),
        },
        Fault::SameGroup(place) => FaultPlace::Beside {
            stream: place,
            file: name_at(names, place),
            beside: first_like(names, inputs, place),
        },
        Fault::OtherLaunch(place) => FaultPlace::Beside {
            stream: place,
            file: name_at(names, place),
            beside: name_at(names, 0),
        },
        Fault::MissingGroup(group) => FaultPlace::Missing {
            group,
            beside: first_above(names, inputs, group),
        },
        Fault::Shape(_)
        | Fault::BadLine(_)
        | Fault::NoEnd
        | Fault::LongStream(_)
        | Fault::Read
        | Fault::Write
        | Fault::Memory
        | Fault::Threads => FaultPlace::Nothing,
    }
}
