//! The file with which another file does not fit, by the groups in their headers.

ghost use Rattle.std.specs.Prelude.{◌≡◌, map, option_map, position, slice_get};
ghost use Rattle.gr_replay.specs.Each.{inputs_of};
ghost use Rattle.gr_places.specs.Neighbours.{first_above, first_between, first_like, first_of, group_at, is_between};

use gr_model::limits::MOST_GROUPS;
use gr_record::stream::read_front_header;
use std::alloc::Allocator;

/// The group in the header at the start of the bytes, if there is one.
fn group_of(bytes: &[u8]) -> Option<u16>
    ensures { result ≡ group_at bytes.now }
{
    let (header, _) = read_front_header(bytes).ok()?;
    Some(header.group)
}

/// Whether there is a group, and it is from `least` to `most`.
fn is_between(least: usize, most: usize, group: Option<u16>) -> bool
    ensures { result ≡ is_between least most group }
{
    group.is_some_and(|group| least <= usize::from(group) && usize::from(group) <= most)
}

/// The place of the first input whose group is from `least` to `most`.
fn place_between<A: Allocator>(inputs: &[Vec<u8, A>], least: usize, most: usize) -> Option<usize>
    ensures { result ≡ position (λ v. is_between least most (group_at v.items)) inputs.now }
{
    inputs.iter().position(|input| is_between(least, most, group_of(input.as_slice())))
}

/// The name at this place, if there is one.
pub(crate) fn name_at<'a>(names: &[&'a str], place: u64) -> Option<&'a str>
    ensures { option_map (λ s. s.now) result ≡ slice_get (map (λ s. s.now) names.now) place }
{
    names.get(place as usize).copied()
}

/// The name of the first file whose group is from `least` to `most`.
#[tactic(auto, using(crate::proofs::NeighbourLemmas::position_map))]
fn first_between<'a, A: Allocator>(
    names: &[&'a str],
    inputs: &[Vec<u8, A>],
    least: usize,
    most: usize,
) -> Option<&'a str>
    ensures { option_map (λ s. s.now) result ≡ first_between (map (λ s. s.now) names.now) (inputs_of inputs.now) least most }
{
    name_at(names, place_between(inputs, least, most)? as u64)
}

/// The name of the first file of a group that is greater than this one.
pub(crate) fn first_above<'a, A: Allocator>(
    names: &[&'a str],
    inputs: &[Vec<u8, A>],
    group: u16,
) -> Option<&'a str>
    ensures { option_map (λ s. s.now) result ≡ first_above (map (λ s. s.now) names.now) (inputs_of inputs.now) group }
{
    first_between(names, inputs, usize::from(group) + 1, MOST_GROUPS)
}

/// The name of the first file that is of the same group as the one at this place.
pub(crate) fn first_like<'a, A: Allocator>(
    names: &[&'a str],
    inputs: &[Vec<u8, A>],
    place: u64,
) -> Option<&'a str>
    ensures { option_map (λ s. s.now) result ≡ first_like (map (λ s. s.now) names.now) (inputs_of inputs.now) place }
{
    let group = usize::from(group_of(inputs.get(place as usize)?.as_slice())?);
    first_between(names, inputs, group, group)
}
