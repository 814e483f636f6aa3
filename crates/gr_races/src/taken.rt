//! All records of a launch, with their index. Nothing of them is forgotten, since nothing is handled.

ghost use Rattle.std.specs.Prelude.{◌≡◌, ◌<◌, [], IfOk, OnOk, length};
ghost use Rattle.gr_model.specs.Prelude.{IsAccepted, list_of, size_of};
ghost use Rattle.gr_lanes.specs.Remembered.{IsWhole, remembering};
ghost use Rattle.gr_taking.specs.Taken.{with_list};

use gr_lanes::lanes::Lanes;
use gr_model::event::Event;
use gr_model::memory::Memory;
use gr_model::traces::Traces;
use std::alloc::Allocator;

/// Takes the whole list of a group. Nothing of the group was taken before.
fn take_list<A: Allocator + Copy>(
    lanes: &mut Lanes<A>,
    group: u16,
    list: &[Event],
) -> Result<(), Memory>
    requires there { group < length lanes.old.streams.lists }
    requires nothing { list_of lanes.old.streams group ≡ [] }
    requires accepted { IsAccepted (size_of lanes.old.streams group) list.now }
    ensures { OnOk result (lanes.new ≡ remembering lanes.old (with_list lanes.old.streams group list.now)) }
{
    for event in list {
        match lanes.take(group, *event) {
            Ok(()) => {}
            Err(_) => return Err(Memory),
        }
    }
    Ok(())
}

/// All records of a launch, with their index.
pub(crate) fn take_all<A: Allocator + Copy>(
    alloc: A,
    traces: &Traces<A>,
) -> Result<Lanes<A>, Memory>
    ensures streams { IfOk result (λ lanes. lanes.streams ≡ traces.now) }
    ensures whole { IfOk result (λ lanes. IsWhole lanes) }
{
    let mut lanes = Lanes::new(alloc, traces.shape().copy()?)?;
    for group in 0..traces.shape().groups() {
        take_list(&mut lanes, group, traces.list(group))?;
    }
    Ok(lanes)
}
