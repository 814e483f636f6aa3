//! Facts of records, shapes, words and traces.

ghost use Rattle.std.specs.Prelude.{◌≡◌, ◌∷◌, [], false, length, map};
ghost use Rattle.gr_model.specs.Prelude.{end_of};

use crate::launch::access;
use gr_model::config::worker_of;
use gr_model::event::{Event, ItemId, Kind, Name, Order, Scope, Space, Word, event_ok, word_of};
use gr_model::memory::Memory;
use gr_model::names::Names;
use gr_model::shape::Shape;
use gr_model::traces::Traces;
use std::alloc::Allocator;

/// A relaxed load has no names.
#[test]
fn event_ok_of_a_relaxed_load_with_a_name() {
    let name = Name {
        at: ItemId { group: 0, item: 0 },
        release: 0,
    };
    if let Some(names) = Names::new(&[name]) {
        let kind = Kind::Load(Scope::Device, Order::Relaxed);
        let load = Event {
            names,
            ..access(kind, Space::Global)
        };
        prove!(!event_ok(&load, 1));
    }
}

/// Each group has items.
#[test]
fn shape_of_an_empty_group(rt: HostRuntime) -> Result<(), Memory> {
    let sizes = vec![in rt.alloc(); 1, 0]?;
    prove!(Shape::new(sizes).is_err());
    Ok(())
}

/// Traces with an end before another are refused.
fn refuse_two_ends<A: Allocator>(shape: Shape<A>, lists: Vec<Vec<Event, A>, A>)
    requires group { length shape ≡ 1 }
    requires ends { map (λ v. v.items) lists.items ≡ (end_of false ∷ end_of false ∷ []) ∷ [] }
{
    let traces = Traces::new(shape, lists);
    prove!(traces.is_err());
}

/// An end comes last.
#[test]
fn traces_of_an_end_before_another(rt: HostRuntime) -> Result<(), Memory> {
    let alloc = rt.alloc();
    let list = vec![in alloc; Event::end(false), Event::end(false)]?;
    let lists = vec![in alloc; list]?;
    if let Ok(shape) = Shape::new(vec![in alloc; 1]?) {
        refuse_two_ends(shape, lists);
    }
    Ok(())
}

/// Local words of two groups are two.
#[test]
fn word_of_two_groups() {
    let read = access(Kind::Read, Space::Local);
    prove!(word_of(1, &read) != word_of(2, &read));
}

/// The number of a local word is added to its group without a loss.
#[test]
fn worker_of_the_last_local_word() {
    prove!(worker_of(&Word::Local(1, 4_294_967_295), 7) == 4);
}
