//! The parts of answers, and lines of them, as JSON. Members are in the order of their names.

use gr_model::event::{EventId, Kind, Name, Word};
use gr_model::memory::Memory;
use gr_places::buffers::{Element, element_of};
use gr_places::index::PlaceIndex;
use gr_places::places::Placed;
use gr_places::sides::Sides;
use gr_races::kinds::Operation;
use gr_races::names::{atomic_of, kind_name, operation_name};
use gr_text::line_text::{word_of_order, word_of_scope};
use gr_timeline::details::Details;
use serde::Serialize;
use std::alloc::Global;

/// A text, unless memory runs out.
pub(crate) type Text = Result<Vec<u8>, Memory>;

/// A word of memory.
#[derive(Drop, Serialize)]
pub(crate) struct WordObject {
    /// The group whose local memory it is in.
    #[serde(skip_serializing_if = "Option::is_none")]
    group: Option<u16>,
    number: u32,
    space: &'static str,
}

/// A word by its buffer and its place there.
#[derive(Drop, Serialize)]
pub(crate) struct ElementObject<'a> {
    index: u32,
    name: &'a str,
}

/// An event: its group, its item and its index in the item's trace.
#[derive(Drop, Serialize)]
pub(crate) struct EventObject {
    group: u16,
    index: u32,
    item: u16,
}

/// A release that an acquire names.
#[derive(Drop, Serialize)]
pub(crate) struct ReleaseObject {
    group: u16,
    item: u16,
    number: u32,
}

/// What a record says. Atomic accesses have an order and a scope.
#[derive(Drop, Serialize)]
pub(crate) struct KindObject {
    kind: &'static str,
    #[serde(skip_serializing_if = "Option::is_none")]
    order: Option<&'static str>,
    #[serde(skip_serializing_if = "Option::is_none")]
    scope: Option<&'static str>,
}

/// An event, what its record says, how many barriers of its item come before it, where it is in the source, and the record's number in
/// its stream; of half of a hand-over the releases that it names and its word, too.
#[derive(Drop, Serialize)]
pub(crate) struct DetailsObject<'a> {
    access: KindObject,
    #[serde(flatten)]
    event: EventObject,
    #[serde(skip_serializing_if = "Option::is_none")]
    pub(crate) names: Option<Vec<ReleaseObject>>,
    phase: usize,
    place: Option<&'a str>,
    record: usize,
    #[serde(skip_serializing_if = "Option::is_none")]
    pub(crate) word: Option<WordObject>,
}

/// An event, what it does if that is said, and where it is in the source.
#[derive(Drop, Serialize)]
pub(crate) struct AccessObject<'a> {
    #[serde(flatten)]
    event: EventObject,
    #[serde(skip_serializing_if = "Option::is_none")]
    operation: Option<&'static str>,
    place: Option<&'a str>,
}

impl From<Word> for WordObject {
    fn from(word: Word) -> WordObject {
        let (group, number, space) = match word {
            Word::Global(number) => (None, number, "global"),
            Word::Local(group, number) => (Some(group), number, "local"),
        };
        WordObject {
            group,
            number,
            space,
        }
    }
}

impl From<EventId> for EventObject {
    fn from(event: EventId) -> EventObject {
        EventObject {
            group: event.at.group,
            index: event.index,
            item: event.at.item,
        }
    }
}

impl From<Name> for ReleaseObject {
    fn from(name: Name) -> ReleaseObject {
        ReleaseObject {
            group: name.at.group,
            item: name.at.item,
            number: name.release,
        }
    }
}

impl From<Kind> for KindObject {
    fn from(kind: Kind) -> KindObject {
        let atomic = atomic_of(kind);
        KindObject {
            kind: kind_name(kind),
            order: atomic.map(|(_, order)| word_of_order(order)),
            scope: atomic.map(|(scope, _)| word_of_scope(scope)),
        }
    }
}

/// Where an event is in the source, if this index has a place of it.
pub(crate) fn place_of<'a>(places: &PlaceIndex<'a>, event: EventId) -> Option<&'a str> {
    places.place_of(Placed::Event(event))
}

/// An event with this operation, if one is given, and its place.
pub(crate) fn access_object<'a>(
    places: &PlaceIndex<'a>,
    event: EventId,
    operation: Option<Operation>,
) -> AccessObject<'a> {
    AccessObject {
        event: event.into(),
        operation: operation.map(operation_name),
        place: place_of(places, event),
    }
}

/// An event and its details.
pub(crate) fn details_object<'a>(
    places: &PlaceIndex<'a>,
    event: EventId,
    details: &Details,
) -> DetailsObject<'a> {
    DetailsObject {
        access: details.kind.into(),
        event: event.into(),
        names: None,
        phase: details.phase,
        place: place_of(places, event),
        record: details.number,
        word: None,
    }
}

/// The place of a word in its buffer, if a buffer has it.
pub(crate) fn buffer_object<'a>(sides: &Sides<'a>, word: Word) -> Option<ElementObject<'a>> {
    let Element { name, index } = element_of(sides.buffers, word)?;
    Some(ElementObject { index, name })
}

/// Adds an object to a text as a line, with the version of the format first.
pub(crate) fn push_line<T: Serialize>(text: &mut Vec<u8>, object: &T) -> Result<(), Memory> {
    let Ok(line) = serde_json::to_vec(*text.allocator(), object) else {
        return Err(Memory);
    };
    text.extend_from_slice(b"{\"gpurace\":1,")?;
    if let Some((_, members)) = line.split_first() {
        text.extend_from_slice(members)?;
    }
    text.push(b'\n')?;
    Ok(())
}

/// Adds the objects of items as lines, in their order.
pub(crate) fn push_lines<T, U: Serialize + Drop, F: Fn(&T) -> U>(
    text: &mut Vec<u8>,
    items: &[T],
    object_of: F,
) -> Result<(), Memory>
    requires { F.IsAlwaysCallable object_of }
{
    for item in items {
        push_line(text, &object_of(item))?;
    }
    Ok(())
}

/// The line of an object.
pub(crate) fn line_of<T: Serialize>(alloc: Global, object: &T) -> Text {
    let mut text = Vec::new(alloc);
    push_line(&mut text, object)?;
    Ok(text)
}
