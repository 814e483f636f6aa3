//! The records of a kernel trace, the events that they record, and the words that events access.
//!
//! What a record may look like is docs/MODEL.md, "Records"; orders and scopes are those of the OpenCL 2.0
//! specification, section 3.3 (memory model), "memory order" and "memory scope".

ghost use Rattle.std.specs.Prelude.{◌≡◌, ◌↔◌, IsTrue};
ghost use Rattle.gr_model.specs.Access.{acquires, releases, is_acquire_kind, event_word};
ghost use Rattle.gr_model.specs.NameLists.{IsNameWithin};
ghost use Rattle.gr_model.specs.Events.{IsKindOk, IsEventOk, end_of, is_end_kind};

use crate::limits::MOST_RECORDS;
use crate::names::Names;

/// One of the two memories that work-items share: the launch's global memory, or the local memory of each work-group.
#[derive(Clone, Copy, Debug, PartialEq, Eq)]
pub enum Space {
    /// The global memory of the launch.
    Global,
    /// The local memory of each work-group.
    Local,
}

/// The memory scope of an atomic operation.
#[derive(Clone, Copy, Debug, PartialEq, Eq)]
pub enum Scope {
    /// `memory_scope_work_group`.
    Group,
    /// `memory_scope_device`.
    Device,
}

/// The memory order of an atomic operation.
#[derive(Clone, Copy, Debug, PartialEq, Eq)]
pub enum Order {
    /// `memory_order_relaxed`.
    Relaxed,
    /// `memory_order_acquire`.
    Acquire,
    /// `memory_order_release`.
    Release,
    /// Acquire and release: `memory_order_acq_rel`.
    Both,
}

/// What a record says: what its work-item did, or that the stream of its group is over.
#[derive(Clone, Copy, Debug, PartialEq, Eq)]
pub enum Kind {
    /// A plain read.
    Read,
    /// A plain write.
    Write,
    /// An atomic load.
    Load(Scope, Order),
    /// An atomic store.
    Store(Scope, Order),
    /// An atomic read-modify-write.
    Rmw(Scope, Order),
    /// A work-group barrier, with the memories that its flags name.
    Barrier { global: bool, local: bool },
    /// The end of the stream. It is `cut` if records before it were lost.
    End { cut: bool },
}

/// A work-item, by its work-group and its place in the group.
#[derive(Clone, Copy, Debug, PartialEq, Eq, PartialOrd, Ord, Hash)]
pub struct ItemId {
    /// The number of the work-group, from 0.
    pub group: u16,
    /// The place of the work-item in its group, from 0.
    pub item: u16,
}

/// An event, by its work-item and its place in that item's trace.
#[derive(Clone, Copy, Debug, PartialEq, Eq, PartialOrd, Ord, Hash)]
pub struct EventId {
    /// The work-item of the event.
    pub at: ItemId,
    /// The place of the event in the item's trace, from 0.
    pub index: u32,
}

/// The name of a release: its work-item, and its number among the releases of that item.
#[derive(Clone, Copy, Debug, PartialEq, Eq, PartialOrd, Ord)]
pub struct Name {
    /// The work-item of the release.
    pub at: ItemId,
    /// The number of the release among the item's releases, from 0.
    pub release: u32,
}

/// A record of a work-group's stream: what one work-item did, or the end of the stream. (An *event* of docs/MODEL.md is
/// a record but no end.)
#[derive(Clone, Copy, Debug, PartialEq, Eq)]
pub struct Event {
    /// The place of the work-item in its group, from 0; 0 for an end.
    pub item: u16,
    /// What the record says.
    pub kind: Kind,
    /// The memory of an access; `Global` for a barrier and an end.
    pub space: Space,
    /// The number of the 4-byte word of an access, or the site of a barrier; 0 for an end.
    pub word: u32,
    /// The releases whose values an acquire took: one for each release sequence from which its value came, and none if
    /// the producer found none; none for what is no acquire.
    pub names: Names,
}

/// A record, and the work-group that sent it.
#[derive(Clone, Copy, Debug, PartialEq, Eq)]
pub struct Sent {
    /// The number of the work-group, from 0.
    pub group: u16,
    /// The record.
    pub event: Event,
}

/// A word of memory: a global word of the launch, or a local word of one work-group. Global words are below local ones.
#[derive(Clone, Copy, Debug, PartialEq, Eq, PartialOrd, Ord, Hash)]
pub enum Word {
    /// The global word with this number.
    Global(u32),
    /// Of this work-group, the local word with this number.
    Local(u16, u32),
}

impl Order {
    /// Whether an operation of this order is an acquire.
    pub fn acquires(self) -> bool
        ensures { result ≡ acquires self }
    {
        matches!(self, Order::Acquire | Order::Both)
    }

    /// Whether an operation of this order is a release.
    pub fn releases(self) -> bool
        ensures { result ≡ releases self }
    {
        matches!(self, Order::Release | Order::Both)
    }
}

impl Kind {
    /// Whether a record of this kind is an acquire, which may name releases.
    pub fn is_acquire(self) -> bool
        ensures { result ≡ is_acquire_kind self }
    {
        match self {
            Kind::Load(_, order) | Kind::Store(_, order) | Kind::Rmw(_, order) => order.acquires(),
            Kind::Read | Kind::Write | Kind::Barrier { .. } | Kind::End { .. } => false,
        }
    }

    /// Whether a record of this kind is the end of its stream.
    pub fn is_end(self) -> bool
        ensures { result ≡ is_end_kind self }
    {
        matches!(self, Kind::End { .. })
    }
}

impl Event {
    /// The record that ends a stream, and says whether records before it were lost.
    pub fn end(cut: bool) -> Event
        ensures { result ≡ end_of cut }
    {
        Event {
            item: 0,
            kind: Kind::End { cut },
            space: Space::Global,
            word: 0,
            names: Names::none(),
        }
    }
}

impl Name {
    /// Whether some launch of so many groups, each of so many items, could have a release of this name: the group and the
    /// item are below these numbers, and the number is below `MOST_RECORDS`.
    pub fn is_within(self, groups: usize, items: u16) -> bool
        ensures { IsTrue result ↔ IsNameWithin groups items self }
    {
        usize::from(self.at.group) < groups
            && self.at.item < items
            && (self.release as usize) < MOST_RECORDS
    }
}

/// Whether a record's order is one that its kind may have, and the fields that the kind leaves unused are 0 or `Global`.
fn kind_ok(kind: Kind, item: u16, space: Space, word: u32) -> bool
    ensures { IsTrue result ↔ IsKindOk kind item space word }
{
    match kind {
        Kind::Read | Kind::Write | Kind::Rmw(_, _) => true,
        Kind::Load(_, order) => !order.releases(),
        Kind::Store(_, order) => !order.acquires(),
        Kind::Barrier { .. } => space == Space::Global,
        Kind::End { .. } => item == 0 && space == Space::Global && word == 0,
    }
}

/// Whether a record is one that a work-group of `items` work-items may have: its item is below `items`, its order is one that its kind may
/// have, the fields that its kind leaves unused are 0 or `Global`, and only an acquire has names. (Names are in range and in order by their
/// type.)
pub fn event_ok(event: &Event, items: u16) -> bool
    ensures { IsTrue result ↔ IsEventOk event.now items }
{
    event.item < items
        && (event.names.as_slice().is_empty() || event.kind.is_acquire())
        && kind_ok(event.kind, event.item, event.space, event.word)
}

/// The word that an event of this group accesses, or `None` for a barrier and an end.
pub fn word_of(group: u16, event: &Event) -> Option<Word>
    ensures { result ≡ event_word group event.now }
{
    match (event.kind, event.space) {
        (Kind::Barrier { .. } | Kind::End { .. }, _) => None,
        (_, Space::Global) => Some(Word::Global(event.word)),
        (_, Space::Local) => Some(Word::Local(group, event.word)),
    }
}
