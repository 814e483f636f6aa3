//! How many records of each kind a launch has.

ghost use Rattle.std.specs.Prelude.{◌≡◌};
ghost use Rattle.gr_places.specs.Counts.{count_in, count_of, counts, is_of_kind};

use gr_model::event::{Event, Kind};
use gr_model::traces::Traces;
use std::alloc::Allocator;

/// How large a launch is, and how many records of each kind it has. `records` are all of them, ends included; `reads` and `writes` are
/// plain.
#[derive(Clone, Copy, Debug, PartialEq, Eq)]
pub struct Counts {
    pub groups: u16,
    pub items: u32,
    pub records: u64,
    pub reads: u64,
    pub writes: u64,
    pub loads: u64,
    pub stores: u64,
    pub rmws: u64,
    pub barriers: u64,
    pub ends: u64,
}

/// What a record is, whatever its scope, its order and its flags are. Each record is of any kind.
#[derive(Clone, Copy, Debug, PartialEq, Eq)]
enum RecordKind {
    Any,
    Read,
    Write,
    Load,
    Store,
    Rmw,
    Barrier,
    End,
}

/// Whether a record of this kind is one of those that are counted.
fn is_of_kind(wanted: RecordKind, kind: Kind) -> bool
    ensures { result ≡ is_of_kind wanted kind }
{
    match wanted {
        RecordKind::Any => true,
        RecordKind::Read => matches!(kind, Kind::Read),
        RecordKind::Write => matches!(kind, Kind::Write),
        RecordKind::Load => matches!(kind, Kind::Load(_, _)),
        RecordKind::Store => matches!(kind, Kind::Store(_, _)),
        RecordKind::Rmw => matches!(kind, Kind::Rmw(_, _)),
        RecordKind::Barrier => matches!(kind, Kind::Barrier { .. }),
        RecordKind::End => matches!(kind, Kind::End { .. }),
    }
}

/// How many records of this kind a list has.
fn count_in(wanted: RecordKind, list: &[Event]) -> usize
    ensures { result ≡ count_in wanted list.now }
{
    list.iter()
        .filter(|event| is_of_kind(wanted, event.kind))
        .count()
}

/// How many records of this kind a launch has.
#[tactic(auto, using(crate::proofs::CountLemmas::not_more, std::proofs::lemmas::List::Sums::sum_by_more))]
fn count_of<A: Allocator>(wanted: RecordKind, traces: &Traces<A>) -> u64
    ensures { result ≡ count_of wanted traces.now }
{
    let mut count: u64 = 0;
    for group in 0..traces.shape().groups() {
        count += count_in(wanted, traces.list(group)) as u64;
    }
    count
}

/// How large a launch is, and how many records of each kind it has.
pub(crate) fn counts_of<A: Allocator>(traces: &Traces<A>) -> Counts
    ensures { result ≡ counts traces.now }
{
    Counts {
        groups: traces.shape().groups(),
        items: traces.shape().total(),
        records: count_of(RecordKind::Any, traces),
        reads: count_of(RecordKind::Read, traces),
        writes: count_of(RecordKind::Write, traces),
        loads: count_of(RecordKind::Load, traces),
        stores: count_of(RecordKind::Store, traces),
        rmws: count_of(RecordKind::Rmw, traces),
        barriers: count_of(RecordKind::Barrier, traces),
        ends: count_of(RecordKind::End, traces),
    }
}
