//! Facts of hits.

ghost use Rattle.std.specs.Prelude.{◌≡◌, IfOk};
ghost use Rattle.gr_model.specs.declared.event.Word.TheVariants.{Global as GlobalWord};
ghost use Rattle.gr_clocks.specs.Counts.{count_of};

use crate::launch::shape_of;
use gr_clocks::access::Access;
use gr_clocks::clock::{Clock, ClockError};
use gr_model::class::Class;
use gr_model::event::{ItemId, Word};
use gr_model::memory::Memory;
use gr_shadow::merge::merge;
use gr_shadow::shadows::Shadows;
use std::alloc::Allocator;

/// An item of group 0.
const FIRST: ItemId = ItemId { group: 0, item: 0 };

/// An item of group 1.
const OTHER: ItemId = ItemId { group: 1, item: 0 };

/// An access to global word 4, of an item that knows of no event.
fn access<A: Allocator + Copy>(
    alloc: A,
    item: ItemId,
    index: u32,
    class: Class,
) -> Result<Access<A>, ClockError>
    ensures word { IfOk result (λ x. x.word ≡ GlobalWord 4) }
    ensures item { IfOk result (λ x. x.item ≡ item) }
    ensures index { IfOk result (λ x. x.index ≡ index) }
    ensures class { IfOk result (λ x. x.class ≡ class) }
    ensures clock { IfOk result (λ x. (j : ItemId) → count_of x.clock.counts j ≡ 0) }
{
    let shape = shape_of(alloc, &[1, 1])?;
    Ok(Access {
        word: Word::Global(4),
        item,
        index,
        class,
        clock: Clock::new(alloc, &shape)?,
    })
}

/// A read of the other item, which counts three events of the first.
fn read_after_three<A: Allocator + Copy>(alloc: A) -> Result<Access<A>, ClockError>
    ensures word { IfOk result (λ x. x.word ≡ GlobalWord 4) }
    ensures item { IfOk result (λ x. x.item ≡ OTHER) }
    ensures count { IfOk result (λ x. count_of x.clock.counts FIRST ≡ 3) }
{
    let mut read = access(alloc, OTHER, 0, Class::PlainRead)?;
    read.clock.tick(FIRST)?;
    read.clock.tick(FIRST)?;
    read.clock.tick(FIRST)?;
    Ok(read)
}

/// A write clashes with the first of two reads, though its own item made the second.
#[test]
fn apply_of_a_write_behind_two_reads(rt: HostRuntime) -> Result<(), ClockError> {
    let first = access(rt.alloc(), FIRST, 0, Class::PlainRead)?;
    let second = access(rt.alloc(), OTHER, 1, Class::PlainRead)?;
    let write = access(rt.alloc(), OTHER, 2, Class::PlainWrite)?;
    let mut shadows = Shadows::new(rt.alloc());
    shadows.apply(&first)?;
    shadows.apply(&second)?;
    let answer = shadows.apply(&write)?;
    prove!(answer.is_some());
    Ok(())
}

/// A read that counts the first three writes of an item clashes with the sixth, though the third is the last that came.
#[test]
fn apply_of_a_read_after_an_earlier_write(rt: HostRuntime) -> Result<(), ClockError> {
    let sixth = access(rt.alloc(), FIRST, 5, Class::PlainWrite)?;
    let third = access(rt.alloc(), FIRST, 2, Class::PlainWrite)?;
    let read = read_after_three(rt.alloc())?;
    let mut shadows = Shadows::new(rt.alloc());
    shadows.apply(&sixth)?;
    shadows.apply(&third)?;
    let answer = shadows.apply(&read)?;
    prove!(answer.is_some());
    Ok(())
}

/// Atomic accesses of two groups' scopes clash.
#[test]
fn apply_of_atomics_of_two_groups(rt: HostRuntime) -> Result<(), ClockError> {
    let first = access(rt.alloc(), FIRST, 0, Class::GroupModify)?;
    let other = access(rt.alloc(), OTHER, 0, Class::GroupModify)?;
    let mut shadows = Shadows::new(rt.alloc());
    shadows.apply(&first)?;
    let answer = shadows.apply(&other)?;
    prove!(answer.is_some());
    Ok(())
}

/// A word of the second list alone is of the union.
#[test]
fn merge_of_a_second_list(rt: HostRuntime) -> Result<(), Memory> {
    let words = merge(rt.alloc(), &[], &[Word::Global(4)])?;
    prove!(!words.is_empty());
    Ok(())
}
