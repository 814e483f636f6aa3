//! Queues of one place, and a seat for each work-group.

ghost use Rattle.std.specs.Prelude.{◌≡◌, ◌∷◌, ◌++◌, [], IfOk, IfSome, IfNone, IsFalse};
ghost use Rattle.gr_clocks.specs.Counts.{count_of};
ghost use Rattle.gr_model.specs.declared.class.Class.TheVariants as classes;
ghost use Rattle.gr_model.specs.declared.event.Word.TheVariants as words;
ghost use Rattle.gr_route.specs.WorkRule.{is_stop, is_stopped};

use crate::route::three_senders::write;
use gr_clocks::access::Access;
use gr_clocks::clock::Clock;
use gr_model::class::Class;
use gr_model::event::{Event, ItemId, Sent, Word};
use gr_model::memory::Memory;
use gr_model::shape::Shape;
use gr_route::intake::{Intake, IntakeSeat, TakerSeat};
use gr_route::work::{GiverSeat, Work, WorkQueue, WorkerSeat};
use refusing::growths::refuse_each;
use std::alloc::{Allocator, Global};
use std::sync::Wait;
use std::test::*;

/// Pushes twice into an empty queue of one place, and pops twice. Gives what the second push gives back, and what was popped;
/// `None` if the first push is refused.
fn pushed_and_popped<R: Wait, A: Allocator + Copy>(
    rt: &R,
    queue: &Intake<A>,
    taker: &mut TakerSeat<A>,
    seat: &mut IntakeSeat<A>,
) -> Option<(Option<Event>, [Option<Sent>; 2])>
    requires queues { (taker.old.queue ≡ queue.now.queue) × (seat.old.queue ≡ queue.now.queue) }
    requires items { seat.old.items ≡ 2 }
    requires fresh { seat.old.pushed ≡ [] }
    ensures { (taker.new.queue ≡ queue.now.queue) × (seat.new.queue ≡ queue.now.queue) }
{
    queue.push(rt, seat, write(7)).ok()?;
    let back = match queue.push(rt, seat, write(8)) {
        Ok(()) => None,
        Err(full) => Some(full.0),
    };
    Some((back, [queue.pop(rt, taker), queue.pop(rt, taker)]))
}

/// What a queue of one place gives: a seat's group and items, the answer of `pushed_and_popped`, and whether a second seat of
/// the group is refused, before and after the first is joined back.
type IntakeAnswers = (
    (u16, u16),
    Option<(Option<Event>, [Option<Sent>; 2])>,
    [bool; 2],
);

/// What an empty queue of one place gives; `None` if the first split is refused.
fn split_push_and_join<R: Wait, A: Allocator + Copy>(
    rt: &R,
    queue: &Intake<A>,
    taker: &mut TakerSeat<A>,
) -> Option<IntakeAnswers>
    requires { taker.old.queue ≡ queue.now.queue }
{
    let mut seat = queue.split(taker, 5, 2)?;
    let of = (seat.group(), seat.items());
    let refused = queue.split(taker, 5, 2).is_none();
    let seen = pushed_and_popped(rt, queue, taker, &mut seat);
    queue.join_back(taker, seat);
    Some((of, seen, [refused, queue.split(taker, 5, 2).is_none()]))
}

/// Whether an intake queue of one place gives what it should.
fn is_intake_right<R: Wait, A: Allocator + Copy>(rt: &R, alloc: A) -> Result<bool, Memory> {
    let first = Sent {
        group: 5,
        event: write(7),
    };
    let seen = Some((Some(write(8)), [Some(first), None]));
    let (queue, mut taker) = Intake::new(alloc, 1)?;
    Ok(split_push_and_join(rt, &queue, &mut taker) == Some(((5, 2), seen, [true, true])))
}

#[test]
fn an_intake_queue_of_one_place(rt: HostRuntime) {
    let growths = refuse_each(rt.alloc(), 1, |heap| is_intake_right(&rt, heap));
    assert!(rt; growths.is_ok(), "the queue grows: {growths:?}");
}

/// The first record of an item, a write of global word 7, with a clock that counts nothing.
pub(crate) fn write_by<A: Allocator + Copy>(alloc: A, item: u16) -> Result<Access<A>, Memory>
    ensures { IfOk result (λ access. (access.word ≡ words.Global 7) × (access.item ≡ record { group = 0; item = item }) × (access.index ≡ 0) × (access.class ≡ classes.PlainWrite) × ((i : ItemId) → count_of access.clock.counts i ≡ 0)) }
{
    let shape = Shape::new(vec![in alloc; 2]?).map_err(|_| Memory)?;
    Ok(Access {
        word: Word::Global(7),
        item: ItemId { group: 0, item },
        index: 0,
        class: Class::PlainWrite,
        clock: Clock::new(alloc, &shape).map_err(|_| Memory)?,
    })
}

/// The word of an access.
fn word_of<A: Allocator>(work: &Work<A>) -> Option<Word> {
    match work {
        Work::Access(access) => Some(access.word),
        Work::Stop => None,
    }
}

/// Pops, and gives the word of what was popped.
fn pop_word<R: Wait, A: Allocator + Copy>(
    rt: &R,
    queue: &WorkQueue<A>,
    worker: &mut WorkerSeat<A>,
) -> Option<Option<Word>>
    requires { worker.old.queue ≡ queue.now.queue }
    ensures { worker.new.queue ≡ queue.now.queue }
{
    queue.pop(rt, worker).map(|work| word_of(&work))
}

/// Pushes work, and gives the word of what comes back; `None` if nothing does.
fn push_word<R: Wait, A: Allocator + Copy>(
    rt: &R,
    queue: &WorkQueue<A>,
    giver: &mut GiverSeat<A>,
    work: Work<A>,
) -> Option<Option<Word>>
    requires queue { giver.old.queue ≡ queue.now.queue }
    requires unstopped { IsFalse (is_stopped giver.old.pushed) }
    ensures pushed { IfNone result (giver.new ≡ record giver.old { pushed = giver.old.pushed ++ work ∷ [] }) }
    ensures unchanged { IfSome result (λ _. giver.new ≡ giver.old) }
{
    match queue.push(rt, giver, work) {
        Ok(()) => None,
        Err(full) => Some(word_of(&full.0)),
    }
}

/// Pushes an access and, into the full queue, `Stop`, and pops twice. Then pushes `Stop` again, and pops it. Gives the words of
/// what was popped, or `None` if a push gave a wrong answer.
fn through_one_place<R: Wait, A: Allocator + Copy>(
    rt: &R,
    queue: &WorkQueue<A>,
    giver: &mut GiverSeat<A>,
    worker: &mut WorkerSeat<A>,
    access: Work<A>,
) -> Option<[Option<Option<Word>>; 3]>
    requires worker { worker.old.queue ≡ queue.now.queue }
    requires giver { giver.old ≡ record { queue = queue.now.queue; pushed = [] } }
    requires access { IsFalse (is_stop access) }
    ensures worker { worker.new.queue ≡ queue.now.queue }
    ensures giver { giver.new.queue ≡ queue.now.queue }
{
    if push_word(rt, queue, giver, access).is_some() {
        return None;
    }
    if push_word(rt, queue, giver, Work::Stop) != Some(None) {
        return None;
    }
    let (first, second) = (pop_word(rt, queue, worker), pop_word(rt, queue, worker));
    if push_word(rt, queue, giver, Work::Stop).is_some() {
        return None;
    }
    Some([first, second, pop_word(rt, queue, worker)])
}

/// What a work queue of one place gives: the answer of `through_one_place`, and whether a second seat is refused, before and
/// after the first is joined back.
type WorkAnswers = (Option<[Option<Option<Word>>; 3]>, [bool; 2]);

/// What an empty queue of one place gives; `None` if the first split is refused.
fn split_give_and_join<R: Wait, A: Allocator + Copy>(
    rt: &R,
    queue: &WorkQueue<A>,
    worker: &mut WorkerSeat<A>,
    access: Work<A>,
) -> Option<WorkAnswers>
    requires queue { worker.old.queue ≡ queue.now.queue }
    requires access { IsFalse (is_stop access) }
{
    let mut giver = queue.split(worker)?;
    let refused = queue.split(worker).is_none();
    let popped = through_one_place(rt, queue, &mut giver, worker, access);
    queue.join_back(worker, giver);
    Some((popped, [refused, queue.split(worker).is_none()]))
}

/// Whether a work queue of one place gives what it should.
fn is_work_right<R: Wait, A: Allocator + Copy>(rt: &R, alloc: A) -> Result<bool, Memory> {
    let popped = Some([Some(Some(Word::Global(7))), None, Some(None)]);
    let access = Work::Access(write_by(alloc, 0)?);
    let (queue, mut worker) = WorkQueue::new(alloc, 1)?;
    Ok(split_give_and_join(rt, &queue, &mut worker, access) == Some((popped, [true, true])))
}

#[test]
fn a_work_queue_of_one_place(rt: HostRuntime) {
    let growths = refuse_each(rt.alloc(), 1, |heap| is_work_right(&rt, heap));
    assert!(rt; growths.is_ok(), "the queue grows: {growths:?}");
}
