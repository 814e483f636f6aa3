//! Three senders and a taker, each on a thread of its own, over one queue. Of each work-group, what was popped is what was sent.

ghost use Rattle.std.specs.Prelude.{◌≡◌, ◌<◌, ◌≤◌, ◌==◌, ℕ, false, [], slice_index_or, if◌then◌else◌, IfOk, IfSome, OnOk};
ghost use Rattle.std.specs.Arc.{arc_value};
ghost use Rattle.gr_model.specs.Prelude.{is_end, events_of};
ghost use Rattle.gr_route.specs.IntakeSeats.{popped_of};
ghost use Rattle.gr_threads_tests.specs.Sent.{AreFreshSenders, HasAll, HasEnds, IsFreshSender, IsSeatOf, stream_of, write_of};

use gr_model::event::{Event, Kind, Sent, Space};
use gr_model::limits::{MOST_GROUPS, MOST_PLACES, MOST_RECORDS};
use gr_model::memory::Memory;
use gr_model::names::Names;
use gr_route::intake::{Intake, IntakeSeat, TakerSeat};
use gr_threads::sender::{SendError, Sender};
use std::alloc::Global;
use std::sync::{Arc, Wait};
use std::thread::{Threads, join, yield_now};
use std::time::Clock;

/// A plain write of a global word by item 0.
pub fn write(word: u32) -> Event
    ensures { result ≡ write_of word }
{
    Event {
        item: 0,
        kind: Kind::Write,
        space: Space::Global,
        word,
        names: Names::none(),
    }
}

/// Sends writes of the words below a count, and then the end.
fn send_stream<R: Wait + Clock>(rt: &R, sender: &mut Sender, count: u32) -> Result<(), SendError>
    requires { sender.old.sent ≡ [] }
    ensures { OnOk result (sender.new ≡ record sender.old { sent = stream_of count }) }
{
    for word in 0..count {
        sender.send_wait(rt, write(word))?;
    }
    sender.close_wait(rt, false)
}

/// Sends writes of the words below a count, and then the end. Gives the seat, or `None` if the sender refused one of them.
fn send_all<R: Wait + Clock>(rt: &R, mut sender: Sender, count: u32) -> Option<IntakeSeat>
    requires { sender.sent ≡ [] }
    ensures { IfSome result (IsSeatOf sender count) }
{
    send_stream(rt, &mut sender, count).ok()?;
    Some(sender.into_receipt().ok()?.into_seat())
}

/// Notes whether a popped event is the end of its group.
fn note(ended: &mut [bool; 3], sent: &Sent)
    ensures { (g : ℕ) → g < 3 → slice_index_or ended.new g false ≡ (if sent.now.group == g then is_end sent.now.event else slice_index_or ended.old g false) }
{
    if sent.group < 3 {
        ended[usize::from(sent.group)] = sent.event.kind.is_end();
    }
}

/// Pops until it has the ends of the groups 0 to 2, and lists what it popped.
fn take_all<R: Wait>(
    rt: &R,
    alloc: Global,
    queue: &Intake,
    mut taker: TakerSeat,
) -> (TakerSeat, Result<Vec<Sent>, Memory>)
    requires queue { taker.queue ≡ queue.now.queue }
    requires fresh { taker.popped ≡ [] }
    ensures taker { result.0 ≡ record taker { popped = result.0.popped } }
    ensures ends { IfOk result.1 (HasAll result.0) }
{
    let mut all = Vec::new(alloc);
    let mut ended = [false; 3];
    for _ in rt.forever() {
        if ended[0] && ended[1] && ended[2] {
            break;
        }
        match queue.pop(rt, &mut taker) {
            None => yield_now(),
            Some(sent) => {
                note(&mut ended, &sent);
                if all.push(sent).is_err() {
                    return (taker, Err(Memory));
                }
            }
        }
    }
    (taker, Ok(all))
}

/// Joins back the seats of the groups 0 to 2.
/// Requires: the end of each group was popped.
fn join_all(queue: &Intake, taker: &mut TakerSeat, a: IntakeSeat, b: IntakeSeat, c: IntakeSeat)
    requires queue { (taker.old.queue ≡ queue.now.queue) × (a.queue ≡ queue.now.queue) × (b.queue ≡ queue.now.queue) × (c.queue ≡ queue.now.queue) }
    requires groups { (a.group ≡ 0) × (b.group ≡ 1) × (c.group ≡ 2) }
    requires ended { HasEnds taker.old }
    ensures first { popped_of taker.old 0 ≡ a.pushed }
    ensures second { popped_of taker.old 1 ≡ b.pushed }
    ensures third { popped_of taker.old 2 ≡ c.pushed }
{
    queue.join_back(taker, a);
    queue.join_back(taker, b);
    queue.join_back(taker, c);
}

/// An open sender of a group of one item. `Memory` also if the group has had a seat.
pub(crate) fn sender_of(
    queue: &Arc<Intake, Global>,
    taker: &mut TakerSeat,
    group: u16,
) -> Result<Sender, Memory>
    requires queue { taker.old.queue ≡ (arc_value queue.now).queue }
    requires group { group < MOST_GROUPS }
    ensures sender { IfOk result (IsFreshSender (arc_value queue.now) group) }
    ensures taker { OnOk result ((taker.new.queue ≡ taker.old.queue) × (taker.new.popped ≡ taker.old.popped)) }
{
    let seat = queue.split(taker, group, 1).ok_or(Memory)?;
    let queue = Arc::try_clone(queue)?;
    Ok(Sender::new(group, 1, MOST_RECORDS as u32, queue, seat))
}

/// An open sender of each of the groups 0 to 2, each of one item.
fn senders_of(
    queue: &Arc<Intake, Global>,
    taker: &mut TakerSeat,
) -> Result<(Sender, Sender, Sender), Memory>
    requires queue { taker.old.queue ≡ (arc_value queue.now).queue }
    ensures senders { IfOk result (AreFreshSenders (arc_value queue.now)) }
    ensures taker { OnOk result ((taker.new.queue ≡ taker.old.queue) × (taker.new.popped ≡ taker.old.popped)) }
{
    Ok((
        sender_of(queue, taker, 0)?,
        sender_of(queue, taker, 1)?,
        sender_of(queue, taker, 2)?,
    ))
}

/// What a run leaves: of each sender its seat, and of the taker its seat and what it popped.
type Left = (
    (Option<IntakeSeat>, Option<IntakeSeat>),
    (Option<IntakeSeat>, (TakerSeat, Result<Vec<Sent>, Memory>)),
);

/// Runs three senders and a taker, each on a thread of its own.
fn run<R: Threads + Wait + Clock + Sync>(
    rt: &R,
    alloc: Global,
    queue: &Intake,
    taker: TakerSeat,
    senders: (Sender, Sender, Sender),
    count: u32,
) -> Left
    requires senders { (senders.0.sent ≡ []) × (senders.1.sent ≡ []) × (senders.2.sent ≡ []) }
    requires taker { (taker.queue ≡ queue.now.queue) × (taker.popped ≡ []) }
    ensures first { IfSome result.0.0 (IsSeatOf senders.0 count) }
    ensures second { IfSome result.0.1 (IsSeatOf senders.1 count) }
    ensures third { IfSome result.1.0 (IsSeatOf senders.2 count) }
    ensures taker { result.1.1.0 ≡ record taker { popped = result.1.1.0.popped } }
    ensures popped { IfOk result.1.1.1 (HasAll result.1.1.0) }
{
    let (a, b, c) = senders;
    join(
        rt,
        || -> (Option<IntakeSeat>, Option<IntakeSeat>)
            requires { (a.sent ≡ []) × (b.sent ≡ []) }
            ensures { IfSome result.0 (IsSeatOf a count) × IfSome result.1 (IsSeatOf b count) }
        { join(rt, || send_all(rt, a, count), || send_all(rt, b, count)) },
        || -> (Option<IntakeSeat>, (TakerSeat, Result<Vec<Sent>, Memory>))
            requires { (c.sent ≡ []) × (taker.queue ≡ queue.now.queue) × (taker.popped ≡ []) }
            ensures { IfSome result.0 (IsSeatOf c count) × (result.1.0 ≡ record taker { popped = result.1.0.popped }) × IfOk result.1.1 (HasAll result.1.0) }
        {
            join(
                rt,
                || send_all(rt, c, count),
                || take_all(rt, alloc, queue, taker),
            )
        },
    )
}

/// Runs three senders of groups 0 to 2 and a taker, joins back the seats, and lists what was popped. `None` if a sender refused.
fn run_to_end<R: Threads + Wait + Clock + Sync>(
    rt: &R,
    alloc: Global,
    queue: &Intake,
    taker: TakerSeat,
    senders: (Sender, Sender, Sender),
    count: u32,
) -> Result<Option<Vec<Sent>>, Memory>
    requires senders { AreFreshSenders queue.now senders }
    requires taker { (taker.queue ≡ queue.now.queue) × (taker.popped ≡ []) }
    ensures { IfOk result (λ done. IfSome done (λ all. (g : ℕ) → g < 3 → events_of g all.items ≡ stream_of count)) }
{
    let ((a, b), (c, (mut taker, all))) = run(rt, alloc, queue, taker, senders, count);
    let (Some(a), Some(b), Some(c)) = (a, b, c) else {
        return Ok(None);
    };
    let all = all?;
    join_all(queue, &mut taker, a, b, c);
    Ok(Some(all))
}

/// An empty queue that can be shared, and the seat that pops.
pub(crate) fn shared_queue(
    alloc: Global,
    capacity: u32,
) -> Result<(Arc<Intake, Global>, TakerSeat), Memory>
    requires { (0 < capacity) × (capacity ≤ MOST_PLACES) }
    ensures queue { IfOk result (λ made. made.1.queue ≡ (arc_value made.0).queue) }
    ensures fresh { IfOk result (λ made. made.1.popped ≡ []) }
{
    let (queue, taker) = Intake::new(alloc, capacity)?;
    Ok((Arc::new(alloc, queue)?, taker))
}

/// Three senders of groups 0 to 2, each of one item, send the writes of the words below a count and then the end, while a
/// taker pops until it has the three ends. Of each group, what was popped is what was sent. `None` if a sender refused.
pub fn three_senders<R: Threads + Wait + Clock + Sync>(
    rt: &R,
    alloc: Global,
    capacity: u32,
    count: u32,
) -> Result<Option<Vec<Sent>>, Memory>
    requires { (0 < capacity) × (capacity ≤ MOST_PLACES) }
    ensures { IfOk result (λ done. IfSome done (λ all. (g : ℕ) → g < 3 → events_of g all.items ≡ stream_of count)) }
{
    let (queue, mut taker) = shared_queue(alloc, capacity)?;
    let senders = senders_of(&queue, &mut taker)?;
    run_to_end(rt, alloc, &queue, taker, senders, count)
}
