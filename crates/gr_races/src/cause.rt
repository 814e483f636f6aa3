//! What the cause of a race is, and the causes of many races at once.

ghost use Rattle.std.specs.Prelude.{◌≡◌, ◌↔◌, All, IfOk, IsTrue, map};
ghost use Rattle.gr_model.specs.Prelude.{IsRacePair, Streams};
ghost use Rattle.gr_explain.specs.Judgements.{IsJudgement};
ghost use Rattle.gr_explain.specs.Judged.{AreJudgements};
ghost use Rattle.gr_lanes.specs.Remembered.{IsWhole};
ghost use Rattle.gr_races.specs.Causes.{AreCauses, IsCause, IsCauseOf, IsMended, IsPairOf};
ghost use Rattle.gr_races.specs.Relaxing as spec;

use crate::parting::are_parted;
use crate::relaxing::{Relaxation, changes_nothing};
use crate::taken::take_all;
use gr_explain::judging::{Judgement, judge_races};
use gr_lanes::lanes::Lanes;
use gr_model::event::{EventId, Word};
use gr_model::memory::Memory;
use gr_model::race::Race;
use gr_model::traces::Traces;
use std::alloc::Allocator;

/// The cause of a race of two accesses: the first of these that is there.
#[derive(Clone, Copy, Debug, PartialEq, Eq)]
pub enum Cause {
    /// They would be no race if the flags of each barrier named both memories.
    Flags,
    /// They would be no race if each atomic access had device scope.
    Scope,
    /// They are of one work-group, and a divergent instance of its barriers lies between them.
    Divergence,
    /// They are of one work-group, and nothing of this is so.
    NoBarrier,
    /// They are of two work-groups, and nothing of this is so.
    NoHandOver,
}

/// The judgement that each of some races is a race.
fn all_race<A: Allocator>(alloc: A, races: &[Race]) -> Result<Vec<Judgement, A>, Memory>
    ensures { IfOk result (λ judgements. judgements.items ≡ map (λ race. Judgement.Race) races.now) }
{
    let judgements = races.iter().map(|_| Judgement::Race).collect(alloc)?;
    Ok(judgements)
}

/// Whether the two accesses of each race still race if a rule is relaxed.
fn judged_where<A: Allocator + Copy>(
    alloc: A,
    traces: &Traces<A>,
    relaxation: Relaxation,
    races: &[Race],
) -> Result<Vec<Judgement, A>, Memory>
    requires pairs { All (IsPairOf traces.now) races.now }
    ensures { IfOk result (λ judgements. AreJudgements (spec.relaxed relaxation traces.now) races.now judgements.items) }
{
    if changes_nothing(traces, relaxation) {
        return all_race(alloc, races);
    }
    judge_races(alloc, traces, relaxation, races)
}

/// Whether two events, with this judgement if a rule is relaxed, are then both judged and no race.
fn is_mended(judgement: Judgement) -> bool
    ensures { (s : Streams) (r : Relaxation) (w : Word) (e f : EventId) → IsJudgement (spec.relaxed r s) w e f judgement → IsTrue result ↔ IsMended s r w e f }
{
    matches!(judgement, Judgement::NoRace)
}

/// The cause of a race in a launch with these records, if it is known which relaxed rules make it no race.
#[tactic(auto, using(gr_steps::proofs::EventRecords::group_of_event, gr_steps::proofs::EventRecords::item_of_event))]
fn cause_from<A: Allocator>(lanes: &Lanes<A>, race: &Race, by_flags: bool, by_scope: bool) -> Cause
    requires pair { IsPairOf lanes.now.streams race.now }
    requires whole { IsWhole lanes.now }
    requires flags { IsTrue by_flags ↔ IsMended lanes.now.streams Relaxation.BothFlags race.now.word race.now.first race.now.second }
    requires scope { IsTrue by_scope ↔ IsMended lanes.now.streams Relaxation.DeviceScope race.now.word race.now.first race.now.second }
    ensures { IsCauseOf lanes.now.streams race.now result }
{
    let _prefixes = lanes.shape();
    if by_flags {
        return Cause::Flags;
    }
    if by_scope {
        return Cause::Scope;
    }
    if race.first.at.group != race.second.at.group {
        return Cause::NoHandOver;
    }
    if are_parted(lanes, race.first, race.second) {
        Cause::Divergence
    } else {
        Cause::NoBarrier
    }
}

/// The causes of races in a launch with these records, by the judgements with the flags relaxed, and those with the scopes relaxed.
fn causes_from<A: Allocator + Copy>(
    alloc: A,
    lanes: &Lanes<A>,
    races: &[Race],
    with_flags: &[Judgement],
    with_scope: &[Judgement],
) -> Result<Vec<Cause, A>, Memory>
    requires pairs { All (IsPairOf lanes.now.streams) races.now }
    requires whole { IsWhole lanes.now }
    requires flags { AreJudgements (spec.relaxed Relaxation.BothFlags lanes.now.streams) races.now with_flags.now }
    requires scope { AreJudgements (spec.relaxed Relaxation.DeviceScope lanes.now.streams) races.now with_scope.now }
    ensures { IfOk result (λ causes. AreCauses lanes.now.streams races.now causes.items) }
{
    let mut causes = Vec::new(alloc);
    for (place, race) in races.iter().enumerate() {
        let by_flags = is_mended(with_flags[place]);
        let by_scope = is_mended(with_scope[place]);
        causes.push(cause_from(lanes, race, by_flags, by_scope))?;
    }
    Ok(causes)
}

/// The causes of races of two events on a word, the smaller event first; one for each race, in their order.
///
/// It judges all of them once for each rule, and so takes time and memory that grow with the events of the launch, and with the races.
///
/// # Errors
/// `Memory`: out of memory.
pub fn causes_of<A: Allocator + Copy>(
    alloc: A,
    traces: &Traces<A>,
    races: &[Race],
) -> Result<Vec<Cause, A>, Memory>
    requires races { All (IsPairOf traces.now) races.now }
    ensures { IfOk result (λ causes. AreCauses traces.now races.now causes.items) }
{
    let with_flags = judged_where(alloc, traces, Relaxation::BothFlags, races)?;
    let with_scope = judged_where(alloc, traces, Relaxation::DeviceScope, races)?;
    let lanes = take_all(alloc, traces)?;
    causes_from(alloc, &lanes, races, &with_flags, &with_scope)
}

/// The cause of a race of two events on a word, the smaller event first: that of `causes_of`.
///
/// # Errors
/// `Memory`: out of memory.
pub fn cause_of<A: Allocator + Copy>(
    alloc: A,
    traces: &Traces<A>,
    word: Word,
    first: EventId,
    second: EventId,
) -> Result<Cause, Memory>
    requires race { IsRacePair traces.now word (first, second) }
    ensures { IfOk result (λ cause. IsCause traces.now word first second cause) }
{
    let race = Race {
        word,
        first,
        second,
    };
    let causes = causes_of(alloc, traces, &[race])?;
    Ok(causes[0])
}
