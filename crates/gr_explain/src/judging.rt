//! Whether pairs of accesses of a launch race.

ghost use Rattle.std.specs.Prelude.{◌↔◌, All, IfOk, IsTrue};
ghost use Rattle.gr_model.specs.Prelude.{AreAccepted, Streams};
ghost use Rattle.gr_clocks.specs.ClockedAccess.{clocked};
ghost use Rattle.gr_taking.specs.Taken.{read_by};
ghost use Rattle.gr_explain.specs.Accesses.{AreBothKept};
ghost use Rattle.gr_explain.specs.Judged.{AreAccesses, AreJudgements, ClashOn, IsJudged};

use crate::accesses::{Accesses, accesses_of_pairs};
use crate::alike::clashes;
use crate::seen::event_of;
use gr_clocks::access::Access;
use gr_model::event::Word;
use gr_model::memory::Memory;
use gr_model::race::Race;
use gr_model::traces::Traces;
use gr_shadow::lent::lend;
use gr_taking::source::Reading;
use std::alloc::Allocator;

/// Whether two events race on a word.
#[derive(Clone, Copy, Debug, PartialEq, Eq)]
pub enum Judgement {
    /// One of them is held, or is not there.
    Held,
    /// Both are judged, and they are a race on the word.
    Race,
    /// Both are judged, and they are no race on the word.
    NoRace,
}

/// Whether two accesses are of a word and each clashes with the other: neither counts the other.
fn are_race<A: Allocator>(word: Word, first: &Access<A>, second: &Access<A>) -> bool
    ensures { IsTrue result ↔ (ClashOn word (clocked first.now) (clocked second.now) × ClashOn word (clocked second.now) (clocked first.now)) }
{
    let (first, second) = (lend(first), lend(second));
    first.word == word
        && second.word == word
        && clashes(first.class, event_of(&first), &second)
        && clashes(second.class, event_of(&second), &first)
}

/// Whether the two events of a pair race on its word, by the accesses of those events that are grounded.
fn judgement_of<A: Allocator>(accesses: &Accesses<A>, race: &Race) -> Judgement
    ensures { (s : Streams) → AreAccesses s race.now → AreBothKept s accesses.now.entries race.now → IsJudged s race.now result }
{
    match (accesses.get(&race.first), accesses.get(&race.second)) {
        (Some(first), Some(second)) if are_race(race.word, first, second) => Judgement::Race,
        (Some(_), Some(_)) => Judgement::NoRace,
        _ => Judgement::Held,
    }
}

/// Whether the two accesses of each pair race on its word, or one of them is held, in a launch whose records are read so. The answers
/// are in the order of the pairs.
///
/// It handles the events of the launch once for all pairs. Time and memory grow with the events, and with the pairs.
///
/// # Errors
/// `Memory`: out of memory.
pub fn judge_races<A: Allocator + Copy, R: Reading>(
    alloc: A,
    traces: &Traces<A>,
    reading: R,
    races: &[Race],
) -> Result<Vec<Judgement, A>, Memory>
    requires accepted { AreAccepted traces.now → AreAccepted (read_by (R.read_as reading) traces.now) }
    requires accesses { All (AreAccesses (read_by (R.read_as reading) traces.now)) races.now }
    ensures { IfOk result (λ judgements. AreJudgements (read_by (R.read_as reading) traces.now) races.now judgements.items) }
{
    let accesses = accesses_of_pairs(alloc, traces, reading, races)?;
    let mut judgements = Vec::new(alloc);
    for race in races {
        judgements.push(judgement_of(&accesses, race))?;
    }
    Ok(judgements)
}
