//! The questions.

ghost use Rattle.std.specs.Prelude.{option_map};
ghost use Rattle.gr_places.specs.SideLines.{place_number};
ghost use Rattle.gr_races.specs.Accounts.{account_said};
ghost use Rattle.gr_races.specs.Shown.{HasRace};
ghost use Rattle.gr_timeline.specs.Racy.{IsRacyIn};
ghost use Rattle.gr_timeline.specs.Why.{IsWhy, answer_of};
ghost use Rattle.gr_command.specs.Rendering.{Renders};
ghost use Rattle.gr_command.specs.Shown.{AreRaces, IsExplanation, IsHeldIn, IsLine, IsLongAnswer, IsHistoryOf, history_said, races_said};

use crate::question::{JsonQuestion, OrMemory, Question, Text};
use gr_explain::explain::explain;
use gr_json::held::why_json;
use gr_json::history::history_json;
use gr_json::race::{account_json, race_json};
use gr_json::races::races_json;
use gr_model::event::{EventId, Word};
use gr_model::traces::Traces;
use gr_places::sides::Sides;
use gr_plain::held::why_text;
use gr_plain::history::history_text;
use gr_plain::race::{account_text, race_text};
use gr_plain::races::races_text;
use gr_races::account::{Account, account_of};
use gr_races::by_kind::{RacesByKind, races_by_kind};
use gr_timeline::why::{WhyHeld, why_held};
use gr_timeline::word_history::{HistoryAnswer, word_history_of};
use std::alloc::{Allocator, Global};

/// Two events that race.
type Pair = (EventId, EventId);

/// The account of a racing pair; or how many accesses are held.
type LongAnswer<A = Global> = (Option<Account<A>>, usize);

/// The least racing pair of a word.
#[derive(Clone, Copy, Debug)]
pub struct LeastRace(pub Word);

/// The least racing pair of a word, with what its accesses are, what is between them, the cause, and the other races of the word; or how
/// many accesses to the word are held.
#[derive(Clone, Copy, Debug)]
pub struct LongRace(pub Word);

/// The history of a word.
#[derive(Clone, Copy, Debug)]
pub struct WordHistory(pub Word);

/// Why an event is held.
#[derive(Clone, Copy, Debug)]
pub struct HeldEvent(pub EventId);

/// The races of a launch by their kinds.
#[derive(Clone, Copy, Debug)]
pub struct Races {
    /// How many kinds are shown at most; `None` shows all.
    pub most: Option<u32>,
    /// Whether the cause of the races of each kind is shown.
    pub causes: bool,
}

impl<A: Allocator + Copy> Question<A> for LeastRace {
    type Answer = Option<Pair>;

    ghost is_answer = { λ q said launch pair. IsExplanation launch q.0 pair };

    ghost is_found = { λ q. IsRacyIn q.0 };

    ghost is_text = { λ q said. IsLine q.0 };

    fn answer(&self, alloc: A, launch: &Traces<A>, _: &Sides<'_>) -> OrMemory<Option<Pair>> {
        explain(alloc, launch, self.0)
    }

    fn found(&self, pair: &Option<Pair>) -> bool {
        pair.is_some()
    }

    fn text(&self, alloc: A, pair: &Option<Pair>, _: &Sides<'_>) -> Text<A> {
        race_text(alloc, self.0, *pair)
    }
}

impl JsonQuestion for LeastRace {
    ghost is_json = { λ q said launch. Renders (IsExplanation launch q.0) };

    fn json(&self, alloc: Global, pair: &Option<Pair>, _: &Sides<'_>) -> Text {
        race_json(alloc, self.0, *pair)
    }
}

impl<A: Allocator + Copy> Question<A> for LongRace {
    type Answer = LongAnswer<A>;

    ghost is_answer = { λ q said launch a. IsLongAnswer launch (place_number said.places) q.0 (option_map account_said a.0, a.1) };

    ghost is_found = { λ q. IsRacyIn q.0 };

    ghost is_text = { λ q said launch. Renders (IsLongAnswer launch (place_number said.places) q.0) };

    fn answer(&self, alloc: A, launch: &Traces<A>, sides: &Sides<'_>) -> OrMemory<LongAnswer<A>> {
        match account_of(alloc, launch, sides, self.0)? {
            None => Ok((None, word_history_of(alloc, launch, self.0)?.held)),
            Some(account) => Ok((Some(account), 0)),
        }
    }

    fn found(&self, answer: &LongAnswer<A>) -> bool {
        answer.0.is_some()
    }

    fn text(&self, alloc: A, answer: &LongAnswer<A>, sides: &Sides<'_>) -> Text<A> {
        account_text(alloc, sides, self.0, answer.0.as_ref(), answer.1)
    }
}

impl JsonQuestion for LongRace {
    ghost is_json = { λ q said launch. Renders (IsLongAnswer launch (place_number said.places) q.0) };

    fn json(&self, alloc: Global, answer: &LongAnswer, sides: &Sides<'_>) -> Text {
        account_json(alloc, sides, self.0, answer.0.as_ref(), answer.1)
    }
}

impl<A: Allocator + Copy> Question<A> for WordHistory {
    type Answer = HistoryAnswer<A>;

    ghost is_answer = { λ q said launch history. IsHistoryOf launch q.0 (history_said history) };

    ghost is_found = { λ q. IsRacyIn q.0 };

    ghost is_text = { λ q said launch. Renders (IsHistoryOf launch q.0) };

    fn answer(&self, alloc: A, launch: &Traces<A>, _: &Sides<'_>) -> OrMemory<HistoryAnswer<A>> {
        word_history_of(alloc, launch, self.0)
    }

    fn found(&self, history: &HistoryAnswer<A>) -> bool {
        history.racy
    }

    fn text(&self, alloc: A, history: &HistoryAnswer<A>, sides: &Sides<'_>) -> Text<A> {
        history_text(alloc, sides, self.0, history)
    }
}

impl JsonQuestion for WordHistory {
    ghost is_json = { λ q said launch. Renders (IsHistoryOf launch q.0) };

    fn json(&self, alloc: Global, history: &HistoryAnswer, sides: &Sides<'_>) -> Text {
        history_json(alloc, sides, self.0, history)
    }
}

impl<A: Allocator + Copy> Question<A> for HeldEvent {
    type Answer = WhyHeld<A>;

    ghost is_answer = { λ q said launch why. IsWhy launch q.0 (answer_of why) };

    ghost is_found = { λ q. IsHeldIn q.0 };

    ghost is_text = { λ q said launch. Renders (IsWhy launch q.0) };

    fn answer(&self, alloc: A, launch: &Traces<A>, _: &Sides<'_>) -> OrMemory<WhyHeld<A>> {
        why_held(alloc, launch, self.0)
    }

    fn found(&self, why: &WhyHeld<A>) -> bool {
        why.is_held()
    }

    fn text(&self, alloc: A, why: &WhyHeld<A>, _: &Sides<'_>) -> Text<A> {
        why_text(alloc, self.0, why)
    }
}

impl JsonQuestion for HeldEvent {
    ghost is_json = { λ q said launch. Renders (IsWhy launch q.0) };

    fn json(&self, alloc: Global, why: &WhyHeld, _: &Sides<'_>) -> Text {
        why_json(alloc, self.0, why)
    }
}

impl<A: Allocator + Copy> Question<A> for Races {
    type Answer = RacesByKind<A>;

    ghost is_answer = { λ q said launch found. AreRaces said q.causes launch (races_said found) };

    ghost is_found = { λ q. HasRace };

    ghost is_text = { λ q said launch. Renders (AreRaces said q.causes launch) };

    fn answer(&self, alloc: A, launch: &Traces<A>, sides: &Sides<'_>) -> OrMemory<RacesByKind<A>> {
        races_by_kind(alloc, launch, sides, self.causes)
    }

    fn found(&self, found: &RacesByKind<A>) -> bool {
        found.races > 0
    }

    fn text(&self, alloc: A, found: &RacesByKind<A>, sides: &Sides<'_>) -> Text<A> {
        races_text(alloc, sides, found, self.most)
    }
}

impl JsonQuestion for Races {
    ghost is_json = { λ q said launch. Renders (AreRaces said q.causes launch) };

    fn json(&self, alloc: Global, found: &RacesByKind, sides: &Sides<'_>) -> Text {
        races_json(alloc, sides, found, self.most)
    }
}
