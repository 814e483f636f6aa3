//! A summary of what the items of a group brought to one barrier instance. It says what the instance is, and why (docs/MODEL.md,
//! "Barriers").

ghost use Rattle.std.specs.Prelude.{◌≡◌, ◌↔◌, ◌+◌, ℕ, IsTrue, MatchOption};
ghost use Rattle.gr_model.specs.Prelude.{Arrivals, HasDivergenceCause, IsDivergentOf};
ghost use Rattle.gr_barriers.specs.Summaries.{IsStateOf, IsSummaryOf, NobodyCame};

use crate::instances::State;
use crate::mark::Mark;
use gr_model::report::DivergenceCause;

/// A summary of what the first items of a group brought to an instance.
#[derive(Clone, Copy, Debug)]
pub struct Summary {
    /// What the first item that has come brought, if one has come.
    mark: Option<Mark>,
    /// Whether an item has not come.
    lacks_one: bool,
    /// Whether one came from another site than the first.
    other_site: bool,
    /// Whether one came from another site, or with other flags, than the first.
    other_mark: bool,
}

impl Summary {
    /// The summary of no items.
    pub fn new() -> Summary
        ensures { (arrived : Arrivals) → IsSummaryOf 0 arrived result }
    {
        Summary {
            mark: None,
            lacks_one: false,
            other_site: false,
            other_mark: false,
        }
    }

    /// The summary with one item more, which brought this mark or has not come.
    pub fn adding(self, brought: Option<Mark>) -> Summary
        ensures { (n : ℕ) (arrived : Arrivals) → IsSummaryOf n arrived self → arrived n ≡ brought → IsSummaryOf (n + 1) arrived result }
    {
        let Some(mark) = brought else {
            return Summary {
                lacks_one: true,
                ..self
            };
        };
        let first = self.mark.unwrap_or(mark);
        Summary {
            mark: Some(first),
            lacks_one: self.lacks_one,
            other_site: self.other_site || !mark.is_at_site_of(first),
            other_mark: self.other_mark || !mark.is_same(first),
        }
    }

    /// Whether no item has come.
    pub fn is_empty(&self) -> bool
        ensures { (n : ℕ) (arrived : Arrivals) → IsSummaryOf n arrived self.now → IsTrue result ↔ NobodyCame n arrived }
    {
        self.mark.is_none()
    }

    /// Why the instance is divergent, or `None` where it is not, if these are all items of the group. Its stream may have ended.
    pub fn cause(&self, ended: bool) -> Option<DivergenceCause>
        ensures { (n : ℕ) (arrived : Arrivals) → IsSummaryOf n arrived self.now → MatchOption result (¬ IsDivergentOf ended n arrived) (HasDivergenceCause ended n arrived) }
    {
        if self.is_empty() {
            None
        } else if ended && self.lacks_one {
            Some(DivergenceCause::Missing)
        } else if self.other_site {
            Some(DivergenceCause::Site)
        } else if self.other_mark {
            Some(DivergenceCause::Flags)
        } else {
            None
        }
    }

    /// Whether the instance is divergent.
    pub fn is_divergent(&self, ended: bool) -> bool
        ensures { (n : ℕ) (arrived : Arrivals) → IsSummaryOf n arrived self.now → IsTrue result ↔ IsDivergentOf ended n arrived }
    {
        self.cause(ended).is_some()
    }

    /// The state of the instance, or `None` if no item has come to it.
    pub fn state(&self, ended: bool) -> Option<State>
        ensures { (n : ℕ) (arrived : Arrivals) → IsSummaryOf n arrived self.now → IsStateOf ended n arrived result }
    {
        if self.is_empty() {
            None
        } else if self.is_divergent(ended) {
            Some(State::Divergent)
        } else if self.lacks_one {
            Some(State::Waiting)
        } else {
            Some(State::Convergent)
        }
    }
}
