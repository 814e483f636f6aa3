//! Laws of the definitions. Each is the contract of a function that does nothing. docs/MODEL.md, "Laws", gives them in words.

ghost use Rattle.std.specs.Prelude.{◌≡◌, ◌*◌};
ghost use Rattle.gr_model.specs.Laws.{AcceptedAreComplete, PairsGoForwards, OrderGoesForwards, OrderStaysWithin, OrderIsGrounded, WaitsStay, StagesStay, OrderStays, CountsStay, HitsAreRaces, WholeHitsAreRaces, RacesStay, ReportIsOne};

use crate::limits::{
    FEW_GROUPS, FEW_ITEMS_OF_A_GROUP, MOST_GROUPS, MOST_ITEMS, MOST_ITEMS_OF_A_GROUP, MOST_NAMES,
    MOST_RECORDS,
};

/// The lists of a shape's groups are accepted exactly where they may have come and are complete.
pub fn accepted_lists_are_complete()
    ensures { AcceptedAreComplete }
{}

/// In a lawful order base pairs go forwards, and so does the happens-before of each memory. What happens before an event of the order is in
/// the order too.
pub fn order_goes_forwards()
    ensures pairs { PairsGoForwards }
    ensures order { OrderGoesForwards }
    ensures within { OrderStaysWithin }
{}

/// Each event of a lawful order is grounded.
pub fn lawful_orders_are_grounded()
    ensures { OrderIsGrounded }
{}

/// What is known of a grounded event stays where lists that are not complete grow: what it waits for, its stage, what
/// happens before it, and its counts.
pub fn growth_changes_nothing()
    ensures waits { WaitsStay }
    ensures stages { StagesStay }
    ensures order { OrderStays }
    ensures counts { CountsStay }
{}

/// Along a lawful order, the words on which an event clashes with an earlier one are those that are racy within the
/// order. (It clashes if the two race unless they are ordered, and the earlier does not happen before it.) If the order
/// has all grounded events, these are the words that are racy among the grounded events.
pub fn hits_are_races()
    ensures within { HitsAreRaces }
    ensures whole { WholeHitsAreRaces }
{}

/// A word that is racy among the events of a lawful order is racy among the grounded events of all lists to which the
/// lists of this order grow. So a race that was found stays one.
pub fn nothing_is_taken_back()
    ensures { RacesStay }
{}

/// The lists alone determine the report: two reports of the same lists are equal.
pub fn lists_have_one_report()
    ensures { ReportIsOne }
{}

/// The limits, as docs/FORMATS.md and the README give them.
pub fn limits_are_those_of_the_formats()
    ensures groups { MOST_GROUPS ≡ 65535 }
    ensures items_of_a_group { MOST_ITEMS_OF_A_GROUP ≡ 1024 }
    ensures items { MOST_ITEMS ≡ MOST_GROUPS * MOST_ITEMS_OF_A_GROUP }
    ensures few_groups { FEW_GROUPS ≡ 64 }
    ensures few_items_of_a_group { FEW_ITEMS_OF_A_GROUP ≡ 256 }
    ensures records { MOST_RECORDS ≡ 16777216 }
    ensures names { MOST_NAMES ≡ 4 }
{}
