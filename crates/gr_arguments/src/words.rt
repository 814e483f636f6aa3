//! The word of memory and the event that a command line names.

ghost use Rattle.std.specs.Prelude.{ℕ, MatchOption};
ghost use Rattle.gr_model.specs.declared.event.EventId.{EventId as AnyEvent};
ghost use Rattle.gr_model.specs.declared.event.Word.{Word as AnyWord};
ghost use Rattle.gr_arguments.specs.Naming.{IsGroupOf, IsNumber, IsShortNumber, Names, NamesEvent};

use gr_model::event::{EventId, ItemId, Word};
use gr_model::limits::MOST_GROUPS;

/// The number below 2^32 in decimal digits, without a sign. Leading zeros are allowed.
pub fn number_of(text: &str) -> Option<u32>
    ensures { MatchOption result ((n : ℕ) → ¬ IsNumber text.now n) (λ n. IsNumber text.now n) }
{
    if text.as_bytes().first() == Some(&b'+') {
        return None;
    }
    text.parse::<u32>().ok()
}

/// The group of a space of local memory: `l` and the group's number, from 0 to 65534.
pub fn group_of(space: &str) -> Option<u16>
    ensures { MatchOption result ((g : ℕ) → ¬ IsGroupOf space.now g) (λ g. IsGroupOf space.now g) }
{
    let group = short_of(space.strip_prefix('l')?)?;
    (usize::from(group) < MOST_GROUPS).then_some(group)
}

/// The word that a space, `g` or `l` with a group from 0 to 65534 as in `l3`, and a number name.
pub fn word_named(space: &str, number: &str) -> Option<Word>
    ensures { MatchOption result ((w : AnyWord) → ¬ Names space.now number.now w) (λ w. Names space.now number.now w) }
{
    let number = number_of(number)?;
    if space == "g" {
        return Some(Word::Global(number));
    }
    Some(Word::Local(group_of(space)?, number))
}

/// The number below 2^16, in the same form.
fn short_of(text: &str) -> Option<u16>
    ensures { MatchOption result ((n : ℕ) → ¬ IsShortNumber text.now n) (λ n. IsShortNumber text.now n) }
{
    u16::try_from(number_of(text)?).ok()
}

/// The event of this group, item and index: numbers in decimal digits, the first two below 2^16 and the third below 2^32.
pub fn event_named(group: &str, item: &str, index: &str) -> Option<EventId>
    ensures { MatchOption result ((e : AnyEvent) → ¬ NamesEvent group.now item.now index.now e) (λ e. NamesEvent group.now item.now index.now e) }
{
    let group = short_of(group)?;
    let item = short_of(item)?;
    let index = number_of(index)?;
    Some(EventId {
        at: ItemId { group, item },
        index,
    })
}
