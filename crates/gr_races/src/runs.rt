//! Runs of words with consecutive numbers; and spans of other consecutive numbers that have one value.

ghost use Rattle.std.specs.Prelude.{◌≡◌, IfOk, map};
ghost use Rattle.gr_races.specs.Runs as spec;

use gr_model::event::Word;
use gr_model::memory::Memory;
use gr_model::race::Race;
use std::alloc::{AllocError, Allocator};

/// Words of one memory with consecutive numbers; if the memory is local, of one work-group.
#[derive(Clone, Copy, Debug)]
pub struct Run {
    /// The first word.
    pub first: Word,
    /// The number of the last word.
    pub last: u32,
}

/// The number of a word in its memory.
pub fn number_of(word: Word) -> u32
    ensures { result ≡ spec.number_of word }
{
    match word {
        Word::Global(number) | Word::Local(_, number) => number,
    }
}

impl Run {
    /// The run of one word.
    fn of(word: Word) -> Run
        ensures { result ≡ spec.run_of word }
    {
        Run {
            first: word,
            last: number_of(word),
        }
    }

    /// Whether a word comes directly after the run.
    fn goes_on(self, word: Word) -> bool
        ensures { result ≡ spec.goes_on self word }
    {
        match (self.first, word) {
            (Word::Global(_), Word::Global(number)) => self.last.checked_add(1) == Some(number),
            (Word::Local(group, _), Word::Local(other, number)) => {
                group == other && self.last.checked_add(1) == Some(number)
            }
            (Word::Global(_), Word::Local(_, _)) | (Word::Local(_, _), Word::Global(_)) => false,
        }
    }
}

/// The runs of the words of races, in their order.
pub(crate) fn runs_of<A: Allocator>(alloc: A, races: &[Race]) -> Result<Vec<Run, A>, Memory>
    ensures { IfOk result (λ runs. runs.items ≡ spec.runs_of (map (λ r. r.word) races.now)) }
{
    let mut runs = Vec::new(alloc);
    let Some((first, rest)) = races.split_first() else {
        return Ok(runs);
    };
    let mut run = Run::of(first.word);
    for race in rest {
        if run.goes_on(race.word) {
            run.last = number_of(race.word);
        } else {
            runs.push(run)?;
            run = Run::of(race.word);
        }
    }
    runs.push(run)?;
    Ok(runs)
}

/// Consecutive numbers that have one value.
#[derive(Clone, Copy, Debug)]
pub struct Span<T> {
    /// The first number.
    pub first: u32,
    /// The last number.
    pub last: u32,
    /// Their value.
    pub value: T,
}

/// The spans of items by the number and the value of each, which are made of its place and the item.
///
/// # Errors
/// `AllocError`: out of memory.
pub fn spans_of<A: Allocator, X, T: Copy + PartialEq, F: Fn(u32, &X) -> (u32, T)>(
    alloc: A,
    items: &[X],
    number_and_value: F,
) -> Result<Vec<Span<T>, A>, AllocError>
    requires { F.IsAlwaysCallable number_and_value }
{
    let mut spans: Vec<Span<T>, A> = Vec::new(alloc);
    for (place, item) in items.iter().enumerate() {
        let place = u32::try_from(place).unwrap_or(u32::MAX);
        let (first, value) = number_and_value(place, item);
        match spans.last_mut() {
            Some(span) if span.last.checked_add(1) == Some(first) && span.value == value => {
                span.last = first;
            }
            Some(_) | None => spans.push(Span {
                first,
                last: first,
                value,
            })?,
        }
    }
    Ok(spans)
}
