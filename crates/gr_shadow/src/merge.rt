//! The union of two lists of words.

ghost use Rattle.std.specs.Prelude.{◌⊎◌, IfOk, Contains};
ghost use Rattle.gr_model.specs.Prelude.{Lists, WordBelow};

use gr_model::event::Word;
use gr_model::memory::Memory;
use gr_model::words::order_words;
use std::alloc::Allocator;

/// The words of two lists in ascending order, each once. The lists may be in any order, and have repeats.
///
/// # Errors
/// `Memory` if an allocation is refused.
pub fn merge<A: Allocator>(
    alloc: A,
    first: &[Word],
    second: &[Word],
) -> Result<Vec<Word, A>, Memory>
    ensures { IfOk result (λ words. Lists WordBelow (λ w. Contains first.now w ⊎ Contains second.now w) words.items) }
{
    let mut words = Vec::new(alloc);
    words.extend_from_slice(first)?;
    words.extend_from_slice(second)?;
    order_words(&mut words);
    Ok(words)
}
