//! Lists of words in their order.

ghost use Rattle.std.specs.Prelude.{Contains};
ghost use Rattle.gr_model.specs.Reports.{Lists, WordBelow};

use crate::event::Word;
use std::alloc::Allocator;

/// Puts words in ascending order, global ones first, each once. It takes no memory.
pub fn order_words<A: Allocator>(words: &mut Vec<Word, A>)
    ensures { Lists WordBelow (λ w. Contains words.old.items w) words.new.items }
{
    words.sort_unstable();
    words.dedup();
}
