//! What a question about a launch is.

ghost use Rattle.std.specs.Prelude.{◌↔◌, ℕ, IfOk, IsTrue, List};
ghost use Rattle.gr_model.specs.Prelude.{Streams};
ghost use Rattle.gr_places.specs.Sides.{SidesSaid, sides_said};

use gr_model::memory::Memory;
use gr_model::traces::Traces;
use gr_places::sides::Sides;
use std::alloc::{Allocator, Global};

/// A value, unless memory runs out.
pub type OrMemory<T> = Result<T, Memory>;

/// A text, unless memory runs out.
pub type Text<A = Global> = Result<Vec<u8, A>, Memory>;

/// The answer about a launch: a text, and whether what the question looks for is found.
#[derive(Drop)]
pub(crate) struct Rendered<A: Allocator> {
    /// The text, whole.
    pub(crate) text: Vec<u8, A>,
    /// Whether what the question looks for is found.
    pub(crate) found: bool,
}

/// A question about a launch. Its answer is a value that can be written as text.
pub trait Question<A: Allocator> {
    /// What answers it.
    type Answer: Drop;

    // with what side files say, this value answers it about a launch
    ghost is_answer: { Self → SidesSaid → Streams → Self.Answer → Type 0 };

    // what it looks for is found in a launch
    ghost is_found: { Self → Streams → Type 0 };

    // with what side files say, this is a text of an answer about a launch
    ghost is_text: { Self → SidesSaid → Streams → List ℕ → Type 0 };

    /// The answer about a launch, with what side files say.
    fn answer(&self, alloc: A, launch: &Traces<A>, sides: &Sides<'_>) -> OrMemory<Self::Answer>
        ensures { IfOk result (λ answer. is_answer self.now (sides_said sides.now) launch.now answer) };

    /// Whether the answer says that what it looks for is found.
    fn found(&self, answer: &Self::Answer) -> bool
        ensures { (said : SidesSaid) (launch : Streams) → is_answer self.now said launch answer.now → IsTrue result ↔ is_found self.now launch };

    /// A text of an answer, with what side files say.
    fn text(&self, alloc: A, answer: &Self::Answer, sides: &Sides<'_>) -> Text<A>
        ensures { IfOk result (λ text. (launch : Streams) → is_answer self.now (sides_said sides.now) launch answer.now → is_text self.now (sides_said sides.now) launch text.items) };
}

/// A question whose answers can also be written as JSON.
pub trait JsonQuestion: Question<Global> {
    // with what side files say, this is JSON of an answer about a launch
    ghost is_json: { Self → SidesSaid → Streams → List ℕ → Type 0 };

    /// The JSON of an answer, with what side files say.
    fn json(&self, alloc: Global, answer: &Self::Answer, sides: &Sides<'_>) -> Text
        ensures { IfOk result (λ text. (launch : Streams) → Self.is_answer self.now (sides_said sides.now) launch answer.now → is_json self.now (sides_said sides.now) launch text.items) };
}

/// A question whose answer is written as JSON.
#[derive(Clone, Copy, Debug, Drop)]
pub struct InJson<Q>(pub Q);

impl<Q: JsonQuestion> Question<Global> for InJson<Q> {
    type Answer = Q::Answer;

    ghost is_answer = { λ q. Q.is_answer q.0 };

    ghost is_found = { λ q. Q.is_found q.0 };

    ghost is_text = { λ q. Q.is_json q.0 };

    fn answer(&self, alloc: Global, launch: &Traces, sides: &Sides<'_>) -> OrMemory<Q::Answer> {
        self.0.answer(alloc, launch, sides)
    }

    fn found(&self, answer: &Q::Answer) -> bool {
        self.0.found(answer)
    }

    fn text(&self, alloc: Global, answer: &Q::Answer, sides: &Sides<'_>) -> Text {
        self.0.json(alloc, answer, sides)
    }
}
