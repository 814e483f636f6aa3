//! What is answered where a growth is refused, for each growth in turn.

use crate::Refusing;
use gr_model::memory::Memory;
use std::alloc::Global;

/// More growths than any test has.
const MOST: u64 = 10_000;

/// What became of the growths of a test, each refused in turn.
#[derive(Clone, Copy, Debug, PartialEq, Eq)]
pub struct Growths {
    /// How many there are.
    pub refused: u64,
    /// How many of them made the answer "out of memory".
    pub told: u64,
}

/// Asks for an answer with each growth refused in turn, until none is refused. An answer says whether it is as wanted. "Out of memory" is
/// right as well where a growth was refused. The error is the number of the first growth with a wrong answer, or how many growths there
/// are, where these are less than `least`: then too little was tried.
pub fn refuse_each<'a, F: Fn(&'a Refusing<Global>) -> Result<bool, Memory>>(
    alloc: Global,
    least: u64,
    answer: F,
) -> Result<Growths, u64>
    requires { F.IsAlwaysCallable answer }
{
    let mut told = 0_u64;
    for at in 0..MOST {
        let heap = Box::new(alloc, Refusing::new(alloc, at)).map_err(|_| at)?;
        let heap: &'a Refusing<Global> = Box::leak(heap);
        match answer(heap) {
            Ok(true) => {}
            Err(Memory) if heap.refused() => told = told.saturating_add(1),
            _ => return Err(at),
        }
        if !heap.refused() {
            return if at < least {
                Err(at)
            } else {
                Ok(Growths { refused: at, told })
            };
        }
    }
    Err(MOST)
}

/// The answer of a call, tried twice: a try without memory must change nothing of the state, and then the second try counts.
pub fn tried<V, S: PartialEq + Drop, T, G: Fn(&V) -> S, F: Fn(&mut V) -> Result<T, Memory>>(
    subject: &mut V,
    state: G,
    call: F,
) -> Option<T>
    requires state { G.IsAlwaysCallable state }
    requires call { F.IsAlwaysCallable call }
{
    let before = state(subject);
    match call(subject) {
        Ok(answer) => Some(answer),
        Err(Memory) if state(subject) == before => call(subject).ok(),
        Err(Memory) => None,
    }
}
