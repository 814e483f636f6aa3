//! The words in texts and JSON for the parts of answers.

use crate::cause::Cause;
use crate::kinds::{Operation, operation_of};
use gr_model::event::{Kind, Order, Scope, Space, Word};
use gr_model::report::{AcquireCause, DivergenceCause};

/// The name of a memory.
pub fn space_name(space: Space) -> &'static str {
    match space {
        Space::Global => "global",
        Space::Local => "local",
    }
}

/// The name of what an access does.
pub fn operation_name(operation: Operation) -> &'static str {
    match operation {
        Operation::Read => "read",
        Operation::Write => "write",
        Operation::Load => "load",
        Operation::Store => "store",
        Operation::Rmw => "rmw",
    }
}

/// The name of what a record says, without its scope and its order.
pub fn kind_name(kind: Kind) -> &'static str {
    match operation_of(kind) {
        Some(operation) => operation_name(operation),
        None if kind.is_end() => "end",
        None => "barrier",
    }
}

/// The scope and the order of an atomic access, or `None` if the record is no atomic access.
pub fn atomic_of(kind: Kind) -> Option<(Scope, Order)> {
    match kind {
        Kind::Load(scope, order) | Kind::Store(scope, order) | Kind::Rmw(scope, order) => {
            Some((scope, order))
        }
        Kind::Read | Kind::Write | Kind::Barrier { .. } | Kind::End { .. } => None,
    }
}

/// The name of why an instance of barriers is divergent.
pub fn divergence_name(cause: DivergenceCause) -> &'static str {
    match cause {
        DivergenceCause::Missing => "missing",
        DivergenceCause::Site => "site",
        DivergenceCause::Flags => "flags",
    }
}

/// The name of why an acquire is unmatched.
pub fn acquire_name(cause: AcquireCause) -> &'static str {
    match cause {
        AcquireCause::Absent => "absent",
        AcquireCause::OtherWord => "otherword",
        AcquireCause::Behind => "behind",
    }
}

/// The name of a cause.
pub fn cause_name(cause: Cause) -> &'static str {
    match cause {
        Cause::Flags => "flags",
        Cause::Scope => "scope",
        Cause::Divergence => "divergent",
        Cause::NoBarrier => "no-barrier",
        Cause::NoHandOver => "no-hand-over",
    }
}

/// What would order the two accesses of a race on a word, of this cause.
pub fn cause_sentence(word: Word, cause: Cause) -> &'static str {
    match (cause, word) {
        (Cause::Flags, _) => {
            "if every barrier had CLK_LOCAL_MEM_FENCE | CLK_GLOBAL_MEM_FENCE, the two would be ordered"
        }
        (Cause::Scope, _) => "if every atomic had memory_scope_device, the two would not race",
        (Cause::Divergence, _) => {
            "a barrier between the two is divergent: an item never comes to it, or comes with another site or flags"
        }
        (Cause::NoBarrier, Word::Global(_)) => {
            "nothing orders the two; a barrier with CLK_GLOBAL_MEM_FENCE between them would"
        }
        (Cause::NoBarrier, Word::Local(_, _)) => {
            "nothing orders the two; a barrier with CLK_LOCAL_MEM_FENCE between them would"
        }
        (Cause::NoHandOver, _) => {
            "nothing orders the two; a release that an acquire takes, at memory_scope_device, would"
        }
    }
}
