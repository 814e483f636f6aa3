//! Conflict, inclusive scope and synchronization of two accesses, by their kinds and words alone.
//!
//! The rules are those of the OpenCL 2.0 specification, section 3.3 (memory model), "conflict", "inclusive scope" and
//! "synchronizes-with". On a local word the scopes are compared as written (docs/MODEL.md, "Scopes").

ghost use Rattle.std.specs.Prelude.{◌≡◌, ◌↔◌, IsTrue};
ghost use Rattle.gr_model.specs.Access as model;
ghost use Rattle.gr_model.specs.Conflicts as spec;
ghost use Rattle.gr_model.specs.Conflicts.{PairsWith};

use crate::event::{Event, Kind, Scope, word_of};

/// Whether an event of this kind accesses memory.
fn is_access(kind: &Kind) -> bool
    ensures { result ≡ spec.is_access kind.now }
{
    !matches!(kind, Kind::Barrier { .. } | Kind::End { .. })
}

/// Whether an access of this kind modifies its word.
fn modifies(kind: &Kind) -> bool
    ensures { result ≡ model.modifies kind.now }
{
    matches!(kind, Kind::Write | Kind::Store(_, _) | Kind::Rmw(_, _))
}

/// Whether an event of this kind is a release.
fn is_release(kind: &Kind) -> bool
    ensures { result ≡ model.is_release_kind kind.now }
{
    match kind {
        Kind::Load(_, order) | Kind::Store(_, order) | Kind::Rmw(_, order) => order.releases(),
        Kind::Read | Kind::Write | Kind::Barrier { .. } | Kind::End { .. } => false,
    }
}

/// The scope of an atomic access.
fn scope_of(kind: &Kind) -> Option<Scope>
    ensures { result ≡ model.scope_of kind.now }
{
    match kind {
        Kind::Load(scope, _) | Kind::Store(scope, _) | Kind::Rmw(scope, _) => Some(*scope),
        Kind::Read | Kind::Write | Kind::Barrier { .. } | Kind::End { .. } => None,
    }
}

/// The scope of a release, or `None` for a kind that is no release.
pub fn release_scope(kind: &Kind) -> Option<Scope>
    ensures { result ≡ spec.release_scope kind.now }
{
    if is_release(kind) {
        scope_of(kind)
    } else {
        None
    }
}

/// Whether both accesses have a scope, the two scopes are the same, and work-group scopes are of one group. `None` is
/// the scope of a plain access.
pub(crate) fn same_scope(
    first: Option<Scope>,
    first_group: u16,
    second: Option<Scope>,
    second_group: u16,
) -> bool
    ensures { result ≡ model.same_scope first first_group second second_group }
{
    match (first, second) {
        (Some(Scope::Group), Some(Scope::Group)) => first_group == second_group,
        (Some(Scope::Device), Some(Scope::Device)) => true,
        (Some(Scope::Group), Some(Scope::Device)) => false,
        (Some(Scope::Device), Some(Scope::Group)) => false,
        (None, _) | (Some(_), None) => false,
    }
}

/// Whether two accesses of these kinds, each of its work-group, are both atomic with inclusive scope.
pub fn inclusive(first: &Kind, first_group: u16, second: &Kind, second_group: u16) -> bool
    ensures { result ≡ model.inclusive first.now first_group second.now second_group }
{
    same_scope(scope_of(first), first_group, scope_of(second), second_group)
}

/// Whether events of these two kinds both access memory and one of them modifies it. Whether they access one word, and
/// with what scope, is not looked at.
pub fn conflicts(first: &Kind, second: &Kind) -> bool
    ensures { result ≡ spec.conflicts first.now second.now }
{
    is_access(first) && is_access(second) && (modifies(first) || modifies(second))
}

/// Whether the first event is a release that synchronizes with the second if that takes its value. This is so if the first is a release,
/// the second an acquire, both are on one word, and they have inclusive scope. Each event is of the work-group beside it.
pub fn pairs_with(release: &Event, release_group: u16, acquire: &Event, acquire_group: u16) -> bool
    ensures { IsTrue result ↔ PairsWith release.now release_group acquire.now acquire_group }
{
    is_release(&release.kind)
        && acquire.kind.is_acquire()
        && word_of(release_group, release) == word_of(acquire_group, acquire)
        && inclusive(&release.kind, release_group, &acquire.kind, acquire_group)
}
