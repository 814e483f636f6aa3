//! The class of an access: all that a race test has to know of its kind.
//!
//! Orders are left out, since a race test has the clocks instead (docs/MODEL.md, "Classes of accesses").

ghost use Rattle.std.specs.Prelude.{◌≡◌};
ghost use Rattle.gr_model.specs.Classes as spec;

use crate::access::same_scope;
use crate::event::{Kind, Scope};

/// What an access does to its word, and how: plainly, or as an atomic access of a scope. An access that modifies may read too.
#[derive(Clone, Copy, Debug, PartialEq, Eq)]
pub enum Class {
    /// A plain read.
    PlainRead,
    /// A plain write.
    PlainWrite,
    /// An atomic load of work-group scope.
    GroupRead,
    /// An atomic store or read-modify-write of work-group scope.
    GroupModify,
    /// An atomic load of device scope.
    DeviceRead,
    /// An atomic store or read-modify-write of device scope.
    DeviceModify,
}

impl Class {
    /// Whether an access of this class modifies its word.
    pub fn modifies(self) -> bool
        ensures { result ≡ spec.class_modifies self }
    {
        match self {
            Class::PlainWrite | Class::GroupModify | Class::DeviceModify => true,
            Class::PlainRead | Class::GroupRead | Class::DeviceRead => false,
        }
    }

    /// The scope of an atomic access of this class, or `None` for a plain one.
    pub fn scope(self) -> Option<Scope>
        ensures { result ≡ spec.class_scope self }
    {
        match self {
            Class::PlainRead | Class::PlainWrite => None,
            Class::GroupRead | Class::GroupModify => Some(Scope::Group),
            Class::DeviceRead | Class::DeviceModify => Some(Scope::Device),
        }
    }
}

/// The class of an access of this kind, or `None` for a barrier and an end.
pub fn class_of(kind: &Kind) -> Option<Class>
    ensures { result ≡ spec.class_of kind.now }
{
    match kind {
        Kind::Read => Some(Class::PlainRead),
        Kind::Write => Some(Class::PlainWrite),
        Kind::Load(Scope::Group, _) => Some(Class::GroupRead),
        Kind::Load(Scope::Device, _) => Some(Class::DeviceRead),
        Kind::Store(Scope::Group, _) | Kind::Rmw(Scope::Group, _) => Some(Class::GroupModify),
        Kind::Store(Scope::Device, _) | Kind::Rmw(Scope::Device, _) => Some(Class::DeviceModify),
        Kind::Barrier { .. } | Kind::End { .. } => None,
    }
}

/// Whether two accesses of one word, each of its work-group, never race, whatever their clocks say: neither modifies
/// the word, or both are atomic with inclusive scope.
pub fn exempt(first: Class, first_group: u16, second: Class, second_group: u16) -> bool
    ensures { result ≡ spec.exempt first first_group second second_group }
{
    if !first.modifies() && !second.modifies() {
        return true;
    }
    same_scope(first.scope(), first_group, second.scope(), second_group)
}
