//! Facts of scopes, classes and conflicts.

use crate::launch::access;
use gr_model::access::{conflicts, inclusive, pairs_with};
use gr_model::class::{Class, class_of, exempt};
use gr_model::event::{Kind, Order, Scope, Space};

/// A load is of its scope though its order is relaxed.
#[test]
fn class_of_a_relaxed_load() {
    prove!(class_of(&Kind::Load(Scope::Group, Order::Relaxed)) == Some(Class::GroupRead));
}

/// One that modifies is enough.
#[test]
fn conflicts_of_a_write_and_a_read() {
    prove!(conflicts(&Kind::Write, &Kind::Read));
}

/// Atomic accesses of two groups' scopes are not exempt.
#[test]
fn exempt_of_two_groups() {
    prove!(!exempt(Class::GroupModify, 0, Class::GroupModify, 1));
}

/// Work-group scope does not include device scope.
#[test]
fn inclusive_of_group_and_device() {
    let store = Kind::Store(Scope::Group, Order::Release);
    let load = Kind::Load(Scope::Device, Order::Acquire);
    prove!(!inclusive(&store, 0, &load, 0));
}

/// Words of local memory of two groups are two.
#[test]
fn pairs_with_of_two_words() {
    let release = access(Kind::Store(Scope::Device, Order::Release), Space::Local);
    let acquire = access(Kind::Load(Scope::Device, Order::Acquire), Space::Local);
    prove!(!pairs_with(&release, 0, &acquire, 1));
}

/// A release of work-group scope and an acquire of device scope do not pair, though they are of one group.
#[test]
fn pairs_with_of_two_scopes() {
    let release = access(Kind::Store(Scope::Group, Order::Release), Space::Global);
    let acquire = access(Kind::Load(Scope::Device, Order::Acquire), Space::Global);
    prove!(!pairs_with(&release, 0, &acquire, 0));
}
