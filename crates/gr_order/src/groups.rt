//! The work-groups whose streams were cut.

ghost use Rattle.std.specs.Prelude.{◌<◌, ℕ, IfOk};
ghost use Rattle.gr_model.specs.Prelude.{Lists, IsCut};

use gr_lanes::lanes::Lanes;
use gr_model::memory::Memory;
use std::alloc::Allocator;

/// The groups whose streams were cut, ascending.
///
/// # Errors
/// `Memory`: out of memory.
pub fn cut<A: Allocator, B: Allocator>(alloc: A, lanes: &Lanes<B>) -> Result<Vec<u16, A>, Memory>
    ensures { IfOk result (λ v. Lists (λ (g h : ℕ). g < h) (IsCut lanes.now.streams) v.items) }
{
    let mut groups = Vec::new(alloc);
    for group in 0..lanes.shape().groups() {
        if lanes.is_cut(group) {
            groups.push(group)?;
        }
    }
    Ok(groups)
}
