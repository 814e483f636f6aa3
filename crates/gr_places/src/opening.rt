//! Files that are opened by their names.

ghost use Rattle.std.specs.Prelude.{◌≡◌, ◌⊎◌, IfErr, IfOk, map};
ghost use Rattle.std.specs.Fn.{FnReturnsAt};
ghost use Rattle.gr_places.specs.Files.{AreOpened, IsOpeningFault};

use crate::lines::keep;
use gr_record::fault::Fault;
use std::alloc::Allocator;
use std::io::{self, ErrorKind};

/// The fault of a file that can't be opened or read.
pub fn fault_of(error: &io::Error) -> Fault
    ensures { (result ≡ Fault.Memory) ⊎ (result ≡ Fault.Read) }
{
    if error.kind() == ErrorKind::OutOfMemory {
        Fault::Memory
    } else {
        Fault::Read
    }
}

/// Opens the files of these names, in their order.
///
/// # Errors
/// `Read` at the first that can't be opened; `Memory`.
#[tactic(auto, using(std::proofs::lemmas::List::take_all))]
pub fn open_all<A: Allocator, T: Drop, O: Fn(&str) -> io::Result<T>>(
    alloc: A,
    names: &[&str],
    opener: O,
) -> Result<Vec<T, A>, Fault>
    requires { O.IsAlwaysCallable opener }
    ensures opened { IfOk result (λ v. AreOpened (FnReturnsAt O.Fn opener) (map (λ s. s.now) names.now) v.items) }
    ensures fault { IfErr result (λ f. IsOpeningFault (FnReturnsAt O.Fn opener) (map (λ s. s.now) names.now) f) }
{
    let mut files = Vec::new(alloc);
    for name in names {
        match opener(name) {
            Ok(file) => keep(&mut files, file)?,
            Err(error) => return Err(fault_of(&error)),
        }
    }
    Ok(files)
}
