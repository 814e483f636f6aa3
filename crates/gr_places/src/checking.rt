//! Whether files that are opened by their names are the streams of a launch.

ghost use Rattle.std.specs.Prelude.{◌≡◌, ◌≢◌, IfErr, IfOk, map};
ghost use Rattle.std.specs.Fn.{FnReturnsAt};
ghost use Rattle.gr_record.specs.Prelude.{IsOutside, IsOfValues};
ghost use Rattle.gr_model.specs.Prelude.{AreAccepted};
ghost use Rattle.gr_replay.specs.Each.{IsEachFault, ReadsEach, inputs_of};
ghost use Rattle.gr_places.specs.Checked.{IsCheckFileFault, IsChecked, IsCheckedAsKnown, checked_said, is_accepted};
ghost use Rattle.gr_places.specs.Files.{HoldsOfFiles};

use crate::counts::{Counts, counts_of};
use crate::fault_places::{FaultPlace, place_of};
use crate::opening::open_all;
use gr_model::traces::Traces;
use gr_record::fault::Fault;
use gr_replay::each::{read_inputs, read_only_streams};
use gr_replay::launch::traces_of;
use std::alloc::Allocator;
use std::io::{self, Read};

/// The launch whose streams these inputs are, one each.
///
/// # Errors
/// The first fault of the inputs, in the order of docs/FORMATS.md, "Faults"; `Memory`.
fn launch_of<A: Allocator + Copy>(alloc: A, inputs: &[Vec<u8, A>]) -> Result<Traces<A>, Fault>
    ensures launch { IfOk result (λ t. ReadsEach (inputs_of inputs.now) t) }
    ensures accepted { IfOk result (λ t. AreAccepted t) }
    ensures fault { IfErr result (λ f. IsEachFault (inputs_of inputs.now) f) }
    ensures values { IfErr result IsOfValues }
{
    let streams = read_only_streams(alloc, inputs)?;
    traces_of(alloc, streams)
}

/// What comes of a check.
#[derive(Clone, Copy, Debug, PartialEq, Eq)]
pub enum Checked<'a> {
    /// The files are those of a launch.
    Accepted(Counts),
    /// They are not: the first fault, and what it is about.
    Refused { fault: Fault, place: FaultPlace<'a> },
}

impl Checked<'_> {
    /// Whether the files are those of a launch.
    pub fn is_accepted(&self) -> bool
        ensures { result ≡ is_accepted (checked_said self.now) }
    {
        matches!(self, Checked::Accepted(_))
    }
}

/// Judges inputs as streams of a launch, one each. They come from files of these names, in their order.
fn check<'a, A: Allocator + Copy>(
    alloc: A,
    names: &[&'a str],
    inputs: &[Vec<u8, A>],
) -> Result<Checked<'a>, Fault>
    ensures checked { IfOk result (λ c. IsChecked (map (λ s. s.now) names.now) (inputs_of inputs.now) (checked_said c)) }
    ensures fault { IfErr result IsOutside }
{
    match launch_of(alloc, inputs) {
        Ok(traces) => Ok(Checked::Accepted(counts_of(&traces))),
        Err(fault) if matches!(fault, Fault::Memory | Fault::Read) => Err(fault),
        Err(fault) => {
            let place = place_of(names, inputs, fault);
            Ok(Checked::Refused { fault, place })
        }
    }
}

/// Opens the files of these names, reads a stream from each, and says whether they are the streams of a launch.
///
/// # Errors
/// `Read` at the first file that can't be opened, before anything is read, and `Memory`; then `Read` if a file can't be read, or gives
/// no end within 4,294,967,296 calls, and `Memory`.
pub fn check_files<'a, A, T, O>(
    alloc: A,
    names: &[&'a str],
    opener: O,
) -> Result<Checked<'a>, Fault>
where
    A: Allocator + Copy,
    T: Read + Drop,
    O: Fn(&str) -> io::Result<T>,
    requires { O.IsAlwaysCallable opener }
    ensures checked { IfOk result (λ c. HoldsOfFiles T.remaining (FnReturnsAt O.Fn opener) (map (λ s. s.now) names.now) (λ known. IsCheckedAsKnown (map (λ s. s.now) names.now) known (checked_said c))) }
    ensures fault { IfErr result (λ f. IsCheckFileFault T.remaining (FnReturnsAt O.Fn opener) (map (λ s. s.now) names.now) f) }
    ensures reading { IfErr result (λ f. f ≢ Fault.Write) }
{
    let files = open_all(alloc, names, opener)?;
    let inputs = read_inputs(alloc, files)?;
    check(alloc, names, inputs.as_slice())
}
