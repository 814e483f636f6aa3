//! The streams of a reader, taken as they come.

ghost use Rattle.std.specs.Prelude.{[], ◌≡◌, ◌++◌, ◌<◌, ℕ, List, Option, IfErr, IfOk, IfSome, None, Ok, OnOk, length};
ghost use Rattle.std.specs.Io.KnownBytes.{Consumes, IsAtEnd};
ghost use Rattle.gr_record.specs.Prelude.{Fails, IsOfReading, IsOfValues};
ghost use Rattle.gr_intake.specs.Intakes.{IsBetween, IsIntake, IsNew, Moves, behind, streams_in, unit_of};
ghost use Rattle.gr_intake.specs.Joined.{joined_of};

use gr_intake::intake::Intake;
use gr_model::memory::Memory;
use gr_record::fault::Fault;
use std::alloc::Allocator;
use std::io::Read;

/// How often a reader is asked for bytes, at most.
const MOST_READS: u64 = 4_294_967_296;

/// How many bytes are asked for at once.
const PIECE_LENGTH: usize = 65_536;

/// Adds bytes to those that are held.
fn keep<A: Allocator>(held: &mut Vec<u8, A>, piece: &[u8]) -> Result<(), Memory>
    ensures { OnOk result (held.new.items ≡ held.old.items ++ piece.now) }
{
    held.extend_from_slice(piece)?;
    Ok(())
}

/// A copy of the bytes that are left.
fn copy_of<A: Allocator>(alloc: A, left: &[u8]) -> Result<Vec<u8, A>, Memory>
    ensures { IfOk result (λ v. v.items ≡ left.now) }
{
    let copy = Vec::from_slice(alloc, left)?;
    Ok(copy)
}

/// Reads a piece, adds it to the bytes that are held, and returns its length.
///
/// # Errors
/// `Read`: the reader failed. `Memory`: out of memory.
fn read_piece<A: Allocator, T: Read>(
    reader: &mut T,
    piece: &mut [u8; PIECE_LENGTH],
    held: &mut Vec<u8, A>,
) -> Result<usize, Fault>
    ensures comes { IfOk result (λ n. (bytes : List ℕ) × Consumes (T.remaining reader.old) (T.remaining reader.new) bytes × (held.new.items ≡ held.old.items ++ bytes) × (n ≡ 0 → (bytes ≡ []) × IsAtEnd (T.remaining reader.new))) }
    ensures fault { IfErr result (λ f. (known : Option (List ℕ)) → IfSome known (λ bytes. Fails f (joined_of bytes))) }
    ensures reading { IfErr result IsOfReading }
{
    let Ok(count) = reader.read(piece) else {
        return Err(Fault::Read);
    };
    keep(held, &piece[..count])?;
    Ok(count)
}

/// Takes all headers and records that lie whole in the bytes that are held, and holds those that are left.
///
/// # Errors
/// The first fault from the left; `Memory`: out of memory.
fn take_held<A: Allocator + Copy>(
    alloc: A,
    intake: &mut Intake<A>,
    held: &mut Vec<u8, A>,
) -> Result<(), Fault>
    requires { IsIntake intake.old }
    ensures moves { OnOk result (Moves intake.old held.old.items intake.new held.new.items) }
    ensures short { OnOk result (length held.new.items < unit_of intake.new) }
    ensures fault { IfErr result (λ f. (more : List ℕ) → Fails f (behind intake.old (held.old.items ++ more))) }
    ensures values { IfErr result IsOfValues }
{
    let left = intake.take(alloc, held.as_slice())?;
    let kept = copy_of(alloc, left)?;
    *held = kept;
    Ok(())
}

/// Reads streams to their end, and takes their records as they come. It holds at most a piece of the input, and what waits.
///
/// # Errors
/// The first fault of the streams from the left, as soon as it is met; `Read` where the reader fails before, or gives no end
/// within 4,294,967,296 calls; `Memory`: out of memory.
pub(crate) fn take_input<A: Allocator + Copy, T: Read>(
    alloc: A,
    reader: &mut T,
    intake: &mut Intake<A>,
) -> Result<(), Fault>
    requires intake { IsIntake intake.old }
    requires nothing { IsNew intake.old }
    ensures intake { OnOk result (IsIntake intake.new) }
    ensures whole { OnOk result (IsBetween intake.new) }
    ensures exact { OnOk result (IfSome (T.remaining reader.old) (λ bytes. joined_of bytes ≡ Ok (streams_in intake.new))) }
    ensures fault { IfErr result (λ f. IfSome (T.remaining reader.old) (λ bytes. Fails f (joined_of bytes))) }
    ensures reading { IfErr result IsOfReading }
{
    let mut held = Vec::new(alloc);
    let mut piece = [0u8; PIECE_LENGTH];
    for _ in 0..MOST_READS {
        let count = read_piece(reader, &mut piece, &mut held)?;
        if count == 0 {
            return intake.finish(held.as_slice());
        }
        take_held(alloc, intake, &mut held)?;
    }
    Err(Fault::Read)
}
