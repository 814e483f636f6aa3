//! From bytes that may have a fault to the text of the headers and records before it.

ghost use Rattle.std.specs.Prelude.{◌≡◌, ◌≢◌, ◌++◌, IfOk, IfSome, IsOk, MatchOption, OnOk, Err, option_map};
ghost use Rattle.std.specs.List.{flat_map};
ghost use Rattle.gr_record.specs.Prelude.{IsOutside};
ghost use Rattle.gr_record.specs.declared.fault.Fault.TheVariants as faults;
ghost use Rattle.gr_text.specs.Prelude.{whole_line, dumped, front_at, text_before_fault as text_before};

use crate::forming::{Form, formed_bytes, push_first, push_records};
use gr_model::memory::Memory;
use gr_record::fault::Fault;
use gr_record::stream::read_front_header;
use std::alloc::Allocator;

/// Adds the lines of the stream at the start of the bytes, header and records, up to its first fault. Returns the bytes after
/// the stream's end, if there is one.
#[tactic(auto, using(crate::proofs::Streaming::stream_steps))]
fn push_front<'a, A: Allocator + Copy>(
    alloc: A,
    text: &mut Vec<u8, A>,
    bytes: &'a [u8],
) -> Result<Option<&'a [u8]>, Memory>
    ensures text { OnOk result (text.new.items ≡ text.old.items ++ flat_map whole_line (front_at bytes.now).lines) }
    ensures rest { IfOk result (λ rest. option_map (λ s. s.now) rest ≡ (front_at bytes.now).behind) }
{
    let Ok((header, records)) = read_front_header(bytes) else {
        return Ok(None);
    };
    push_first(alloc, Form::Text, text, header)?;
    push_records(alloc, Form::Text, text, header, records)
}

/// The text of the headers and records in the bytes before the first fault, or of all where there is none.
///
/// # Errors
/// `Memory` if an allocation is refused.
#[tactic(auto, using(crate::proofs::Streaming::stream_steps), unfolding(crate::specs::Partial::lines_before))]
pub fn text_before_fault<A: Allocator + Copy>(alloc: A, bytes: &[u8]) -> Result<Vec<u8, A>, Memory>
    ensures { IfOk result (λ text. text.items ≡ text_before bytes.now) }
{
    let mut text = Vec::new(alloc);
    let mut rest = bytes;
    for _ in 0..bytes.len() {
        let Some(behind) = push_front(alloc, &mut text, rest)? else {
            return Ok(text);
        };
        rest = behind;
    }
    Ok(text)
}

/// The text of the headers and records before the first fault, and that fault, if there is one.
#[tactic(auto, using(crate::proofs::PartialLaws::whole_streams_stand_whole))]
pub(crate) fn partial_text<A: Allocator + Copy>(
    alloc: A,
    bytes: &[u8],
) -> Result<(Vec<u8, A>, Option<Fault>), Memory>
    ensures text { IfOk result (λ x. x.0.items ≡ text_before bytes.now) }
    ensures fault { IfOk result (λ x. MatchOption x.1 (IsOk (dumped bytes.now)) (λ f. dumped bytes.now ≡ Err f)) }
    ensures inside { IfOk result (λ x. IfSome x.1 (λ f. ¬ IsOutside f × (f ≢ faults.Write))) }
{
    match formed_bytes(alloc, Form::Text, bytes) {
        Ok(text) => Ok((text, None)),
        Err(Fault::Memory) => Err(Memory),
        Err(fault) => Ok((text_before_fault(alloc, bytes)?, Some(fault))),
    }
}
