//! From the bytes of streams to another form of the same streams: their text, or their bytes upgraded.

ghost use Rattle.std.specs.Prelude.{◌≡◌, ◌≤◌, ◌++◌, IfErr, IfOk, OnOk, length, option_map};
ghost use Rattle.std.specs.List.{flat_map};
ghost use Rattle.gr_record.specs.Prelude.{Gives, IsOfValues, records_of, all_sited, IsHeader, places};
ghost use Rattle.gr_text.specs.Prelude.{IsLine, MOST_ITEMS_OF_A_GROUP, MOST_RECORDS, behind_end, whole_line, raised, upgraded_header, formed_header, formed_event, formed_of, stream_at, with_stream};
ghost use Rattle.gr_model.specs.Prelude.{IsEventOk};

use crate::line::{Line, SitedLine};
use crate::line_text::sited_line_text;
use crate::packing::{push_header, push_record};
use gr_model::event::Event;
use gr_model::limits::MOST_RECORDS;
use gr_model::memory::Memory;
use gr_record::fault::Fault;
use gr_record::header::{Header, Version};
use gr_record::reading::{read_event, site_of};
use gr_record::stream::{read_front_header, skip_front_records};
use std::alloc::Allocator;

/// A form in which streams are written.
#[derive(Clone, Copy, Debug, PartialEq, Eq)]
pub enum Form {
    /// Their text.
    Text,
    /// Their bytes, where those of version 1 become streams of version 2.
    Long,
}

/// Adds a line and its line feed.
fn push_line<A: Allocator + Copy>(
    alloc: A,
    text: &mut Vec<u8, A>,
    line: &SitedLine,
) -> Result<(), Memory>
    requires { IsLine line.now.line }
    ensures { OnOk result (text.new.items ≡ text.old.items ++ whole_line line.now) }
{
    let line = sited_line_text(alloc, line)?;
    text.extend_from_slice(line.as_bytes())?;
    text.push(b'\n')?;
    Ok(())
}

/// The version that a stream of this one is upgraded to: version 2 for version 1, and no other for the rest.
fn raise(version: Version) -> Version
    ensures version { result ≡ raised version }
    ensures room { places version ≤ places result }
{
    match version {
        Version::One => Version::Two,
        Version::Two | Version::Three | Version::Four => version,
    }
}

/// The header of the same stream, upgraded.
fn upgrade_header(header: Header) -> Header
    ensures { result ≡ upgraded_header header }
{
    Header {
        version: raise(header.version),
        ..header
    }
}

/// Adds a header in a form.
pub(crate) fn push_first<A: Allocator + Copy>(
    alloc: A,
    form: Form,
    output: &mut Vec<u8, A>,
    header: Header,
) -> Result<(), Memory>
    requires { IsHeader header }
    ensures { OnOk result (output.new.items ≡ output.old.items ++ formed_header form header) }
{
    match form {
        Form::Text => {
            let line = Line::Header(header);
            push_line(alloc, output, &SitedLine { line, site: 0 })
        }
        Form::Long => push_header(output, &upgrade_header(header)),
    }
}

/// Adds a record of this site, of a stream of this version, in a form.
fn push_event<A: Allocator + Copy>(
    alloc: A,
    form: Form,
    version: Version,
    output: &mut Vec<u8, A>,
    event: &Event,
    site: u16,
) -> Result<(), Memory>
    requires { IsEventOk event.now MOST_ITEMS_OF_A_GROUP × (length event.now.names ≤ places version) }
    ensures { OnOk result (output.new.items ≡ output.old.items ++ formed_event form version (record { event = event.now; site = site })) }
{
    match form {
        Form::Text => {
            let line = Line::Event(*event);
            push_line(alloc, output, &SitedLine { line, site })
        }
        Form::Long => push_record(output, raise(version), event, site),
    }
}

/// Adds in a form the records at the start of the bytes, in the stream of this header, up to its end or to the first that is
/// refused. Returns the bytes after the end, if there is one.
#[tactic(auto, using(gr_record::proofs::Loop::loop_steps, crate::proofs::Steps::record_steps))]
pub(crate) fn push_records<'a, A: Allocator + Copy>(
    alloc: A,
    form: Form,
    output: &mut Vec<u8, A>,
    header: Header,
    bytes: &'a [u8],
) -> Result<Option<&'a [u8]>, Memory>
    requires { IsHeader header }
    ensures records { OnOk result (output.new.items ≡ output.old.items ++ flat_map (formed_event form header.version) (all_sited header.version (records_of header MOST_RECORDS bytes.now).events bytes.now)) }
    ensures rest { IfOk result (λ rest. option_map (λ s. s.now) rest ≡ behind_end (records_of header MOST_RECORDS bytes.now).stop (records_of header MOST_RECORDS bytes.now).rest) }
{
    let size = header.version.record_length();
    let mut rest = bytes;
    for _ in 0..MOST_RECORDS {
        if rest.len() < size {
            return Ok(None);
        }
        let (record, after) = rest.split_at(size);
        let Ok(event) = read_event(header, record) else {
            return Ok(None);
        };
        let is_end = event.kind.is_end();
        let site = site_of(header.version, record);
        push_event(alloc, form, header.version, output, &event, site)?;
        if is_end {
            return Ok(Some(after));
        }
        rest = after;
    }
    Ok(None)
}

/// Adds in a form the stream at the start of the bytes, whose place in the input is this, and returns the bytes after it.
#[tactic(auto, unfolding(crate::specs::Dumps::stream_at, gr_record::specs::WholeStreams::front_records_at))]
fn push_stream<'a, A: Allocator + Copy>(
    alloc: A,
    form: Form,
    output: &mut Vec<u8, A>,
    place: u64,
    bytes: &'a [u8],
) -> Result<&'a [u8], Fault>
    ensures exact { Gives (λ rest. (output.new.items, rest.now)) result (with_stream form output.old.items (stream_at place bytes.now)) }
    ensures values { IfErr result IsOfValues }
{
    let (header, records) = match read_front_header(bytes) {
        Ok(found) => found,
        Err(error) => return Err(Fault::of_stream(place, error)),
    };
    push_first(alloc, form, output, header)?;
    if let Some(rest) = push_records(alloc, form, output, header, records)? {
        return Ok(rest);
    }
    skip_front_records(header, records).map_err(|error| Fault::of_stream(place, error))
}

/// The streams in the bytes, one after another, in a form. The groups and launch numbers of different streams
/// are not compared.
///
/// # Errors
/// `Stream` with the place of the first stream that has a fault, from 0, and that fault; `Memory` if an allocation is
/// refused.
#[tactic(auto, using(crate::proofs::Streaming::stream_steps), unfolding(crate::specs::Dumps::streams_at))]
pub fn formed_bytes<A: Allocator + Copy>(
    alloc: A,
    form: Form,
    bytes: &[u8],
) -> Result<Vec<u8, A>, Fault>
    ensures exact { Gives (λ v. v.items) result (formed_of form bytes.now) }
    ensures values { IfErr result IsOfValues }
{
    let mut output = Vec::new(alloc);
    let mut rest = bytes;
    for place in 0..bytes.len() {
        if rest.is_empty() {
            return Ok(output);
        }
        rest = push_stream(alloc, form, &mut output, place as u64, rest)?;
    }
    Ok(output)
}
