//! Writing one header and one record.

ghost use Rattle.std.specs.Prelude.{◌≡◌, ◌≤◌, length};
ghost use Rattle.std.specs.List.{slice_get};
ghost use Rattle.gr_model.specs.Prelude.{IsEventOk};
ghost use Rattle.gr_record.specs.Prelude.{One, Two, Three, Four, unsited, IsHeader, header_spelling, event_spelling, kind_bytes, fields_bytes, place_bytes, space_byte, scope_byte, order_byte, bit, version_byte};

use crate::header::{Header, Version};
use crate::layout::{FIELDS_LENGTH, HEADER_LENGTH, LONG_RECORD_LENGTH, NAME_LENGTH, RECORD_LENGTH};
use byteorder::{ByteOrder, LittleEndian};
use gr_model::event::{Event, Kind, Name, Order, Scope, Space};
use gr_model::limits::MOST_ITEMS_OF_A_GROUP;

/// The fourth byte of a header, which gives the version.
fn byte_of_version(version: Version) -> u8
    ensures { result ≡ version_byte version }
{
    match version {
        Version::One => b'1',
        Version::Two => b'2',
        Version::Three => b'3',
        Version::Four => b'4',
    }
}

/// Writes the 12 bytes of a header (docs/FORMATS.md, "Stream").
/// Requires: the header is in range: `group` is below its version's `most_groups`, and `items` is 1 to its `most_items`.
pub fn encode_header(header: &Header, bytes: &mut [u8; HEADER_LENGTH])
    requires { IsHeader header.now }
    ensures { bytes.new ≡ header_spelling header.now }
{
    bytes[..4].copy_from_slice(&[b'G', b'R', b'T', byte_of_version(header.version)]);
    LittleEndian::write_u16(&mut bytes[4..], header.group);
    LittleEndian::write_u16(&mut bytes[6..], header.items);
    LittleEndian::write_u32(&mut bytes[8..], header.launch);
}

fn byte_of_space(space: Space) -> u8
    ensures { result ≡ space_byte space }
{
    match space {
        Space::Global => 0,
        Space::Local => 1,
    }
}

fn byte_of_scope(scope: Scope) -> u8
    ensures { result ≡ scope_byte scope }
{
    match scope {
        Scope::Group => 1,
        Scope::Device => 2,
    }
}

fn byte_of_order(order: Order) -> u8
    ensures { result ≡ order_byte order }
{
    match order {
        Order::Relaxed => 1,
        Order::Acquire => 2,
        Order::Release => 3,
        Order::Both => 4,
    }
}

/// The first four bytes of a record.
fn bytes_of_kind(kind: Kind, space: Space) -> [u8; 4]
    ensures { result ≡ kind_bytes kind space }
{
    let place = byte_of_space(space);
    match kind {
        Kind::Read => [0, place, 0, 0],
        Kind::Write => [1, place, 0, 0],
        Kind::Load(scope, order) => [2, place, byte_of_scope(scope), byte_of_order(order)],
        Kind::Store(scope, order) => [3, place, byte_of_scope(scope), byte_of_order(order)],
        Kind::Rmw(scope, order) => [4, place, byte_of_scope(scope), byte_of_order(order)],
        Kind::Barrier { global, local } => [5, u8::from(global) + 2 * u8::from(local), 0, 0],
        Kind::End { cut } => [6, u8::from(cut), 0, 0],
    }
}

/// The bytes of a record before its names.
fn bytes_of_fields(event: &Event, site: u16) -> [u8; FIELDS_LENGTH]
    ensures { result ≡ fields_bytes event.now site }
{
    let mut bytes = [0; FIELDS_LENGTH];
    bytes[..4].copy_from_slice(&bytes_of_kind(event.kind, event.space));
    LittleEndian::write_u16(&mut bytes[4..], event.item);
    LittleEndian::write_u16(&mut bytes[6..], site);
    LittleEndian::write_u32(&mut bytes[8..], event.word);
    bytes
}

/// The name at this place, if there is one.
fn name_at(names: &[Name], place: usize) -> Option<Name>
    ensures { result ≡ slice_get names.now place }
{
    names.get(place).copied()
}

/// Writes a name, or that there is none, into a place for one.
fn encode_name(name: Option<Name>, bytes: &mut [u8])
    requires { length bytes.old ≡ NAME_LENGTH }
    ensures { bytes.new ≡ place_bytes name }
{
    match name {
        None => LittleEndian::write_u64(bytes, u64::MAX),
        Some(name) => {
            LittleEndian::write_u16(bytes, name.at.group);
            LittleEndian::write_u16(&mut bytes[2..], name.at.item);
            LittleEndian::write_u32(&mut bytes[4..], name.release);
        }
    }
}

/// Writes the 20 bytes of a record of a stream of version 1 or 3 (docs/FORMATS.md, "Stream").
/// Requires: the record is in range: some group may have it, by `event_ok` with `MOST_ITEMS_OF_A_GROUP`. It has
/// at most one name.
///
/// # Example
/// ```rust
/// let event = Event { item: 0, kind: Kind::Write, space: Space::Global, word: 16, names: Names::none() };
/// if event_ok(&event, MOST_ITEMS_OF_A_GROUP) {
///     let mut bytes = [0; RECORD_LENGTH];
///     encode_event(&event, &mut bytes);
///     stream.extend_from_slice(&bytes)?;
/// }
/// ```
pub fn encode_event(event: &Event, bytes: &mut [u8; RECORD_LENGTH])
    requires range { IsEventOk event.now MOST_ITEMS_OF_A_GROUP }
    requires names { length event.now.names ≤ 1 }
    ensures { bytes.new ≡ event_spelling One (unsited event.now) }
{
    encode_sited(event, 0, bytes);
}

/// Writes the 20 bytes of a record of this site: of a stream of version 3, or of version 1 where the site is 0 (docs/FORMATS.md, "Stream").
/// Requires: the record is in range, as for `encode_event`.
pub fn encode_sited(event: &Event, site: u16, bytes: &mut [u8; RECORD_LENGTH])
    requires range { IsEventOk event.now MOST_ITEMS_OF_A_GROUP }
    requires names { length event.now.names ≤ 1 }
    ensures { bytes.new ≡ event_spelling Three (record { event = event.now; site = site }) }
{
    bytes[..12].copy_from_slice(&bytes_of_fields(event, site));
    encode_name(name_at(event.names.as_slice(), 0), &mut bytes[12..]);
}

/// Writes the 44 bytes of a record of a stream of version 2 or 4 (docs/FORMATS.md, "Stream").
/// Requires: the record is in range: some group may have it, by `event_ok` with `MOST_ITEMS_OF_A_GROUP`.
pub fn encode_event2(event: &Event, bytes: &mut [u8; LONG_RECORD_LENGTH])
    requires { IsEventOk event.now MOST_ITEMS_OF_A_GROUP }
    ensures { bytes.new ≡ event_spelling Two (unsited event.now) }
{
    encode_sited2(event, 0, bytes);
}

/// Writes the 44 bytes of a record of this site: of a stream of version 4, or of version 2 where the site is 0 (docs/FORMATS.md, "Stream").
/// Requires: the record is in range, as for `encode_event2`.
pub fn encode_sited2(event: &Event, site: u16, bytes: &mut [u8; LONG_RECORD_LENGTH])
    requires { IsEventOk event.now MOST_ITEMS_OF_A_GROUP }
    ensures { bytes.new ≡ event_spelling Four (record { event = event.now; site = site }) }
{
    let names = event.names.as_slice();
    bytes[..12].copy_from_slice(&bytes_of_fields(event, site));
    encode_name(name_at(names, 0), &mut bytes[12..20]);
    encode_name(name_at(names, 1), &mut bytes[20..28]);
    encode_name(name_at(names, 2), &mut bytes[28..36]);
    encode_name(name_at(names, 3), &mut bytes[36..]);
}
