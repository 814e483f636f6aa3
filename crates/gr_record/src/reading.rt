//! Reading one header and one record.
//!
//! A record's fields are judged from the left, so that the first fault is returned (docs/FORMATS.md, "Faults of a whole
//! record").

ghost use Rattle.std.specs.Prelude.{◌≡◌, ◌≤◌, ◌*◌, ◌||◌, ◌==◌, IsTrue, None, Some, IfOk, if◌then◌else◌, [], length, take};
ghost use Rattle.gr_record.specs.Prelude.{IsHeader, has_sites, record_length, field, version_of, header_at, header_behind, is_field_ok, bad_field, site_at, space_of, scope_of, order_of, kind_of, space_at, are_unused, name_in, names_in, names_at, is_order_ok, naming, event_at};

use crate::error::RecordError;
use crate::header::{Header, Version};
use crate::layout::{FIELDS_LENGTH, HEADER_LENGTH, NAME_LENGTH, RECORD_LENGTH};
use byteorder::{ByteOrder, LittleEndian};
use gr_model::event::{Event, ItemId, Kind, Name, Order, Scope, Space};
use gr_model::limits::MOST_NAMES;
use gr_model::names::Names;

const READ: u8 = 0;

const WRITE: u8 = 1;

const LOAD: u8 = 2;

const STORE: u8 = 3;

const RMW: u8 = 4;

const BARRIER: u8 = 5;

const END: u8 = 6;

/// The name in the unused places of an array.
const UNUSED: Name = Name {
    at: ItemId { group: 0, item: 0 },
    release: 0,
};

/// The version of a stream that begins with these four bytes: `GRT1` to `GRT4`, each as one number.
fn read_version(magic: u32) -> Option<Version>
    ensures { result ≡ version_of magic }
{
    match magic {
        0x3154_5247 => Some(Version::One),
        0x3254_5247 => Some(Version::Two),
        0x3354_5247 => Some(Version::Three),
        0x3454_5247 => Some(Version::Four),
        _ => None,
    }
}

/// The header in these bytes, or its first fault.
#[tactic(auto, unfolding(crate::specs::Reading::header_at))]
pub(crate) fn read_header(bytes: &[u8]) -> Result<Header, RecordError>
    requires { HEADER_LENGTH ≤ length bytes.now }
    ensures exact { result ≡ header_at bytes.now }
    ensures range { IfOk result IsHeader }
{
    let Some(version) = read_version(LittleEndian::read_u32(bytes)) else {
        return Err(RecordError::BadMagic);
    };
    read_launch(version, bytes)
}

/// The header of this version in these bytes, or its fault.
fn read_launch(version: Version, bytes: &[u8]) -> Result<Header, RecordError>
    requires { HEADER_LENGTH ≤ length bytes.now }
    ensures exact { result ≡ header_behind (Some version) bytes.now }
    ensures range { IfOk result IsHeader }
{
    let group = LittleEndian::read_u16(&bytes[4..]);
    let items = LittleEndian::read_u16(&bytes[6..]);
    let launch = LittleEndian::read_u32(&bytes[8..]);
    if usize::from(group) >= version.most_groups() || items == 0 || items > version.most_items() {
        return Err(RecordError::BadHeader);
    }
    Ok(Header {
        version,
        group,
        items,
        launch,
    })
}

/// Whether a record of this version and kind may have this byte at a place from 1 to 11.
fn may_stand(version: Version, kind: u8, place: usize, byte: u8) -> bool
    ensures { result ≡ is_field_ok version kind place byte }
{
    match (place, kind) {
        (1, BARRIER) => byte < 4,
        (1, _) => byte < 2,
        (2, LOAD | STORE | RMW) => byte == 1 || byte == 2,
        (3, LOAD | STORE | RMW) => 1 <= byte && byte <= 4,
        (2 | 3, _) => byte == 0,
        (6 | 7, _) => byte == 0 || version.has_sites(),
        _ => kind != END || byte == 0,
    }
}

/// Whether a record of this version may have its bytes 6 and 7. Nearly all records have no site, so this is tested first.
#[inline(always)]
fn has_good_site(version: Version, bytes: &[u8]) -> bool
    requires { RECORD_LENGTH ≤ length bytes.now }
    ensures { result ≡ (field 6 2 bytes.now == 0) || has_sites version }
{
    LittleEndian::read_u16(&bytes[6..]) == 0 || version.has_sites()
}

/// Whether this is no end and each byte from 1 to 11 is good, as in nearly all records.
#[tactic(auto, using(crate::proofs::Fields::no_bad_field, std::proofs::lemmas::Bool::Decides::nat_tests))]
fn has_good_fields(version: Version, bytes: &[u8]) -> bool
    requires { RECORD_LENGTH ≤ length bytes.now }
    ensures { IsTrue result → bad_field version bytes.now ≡ None }
{
    let kind = bytes[0];
    kind != END
        && may_stand(version, kind, 1, bytes[1])
        && may_stand(version, kind, 2, bytes[2])
        && may_stand(version, kind, 3, bytes[3])
        && has_good_site(version, bytes)
}

/// The place of the first bad byte, found place by place.
#[cold]
#[tactic(auto, using(crate::proofs::Numbers::one_left), unfolding(crate::specs::Reading::bad_field_from))]
fn find_bad_field(version: Version, bytes: &[u8]) -> Option<u8>
    requires { RECORD_LENGTH ≤ length bytes.now }
    ensures { result ≡ bad_field version bytes.now }
{
    let kind = bytes[0];
    for place in 1..12 {
        if !may_stand(version, kind, place, bytes[place]) {
            return Some(place as u8);
        }
    }
    None
}

/// The place of the first bad byte.
#[inline(always)]
fn first_bad_field(version: Version, bytes: &[u8]) -> Option<u8>
    requires { RECORD_LENGTH ≤ length bytes.now }
    ensures { result ≡ bad_field version bytes.now }
{
    if has_good_fields(version, bytes) {
        None
    } else {
        find_bad_field(version, bytes)
    }
}

fn read_space(byte: u8) -> Space
    ensures { result ≡ space_of byte }
{
    match byte {
        1 => Space::Local,
        _ => Space::Global,
    }
}

fn read_scope(byte: u8) -> Scope
    ensures { result ≡ scope_of byte }
{
    match byte {
        1 => Scope::Group,
        _ => Scope::Device,
    }
}

fn read_order(byte: u8) -> Order
    ensures { result ≡ order_of byte }
{
    match byte {
        1 => Order::Relaxed,
        2 => Order::Acquire,
        3 => Order::Release,
        _ => Order::Both,
    }
}

/// The kind that the first four bytes say.
#[tactic(auto, unfolding(crate::specs::Reading::kind_of))]
fn read_kind(bytes: &[u8]) -> Kind
    requires { RECORD_LENGTH ≤ length bytes.now }
    ensures { result ≡ kind_of bytes.now }
{
    let flag = bytes[1];
    match bytes[0] {
        READ => Kind::Read,
        WRITE => Kind::Write,
        LOAD => Kind::Load(read_scope(bytes[2]), read_order(bytes[3])),
        STORE => Kind::Store(read_scope(bytes[2]), read_order(bytes[3])),
        RMW => Kind::Rmw(read_scope(bytes[2]), read_order(bytes[3])),
        BARRIER => Kind::Barrier {
            global: flag == 1 || flag == 3,
            local: flag == 2 || flag == 3,
        },
        _ => Kind::End { cut: flag == 1 },
    }
}

/// The memory of an access; `Global` for a barrier and an end.
#[tactic(auto, unfolding(crate::specs::Reading::space_at))]
fn space_in(bytes: &[u8]) -> Space
    requires { RECORD_LENGTH ≤ length bytes.now }
    ensures { result ≡ space_at bytes.now }
{
    if bytes[0] < BARRIER {
        read_space(bytes[1])
    } else {
        Space::Global
    }
}

/// Whether the first `count` places for names are unused.
#[tactic(auto, unfolding(crate::specs::Reading::are_unused))]
fn are_unused(bytes: &[u8], count: usize) -> bool
    requires { NAME_LENGTH * count ≤ length bytes.now }
    ensures { result ≡ are_unused count bytes.now }
{
    let mut rest = bytes;
    for _ in 0..count {
        if LittleEndian::read_u64(rest) != u64::MAX {
            return false;
        }
        rest = &rest[NAME_LENGTH..];
    }
    true
}

/// The name in the first place.
#[tactic(auto, unfolding(crate::specs::Reading::name_in))]
fn read_name(bytes: &[u8]) -> Name
    requires { NAME_LENGTH ≤ length bytes.now }
    ensures { result ≡ name_in bytes.now }
{
    let group = LittleEndian::read_u16(bytes);
    let item = LittleEndian::read_u16(&bytes[2..]);
    let release = LittleEndian::read_u32(&bytes[4..]);
    Name {
        at: ItemId { group, item },
        release,
    }
}

/// What the first `count` places have, up to those that are unused, and how many places those before them are.
#[tactic(auto, using(crate::proofs::Places::names_none), unfolding(crate::specs::Reading::names_in))]
fn read_names(bytes: &[u8], count: usize) -> ([Name; MOST_NAMES], usize)
    requires places { NAME_LENGTH * count ≤ length bytes.now }
    requires few { count ≤ MOST_NAMES }
    ensures few { result.1 ≤ MOST_NAMES }
    ensures names { take result.1 result.0 ≡ names_in count bytes.now }
{
    let mut names = [UNUSED; MOST_NAMES];
    let mut rest = bytes;
    for place in 0..count {
        if are_unused(rest, count - place) {
            return (names, place);
        }
        names[place] = read_name(rest);
        rest = &rest[NAME_LENGTH..];
    }
    (names, count)
}

/// Whether a record of this kind may have its order: a load does not release, and a store does not acquire.
pub fn order_fits(kind: Kind) -> bool
    ensures { result ≡ is_order_ok kind }
{
    match kind {
        Kind::Load(_, order) => !order.releases(),
        Kind::Store(_, order) => !order.acquires(),
        Kind::Read | Kind::Write | Kind::Rmw(..) | Kind::Barrier { .. } | Kind::End { .. } => true,
    }
}

/// The names of a record of this kind, or `None` if it may not have them. Only an acquire has names: at most `MOST_NAMES`,
/// in strictly ascending order, and each in the range of a launch of this version.
#[tactic(auto, using(crate::proofs::Places::naming_is))]
pub fn naming(version: Version, kind: Kind, names: &[Name]) -> Option<Names>
    ensures { result ≡ naming version kind names.now }
{
    if names.is_empty() {
        Some(Names::none())
    } else if kind.is_acquire() {
        Names::within(names, version.most_groups(), version.most_items())
    } else {
        None
    }
}

/// The names of a whole record, read place by place, or `None` if its kind may not have them.
#[inline(never)]
fn read_used(version: Version, bytes: &[u8]) -> Option<Names>
    requires { length bytes.now ≡ record_length version }
    ensures { result ≡ naming version (kind_of bytes.now) (names_at version bytes.now) }
{
    let (names, used) = read_names(&bytes[FIELDS_LENGTH..], version.places());
    naming(version, read_kind(bytes), &names[..used])
}

/// Whether a whole record may have its names, which are then in `names`. It is apart from `put_names`, which would else
/// clear room for the result of `read_used` at every record.
#[inline(always)]
fn put_used(version: Version, bytes: &[u8], names: &mut Names) -> bool
    requires { length bytes.now ≡ record_length version }
    ensures { naming version (kind_of bytes.now) (names_at version bytes.now) ≡ (if result then Some names.new else None) }
{
    let Some(used) = read_used(version, bytes) else {
        return false;
    };
    *names = used;
    true
}

/// Whether a whole record may have its names, which are then in `names`. Nearly all records have none, and nothing is moved.
#[inline(always)]
fn put_names(version: Version, bytes: &[u8], names: &mut Names) -> bool
    requires length { length bytes.now ≡ record_length version }
    requires none { names.old ≡ [] }
    ensures { naming version (kind_of bytes.now) (names_at version bytes.now) ≡ (if result then Some names.new else None) }
{
    are_unused(&bytes[FIELDS_LENGTH..], version.places()) || put_used(version, bytes, names)
}

/// The number of the site of a whole record of this version, 0 where it has none.
/// Requires: there are at least `RECORD_LENGTH` bytes.
#[tactic(auto, unfolding(crate::specs::Reading::site_at))]
pub fn site_of(version: Version, bytes: &[u8]) -> u16
    requires { RECORD_LENGTH ≤ length bytes.now }
    ensures { result ≡ site_at version bytes.now }
{
    if version.has_sites() {
        LittleEndian::read_u16(&bytes[6..])
    } else {
        0
    }
}

/// The event of a whole record in the stream of this header, or the record's first fault.
/// Requires: there are the bytes of a record.
#[inline(always)]
#[tactic(auto, unfolding(crate::specs::Reading::event_at))]
pub fn read_event(header: Header, bytes: &[u8]) -> Result<Event, RecordError>
    requires { length bytes.now ≡ record_length header.version }
    ensures { result ≡ event_at header bytes.now }
{
    if bytes[0] > END {
        return Err(RecordError::BadKind);
    }
    if let Some(place) = first_bad_field(header.version, bytes) {
        return Err(RecordError::BadField(place));
    }
    let kind = read_kind(bytes);
    if !order_fits(kind) {
        return Err(RecordError::BadOrder);
    }
    let mut names = Names::none();
    if !put_names(header.version, bytes, &mut names) {
        return Err(RecordError::BadName);
    }
    let item = LittleEndian::read_u16(&bytes[4..]);
    if item >= header.items {
        return Err(RecordError::UnknownItem);
    }
    Ok(Event {
        item,
        kind,
        space: space_in(bytes),
        word: LittleEndian::read_u32(&bytes[8..]),
        names,
    })
}
