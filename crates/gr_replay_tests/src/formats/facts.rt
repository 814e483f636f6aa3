//! What the contracts alone give for some values. For each value some wrong body would return something else.

ghost use Rattle.std.specs.Prelude.{Some, ◌∷◌, []};

use gr_model::event::{ItemId, Kind, Name, Order, Scope};
use gr_record::decoder::Decoder;
use gr_record::encoding::encode_header;
use gr_record::header::{Header, Version};
use gr_record::input::read_all;
use gr_record::reading::{naming, read_event};
use std::io::{self, ErrorKind, Read};

/// The name of the first release of the first item.
const NAME: Name = Name {
    at: ItemId { group: 0, item: 0 },
    release: 0,
};

const ACQUIRE: Kind = Kind::Load(Scope::Device, Order::Acquire);

/// The header of a stream of version 1, of one item.
const HEADER: Header = Header {
    version: Version::One,
    group: 0,
    items: 1,
    launch: 0,
};

/// Byte 6 of a record is 0.
#[test]
#[tactic(auto, unfolding(gr_record::specs::Reading::event_at, gr_record::specs::Reading::bad_field_from))]
fn read_event_of_a_record_with_byte_6() {
    let write = [
        1, 0, 0, 0, 0, 0, 1, 0, 4, 0, 0, 0, 255, 255, 255, 255, 255, 255, 255, 255,
    ];
    prove!(read_event(HEADER, &write).is_err());
}

/// Version 1 does not allow a name of group 64; version 3 does.
#[test]
fn naming_of_group_64() {
    let far = Name {
        at: ItemId { group: 64, item: 0 },
        release: 0,
    };
    prove!(naming(Version::One, ACQUIRE, &[far]).is_none());
    prove!(naming(Version::Three, ACQUIRE, &[far]).is_some());
}

/// All bits of group 300 are written.
#[test]
fn header_of_group_300() {
    let header = Header {
        version: Version::Three,
        group: 300,
        ..HEADER
    };
    let mut bytes = [0; 12];
    encode_header(&header, &mut bytes);
    prove!(bytes[5] == 1);
}

/// A stream has an end.
#[test]
#[tactic(auto, unfolding(gr_record::specs::Decoding::read_from))]
fn finish_of_nothing() {
    prove!(Decoder::new().finish().is_err());
}

/// A relaxed load has no names.
#[test]
fn naming_of_a_relaxed_load() {
    let relaxed = Kind::Load(Scope::Device, Order::Relaxed);
    prove!(naming(Version::One, relaxed, &[NAME]).is_none());
}

/// Names that descend are no names of an event.
#[test]
fn naming_of_names_out_of_order() {
    let later = Name { release: 1, ..NAME };
    prove!(naming(Version::One, ACQUIRE, &[later, NAME]).is_none());
}

/// Has a byte left, and fails at each read.
#[derive(Drop)]
struct Broken;

impl Read for Broken {
    ghost remaining = { λ _. Some (7 ∷ []) };

    fn read(&mut self, _buf: &mut [u8]) -> io::Result<usize> {
        Err(io::Error::from(ErrorKind::BrokenPipe))
    }
}

/// A failed read is not the end.
#[test]
fn read_all_of_a_reader_that_fails(rt: HostRuntime) {
    prove!(read_all(rt.alloc(), &mut Broken).is_err());
}
