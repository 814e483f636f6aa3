//! A check of files as JSON.

use crate::values::{Text, line_of};
use gr_model::memory::Memory;
use gr_places::checking::Checked;
use gr_places::counts::Counts;
use gr_places::fault_places::FaultPlace;
use gr_places::sentences::wrong_and_right;
use gr_places::spot::Spot;
use gr_record::fault::Fault;
use gr_report::put_fault;
use serde::Serialize;
use std::alloc::Global;

/// How many records of each kind a launch has.
#[derive(Drop, Serialize)]
struct KindsObject {
    barriers: u64,
    ends: u64,
    loads: u64,
    reads: u64,
    rmws: u64,
    stores: u64,
    writes: u64,
}

/// How large an accepted launch is.
#[derive(Drop, Serialize)]
struct AcceptedLine {
    accepted: bool,
    groups: u16,
    items: u32,
    kinds: KindsObject,
    records: u64,
    #[serde(rename = "type")]
    line: &'static str,
}

/// What a fault is about: a place in a stream, a stream beside a file, or a group that is missing.
#[derive(Drop, Serialize)]
#[serde(untagged)]
enum PlaceObject<'a> {
    Stream {
        byte: Option<u64>,
        file: Option<&'a str>,
        record: Option<u64>,
        stream: u64,
    },
    Beside {
        beside: Option<&'a str>,
        file: Option<&'a str>,
        stream: u64,
    },
    Missing {
        beside: Option<&'a str>,
        group: u16,
    },
}

/// The fault of files, where it is, if it is in a stream or a group, what would be right and what is wrong.
#[derive(Drop, Serialize)]
struct RefusedLine<'a> {
    accepted: bool,
    fault: &'a str,
    place: Option<PlaceObject<'a>>,
    right: &'static str,
    #[serde(rename = "type")]
    line: &'static str,
    wrong: &'static str,
}

/// The byte and the record of a place in a stream, each if there is one.
fn byte_and_record(spot: Option<Spot>) -> (Option<u64>, Option<u64>) {
    match spot {
        None => (None, None),
        Some(Spot::Header) => (Some(0), None),
        Some(Spot::Record { number, byte }) => (Some(byte), Some(number)),
        Some(Spot::Behind { byte }) => (Some(byte), None),
    }
}

fn place_object(place: FaultPlace<'_>) -> Option<PlaceObject<'_>> {
    match place {
        FaultPlace::Stream { stream, file, spot } => {
            let (byte, record) = byte_and_record(spot);
            Some(PlaceObject::Stream {
                byte,
                file,
                record,
                stream,
            })
        }
        FaultPlace::Beside {
            stream,
            file,
            beside,
        } => Some(PlaceObject::Beside {
            beside,
            file,
            stream,
        }),
        FaultPlace::Missing { group, beside } => Some(PlaceObject::Missing { beside, group }),
        FaultPlace::Nothing => None,
    }
}

/// The line of a check that refuses files.
fn refused_json(alloc: Global, fault: Fault, place: FaultPlace<'_>) -> Text {
    let mut written = Vec::new(alloc);
    put_fault(&mut written, fault).map_err(|_| Memory)?;
    let text = str::from_utf8(written.as_slice()).unwrap_or("");
    let (wrong, right) = wrong_and_right(fault);
    let line = RefusedLine {
        accepted: false,
        fault: text.trim_end().trim_start_matches("gpurace: "),
        place: place_object(place),
        right,
        line: "check",
        wrong,
    };
    line_of(alloc, &line)
}

/// The line of a check: how large the launch is, or where its fault is, what is wrong and what would be right.
///
/// # Errors
/// `Memory`: out of memory.
pub fn check_json(alloc: Global, checked: &Checked<'_>) -> Text {
    match *checked {
        Checked::Accepted(counts) => {
            let line = AcceptedLine {
                accepted: true,
                groups: counts.groups,
                items: counts.items,
                kinds: KindsObject {
                    barriers: counts.barriers,
                    ends: counts.ends,
                    loads: counts.loads,
                    reads: counts.reads,
                    rmws: counts.rmws,
                    stores: counts.stores,
                    writes: counts.writes,
                },
                records: counts.records,
                line: "check",
            };
            line_of(alloc, &line)
        }
        Checked::Refused { fault, place } => refused_json(alloc, fault, place),
    }
}
