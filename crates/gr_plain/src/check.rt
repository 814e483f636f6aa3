//! The text of a check.

use gr_model::memory::Memory;
use gr_places::checking::Checked;
use gr_places::counts::Counts;
use gr_places::escaped::Escaped;
use gr_places::fault_places::FaultPlace;
use gr_places::sentences::wrong_and_right;
use gr_places::spot::Spot;
use gr_record::fault::Fault;
use gr_report::put_fault;
use std::alloc::Allocator;
use std::io::{self, Write};

fn put_counts<W: Write>(writer: &mut W, counts: &Counts) -> io::Result<()> {
    let (groups, items, records) = (counts.groups, counts.items, counts.records);
    let (reads, writes, loads) = (counts.reads, counts.writes, counts.loads);
    let (stores, rmws) = (counts.stores, counts.rmws);
    writeln!(writer, "groups {groups}\nitems {items}\nrecords {records}")?;
    writeln!(writer, "reads {reads}\nwrites {writes}\nloads {loads}")?;
    writeln!(writer, "stores {stores}\nrmws {rmws}")?;
    writeln!(writer, "barriers {}\nends {}", counts.barriers, counts.ends)
}

/// Writes a label and the name of a file, if it has one.
fn put_file<W: Write>(writer: &mut W, label: &str, name: Option<&str>) -> io::Result<()> {
    match name {
        None => Ok(()),
        Some(name) => writeln!(writer, "{label} {}", Escaped(name)),
    }
}

fn put_spot<W: Write>(writer: &mut W, spot: Option<Spot>) -> io::Result<()> {
    match spot {
        None => Ok(()),
        Some(Spot::Header) => writeln!(writer, "header byte 0"),
        Some(Spot::Record { number, byte }) => writeln!(writer, "record {number} byte {byte}"),
        Some(Spot::Behind { byte }) => writeln!(writer, "after the end, byte {byte}"),
    }
}

/// What the other file is that a fault is about.
fn label_of(fault: Fault) -> &'static str {
    match fault {
        Fault::SameGroup(_) => "same group in",
        Fault::OtherLaunch(_) => "other launch in",
        _ => "greater group in",
    }
}

/// Writes the lines after the line of a fault.
fn put_below<W: Write>(writer: &mut W, fault: Fault, place: FaultPlace<'_>) -> io::Result<()> {
    match place {
        FaultPlace::Stream { file, spot, .. } => {
            put_file(writer, "file", file)?;
            put_spot(writer, spot)?;
        }
        FaultPlace::Beside { file, beside, .. } => {
            put_file(writer, "file", file)?;
            put_file(writer, label_of(fault), beside)?;
        }
        FaultPlace::Missing { beside, .. } => put_file(writer, label_of(fault), beside)?,
        FaultPlace::Nothing => {}
    }
    let (wrong, right) = wrong_and_right(fault);
    writeln!(writer, "wrong: {wrong}\nright: {right}")
}

/// The text of a check.
///
/// # Errors
/// `Memory`: out of memory.
pub fn check_text<A: Allocator>(alloc: A, checked: &Checked<'_>) -> Result<Vec<u8, A>, Memory> {
    let mut text = Vec::new(alloc);
    let is_put = match *checked {
        Checked::Accepted(counts) => put_counts(&mut text, &counts).is_ok(),
        Checked::Refused { fault, place } => {
            put_fault(&mut text, fault).is_ok() && put_below(&mut text, fault, place).is_ok()
        }
    };
    if is_put { Ok(text) } else { Err(Memory) }
}
