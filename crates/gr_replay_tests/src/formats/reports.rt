//! The text of a report with the greatest numbers, and of faults that no file has.

use gr_model::event::{EventId, ItemId, Word};
use gr_model::report::{AcquireCause, Divergence, DivergenceCause, Unmatched};
use gr_model::shape::ShapeError;
use gr_record::error::RecordError;
use gr_record::fault::Fault;
use gr_report::report::Report;
use gr_report::rows::Rows;
use gr_report::{found, write, write_fault};
use refusing::failing::fail_each;
use std::alloc::{AllocError, Global};
use std::test::Fail;

static RACES: [Word; 4] = [
    Word::Global(0),
    Word::Global(4_294_967_295),
    Word::Local(0, 7),
    Word::Local(63, 4_294_967_295),
];

const TEXT: &str = "gpurace 1
groups 64 items 2048 records 1073741824
cut 2
cut 63
race global 0
race global 4294967295
race local 0 7
race local 63 4294967295
diverge 0 0 missing
diverge 0 10 site
diverge 63 16777214 flags
unmatched 0 0 1 absent
unmatched 0 9 100 otherword
unmatched 63 255 16777214 behind
end races 4 diverge 3 unmatched 3 held 1073741823
";

fn divergence(group: u16, instance: u32, cause: DivergenceCause) -> Divergence {
    Divergence {
        group,
        instance,
        cause,
    }
}

fn unmatched(group: u16, item: u16, index: u32, cause: AcquireCause) -> Unmatched {
    let at = ItemId { group, item };
    let event = EventId { at, index };
    Unmatched { event, cause }
}

fn greatest(alloc: Global) -> Result<Report, AllocError> {
    let divergences = [
        divergence(0, 0, DivergenceCause::Missing),
        divergence(0, 10, DivergenceCause::Site),
        divergence(63, 16_777_214, DivergenceCause::Flags),
    ];
    let unmatched = [
        unmatched(0, 0, 1, AcquireCause::Absent),
        unmatched(0, 9, 100, AcquireCause::OtherWord),
        unmatched(63, 255, 16_777_214, AcquireCause::Behind),
    ];
    Ok(Report {
        races: Rows::of(Vec::from_slice(alloc, &RACES)?),
        divergences: Rows::of(Vec::from_slice(alloc, &divergences)?),
        unmatched: Rows::of(Vec::from_slice(alloc, &unmatched)?),
        cut: Rows::of(Vec::from_slice(alloc, &[2, 63])?),
        held: 1_073_741_823,
        groups: 64,
        items: 2048,
        records: 1_073_741_824,
    })
}

#[test]
fn a_report_is_written_or_a_prefix_of_it(rt: HostRuntime) -> Result<(), Fail> {
    let report = greatest(rt.alloc())?;
    assert!(rt; found(&report));
    let failed = fail_each(
        rt.alloc(),
        TEXT.as_bytes(),
        |writer| write(&report, writer).is_err(),
    );
    assert!(rt; failed.is_ok(), "{failed:?}");
    Ok(())
}

static FAULTS: [(Fault, &str); 8] = [
    (
        Fault::Stream(63, RecordError::TooManyRecords),
        "stream 63: too many records",
    ),
    (
        Fault::Stream(10, RecordError::Memory),
        "stream 10: out of memory",
    ),
    (
        Fault::SameGroup(18_446_744_073_709_551_615),
        "stream 18446744073709551615: group given twice",
    ),
    (
        Fault::Shape(ShapeError::TooManyGroups),
        "shape: too many groups",
    ),
    (
        Fault::Shape(ShapeError::BadItems(9)),
        "shape: bad items in group 9",
    ),
    (
        Fault::Shape(ShapeError::TooManyItems),
        "shape: too many items",
    ),
    (Fault::Memory, "out of memory"),
    (Fault::Threads, "no thread"),
];

#[test]
fn a_fault_is_written_or_a_prefix_of_its_line(rt: HostRuntime) -> Result<(), Fail> {
    for (fault, text) in &FAULTS {
        let line = format!(in rt.alloc(); "gpurace: {text}\n")?;
        let failed = fail_each(
            rt.alloc(),
            line.as_bytes(),
            |writer| write_fault(fault, writer).is_err(),
        );
        assert!(rt; failed.is_ok(), "{text}: {failed:?}");
    }
    Ok(())
}
