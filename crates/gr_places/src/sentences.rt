//! Sentences about a fault: what is wrong, and what would be right.

use gr_model::shape::ShapeError;
use gr_record::error::RecordError;
use gr_record::fault::Fault;

/// What is wrong in a stream, and what would be right.
fn in_stream(error: RecordError) -> (&'static str, &'static str) {
    match error {
        RecordError::BadMagic => (
            "it begins with none of GRT1, GRT2, GRT3 and GRT4",
            "each file begins with the header of a stream; a trace as text is packed first, by gpurace pack",
        ),
        RecordError::BadHeader => (
            "the header's group or its number of work-items is not one that its version has",
            "groups count from 0, to 63 in GRT1 and GRT2 and to 65534 in GRT3 and GRT4; a group has 1 to 256 work-items there, and 1 to 1024 here",
        ),
        RecordError::BadKind => (
            "byte 0 of the record is above 6",
            "kinds are 0 to 6; often the records before it do not have the length of the header's version, 20 bytes in GRT1 and GRT3 and 44 in GRT2 and GRT4",
        ),
        RecordError::BadField(place) => (
            "this byte of the record has a value that a record of its kind may not have there",
            right_at(place),
        ),
        RecordError::BadOrder => (
            "a load releases, or a store acquires",
            "a load has order 1 or 2 and a store 1 or 3; an operation of memory_order_seq_cst is written as acquire, release or both, by what it does",
        ),
        RecordError::BadName => (
            "a name is out of range, not above the one before it, after a place that is not used, or in a record that acquires nothing",
            "names are in the first places, ascending by group, item and number, and only if the order is acquire or both; each place that is not used has eight bytes ff",
        ),
        RecordError::UnknownItem => (
            "the record's work-item is not below the header's number of work-items",
            "bytes 4 and 5 are the work-item by its place in the group, from 0; often the global number was written in its place",
        ),
        RecordError::AfterEnd => (
            "bytes follow the end of the stream",
            "after the end of a stream the file ends, or the header of the next stream follows",
        ),
        RecordError::Truncated => (
            "the file ends inside a header or a record, or before the end of its stream",
            "the last record is an end, whose byte 1 is 1 if records were lost; often the producer was stopped, or is still writing",
        ),
        RecordError::TooManyRecords => (
            "the record is one more than a stream may have",
            "a stream has at most 16777216 records, its end included; if the rest is left out, byte 1 of the end is 1",
        ),
        RecordError::Memory => ("memory ran out", "more memory is needed"),
    }
}

/// What would be right in the byte at this place of a record.
fn right_at(place: u8) -> &'static str {
    match place {
        1 => {
            "byte 1 is the memory of an access, 0 or 1; the flags of a barrier, 0 to 3; of an end 1 if records were lost, else 0"
        }
        2 => "byte 2 is the scope of an atomic access, 1 or 2, whatever its memory is, and else 0",
        3 => "byte 3 is the order of an atomic access, 1 to 4, and else 0",
        6 | 7 => "the bytes 6 and 7 are 0",
        _ => {
            "the bytes 4, 5 and 8 to 11 of an end are 0, since an end is of no work-item and has no word"
        }
    }
}

/// What is wrong with the sizes of groups, and what would be right.
fn in_shape(error: ShapeError) -> (&'static str, &'static str) {
    match error {
        ShapeError::NoGroups => (
            "there is no stream",
            "there is at least one stream; often the program before failed",
        ),
        ShapeError::TooManyGroups => (
            "there are more groups than a launch may have",
            "a launch has at most 65535 groups; a larger one is recorded with fewer groups",
        ),
        ShapeError::BadItems(_) => (
            "the group has no work-items, or more than it may have",
            "a group has 1 to 1024 work-items; a larger launch is recorded with smaller groups",
        ),
        ShapeError::TooManyItems => (
            "there are more work-items in all than a launch may have",
            "a launch has at most 67107840 work-items; a larger one is recorded with fewer or smaller groups",
        ),
    }
}

/// What is wrong, and what would be right, each without the end of the line.
pub fn wrong_and_right(fault: Fault) -> (&'static str, &'static str) {
    match fault {
        Fault::Stream(_, error) => in_stream(error),
        Fault::SameGroup(_) => (
            "an earlier stream is of the same group",
            "each group has one stream; often a file is given twice, or files of two launches are mixed",
        ),
        Fault::OtherLaunch(_) => (
            "the launch number is not that of the first stream",
            "all streams of a launch have the same launch number; often a file of an earlier launch was left among the others",
        ),
        Fault::MissingGroup(_) => (
            "there is a stream of a greater group, and none of this one",
            "the groups are 0, 1, 2 and so on without a gap, and each has a stream, even if it did nothing; often a file is not given",
        ),
        Fault::Shape(error) => in_shape(error),
        Fault::BadLine(_) => (
            "the line is not one that its place needs",
            "the first line and each line after an end are a header, and the others records; words are separated by one space",
        ),
        Fault::NoEnd => (
            "the text ends inside a stream",
            "the last line of each stream is end, or end cut if records were lost",
        ),
        Fault::LongStream(_) => (
            "the line is one record more than a stream may have",
            "a stream has at most 16777216 records, its end included",
        ),
        Fault::Read => (
            "the input could not be read, or a file could not be opened",
            "each file is there and may be read",
        ),
        Fault::Write => (
            "the output could not be written",
            "there is room for the output, and somebody reads it",
        ),
        Fault::Memory => ("memory ran out", "more memory is needed"),
        Fault::Threads => (
            "a thread could not be started",
            "the system allows more threads",
        ),
    }
}
