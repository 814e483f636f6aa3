//! A launch of no streams.

use gr_model::shape::ShapeError;
use gr_record::fault::Fault;
use gr_replay::read_each;

#[test]
fn no_reader_is_no_launch(rt: HostRuntime) {
    let readers: Vec<&[u8]> = Vec::new(rt.alloc());
    let answer = read_each(rt.alloc(), readers);
    assert!(rt; answer.err() == Some(Fault::Shape(ShapeError::NoGroups)));
}
