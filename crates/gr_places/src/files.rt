//! Opening and reading side files.

ghost use Rattle.std.specs.Prelude.{◌≡◌, ◌<◌, ◌++◌, false, IfErr, IfOk, IfSome, IsOk, IsTrue, length, map};
ghost use Rattle.std.specs.Fn.{FnReturnsAt};
ghost use Rattle.std.specs.Option.{is_some};
ghost use Rattle.gr_record.specs.Prelude.{IsOutside};
ghost use Rattle.gr_places.specs.Opening as spec;
ghost use Rattle.gr_places.specs.Files.{IsOpeningFault};

use crate::opening::open_all;
use gr_model::memory::Memory;
use gr_record::fault::Fault;
use gr_record::input::read_all;
use std::alloc::Allocator;
use std::io::{self, Read};

/// The names of side files, each if there is one.
#[derive(Clone, Copy, Debug)]
pub struct SideNames<'a> {
    /// The file of places.
    pub places: Option<&'a str>,
    /// The file of buffers.
    pub buffers: Option<&'a str>,
}

/// Open files: side files, each if there is one, and the files of the streams.
#[derive(Drop)]
pub struct Opened<T: Drop, A: Allocator> {
    /// The file of places.
    pub places: Option<T>,
    /// The file of buffers.
    pub buffers: Option<T>,
    /// The files of the streams, in their order.
    pub streams: Vec<T, A>,
}

/// All names, in the order in which the files are opened: places, buffers, streams.
fn all_names<'a, A: Allocator>(
    alloc: A,
    sides: &SideNames<'a>,
    names: &[&'a str],
) -> Result<Vec<&'a str, A>, Memory>
    ensures { IfOk result (λ all. map (λ s. s.now) all.items ≡ spec.all_names (spec.side_names sides.now) (map (λ s. s.now) names.now)) }
{
    let mut all = Vec::new(alloc);
    all.extend_from_slice(sides.places.as_slice())?;
    all.extend_from_slice(sides.buffers.as_slice())?;
    all.extend_from_slice(names)?;
    Ok(all)
}

/// Takes the first file away, if it is wanted.
/// Requires: if it is wanted, there is one.
fn take_first<T: Drop, A: Allocator>(files: &mut Vec<T, A>, wanted: bool) -> Option<T>
    requires { IsTrue wanted → 0 < length files.old.items }
    ensures taken { is_some result ≡ wanted }
    ensures left { files.old.items ≡ spec.listed result ++ files.new.items }
{
    if wanted { Some(files.remove(0)) } else { None }
}

/// Opens the file of places and the file of buffers, each if there is one, and then the files of the streams.
///
/// # Errors
/// `Read` at the first that can't be opened; `Memory`.
pub fn open_files<'a, A, T, O>(
    alloc: A,
    sides: &SideNames<'a>,
    names: &[&'a str],
    opener: O,
) -> Result<Opened<T, A>, Fault>
where
    A: Allocator + Copy,
    T: Drop,
    O: Fn(&str) -> io::Result<T>,
    requires { O.IsAlwaysCallable opener }
    ensures opened { IfOk result (λ o. spec.AreAllOpened (FnReturnsAt O.Fn opener) (spec.side_names sides.now) (map (λ s. s.now) names.now) (record { places = o.places; buffers = o.buffers }) o.streams.items) }
    ensures fault { IfErr result (λ f. IsOpeningFault (FnReturnsAt O.Fn opener) (spec.all_names (spec.side_names sides.now) (map (λ s. s.now) names.now)) f) }
{
    let all = all_names(alloc, sides, names)?;
    let mut streams = open_all(alloc, &all, opener)?;
    let places = take_first(&mut streams, sides.places.is_some());
    let buffers = take_first(&mut streams, sides.buffers.is_some());
    Ok(Opened {
        places,
        buffers,
        streams,
    })
}

/// All bytes of a side file, or none if there is no file.
///
/// # Errors
/// If there is a file, those of `read_all`.
pub fn bytes_of<A: Allocator, T: Read + Drop>(
    alloc: A,
    file: Option<T>,
) -> Result<Vec<u8, A>, Fault>
    ensures bytes { IfOk result (λ v. IfSome (spec.known_of T.remaining file) (λ bytes. v.items ≡ bytes)) }
    ensures faults { IfErr result IsOutside }
    ensures nothing { is_some file ≡ false → IsOk result }
{
    match file {
        None => Ok(Vec::new(alloc)),
        Some(mut file) => read_all(alloc, &mut file),
    }
}
