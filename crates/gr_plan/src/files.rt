//! The streams of the files on the command line: a file may have several, a folder has a file for each, and `-` is standard input.

use crate::account::Account;
use crate::line::Line;
use crate::notes::reason_of;
use crate::plan::Refusal;
use crate::progress::Progress;
use crate::seen::{Seen, Sited};
use crate::source::{Piece, Source, file_size};
use gr_model::memory::Memory;
use gr_record::fault::Fault;
use indexmap::IndexMap;
use std::alloc::Global;
use std::fs::{self, File};
use std::hash::{BuildHasherDefault, FoldHasher};
use std::io::{self, ErrorKind, Read};
use std::iter;
use std::sync::Arc;

/// What a name means. A `File` may be read again; a `Pipe` is also a device.
#[derive(Clone, Copy, PartialEq, Eq)]
pub enum FileKind {
    Input,
    File,
    Folder,
    Pipe,
    Missing,
}

/// What a name means.
pub fn file_kind(rt: HostRuntime, name: &str) -> FileKind {
    if name == "-" {
        return FileKind::Input;
    }
    match fs::metadata(&rt, name) {
        Ok(metadata) if metadata.is_dir() => FileKind::Folder,
        Ok(metadata) if metadata.is_file() => FileKind::File,
        Ok(_) => FileKind::Pipe,
        Err(_) => FileKind::Missing,
    }
}

/// Copies of texts.
pub fn copies_of(alloc: Global, texts: &[&str]) -> Result<Vec<String>, Memory> {
    let copies = texts.iter().map(|text| String::from_str(alloc, text));
    Ok(copies.try_collect::<Vec<String>>(alloc)?)
}

/// A path below a folder.
fn path_below(alloc: Global, folder: &str, name: &str) -> Result<String, Memory> {
    let between = if folder.ends_with('/') { "" } else { "/" };
    Ok(format!(in alloc; "{folder}{between}{name}")?)
}

/// The refusal of a file that can't be read.
pub fn no_file(alloc: Global, path: &str, error: &io::Error) -> Refusal {
    match reason_of(alloc, path, error) {
        Ok(reason) if error.kind() != ErrorKind::OutOfMemory => Refusal::NoFile(reason),
        Ok(_) | Err(_) => Refusal::from(Memory),
    }
}

/// All bytes of a side file.
pub fn read_file(rt: HostRuntime, path: &str) -> Result<Vec<u8>, Refusal> {
    fs::read(&rt, path).map_err(|error| no_file(rt.alloc(), path, &error))
}

/// The sorted paths of what is in a folder, if its name has this ending.
///
/// # Errors
/// `NoFile` if the folder can't be read, or has a name that is not UTF-8.
fn paths_in(rt: HostRuntime, folder: &str, ending: &str) -> Result<Vec<String>, Refusal> {
    let alloc = rt.alloc();
    let refused = |error: io::Error| no_file(alloc, folder, &error);
    let mut paths = Vec::new(alloc);
    for entry in fs::read_dir(&rt, folder).map_err(refused)? {
        let entry = entry.map_err(refused)?;
        if entry.file_name().ends_with(ending) {
            let path = path_below(alloc, folder, entry.file_name())?;
            paths.push(path).map_err(Memory::from)?;
        }
    }
    paths.sort().map_err(Memory::from)?;
    Ok(paths)
}

/// The sorted paths of the files of streams in a folder.
///
/// # Errors
/// `NoFile` if the folder can't be read, or has a name that is not UTF-8.
pub fn paths_of_streams(rt: HostRuntime, folder: &str) -> Result<Vec<String>, Refusal> {
    paths_in(rt, folder, ".gpurace")
}

/// The first folder of a launch in a folder, if there is one: it has files of streams.
pub fn launch_in(rt: HostRuntime, folder: &str) -> Option<String> {
    for path in paths_in(rt, folder, "").ok()? {
        if paths_of_streams(rt, path.as_str()).is_ok_and(|paths| !paths.is_empty()) {
            return Some(path);
        }
    }
    None
}

/// The path of a side file in a folder, if it is there.
fn side_file(rt: HostRuntime, folder: &str, name: &str) -> Result<Option<String>, Memory> {
    let path = path_below(rt.alloc(), folder, name)?;
    let is_there = file_kind(rt, path.as_str()) != FileKind::Missing;
    Ok(is_there.then_some(path))
}

/// The file of buffers of a command on these files: the one that is given, or the first one in a folder.
pub fn buffers_of(line: &Line<'_>, names: &[&str]) -> Result<Option<String>, Memory> {
    let mut path = line.path_of("--buffers")?;
    for name in names {
        if path.is_none() && file_kind(line.rt, name) == FileKind::Folder {
            path = side_file(line.rt, name, "buffers")?;
        }
    }
    Ok(path)
}

/// The streams of the files that are given, each under a name.
#[derive(Drop)]
pub struct Files {
    rt: HostRuntime,
    /// The names of the streams, in their order.
    pub names: Vec<String>,
    /// What a name opens, if it is not the path of a whole file.
    pieces: IndexMap<String, Piece, BuildHasherDefault<FoldHasher>>,
    /// Who reports how far the reading is.
    pub progress: Option<Arc<Progress>>,
    /// The file of places: the one that is given, or the first one in a folder, or the folder's file of sites.
    pub places: Option<String>,
    /// The file of buffers: the one that is given, or the first one in a folder.
    pub buffers: Option<String>,
    /// Whether the command takes side files.
    pub takes_sides: bool,
    /// Who sees the headers and records.
    pub seen: Seen,
    /// The first file that ends inside a stream, among those that were read.
    pub torn: Option<String>,
    /// The first fault of a record in standard input or in a pipe, after which no more was read of it.
    pub refused: Option<Fault>,
}

impl Files {
    /// No files.
    pub fn new(rt: HostRuntime) -> Files {
        Files {
            rt,
            names: Vec::new(rt.alloc()),
            pieces: IndexMap::new(rt.alloc()),
            progress: None,
            places: None,
            buffers: None,
            takes_sides: false,
            seen: Seen::default(),
            torn: None,
            refused: None,
        }
    }

    /// Adds the streams of the files of a command, and its side files. If a file is missing, all names stay as they are, and the
    /// command reports the missing file.
    pub fn add_all(&mut self, line: &Line<'_>, names: &[&str]) -> Result<(), Refusal> {
        let rt = self.rt;
        self.takes_sides = line.takes_sides();
        self.places = line.path_of("--places")?;
        self.buffers = line.path_of("--buffers")?;
        let mut kinds = names.iter().map(|name| file_kind(rt, name));
        if kinds.any(|kind| kind == FileKind::Missing) {
            self.names = copies_of(rt.alloc(), names)?;
            return Ok(());
        }
        for name in names {
            self.add(line, name)?;
        }
        Ok(())
    }

    /// Whether a name opens anything but the whole file of this path.
    pub fn has_piece(&self, name: &str) -> bool {
        self.pieces.get(name).is_some()
    }

    /// How many bytes a name opens, if that is known.
    pub fn size_of(&self, name: &str) -> Option<u64> {
        match self.pieces.get(name) {
            None => file_size(self.rt, name),
            Some(piece) => piece.size(),
        }
    }

    /// Opens a name: its piece, or else the file of this path.
    pub fn open(&self, name: &str) -> io::Result<Source> {
        match self.pieces.get(name) {
            None => Source::open(self.rt, name, self.names.len()),
            Some(piece) => Ok(Source::Piece(piece.clone()?)),
        }
    }

    /// Adds the streams of what has this name. `run` reads pipes while they are written, so each has one stream. Other pipes, and standard
    /// input, are read here, up to their end or their first fault.
    fn add(&mut self, line: &Line<'_>, name: &str) -> Result<(), Refusal> {
        match file_kind(self.rt, name) {
            FileKind::Pipe if line.command == "run" => Ok(self.add_name(name)?),
            FileKind::Input | FileKind::Pipe => Ok(self.add_bytes(name)?),
            FileKind::File | FileKind::Missing => Ok(self.add_file(name)?),
            FileKind::Folder => self.add_folder(name),
        }
    }

    /// Where each stream of a reader begins. The reader is of what has this name. If its bytes are to be kept, it may have no end, and is read
    /// up to its first fault, which is then kept in `refused`. `torn` keeps the first name whose last stream has no end.
    fn starts_of<R: Read>(
        &mut self,
        name: &str,
        reader: &mut R,
        kept: Option<&mut Vec<u8>>,
    ) -> Result<Vec<u64>, Fault> {
        let mut account = Account::new(self.rt.alloc(), kept.is_some());
        account.read(reader, &mut self.seen, kept)?;
        if self.torn.is_none() && account.is_torn() {
            self.torn = Some(self.copy_of(name)?);
        }
        if account.is_refused() && account.header.is_some() {
            let streams = self.names.len().saturating_add(account.starts.len());
            let stream = streams.saturating_sub(1) as u64;
            let fault = account.fault.map(|error| Fault::Stream(stream, error));
            self.refused = self.refused.or(fault);
        }
        Ok(account.starts)
    }

    /// A copy of a text.
    fn copy_of(&self, text: &str) -> Result<String, Memory> {
        Ok(String::from_str(self.rt.alloc(), text)?)
    }

    /// Adds a name as it is.
    fn add_name(&mut self, name: &str) -> Result<(), Memory> {
        let name = self.copy_of(name)?;
        Ok(self.names.push(name)?)
    }

    /// Adds the name of what can't be opened or read. Not all records are seen then, so nothing is sought any more.
    fn add_unseen(&mut self, name: &str) -> Result<(), Memory> {
        self.seen.sought = None;
        self.add_name(name)
    }

    /// Makes a name open this piece, unless it opens one already.
    fn add_piece(&mut self, name: String, piece: Piece) -> Result<(), Memory> {
        if !self.has_piece(name.as_str()) {
            self.pieces.insert(name, piece)?;
        }
        Ok(())
    }

    /// Adds the streams that begin at these bytes of what has a name, all of which `whole` opens.
    fn add_parts(&mut self, name: &str, whole: &Piece, starts: &[u64]) -> Result<(), Memory> {
        let ends = starts.iter().copied().skip(1).chain(iter::once(u64::MAX));
        for (start, end) in starts.iter().zip(ends) {
            let part = format!(in self.rt.alloc(); "{name}@{start}")?;
            self.add_name(part.as_str())?;
            self.add_piece(part, whole.part(*start, end)?)?;
        }
        Ok(())
    }

    /// Adds the streams of standard input or of a pipe. A pipe that can't be opened stays a name.
    fn add_bytes(&mut self, name: &str) -> Result<(), Fault> {
        let alloc = self.rt.alloc();
        let Ok(mut source) = Source::open(self.rt, name, 1) else {
            return Ok(self.add_unseen(name)?);
        };
        let mut bytes = Vec::new(alloc);
        let starts = self.starts_of(name, &mut source, Some(&mut bytes))?;
        let whole = Piece::of_bytes(alloc, bytes)?;
        if starts.len() > 1 {
            return Ok(self.add_parts(name, &whole, &starts)?);
        }
        self.add_name(name)?;
        Ok(self.add_piece(self.copy_of(name)?, whole)?)
    }

    /// Adds the streams of the file of this path. A file that can't be opened or read stays a name.
    fn add_file(&mut self, path: &str) -> Result<(), Fault> {
        let rt = self.rt;
        let Ok(mut file) = File::open(&rt, path) else {
            return Ok(self.add_unseen(path)?);
        };
        match self.starts_of(path, &mut file, None) {
            Ok(starts) if starts.len() > 1 => {
                let whole = Piece::of_file(rt, self.copy_of(path)?);
                Ok(self.add_parts(path, &whole, &starts)?)
            }
            Ok(_) => Ok(self.add_name(path)?),
            Err(Fault::Memory) => Err(Fault::Memory),
            Err(_) => Ok(self.add_unseen(path)?),
        }
    }

    /// Adds the streams of the files of a folder, and its side files. The name of its file of sites opens the places that are made from it.
    /// A folder without streams stays a name.
    fn add_folder(&mut self, folder: &str) -> Result<(), Refusal> {
        let paths = paths_of_streams(self.rt, folder)?;
        if paths.is_empty() {
            return Ok(self.add_name(folder)?);
        }
        self.add_sides(folder)?;
        for path in &paths {
            self.add_file(path.as_str())?;
        }
        if let (Some(sited), Some(sites)) = (self.seen.sited.take(), &self.places) {
            let (sites, alloc) = (self.copy_of(sites.as_str())?, self.rt.alloc());
            self.add_piece(sites, Piece::of_bytes(alloc, sited.places)?)?;
        }
        Ok(())
    }

    /// Adds the side files of a folder, if there were none.
    fn add_sides(&mut self, folder: &str) -> Result<(), Refusal> {
        let rt = self.rt;
        if self.places.is_none() {
            self.places = side_file(rt, folder, "places")?;
        }
        if self.buffers.is_none() {
            self.buffers = side_file(rt, folder, "buffers")?;
        }
        if self.takes_sides && self.places.is_none() {
            self.places = side_file(rt, folder, "sites")?;
            if let Some(sites) = &self.places {
                let text = read_file(rt, sites.as_str())?;
                self.seen.sited = Some(Sited::new(rt.alloc(), text)?);
            }
        }
        Ok(())
    }
}
