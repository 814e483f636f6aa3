//! The line of a fault, and what is added to it: which file it is about, and where in the file.

use crate::account::{Account, begins_stream};
use crate::files::{FileKind, file_kind, launch_in};
use crate::line::{is_option, may_be_command, taking_of};
use crate::plan::Plan;
use crate::reading::Kept;
use crate::seen::Seen;
use crate::text_fault::put_bad_line;
use gr_places::escaped::Escaped;
use gr_places::sides_fault::{SidesFault, write_sides_fault};
use gr_record::error::RecordError;
use gr_record::fault::Fault;
use std::alloc::{AllocError, Global};
use std::fs::File;
use std::io::{self, ErrorKind, Read, Stderr, Write};
use std::mem;

/// The form of a file of places, of one of sites, and of one of buffers.
const PLACES: &str = "its lines are GROUP ITEM INDEX TEXT, or SITE TEXT; TEXT begins with no digit";

const SITES: &str = "its lines are texts; none is empty or begins with a digit";

const BUFFERS: &str = "its lines are g FIRST WORDS NAME, or l GROUP FIRST WORDS NAME";

/// Reports that no file has the name that was taken for a command, if the first word of a refused line is no command.
pub fn note_no_command(word: &str, errors: &mut Stderr) -> io::Result<()> {
    match taking_of(word) {
        None if may_be_command(word) && word != "help" && !is_option(word) && !word.is_empty() => {
            note_file(word, "this is no file, either", errors)
        }
        Some(_) | None => Ok(()),
    }
}

/// Reports something of a file.
pub fn note_file(name: &str, what: &str, errors: &mut Stderr) -> io::Result<()> {
    writeln!(errors, "gpurace: {}: {what}", Escaped(name))
}

/// Writes the line of a fault of a command, and what is added to it. If no more was read of a pipe after a record that is refused, that is
/// the fault, and not a group that is missing.
pub fn report(
    plan: &mut Plan,
    command: &str,
    fault: &SidesFault,
    errors: &mut Stderr,
) -> io::Result<()> {
    match (*fault, plan.files.refused) {
        (SidesFault::Run(Fault::MissingGroup(_)), Some(refused)) => {
            report_fault(plan, command, &SidesFault::Run(refused), errors)
        }
        (fault, _) => report_fault(plan, command, &fault, errors),
    }
}

/// Writes the line of a fault, and what is added to it.
fn report_fault(
    plan: &mut Plan,
    command: &str,
    fault: &SidesFault,
    errors: &mut Stderr,
) -> io::Result<()> {
    if let Some(name) = plan.reading.empty_file() {
        return note_file(name, "the file is empty", errors);
    }
    let unread = match fault {
        SidesFault::Run(Fault::Read) => unread_of(plan),
        SidesFault::Run(_) | SidesFault::Places(_) | SidesFault::Buffers(_) => None,
    };
    let is_replaced = matches!(
        command,
        "races" | "history" | "check" | "why-held" | "upgrade"
    );
    if !(is_replaced && unread.is_some()) && write_sides_fault(fault, errors).is_err() {
        return Ok(());
    }
    if let Some((name, error)) = unread {
        return note_unread(plan, command, name, &error, errors);
    }
    match fault {
        SidesFault::Run(fault) => note(plan, command, fault, errors),
        SidesFault::Places(_) => note_side(plan, true, errors),
        SidesFault::Buffers(_) => note_side(plan, false, errors),
    }
}

/// Adds to the line of a fault where it is.
fn note(plan: &mut Plan, command: &str, fault: &Fault, errors: &mut Stderr) -> io::Result<()> {
    match *fault {
        Fault::Stream(stream, error) => {
            let is_header = matches!(error, RecordError::BadMagic | RecordError::BadHeader);
            note_stream(errors, plan, stream, is_header)?;
            if command == "run" && error == RecordError::AfterEnd {
                return note_pipe(plan, stream, errors);
            }
            Ok(())
        }
        Fault::SameGroup(stream) | Fault::OtherLaunch(stream) => {
            note_stream(errors, plan, stream, true)
        }
        Fault::BadLine(line) => note_line(plan, line, errors),
        Fault::NoEnd => match plan.reading.names.last() {
            None => Ok(()),
            Some(name) => note_file(name.as_str(), "its last stream has no end", errors),
        },
        Fault::MissingGroup(_) => match &plan.files.torn {
            None => note_missing(plan, errors),
            Some(name) => note_file(
                name.as_str(),
                "its last stream is truncated, and streams after it may be lost",
                errors,
            ),
        },
        _ => Ok(()),
    }
}

/// Reports which files have no stream of a group. Of standard input without a name nothing is said.
fn note_missing(plan: &Plan, errors: &mut Stderr) -> io::Result<()> {
    let mut names = plan.reading.names.iter().chain(&plan.files.names);
    match (names.next(), names.last()) {
        (None, _) => Ok(()),
        (Some(name), None) => note_file(name.as_str(), "it has no stream of this group", errors),
        (Some(name), Some(last)) => writeln!(
            errors,
            "gpurace: {} to {}: none has a stream of this group",
            Escaped(name.as_str()),
            Escaped(last.as_str())
        ),
    }
}

/// What a line of the input, which is this text, is called: by its number, or by its file and its number there if there are several files.
fn line_name(plan: &Plan, text: &[u8], number: u64) -> Result<String, AllocError> {
    let (alloc, reading) = (plan.rt.alloc(), &plan.reading);
    let lines = text.split_inclusive(|byte| *byte == b'\n');
    let above = lines.take(number.saturating_sub(1) as usize);
    let start = above.fold(0_u64, |start, line| start.saturating_add(line.len() as u64));
    match reading.file_at(start) {
        Some((name, begin)) if reading.names.len() > 1 => {
            let others = text.iter().take(begin as usize);
            let lines = others.filter(|byte| **byte == b'\n').count() as u64;
            format!(in alloc; "{name}: line {}", number.saturating_sub(lines))
        }
        _ => format!(in alloc; "line {number}"),
    }
}

/// Reports which word of a line of the input is at fault, or that the input is no text.
fn note_line(plan: &Plan, number: u64, errors: &mut Stderr) -> io::Result<()> {
    let Kept::Text(text) = &plan.reading.kept else {
        return Ok(());
    };
    if begins_stream(text) {
        return writeln!(errors, "gpurace: the input is packed already");
    }
    let name = line_name(plan, text, number)?;
    put_bad_line(errors, text, name.as_str())
}

/// Reports which side file has a line that is out of form, and the form. A file of sites is read as the places that are made of it.
fn note_side(plan: &Plan, is_of_places: bool, errors: &mut Stderr) -> io::Result<()> {
    let files = &plan.files;
    match (&files.places, &files.buffers) {
        (Some(path), _) if is_of_places && files.has_piece(path.as_str()) => {
            note_file(path.as_str(), SITES, errors)
        }
        (Some(path), _) if is_of_places => note_file(path.as_str(), PLACES, errors),
        (_, Some(path)) if !is_of_places => note_buffers(path.as_str(), errors),
        (_, _) => Ok(()),
    }
}

/// Reports which file of buffers has a line that is out of form, and the form.
pub fn note_buffers(path: &str, errors: &mut Stderr) -> io::Result<()> {
    note_file(path, BUFFERS, errors)
}

/// Opens a file, and reads of it if asked to. Pipes are left as they are.
fn try_file(rt: HostRuntime, name: &str, is_read: bool) -> io::Result<()> {
    if !matches!(file_kind(rt, name), FileKind::Input | FileKind::Pipe) {
        let mut file = File::open(&rt, name)?;
        if is_read {
            file.read(&mut [0u8; 1])?;
        }
    }
    Ok(())
}

/// The first file that can't be opened, or read, and why. Side files come before those of streams.
fn first_error(plan: &Plan, is_read: bool) -> Option<(&str, io::Error)> {
    let files = &plan.files;
    let sides = files.places.iter().chain(&files.buffers);
    let names = files.names.iter().chain(&plan.reading.names);
    let mut names = sides
        .filter(|_| files.takes_sides)
        .chain(names.filter(|name| !files.has_piece(name.as_str())));
    names.find_map(|name| {
        let error = try_file(plan.rt, name.as_str(), is_read).err()?;
        Some((name.as_str(), error))
    })
}

/// The file that can't be read, and why: the first that can't be opened, or else the first that can't be read.
fn unread_of(plan: &Plan) -> Option<(&str, io::Error)> {
    first_error(plan, false).or_else(|| first_error(plan, true))
}

/// The name of a file, and why it can't be opened or read.
pub fn reason_of(alloc: Global, name: &str, error: &io::Error) -> Result<String, AllocError> {
    let text = format!(in alloc; "{error}")?;
    let name = if name.is_empty() { "''" } else { name };
    match text.as_str().split_once(" (os error ") {
        None => format!(in alloc; "{name}: {text}"),
        Some((message, _)) => format!(in alloc; "{name}: {message}"),
    }
}

/// Reports that a folder has no stream, or that it holds the folders of launches; or that the command takes no folder.
fn note_folder(rt: HostRuntime, name: &str, command: &str, to: &mut Stderr) -> io::Result<()> {
    match launch_in(rt, name) {
        _ if command == "pack" => note_file(name, "this is a folder; pack takes files of text", to),
        Some(launch) => writeln!(
            to,
            "gpurace: {}: this folder holds launches; give one of them, such as {}",
            Escaped(name),
            Escaped(launch.as_str())
        ),
        None => note_file(
            name,
            "no stream in this folder: no file whose name ends in .gpurace",
            to,
        ),
    }
}

/// Reports which file can't be read, and why.
fn note_unread(
    plan: &Plan,
    command: &str,
    name: &str,
    error: &io::Error,
    errors: &mut Stderr,
) -> io::Result<()> {
    let mut sides = plan.files.places.iter().chain(&plan.files.buffers);
    if error.kind() == ErrorKind::IsADirectory && sides.all(|side| side.as_str() != name) {
        return note_folder(plan.rt, name, command, errors);
    }
    let reason = reason_of(plan.rt.alloc(), name, error)?;
    writeln!(errors, "gpurace: {}", Escaped(reason.as_str()))
}

/// A stream at fault, and whether the fault is in its header.
#[derive(Clone, Copy)]
struct Faulty {
    stream: u64,
    is_header: bool,
}

/// Writes where in a file the fault of a stream is.
fn put_place(to: &mut Stderr, faulty: Faulty, name: &str, account: &Account) -> io::Result<()> {
    write!(to, "gpurace: {}: stream {}, ", Escaped(name), faulty.stream)?;
    match account.header {
        _ if faulty.is_header => writeln!(to, "at its header"),
        _ if account.fault == Some(RecordError::AfterEnd) => writeln!(to, "after its end"),
        Some(_) => writeln!(to, "at its record {}", account.records),
        None => writeln!(to, "at its header"),
    }
}

/// Writes what may have caused the fault of a stream, if that is known.
fn put_reason(to: &mut Stderr, faulty: Faulty, name: &str, account: &Account) -> io::Result<()> {
    let (Faulty { stream, is_header }, name) = (faulty, Escaped(name));
    if is_header && account.is_text() && account.starts.is_empty() {
        writeln!(
            to,
            "gpurace: {name} is a text, of which gpurace pack makes a trace"
        )
    } else if is_header && account.is_text() {
        writeln!(to, "gpurace: in {name} a text follows packed streams")
    } else if !is_header && account.has_header_inside() {
        let record = account.records;
        writeln!(
            to,
            "gpurace: stream {stream} is truncated: the next stream begins in its record {record}"
        )
    } else {
        Ok(())
    }
}

/// Writes where the fault of a stream is, if its file has a name, and what may have caused it.
fn put(to: &mut Stderr, faulty: Faulty, name: Option<&str>, account: &Account) -> io::Result<()> {
    match name {
        Some(name) if account.is_empty() => note_file(name, "the file is empty", to),
        Some(name) => {
            put_place(to, faulty, name, account)?;
            put_reason(to, faulty, name, account)
        }
        None => put_reason(to, faulty, "the input", account),
    }
}

/// The account of a file's one stream, up to its first record at fault; none if it can't be read again, or memory runs out.
fn account_again(plan: &Plan, name: &str) -> Option<Account> {
    if !plan.files.has_piece(name) && file_kind(plan.rt, name) != FileKind::File {
        return None;
    }
    let mut source = plan.files.open(name).ok()?;
    let mut account = Account::new(plan.rt.alloc(), false);
    account.last = Some(0);
    match account.read(&mut source, &mut Seen::default(), None) {
        Err(Fault::Memory) => None,
        Ok(()) | Err(_) => Some(account),
    }
}

/// Reports the fault of a stream that is read from a file of its own or from the input.
fn note_stream(to: &mut Stderr, plan: &mut Plan, stream: u64, is_header: bool) -> io::Result<()> {
    let (number, faulty) = (stream as usize, Faulty { stream, is_header });
    if let Some(name) = plan.files.names.get(number) {
        let name = name.as_str();
        return match account_again(plan, name) {
            None => writeln!(to, "gpurace: {}: stream {number}", Escaped(name)),
            Some(account) => put(to, faulty, Some(name), &account),
        };
    }
    let kept = mem::replace(&mut plan.reading.kept, Kept::Nothing);
    let Kept::Streams(mut account) = kept else {
        return Ok(());
    };
    account.last = Some(stream);
    if account.pass(&mut Seen::default()).is_err() {
        return Ok(());
    }
    let start = account.starts.get(number).copied();
    let file = plan.reading.file_at(start.unwrap_or(account.passed));
    let name = file.map(|(name, _)| name);
    put(to, faulty, name, &account)
}

/// Reports that `run` reads one stream of a pipe, if this one is of a pipe.
fn note_pipe(plan: &Plan, stream: u64, to: &mut Stderr) -> io::Result<()> {
    match plan.files.names.get(stream as usize) {
        Some(name) if file_kind(plan.rt, name.as_str()) == FileKind::Pipe => {
            let name = Escaped(name.as_str());
            writeln!(to, "gpurace: {name} is a pipe: run reads one stream of it")
        }
        _ => Ok(()),
    }
}
