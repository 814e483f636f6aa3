//! How a command line is carried out: the words for `gr_command`, its input, and what names open.

use crate::account::Account;
use crate::files::{FileKind, Files, copies_of, file_kind, paths_of_streams};
use crate::line::{Line, Taking, is_option, may_be_command, taking_of};
use crate::named::{Naming, naming_in, spelling_of};
use crate::notes::note_file;
use crate::progress::Progress;
use crate::reading::{Kept, Reading};
use crate::seen::Sought;
use clap::error::ErrorKind;
use gr_arguments::request::Request;
use gr_arguments::request_of;
use gr_arguments::words::word_named;
use gr_model::memory::Memory;
use gr_places::sides_fault::SidesFault;
use gr_record::fault::Fault;
use std::alloc::Global;
use std::io::{self, IsTerminal, Stderr};
use std::sync::Arc;

/// How a command line is carried out.
#[derive(Drop)]
pub struct Plan {
    pub rt: HostRuntime,
    /// The words in place of the given ones, if they differ.
    pub words: Option<Vec<String>>,
    pub reading: Reading,
    pub files: Files,
    /// A note about the name of a word, if other words have it, too.
    pub name_note: Option<String>,
}

/// Why nothing is done.
#[derive(Debug, Drop)]
pub enum Refusal {
    /// Reading fails, or memory runs out.
    Fault(SidesFault),
    /// A file of buffers has a line that is out of form: the fault, and which file.
    Buffers(SidesFault, String),
    /// A file that is needed first can't be read: which file, and why.
    NoFile(String),
    /// The words are wrong: why.
    Usage(String),
}

impl From<Memory> for Refusal {
    fn from(_error: Memory) -> Refusal {
        Refusal::Fault(SidesFault::Run(Fault::Memory))
    }
}

impl From<Fault> for Refusal {
    fn from(fault: Fault) -> Refusal {
        Refusal::Fault(SidesFault::Run(fault))
    }
}

/// How a command line is carried out. The program's name is not among its words.
///
/// # Errors
/// Why nothing is done.
pub fn plan_of(rt: HostRuntime, words: &[String]) -> Result<Plan, Refusal> {
    let alloc = rt.alloc();
    let streams = Kept::Streams(Account::new(alloc, false));
    let mut plan = Plan {
        rt,
        words: None,
        reading: Reading::new(rt, Vec::new(alloc), streams)?,
        files: Files::new(rt),
        name_note: None,
    };
    plan.take_words(words)?;
    Ok(plan)
}

impl Plan {
    /// Lets the progress be reported, if standard error is a terminal.
    ///
    /// # Errors
    /// `Memory`: out of memory.
    pub fn watch(&mut self) -> Result<(), Memory> {
        let rt = self.rt;
        if rt.stderr().is_terminal() {
            let progress = Arc::new(rt.alloc(), Progress::new(rt, self.size()))?;
            self.reading.progress = Some(Arc::try_clone(&progress)?);
            self.files.progress = Some(progress);
        }
        Ok(())
    }

    /// Reports what an answer does not say of its word or its record. Of files that `check` refuses it names one that is empty.
    pub fn note_answer(&self, is_refused: bool, errors: &mut Stderr) -> io::Result<()> {
        let mut names = self.files.names.iter().filter(|_| is_refused);
        let empty = names.find(|name| self.files.size_of(name.as_str()) == Some(0));
        match (empty, &self.files.seen.sought) {
            (Some(name), _) => note_file(name.as_str(), "the file is empty", errors),
            (None, Some(sought)) => sought.report(errors),
            (None, None) => Ok(()),
        }
    }

    /// How many bytes are read, if that is known.
    fn size(&self) -> Option<u64> {
        let (given, names) = (&self.reading.names, &self.files.names);
        if given.is_empty() && names.is_empty() {
            return self.files.size_of("/dev/stdin");
        }
        let mut names = given.iter().chain(names);
        names.try_fold(0_u64, |size, name| {
            Some(size.saturating_add(self.files.size_of(name.as_str())?))
        })
    }

    /// Takes the words of a command line. If they are not a command on files, they stay as they are, and the input is standard input.
    fn take_words(&mut self, words: &[String]) -> Result<(), Refusal> {
        let Some(line) = line_of(self.rt, words)? else {
            if let [help, word] = words
                && help.as_str() == "help"
                && taking_of(word.as_str()).is_none()
            {
                // by itself an unknown command is refused with those that are like it
                self.words = Some(copies_of(self.rt.alloc(), &[word.as_str()])?);
            }
            return Ok(());
        };
        let Some(Taking::Each(leading)) = taking_of(line.command) else {
            return self.take_joined(&line);
        };
        if let Some(naming) = naming_in(&line, true) {
            return self.take_named(&naming);
        }
        if is_taken(self.rt.alloc(), words)? {
            let (before, names) = line.values.split_at(leading.min(line.values.len()));
            return self.take_each(&line, before, names);
        }
        if let (2, Some((word, names))) = (leading, word_at_end(&line.values)) {
            return self.take_each(&line, word, names);
        }
        line.check_numbers()?;
        naming_in(&line, false).map_or(Ok(()), |naming| naming.check())
    }

    /// Takes a command that reads its files as one.
    fn take_joined(&mut self, line: &Line<'_>) -> Result<(), Refusal> {
        let alloc = self.rt.alloc();
        let (kept, names) = if line.command == "pack" {
            (Kept::Text(Vec::new(alloc)), copies_of(alloc, &line.values)?)
        } else {
            let account = Account::new(alloc, line.command != "replay");
            (Kept::Streams(account), files_given(self.rt, &line.values)?)
        };
        self.reading = Reading::new(self.rt, names, kept)?;
        self.words = Some(copies_of(alloc, &line.head(true)?)?);
        Ok(())
    }

    /// Takes a command that reads a stream from each of these files, with these words before the files.
    fn take_each(
        &mut self,
        line: &Line<'_>,
        before: &[&str],
        names: &[&str],
    ) -> Result<(), Refusal> {
        self.files.seen.sought = Sought::new(before);
        self.files.add_all(line, names)?;
        self.words = Some(words_with(line, before, &self.files)?);
        Ok(())
    }

    /// Takes a command on a word that is given by its name.
    fn take_named(&mut self, naming: &Naming<'_, '_>) -> Result<(), Refusal> {
        let (word, note) = naming.word()?;
        let (space, number) = spelling_of(self.rt.alloc(), word).map_err(Memory::from)?;
        let before = [space.as_str(), number.as_str()];
        self.name_note = note;
        self.take_each(naming.line, &before, naming.files)
    }
}

/// The line of a command, or of `replay` if words without a command ask for a report; `None` if they are neither.
fn line_of<'a>(rt: HostRuntime, words: &'a [String]) -> Result<Option<Line<'a>>, Memory> {
    let Some((first, after)) = words.split_first() else {
        return Ok(None);
    };
    let line = match taking_of(first.as_str()) {
        Some(_) => Line::of(rt, first.as_str(), after),
        None if asks_for_report(rt, words) => Line::of(rt, "replay", words),
        None => return Ok(None),
    };
    Ok(Some(line?))
}

/// Whether words without a command ask for a report: the first word that is not the option of `replay`, if there is one, names a file
/// that is there, or can't be a mistyped command.
fn asks_for_report(rt: HostRuntime, words: &[String]) -> bool {
    let mut words = words.iter().map(|word| word.as_str());
    words.find(|word| *word != "--json").is_none_or(|word| {
        let is_other = is_option(word) || word == "help" || taking_of(word).is_some();
        !is_other && (!may_be_command(word) || file_kind(rt, word) != FileKind::Missing)
    })
}

/// The files of streams that names mean: those of a folder, or the name itself.
fn files_given(rt: HostRuntime, names: &[&str]) -> Result<Vec<String>, Refusal> {
    let mut given = Vec::new(rt.alloc());
    for name in names {
        let paths = match file_kind(rt, name) {
            FileKind::Folder => paths_of_streams(rt, name)?,
            _ => Vec::new(rt.alloc()),
        };
        if paths.is_empty() {
            let name = String::from_str(rt.alloc(), name).map_err(Memory::from)?;
            given.push(name).map_err(Memory::from)?;
        }
        given.extend(paths).map_err(Memory::from)?;
    }
    Ok(given)
}

/// The memory and the number of a word that come after the files, and the files.
fn word_at_end<'l, 'a>(values: &'l [&'a str]) -> Option<(&'l [&'a str], &'l [&'a str])> {
    let (files, word) = values.split_at(values.len().checked_sub(2)?);
    match word {
        [space, number] if !files.is_empty() && word_named(space, number).is_some() => {
            Some((word, files))
        }
        _ => None,
    }
}

/// Whether the words of a command on files are right, and ask for something.
fn is_taken(alloc: Global, words: &[String]) -> Result<bool, Memory> {
    match request_of(alloc, words) {
        Ok(request) => Ok(!matches!(request, Request::Refuse(_))),
        Err(error) if error.kind() == ErrorKind::OutOfMemory => Err(Memory),
        Err(_) => Ok(false),
    }
}

/// The words of a command on these files, after these other words. If the command takes no side files, a file of buffers is left out:
/// it only served to find a word by its name.
fn words_with<'a>(
    line: &Line<'a>,
    before: &[&'a str],
    files: &'a Files,
) -> Result<Vec<String>, Memory> {
    let mut words = line.head(files.takes_sides)?;
    for (option, path) in [("--places", &files.places), ("--buffers", &files.buffers)] {
        if let (Some(path), None, true) = (path, line.value_of(option), files.takes_sides) {
            words.extend_from_slice(&[option, path.as_str()])?;
        }
    }
    words.push("--")?;
    words.extend_from_slice(before)?;
    words.extend(files.names.iter().map(|name| name.as_str()))?;
    copies_of(line.rt.alloc(), &words)
}
