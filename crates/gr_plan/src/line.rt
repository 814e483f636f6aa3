//! The words of a command line: the command, its options, and the others.

use crate::plan::Refusal;
use gr_arguments::words::number_of;
use gr_model::limits::{MOST_PLACES, MOST_QUEUES, MOST_WORKERS};
use gr_model::memory::Memory;

/// What a command does with the files that it is given.
#[derive(Clone, Copy)]
pub enum Taking {
    /// It reads them one after another, like standard input.
    Joined,
    /// It reads a stream from each. So many other words come before the files.
    Each(usize),
}

/// The words of a command line that has a command.
#[derive(Drop)]
pub struct Line<'a> {
    pub rt: HostRuntime,
    pub command: &'a str,
    /// Its options, each with its value if that is the next word.
    options: Vec<(&'a str, Option<&'a str>)>,
    /// All other words: files, and what comes before them.
    pub values: Vec<&'a str>,
}

/// What a command does with its files; `None` if there is no such command.
pub fn taking_of(command: &str) -> Option<Taking> {
    match command {
        "replay" | "pack" | "dump" | "upgrade" => Some(Taking::Joined),
        "races" | "run" | "check" => Some(Taking::Each(0)),
        "explain" | "history" => Some(Taking::Each(2)),
        "why-held" => Some(Taking::Each(3)),
        _ => None,
    }
}

/// Whether a word begins an option.
pub fn is_option(word: &str) -> bool {
    word.len() > 1 && word.starts_with('-')
}

/// Whether a word may be meant as a command: it has only small letters and hyphens.
pub fn may_be_command(word: &str) -> bool {
    word.bytes().all(|byte| matches!(byte, b'a'..=b'z' | b'-'))
}

/// Whether the word after this option is its value.
fn takes_value(option: &str) -> bool {
    matches!(
        option,
        "--places" | "--buffers" | "--most" | "--workers" | "--queues" | "--capacity"
    )
}

impl<'a> Line<'a> {
    /// The line of a command, with the words after it.
    pub fn of(rt: HostRuntime, command: &'a str, words: &'a [String]) -> Result<Line<'a>, Memory> {
        let (mut options, mut values) = (Vec::new(rt.alloc()), Vec::new(rt.alloc()));
        let mut words = words.iter().map(|word| word.as_str());
        while let Some(word) = words.next() {
            if word == "--" {
                values.extend(words)?;
                break;
            } else if takes_value(word) {
                options.push((word, words.next()))?;
            } else if is_option(word) {
                options.push((word, None))?;
            } else {
                values.push(word)?;
            }
        }
        Ok(Line {
            rt,
            command,
            options,
            values,
        })
    }

    /// The command and its options, with or without those that give a file of buffers.
    pub fn head(&self, has_buffers: bool) -> Result<Vec<&'a str>, Memory> {
        let mut words = Vec::new(self.rt.alloc());
        words.push(self.command)?;
        for (option, value) in &self.options {
            let gives_buffers = *option == "--buffers" || option.starts_with("--buffers=");
            if has_buffers || !gives_buffers {
                words.push(*option)?;
                words.extend(*value)?;
            }
        }
        Ok(words)
    }

    /// Whether the command takes side files.
    pub fn takes_sides(&self) -> bool {
        match self.command {
            "races" | "history" => true,
            "explain" => self.options.iter().any(|(option, _)| *option == "--long"),
            _ => false,
        }
    }

    /// The value of an option, if it is there.
    pub fn value_of(&self, option: &str) -> Option<&'a str> {
        self.options.iter().find_map(|(word, value)| {
            if *word == option {
                return *value;
            }
            word.strip_prefix(option)?.strip_prefix('=')
        })
    }

    /// Refuses the first of the command's options whose value is no number that it may have.
    pub fn check_numbers(&self) -> Result<(), Refusal> {
        for (command, option, least, most) in [
            ("races", "--most", 0, u32::MAX),
            ("run", "--workers", 1, u32::from(MOST_WORKERS)),
            ("run", "--queues", 1, u32::from(MOST_QUEUES)),
            ("run", "--capacity", 1, MOST_PLACES),
        ] {
            let value = self.value_of(option).filter(|_| command == self.command);
            let value = value.unwrap_or("1");
            if !number_of(value).is_some_and(|number| (least..=most).contains(&number)) {
                let text = format!(in self.rt.alloc();
                    "{option} takes a number from {least} to {most}, not '{value}'"
                );
                return Err(Refusal::Usage(text.map_err(Memory::from)?));
            }
        }
        Ok(())
    }

    /// The path that an option gives, if it is there.
    pub fn path_of(&self, option: &str) -> Result<Option<String>, Memory> {
        let path = self.value_of(option);
        let path = path.map(|path| String::from_str(self.rt.alloc(), path));
        Ok(path.transpose()?)
    }
}
