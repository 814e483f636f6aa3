//! What is seen in the records of files while their streams are found: whether they access the word that is asked for, or how many there
//! are of the item of the record that is asked for; and where in the source they are, by their sites and the folder's file `sites`.

use gr_arguments::words::{event_named, word_named};
use gr_model::event::{Event, EventId, ItemId, Kind, Word, word_of};
use gr_model::memory::Memory;
use gr_record::header::Header;
use itoa::Buffer;
use std::alloc::Global;
use std::io::{self, Stderr, Write};

/// What is asked for.
#[derive(Clone, Copy)]
enum Asked {
    Word(Word),
    Record(EventId),
}

/// A word or a record that is asked for, and what was seen of it.
#[derive(Clone, Copy)]
pub struct Sought {
    asked: Asked,
    /// How many accesses to the word, or records of the record's item, were seen.
    seen: u32,
    /// How many items the group of the record, or of the word's local memory, has, if it was seen.
    items: Option<u16>,
    /// The first group that is cut and may have it, and how many such groups there are.
    cut: Option<(u16, u32)>,
}

impl Sought {
    /// The word or the record that the command line names before the files. Nothing of it was seen.
    pub fn new(words: &[&str]) -> Option<Sought> {
        let asked = match words {
            [space, number] => Asked::Word(word_named(space, number)?),
            [group, item, index] => Asked::Record(event_named(group, item, index)?),
            _ => return None,
        };
        Some(Sought {
            asked,
            seen: 0,
            items: None,
            cut: None,
        })
    }

    /// The group that alone may have it, if there is one.
    fn group(&self) -> Option<u16> {
        match self.asked {
            Asked::Word(Word::Global(_)) => None,
            Asked::Word(Word::Local(group, _)) => Some(group),
            Asked::Record(event) => Some(event.at.group),
        }
    }

    /// Sees a record of a group.
    fn pass(&mut self, group: u16, event: &Event) {
        let is_counted = match self.asked {
            Asked::Word(word) => word_of(group, event) == Some(word),
            Asked::Record(EventId { at, .. }) => {
                (at.group, at.item) == (group, event.item) && !event.kind.is_end()
            }
        };
        self.seen = self.seen.saturating_add(u32::from(is_counted));
        let may_have = self.group().is_none_or(|of| of == group);
        if may_have && event.kind == (Kind::End { cut: true }) {
            let (first, groups) = self.cut.unwrap_or((group, 0));
            self.cut = Some((first.min(group), groups.saturating_add(1)));
        }
    }

    /// Reports that its group has no such item, or that the item has fewer records.
    fn report_item(&self, at: ItemId, errors: &mut Stderr) -> io::Result<()> {
        let (ItemId { group, item }, records) = (at, self.seen);
        match self.items {
            Some(items) if items <= item => writeln!(
                errors,
                "gpurace: group {group} has no item {item}: its items are below {items}"
            ),
            Some(_) | None => writeln!(
                errors,
                "gpurace: item {item} of group {group} has fewer records: {records}"
            ),
        }
    }

    /// Reports if no record accesses the word, or if the record is not there, and if records were lost that may.
    pub fn report(&self, errors: &mut Stderr) -> io::Result<()> {
        if matches!(self.asked, Asked::Record(event) if event.index < self.seen) {
            return Ok(());
        }
        match self.cut {
            None => {}
            Some((group, 1)) => writeln!(errors, "gpurace: records of group {group} were lost")?,
            Some((group, groups)) => writeln!(
                errors,
                "gpurace: records of {groups} groups were lost (the first is group {group})"
            )?,
        }
        match (self.group(), self.asked) {
            (Some(group), _) if self.items.is_none() => {
                writeln!(errors, "gpurace: the launch has no group {group}")
            }
            (_, Asked::Record(EventId { at, .. })) => self.report_item(at, errors),
            _ if self.seen > 0 => Ok(()),
            (_, Asked::Word(Word::Global(word))) => writeln!(
                errors,
                "gpurace: no record accesses word {word} of global memory"
            ),
            (_, Asked::Word(Word::Local(group, word))) => writeln!(
                errors,
                "gpurace: no record accesses word {word} of group {group}'s local memory"
            ),
        }
    }
}

/// Makes the lines of a file of places (docs/FORMATS.md, "Side files") from records.
#[derive(Drop)]
pub struct Sited {
    /// The file of sites.
    sites: Vec<u8>,
    /// Where each line of it begins, and where it ends.
    lines: Vec<(usize, usize)>,
    /// How many records of each item of the present group have passed.
    passed: Vec<u32>,
    /// The barriers that have a line.
    barriers: Vec<u32>,
    /// The lines of places.
    pub places: Vec<u8>,
}

impl Sited {
    /// For a folder whose file of sites has this text. No record has passed.
    pub fn new(alloc: Global, sites: Vec<u8>) -> Result<Sited, Memory> {
        let (mut lines, mut start) = (Vec::new(alloc), 0_usize);
        for line in sites.split_inclusive(|byte| *byte == b'\n') {
            let place = line.strip_suffix(b"\n").unwrap_or(line);
            lines.push((start, start.saturating_add(place.len())))?;
            start = start.saturating_add(line.len());
        }
        Ok(Sited {
            lines,
            sites,
            passed: Vec::new(alloc),
            barriers: Vec::new(alloc),
            places: Vec::new(alloc),
        })
    }

    /// Adds the line of a group's record of this site, if it has one: 0 is none. `event` is what the record says. Barriers of one site
    /// have one line.
    fn pass(&mut self, group: u16, event: &Event, site: u16) -> Result<(), Memory> {
        let Some(passed) = self.passed.get_mut(usize::from(event.item)) else {
            return Ok(());
        };
        let index = *passed;
        *passed = index.saturating_add(1);
        let line = usize::from(site).checked_sub(1);
        let Some(place) = line.and_then(|line| self.lines.get(line)).copied() else {
            return Ok(());
        };
        match event.kind {
            Kind::Barrier { .. } if self.barriers.contains(&event.word) => Ok(()),
            Kind::Barrier { .. } => {
                self.barriers.push(event.word)?;
                self.add_line(&[event.word], place)
            }
            _ => self.add_line(&[u32::from(group), u32::from(event.item), index], place),
        }
    }

    /// Adds a line: these numbers, and the place.
    fn add_line(&mut self, numbers: &[u32], place: (usize, usize)) -> Result<(), Memory> {
        for number in numbers {
            let mut buffer = Buffer::new();
            self.places
                .extend_from_slice(buffer.format(*number).as_bytes())?;
            self.places.push(b' ')?;
        }
        self.places
            .extend_from_slice(self.sites.get(place.0..place.1).unwrap_or(&[]))?;
        self.places.push(b'\n')?;
        Ok(())
    }
}

/// Sees each header and each record.
#[derive(Drop, Default)]
pub struct Seen {
    /// Makes the places of a folder from its sites, if these are wanted.
    pub sited: Option<Sited>,
    /// Looks for a word or a record, if one is asked for.
    pub sought: Option<Sought>,
}

impl Seen {
    /// Passes the header of a stream.
    pub fn begin(&mut self, header: &Header) -> Result<(), Memory> {
        if let Some(sought) = &mut self.sought
            && sought.group() == Some(header.group)
        {
            sought.items = Some(header.items);
        }
        if let Some(sited) = &mut self.sited {
            sited.passed.clear();
            sited.passed.resize(usize::from(header.items), 0)?;
        }
        Ok(())
    }

    /// Whether nobody sees the records.
    pub fn is_blind(&self) -> bool {
        self.sited.is_none() && self.sought.is_none()
    }

    /// Passes a record of a stream of this header, which has this site. `event` is what it says.
    pub fn pass(&mut self, header: &Header, event: &Event, site: u16) -> Result<(), Memory> {
        if let Some(sought) = &mut self.sought {
            sought.pass(header.group, event);
        }
        match &mut self.sited {
            Some(sited) if !event.kind.is_end() => sited.pass(header.group, event, site),
            _ => Ok(()),
        }
    }
}
