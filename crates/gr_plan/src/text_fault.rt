//! Which word of a line of a text is at fault, and what should be in its place (docs/FORMATS.md, "Text form").

use gr_model::limits::MOST_RECORDS;
use gr_places::escaped::Escaped;
use gr_record::header::{Header, Version};
use gr_text::place::{Place, take_line};
use gr_text::words::{is_word, parse_number, parse_short};
use std::io::{self, Stderr, Write};

/// How many bytes of a word are shown, at most.
const MOST_SHOWN: usize = 64;

/// The numbers of headers and records are below this.
const MOST_NUMBERS: usize = 1 << 32;

/// What may come after the last word, if a record may have a site.
const SITE_OR_END: &str = "@ and a site from 1 to 65535, or the end of the line";

/// Words; one of them is due.
type Words = &'static [&'static str];

/// What is due in the place of a word.
#[derive(Clone, Copy)]
enum Due {
    /// The word that begins a header.
    Header,
    /// How many items a group has: from 1 to this number.
    Items(usize),
    /// An item below this number, or the word that ends a stream.
    Item(usize),
    /// A number below this one, and what it counts.
    Number(&'static str, usize),
    /// One of these words.
    Word(Words),
    /// One of these words, or the end of the line; or a site before the end, if the flag is set.
    Last(Words, bool),
}

/// The first line of a text that is not allowed in its place, and the place.
fn bad_line(text: &[u8]) -> Option<(&[u8], Place)> {
    let mut place = Place::Outside;
    for line in text.split(|byte| *byte == b'\n') {
        match take_line(0, place, line) {
            Ok((_, after)) => place = after,
            Err(_) => return Some((line, place)),
        }
    }
    None
}

/// The word at this place of a line, from 0; none if the line ends before it.
fn word_at(line: &[u8], at: usize) -> Option<&[u8]> {
    if line.is_empty() {
        return None;
    }
    line.split(|byte| *byte == b' ').nth(at)
}

/// The word at this place of a line, or an empty one if the line ends before it.
fn word_or_none(line: &[u8], at: usize) -> &[u8] {
    word_at(line, at).unwrap_or(&[])
}

/// Whether a word is one of these.
fn is_among(word: &[u8], words: &[&str]) -> bool {
    words.iter().any(|it| is_word(word, it))
}

/// Whether a word is the site of a record.
fn is_site(word: &[u8]) -> bool {
    let number = word.strip_prefix(b"@").and_then(parse_short);
    number.is_some_and(|site| site > 0)
}

/// The version of the stream of a line. That of a header is at the end of its line.
fn version_of(place: Place, line: &[u8]) -> Version {
    match (place, line) {
        (Place::Inside { header, .. }, _) => header.version,
        (_, [.., b' ', b'v', b'4']) => Version::Four,
        (_, [.., b' ', b'v', b'3']) => Version::Three,
        (_, [.., b' ', b'v', b'2']) => Version::Two,
        _ => Version::One,
    }
}

/// What is due at this place of the line of a header of this version.
fn due_in_header(version: Version, at: usize) -> Due {
    match at {
        0 => Due::Header,
        1 => Due::Number("a group", version.most_groups()),
        2 => Due::Word(&["items"]),
        3 => Due::Items(usize::from(version.most_items())),
        4 => Due::Word(&["launch"]),
        5 => Due::Number("a number", MOST_NUMBERS),
        6 => Due::Last(&["v2", "v3", "v4"], false),
        _ => Due::Last(&[], false),
    }
}

/// What is due among the names of an acquire, at this place from the first name, in a stream of this version.
fn due_in_names(version: Version, at: usize) -> Due {
    match at % 4 {
        0 if at / 4 < version.places() => Due::Last(&["<"], version.has_sites()),
        0 => Due::Last(&[], version.has_sites()),
        1 => Due::Number("a group", version.most_groups()),
        2 => Due::Number("an item", usize::from(version.most_items())),
        _ => Due::Number("a release", MOST_RECORDS),
    }
}

/// What is due at this place of the line of a record in a stream of this header, if the words before it are right.
fn due_in_record(header: Header, line: &[u8], at: usize) -> Due {
    let version = header.version;
    let verb = word_or_none(line, 1);
    let (is_end, is_barrier) = (is_word(word_or_none(line, 0), "end"), is_word(verb, "bar"));
    let orders: Words = match verb {
        b"ld" => &["rlx", "acq"],
        b"st" => &["rlx", "rel"],
        b"rmw" => &["rlx", "acq", "rel", "both"],
        _ => &[],
    };
    match at {
        0 => Due::Item(usize::from(header.items)),
        _ if is_site(word_or_none(line, at - 1)) => Due::Last(&[], false),
        1 if is_end => Due::Last(&["cut"], version.has_sites()),
        1 => Due::Word(&["r", "w", "ld", "st", "rmw", "bar"]),
        2 if is_end => Due::Last(&[], version.has_sites()),
        2 if is_barrier => Due::Number("a number", MOST_NUMBERS),
        3 if is_barrier => Due::Word(&["-", "g", "l", "gl"]),
        2 => Due::Word(&["g", "l"]),
        3 => Due::Number("a number", MOST_NUMBERS),
        4 if !orders.is_empty() => Due::Word(&["grp", "dev"]),
        5 if !orders.is_empty() => Due::Word(orders),
        6.. if is_among(word_or_none(line, 5), &["acq", "both"]) => due_in_names(version, at - 6),
        _ => Due::Last(&[], version.has_sites()),
    }
}

/// What is due at this place of a line, if its stream is of this version.
fn due_at(place: Place, version: Version, line: &[u8], at: usize) -> Due {
    match place {
        Place::Outside => due_in_header(version, at),
        Place::Inside { header, .. } => due_in_record(Header { version, ..header }, line, at),
    }
}

/// What would allow the word at this place of a line: no zero before it, another version, or another order; nothing if none would.
fn remedy(place: Place, line: &[u8], at: usize) -> &'static str {
    let word = word_or_none(line, at);
    let allows = |version| due_at(place, version, line, at).is_met(word);
    match version_of(place, line) {
        _ if matches!(word, [b'0', b'0'..=b'9', ..]) => ", without a leading zero",
        Version::One if allows(Version::Three) => "; allowed if the header ends with v3 or v4",
        Version::One if allows(Version::Two) => "; allowed if the header ends with v2 or v4",
        _ if allows(Version::Four) => "; allowed if the header ends with v4",
        _ if is_word(word, "<") && at <= 6 => "; names need the order acq or both",
        _ => "",
    }
}

impl Due {
    /// Whether a word is one that is due.
    fn is_met(self, word: &[u8]) -> bool {
        let number = parse_number(word).map(|it| it as usize);
        match self {
            Due::Header => is_word(word, "group"),
            Due::Items(most) => number.is_some_and(|it| (1..=most).contains(&it)),
            Due::Item(items) => is_word(word, "end") || number.is_some_and(|it| it < items),
            Due::Number(_, below) => number.is_some_and(|it| it < below),
            Due::Word(words) => is_among(word, words),
            Due::Last(words, has_site) => is_among(word, words) || has_site && is_site(word),
        }
    }
}

/// Writes what is due: of several words with `or` before the last.
fn put_due(to: &mut Stderr, due: Due) -> io::Result<()> {
    let (words, or, last) = match due {
        Due::Header => return write!(to, "the header of a stream, which begins with group"),
        Due::Items(most) => return write!(to, "a number from 1 to {most}"),
        Due::Item(items) => return write!(to, "an item below {items}, or end"),
        Due::Number(what, below) => return write!(to, "{what} below {below}"),
        Due::Word(words) => match words.split_last() {
            None => return Ok(()),
            Some((last, words)) => (words, " or ", *last),
        },
        Due::Last(words, false) => (words, " or ", "the end of the line"),
        Due::Last(words, true) => (words, ", ", SITE_OR_END),
    };
    for (at, word) in words.iter().enumerate() {
        write!(to, "{}{word}", if at == 0 { "" } else { ", " })?;
    }
    write!(to, "{}{last}", if words.is_empty() { "" } else { or })
}

/// Writes the word at fault at a place of a line, what is due there, and what would allow the word.
fn put_bad_word(to: &mut Stderr, place: Place, line: &[u8], at: usize) -> io::Result<()> {
    write!(to, ", word {}: ", at.saturating_add(1))?;
    let word = word_or_none(line, at);
    let shown = word.get(..MOST_SHOWN).unwrap_or(word).escape_ascii();
    match word_at(line, at) {
        None => write!(to, "the line ends")?,
        Some([]) => write!(to, "a space too many")?,
        Some(_) => write!(to, "{shown}")?,
    }
    write!(to, "; expected ")?;
    put_due(to, due_at(place, version_of(place, line), line, at))?;
    writeln!(to, "{}", remedy(place, line, at))
}

/// Writes which word is at fault in the first line at fault of a text, and what is due in its place. The line is called `name`.
pub fn put_bad_line(to: &mut Stderr, text: &[u8], name: &str) -> io::Result<()> {
    let Some((line, place)) = bad_line(text) else {
        return Ok(());
    };
    write!(to, "gpurace: {}", Escaped(name))?;
    for at in 0..usize::MAX {
        let due = due_at(place, version_of(place, line), line, at);
        match word_at(line, at) {
            Some(word) if due.is_met(word) => {}
            None if matches!(due, Due::Last(_, _)) => break,
            Some(_) | None => return put_bad_word(to, place, line, at),
        }
    }
    writeln!(to, ": its names do not ascend by group, item and number")
}
