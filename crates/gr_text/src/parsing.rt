//! Reading the line of a header and of a record.

ghost use Rattle.std.specs.Prelude.{◌≡◌, ◌≢◌, ◌^◌, ◌<◌, ◌++◌, ℕ, List, Some, None, IfSome, MatchOption, All, decimal, ◌≤◌, take, []};
ghost use Rattle.std.specs.Option.{option_map};
ghost use Rattle.gr_text.specs.Prelude.{at_end, space_said, scope_said, order_said, flags_said, header_made, header_said, version_said, name_said, names_said, kind_said, atomic_said, barrier_said, event_said, checked, line_said, sited_said, Line, SitedLine, line_text, IsSaid, Two};

use crate::line::{Line, SitedLine};
use crate::words::{is_word, parse_number, parse_short, split_at_mark, split_word};
use gr_model::event::{Event, ItemId, Kind, Name, Order, Scope, Space};
use gr_model::limits::MOST_NAMES;
use gr_model::names::Names;
use gr_record::header::{Header, Version};
use gr_record::reading::{naming, order_fits};

/// The name in the unused places of an array.
const UNUSED: Name = Name {
    at: ItemId { group: 0, item: 0 },
    release: 0,
};

#[tactic(auto, unfolding(crate::specs::LineReading::space_said, crate::specs::LineReading::same))]
fn parse_space(word: &[u8]) -> Option<Space>
    ensures { result ≡ space_said word.now }
{
    match word {
        b"g" => Some(Space::Global),
        b"l" => Some(Space::Local),
        _ => None,
    }
}

#[tactic(auto, unfolding(crate::specs::LineReading::scope_said, crate::specs::LineReading::same))]
fn parse_scope(word: &[u8]) -> Option<Scope>
    ensures { result ≡ scope_said word.now }
{
    match word {
        b"grp" => Some(Scope::Group),
        b"dev" => Some(Scope::Device),
        _ => None,
    }
}

#[tactic(auto, unfolding(crate::specs::LineReading::order_said, crate::specs::LineReading::same))]
fn parse_order(word: &[u8]) -> Option<Order>
    ensures { result ≡ order_said word.now }
{
    match word {
        b"rlx" => Some(Order::Relaxed),
        b"acq" => Some(Order::Acquire),
        b"rel" => Some(Order::Release),
        b"both" => Some(Order::Both),
        _ => None,
    }
}

/// The memories that a barrier's flags name, the global one first.
#[tactic(auto, unfolding(crate::specs::LineReading::flags_said, crate::specs::LineReading::same))]
fn parse_flags(word: &[u8]) -> Option<(bool, bool)>
    ensures { result ≡ flags_said word.now }
{
    match word {
        b"-" => Some((false, false)),
        b"g" => Some((true, false)),
        b"l" => Some((false, true)),
        b"gl" => Some((true, true)),
        _ => None,
    }
}

/// The header of these numbers, if they are in range.
fn make_header(version: Version, group: u16, items: u16, launch: u32) -> Option<Header>
    ensures { result ≡ header_made version group items launch }
{
    let fits = usize::from(group) < version.most_groups()
        && 1 <= items
        && items <= version.most_items();
    fits.then_some(Header {
        version,
        group,
        items,
        launch,
    })
}

/// The version that the words after the launch of a header's line give.
#[tactic(auto, unfolding(crate::specs::LineReading::same))]
fn parse_version(bytes: Option<&[u8]>) -> Option<Version>
    ensures { result ≡ version_said (option_map (λ rest. rest.now) bytes.entry) }
{
    match bytes {
        None => Some(Version::One),
        Some(b"v2") => Some(Version::Two),
        Some(b"v3") => Some(Version::Three),
        Some(b"v4") => Some(Version::Four),
        Some(_) => None,
    }
}

/// The header of a line, from the words after `group`.
#[tactic(auto, unfolding(crate::specs::LineReading::header_said))]
fn parse_header(bytes: &[u8]) -> Option<Header>
    ensures { result ≡ header_said bytes.now }
{
    let (group, rest) = split_word(bytes);
    let (key, rest) = split_word(rest?);
    let (items, rest) = split_word(rest?);
    let (other_key, rest) = split_word(rest?);
    let (launch, rest) = split_word(rest?);
    let version = parse_version(rest)?;
    if !is_word(key, "items") || !is_word(other_key, "launch") {
        return None;
    }
    make_header(
        version,
        parse_short(group)?,
        parse_short(items)?,
        parse_number(launch)?,
    )
}

/// The name at the start of the bytes, and what comes after it.
#[tactic(auto, unfolding(crate::specs::LineReading::name_said))]
fn parse_name(bytes: &[u8]) -> Option<(Name, Option<&[u8]>)>
    ensures { option_map (λ x. (x.0, option_map (λ rest. rest.now) x.1)) result ≡ name_said bytes.now }
{
    let (sign, rest) = split_word(bytes);
    let (group, rest) = split_word(rest?);
    let (item, rest) = split_word(rest?);
    let (release, rest) = split_word(rest?);
    if !is_word(sign, "<") {
        return None;
    }
    let at = ItemId {
        group: parse_short(group)?,
        item: parse_short(item)?,
    };
    let release = parse_number(release)?;
    Some((Name { at, release }, rest))
}

/// The names after an acquire's order, if there are some, and how many places of the array they take.
#[tactic(auto, using(crate::proofs::Steps::name_steps), unfolding(crate::specs::LineReading::names_said))]
fn parse_names(bytes: Option<&[u8]>) -> Option<([Name; MOST_NAMES], usize)>
    ensures few { IfSome result (λ x. x.1 ≤ MOST_NAMES) }
    ensures names { option_map (λ x. take x.1 x.0) result ≡ names_said (option_map (λ rest. rest.now) bytes.entry) MOST_NAMES }
{
    let mut names = [UNUSED; MOST_NAMES];
    let mut rest = bytes;
    for place in 0..MOST_NAMES {
        let Some(bytes) = rest else {
            return Some((names, place));
        };
        let (name, behind) = parse_name(bytes)?;
        names[place] = name;
        rest = behind;
    }
    rest.is_none().then_some((names, MOST_NAMES))
}

#[tactic(auto, unfolding(crate::specs::LineReading::kind_said, crate::specs::LineReading::same))]
fn parse_kind(word: &[u8], scope: Scope, order: Order) -> Option<Kind>
    ensures { result ≡ kind_said word.now scope order }
{
    match word {
        b"ld" => Some(Kind::Load(scope, order)),
        b"st" => Some(Kind::Store(scope, order)),
        b"rmw" => Some(Kind::Rmw(scope, order)),
        _ => None,
    }
}

/// An atomic access, from the bytes after its word.
#[tactic(auto, unfolding(crate::specs::LineReading::atomic_said))]
fn parse_atomic(kind: &[u8], item: u16, space: Space, word: u32, bytes: &[u8]) -> Option<Event>
    ensures { result ≡ atomic_said kind.now item space word bytes.now }
{
    let (scope, rest) = split_word(bytes);
    let (order, rest) = split_word(rest?);
    let scope = parse_scope(scope)?;
    let order = parse_order(order)?;
    let kind = parse_kind(kind, scope, order)?;
    let (names, used) = parse_names(rest)?;
    let names = naming(Version::Four, kind, &names[..used])?;
    Some(Event {
        item,
        kind,
        space,
        word,
        names,
    })
}

/// A record that carries no name.
fn plain(item: u16, kind: Kind, space: Space, word: u32) -> Event
    ensures { result ≡ record { item = item; kind = kind; space = space; word = word; names = [] } }
{
    Event {
        item,
        kind,
        space,
        word,
        names: Names::none(),
    }
}

#[tactic(auto, unfolding(crate::specs::LineReading::barrier_said))]
fn parse_barrier(item: u16, site: &[u8], flags: &[u8]) -> Option<Event>
    ensures { result ≡ barrier_said item site.now flags.now }
{
    let word = parse_number(site)?;
    let (global, local) = parse_flags(flags)?;
    let kind = Kind::Barrier { global, local };
    Some(plain(item, kind, Space::Global, word))
}

/// The event, if nothing comes after it.
fn at_end(rest: Option<&[u8]>, event: Option<Event>) -> Option<Event>
    ensures { result ≡ at_end (option_map (λ rest. rest.now) rest.entry) event }
{
    if rest.is_some() { None } else { event }
}

/// The record of a line, from the words after the item.
#[tactic(auto, unfolding(crate::specs::LineReading::event_said, crate::specs::LineReading::same))]
fn parse_event(item: u16, bytes: &[u8]) -> Option<Event>
    ensures { result ≡ event_said item bytes.now }
{
    let (kind, rest) = split_word(bytes);
    let (second, rest) = split_word(rest?);
    let (third, rest) = split_word(rest?);
    if is_word(kind, "bar") {
        return at_end(rest, parse_barrier(item, second, third));
    }
    let space = parse_space(second)?;
    let word = parse_number(third)?;
    match kind {
        b"r" => at_end(rest, Some(plain(item, Kind::Read, space, word))),
        b"w" => at_end(rest, Some(plain(item, Kind::Write, space, word))),
        _ => parse_atomic(kind, item, space, word, rest?),
    }
}

/// The event, if some stream of this version may have it.
fn check(version: Version, event: Event) -> Option<Event>
    ensures { result ≡ checked version event }
{
    let fits = event.item < version.most_items()
        && order_fits(event.kind)
        && naming(version, event.kind, event.names.as_slice()).is_some();
    fits.then_some(event)
}

/// What a line of a stream of this version says, word by word.
#[tactic(auto, unfolding(crate::specs::LineReading::line_said))]
fn read_line(version: Version, line: &[u8]) -> Option<Line>
    ensures { result ≡ line_said version line.now }
{
    let (first, rest) = split_word(line);
    if is_word(first, "group") {
        return Some(Line::Header(parse_header(rest?)?));
    }
    if is_word(first, "end") {
        return match rest {
            None => Some(Line::Event(Event::end(false))),
            Some(bytes) if is_word(bytes, "cut") => Some(Line::Event(Event::end(true))),
            Some(_) => None,
        };
    }
    let item = parse_short(first)?;
    let event = parse_event(item, rest?)?;
    Some(Line::Event(check(version, event)?))
}

/// What a line of a stream of this version says, with the site at its end.
#[tactic(auto, unfolding(crate::specs::LineReading::sited_said, crate::specs::LineReading::unspaced, crate::specs::LineReading::same))]
pub(crate) fn read_sited_line(version: Version, line: &[u8]) -> Option<SitedLine>
    ensures { result ≡ sited_said version line.now }
{
    let (before, behind) = split_at_mark(line, b'@');
    let Some(behind) = behind else {
        let line = read_line(version, before)?;
        return Some(SitedLine { line, site: 0 });
    };
    if !version.has_sites() {
        return None;
    }
    let site = parse_short(behind).filter(|site| *site != 0)?;
    match read_line(version, before.strip_suffix(b" ")?)? {
        Line::Header(_) => None,
        Line::Event(event) => Some(SitedLine {
            line: Line::Event(event),
            site,
        }),
    }
}

/// What a line says, given without its line feed, or `None` if the text form of a stream of versions 1 and 2 has no such
/// line (docs/FORMATS.md, "Text form").
#[tactic(auto, using(crate::proofs::LineSites::line_told, crate::proofs::LinesAgain::text_is_read))]
pub fn parse_line(line: &[u8]) -> Option<Line>
    // What is read has this line.
    ensures found { IfSome result (λ l. IsSaid Two l × (line.now ≡ line_text l)) }
    // What has this line is read.
    ensures only { (l : Line) → IsSaid Two l → line.now ≡ line_text l → result ≡ Some l }
{
    read_line(Version::Two, line)
}
