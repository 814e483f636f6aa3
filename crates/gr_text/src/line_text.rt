//! Writing the line of a header and of a record.

ghost use Rattle.std.specs.Prelude.{◌≡◌, ◌++◌, List, ℕ, OnOk, IfOk, decimal, [], ◌∷◌};
ghost use Rattle.std.specs.String.{string_bytes};
ghost use Rattle.gr_text.specs.Prelude.{spaced, later_text, space_word, scope_word, order_word, flags_word, name_words, names_words, atomic_words, first_word, later_words, header_words, site_text, sited_text, IsLine, line_text as text_of};

use crate::line::{Line, SitedLine};
use gr_model::event::{Event, Kind, Name, Order, Scope, Space};
use gr_model::memory::Memory;
use gr_record::header::{Header, Version};
use itoa::Buffer;
use std::alloc::Allocator;

fn word_of_space(space: Space) -> &'static str
    ensures { result.now ≡ space_word space }
{
    match space {
        Space::Global => "g",
        Space::Local => "l",
    }
}

/// The name of a scope.
pub fn word_of_scope(scope: Scope) -> &'static str
    ensures { result.now ≡ scope_word scope }
{
    match scope {
        Scope::Group => "grp",
        Scope::Device => "dev",
    }
}

/// The name of an order.
pub fn word_of_order(order: Order) -> &'static str
    ensures { result.now ≡ order_word order }
{
    match order {
        Order::Relaxed => "rlx",
        Order::Acquire => "acq",
        Order::Release => "rel",
        Order::Both => "both",
    }
}

fn word_of_flags(global: bool, local: bool) -> &'static str
    ensures { result.now ≡ flags_word global local }
{
    match (global, local) {
        (false, false) => "-",
        (true, false) => "g",
        (false, true) => "l",
        (true, true) => "gl",
    }
}

/// Adds a space and a word.
fn push_word<A: Allocator>(text: &mut String<A>, word: &str) -> Result<(), Memory>
    ensures { OnOk result (string_bytes text.new ≡ string_bytes text.old ++ spaced word.now) }
{
    text.push_str(" ")?;
    text.push_str(word)?;
    Ok(())
}

/// Adds a space and a number.
fn push_number<A: Allocator>(text: &mut String<A>, number: u32) -> Result<(), Memory>
    ensures { OnOk result (string_bytes text.new ≡ string_bytes text.old ++ spaced (decimal number)) }
{
    let mut buffer = Buffer::new();
    push_word(text, buffer.format(number))
}

/// Adds a name after a space.
fn push_name<A: Allocator>(text: &mut String<A>, name: &Name) -> Result<(), Memory>
    ensures { OnOk result (string_bytes text.new ≡ string_bytes text.old ++ later_text (name_words name.now)) }
{
    push_word(text, "<")?;
    push_number(text, u32::from(name.at.group))?;
    push_number(text, u32::from(name.at.item))?;
    push_number(text, name.release)
}

/// Adds names, each after a space.
fn push_names<A: Allocator>(text: &mut String<A>, names: &[Name]) -> Result<(), Memory>
    ensures { OnOk result (string_bytes text.new ≡ string_bytes text.old ++ later_text (names_words names.now)) }
{
    for name in names {
        push_name(text, name)?;
    }
    Ok(())
}

/// Adds the kind of an access, its space and its word.
fn push_access<A: Allocator>(text: &mut String<A>, kind: &str, event: &Event) -> Result<(), Memory>
    ensures { OnOk result (string_bytes text.new ≡ string_bytes text.old ++ later_text (kind.now ∷ space_word event.now.space ∷ decimal event.now.word ∷ [])) }
{
    push_word(text, kind)?;
    push_word(text, word_of_space(event.space))?;
    push_number(text, event.word)
}

/// Adds an atomic access.
fn push_atomic<A: Allocator>(
    text: &mut String<A>,
    kind: &str,
    scope: Scope,
    order: Order,
    event: &Event,
) -> Result<(), Memory>
    ensures { OnOk result (string_bytes text.new ≡ string_bytes text.old ++ later_text (atomic_words kind.now scope order event.now)) }
{
    push_access(text, kind, event)?;
    push_word(text, word_of_scope(scope))?;
    push_word(text, word_of_order(order))?;
    push_names(text, event.names.as_slice())
}

/// Adds the first word of a record's line.
fn push_first<A: Allocator>(text: &mut String<A>, event: &Event) -> Result<(), Memory>
    ensures { OnOk result (string_bytes text.new ≡ string_bytes text.old ++ first_word event.now.kind event.now.item) }
{
    if event.kind.is_end() {
        text.push_str("end")?;
    } else {
        let mut buffer = Buffer::new();
        text.push_str(buffer.format(event.item))?;
    }
    Ok(())
}

/// Adds the words after the first one of a record's line.
fn push_later<A: Allocator>(text: &mut String<A>, event: &Event) -> Result<(), Memory>
    ensures { OnOk result (string_bytes text.new ≡ string_bytes text.old ++ later_text (later_words event.now.kind event.now)) }
{
    match event.kind {
        Kind::Read => push_access(text, "r", event),
        Kind::Write => push_access(text, "w", event),
        Kind::Load(scope, order) => push_atomic(text, "ld", scope, order, event),
        Kind::Store(scope, order) => push_atomic(text, "st", scope, order, event),
        Kind::Rmw(scope, order) => push_atomic(text, "rmw", scope, order, event),
        Kind::Barrier { global, local } => {
            push_word(text, "bar")?;
            push_number(text, event.word)?;
            push_word(text, word_of_flags(global, local))
        }
        Kind::End { cut: true } => push_word(text, "cut"),
        Kind::End { cut: false } => Ok(()),
    }
}

/// Adds the words after the first one of a header's line.
fn push_header<A: Allocator>(text: &mut String<A>, header: &Header) -> Result<(), Memory>
    ensures { OnOk result (string_bytes text.new ≡ string_bytes text.old ++ later_text (header_words header.now)) }
{
    push_number(text, u32::from(header.group))?;
    push_word(text, "items")?;
    push_number(text, u32::from(header.items))?;
    push_word(text, "launch")?;
    push_number(text, header.launch)?;
    match header.version {
        Version::One => Ok(()),
        Version::Two => push_word(text, "v2"),
        Version::Three => push_word(text, "v3"),
        Version::Four => push_word(text, "v4"),
    }
}

/// The line of a header or of a record, without its line feed (docs/FORMATS.md, "Text form").
/// Requires: the header or record is in range, as for `encode_header` and `encode_event2`.
///
/// # Errors
/// `Memory` if an allocation is refused.
pub fn line_text<A: Allocator>(alloc: A, line: &Line) -> Result<String<A>, Memory>
    requires { IsLine line.now }
    ensures { IfOk result (λ text. string_bytes text ≡ text_of line.now) }
{
    let mut text = String::new(alloc);
    match line {
        Line::Header(header) => {
            text.push_str("group")?;
            push_header(&mut text, header)?;
        }
        Line::Event(event) => {
            push_first(&mut text, event)?;
            push_later(&mut text, event)?;
        }
    }
    Ok(text)
}

/// Adds the site at the end of a line, which is not written where it is 0.
fn push_site<A: Allocator>(text: &mut String<A>, site: u16) -> Result<(), Memory>
    ensures { OnOk result (string_bytes text.new ≡ string_bytes text.old ++ site_text site) }
{
    if site == 0 {
        return Ok(());
    }
    let mut buffer = Buffer::new();
    text.push_str(" @")?;
    text.push_str(buffer.format(site))?;
    Ok(())
}

/// The line of a header or of a record with the site that it says, without its line feed (docs/FORMATS.md, "Text form").
/// Requires: the header or record is in range, as for `line_text`.
///
/// # Errors
/// `Memory` if an allocation is refused.
pub fn sited_line_text<A: Allocator>(alloc: A, line: &SitedLine) -> Result<String<A>, Memory>
    requires { IsLine line.now.line }
    ensures { IfOk result (λ text. string_bytes text ≡ sited_text line.now) }
{
    let mut text = line_text(alloc, &line.line)?;
    push_site(&mut text, line.site)?;
    Ok(text)
}
