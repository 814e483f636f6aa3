//! The words of a line.

ghost use Rattle.std.specs.Prelude.{◌≡◌, MatchOption};
ghost use Rattle.std.specs.Option.{option_map};
ghost use Rattle.gr_text.specs.Prelude.{IsFirst, IsWithout, cut_at, first_of, number_of, same, short_of};

use itoa::Buffer;

/// Whether a word is this one.
#[tactic(auto, unfolding(crate::specs::LineReading::same))]
pub fn is_word(word: &[u8], expected: &str) -> bool
    ensures { result ≡ same word.now expected.now }
{
    word == expected.as_bytes()
}

/// The number below 2^32 that this word spells.
pub fn parse_number(word: &[u8]) -> Option<u32>
    ensures { result ≡ number_of word.now }
{
    let Ok(text) = str::from_utf8(word) else {
        return None;
    };
    let Ok(number) = text.parse::<u32>() else {
        return None;
    };
    let mut buffer = Buffer::new();
    is_word(word, buffer.format(number)).then_some(number)
}

/// The number below 2^16 that this word spells.
#[tactic(auto, unfolding(crate::specs::LineReading::short_of))]
pub fn parse_short(word: &[u8]) -> Option<u16>
    ensures { result ≡ short_of word.now }
{
    u16::try_from(parse_number(word)?).ok()
}

/// The place of the first byte that is this one.
fn first_place(bytes: &[u8], mark: u8) -> Option<usize>
    ensures { MatchOption result (IsWithout mark bytes.now) (λ at. IsFirst mark bytes.now at) }
{
    bytes.iter().position(|byte| *byte == mark)
}

/// What comes before the first byte that is this one, and what comes after it, if there is one.
#[tactic(auto, using(crate::proofs::LineWords::first_whole, crate::proofs::LineWords::first_cut, std::proofs::lemmas::List::take_rest))]
pub(crate) fn split_at_mark(bytes: &[u8], mark: u8) -> (&[u8], Option<&[u8]>)
    ensures { (result.0.now, option_map (λ rest. rest.now) result.1) ≡ cut_at mark bytes.now }
{
    match first_place(bytes, mark) {
        None => (bytes, None),
        Some(at) => (&bytes[..at], Some(&bytes[at + 1..])),
    }
}

/// The first word, and what comes after its space, if there is one.
pub fn split_word(bytes: &[u8]) -> (&[u8], Option<&[u8]>)
    ensures { (result.0.now, option_map (λ rest. rest.now) result.1) ≡ first_of bytes.now }
{
    split_at_mark(bytes, b' ')
}
