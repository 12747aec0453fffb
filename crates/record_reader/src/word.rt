//! Lines and words of a text.

ghost use Rattle.std.specs.Prelude.{◌≡◌, ◌∷◌, ◌<◌, ◌≤◌, [], ℕ, decimal, length, position, MatchOption, IfSome, IfNone, OnOk};
ghost use Rattle.record_reader.specs.Words as spec;
ghost use Rattle.record_reader.specs.Words.{pieces_of, texts, words_of};

use itoa::Buffer;
use std::alloc::AllocError;

fn is_line_feed(b: u8) -> bool
    ensures { result ≡ spec.is_line_feed b }
{
    b == b'\n'
}

fn is_space(b: u8) -> bool
    ensures { result ≡ spec.is_space b }
{
    b == b' '
}

/// The place of the first line feed.
fn place_of_line_feed(text: &[u8]) -> Option<usize>
    ensures place { result ≡ position spec.is_line_feed text.now }
    ensures bound { IfSome result (λ place. place < length text.now) }
{
    text.iter().position(|b| is_line_feed(*b))
}

/// The line that a text begins with, without its line feed, and the text behind that. None where no line feed comes.
pub fn line_first(text: &[u8]) -> Option<(&[u8], &[u8])>
    ensures line { MatchOption result (pieces_of text.now ≡ text.now ∷ [])
        (λ r. pieces_of text.now ≡ r.0.now ∷ pieces_of r.1.now) }
    ensures shorter { IfSome result (λ r. length r.1.now < length text.now) }
{
    let end = place_of_line_feed(text)?;
    Some((&text[..end], &text[end + 1..]))
}

/// Reads the words of a line into the vector, in place of what it holds.
pub fn read_words<'a>(line: &'a [u8], words: &mut Vec<&'a [u8]>) -> Result<(), AllocError>
    ensures { OnOk result (texts words.new.items ≡ words_of line.now) }
{
    words.clear();
    words.extend(line.split(|b| is_space(*b)))
}

/// Reads a number in decimal digits with no sign and no leading zero, from `least` to `most`. Any other text is none.
pub fn number_of(word: &[u8], least: u64, most: u64) -> Option<u64>
    ensures spelled { IfSome result (λ n. word.now ≡ decimal n) }
    ensures in_range { IfSome result (λ n. (least ≤ n) × (n ≤ most)) }
    ensures none { IfNone result ((n : ℕ) → word.now ≡ decimal n → least ≤ n → n ≤ most → ⊥) }
{
    let Ok(text) = str::from_utf8(word) else {
        return None;
    };
    let Ok(n) = text.parse::<u64>() else {
        return None;
    };
    if n < least || n > most {
        return None;
    }
    if Buffer::new().format(n) == text {
        Some(n)
    } else {
        None
    }
}
