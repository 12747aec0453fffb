//! The lines of a text, and the words of a line, by one look at each byte.
//!
//! A text is read piece by piece: a piece ends before a line feed, a space or a tab, which is looked for among
//! sixteen bytes at a time.
ghost use Rattle.std.specs.Prelude.{◌≡◌, ◌+◌, ◌≤◌, ◌∷◌, ◌++◌, [], ℕ, List, length, find, not, take, IfOk, OnOk, IsTrue};
ghost use Rattle.std.specs.Str.Lines.{strip_carriage_return};
ghost use Rattle.sock_script.specs.Words as spec;
ghost use Rattle.sock_script.specs.Words.{lines_of, words_of};
ghost use Rattle.sock_script.specs.Forms.{IsPassedOver};
ghost use Rattle.sock_script.specs.Seen.{texts};
ghost use Rattle.sock_script.specs.Pieces as pieces;
ghost use Rattle.sock_script.specs.Pieces.{EndsLine, EndsPiece, HasWords, MarksByte, MarksEnds, lines_left, word_in};

use memchr::memchr;
use std::alloc::AllocError;
use std::simd::prelude::*;

fn without_carriage_return(line: &[u8]) -> &[u8]
    ensures { result.now ≡ strip_carriage_return line.now }
{
    match line {
        [front @ .., b'\r'] => front,
        _ => line,
    }
}

fn is_blank(b: u8) -> bool
    ensures { result ≡ spec.is_blank b }
{
    b == b' ' || b == b'\t'
}

fn is_end(b: u8) -> bool
    ensures { result ≡ pieces.is_end b }
{
    b == b'\n' || is_blank(b)
}

/// The lanes that hold the byte, a bit for each.
fn bits_of(lanes: u8x16, byte: u8) -> u64
    ensures { MarksByte lanes byte result }
{
    lanes.simd_eq(u8x16::splat(byte)).to_bitmask()
}

/// The places at which pieces end, of the sixteen from `at` on, a bit for each.
fn end_bits(text: &[u8], at: usize) -> u64
    requires { at + 16 ≤ length text.now }
    ensures { MarksEnds text.now at result }
{
    let lanes = u8x16::from_slice(&text[at..]);
    bits_of(lanes, b'\n') | bits_of(lanes, b' ') | bits_of(lanes, b'\t')
}

/// Where the piece from `start` on ends, byte by byte.
fn end_by_bytes(text: &[u8], start: usize) -> usize
    requires { start ≤ length text.now }
    ensures { EndsPiece text.now start result }
{
    for end in start..text.len() {
        if is_end(text[end]) {
            return end;
        }
    }
    text.len()
}

/// Where the piece from `start` on ends.
fn end_of_piece(text: &[u8], start: usize) -> usize
    requires { start ≤ length text.now }
    ensures { EndsPiece text.now start result }
{
    let mut at = start;
    while 16 <= text.len() - at {
        let bits = end_bits(text, at);
        if bits != 0 {
            return at + bits.trailing_zeros() as usize;
        }
        at += 16;
    }
    end_by_bytes(text, at)
}

/// Where the first line ends.
fn end_of_line(text: &[u8]) -> usize
    ensures { EndsLine text.now result }
{
    memchr(b'\n', text).unwrap_or(text.len())
}

/// The first line, which ends there, and the text behind its line feed, if it has one.
fn split_line(text: &[u8], end: usize) -> (&[u8], Option<&[u8]>)
    requires { EndsLine text.now end }
    ensures line { result.0.now ≡ take end text.now }
    ensures lines { lines_of text.now ≡ result.0.now ∷ lines_left result.1 }
{
    if end == text.len() {
        return (text, None);
    }
    (&text[..end], Some(&text[end + 1..]))
}

/// The first byte that is no blank.
fn first_byte(text: &[u8]) -> Option<u8>
    ensures { result ≡ find (λ b. not (spec.is_blank b)) text.now }
{
    text.iter().copied().find(|b| !is_blank(*b))
}

/// Whether a look at the first bytes shows that the first line is passed over. Where it doesn't, the line may have no
/// word still, but it is no comment.
fn shows_passed_over(text: &[u8]) -> bool
    ensures { IsTrue result → (line : List ℕ) (later : List (List ℕ)) → lines_of text.now ≡ line ∷ later
        → IsPassedOver (words_of line) }
{
    match first_byte(text) {
        None => true,
        Some(first) => first == b'#' || first == b'\n',
    }
}

/// Adds a piece to the words, if it has a byte.
fn push_word<'a>(words: &mut Vec<&'a [u8]>, piece: &'a [u8]) -> Result<(), AllocError>
    ensures { OnOk result (texts words.new.items ≡ texts words.old.items ++ word_in piece.now) }
{
    if !piece.is_empty() {
        words.push(piece)?;
    }
    Ok(())
}

/// Adds the words of the first line, and says where it ends.
fn read_words<'a>(text: &'a [u8], words: &mut Vec<&'a [u8]>) -> Result<usize, AllocError>
    requires { words.old.items ≡ [] }
    ensures ends { IfOk result (EndsLine text.now) }
    ensures words { IfOk result (λ end. texts words.new.items ≡ words_of (take end text.now)) }
{
    let mut start = 0;
    let mut end = end_of_piece(text, start);
    while end < text.len() && is_blank(text[end]) {
        push_word(words, &text[start..end])?;
        start = end + 1;
        end = end_of_piece(text, start);
    }
    push_word(words, without_carriage_return(&text[start..end]))?;
    Ok(end)
}

/// Takes the first line off a text: the line, and the text behind its line feed, if it has one. The line's words are
/// read into the vector, in place of what it holds, or none of a line that is passed over.
///
/// A line that is passed over takes no memory, and no look at its words.
pub fn take_line<'a>(
    text: &'a [u8],
    words: &mut Vec<&'a [u8]>,
) -> Result<(&'a [u8], Option<&'a [u8]>), AllocError>
    ensures lines { IfOk result (λ r. lines_of text.now ≡ r.0.now ∷ lines_left r.1) }
    ensures words { IfOk result (λ r. HasWords r.0.now (texts words.new.items)) }
{
    words.clear();
    if shows_passed_over(text) {
        return Ok(split_line(text, end_of_line(text)));
    }
    let end = read_words(text, words)?;
    Ok(split_line(text, end))
}
