//! The lines of a text, and the words of a line.
ghost use Rattle.std.specs.Prelude.{◌≡◌, ◌≤◌, ◌++◌, ◌∷◌, [], filter, length, take, IfOk, OnOk};
ghost use Rattle.std.specs.Str.Lines.{strip_carriage_return};
ghost use Rattle.std.specs.List.{slice_split};
ghost use Rattle.sock_script.specs.Seen.{texts};
ghost use Rattle.sock_script.specs.Words as spec;

use std::alloc::{AllocError, Global};

fn is_line_feed(b: u8) -> bool
    ensures { result ≡ spec.is_line_feed b }
{
    b == b'\n'
}

fn is_blank(b: u8) -> bool
    ensures { result ≡ spec.is_blank b }
{
    b == b' ' || b == b'\t'
}

/// Reads the lines of a text into the vector, in place of what it holds.
fn read_lines<'a>(text: &'a [u8], lines: &mut Vec<&'a [u8]>) -> Result<(), AllocError>
    ensures { OnOk result (texts lines.new.items ≡ slice_split spec.is_line_feed text.now) }
{
    lines.clear();
    lines.extend(text.split(|b| is_line_feed(*b)))
}

/// Reads what stands between the blanks of a line into the vector, in place of what it holds.
fn read_pieces<'a>(line: &'a [u8], pieces: &mut Vec<&'a [u8]>) -> Result<(), AllocError>
    ensures { OnOk result (texts pieces.new.items ≡ slice_split spec.is_blank line.now) }
{
    pieces.clear();
    pieces.extend(line.split(|b| is_blank(*b)))
}

fn without_carriage_return(line: &[u8]) -> &[u8]
    ensures { result.now ≡ strip_carriage_return line.now }
{
    match line {
        [front @ .., b'\r'] => front,
        _ => line,
    }
}

/// The lines of a text.
#[tactic(auto, unfolding(sock_script::specs::Words::lines_of))]
pub fn lines_of(alloc: Global, text: &[u8]) -> Result<Vec<&[u8]>, AllocError>
    ensures { IfOk result (λ lines. texts lines.items ≡ spec.lines_of text.now) }
{
    let mut lines = Vec::new(alloc);
    read_lines(text, &mut lines)?;
    Ok(lines)
}

/// Appends a piece to the words, if it has a byte.
fn push_word<'a>(words: &mut Vec<&'a [u8]>, piece: &'a [u8]) -> Result<(), AllocError>
    ensures { OnOk result (texts words.new.items ≡ texts words.old.items ++ filter spec.is_word (piece.now ∷ [])) }
{
    if !piece.is_empty() {
        words.push(piece)?;
    }
    Ok(())
}

/// Appends the pieces that have a byte.
fn push_words<'a>(words: &mut Vec<&'a [u8]>, pieces: &[&'a [u8]]) -> Result<(), AllocError>
    ensures { OnOk result (texts words.new.items ≡ texts words.old.items ++ filter spec.is_word (texts pieces.now)) }
{
    for piece in pieces {
        push_word(words, *piece)?;
    }
    Ok(())
}

/// The words of a line.
#[tactic(auto, unfolding(sock_script::specs::Words::words_of))]
pub fn words_of(alloc: Global, line: &[u8]) -> Result<Vec<&[u8]>, AllocError>
    ensures { IfOk result (λ words. texts words.items ≡ spec.words_of line.now) }
{
    let mut pieces = Vec::new(alloc);
    read_pieces(without_carriage_return(line), &mut pieces)?;
    let mut words = Vec::new(alloc);
    push_words(&mut words, &pieces)?;
    Ok(words)
}

/// The first lines, so many.
pub fn first_lines<'a>(lines: &'a [&'a [u8]], count: usize) -> &'a [&'a [u8]]
    requires { count ≤ length lines.now }
    ensures { texts result.now ≡ take count (texts lines.now) }
{
    &lines[..count]
}
