//! The lines of a text, and the words of a line.

ghost use Rattle.std.specs.Prelude.{◌≡◌, IfOk, OnOk};
ghost use Rattle.record_reader.specs.Words as words;
ghost use Rattle.record_reader.specs.Words.{texts};
ghost use Rattle.record_reasons.specs.Lines.{text_at};

use record_reader::word::read_words;
use std::alloc::{AllocError, Global};

fn is_line_feed(b: u8) -> bool
    ensures { result ≡ words.is_line_feed b }
{
    b == b'\n'
}

/// Reads the lines of a text into the vector, in place of what it holds.
fn read_pieces<'a>(text: &'a [u8], pieces: &mut Vec<&'a [u8]>) -> Result<(), AllocError>
    ensures { OnOk result (texts pieces.new.items ≡ words.pieces_of text.now) }
{
    pieces.clear();
    pieces.extend(text.split(|b| is_line_feed(*b)))
}

/// The lines of a text that end in a line feed, and what stands behind the last line feed.
pub fn pieces_of(alloc: Global, text: &[u8]) -> Result<Vec<&[u8]>, AllocError>
    ensures { IfOk result (λ pieces. texts pieces.items ≡ words.pieces_of text.now) }
{
    let mut pieces = Vec::new(alloc);
    read_pieces(text, &mut pieces)?;
    Ok(pieces)
}

/// The words of a line.
pub fn words_of(alloc: Global, line: &[u8]) -> Result<Vec<&[u8]>, AllocError>
    ensures { IfOk result (λ all. texts all.items ≡ words.words_of line.now) }
{
    let mut all = Vec::new(alloc);
    read_words(line, &mut all)?;
    Ok(all)
}

/// The text of that number, from 0.
pub fn text_at<'a>(all: &[&'a [u8]], n: usize) -> &'a [u8]
    ensures { result.now ≡ text_at (texts all.now) n }
{
    match all.get(n) {
        Some(text) => text,
        None => &[],
    }
}
