//! The first line of a text that is outside the grammar, and why.
ghost use Rattle.std.specs.Prelude.{◌≡◌, IfOk};
ghost use Rattle.sock_script.specs.Words.{lines_of as all_lines};
ghost use Rattle.sock_script.specs.Grammar as grammar;
ghost use Rattle.sock_script.specs.Grammar.{IsFirstOutside, IsScript};
ghost use Rattle.refusals.specs.Reasons.{IsAnswer, IsRefusedFor};

use crate::lines::{first_lines, lines_of, words_of};
use crate::reason::{Reason, reason_of};
use capture_reader::{HeadFlaw, head_flaw};
use flat_list::Script;
use label_index::LabelSeed;
use sock_script::parse::parse;
use sock_script::{Mode, ScriptEnd};
use std::alloc::{AllocError, Global};

/// A line that is refused, and why.
#[derive(Drop)]
pub struct Refusal {
    /// Its number, from 1.
    pub number: u64,
    /// What it says, without its line feed.
    pub line: Vec<u8>,
    pub reason: Reason,
}

/// What keeps a text from being run, if anything does.
#[derive(Drop)]
pub enum Answer {
    /// Nothing does.
    Sound,
    /// A line of the script.
    Refused(Refusal),
    /// The first bytes of the capture.
    BadCapture(HeadFlaw),
}

/// The refusal of the line of that number, which is the first outside the grammar.
fn refusal_of(alloc: Global, mode: Mode, text: &[u8], number: u64) -> Result<Refusal, AllocError>
    requires { IsFirstOutside mode (all_lines text.now) number }
    ensures { IfOk result (λ r. IsRefusedFor mode text.now r.number r.line.items r.reason) }
{
    let lines = lines_of(alloc, text)?;
    let place = (number - 1) as usize;
    let line = lines[place];
    let words = words_of(alloc, line)?;
    let reason = reason_of(alloc, mode, first_lines(&lines, place), &words)?;
    Ok(Refusal {
        number,
        line: line.to_vec(alloc)?,
        reason,
    })
}

/// The bytes of a script's capture, in the text from which the script was read.
fn capture_of<'a>(script: &Script, text: &'a [u8]) -> &'a [u8]
    ensures { result.now ≡ grammar.capture_bytes script.now.capture text.now }
{
    match script.capture() {
        None => &[],
        Some(place) => text.get(place.first..).unwrap_or(&[]),
    }
}

/// What keeps the capture of a script from being read, if anything does.
fn capture_answer(mode: Mode, script: &Script, text: &[u8]) -> Answer
    requires { IsScript mode text.now script.now }
    ensures { IsAnswer mode text.now result }
{
    match head_flaw(capture_of(script, text)) {
        None => Answer::Sound,
        Some(flaw) => Answer::BadCapture(flaw),
    }
}

/// The first line that keeps a text from being a script, and why, or else what is wrong with its capture's first bytes.
///
/// Takes memory for the script, or for the lines of the text, and time for its bytes.
pub fn explain(
    alloc: Global,
    seed: LabelSeed,
    mode: Mode,
    text: &[u8],
) -> Result<Answer, AllocError>
    ensures { IfOk result (IsAnswer mode text.now) }
{
    match parse(alloc, seed, text, mode) {
        Ok(script) => Ok(capture_answer(mode, &script, text)),
        Err(ScriptEnd::BadLine(number)) => Ok(Answer::Refused(refusal_of(
            alloc, mode, text, number,
        )?)),
        Err(ScriptEnd::Memory) => Err(AllocError),
    }
}
