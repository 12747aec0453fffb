ghost use Rattle.std.specs.Prelude.{◌≡◌, ◌≤◌, ◌<◌, ◌+◌, ◌^◌, ℕ, None, length, IfOk, IfErr, Err};
ghost use Rattle.flat_list.specs.Script.{IsSmall};
ghost use Rattle.sock_script.specs.Words.{lines_of};
ghost use Rattle.sock_script.specs.Pieces.{HasWords};
ghost use Rattle.sock_script.specs.Seen.{texts};
ghost use Rattle.sock_script.specs.Grammar.{IsScript, IsFirstOutside};
ghost use Rattle.sock_script.specs.Reading.{Reads, nothing_yet};
ghost use Rattle.sock_script.specs.Steps.{LineAnswer, OtherAnswer, EndAnswer};

use crate::draft::Draft;
use crate::{form, word};
use flat_list::Script;
use label_index::LabelSeed;
use std::alloc::{AllocError, Global};

/// What a script is read for.
#[derive(Clone, Copy, Debug, PartialEq, Eq)]
pub enum Mode {
    /// Its sections run one after the other.
    Run,
    /// Its sections run beside each other, and no line asks for a lookup.
    Race,
}

/// Why a text is no script.
#[derive(Clone, Copy, Debug, PartialEq, Eq)]
pub enum ScriptEnd {
    /// The line of that number, from 1, is the first outside the grammar.
    BadLine(u64),
    /// There is no memory for what the text says.
    Memory,
}

impl From<AllocError> for ScriptEnd {
    ghost use Rattle.std.specs.Prelude.{◌≡◌};
    ghost use Rattle.sock_script.specs.declared.parse.ScriptEnd.TheVariants.{Memory};

    ghost from_gives = { λ _ e. e ≡ Memory };

    fn from(_: AllocError) -> Self {
        ScriptEnd::Memory
    }
}

/// Reads one line that is no command, of which these are the words, where it may follow, and says whether.
///
/// It isn't inlined: what it has on its stack would be made for each command too.
#[inline(never)]
fn read_other(mode: Mode, draft: &mut Draft, words: &[&[u8]]) -> Result<bool, AllocError>
    ensures { IfOk result (OtherAnswer mode draft.old (texts words.now) draft.new) }
{
    match form::other_of(words) {
        Some(line) => draft.add(mode, line),
        None => Ok(false),
    }
}

/// Reads one line, of which these are the words, where it may follow, and says whether.
fn read_line(
    alloc: Global,
    mode: Mode,
    draft: &mut Draft,
    words: &[&[u8]],
    line: &[u8],
) -> Result<bool, AllocError>
    requires no_capture { draft.old.capture ≡ None }
    requires room { draft.old.bytes + length line.now + 1 < 2 ^ 64 }
    requires words { HasWords line.now (texts words.now) }
    ensures { IfOk result (LineAnswer mode draft.old line.now draft.new) }
{
    draft.pass(line);
    if words.is_empty() {
        return Ok(true);
    }
    // Most lines are commands, so no line of another kind is tried before them.
    if let Some(command) = form::command_of(alloc, words)? {
        return draft.add_command(mode, command);
    }
    read_other(mode, draft, words)
}

/// Few lines of a command are shorter than that, so there is room for the commands of a script of one section from the
/// start: what grows by doubling leaves its former blocks behind.
const SHORT_LINE: usize = 16;

/// Reads the lines of a text, to its end or to where its capture begins.
fn read_lines(alloc: Global, seed: LabelSeed, text: &[u8], mode: Mode) -> Result<Draft, ScriptEnd>
    ensures read { IfOk result (λ draft. Reads mode nothing_yet (lines_of text.now) draft) }
    ensures bad { IfErr result (EndAnswer mode (lines_of text.now)) }
{
    let mut draft = Draft::new(alloc, seed, text.len() / SHORT_LINE);
    let mut words = Vec::new(alloc);
    let mut number = 0;
    let mut left = Some(text);
    while let Some(text) = left {
        if draft.has_capture() {
            return Ok(draft);
        }
        number += 1;
        let (line, rest) = word::take_line(text, &mut words)?;
        if !read_line(alloc, mode, &mut draft, &words, line)? {
            return Err(ScriptEnd::BadLine(number));
        }
        left = rest;
    }
    Ok(draft)
}

/// Reads a text as a script: a grammar of our own, which `specs/` spells out.
///
/// Lines end in a line feed, before which one carriage return is dropped; words are parted by
/// spaces and tabs. A line with no word, or whose first word begins with `#`, is passed over, and
/// counts as a line. A line `capture` ends the script: the bytes after it are a capture, which isn't
/// read here. Takes memory for the commands, and none for lines that are passed over, though the first section asks at
/// once for twice as much as the text has, of which what no command fills is never touched; the
/// time is about that of one look at each byte, and that of finding each label among those that its
/// section has given, whose hashes begin with the seed.
pub fn parse(alloc: Global, seed: LabelSeed, text: &[u8], mode: Mode) -> Result<Script, ScriptEnd>
    ensures script { IfOk result (λ script. IsScript mode text.now script) }
    ensures bad { (n : ℕ) → result ≡ Err (ScriptEnd.BadLine n) → IsFirstOutside mode (lines_of text.now) n }
    ensures small { length text.now ≤ 2 ^ 24 → IfOk result IsSmall }
{
    let draft = read_lines(alloc, seed, text, mode)?;
    Ok(draft.into_script()?)
}
