//! The program that says why `inet` refuses an input: standard input and output, and the exit status. What it does is
//! `serve::serve`; its one word is the command of `inet` for which the input is meant, `run`, `race` or `audit`.
//!
//! | Status | Exit | When | Written |
//! |---|---|---|---|
//! | `Done` | 0 | nothing is refused, and no record refuted | a line that says so |
//! | `Usage` | 2 | the words are others | nothing, and nothing was read |
//! | `BadScript(n)` | 3 | line n is the first that is refused | the line, the reason, and the form |
//! | `BadCapture` | 4 | the capture is refused | a line that says so |
//! | `TooLong` | 5 | there are more than 16,777,216 bytes | nothing |
//! | `ReadFault` | 6 | only where a read failed | nothing |
//! | `WriteFault` | 7 | only where a write failed | a front of what was to be written |
//! | `Memory` | 8 | in place of any other | nothing |
//! | `BadRecord(n)` | 9 | line n is the first that keeps the text from being a record | the line, the reason, and what may stand there |
//! | `Refuted(n)` | 10 | the record fails a test, first at line n | the line, the test, the cause, and the lines that have a part in it |
#![tactic(auto)]

ghost use Rattle.std.specs.Prelude.{◌≡◌, ◌≢◌, ◌⊎◌, map, string_bytes, IfErr, IfNone, IfOk, IfSome};
ghost use Rattle.std.specs.Process.{exit_status};
ghost use Rattle.std.specs.Vec.Iter.{into_iter_items};
ghost use Rattle.why.specs.Asked.{AsksFor, input_text};
ghost use Rattle.why.specs.Ends.{IsEndOf};
ghost use Rattle.why.specs.Status.{exit_code};
ghost use Rattle.why.specs.declared.input.Input.{Input as AnyInput};
ghost use Rattle.why.specs.declared.status.Status.{Status as AnyStatus};
ghost use Rattle.why.specs.declared.status.Status.TheVariants as statuses;

mod input;
mod serve;
mod status;

use inet_io::{Sink, Source, StdSink, StdSource};
use input::Input;
use label_index::LabelSeed;
use sock_script::Mode;
use status::Status;
use std::alloc::{AllocError, Global};
use std::env;
use std::env::{Args, Env};
use std::io::ErrorKind;
use std::process::ExitCode;

/// All words that are left.
fn collected(alloc: Global, words: Args) -> Result<Vec<String>, AllocError>
    ensures { IfOk result (λ all. all.items ≡ into_iter_items words) }
{
    words.collect(alloc)
}

/// The words of the command line. One that isn't UTF-8 is none that the program takes.
fn words_of(rt: &(impl Env + AllocGlobal)) -> Result<Vec<String>, Status>
    ensures { IfErr result (λ status. (status ≡ statuses.Usage) ⊎ (status ≡ statuses.Memory)) }
{
    match env::args(rt) {
        Ok(words) => collected(rt.alloc(), words).map_err(|_| Status::Memory),
        Err(error) if error.kind() == ErrorKind::OutOfMemory => Err(Status::Memory),
        Err(_) => Err(Status::Usage),
    }
}

/// For which command of that name an input is meant, of those that the program takes.
fn input_named(word: &[u8]) -> Option<Input>
    ensures some { IfSome result (λ input. word.now ≡ input_text input) }
    ensures none { IfNone result ((input : AnyInput) → word.now ≢ input_text input) }
{
    match word {
        b"run" => Some(Input::Script(Mode::Run)),
        b"race" => Some(Input::Script(Mode::Race)),
        b"audit" => Some(Input::Record),
        _ => None,
    }
}

/// What the input is meant for, by the words, the program's name first.
fn input_of(words: &[String]) -> Option<Input>
    ensures some { IfSome result (λ input. AsksFor input (map string_bytes words.now)) }
    ensures none { IfNone result ((input : AnyInput) → ¬ (AsksFor input (map string_bytes words.now))) }
{
    if words.len() != 2 {
        return None;
    }
    input_named(words[1].as_bytes())
}

/// The exit status that the process ends with.
fn code_of(status: Status) -> ExitCode
    ensures { exit_status result ≡ exit_code status }
{
    ExitCode::from(status.exit_code())
}

/// Says what is refused or refuted of what the source has, if the words ask for that.
fn explained<S: Source, K: Sink>(
    alloc: Global,
    seed: LabelSeed,
    words: &[String],
    source: &mut S,
    sink: &mut K,
) -> Status
    ensures { IsEndOf (map string_bytes words.now) result
        (S.left source.old) (S.left source.new) (K.written sink.old) (K.written sink.new) }
{
    match input_of(words) {
        Some(input) => serve::serve(alloc, seed, input, source, sink),
        None => Status::Usage,
    }
}

/// Does so, and gives the exit status of what came of it. Where the words couldn't be had, it is that of the reason.
fn ended<S: Source, K: Sink>(
    alloc: Global,
    seed: LabelSeed,
    words: Result<Vec<String>, Status>,
    source: &mut S,
    sink: &mut K,
) -> ExitCode
    ensures { (status : AnyStatus) × (exit_status result ≡ exit_code status)
        × IfErr words (λ reason. status ≡ reason)
        × IfOk words (λ all. IsEndOf (map string_bytes all.items) status
        (S.left source.old) (S.left source.new) (K.written sink.old) (K.written sink.new)) }
{
    match words {
        Ok(words) => code_of(explained(alloc, seed, &words, source, sink)),
        Err(reason) => code_of(reason),
    }
}

fn main(rt: HostRuntime) -> ExitCode {
    let mut source = StdSource::new(rt.stdin());
    let mut sink = StdSink::new(rt.stdout());
    let seed = LabelSeed::random(&rt);
    ended(rt.alloc(), seed, words_of(&rt), &mut source, &mut sink)
}
