//! The program that draws a race: standard input and output, and the exit status. All that it does is `serve::serve`;
//! it takes no words.
//!
//! | Status | Exit | When | Written |
//! |---|---|---|---|
//! | `Done` | 0 | the input is a record that passes the audit | its picture |
//! | `Usage` | 2 | there are words | nothing, and nothing was read |
//! | `TooLong` | 5 | there are more than 16,777,216 bytes | nothing |
//! | `ReadFault` | 6 | only where a read failed | nothing |
//! | `WriteFault` | 7 | only where a write failed | a front of what was to be written |
//! | `Memory` | 8 | in place of any other | nothing |
//! | `BadRecord(n)` | 9 | line n is the first that keeps the text from being a record | `bad record line n` |
//! | `Refuted(n)` | 10 | the record fails a test, first at line n | its picture |
#![tactic(auto)]

ghost use Rattle.std.specs.Prelude.{◌≡◌, ◌⊎◌, length, IfErr, IfOk};
ghost use Rattle.std.specs.Process.{exit_status};
ghost use Rattle.std.specs.Vec.Iter.{into_iter_items};
ghost use Rattle.picture.specs.Ends.{IsEndOf};
ghost use Rattle.picture.specs.Status.{exit_code};
ghost use Rattle.picture.specs.declared.status.Status.{Status as AnyStatus};
ghost use Rattle.picture.specs.declared.status.Status.TheVariants as statuses;

mod serve;
mod status;

use inet_io::{Sink, Source, StdSink, StdSource};
use status::Status;
use std::alloc::{AllocError, Global};
use std::env;
use std::env::{Args, Env};
use std::io::ErrorKind;
use std::process::ExitCode;

/// All words that are left.
fn collected(alloc: Global, words: Args) -> Result<Vec<String>, AllocError>
    ensures { IfOk result (λ all. all.items ≡ into_iter_items words) }
{
    words.collect(alloc)
}

/// The words of the command line. One that isn't UTF-8 is a word as others.
fn words_of(rt: &(impl Env + AllocGlobal)) -> Result<Vec<String>, Status>
    ensures { IfErr result (λ status. (status ≡ statuses.Usage) ⊎ (status ≡ statuses.Memory)) }
{
    match env::args(rt) {
        Ok(words) => collected(rt.alloc(), words).map_err(|_| Status::Memory),
        Err(error) if error.kind() == ErrorKind::OutOfMemory => Err(Status::Memory),
        Err(_) => Err(Status::Usage),
    }
}

/// The exit status that the process ends with.
fn code_of(status: Status) -> ExitCode
    ensures { exit_status result ≡ exit_code status }
{
    ExitCode::from(status.exit_code())
}

/// Draws what the source has, if so many words are the program's name alone.
fn draw<S: Source, K: Sink>(alloc: Global, words: usize, source: &mut S, sink: &mut K) -> Status
    ensures { IsEndOf words result
        (S.left source.old) (S.left source.new) (K.written sink.old) (K.written sink.new) }
{
    if words > 1 {
        return Status::Usage;
    }
    serve::serve(alloc, source, sink)
}

/// Does so, and gives the exit status of what came of it. Where the words couldn't be had, it is that of the reason.
fn ended<S: Source, K: Sink>(
    alloc: Global,
    words: Result<Vec<String>, Status>,
    source: &mut S,
    sink: &mut K,
) -> ExitCode
    ensures { (status : AnyStatus) × (exit_status result ≡ exit_code status)
        × IfErr words (λ reason. status ≡ reason)
        × IfOk words (λ all. IsEndOf (length all.items) status
        (S.left source.old) (S.left source.new) (K.written sink.old) (K.written sink.new)) }
{
    match words {
        Ok(words) => code_of(draw(alloc, words.len(), source, sink)),
        Err(reason) => code_of(reason),
    }
}

fn main(rt: HostRuntime) -> ExitCode {
    let mut source = StdSource::new(rt.stdin());
    let mut sink = StdSink::new(rt.stdout());
    ended(rt.alloc(), words_of(&rt), &mut source, &mut sink)
}
