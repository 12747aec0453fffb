//! The program: the words of the command line, standard input and output, and the exit status of the
//! top call. All that it does is `inet_tool::inet`.
#![tactic(auto)]

ghost use Rattle.std.specs.Prelude.{◌≡◌, ◌⊎◌, map, string_bytes, IfErr, IfOk};
ghost use Rattle.std.specs.Process.{exit_status};
ghost use Rattle.std.specs.Vec.Iter.{into_iter_items};
ghost use Rattle.inet.specs.Ends.{IsEndOf};
ghost use Rattle.inet_tool.specs.Status.{exit_code};
ghost use Rattle.inet_tool.specs.declared.status.Status.{Status as AnyStatus};
ghost use Rattle.inet_tool.specs.declared.status.Status.TheVariants as statuses;

use inet_io::{Open, Sink, Source, StdSink, StdSource};
use inet_tool::{Status, inet};
use std::alloc::{AllocError, Global};
use std::env;
use std::env::{Args, Env};
use std::io::ErrorKind;
use std::process::ExitCode;
use std::random::RandomSource;
use std::sync::Wait;
use std::thread::Threads;

/// All words that are left.
fn collected(alloc: Global, words: Args) -> Result<Vec<String>, AllocError>
    ensures { IfOk result (λ all. all.items ≡ into_iter_items words) }
{
    words.collect(alloc)
}

/// The words of the command line. One that isn't UTF-8 asks for nothing that the program does.
fn words_of(rt: &(impl Env + AllocGlobal)) -> Result<Vec<String>, Status>
    ensures { IfErr result (λ status. (status ≡ statuses.Usage) ⊎ (status ≡ statuses.Memory)) }
{
    match env::args(rt) {
        Ok(words) => collected(rt.alloc(), words).map_err(|_| Status::Memory),
        Err(error) if error.kind() == ErrorKind::OutOfMemory => Err(Status::Memory),
        Err(_) => Err(Status::Usage),
    }
}

/// The exit status that the process ends with.
fn code_of(status: Status) -> ExitCode
    ensures { exit_status result ≡ exit_code status }
{
    ExitCode::from(status.exit_code())
}

/// Does what the words ask for over these ends.
fn answered<R: Threads + Wait + Sync + RandomSource, S: Source, K: Sink>(
    rt: &R,
    alloc: Global,
    words: &[String],
    source: &mut S,
    sink: &mut K,
) -> Status
    ensures { IsEndOf (map string_bytes words.now) result
        (S.left source.old) (S.left source.new) (K.written sink.old) (K.written sink.new) }
{
    inet(rt, alloc, words, source, sink, &Open)
}

/// Does so, and gives the exit status of what came of it. Where the words couldn't be had, it is that of the reason.
fn ended<R: Threads + Wait + Sync + RandomSource, S: Source, K: Sink>(
    rt: &R,
    alloc: Global,
    words: Result<Vec<String>, Status>,
    source: &mut S,
    sink: &mut K,
) -> ExitCode
    ensures { (status : AnyStatus) × (exit_status result ≡ exit_code status)
        × IfErr words (λ reason. status ≡ reason)
        × IfOk words (λ all. IsEndOf (map string_bytes all.items) status
        (S.left source.old) (S.left source.new) (K.written sink.old) (K.written sink.new)) }
{
    match words {
        Ok(words) => code_of(answered(rt, alloc, &words, source, sink)),
        Err(reason) => code_of(reason),
    }
}

fn main(rt: HostRuntime) -> ExitCode {
    let mut source = StdSource::new(rt.stdin());
    let mut sink = StdSink::new(rt.stdout());
    ended(&rt, rt.alloc(), words_of(&rt), &mut source, &mut sink)
}
