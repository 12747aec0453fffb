//! What is refused or refuted of what a source has, over ends that are handed in.
ghost use Rattle.std.specs.Prelude.{◌≡◌, ◌⊎◌, ◌+◌, ◌≤◌, ◌<◌, ◌++◌, ℕ, List, length, IfOk, IfSome, OnOk};
ghost use Rattle.inet_io.specs.Ends.{Rose, ReadsMoreThan};
ghost use Rattle.why.specs.declared.status.Status.{Status as AnyStatus};
ghost use Rattle.why.specs.Written as spec;
ghost use Rattle.why.specs.Written.{Answers, IsAnswer, IsEnd, IsRecordAnswer, IsScriptAnswer, limit, WritesAnswer, WritesFrontOfAnswer};

use crate::input::Input;
use crate::status::Status;
use inet_io::{Failed, ReadEnd, Sink, Source};
use label_index::LabelSeed;
use record_reasons::{Explained, Outcome};
use refusals::{Answer, explain, put_bad_capture, put_refusal};
use sock_script::Mode;
use std::alloc::{AllocError, Global};

/// The most bytes that an input may have.
const LIMIT: usize = 16_777_216;

/// Reads the source to its end, and writes which line of it is refused or refuted, and why.
///
/// What is written is built whole before the first write, so that only a write that fails leaves a part of it.
/// Reading takes at most 16,777,217 reads. Where several causes stand, the earlier of a failed read, too long an
/// input, and a failed write is answered; want of memory may come in place of what a later test would give.
pub fn serve<S: Source, K: Sink>(
    alloc: Global,
    seed: LabelSeed,
    input: Input,
    source: &mut S,
    sink: &mut K,
) -> Status
    ensures told { IsEnd result → WritesAnswer input
        (S.left source.old) (S.left source.new) (K.written sink.old) (K.written sink.new) result }
    ensures no_usage { result ≡ Status.Usage → ⊥ }
    ensures too_long { result ≡ Status.TooLong
        → ReadsMoreThan limit (S.left source.old) (S.left source.new) × (sink.new ≡ sink.old) }
    ensures read_fault { result ≡ Status.ReadFault
        → Rose (S.faults source.old) (S.faults source.new) × (sink.new ≡ sink.old) }
    ensures write_fault { result ≡ Status.WriteFault → Rose (K.faults sink.old) (K.faults sink.new)
        × WritesFrontOfAnswer input (S.left source.old) (S.left source.new) (K.written sink.old) (K.written sink.new) }
    ensures memory { result ≡ Status.Memory → sink.new ≡ sink.old }
    ensures reads { S.calls source.new ≤ S.calls source.old + limit + 1 }
    ensures verdict { IfSome (S.left source.old) (λ bytes. Answers input bytes result) }
    ensures over_limit { IfSome (S.left source.old) (λ bytes. limit < length bytes
        → (result ≡ Status.TooLong) ⊎ ((result ≡ Status.ReadFault) ⊎ (result ≡ Status.Memory))) }
    ensures complete { IfSome (S.left source.old) (λ bytes. (status : AnyStatus) (text : List ℕ)
        → length bytes ≤ limit → IsAnswer input bytes status text
        → ¬ (Rose (S.faults source.old) (S.faults source.new))
        → ¬ (Rose (K.faults sink.old) (K.faults sink.new))
        → (result ≡ status) ⊎ (result ≡ Status.Memory)) }
{
    let bytes = match inet_io::read_all(alloc, source, LIMIT) {
        Ok(bytes) => bytes,
        Err(ReadEnd::Failed) => return Status::ReadFault,
        Err(ReadEnd::TooLong) => return Status::TooLong,
        Err(ReadEnd::Memory) => return Status::Memory,
    };
    let Ok((status, text)) = answer_of(alloc, seed, input, &bytes) else {
        return Status::Memory;
    };
    match inet_io::write_all(sink, &text) {
        Err(Failed) => Status::WriteFault,
        Ok(()) => status,
    }
}

/// Appends what is written where nothing is refused.
#[tactic(auto, unfolding(crate::specs::Written::sound_text))]
fn put_sound(out: &mut Vec<u8>) -> Result<(), AllocError>
    ensures { OnOk result (out.new.items ≡ out.old.items ++ spec.sound_text) }
{
    out.extend_from_slice(b"no line is refused, and no capture\n")
}

/// The answer to a script, and what is written of it.
fn script_answer(
    alloc: Global,
    seed: LabelSeed,
    mode: Mode,
    bytes: &[u8],
) -> Result<(Status, Vec<u8>), AllocError>
    ensures answer { IfOk result (λ r. IsScriptAnswer mode bytes.now r.0 r.1.items) }
    ensures end { IfOk result (λ r. IsEnd r.0) }
{
    let mut out = Vec::new(alloc);
    match explain(alloc, seed, mode, bytes)? {
        Answer::Sound => {
            put_sound(&mut out)?;
            Ok((Status::Done, out))
        }
        Answer::Refused(refusal) => {
            put_refusal(&mut out, &refusal)?;
            Ok((Status::BadScript(refusal.number), out))
        }
        Answer::BadCapture(flaw) => {
            put_bad_capture(&mut out, flaw)?;
            Ok((Status::BadCapture, out))
        }
    }
}

/// The status of what a text is.
fn status_of(outcome: Outcome) -> Status
    ensures status { result ≡ spec.outcome_status outcome }
    ensures end { IsEnd result }
{
    match outcome {
        Outcome::Passes => Status::Done,
        Outcome::BadLine(number) => Status::BadRecord(number),
        Outcome::Refuted(number) => Status::Refuted(number),
    }
}

/// The answer to a record, and what is written of it.
fn record_answer(alloc: Global, bytes: &[u8]) -> Result<(Status, Vec<u8>), AllocError>
    ensures answer { IfOk result (λ r. IsRecordAnswer bytes.now r.0 r.1.items) }
    ensures end { IfOk result (λ r. IsEnd r.0) }
{
    let Explained { outcome, text } = record_reasons::explain(alloc, bytes)?;
    Ok((status_of(outcome), text))
}

/// The answer to a text, and what is written of it.
fn answer_of(
    alloc: Global,
    seed: LabelSeed,
    input: Input,
    bytes: &[u8],
) -> Result<(Status, Vec<u8>), AllocError>
    ensures answer { IfOk result (λ r. IsAnswer input bytes.now r.0 r.1.items) }
    ensures end { IfOk result (λ r. IsEnd r.0) }
{
    match input {
        Input::Script(mode) => script_answer(alloc, seed, mode, bytes),
        Input::Record => record_answer(alloc, bytes),
    }
}
