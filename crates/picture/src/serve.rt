//! The picture of what a source has, over ends that are handed in.
ghost use Rattle.std.specs.Prelude.{◌≡◌, ◌⊎◌, ◌+◌, ◌≤◌, ◌<◌, ℕ, List, length, IfOk, IfSome};
ghost use Rattle.inet_io.specs.Ends.{Rose, ReadsMoreThan};
ghost use Rattle.picture.specs.declared.serve.Outcome.{Outcome as AnyOutcome};
ghost use Rattle.picture.specs.Written as spec;
ghost use Rattle.picture.specs.Written.{Answers, IsEnd, IsOutcome, limit, WritesFrontOfOutcome, WritesOutcome};

use crate::status::Status;
use inet_io::{Failed, ReadEnd, Sink, Source};
use race_picture::draw;
use record_reader::{AuditEnd, Verdict};
use std::alloc::{AllocError, Global};

/// The most bytes that an input may have.
const LIMIT: usize = 16_777_216;

/// What comes of a text.
#[derive(Clone, Copy, Debug, PartialEq, Eq)]
pub enum Outcome {
    /// Its picture, of a race on which an audit has that verdict.
    Drawn(Verdict),
    /// The line of that number, from 1, is the first that keeps the text from being a record.
    BadLine(u64),
}

/// Reads the source to its end, and writes the picture of the race that it records.
///
/// What is written is built whole before the first write, so that only a write that fails leaves a part of it.
/// Reading takes at most 16,777,217 reads. Where several causes stand, the earlier of a failed read, too long an
/// input, a bad line and a failed write is answered; want of memory may come in place of what a later test would give.
pub fn serve<S: Source, K: Sink>(alloc: Global, source: &mut S, sink: &mut K) -> Status
    ensures told { IsEnd result → WritesOutcome
        (S.left source.old) (S.left source.new) (K.written sink.old) (K.written sink.new) result }
    ensures no_usage { result ≡ Status.Usage → ⊥ }
    ensures too_long { result ≡ Status.TooLong
        → ReadsMoreThan limit (S.left source.old) (S.left source.new) × (sink.new ≡ sink.old) }
    ensures read_fault { result ≡ Status.ReadFault
        → Rose (S.faults source.old) (S.faults source.new) × (sink.new ≡ sink.old) }
    ensures write_fault { result ≡ Status.WriteFault → Rose (K.faults sink.old) (K.faults sink.new)
        × WritesFrontOfOutcome (S.left source.old) (S.left source.new) (K.written sink.old) (K.written sink.new) }
    ensures memory { result ≡ Status.Memory → sink.new ≡ sink.old }
    ensures reads { S.calls source.new ≤ S.calls source.old + limit + 1 }
    ensures verdict { IfSome (S.left source.old) (λ bytes. Answers bytes result) }
    ensures over_limit { IfSome (S.left source.old) (λ bytes. limit < length bytes
        → (result ≡ Status.TooLong) ⊎ ((result ≡ Status.ReadFault) ⊎ (result ≡ Status.Memory))) }
    ensures complete { IfSome (S.left source.old) (λ bytes. (outcome : AnyOutcome) (text : List ℕ)
        → length bytes ≤ limit → IsOutcome bytes outcome text
        → ¬ (Rose (S.faults source.old) (S.faults source.new))
        → ¬ (Rose (K.faults sink.old) (K.faults sink.new))
        → (result ≡ spec.outcome_status outcome) ⊎ (result ≡ Status.Memory)) }
{
    let bytes = match inet_io::read_all(alloc, source, LIMIT) {
        Ok(bytes) => bytes,
        Err(ReadEnd::Failed) => return Status::ReadFault,
        Err(ReadEnd::TooLong) => return Status::TooLong,
        Err(ReadEnd::Memory) => return Status::Memory,
    };
    let Ok((outcome, text)) = outcome_of(alloc, &bytes) else {
        return Status::Memory;
    };
    match inet_io::write_all(sink, &text) {
        Err(Failed) => Status::WriteFault,
        Ok(()) => status_of(outcome),
    }
}

/// The line that names the first line that keeps a text from being a record.
fn bad_text(alloc: Global, n: u64) -> Result<Vec<u8>, AllocError>
    ensures { IfOk result (λ text. text.items ≡ spec.bad_text n) }
{
    let line = format!(in alloc; "bad record line {n}\n")?;
    Ok(line.into_bytes())
}

/// What comes of a text, and what is written of that.
fn outcome_of(alloc: Global, bytes: &[u8]) -> Result<(Outcome, Vec<u8>), AllocError>
    ensures { IfOk result (λ r. IsOutcome bytes.now r.0 r.1.items) }
{
    match draw(alloc, bytes) {
        Ok(drawn) => Ok((Outcome::Drawn(drawn.verdict), drawn.svg)),
        Err(AuditEnd::BadLine(n)) => Ok((Outcome::BadLine(n), bad_text(alloc, n)?)),
        Err(AuditEnd::Memory) => Err(AllocError),
    }
}

fn status_of(outcome: Outcome) -> Status
    ensures status { result ≡ spec.outcome_status outcome }
    ensures end { IsEnd result }
{
    match outcome {
        Outcome::Drawn(Verdict::Yes { .. }) => Status::Done,
        Outcome::Drawn(Verdict::No { line, .. }) => Status::Refuted(line),
        Outcome::BadLine(n) => Status::BadRecord(n),
    }
}
