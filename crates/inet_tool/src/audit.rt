//! The audit of a race's record, over ends that are handed in.
ghost use Rattle.std.specs.Prelude.{◌≡◌, ◌⊎◌, ◌+◌, ◌≤◌, ◌<◌, ℕ, length, IfOk, IfSome};
ghost use Rattle.inet_io.specs.Ends.{Rose, ReadsMoreThan};
ghost use Rattle.inet_tool.specs.declared.audit.Outcome.{Outcome as AnyOutcome};
ghost use Rattle.inet_tool.specs.Table.{limit};
ghost use Rattle.inet_tool.specs.Audit as spec;
ghost use Rattle.inet_tool.specs.Audit.{AuditAnswers, IsEnd, IsOutcome, WritesFrontOfOutcome, WritesOutcome};

use crate::{LIMIT, Status};
use book_audit::Why;
use inet_io::{Failed, ReadEnd, Sink, Source};
use record_reader::audit::audit;
use record_reader::{AuditEnd, Verdict};
use std::alloc::{AllocError, Global};

/// What comes of an audit.
#[derive(Clone, Copy, Debug, PartialEq, Eq)]
pub enum Outcome {
    Judged(Verdict),
    /// The line of that number, from 1, is the first that keeps the text from being a record.
    BadLine(u64),
}

/// Reads the source to its end, and writes what the audit of what it read came to.
pub fn serve<S: Source, K: Sink>(alloc: Global, source: &mut S, sink: &mut K) -> Status
    ensures told { IsEnd result → WritesOutcome
        (S.left source.old) (S.left source.new) (K.written sink.old) (K.written sink.new) result }
    ensures no_usage { result ≡ Status.Usage → ⊥ }
    ensures no_script { (n : ℕ) → result ≡ Status.BadScript n → ⊥ }
    ensures no_capture { result ≡ Status.BadCapture → ⊥ }
    ensures too_long { result ≡ Status.TooLong
        → ReadsMoreThan limit (S.left source.old) (S.left source.new) × (sink.new ≡ sink.old) }
    ensures read_fault { result ≡ Status.ReadFault
        → Rose (S.faults source.old) (S.faults source.new) × (sink.new ≡ sink.old) }
    ensures write_fault { result ≡ Status.WriteFault → Rose (K.faults sink.old) (K.faults sink.new)
        × WritesFrontOfOutcome (S.left source.old) (S.left source.new) (K.written sink.old) (K.written sink.new) }
    ensures memory { result ≡ Status.Memory → sink.new ≡ sink.old }
    ensures reads { S.calls source.new ≤ S.calls source.old + limit + 1 }
    ensures verdict { IfSome (S.left source.old) (λ bytes. AuditAnswers bytes result) }
    ensures over_limit { IfSome (S.left source.old) (λ bytes. limit < length bytes
        → (result ≡ Status.TooLong) ⊎ ((result ≡ Status.ReadFault) ⊎ (result ≡ Status.Memory))) }
    ensures complete { IfSome (S.left source.old) (λ bytes. (outcome : AnyOutcome)
        → length bytes ≤ limit → IsOutcome bytes outcome
        → ¬ (Rose (S.faults source.old) (S.faults source.new))
        → ¬ (Rose (K.faults sink.old) (K.faults sink.new))
        → (result ≡ spec.outcome_status outcome) ⊎ (result ≡ Status.Memory)) }
{
    let bytes = match inet_io::read_all(alloc, source, LIMIT) {
        Ok(bytes) => bytes,
        Err(ReadEnd::Failed) => return Status::ReadFault,
        Err(ReadEnd::TooLong) => return Status::TooLong,
        Err(ReadEnd::Memory) => return Status::Memory,
    };
    let Ok(outcome) = outcome_of(alloc, &bytes) else {
        return Status::Memory;
    };
    let Ok(text) = text_of(alloc, outcome) else {
        return Status::Memory;
    };
    match inet_io::write_all(sink, &text) {
        Err(Failed) => Status::WriteFault,
        Ok(()) => status_of(outcome),
    }
}

/// What the audit of a text comes to.
fn outcome_of(alloc: Global, bytes: &[u8]) -> Result<Outcome, AllocError>
    ensures { IfOk result (IsOutcome bytes.now) }
{
    match audit(alloc, bytes) {
        Ok(verdict) => Ok(Outcome::Judged(verdict)),
        Err(AuditEnd::BadLine(n)) => Ok(Outcome::BadLine(n)),
        Err(AuditEnd::Memory) => Err(AllocError),
    }
}

fn status_of(outcome: Outcome) -> Status
    ensures status { result ≡ spec.outcome_status outcome }
    ensures end { IsEnd result }
{
    match outcome {
        Outcome::Judged(Verdict::Yes { .. }) => Status::Done,
        Outcome::Judged(Verdict::No { line, .. }) => Status::Refuted(line),
        Outcome::BadLine(n) => Status::BadRecord(n),
    }
}

/// The word for a test.
fn why_word(why: Why) -> &'static str
    ensures { result.now ≡ spec.why_word why }
{
    match why {
        Why::Stamp => "stamp",
        Why::Home => "home",
        Why::Overlap => "overlap",
        Why::Slot => "slot",
        Why::Twin => "twin",
        Why::Receipt => "receipt",
        Why::Count => "count",
    }
}

/// The line that states an outcome.
fn text_of(alloc: Global, outcome: Outcome) -> Result<Vec<u8>, AllocError>
    ensures { IfOk result (λ text. text.items ≡ spec.outcome_text outcome) }
{
    let line = match outcome {
        Outcome::Judged(
            Verdict::Yes {
                lives,
                packets,
                clock,
            },
        ) => format!(in alloc; "yes lives {lives} packets {packets} clock {clock}\n")?,
        Outcome::Judged(Verdict::No { line, why }) => {
            let word = why_word(why);
            format!(in alloc; "no line {line} {word}\n")?
        }
        Outcome::BadLine(n) => format!(in alloc; "bad record line {n}\n")?,
    };
    Ok(line.into_bytes())
}
