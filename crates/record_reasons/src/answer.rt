//! What keeps a text from being a record, or a record from passing an audit, written out.

ghost use Rattle.std.specs.Prelude.{◌≡◌, ◌++◌, IfOk, IfErr, OnOk};
ghost use Rattle.record_reader.specs.Record.{IsFirstOutside};
ghost use Rattle.record_reader.specs.Steps.{EndAnswer};
ghost use Rattle.chain_book.specs.Shapes.{ShapeFits};
ghost use Rattle.record_reader.specs.Verdicts.{IsVerdict, Reads};
ghost use Rattle.record_reasons.specs.Answers as spec;
ghost use Rattle.record_reasons.specs.Answers.{IsExplained};

use crate::lines::pieces_of;
use crate::outside::refused_at;
use crate::put::put;
use crate::text::put_refuted;
use crate::wanted::put_outside;
use book_audit::Why;
use record_reader::audit::audit;
use record_reader::read::read;
use record_reader::{AuditEnd, Record, Verdict};
use std::alloc::{AllocError, Global};

/// What a text is, and at which line, from 1, it is that.
#[derive(Clone, Copy, Debug, PartialEq, Eq)]
pub enum Outcome {
    /// A record that passes the audit.
    Passes,
    /// No record: that line is the first outside.
    BadLine(u64),
    /// A record that an audit refutes at that line.
    Refuted(u64),
}

/// What a text is, and what is written of it.
#[derive(Drop)]
pub struct Explained {
    pub outcome: Outcome,
    pub text: Vec<u8>,
}

/// Appends what is written of a record that passes.
#[tactic(auto, unfolding(crate::specs::Answers::passes_text))]
fn put_passes(out: &mut Vec<u8>) -> Result<(), AllocError>
    ensures { OnOk result (out.new.items ≡ out.old.items ++ spec.passes_text) }
{
    put(out, b"it is a record, and passes each test\n")
}

/// What is written of a record that passes.
fn passed(alloc: Global) -> Result<Explained, AllocError>
    ensures text { IfOk result (λ e. e.text.items ≡ spec.passes_text) }
    ensures outcome { IfOk result (λ e. e.outcome ≡ Outcome.Passes) }
{
    let mut out = Vec::new(alloc);
    put_passes(&mut out)?;
    Ok(Explained {
        outcome: Outcome::Passes,
        text: out,
    })
}

/// What is written of a record that fails that test at the line of that number.
fn refuted(
    alloc: Global,
    text: &[u8],
    race: &Record,
    number: u64,
    why: Why,
) -> Result<Explained, AllocError>
    requires verdict { IsVerdict text.now (Verdict.No number why) }
    requires reads { Reads text.now race.now.lines.items race.now.printed }
    requires fits { ShapeFits race.now.printed.shape }
    ensures { IfOk result (λ e. IsExplained text.now e.outcome e.text.items) }
{
    let pieces = pieces_of(alloc, text)?;
    let mut out = Vec::new(alloc);
    put_refuted(&mut out, &pieces, race, number, why)?;
    Ok(Explained {
        outcome: Outcome::Refuted(number),
        text: out,
    })
}

/// What an audit says of a text, written out.
fn judged(alloc: Global, text: &[u8]) -> Result<Explained, AuditEnd>
    ensures ok { IfOk result (λ e. IsExplained text.now e.outcome e.text.items) }
    ensures err { IfErr result (EndAnswer text.now) }
{
    let race = read(alloc, text)?;
    match audit(alloc, text)? {
        Verdict::Yes { .. } => Ok(passed(alloc)?),
        Verdict::No { line, why } => Ok(refuted(alloc, text, &race, line, why)?),
    }
}

/// Why the line of that number, which is the first outside, keeps a text from being a record.
fn unread(alloc: Global, text: &[u8], number: u64) -> Result<Explained, AllocError>
    requires { IsFirstOutside text.now number }
    ensures { IfOk result (λ e. IsExplained text.now e.outcome e.text.items) }
{
    let refused = refused_at(alloc, text, number)?;
    let mut out = Vec::new(alloc);
    put_outside(&mut out, number, &refused)?;
    Ok(Explained {
        outcome: Outcome::BadLine(number),
        text: out,
    })
}

/// What keeps a text from being a record, or from passing an audit, written out.
///
/// Takes memory for the record and its lines, and time as two audits; where a receipt is refuted by better matches,
/// those are compared with each life.
pub fn explain(alloc: Global, text: &[u8]) -> Result<Explained, AllocError>
    ensures { IfOk result (λ e. IsExplained text.now e.outcome e.text.items) }
{
    match judged(alloc, text) {
        Ok(explained) => Ok(explained),
        Err(AuditEnd::BadLine(number)) => unread(alloc, text, number),
        Err(AuditEnd::Memory) => Err(AllocError),
    }
}
