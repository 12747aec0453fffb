//! The race of a script, over ends that are handed in.
ghost use Rattle.std.specs.Prelude.{◌≡◌, ◌⊎◌, ◌+◌, ◌≤◌, ◌<◌, ℕ, length, IfOk, IfSome};
ghost use Rattle.inet_io.specs.Ends.{Rose, ReadsMoreThan};
ghost use Rattle.inet_tool.specs.declared.fault.Fault.{Fault as AnyFault};
ghost use Rattle.inet_tool.specs.declared.fault.Fault.TheVariants as faults;
ghost use Rattle.sock_script.specs.declared.parse.Mode.TheVariants as modes;
ghost use Rattle.inet_tool.specs.Table.{limit, HasFault, IsGood, IsReply, WritesFault, WritesFront};
ghost use Rattle.inet_tool.specs.Races.{IsRaceOf, WritesRace};
ghost use Rattle.inet_tool.specs.Verdict as verdicts;

use crate::fault::Fault;
use crate::reply::{Reply, refusal};
use crate::{LIMIT, Status};
use capture_reader::CaptureEnd;
use inet_io::{Failed, Gate, ReadEnd, Sink, Source};
use label_index::LabelSeed;
use race_run::race;
use race_run::start::start;
use race_run::tell::tell;
use race_text::render::render;
use sock_script::parse::parse;
use sock_script::{Mode, ScriptEnd, capture};
use std::alloc::{AllocError, Global};
use std::sync::Wait;
use std::thread::Threads;

/// Reads the source to its end, and writes the record of a race of what it read.
pub fn serve<R: Threads + Wait + Sync, S: Source, K: Sink, G: Gate>(
    rt: &R,
    alloc: Global,
    seed: LabelSeed,
    lookers: u32,
    passes: u32,
    source: &mut S,
    sink: &mut K,
    gate: &G,
) -> Status
    requires some { 1 ≤ lookers }
    requires few { lookers ≤ 16 }
    requires passes { 1 ≤ passes }
    ensures done { result ≡ Status.Done → WritesRace lookers passes
        (S.left source.old) (S.left source.new) (K.written sink.old) (K.written sink.new) }
    ensures no_usage { result ≡ Status.Usage → ⊥ }
    ensures no_record { (n : ℕ) → (result ≡ Status.BadRecord n → ⊥) × (result ≡ Status.Refuted n → ⊥) }
    ensures bad_script { (n : ℕ) → result ≡ Status.BadScript n → WritesFault modes.Race
        (S.left source.old) (S.left source.new) (K.written sink.old) (K.written sink.new) (faults.Line n) }
    ensures bad_capture { result ≡ Status.BadCapture → WritesFault modes.Race
        (S.left source.old) (S.left source.new) (K.written sink.old) (K.written sink.new) faults.Capture }
    ensures too_long { result ≡ Status.TooLong
        → ReadsMoreThan limit (S.left source.old) (S.left source.new) × (sink.new ≡ sink.old) }
    ensures read_fault { result ≡ Status.ReadFault
        → Rose (S.faults source.old) (S.faults source.new) × (sink.new ≡ sink.old) }
    ensures write_fault { result ≡ Status.WriteFault → Rose (K.faults sink.old) (K.faults sink.new)
        × WritesFront modes.Race (IsRaceOf lookers passes)
        (S.left source.old) (S.left source.new) (K.written sink.old) (K.written sink.new) }
    ensures memory { result ≡ Status.Memory → sink.new ≡ sink.old }
    ensures reads { S.calls source.new ≤ S.calls source.old + limit + 1 }
    ensures verdict { IfSome (S.left source.old) (λ bytes. verdicts.Answers modes.Race bytes result) }
    ensures over_limit { IfSome (S.left source.old) (λ bytes. limit < length bytes
        → (result ≡ Status.TooLong) ⊎ ((result ≡ Status.ReadFault) ⊎ (result ≡ Status.Memory))) }
    ensures broken { IfSome (S.left source.old) (λ bytes. (fault : AnyFault)
        → length bytes ≤ limit → HasFault modes.Race bytes fault
        → (result ≡ verdicts.fault_status fault) ⊎ ((result ≡ Status.ReadFault)
        ⊎ ((result ≡ Status.WriteFault) ⊎ (result ≡ Status.Memory)))) }
    ensures complete { IfSome (S.left source.old) (λ bytes. length bytes ≤ limit → IsGood modes.Race bytes
        → ¬ (Rose (S.faults source.old) (S.faults source.new))
        → ¬ (Rose (K.faults sink.old) (K.faults sink.new))
        → (result ≡ Status.Done) ⊎ (result ≡ Status.Memory)) }
{
    let bytes = match inet_io::read_all(alloc, source, LIMIT) {
        Ok(bytes) => bytes,
        Err(ReadEnd::Failed) => return Status::ReadFault,
        Err(ReadEnd::TooLong) => return Status::TooLong,
        Err(ReadEnd::Memory) => return Status::Memory,
    };
    let Ok(reply) = reply_to(rt, alloc, seed, &bytes, lookers, passes, gate) else {
        return Status::Memory;
    };
    match (inet_io::write_all(sink, &reply.text), reply.fault) {
        (Err(Failed), _) => Status::WriteFault,
        (Ok(()), Some(Fault::Line(n))) => Status::BadScript(n),
        (Ok(()), Some(Fault::Capture)) => Status::BadCapture,
        (Ok(()), None) => Status::Done,
    }
}

/// The reply to an input within the limit.
fn reply_to<R: Threads + Wait + Sync, G: Gate>(
    rt: &R,
    alloc: Global,
    seed: LabelSeed,
    bytes: &[u8],
    lookers: u32,
    passes: u32,
    gate: &G,
) -> Result<Reply, AllocError>
    requires within { length bytes.now ≤ limit }
    requires some { 1 ≤ lookers }
    requires few { lookers ≤ 16 }
    requires passes { 1 ≤ passes }
    ensures { IfOk result (λ reply. IsReply modes.Race
        (IsRaceOf lookers passes) bytes.now reply.fault reply.text.items) }
{
    let script = match parse(alloc, seed, bytes, Mode::Race) {
        Ok(script) => script,
        Err(ScriptEnd::BadLine(n)) => return refusal(alloc, Fault::Line(n)),
        Err(ScriptEnd::Memory) => return Err(AllocError),
    };
    let capture = match capture::read(alloc, &script, bytes) {
        Ok(capture) => capture,
        Err(CaptureEnd::BadHead) => return refusal(alloc, Fault::Capture),
        Err(CaptureEnd::Memory) => return Err(AllocError),
    };
    let (tables, first) = start(alloc, &script)?;
    let ended = race(
        rt, alloc, seed, tables, first, &script, &capture, lookers, passes, gate,
    )?;
    let told = tell(alloc, &script, &capture, lookers, passes, ended)?;
    let text = render(alloc, &script, &told)?;
    Ok(Reply { text, fault: None })
}
