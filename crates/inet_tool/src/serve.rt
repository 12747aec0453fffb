//! Each command, over ends that are handed in.
ghost use Rattle.std.specs.Prelude.{◌≡◌, ◌⊎◌, ◌+◌, ◌≤◌, ◌<◌, ℕ, length, IfSome};
ghost use Rattle.inet_io.specs.Ends.{Rose, ReadsMoreThan};
ghost use Rattle.inet_tool.specs.declared.fault.Fault.{Fault as AnyFault};
ghost use Rattle.inet_tool.specs.declared.fault.Fault.TheVariants as faults;
ghost use Rattle.sock_script.specs.declared.parse.Mode.TheVariants as modes;
ghost use Rattle.inet_tool.specs.Table.{limit, HasFault, IsGood, IsRunOf, WritesFlatOut, WritesFault, WritesFront, WritesCounts, WritesFrontOfCounts};
ghost use Rattle.inet_tool.specs.Verdict as verdicts;

use crate::fault::Fault;
use crate::{LIMIT, Status, made, reply};
use inet_io::{Failed, ReadEnd, Sink, Source};
use label_index::LabelSeed;
use std::alloc::Global;
use std::sync::Wait;

/// Reads the source to its end, and writes the reply to what it read.
pub fn run<R: Wait, S: Source, K: Sink>(
    rt: &R,
    alloc: Global,
    seed: LabelSeed,
    source: &mut S,
    sink: &mut K,
) -> Status
    ensures done { result ≡ Status.Done → WritesFlatOut
        (S.left source.old) (S.left source.new) (K.written sink.old) (K.written sink.new) }
    ensures no_usage { result ≡ Status.Usage → ⊥ }
    ensures no_record { (n : ℕ) → (result ≡ Status.BadRecord n → ⊥) × (result ≡ Status.Refuted n → ⊥) }
    ensures bad_script { (n : ℕ) → result ≡ Status.BadScript n → WritesFault modes.Run
        (S.left source.old) (S.left source.new) (K.written sink.old) (K.written sink.new) (faults.Line n) }
    ensures bad_capture { result ≡ Status.BadCapture → WritesFault modes.Run
        (S.left source.old) (S.left source.new) (K.written sink.old) (K.written sink.new) faults.Capture }
    ensures too_long { result ≡ Status.TooLong
        → ReadsMoreThan limit (S.left source.old) (S.left source.new) × (sink.new ≡ sink.old) }
    ensures read_fault { result ≡ Status.ReadFault
        → Rose (S.faults source.old) (S.faults source.new) × (sink.new ≡ sink.old) }
    ensures write_fault { result ≡ Status.WriteFault → Rose (K.faults sink.old) (K.faults sink.new)
        × WritesFront modes.Run IsRunOf (S.left source.old) (S.left source.new) (K.written sink.old)
        (K.written sink.new) }
    ensures memory { result ≡ Status.Memory → sink.new ≡ sink.old }
    ensures reads { S.calls source.new ≤ S.calls source.old + limit + 1 }
    ensures verdict { IfSome (S.left source.old) (λ bytes. verdicts.Answers modes.Run bytes result) }
    ensures over_limit { IfSome (S.left source.old) (λ bytes. limit < length bytes
        → (result ≡ Status.TooLong) ⊎ ((result ≡ Status.ReadFault) ⊎ (result ≡ Status.Memory))) }
    ensures broken { IfSome (S.left source.old) (λ bytes. (fault : AnyFault)
        → length bytes ≤ limit → HasFault modes.Run bytes fault
        → (result ≡ verdicts.fault_status fault) ⊎ ((result ≡ Status.ReadFault)
        ⊎ ((result ≡ Status.WriteFault) ⊎ (result ≡ Status.Memory)))) }
    ensures complete { IfSome (S.left source.old) (λ bytes. length bytes ≤ limit → IsGood modes.Run bytes
        → ¬ (Rose (S.faults source.old) (S.faults source.new))
        → ¬ (Rose (K.faults sink.old) (K.faults sink.new))
        → (result ≡ Status.Done) ⊎ (result ≡ Status.Memory)) }
{
    let bytes = match inet_io::read_all(alloc, source, LIMIT) {
        Ok(bytes) => bytes,
        Err(ReadEnd::Failed) => return Status::ReadFault,
        Err(ReadEnd::TooLong) => return Status::TooLong,
        Err(ReadEnd::Memory) => return Status::Memory,
    };
    let Ok(reply) = reply::reply_to(rt, alloc, seed, bytes) else {
        return Status::Memory;
    };
    match (inet_io::write_all(sink, &reply.text), reply.fault) {
        (Err(Failed), _) => Status::WriteFault,
        (Ok(()), Some(Fault::Line(n))) => Status::BadScript(n),
        (Ok(()), Some(Fault::Capture)) => Status::BadCapture,
        (Ok(()), None) => Status::Done,
    }
}

/// Runs the script that a seed and so many steps make, and writes its counts.
pub fn make<R: Wait, K: Sink>(
    rt: &R,
    alloc: Global,
    label_seed: LabelSeed,
    seed: u32,
    count: u32,
    sink: &mut K,
) -> Status
    requires { count ≤ 100000 }
    ensures done { result ≡ Status.Done → WritesCounts (K.written sink.old) (K.written sink.new) seed count }
    ensures write_fault { result ≡ Status.WriteFault → Rose (K.faults sink.old) (K.faults sink.new)
        × WritesFrontOfCounts (K.written sink.old) (K.written sink.new) seed count }
    ensures memory { result ≡ Status.Memory → sink.new ≡ sink.old }
    ensures ends { (result ≡ Status.Done) ⊎ ((result ≡ Status.WriteFault) ⊎ (result ≡ Status.Memory)) }
{
    let Ok(text) = made::counts_text(rt, alloc, label_seed, seed, count) else {
        return Status::Memory;
    };
    match inet_io::write_all(sink, &text) {
        Err(Failed) => Status::WriteFault,
        Ok(()) => Status::Done,
    }
}
