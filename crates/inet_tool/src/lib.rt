//! The top call: all that the program does, over ends that are handed in.
//!
//! `inet run` reads a script, with a capture at its end or without, runs its sections one after the other over the
//! socket tables, and writes the reply of each command and what each packet finds. `inet race` reads one too, runs its
//! sections and looks its packets up beside each other, and writes the record of that. `inet make` reads nothing, runs
//! a generated script, and writes how many of its commands were done. `inet audit` reads the record of a race, and
//! writes whether it passes the tests of the judge, or where it fails which. The contract of [`inet`] has each status
//! of the table below, when it comes and what was written then; `main` makes the real ends, calls it and ends with the
//! status. It stands on `sock_script`, `race_run`, `race_text`, `record_reader` and `inet_io`, on `clap` for the words,
//! and for what it says of a race on the laws of `race_laws`.
//!
//! | Status | Exit | When | Written |
//! |---|---|---|---|
//! | `Done` | 0 | the input is a script; of `make`, whatever its numbers; of `audit`, a record that passes each test | a line for each command and packet; of `race`, a record; of `make`, counts; of `audit`, `yes lives N packets M clock C` |
//! | `Usage` | 2 | clap refuses the words | nothing, and nothing was read |
//! | `BadScript(n)` | 3 | line n is the first outside the grammar | `bad script line n` |
//! | `BadCapture` | 4 | the script's capture isn't empty, and begins with a header of neither format | `bad capture` |
//! | `TooLong` | 5 | there are more than 16,777,216 bytes | nothing |
//! | `ReadFault` | 6 | only where a read failed | nothing |
//! | `WriteFault` | 7 | only where a write failed | a front of what was to be written |
//! | `Memory` | 8 | in place of any other | nothing |
//! | `BadRecord(n)` | 9 | line n is the first that keeps the text from being a record | `bad record line n` |
//! | `Refuted(n)` | 10 | the record fails a test, first at line n | `no line n WHY` |
//!
//! ```text
//! let status = inet(&rt, alloc, &words, &mut source, &mut sink, &Open);
//! ExitCode::from(status.exit_code())
//! ```
#![tactic(auto)]

ghost use Rattle.std.specs.Prelude.{◌≡◌, ◌⊎◌, ◌+◌, ◌≤◌, ◌<◌, ℕ, length, map, string_bytes, IfSome};
ghost use Rattle.inet_io.specs.Ends.{Rose, ReadsMoreThan};
ghost use Rattle.inet_tool.specs.declared.fault.Fault.{Fault as AnyFault};
ghost use Rattle.inet_tool.specs.declared.fault.Fault.TheVariants as faults;
ghost use Rattle.sock_script.specs.declared.parse.Mode.{Mode};
ghost use Rattle.sock_script.specs.declared.parse.Mode.TheVariants as modes;
ghost use Rattle.inet_tool.specs.Words.{IsRun, IsMake, IsRace, IsRefused, IsAudit, AsksToRead};
ghost use Rattle.inet_tool.specs.Table.{limit, HasFault, IsGood, IsRunOf, WritesFlatOut, WritesFault, WritesFront, WritesCounts, WritesFrontOfCounts};
ghost use Rattle.inet_tool.specs.Races.{IsRaceOf, WritesRace};
ghost use Rattle.inet_tool.specs.Verdict.{Answers, fault_status};
ghost use Rattle.inet_tool.specs.Audit.{AuditAnswers, IsEnd, IsOutcome, WritesFrontOfOutcome, WritesOutcome, outcome_status};
ghost use Rattle.inet_tool.specs.declared.audit.Outcome.{Outcome as AnyOutcome};

mod audit;
mod fault;
pub mod law;
mod made;
mod race;
mod reply;
mod serve;
mod status;
pub mod words;

use inet_io::{Gate, Sink, Source};
use label_index::LabelSeed;
pub use status::Status;
use std::alloc::Global;
use std::random::RandomSource;
use std::sync::Wait;
use std::thread::Threads;
use words::{Ask, AskEnd};

/// The most bytes that an input may have.
pub const LIMIT: usize = 16_777_216;

/// Does what the words ask for: reads the source to its end and writes the reply to what it read, the record of a
/// race of it, or the verdict on such a record, or makes a script and writes its counts.
///
/// `words` has the program's name first. What is written is built whole before the first write, so that
/// only a write that fails leaves a part of it. Each command waits by `rt` for the turns of bind buckets and the
/// locks of chains, so no call is promised to return. A race runs threads by it, too, and waits for them; the gate,
/// at which its workers call before each command and packet, is for a race alone. The seed with which the hashes of
/// labels begin is drawn from it, once.
///
/// Reading takes at most 16,777,217 reads. Where several causes stand, the earlier of usage, a failed
/// read, too long an input, a bad line, a bad capture and a failed write is answered, and of an audit a bad line
/// before a line that is refuted, but a failed write in place of both;
/// want of memory may come in place of what a later test would give.
pub fn inet<R: Threads + Wait + Sync + RandomSource, S: Source, K: Sink, G: Gate>(
    rt: &R,
    alloc: Global,
    words: &[String],
    source: &mut S,
    sink: &mut K,
    gate: &G,
) -> Status
    // Words are refused where clap refuses them, and nowhere else.
    ensures usage { result ≡ Status.Usage → IsRefused (map string_bytes words.now) }
    ensures refused { IsRefused (map string_bytes words.now)
        → (result ≡ Status.Usage) ⊎ (result ≡ Status.Memory) }
    ensures untouched { IsRefused (map string_bytes words.now) → (source.new ≡ source.old) × (sink.new ≡ sink.old) }
    // Other words ask to run a script, to race one, to make one or to audit a record, so what follows speaks of all.
    ensures asked { (result ≡ Status.Usage) ⊎ ((result ≡ Status.Memory) ⊎ (IsRun (map string_bytes words.now)
        ⊎ (((lookers : ℕ) × (passes : ℕ) × IsRace (map string_bytes words.now) lookers passes)
        ⊎ (((seed : ℕ) × (count : ℕ) × IsMake (map string_bytes words.now) seed count)
        ⊎ IsAudit (map string_bytes words.now))))) }

    // What stands after each status of `run` and of `race`, which have each their grammar.
    ensures done { IsRun (map string_bytes words.now) → result ≡ Status.Done → WritesFlatOut
        (S.left source.old) (S.left source.new) (K.written sink.old) (K.written sink.new) }
    ensures raced { (lookers passes : ℕ) → IsRace (map string_bytes words.now) lookers passes → result ≡ Status.Done
        → WritesRace lookers passes
        (S.left source.old) (S.left source.new) (K.written sink.old) (K.written sink.new) }
    ensures bad_script { (mode : Mode) → AsksToRead mode (map string_bytes words.now)
        → (n : ℕ) → result ≡ Status.BadScript n → WritesFault mode
        (S.left source.old) (S.left source.new) (K.written sink.old) (K.written sink.new) (faults.Line n) }
    ensures bad_capture { (mode : Mode) → AsksToRead mode (map string_bytes words.now)
        → result ≡ Status.BadCapture → WritesFault mode
        (S.left source.old) (S.left source.new) (K.written sink.old) (K.written sink.new) faults.Capture }
    ensures too_long { result ≡ Status.TooLong
        → ReadsMoreThan limit (S.left source.old) (S.left source.new) × (sink.new ≡ sink.old) }
    ensures read_fault { result ≡ Status.ReadFault
        → Rose (S.faults source.old) (S.faults source.new) × (sink.new ≡ sink.old) }
    ensures write_fault { result ≡ Status.WriteFault → Rose (K.faults sink.old) (K.faults sink.new) }
    ensures front { IsRun (map string_bytes words.now) → result ≡ Status.WriteFault → WritesFront modes.Run IsRunOf
        (S.left source.old) (S.left source.new) (K.written sink.old) (K.written sink.new) }
    ensures raced_front { (lookers passes : ℕ) → IsRace (map string_bytes words.now) lookers passes
        → result ≡ Status.WriteFault → WritesFront modes.Race (IsRaceOf lookers passes)
        (S.left source.old) (S.left source.new) (K.written sink.old) (K.written sink.new) }
    ensures memory { result ≡ Status.Memory → sink.new ≡ sink.old }

    // The input is read by so many reads at most.
    ensures reads { S.calls source.new ≤ S.calls source.old + limit + 1 }

    // Which status the input of `run` or `race` gets, where the source states it.
    ensures verdict { (mode : Mode) → AsksToRead mode (map string_bytes words.now)
        → IfSome (S.left source.old) (λ bytes. Answers mode bytes result) }
    ensures over_limit { (mode : Mode) → AsksToRead mode (map string_bytes words.now)
        → IfSome (S.left source.old) (λ bytes. limit < length bytes
        → (result ≡ Status.TooLong) ⊎ ((result ≡ Status.ReadFault) ⊎ (result ≡ Status.Memory))) }
    ensures broken { (mode : Mode) → AsksToRead mode (map string_bytes words.now)
        → IfSome (S.left source.old) (λ bytes. (fault : AnyFault)
        → length bytes ≤ limit → HasFault mode bytes fault
        → (result ≡ fault_status fault) ⊎ ((result ≡ Status.ReadFault)
        ⊎ ((result ≡ Status.WriteFault) ⊎ (result ≡ Status.Memory)))) }

    // A script within the limit is served, where neither end failed and memory was there.
    ensures complete { (mode : Mode) → AsksToRead mode (map string_bytes words.now)
        → IfSome (S.left source.old) (λ bytes. length bytes ≤ limit → IsGood mode bytes
        → ¬ (Rose (S.faults source.old) (S.faults source.new))
        → ¬ (Rose (K.faults sink.old) (K.faults sink.new))
        → (result ≡ Status.Done) ⊎ (result ≡ Status.Memory)) }

    // `make` reads nothing, and writes the counts of its script, where the sink didn't fail and memory was there.
    ensures made { (seed count : ℕ) → IsMake (map string_bytes words.now) seed count → result ≡ Status.Done
        → WritesCounts (K.written sink.old) (K.written sink.new) seed count }
    ensures made_front { (seed count : ℕ) → IsMake (map string_bytes words.now) seed count → result ≡ Status.WriteFault
        → WritesFrontOfCounts (K.written sink.old) (K.written sink.new) seed count }
    ensures make_reads { (seed count : ℕ) → IsMake (map string_bytes words.now) seed count → source.new ≡ source.old }
    ensures make_ends { (seed count : ℕ) → IsMake (map string_bytes words.now) seed count
        → (result ≡ Status.Done) ⊎ ((result ≡ Status.WriteFault) ⊎ (result ≡ Status.Memory)) }

    // `audit` writes the line that says what came of it: a verdict on the record, or the line that keeps it from
    // being one. Which that is the bytes determine, and they get it, where neither end failed and memory was there.
    ensures audited { IsAudit (map string_bytes words.now) → IsEnd result → WritesOutcome
        (S.left source.old) (S.left source.new) (K.written sink.old) (K.written sink.new) result }
    ensures audited_front { IsAudit (map string_bytes words.now) → result ≡ Status.WriteFault → WritesFrontOfOutcome
        (S.left source.old) (S.left source.new) (K.written sink.old) (K.written sink.new) }
    ensures audit_verdict { IsAudit (map string_bytes words.now)
        → IfSome (S.left source.old) (λ bytes. AuditAnswers bytes result) }
    ensures audit_over_limit { IsAudit (map string_bytes words.now)
        → IfSome (S.left source.old) (λ bytes. limit < length bytes
        → (result ≡ Status.TooLong) ⊎ ((result ≡ Status.ReadFault) ⊎ (result ≡ Status.Memory))) }
    ensures audit_complete { IsAudit (map string_bytes words.now)
        → IfSome (S.left source.old) (λ bytes. (outcome : AnyOutcome) → length bytes ≤ limit → IsOutcome bytes outcome
        → ¬ (Rose (S.faults source.old) (S.faults source.new))
        → ¬ (Rose (K.faults sink.old) (K.faults sink.new))
        → (result ≡ outcome_status outcome) ⊎ (result ≡ Status.Memory)) }

    // A script isn't reported to be no record, nor a record to be no script.
    ensures no_record { (mode : Mode) → AsksToRead mode (map string_bytes words.now)
        → (n : ℕ) → (result ≡ Status.BadRecord n → ⊥) × (result ≡ Status.Refuted n → ⊥) }
    ensures no_script { IsAudit (map string_bytes words.now)
        → (n : ℕ) → (result ≡ Status.BadScript n → ⊥) × (result ≡ Status.BadCapture → ⊥) }
{
    let label_seed = LabelSeed::random(rt);
    match words::ask_of(alloc, words) {
        Ok(Ask::Run) => serve::run(rt, alloc, label_seed, source, sink),
        Ok(Ask::Make { seed, count }) => { serve::make(rt, alloc, label_seed, seed, count, sink) }
        Ok(Ask::Race { lookers, passes }) => {
            race::serve(rt, alloc, label_seed, lookers, passes, source, sink, gate)
        }
        Ok(Ask::Audit) => audit::serve(alloc, source, sink),
        Err(AskEnd::Usage) => Status::Usage,
        Err(AskEnd::Memory) => Status::Memory,
    }
}
