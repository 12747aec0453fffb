//! Races whose workers are held until others have come as far.

use crate::captures::{HEADER, RECORDS, input_of};
use crate::tests::words_of;
use inet_io::{Gate, MemSink, MemSource, Who};
use inet_tool::{Status, inet};
use std::hint;
use std::random::RandomSource;
use std::sync::Wait;
use std::sync::atomic::{AtomicU64, Ordering};
use std::test::Fail;
use std::thread::Threads;

/// How often a worker looks whether the others have come.
const TURNS: u64 = 1_000_000_000;

/// Whether so many came before the turns were used up.
fn came(here: &AtomicU64, count: u64) -> bool {
    for _ in 0..TURNS {
        if here.load(Ordering::SeqCst) >= count {
            return true;
        }
        hint::spin_loop();
    }
    false
}

/// Holds each of four workers until all four are there, or until its turns are used up.
#[derive(Drop)]
struct Meeting {
    here: AtomicU64,
    late: AtomicU64,
    // The bits of the lookers that have come to the gate.
    seen: AtomicU64,
}

impl Meeting {
    /// A section is held before its second command, and a looker before the first packet that it draws, whichever of
    /// the capture's four that is.
    fn is_held(&self, who: Who, at: u64) -> bool {
        match who {
            Who::Script(_) => at == 2,
            Who::Looker(looker) => {
                let bit = if looker == 1 { 1 } else { 2 };
                self.seen.fetch_or(bit, Ordering::SeqCst) & bit == 0
            }
        }
    }
}

impl Gate for Meeting {
    fn pass(&self, who: Who, at: u64) {
        if self.is_held(who, at) {
            self.here.fetch_add(1, Ordering::SeqCst);
            if !came(&self.here, 4) {
                self.late.fetch_add(1, Ordering::SeqCst);
            }
        }
    }
}

/// Holds the looker before its first packet until the section has come to its third command, or until its turns are
/// used up.
#[derive(Drop)]
struct Held {
    here: AtomicU64,
    late: AtomicU64,
    // How often the looker was held.
    held: AtomicU64,
}

impl Gate for Held {
    fn pass(&self, who: Who, at: u64) {
        match (who, at) {
            (Who::Script(1), 3) => {
                self.here.fetch_add(1, Ordering::SeqCst);
            }
            (Who::Looker(1), 1) => {
                self.held.fetch_add(1, Ordering::SeqCst);
                if !came(&self.here, 1) {
                    self.late.fetch_add(1, Ordering::SeqCst);
                }
            }
            _ => {}
        }
    }
}

/// Keeps at which packets each of two lookers came to the gate: bit 1 for the capture's first, and so on.
#[derive(Drop)]
struct Counted {
    first: AtomicU64,
    second: AtomicU64,
}

impl Gate for Counted {
    fn pass(&self, who: Who, at: u64) {
        let bit = if at < 64 { 1 << at } else { 1 };
        match who {
            Who::Looker(1) => {
                self.first.fetch_or(bit, Ordering::SeqCst);
            }
            Who::Looker(_) => {
                self.second.fetch_or(bit, Ordering::SeqCst);
            }
            Who::Script(_) => {}
        }
    }
}

/// The status of a race of the script with a capture of four packets, and what it writes.
fn race<G: Gate>(
    rt: &(impl Threads + Wait + Sync + RandomSource + AllocGlobal),
    lookers: &str,
    script: &str,
    gate: &G,
) -> Result<(Status, Vec<u8>), Fail> {
    let alloc = rt.alloc();
    let words = ["inet", "race", "--lookers", lookers, "--passes", "1"];
    let words = words_of(alloc, &words)?;
    let input = input_of(alloc, script, &[HEADER, RECORDS])?;
    let mut source = MemSource::new(input, 4096, Vec::new(alloc));
    let mut sink = MemSink::new(alloc, 4096, Vec::new(alloc));
    let status = inet(rt, alloc, &words, &mut source, &mut sink, gate);
    Ok((status, sink.bytes().to_vec(alloc)?))
}

#[test]
fn all_workers_are_there_at_once(rt: HostRuntime) -> Result<(), Fail> {
    let gate = Meeting {
        here: AtomicU64::new(0),
        late: AtomicU64::new(0),
        seen: AtomicU64::new(0),
    };
    let script = "script 1\nsocket a\nsocket b\nscript 2\nsocket c\nsocket d\ncapture\n";
    let (status, _) = race(&rt, "2", script, &gate)?;
    assert!(rt; status == Status::Done && gate.late.load(Ordering::SeqCst) == 0);
    Ok(())
}

#[test]
fn a_looker_waits_for_a_section(rt: HostRuntime) -> Result<(), Fail> {
    let gate = Held {
        here: AtomicU64::new(0),
        late: AtomicU64::new(0),
        held: AtomicU64::new(0),
    };
    let script =
        "table slots 2 bind 1 hash 1 listen 1\nscript 1\nsocket a\nbind a 10.0.0.1:80\nlisten a\ncapture\n";
    let (status, written) = race(&rt, "1", script, &gate)?;
    let (held, late) = (
        gate.held.load(Ordering::SeqCst),
        gate.late.load(Ordering::SeqCst),
    );
    assert!(rt; status == Status::Done && held == 1 && late == 0);
    // Whether the packets find the listener hangs on the schedule.
    let begin =
        b"race lookers 1 passes 1\nshape 2 1 1 1 seed 0\n1 socket a ok\n1 bind a ok 80\n1 listen a ok 80\n\
        journal 0 3\nlife 1 0 listen 1.a 10.0.0.1:80 0.0.0.0:0 dev 0 hash 0 1 unhash -\npacket 1 ";
    assert!(rt; written.starts_with(begin));
    assert!(rt; written.ends_with(b"\npacket 4 skip\ncut\nclock 2\n"));
    Ok(())
}

// A gate hears of packets by their numbers in the capture, from 1.
#[test]
fn packets_are_counted_from_one(rt: HostRuntime) -> Result<(), Fail> {
    let gate = Counted {
        first: AtomicU64::new(0),
        second: AtomicU64::new(0),
    };
    let (status, _) = race(&rt, "2", "script 1\nsocket a\ncapture\n", &gate)?;
    let (first, second) = (
        gate.first.load(Ordering::SeqCst),
        gate.second.load(Ordering::SeqCst),
    );
    assert!(rt; status == Status::Done && first | second == 0b1_1110 && first & second == 0);
    Ok(())
}
