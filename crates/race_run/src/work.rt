//! One job of a race: a section, or a looker's share of the capture.

ghost use Rattle.std.specs.Prelude.{◌≡◌, ◌^◌, ◌<◌, length, IfOk};
ghost use Rattle.race_run.specs.Jobs.{IsReady};
ghost use Rattle.race_run.specs.Scripts.{IsForRace};
ghost use Rattle.race_run.specs.Workers.{AreTables};
ghost use Rattle.race_run.specs.Works.{IsWorked};
ghost use Rattle.tickets.specs.Passes.{tickets as tickets_of};

use crate::jobs::Job;
use crate::section::{Said, run_section};
use crate::share::look_share;
use capture_reader::Capture;
use crossbeam_utils::CachePadded;
use flat_list::Script;
use inet_io::Gate;
use label_index::LabelSeed;
use sock_ops::Tables;
use std::alloc::{AllocError, Global};
use std::sync::Wait;
use tickets::Tickets;

/// Does a job, beside the others: that of a section by its commands,
/// and that of a looker by its share of the capture. Its worker is on no cache line with another's meanwhile.
///
/// # Errors
///
/// Memory ran out.
pub fn work<R: Wait, G: Gate>(
    rt: &R,
    alloc: Global,
    seed: LabelSeed,
    tables: &Tables,
    tickets: &Tickets,
    script: &Script,
    capture: &Capture,
    passes: u32,
    gate: &G,
    job: Job,
) -> Result<Job, AllocError>
    requires tables { AreTables script.now.header tables.now }
    requires script { IsForRace script.now }
    requires tickets { tickets_of tickets.now ≡ length capture.now.items }
    requires ready { IsReady script.now.header tables.now tickets.now job.number job }
    requires few { job.number < 2 ^ 13 }
    requires passes { 0 < passes }
    ensures { IfOk result (IsWorked script.now passes capture.now.items tables.now tickets.now job.number) }
{
    let Job {
        worker,
        mut draws,
        number,
        replies,
        listings,
        told,
    } = job;
    let mut worker = CachePadded::new(worker);
    let sections = script.sections();
    if number < sections.len() {
        let commands = &sections[number];
        let Said { replies, listings } = run_section(
            rt,
            alloc,
            seed,
            tables,
            script.header(),
            &mut worker,
            number as u32 + 1,
            commands.as_slice(),
            gate,
        )?;
        return Ok(Job {
            worker: worker.into_inner(),
            draws,
            number,
            replies,
            listings,
            told,
        });
    }
    let told = look_share(
        alloc,
        tables,
        &mut worker,
        capture.items(),
        tickets,
        &mut draws,
        passes,
        (number - sections.len()) as u32 + 1,
        gate,
    )?;
    Ok(Job {
        worker: worker.into_inner(),
        draws,
        number,
        replies,
        listings,
        told,
    })
}
