//! The tables with which a race starts.

ghost use Rattle.std.specs.Prelude.{IfOk};
ghost use Rattle.flat_list.specs.Fits.{FitsTables};
ghost use Rattle.race_run.specs.Workers.{AreTables, IsFirst};

use bind_buckets::Sharing;
use flat_list::Script;
use sock_ops::{Changes, Tables, Worker};
use std::alloc::{AllocError, Global};

/// Empty tables by the script's header, and their first worker.
///
/// # Errors
///
/// Memory ran out.
pub fn start(alloc: Global, script: &Script) -> Result<(Tables, Worker), AllocError>
    requires { FitsTables script.now.header }
    ensures tables { IfOk result (λ t. AreTables script.now.header t.0) }
    ensures first { IfOk result (λ t. IsFirst t.0 0 t.1) }
{
    let header = script.header();
    let (tables, worker) = Tables::new(
        alloc,
        header.shape,
        header.seed,
        Sharing::Shared,
        Changes::Kept,
    )?;
    Ok((tables, worker))
}
