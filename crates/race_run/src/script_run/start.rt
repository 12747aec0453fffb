//! The tables with which a run starts.

ghost use Rattle.std.specs.Prelude.{◌≡◌, IfOk, false};
ghost use Rattle.flat_list.specs.Fits.{FitsTables};
ghost use Rattle.race_run.specs.Sole.{IsSole, tables_of};
ghost use Rattle.race_run.specs.Steps.{AreUnspoken, commands_after};
ghost use Rattle.section_machine.specs.Carried.{MayCarry};
ghost use Rattle.section_machine.specs.Standing.{AreOf};
ghost use Rattle.table_model.specs.Tables.{new_tables};

use bind_buckets::Sharing;
use flat_list::Header;
use sock_ops::{Changes, Tables, Worker};
use std::alloc::{AllocError, Global};

/// Empty tables of that header, and the worker that is alone at them. Their chains keep no changes.
///
/// # Errors
///
/// Memory ran out.
pub(crate) fn start(alloc: Global, header: &Header) -> Result<(Tables, Worker), AllocError>
    requires { FitsTables header.now }
    ensures of { IfOk result (λ t. AreOf header.now t.0) }
    ensures counts { IfOk result (λ t. t.0.chains.keeps_changes ≡ false) }
    ensures sole { IfOk result (λ t. IsSole t.0 t.1) }
    ensures empty { IfOk result (λ t. tables_of t.0 t.1 ≡ new_tables header.now.shape header.now.seed) }
    ensures unspoken { IfOk result (λ t. AreUnspoken 1 t.1) }
    ensures may { IfOk result (λ t. MayCarry (commands_after 0) t.1) }
{
    let (tables, worker) = Tables::new(
        alloc,
        header.shape,
        header.seed,
        Sharing::Alone,
        Changes::Counted,
    )?;
    Ok((tables, worker))
}
