//! What a command lists, by a worker that is alone at its tables.

ghost use Rattle.std.specs.Prelude.{OnOk};
ghost use Rattle.race_run.specs.Looks.{Looked};
ghost use Rattle.race_run.specs.Sole.{IsSole, tables_of};
ghost use Rattle.race_run.specs.Steps.{ListsFor};

use crate::table_dump::dump;
use flat_list::KeptCommand;
use flat_list::kept::Form;
use sock_ops::{Tables, Worker};
use socket_list::Listing;
use std::alloc::{AllocError, Global};
use std::sync::Wait;

/// Appends what a command lists: a `dump` all hashed sockets, any other command nothing. No span is given, since
/// nobody else is at the tables.
pub(crate) fn list<R: Wait>(
    rt: &R,
    alloc: Global,
    tables: &Tables,
    worker: &mut Worker,
    listings: &mut Vec<Listing>,
    command: &KeptCommand,
) -> Result<(), AllocError>
    requires sole { IsSole tables.now worker.old }
    ensures sole { OnOk result (IsSole tables.now worker.new) }
    ensures looked { OnOk result (Looked tables.now worker.old worker.new) }
    ensures lists { OnOk result (ListsFor
        (tables_of tables.now worker.old) command.now listings.old.items listings.new.items) }
{
    if let Form::Dump = command.form() {
        let mut listing = dump(rt, alloc, tables, worker)?;
        listing.span = None;
        listings.push(listing)?;
    }
    Ok(())
}
