//! How tables are made.

ghost use Rattle.std.specs.Prelude.{◌≡◌};
ghost use Rattle.inet_c.specs.Made as spec;
ghost use Rattle.inet_c.specs.Made.{IsList, Makes};
ghost use Rattle.inet_c.specs.Owned.{held};
ghost use Rattle.shared_calls.specs.Sharings.{IsNew};

use crate::errno::{EBADF, EBUSY, EINVAL, ENOMEM, EUSERS};
use crate::handle::boxed;
use crate::kinds::{InetList, InetTables};
use crate::sizes::{InetSizes, are_sizes, header_of};
use flat_calls::Tables;
use shared_calls::SharedTables;
use std::alloc::Global;

/// What came of it.
#[derive(Clone, Copy, Debug, PartialEq, Eq)]
pub enum Making {
    /// The handle holds it.
    Made,
    /// The handle holds something already.
    There,
    /// The sizes are none that tables may have.
    Unfit,
    /// Memory ran out.
    NoMemory,
    /// The other handle holds no shared tables.
    NoTables,
    /// As many were handed out as there may be.
    AllOut,
}

/// The number of errno(3) by which Linux reports it.
pub fn errno_of(making: Making) -> i32
    ensures { result ≡ spec.errno_of making }
{
    match making {
        Making::Made => 0,
        Making::NoTables => EBADF,
        Making::NoMemory => ENOMEM,
        Making::There => EBUSY,
        Making::Unfit => EINVAL,
        Making::AllOut => EUSERS,
    }
}

/// Makes a list in a handle that holds nothing.
pub fn make(list: &mut InetList, alloc: Global, sizes: &InetSizes) -> Making
    ensures { Makes IsList sizes.now (held list.old.boxed) (held list.new.boxed) result }
{
    if !are_sizes(sizes) {
        return Making::Unfit;
    }
    if list.is_held(alloc) {
        return Making::There;
    }
    match boxed(alloc, Tables::new(alloc, &header_of(sizes))) {
        Ok(made) => {
            *list = InetList::of(made);
            Making::Made
        }
        Err(_) => Making::NoMemory,
    }
}

/// Makes shared tables in a handle that holds nothing. By the tag what they hand out is known as theirs.
pub fn share(tables: &mut InetTables, alloc: Global, sizes: &InetSizes, tag: u64) -> Making
    ensures { Makes (λ header t. IsNew header tag t) sizes.now (held tables.old.boxed) (held tables.new.boxed) result }
{
    if !are_sizes(sizes) {
        return Making::Unfit;
    }
    if tables.is_held(alloc) {
        return Making::There;
    }
    let Ok(shared) = SharedTables::new(alloc, &header_of(sizes), tag) else {
        return Making::NoMemory;
    };
    match boxed(alloc, shared) {
        Ok(made) => {
            *tables = InetTables::of(made);
            Making::Made
        }
        Err(_) => Making::NoMemory,
    }
}
