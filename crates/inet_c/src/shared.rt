//! Tables that threads share, as C makes them, and what they hand out.

ghost use Rattle.std.specs.Prelude.{◌≡◌, None};
ghost use Rattle.inet_c.specs.Handed.{Hands, IsWorker, NumberedIf};
ghost use Rattle.inet_c.specs.Made as made;
ghost use Rattle.inet_c.specs.Made.{LimitsFit, Makes, limits_of};
ghost use Rattle.inet_c.specs.Owned.{held};
ghost use Rattle.inet_c.specs.declared.errno.TheConstants.{EINVAL};
ghost use Rattle.inet_c.specs.declared.making.Making.{Making};
ghost use Rattle.shared_calls.specs.Sharings.{GivesLooker, HasNoCaller, HasNoLooker, IsNew};

use crate::errno::EINVAL;
use crate::handing::{hand_looker, hand_worker};
use crate::kinds::{InetLooker, InetTables, InetWorker};
use crate::making::{errno_of, share};
use crate::sizes::{InetLimits, InetSizes, are_limits, limits_of};
use std::alloc::Global;

/// Makes shared tables in a handle that holds nothing. By the tag it is known of a worker or a looker that is given
/// back whether these tables handed it out, as far as others have other tags.
#[unsafe(no_mangle)]
pub extern "C" fn inet_tables_new(
    tables: &mut InetTables,
    alloc: Global,
    sizes: &InetSizes,
    tag: u64,
) -> i32
    ensures { (making : Making) × Makes (λ header t. IsNew header tag t) sizes.now (held tables.old.boxed)
        (held tables.new.boxed) making × (result ≡ made.errno_of making) }
{
    errno_of(share(tables, alloc, sizes, tag))
}

/// Hands a worker out, into a handle that holds nothing: the one that was given back last, with all that it has, or the
/// next. It is under these limits. `number` is the worker's, from 1 on, or 0.
#[unsafe(no_mangle)]
pub extern "C" fn inet_tables_worker(
    tables: &mut InetTables,
    alloc: Global,
    limits: &InetLimits,
    worker: &mut InetWorker,
    number: &mut u32,
) -> i32
    ensures unfit { (LimitsFit limits.now → ⊥) → (result ≡ EINVAL) × (number.new ≡ 0)
        × (tables.new.boxed ≡ tables.old.boxed) × (worker.new.boxed ≡ worker.old.boxed) }
    ensures hands { LimitsFit limits.now → (making : Making)
        × Hands (IsWorker (limits_of limits.now) number.new) HasNoCaller (held tables.old.boxed)
        (held tables.new.boxed) (held worker.old.boxed) (held worker.new.boxed) making
        × NumberedIf making number.new × (result ≡ made.errno_of making) }
{
    if !are_limits(limits) {
        *number = 0;
        return EINVAL;
    }
    errno_of(hand_worker(tables, alloc, limits_of(limits), worker, number))
}

/// Hands a looker out, into a handle that holds nothing.
#[unsafe(no_mangle)]
pub extern "C" fn inet_tables_looker(
    tables: &mut InetTables,
    alloc: Global,
    looker: &mut InetLooker,
) -> i32
    ensures { (making : Making) × Hands GivesLooker HasNoLooker (held tables.old.boxed) (held tables.new.boxed)
        (held looker.old.boxed) (held looker.new.boxed) making × (result ≡ made.errno_of making) }
{
    errno_of(hand_looker(tables, alloc, looker))
}

/// Gives up the shared tables that a handle holds, which holds nothing then. They go with the last handle that has a
/// part in them.
#[unsafe(no_mangle)]
pub extern "C" fn inet_tables_free(tables: &mut InetTables, alloc: Global)
    ensures { tables.new.boxed ≡ None }
{
    drop(tables.take(alloc));
}
