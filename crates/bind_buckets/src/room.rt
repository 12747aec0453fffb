//! Room for lists that grow, whose final size isn't known.

ghost use Rattle.std.specs.Prelude.{◌≡◌, ◌+◌, ◌≤◌, vec_len, vec_capacity, OnOk};

use std::alloc::AllocError;

/// From how many items on a list doubles. Most of its spare room is pages then that nothing has touched.
const LARGE: usize = 1024;

/// Makes room for so many more, and, where the list has to move for that, for a quarter more yet, or
/// for as many again where it is large.
///
/// So a list that grows one by one is copied about four times in all, and leaves little room empty. An
/// `Err`, for want of memory, changes nothing.
pub fn reserve<T>(items: &mut Vec<T>, more: usize) -> Result<(), AllocError>
    ensures items { items.new.items ≡ items.old.items }
    ensures room { OnOk result (vec_len items.new + more ≤ vec_capacity items.new) }
    ensures kept { vec_capacity items.old ≤ vec_capacity items.new }
{
    if items.len() >= LARGE {
        return items.reserve(more);
    }
    if items.capacity() - items.len() < more {
        let spare = items.len() / 4 + 4;
        items.reserve_exact(more.saturating_add(spare))?;
    }
    Ok(())
}
