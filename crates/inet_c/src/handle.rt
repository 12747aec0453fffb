//! What is held behind a pointer, or nothing where it is null.

ghost use Rattle.std.specs.Prelude.{◌≡◌, IfErr, IfOk, None, Option, Some};
ghost use Rattle.std.specs.Option.{option_map};
ghost use Rattle.crossbeam_utils.specs.Padded.{padded_value};
ghost use Rattle.inet_c.specs.Owned.{owned};

use crate::parts::Parts;
use crossbeam_utils::CachePadded;
use std::alloc::Global;
use std::marker::Model;
use std::ptr::null_mut;

/// What is held behind a pointer, or nothing where it is null.
///
/// No struct with a type parameter may cross to C, so each of [`kinds`](crate::kinds) has these fields of its own.
pub struct Handle<T> {
    pub(super) ptr: *mut T,
    pub(super) alloc: Global,
    pub ghost held: { Option T },
}

impl<T> Model for Handle<T> {
    ghost also_owns = { λ h. owned T.row h.alloc h.ptr h.held };
}

impl<T> Handle<T> {
    /// A handle that holds nothing.
    pub fn empty(alloc: Global) -> Self
        ensures { result.held ≡ None }
    {
        Handle {
            ptr: null_mut(),
            alloc,
        }
    }

    fn of_parts(parts: Parts<T, Global>) -> Self
        ensures { result.held ≡ Some parts.value }
    {
        let Parts { ptr, alloc } = parts;
        Handle { ptr, alloc }
    }

    fn into_parts(self) -> Option<Parts<T, Global>>
        ensures { option_map (λ p. p.value) result ≡ self.held }
    {
        let Handle { ptr, alloc } = self;
        if ptr.is_null() {
            None
        } else {
            Some(Parts { ptr, alloc })
        }
    }

    /// A handle that holds this.
    pub fn of(held: Box<T>) -> Self
    where
        T: Drop,
        ensures { result.held ≡ Some held.value }
    {
        Handle::of_parts(Parts::of(held))
    }

    /// What the handle holds.
    pub fn into_box(self) -> Option<Box<T>>
        ensures { option_map (λ b. b.value) result ≡ self.held }
    {
        match self.into_parts() {
            None => None,
            Some(parts) => Some(parts.into_box()),
        }
    }
}

/// The state in a box, with unused bytes round it, by which no two states share a cache line; for want of memory it
/// comes back.
pub fn boxed<T: Drop>(alloc: Global, state: T) -> Result<Box<CachePadded<T>>, T>
    ensures boxed { IfOk result (λ b. padded_value b.value ≡ state) }
    ensures back { IfErr result (λ s. s ≡ state) }
{
    match Box::new(alloc, CachePadded::new(state)) {
        Ok(boxed) => Ok(boxed),
        Err(failed) => Err(failed.value.into_inner()),
    }
}
