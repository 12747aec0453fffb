//! The handles by which C holds a list, shared tables, a worker and a looker, one type for each.
//!
//! Each is `at` of its struct in C, whose other bytes the library neither reads nor writes. No pointer to a type with
//! parts of its own may cross to C, so this one says nothing of what lies behind it.

ghost use Rattle.std.specs.Prelude.{◌≡◌, None, Option, Some, is_some};
ghost use Rattle.std.specs.Option.{option_map};
ghost use Rattle.crossbeam_utils.specs.contracts.cache_padded.CachePadded.{the_row};
ghost use Rattle.crossbeam_utils.specs.declared.cache_padded.CachePadded.{CachePadded};
ghost use Rattle.flat_calls.specs.Calls.{Numbered};
ghost use Rattle.flat_calls.specs.contracts.tables.Tables as tables;
ghost use Rattle.inet_c.specs.Owned.{owned};
ghost use Rattle.shared_calls.specs.Lookings.{Looking};
ghost use Rattle.shared_calls.specs.Sharings.{Sharing};
ghost use Rattle.shared_calls.specs.contracts.limited.Limited as limited;
ghost use Rattle.shared_calls.specs.contracts.looker.Looker as looker;
ghost use Rattle.shared_calls.specs.contracts.tables.SharedTables as shared;
ghost use Rattle.shared_calls.specs.declared.limited.Limited.{Limited};

use crate::handle::Handle;
use crossbeam_utils::CachePadded;
use flat_calls::Tables;
use shared_calls::{Limited, Looker, SharedTables};
use std::alloc::Global;
use std::marker::Model;
use std::mem::replace;

/// Only a value that may go to another thread gets through. A handle goes through it so that this is proved of handles
/// here, and not first where somebody sends one.
fn sendable<T: Send>(value: T) -> T
    ensures { result ≡ value }
{
    value
}

/// The handle of one list of sockets: `struct inet_list`.
#[repr(C)]
pub struct InetList {
    ptr: *mut u8,
    alloc: Global,
    pub ghost boxed: { Option (CachePadded Numbered) },
}

impl Model for InetList {
    ghost also_owns = { λ h. owned (the_row tables.the_row) h.alloc h.ptr h.boxed };
}

// What lies behind the pointer belongs to no thread, and what it shares with others is atomic.
unsafe impl Send for InetList {}

impl InetList {
    fn of_handle(handle: Handle<CachePadded<Tables>>) -> Self
        ensures { result.boxed ≡ handle.held }
    {
        let Handle { ptr, alloc } = handle;
        InetList {
            ptr: ptr as *mut u8,
            alloc,
        }
    }

    fn into_handle(self) -> Handle<CachePadded<Tables>>
        ensures { result.held ≡ self.boxed }
    {
        let InetList { ptr, alloc } = self;
        Handle {
            ptr: ptr as *mut CachePadded<Tables>,
            alloc,
        }
    }

    /// A handle that holds this.
    pub fn of(boxed: Box<CachePadded<Tables>>) -> Self
        ensures { result.boxed ≡ Some boxed.value }
    {
        sendable(InetList::of_handle(Handle::of(boxed)))
    }

    /// Takes out what the handle holds, which holds nothing then.
    pub fn take(&mut self, alloc: Global) -> Option<Box<CachePadded<Tables>>>
        ensures held { option_map (λ b. b.value) result ≡ self.old.boxed }
        ensures empty { self.new.boxed ≡ None }
    {
        let empty = InetList::of_handle(Handle::empty(alloc));
        replace(self, empty).into_handle().into_box()
    }

    /// Whether the handle holds something.
    pub fn is_held(&mut self, alloc: Global) -> bool
        ensures there { result ≡ is_some self.old.boxed }
        ensures same { self.new.boxed ≡ self.old.boxed }
    {
        match self.take(alloc) {
            None => false,
            Some(boxed) => {
                *self = InetList::of(boxed);
                true
            }
        }
    }
}

impl Drop for InetList {
    fn drop(self) {
        drop(self.into_handle().into_box());
    }
}

/// The handle of tables that threads share, of which workers and lookers are handed out: `struct inet_tables`.
#[repr(C)]
pub struct InetTables {
    ptr: *mut u8,
    alloc: Global,
    pub ghost boxed: { Option (CachePadded Sharing) },
}

impl Model for InetTables {
    ghost also_owns = { λ h. owned (the_row shared.the_row) h.alloc h.ptr h.boxed };
}

// What lies behind the pointer belongs to no thread, and what it shares with others is atomic.
unsafe impl Send for InetTables {}

impl InetTables {
    fn of_handle(handle: Handle<CachePadded<SharedTables>>) -> Self
        ensures { result.boxed ≡ handle.held }
    {
        let Handle { ptr, alloc } = handle;
        InetTables {
            ptr: ptr as *mut u8,
            alloc,
        }
    }

    fn into_handle(self) -> Handle<CachePadded<SharedTables>>
        ensures { result.held ≡ self.boxed }
    {
        let InetTables { ptr, alloc } = self;
        Handle {
            ptr: ptr as *mut CachePadded<SharedTables>,
            alloc,
        }
    }

    /// A handle that holds this.
    pub fn of(boxed: Box<CachePadded<SharedTables>>) -> Self
        ensures { result.boxed ≡ Some boxed.value }
    {
        sendable(InetTables::of_handle(Handle::of(boxed)))
    }

    /// Takes out what the handle holds, which holds nothing then.
    pub fn take(&mut self, alloc: Global) -> Option<Box<CachePadded<SharedTables>>>
        ensures held { option_map (λ b. b.value) result ≡ self.old.boxed }
        ensures empty { self.new.boxed ≡ None }
    {
        let empty = InetTables::of_handle(Handle::empty(alloc));
        replace(self, empty).into_handle().into_box()
    }

    /// Whether the handle holds something.
    pub fn is_held(&mut self, alloc: Global) -> bool
        ensures there { result ≡ is_some self.old.boxed }
        ensures same { self.new.boxed ≡ self.old.boxed }
    {
        match self.take(alloc) {
            None => false,
            Some(boxed) => {
                *self = InetTables::of(boxed);
                true
            }
        }
    }
}

impl Drop for InetTables {
    fn drop(self) {
        drop(self.into_handle().into_box());
    }
}

/// The handle of a worker of such tables, under its limits: `struct inet_worker`.
#[repr(C)]
pub struct InetWorker {
    ptr: *mut u8,
    alloc: Global,
    pub ghost boxed: { Option (CachePadded Limited) },
}

impl Model for InetWorker {
    ghost also_owns = { λ h. owned (the_row limited.the_row) h.alloc h.ptr h.boxed };
}

// What lies behind the pointer belongs to no thread, and what it shares with others is atomic.
unsafe impl Send for InetWorker {}

impl InetWorker {
    fn of_handle(handle: Handle<CachePadded<Limited>>) -> Self
        ensures { result.boxed ≡ handle.held }
    {
        let Handle { ptr, alloc } = handle;
        InetWorker {
            ptr: ptr as *mut u8,
            alloc,
        }
    }

    fn into_handle(self) -> Handle<CachePadded<Limited>>
        ensures { result.held ≡ self.boxed }
    {
        let InetWorker { ptr, alloc } = self;
        Handle {
            ptr: ptr as *mut CachePadded<Limited>,
            alloc,
        }
    }

    /// A handle that holds this.
    pub fn of(boxed: Box<CachePadded<Limited>>) -> Self
        ensures { result.boxed ≡ Some boxed.value }
    {
        sendable(InetWorker::of_handle(Handle::of(boxed)))
    }

    /// Takes out what the handle holds, which holds nothing then.
    pub fn take(&mut self, alloc: Global) -> Option<Box<CachePadded<Limited>>>
        ensures held { option_map (λ b. b.value) result ≡ self.old.boxed }
        ensures empty { self.new.boxed ≡ None }
    {
        let empty = InetWorker::of_handle(Handle::empty(alloc));
        replace(self, empty).into_handle().into_box()
    }

    /// Whether the handle holds something.
    pub fn is_held(&mut self, alloc: Global) -> bool
        ensures there { result ≡ is_some self.old.boxed }
        ensures same { self.new.boxed ≡ self.old.boxed }
    {
        match self.take(alloc) {
            None => false,
            Some(boxed) => {
                *self = InetWorker::of(boxed);
                true
            }
        }
    }
}

impl Drop for InetWorker {
    fn drop(self) {
        drop(self.into_handle().into_box());
    }
}

/// The handle of a looker in such tables: `struct inet_looker`.
#[repr(C)]
pub struct InetLooker {
    ptr: *mut u8,
    alloc: Global,
    pub ghost boxed: { Option (CachePadded Looking) },
}

impl Model for InetLooker {
    ghost also_owns = { λ h. owned (the_row looker.the_row) h.alloc h.ptr h.boxed };
}

// What lies behind the pointer belongs to no thread, and what it shares with others is atomic.
unsafe impl Send for InetLooker {}

impl InetLooker {
    fn of_handle(handle: Handle<CachePadded<Looker>>) -> Self
        ensures { result.boxed ≡ handle.held }
    {
        let Handle { ptr, alloc } = handle;
        InetLooker {
            ptr: ptr as *mut u8,
            alloc,
        }
    }

    fn into_handle(self) -> Handle<CachePadded<Looker>>
        ensures { result.held ≡ self.boxed }
    {
        let InetLooker { ptr, alloc } = self;
        Handle {
            ptr: ptr as *mut CachePadded<Looker>,
            alloc,
        }
    }

    /// A handle that holds this.
    pub fn of(boxed: Box<CachePadded<Looker>>) -> Self
        ensures { result.boxed ≡ Some boxed.value }
    {
        sendable(InetLooker::of_handle(Handle::of(boxed)))
    }

    /// Takes out what the handle holds, which holds nothing then.
    pub fn take(&mut self, alloc: Global) -> Option<Box<CachePadded<Looker>>>
        ensures held { option_map (λ b. b.value) result ≡ self.old.boxed }
        ensures empty { self.new.boxed ≡ None }
    {
        let empty = InetLooker::of_handle(Handle::empty(alloc));
        replace(self, empty).into_handle().into_box()
    }

    /// Whether the handle holds something.
    pub fn is_held(&mut self, alloc: Global) -> bool
        ensures there { result ≡ is_some self.old.boxed }
        ensures same { self.new.boxed ≡ self.old.boxed }
    {
        match self.take(alloc) {
            None => false,
            Some(boxed) => {
                *self = InetLooker::of(boxed);
                true
            }
        }
    }
}

impl Drop for InetLooker {
    fn drop(self) {
        drop(self.into_handle().into_box());
    }
}
