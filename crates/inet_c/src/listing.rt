//! Lists through a handle.

ghost use Rattle.std.specs.Prelude.{◌≡◌};
ghost use Rattle.inet_c.specs.Listed as spec;
ghost use Rattle.inet_c.specs.Listed.{Tells, TellsOf, written_over};
ghost use Rattle.inet_c.specs.Owned.{held};

use crate::errno::{EBADF, ENOMEM};
use crate::kinds::InetList;
use flat_calls::{Item, Tables};
use std::alloc::Global;

/// What came of a list.
#[derive(Clone, Copy, Debug, PartialEq, Eq)]
pub enum Telling {
    /// It is written.
    Told,
    /// There is no list.
    NoTables,
    /// Memory ran out.
    NoMemory,
}

/// The number of errno(3) by which Linux reports it.
pub fn errno_of(telling: Telling) -> i32
    ensures { result ≡ spec.errno_of telling }
{
    match telling {
        Telling::Told => 0,
        Telling::NoTables => EBADF,
        Telling::NoMemory => ENOMEM,
    }
}

/// Writes the first of the others over the front of the items, as many as fit.
fn write_over(items: &mut [Item], others: &[Item])
    ensures { items.new ≡ written_over items.old others.now }
{
    let count = items.len().min(others.len());
    items[..count].copy_from_slice(&others[..count]);
}

/// Writes the first of what the tables list, as many as fit, and answers how many they are; 0 where memory ran out.
fn tell(tables: &Tables, alloc: Global, items: &mut [Item], count: &mut u64) -> Telling
    ensures { TellsOf tables.now items.old items.new count.new result }
{
    match tables.list(alloc) {
        Err(_) => {
            *count = 0;
            Telling::NoMemory
        }
        Ok(listed) => {
            write_over(items, &listed);
            *count = listed.len() as u64;
            Telling::Told
        }
    }
}

/// Writes the first of what a list has, as many as fit, and how many they are.
pub fn list_items(
    list: &mut InetList,
    alloc: Global,
    items: &mut [Item],
    count: &mut u64,
) -> Telling
    ensures same { list.new.boxed ≡ list.old.boxed }
    ensures tells { Tells (held list.old.boxed) items.old items.new count.new result }
{
    match list.take(alloc) {
        None => {
            *count = 0;
            Telling::NoTables
        }
        Some(tables) => {
            let telling = tell(&tables, alloc, items, count);
            *list = InetList::of(tables);
            telling
        }
    }
}
