//! Lives of a slot that was used twice.

ghost use Rattle.std.specs.Prelude.{IfOk};
ghost use Rattle.race_book.specs.Listed.{StampsDiffer, FitSlots};

use crate::lives::{Life, lives};
use chain_book::{Act, Change};
use sock_card::{Card, Kind};
use std::alloc::{AllocError, Global};
use std::test::Fail;

/// A connection from 10.0.0.2:1000 to 10.0.0.1:80.
const CARD: Card = Card {
    local: 0x0A00_0001,
    lport: 80,
    remote: 0x0A00_0002,
    rport: 1000,
    dev: 0,
    net: 0,
    kind: Kind::Full,
    name: 0x100_0001,
    extra: 0,
    mark: 0,
};

/// It is put into slot 0, and stays there.
const LATER: Change = Change {
    bucket: 0,
    slot: 0,
    card: CARD,
    act: Act::Hash,
    begin: 4,
    end: 5,
};

/// It was there before,
const EARLIER: Change = Change {
    bucket: 0,
    slot: 0,
    card: CARD,
    act: Act::Hash,
    begin: 0,
    end: 1,
};

/// and was taken out.
const GONE: Change = Change {
    bucket: 0,
    slot: 0,
    card: CARD,
    act: Act::Unhash,
    begin: 2,
    end: 3,
};

/// The changes, the last one first.
fn book(alloc: Global) -> Result<Vec<Change>, AllocError>
    ensures slots { IfOk result (λ book. FitSlots 1 book.items) }
    ensures stamps { IfOk result (λ book. StampsDiffer book.items) }
{
    let mut book = Vec::new(alloc);
    book.push(LATER)?;
    book.push(GONE)?;
    book.push(EARLIER)?;
    Ok(book)
}

fn found(alloc: Global) -> Result<Vec<Life>, AllocError> {
    let book = book(alloc)?;
    lives(alloc, &book, 1)
}

#[test]
fn a_slot_used_twice(rt: HostRuntime) -> Result<(), Fail> {
    let lives = found(rt.alloc())?;
    let first = Life {
        hash: EARLIER,
        unhash: Some(GONE),
    };
    let second = Life {
        hash: LATER,
        unhash: None,
    };
    assert!(rt; lives.as_slice() == [first, second].as_slice());
    Ok(())
}
