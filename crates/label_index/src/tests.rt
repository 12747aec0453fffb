//! Labels given and found, by a seed that is drawn, by one that can't be, and by the fixed one.

use crate::{LabelIndex, LabelSeed};
use flat_list::Label;
use std::alloc::Global;
use std::hash::BuildHasher;
use std::io;
use std::io::ErrorKind;
use std::process::Abort;
use std::random::RandomSource;
use std::test::Fail;

/// A system that draws no bytes.
struct NoSource;

impl RandomSource for NoSource {
    fn fill_bytes(&self, _buf: &mut [u8]) -> io::Result<()> {
        Err(io::Error::from(ErrorKind::Unsupported))
    }
}

fn label(rt: &impl Abort, bytes: &[u8]) -> Label {
    Label::from_bytes(bytes).expect(rt, "a label has 16 bytes at most")
}

/// A label that is given twice, one that is given once, and one that isn't given.
fn check_places(rt: &impl Abort, alloc: Global, seed: LabelSeed) -> Result<(), Fail> {
    let mut given = LabelIndex::new(alloc, seed);
    let first = label(rt, b"a");
    let second = label(rt, b"listener-10-0-80");
    assert_eq!(rt; given.place_of(&first), None);
    given.give(&first)?;
    assert!(rt; given.give_and_tell(&second)?);
    assert!(rt; !given.give_and_tell(&first)?);
    assert_eq!(rt; given.len(), 3);
    assert_eq!(rt; given.place_of(&first), Some(0));
    assert_eq!(rt; given.place_of(&second), Some(1));
    assert_eq!(rt; given.place_of(&label(rt, b"listener-10-0-81")), None);
    Ok(())
}

#[test]
fn labels_are_found_by_each_seed(rt: HostRuntime) -> Result<(), Fail> {
    check_places(&rt, rt.alloc(), LabelSeed::random(&rt))?;
    check_places(&rt, rt.alloc(), LabelSeed::random(&NoSource))?;
    check_places(&rt, rt.alloc(), LabelSeed::fixed())
}

#[test]
fn each_bit_of_a_seed_changes_the_hash(rt: HostRuntime) -> Result<(), Fail> {
    let key = label(&rt, b"a").key();
    let hash = LabelSeed::of(0).hash_one(key);
    for bit in 0..64u32 {
        assert_ne!(rt; LabelSeed::of(1u64 << bit).hash_one(key), hash, "bit {bit}");
    }
    Ok(())
}

#[test]
fn thousands_of_labels_have_their_places(rt: HostRuntime) -> Result<(), Fail> {
    let mut given = LabelIndex::new(rt.alloc(), LabelSeed::random(&rt));
    for i in 0..5000u32 {
        given.give(&label(&rt, &i.to_be_bytes()))?;
    }
    for i in 0..5000u32 {
        assert_eq!(rt;
            given.place_of(&label(&rt, &i.to_be_bytes())),
            Some(i as usize)
        );
    }
    Ok(())
}

#[test]
fn numbers_are_given_in_order_and_found(rt: HostRuntime) -> Result<(), Fail> {
    let mut given = LabelIndex::numbered();
    given.reserve(5)?;
    for number in 1..300u64 {
        assert!(rt; given.give_and_tell(&label(&rt, &number.to_be_bytes()))?);
    }
    for number in 1..300u64 {
        let place = given.place_of(&label(&rt, &number.to_be_bytes()));
        assert_eq!(rt; place, Some(number as usize - 1));
    }
    for other in [0u64, 1, 299, 301, u64::MAX] {
        assert!(rt; given.give(&label(&rt, &other.to_be_bytes())).is_err());
    }
    assert!(rt; given.give(&label(&rt, b"a")).is_err());
    assert_eq!(rt; given.len(), 299);
    for other in [0u64, 300, u64::MAX] {
        assert_eq!(rt; given.place_of(&label(&rt, &other.to_be_bytes())), None);
    }
    assert_eq!(rt; given.place_of(&label(&rt, b"a")), None);
    Ok(())
}
