//! How long each of them lasts.

use crate::patience::{Patience, Tries, Waits};
use std::test::Fail;

#[test]
fn so_many_tries_more_than_one(rt: HostRuntime) -> Result<(), Fail> {
    let twice_more = Tries(2);
    let lasts = (
        twice_more.lasts(0),
        twice_more.lasts(1),
        twice_more.lasts(2),
        twice_more.lasts(u64::MAX),
    );
    assert_eq!(rt; lasts, (true, true, false, false));
    assert!(rt; !Tries(0).lasts(0));
    Ok(())
}

#[test]
fn whoever_waits_goes_on(rt: HostRuntime) -> Result<(), Fail> {
    let waits = Waits::by(&rt);
    assert_eq!(rt;
        (
            waits.lasts(0),
            waits.lasts(1_000),
            waits.lasts(u64::MAX - 1)
        ),
        (true, true, true)
    );
    Ok(())
}
