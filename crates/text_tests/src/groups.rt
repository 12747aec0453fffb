//! The members of a group in their order.

use flat_list::Group;
use flat_list::group::{group_of, has_place, join, leave};
use std::alloc::AllocError;
use std::test::Fail;

/// Whether the socket of that name has come, where there is a place.
fn come(name: u64, mate: Option<u64>, groups: &mut Vec<Group>) -> Result<bool, AllocError> {
    groups.reserve(1)?;
    if !has_place(0, mate, groups) {
        return Ok(false);
    }
    join(0, name, mate, groups);
    Ok(true)
}

#[test]
fn the_last_member_takes_the_leavers_place(rt: HostRuntime) -> Result<(), Fail> {
    let mut groups = Vec::new(rt.alloc());
    come(7, None, &mut groups)?;
    come(8, Some(7), &mut groups)?;
    come(9, Some(7), &mut groups)?;
    leave(7, &mut groups);
    let group = group_of(8, &groups).ok_or("no group")?;
    let chosen = (group.chosen(0), group.chosen(u32::MAX));
    assert!(rt; chosen == (9, 8));
    Ok(())
}
