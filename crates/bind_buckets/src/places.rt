//! Questions about groups: which one has a member, and which one a listener joins.

ghost use Rattle.std.specs.Prelude.{◌≡◌, ◌<◌, length, position, IfSome};
ghost use Rattle.bind_buckets.specs.OwnerStep as spec;
ghost use Rattle.bind_buckets.specs.Members as members_spec;

use crate::group::Group;
use crate::owners::Owners;
use sock_card::Owner;

/// Where the group stands that has a member of that name.
pub fn group_place(name: u64, groups: &[Group]) -> Option<usize>
    ensures place { result ≡ position (members_spec.has_member name) groups.now }
    ensures bound { IfSome result (λ place. place < length groups.now) }
{
    groups.iter().position(|group| group.has_member(name))
}

fn free_place(groups: &[Group]) -> Option<usize>
    ensures place { result ≡ position spec.is_free groups.now }
    ensures bound { IfSome result (λ place. place < length groups.now) }
{
    groups.iter().position(|group| group.is_free())
}

fn mates_place(owner: &Owner, owners: &Owners, groups: &[Group]) -> Option<usize>
    ensures place { result
        ≡ spec.mates_place (record { owners = owners.now.owners; groups = groups.now }) owner.now }
    ensures bound { IfSome result (λ place. place < length groups.now) }
{
    match owners.mate(owner) {
        None => None,
        Some(mate) => group_place(mate.name, groups),
    }
}

/// The place at which a listener with `reuseport` joins a group or begins one.
pub fn place_for(owner: &Owner, owners: &Owners, groups: &[Group]) -> Option<usize>
    ensures place { result
        ≡ spec.place_for (record { owners = owners.now.owners; groups = groups.now }) owner.now }
    ensures bound { IfSome result (λ place. place < length groups.now) }
{
    match mates_place(owner, owners, groups) {
        None => free_place(groups),
        Some(place) => Some(place),
    }
}
