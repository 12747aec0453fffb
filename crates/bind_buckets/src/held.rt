//! What a bucket holds, and what each request makes of it.

ghost use Rattle.std.specs.Prelude.{◌≡◌, ◌≤◌, ◌<◌, true, false, Some, length, find};
ghost use Rattle.sock_card.specs.Conflict as conflict_spec;
ghost use Rattle.sock_card.specs.Became as became;
ghost use Rattle.bind_buckets.specs.OwnerStep as spec;
ghost use Rattle.bind_buckets.specs.First.{change_first};
ghost use Rattle.bind_buckets.specs.Members as members_spec;
ghost use Rattle.bind_buckets.specs.Bucket.{IsGroup, brings_owner};
ghost use Rattle.bind_buckets.specs.HeldBy.{held_by, IsStep, CanBeAt, CanCarryOut, IsRoomLeft};

use crate::change::Change;
use crate::group::Group;
use crate::owners::Owners;
use crate::places::{group_place, place_for};
use crate::request::{Answer, Request};
use sock_card::{Owner, child};
use std::alloc::Global;

/// How many places for groups a bucket has.
pub const GROUP_PLACES: usize = 8;

/// The owners of a bucket's ports, oldest first, and the groups at its places.
#[derive(Drop)]
pub struct Held {
    pub owners: Owners,
    pub groups: [Group; GROUP_PLACES],
}

impl Held {
    /// Ports that far apart are counted apart.
    pub fn new(alloc: Global, stride: u32) -> Self
        requires { 1 ≤ stride }
        ensures empty { held_by result ≡ spec.empty }
        ensures none { result.owners.room ≡ 0 }
    {
        Held {
            owners: Owners::new(alloc, stride),
            groups: [
                Group::new(),
                Group::new(),
                Group::new(),
                Group::new(),
                Group::new(),
                Group::new(),
                Group::new(),
                Group::new(),
            ],
        }
    }

    #[inline(always)]
    fn admit(&mut self, owner: Owner) -> Answer
        requires { 1 ≤ self.old.owners.room }
        ensures step { IsStep (spec.with_owner (held_by self.old) owner) self.new result }
        ensures room { IsRoomLeft self.old.owners self.new.owners }
    {
        self.owners.push(owner);
        Answer::Done
    }

    fn bind(&mut self, owner: Owner) -> Answer
        requires { 1 ≤ self.old.owners.room }
        ensures step { IsStep
            (spec.admitted (held_by self.old) owner
            (find (conflict_spec.refuses owner) self.old.owners.owners))
            self.new result }
        ensures room { IsRoomLeft self.old.owners self.new.owners }
    {
        match self.owners.refusing(&owner) {
            Some(other) => Answer::InUse(other.name),
            None => self.admit(owner),
        }
    }

    fn bind_auto(&mut self, owner: Owner) -> Answer
        requires { 1 ≤ self.old.owners.room }
        ensures step { IsStep
            (spec.admitted (held_by self.old) owner
            (find (conflict_spec.overlap owner) self.old.owners.owners))
            self.new result }
        ensures room { IsRoomLeft self.old.owners self.new.owners }
    {
        match self.owners.overlapping(&owner) {
            Some(other) => Answer::InUse(other.name),
            None => self.admit(owner),
        }
    }

    fn free(&self, port: u16, net: u8) -> Answer
        ensures { IsStep
            (spec.kept (held_by self.now)
            (spec.free_answer (find (conflict_spec.holds port net) self.now.owners.owners)))
            self.now result }
    {
        match self.owners.holder(port, net) {
            Some(owner) => Answer::NotFree(owner.name),
            None => Answer::Done,
        }
    }

    fn connect_bound(&mut self, name: u64, local: u32, remote: u32, rport: u16) -> Answer
        requires { CanBeAt local (find (spec.has_name name) self.old.owners.owners) }
        ensures step { IsStep
            (spec.named (held_by self.old) name
            (λ _. spec.changed (held_by self.old) name (became.connected local remote rport) self.old.groups))
            self.new result }
        ensures room { IsRoomLeft self.old.owners self.new.owners }
        ensures none { length self.new.owners.owners ≤ length self.old.owners.owners }
    {
        let change = Change::Connects {
            local,
            remote,
            rport,
        };
        match self.owners.change(name, change) {
            None => Answer::Strange(name),
            Some(_) => Answer::Done,
        }
    }

    fn inherit(
        &mut self,
        parent: u64,
        name: u64,
        mark: u32,
        local: u32,
        remote: u32,
        rport: u16,
    ) -> Answer
        requires { 1 ≤ self.old.owners.room }
        ensures step { IsStep
            (spec.named (held_by self.old) parent
            (λ listener. spec.with_owner (held_by self.old) (became.child name mark local remote rport listener)))
            self.new result }
        ensures room { IsRoomLeft self.old.owners self.new.owners }
    {
        match self.owners.named(parent).copied() {
            None => Answer::Strange(parent),
            Some(listener) => self.admit(child(listener, name, mark, local, remote, rport)),
        }
    }

    fn group_answer(&self, number: u32, owner: &Owner) -> Answer
        requires { number < 256 }
        ensures { result ≡ spec.group_answer number (held_by self.now) (spec.place_for (held_by self.now) owner.now) }
    {
        match place_for(owner, &self.owners, &self.groups) {
            None => Answer::GroupsFull,
            Some(place) => {
                if self.groups[place].has_room() {
                    Answer::Group(Some(GROUP_PLACES as u32 * number + place as u32))
                } else {
                    Answer::GroupFull
                }
            }
        }
    }

    fn listener_answer(&self, number: u32, owner: &Owner, name: u64) -> Answer
        requires number { number < 256 }
        requires first { find (spec.has_name name) self.now.owners.owners ≡ Some owner.now }
        ensures { result ≡ spec.listener_answer number (held_by self.now) owner.now
            (find (conflict_spec.refuses owner.now) (spec.others (held_by self.now) name)) }
    {
        match self.owners.refusing_other(owner, name) {
            Some(other) => Answer::InUse(other.name),
            None => {
                if owner.reuseport {
                    self.group_answer(number, owner)
                } else {
                    Answer::Group(None)
                }
            }
        }
    }

    fn may_listen(&self, number: u32, name: u64) -> Answer
        requires { number < 256 }
        ensures { IsStep
            (spec.named (held_by self.now) name (spec.may_listen number (held_by self.now) name))
            self.now result }
    {
        match self.owners.named(name) {
            None => Answer::Strange(name),
            Some(owner) => self.listener_answer(number, owner, name),
        }
    }

    /// Puts a listener into its mates' group, or into the first that is free.
    fn join(&mut self, owner: &Owner, name: u64, slot: u32)
        requires { IsGroup (spec.group_answer 0 (held_by self.old) (spec.place_for (held_by self.old) owner.now)) }
        ensures groups { self.new.groups
            ≡ spec.with_member (spec.place_for (held_by self.old) owner.now)
            (members_spec.member slot name) self.old.groups }
        ensures owners { self.new.owners ≡ self.old.owners }
    {
        if let Some(place) = place_for(owner, &self.owners, &self.groups) {
            let group = &mut self.groups[place];
            group.join(slot, name);
        }
    }

    fn listen(&mut self, number: u32, name: u64, slot: u32) -> Answer
        requires { IsGroup (spec.named (held_by self.old) name
            (spec.may_listen number (held_by self.old) name)).answer }
        ensures step { IsStep
            (spec.named (held_by self.old) name (spec.listening (held_by self.old) name slot))
            self.new result }
        ensures room { IsRoomLeft self.old.owners self.new.owners }
        ensures none { length self.new.owners.owners ≤ length self.old.owners.owners }
    {
        match self.owners.named(name).copied() {
            None => Answer::Strange(name),
            Some(owner) => {
                if owner.reuseport {
                    self.join(&owner, name, slot);
                }
                self.owners.change(name, Change::Listens);
                Answer::Done
            }
        }
    }

    /// Takes the member of that name out of its group, if it is in one.
    fn leave(&mut self, name: u64)
        ensures groups { self.new.groups
            ≡ change_first (members_spec.has_member name) (members_spec.without_member name) self.old.groups }
        ensures owners { self.new.owners ≡ self.old.owners }
    {
        if let Some(place) = group_place(name, &self.groups) {
            let group = &mut self.groups[place];
            group.leave(name);
        }
    }

    fn remove(&mut self, name: u64) -> Answer
        ensures step { IsStep
            (spec.named (held_by self.old) name (λ _. spec.removed (held_by self.old) name))
            self.new result }
        ensures room { IsRoomLeft self.old.owners self.new.owners }
        ensures none { length self.new.owners.owners ≤ length self.old.owners.owners }
    {
        match self.owners.remove(name) {
            None => Answer::Strange(name),
            Some(_) => {
                self.leave(name);
                Answer::Done
            }
        }
    }

    fn to_time_wait(&mut self, name: u64) -> Answer
        ensures step { IsStep
            (spec.named (held_by self.old) name
            (λ _. spec.changed (held_by self.old) name became.as_waiting self.old.groups))
            self.new result }
        ensures room { IsRoomLeft self.old.owners self.new.owners }
        ensures none { length self.new.owners.owners ≤ length self.old.owners.owners }
    {
        match self.owners.change(name, Change::Waits) {
            None => Answer::Strange(name),
            Some(_) => Answer::Done,
        }
    }

    fn remove_waiting(&mut self, name: u64) -> Answer
        ensures step { IsStep
            (spec.spoken (held_by self.old) name (find (spec.waits_as name) self.old.owners.owners)
            (λ _. spec.without_waiting (held_by self.old) name))
            self.new result }
        ensures room { IsRoomLeft self.old.owners self.new.owners }
        ensures none { length self.new.owners.owners ≤ length self.old.owners.owners }
    {
        match self.owners.remove_waiting(name) {
            None => Answer::Strange(name),
            Some(_) => Answer::Done,
        }
    }

    /// Carries out a request to the bucket of that number, and answers it.
    #[tactic(auto, unfolding(crate::specs::OwnerStep::owner_step))]
    pub fn carry_out(&mut self, number: u32, request: Request) -> Answer
        requires number { number < 256 }
        requires room { brings_owner request ≡ true → 1 ≤ self.old.owners.room }
        requires allowed { CanCarryOut number (held_by self.old) request }
        ensures step { IsStep (spec.owner_step number (held_by self.old) request) self.new result }
        ensures room { IsRoomLeft self.old.owners self.new.owners }
        ensures none { brings_owner request ≡ false
            → length self.new.owners.owners ≤ length self.old.owners.owners }
    {
        match request {
            Request::Bind(owner) => self.bind(owner),
            Request::BindAuto(owner) => self.bind_auto(owner),
            Request::MayListen { name } => self.may_listen(number, name),
            Request::Listen { name, slot } => self.listen(number, name, slot),
            Request::Free { port, net } => self.free(port, net),
            Request::ConnectAuto(owner) => self.admit(owner),
            Request::ConnectBound {
                name,
                local,
                remote,
                rport,
            } => self.connect_bound(name, local, remote, rport),
            Request::Inherit {
                parent,
                name,
                mark,
                local,
                remote,
                rport,
            } => self.inherit(parent, name, mark, local, remote, rport),
            Request::ToTimeWait { name } => self.to_time_wait(name),
            Request::Remove { name } => self.remove(name),
            Request::RemoveWaiting { name } => self.remove_waiting(name),
        }
    }
}
