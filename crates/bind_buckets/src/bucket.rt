//! A bucket: what it holds, its journal, and its room.

ghost use Rattle.std.specs.Prelude.{◌≡◌, ◌+◌, ◌-◌, ◌/◌, ◌≤◌, ◌<◌, true, nat_lt, length, if◌then◌else◌, OnOk, OnErr, IfErr, IfOk, find, None, IfSome};
ghost use Rattle.std.specs.Option.{option_copied};
ghost use Rattle.sock_card.specs.Conflict.{owner_key};
ghost use Rattle.sock_card.specs.Became.{as_listener, connected, child, as_waiting};
ghost use Rattle.bind_buckets.specs.Limits.{group_places};
ghost use Rattle.bind_buckets.specs.HeldBy.{held_by};
ghost use Rattle.bind_buckets.specs.OwnerStep.{has_name, with_last, waits_as, empty};
ghost use Rattle.bind_buckets.specs.First.{change_first, drop_first};
ghost use Rattle.bind_buckets.specs.Members.{has_member, without_member};
ghost use Rattle.bind_buckets.specs.Bucket as spec;
ghost use Rattle.bind_buckets.specs.Bucket.{called, answer_to, CanListen, CanConnect, NamesOne};
ghost use Rattle.bind_buckets.specs.Answers.{answer_of_bind, answer_of_free, answer_of_name, answer_of_listen, IsOfBind, IsOfFree, IsOfName, IsOfListen, told_of, holder_told, refusal, overlapping, holder, AllByConnect, KnowsOrSays, KnowsWaitingOrSays, TakesIfOk, TakesIfErr, IsWhy};

use crate::held::{GROUP_PLACES, Held};
use crate::journal::Journal;
use crate::request::{Answer, Entry, InUse, ListenEnd, Mark, NotFree, Request, Sharing, Strange};
use sock_card::{Owner, State};
use std::alloc::{AllocError, Global};
use std::marker::Model;
use turn_table::{Journaled, Note};

/// A bind bucket: the owners of the keys that hash there, oldest first, the groups of its listeners,
/// and a journal of all calls.
///
/// A name may stand at more than one owner; calls on a name speak of the first. The room that
/// [`Bucket::reserve`] made is seen as two numbers, entries and newcomers. Each call but `new`,
/// `reserve` and `mark` that takes `&mut self` makes one note, with the mark that was set last, and
/// takes room for one entry; an owner that comes takes room for one newcomer. A note for its removal
/// is kept for each owner. Nothing but `reserve` takes memory.
///
/// An owner is found by its name in constant time, as far as names spread evenly over the places that
/// are kept for them.
#[derive(Drop)]
pub struct Bucket {
    number: u32,
    buckets: u32,
    // None before any room was made.
    held: Option<Box<Held>>,
    journal: Journal,
    next: Mark,
    entries: u8,
    newcomers: u8,
    alloc: Global,
}

impl Model for Bucket {
    ghost use Rattle.bind_buckets.specs.Bucket.{Bucket as Shown};

    ghost Value = { Shown };

    ghost use Rattle.bind_buckets.specs.Fields.{shown_by, AreKept};

    ghost view = { shown_by };

    ghost invariant = { AreKept };
}

impl Journaled for Bucket {
    ghost use Rattle.bind_buckets.specs.Bucket.{IsSound};
    ghost use Rattle.bind_buckets.specs.Callers.{MayMake, IsMadeFor};

    type Entry = Entry;

    type Home = Sharing;

    ghost notes = { λ b. b.journal };

    ghost is_replay = { IsSound };

    ghost made_for = { IsMadeFor };

    ghost may_make = { MayMake };
}

/// The room for entries after a call that found so many owners and left so many.
fn entries_after(entries: u8, found: usize, left: usize) -> u8
    requires { found ≤ left → 1 ≤ entries }
    ensures { result ≡ (if nat_lt left found then entries else entries - 1) }
{
    if left < found { entries } else { entries - 1 }
}

/// The room for newcomers then.
fn newcomers_after(newcomers: u8, found: usize, left: usize) -> u8
    requires { found < left → 1 ≤ newcomers }
    ensures { result ≡ (if nat_lt found left then newcomers - 1 else newcomers) }
{
    if found < left {
        newcomers - 1
    } else {
        newcomers
    }
}

/// What a bucket holds at first, made apart from where room is mostly there.
#[cold]
#[inline(never)]
fn new_held(alloc: Global, buckets: u32) -> Result<Box<Held>, AllocError>
    requires { 1 ≤ buckets }
    ensures { IfOk result (λ held. (held_by held.value ≡ empty) × (held.value.owners.room ≡ 0)) }
{
    Ok(Box::new(alloc, Held::new(alloc, buckets))?)
}

/// Makes room for five entries more than there are owners, and for two newcomers.
fn reserve_both(journal: &Journal, held: &mut Held) -> Result<(), AllocError>
    ensures owners { held.new.owners.owners ≡ held.old.owners.owners }
    ensures groups { held.new.groups ≡ held.old.groups }
    ensures kept { held.old.owners.room ≤ held.new.owners.room }
    ensures newcomers { OnOk result (2 ≤ held.new.owners.room) }
    ensures notes { OnOk result (length held.old.owners.owners + 5 ≤ journal.now.room) }
{
    journal.reserve(held.owners.len() + 5)?;
    held.owners.reserve(2)
}

fn note(mark: Mark, request: Request, answer: Answer) -> Note<Entry>
    ensures { result ≡ spec.note_of mark request answer }
{
    Note {
        number: mark.number,
        caller: mark.caller,
        entry: Entry { request, answer },
    }
}

pub(crate) fn bind_result(answer: Answer) -> Result<(), InUse>
    requires { IsOfBind answer }
    ensures { answer_of_bind result ≡ answer }
{
    match answer {
        Answer::InUse(name) => Err(InUse(name)),
        _ => Ok(()),
    }
}

pub(crate) fn free_result(answer: Answer) -> Result<(), NotFree>
    requires { IsOfFree answer }
    ensures { answer_of_free result ≡ answer }
{
    match answer {
        Answer::NotFree(name) => Err(NotFree(name)),
        _ => Ok(()),
    }
}

pub(crate) fn name_result(answer: Answer) -> Result<(), Strange>
    requires { IsOfName answer }
    ensures { answer_of_name result ≡ answer }
{
    match answer {
        Answer::Strange(name) => Err(Strange(name)),
        _ => Ok(()),
    }
}

pub(crate) fn listen_result(answer: Answer) -> Result<Option<u32>, ListenEnd>
    requires { IsOfListen answer }
    ensures { answer_of_listen result ≡ answer }
{
    match answer {
        Answer::Group(group) => Ok(group),
        Answer::InUse(name) => Err(ListenEnd::InUse(name)),
        Answer::GroupFull => Err(ListenEnd::GroupFull),
        Answer::GroupsFull => Err(ListenEnd::GroupsFull),
        Answer::Strange(name) => Err(ListenEnd::Strange(name)),
        Answer::Done | Answer::NotFree(_) => Ok(None),
    }
}

impl Bucket {
    /// An empty bucket of that number among so many, 256 at most, without room. It takes no memory.
    ///
    /// A key, which is a port and its namespace's number added up, is one of this bucket's where it
    /// leaves `number` when divided by `buckets`.
    pub fn new(alloc: Global, number: u32, buckets: u32) -> Self
        requires number { number < buckets }
        requires buckets { buckets ≤ 256 }
        ensures { result ≡ spec.new_bucket number buckets }
    {
        Bucket {
            number,
            buckets,
            held: None,
            journal: Journal::new(),
            next: Mark {
                number: 0,
                caller: 0,
            },
            entries: 0,
            newcomers: 0,
            alloc,
        }
    }

    /// Whether the key is one of this bucket's. Constant cost.
    pub fn has_key(&self, key: u32) -> bool
        ensures { result ≡ spec.is_key_of self.now key }
    {
        key % self.buckets == self.number
    }

    /// The first owner of that name. Constant cost, and no note.
    pub fn owner(&self, name: u64) -> Option<&Owner>
        ensures { option_copied result ≡ find (has_name name) self.now.held.owners }
    {
        match &self.held {
            Some(held) => held.owners.named(name),
            None => None,
        }
    }

    /// Makes room for three entries and two newcomers, as much as an operation on a socket takes.
    ///
    /// An `Err`, for want of memory, changes nothing. Mostly it costs nothing; where a list has to
    /// grow, it is copied.
    pub fn reserve(&mut self) -> Result<(), AllocError>
        ensures ok { OnOk result (self.new ≡ record self.old { entries = 3; newcomers = 2 }) }
        ensures err { OnErr result (self.new ≡ self.old) }
    {
        let mut held = match self.held.take() {
            Some(held) => held,
            None => new_held(self.alloc, self.buckets)?,
        };
        let room = reserve_both(&self.journal, &mut held);
        self.held = Some(held);
        room?;
        self.entries = 3;
        self.newcomers = 2;
        Ok(())
    }

    /// Sets the number and the caller that notes carry from now on. Constant cost.
    pub fn mark(&mut self, number: u64, caller: u32)
        ensures { self.new ≡ record self.old { next = record { number = number; caller = caller } } }
    {
        self.next = Mark { number, caller };
    }

    /// Carries out a request, and enters it with its answer.
    pub(crate) fn carry_out(&mut self, request: Request) -> Answer
        requires allowed { spec.IsAllowed self.old request }
        requires room { spec.HasRoom self.old request }
        ensures after { self.new ≡ called self.old request }
        ensures answer { result ≡ answer_to self.old request }
        ensures sound { spec.IsSound self.old }
    {
        let Some(mut held) = self.held.take() else {
            unreachable!()
        };
        let found = held.owners.len();
        let answer = held.carry_out(self.number, request);
        let left = held.owners.len();
        self.held = Some(held);
        self.entries = entries_after(self.entries, found, left);
        self.newcomers = newcomers_after(self.newcomers, found, left);
        self.journal.push(note(self.next, request, answer));
        answer
    }

    /// Takes in a newcomer, unless an owner keeps it from its port (`inet_csk_get_port`).
    ///
    /// `InUse` names the first owner that does, and the bucket holds what it held. Constant cost where
    /// counts show that none does: nobody owns the port, all of its owners, or all at this address and
    /// at 0.0.0.0, share it by `reuseaddr` and none of them listens, or share it by `reuseport` as one
    /// user. Else it goes through the port's owners at this address and 0.0.0.0, or for a newcomer at
    /// 0.0.0.0 through all of the port's, up to the first that refuses. A count shows nothing more once
    /// it was of 255 owners.
    pub fn bind(&mut self, owner: Owner) -> Result<(), InUse>
        requires key { spec.is_key_of self.old (owner_key owner) ≡ true }
        requires entry { 1 ≤ self.old.entries }
        requires newcomer { 1 ≤ self.old.newcomers }
        ensures after { self.new ≡ called self.old (Request.Bind owner) }
        ensures answer { answer_of_bind result ≡ answer_to self.old (Request.Bind owner) }
        ensures bound { OnOk result (self.new.held ≡ with_last self.old.held owner) }
        ensures kept { OnErr result (self.new.held ≡ self.old.held) }
        ensures in_use { told_of result ≡ refusal owner self.old.held.owners }
        ensures entries { self.new.entries + 1 ≡ self.old.entries }
        ensures newcomers { TakesIfOk result self.old.newcomers self.new.newcomers }
    {
        bind_result(self.carry_out(Request::Bind(owner)))
    }

    /// Takes in a newcomer whose port is searched for, unless an owner overlaps it
    /// (`inet_csk_find_open_port`): no option helps it there.
    ///
    /// `InUse` names the first owner that does, and the bucket holds what it held. It goes through the
    /// port's owners as [`Bucket::bind`] does, up to the first that overlaps.
    pub fn bind_auto(&mut self, owner: Owner) -> Result<(), InUse>
        requires key { spec.is_key_of self.old (owner_key owner) ≡ true }
        requires entry { 1 ≤ self.old.entries }
        requires newcomer { 1 ≤ self.old.newcomers }
        ensures after { self.new ≡ called self.old (Request.BindAuto owner) }
        ensures answer { answer_of_bind result ≡ answer_to self.old (Request.BindAuto owner) }
        ensures bound { OnOk result (self.new.held ≡ with_last self.old.held owner) }
        ensures kept { OnErr result (self.new.held ≡ self.old.held) }
        ensures in_use { told_of result ≡ overlapping owner self.old.held.owners }
        ensures entries { self.new.entries + 1 ≡ self.old.entries }
        ensures newcomers { TakesIfOk result self.old.newcomers self.new.newcomers }
    {
        bind_result(self.carry_out(Request::BindAuto(owner)))
    }

    /// Whether `connect` may choose that port in that namespace as the bucket stands
    /// (`__inet_hash_connect`): nobody owns it there, or only sockets for which `connect` chose it, too.
    ///
    /// `NotFree` names the first other owner of the port there. The bucket holds what it held. It goes
    /// through the port's owners, up to that one, unless their counts show that there is none.
    pub fn free(&mut self, port: u16, net: u8) -> Result<(), NotFree>
        requires entry { 1 ≤ self.old.entries }
        ensures after { self.new ≡ called self.old (Request.Free port net) }
        ensures answer { answer_of_free result ≡ answer_to self.old (Request.Free port net) }
        ensures kept { self.new.held ≡ self.old.held }
        ensures free { OnOk result (CanConnect self.new port net) }
        ensures chosen { OnOk result (AllByConnect port net self.old.held.owners) }
        ensures not_free { holder_told result ≡ holder port net self.old.held.owners }
        ensures entries { self.new.entries + 1 ≡ self.old.entries }
        ensures newcomers { self.new.newcomers ≡ self.old.newcomers }
    {
        free_result(self.carry_out(Request::Free { port, net }))
    }

    /// Takes in a newcomer for which `connect` chose its port, where [`Bucket::free`] answers `Ok` as
    /// the bucket stands (`__inet_hash_connect`).
    ///
    /// No conflict is looked for: such sockets are distinguished by their other ends. Constant cost.
    pub fn connect_auto(&mut self, owner: Owner)
        requires key { spec.is_key_of self.old (owner_key owner) ≡ true }
        requires free { CanConnect self.old owner.port owner.net }
        requires chosen { owner.by_connect ≡ true }
        requires entry { 1 ≤ self.old.entries }
        requires newcomer { 1 ≤ self.old.newcomers }
        ensures after { self.new ≡ called self.old (Request.ConnectAuto owner) }
        ensures connected { self.new.held ≡ with_last self.old.held owner }
        ensures entries { self.new.entries + 1 ≡ self.old.entries }
        ensures newcomers { self.new.newcomers + 1 ≡ self.old.newcomers }
    {
        self.carry_out(Request::ConnectAuto(owner));
    }

    /// Whether the socket of that name may listen as the bucket stands, and in which group.
    ///
    /// Without `reuseport` it has no group. With it, it joins the listeners that have its port,
    /// namespace, address, device and user, or begins a group at the first free place; the group's
    /// number is [`GROUP_PLACES`] times the bucket's and the place. Refusals are tested in this order:
    /// no owner has that name, another owner keeps it from its port, no place is free for a group that
    /// it needs, its group has no room for one more. The bucket holds what it held. It goes through the
    /// port's owners as [`Bucket::bind`] does, and once more for its mates, up to the first, where a
    /// listener with `reuseport` may be one; and through at most 512 members.
    pub fn may_listen(&mut self, name: u64) -> Result<Option<u32>, ListenEnd>
        requires entry { 1 ≤ self.old.entries }
        ensures after { self.new ≡ called self.old (Request.MayListen name) }
        ensures answer { answer_of_listen result ≡ answer_to self.old (Request.MayListen name) }
        ensures kept { self.new.held ≡ self.old.held }
        ensures free { OnOk result (CanListen self.new name) }
        ensures group { IfOk result (λ group. IfSome group (λ number. number / group_places ≡ self.old.number)) }
        ensures why { IfErr result (IsWhy self.old.held name) }
        ensures entries { self.new.entries + 1 ≡ self.old.entries }
        ensures newcomers { self.new.newcomers ≡ self.old.newcomers }
    {
        listen_result(self.carry_out(Request::MayListen { name }))
    }

    /// Lets the socket of that name listen (`inet_csk_listen_start`), where it may as the bucket
    /// stands; with `reuseport` it joins its group as a member with that slot, at the end.
    ///
    /// Constant cost; with `reuseport` it goes through the port's owners at its address and 0.0.0.0 up to
    /// the first mate, where a listener with `reuseport` may be one, and through at most 512 members.
    pub fn listen(&mut self, name: u64, slot: u32)
        requires entry { 1 ≤ self.old.entries }
        requires free { CanListen self.old name }
        ensures after { self.new ≡ called self.old (Request.Listen name slot) }
        ensures owners { self.new.held.owners
            ≡ change_first (has_name name) as_listener self.old.held.owners }
        ensures entries { self.new.entries + 1 ≡ self.old.entries }
        ensures newcomers { self.new.newcomers ≡ self.old.newcomers }
    {
        self.carry_out(Request::Listen { name, slot });
    }

    /// Connects the socket of that name, which is bound to any address or to `local`, from there to
    /// the other end: it is full then.
    ///
    /// No conflict is looked for, since it wants no more than it had. Constant cost.
    pub fn connect_bound(
        &mut self,
        name: u64,
        local: u32,
        remote: u32,
        rport: u16,
    ) -> Result<(), Strange>
        requires entry { 1 ≤ self.old.entries }
        requires bound { NamesOne State.Bound local name self.old }
        ensures after { self.new ≡ called self.old (Request.ConnectBound name local remote rport) }
        ensures answer { answer_of_name result
            ≡ answer_to self.old (Request.ConnectBound name local remote rport) }
        ensures connected { OnOk result (self.new.held.owners
            ≡ change_first (has_name name) (connected local remote rport) self.old.held.owners) }
        ensures groups { self.new.held.groups ≡ self.old.held.groups }
        ensures kept { OnErr result (self.new.held ≡ self.old.held) }
        ensures strange { KnowsOrSays name self.old.held.owners result }
        ensures entries { self.new.entries + 1 ≡ self.old.entries }
        ensures newcomers { self.new.newcomers ≡ self.old.newcomers }
    {
        name_result(self.carry_out(Request::ConnectBound {
            name,
            local,
            remote,
            rport,
        }))
    }

    /// Takes in the socket of that name and that mark, which the listener `parent`, at any address or at `local`,
    /// accepted there (`__inet_inherit_port`): all else is as the listener has it, its origin too.
    ///
    /// No conflict is looked for. Constant cost.
    pub fn inherit(
        &mut self,
        parent: u64,
        name: u64,
        mark: u32,
        local: u32,
        remote: u32,
        rport: u16,
    ) -> Result<(), Strange>
        requires entry { 1 ≤ self.old.entries }
        requires newcomer { 1 ≤ self.old.newcomers }
        requires listening { NamesOne State.Listening local parent self.old }
        ensures after { self.new ≡ called self.old (Request.Inherit parent name mark local remote rport) }
        ensures answer { answer_of_name result
            ≡ answer_to self.old (Request.Inherit parent name mark local remote rport) }
        ensures inherited { OnOk result (IfSome (find (has_name parent) self.old.held.owners)
            (λ listener. self.new.held ≡ with_last self.old.held (child name mark local remote rport listener))) }
        ensures kept { OnErr result (self.new.held ≡ self.old.held) }
        ensures strange { KnowsOrSays parent self.old.held.owners result }
        ensures entries { self.new.entries + 1 ≡ self.old.entries }
        ensures newcomers { TakesIfOk result self.old.newcomers self.new.newcomers }
    {
        name_result(self.carry_out(Request::Inherit {
            parent,
            name,
            mark,
            local,
            remote,
            rport,
        }))
    }

    /// Puts the first owner of that name into TIME_WAIT (`tcp_time_wait`): its socket is closed, and it
    /// keeps its port until [`Bucket::remove_waiting`].
    ///
    /// No conflict is looked for, since it wants no more than it had. Constant cost.
    pub fn to_time_wait(&mut self, name: u64) -> Result<(), Strange>
        requires entry { 1 ≤ self.old.entries }
        ensures after { self.new ≡ called self.old (Request.ToTimeWait name) }
        ensures answer { answer_of_name result ≡ answer_to self.old (Request.ToTimeWait name) }
        ensures waits { OnOk result (self.new.held.owners
            ≡ change_first (has_name name) as_waiting self.old.held.owners) }
        ensures groups { self.new.held.groups ≡ self.old.held.groups }
        ensures kept { OnErr result (self.new.held ≡ self.old.held) }
        ensures strange { KnowsOrSays name self.old.held.owners result }
        ensures entries { self.new.entries + 1 ≡ self.old.entries }
        ensures newcomers { self.new.newcomers ≡ self.old.newcomers }
    {
        name_result(self.carry_out(Request::ToTimeWait { name }))
    }

    /// Takes out the first owner of that name (`inet_put_port`), and the member of that name from
    /// its group, in whose place the last one stands then (`reuseport_detach_sock`).
    ///
    /// It uses the entry that was kept for the owner. It goes through at most 512 members.
    pub fn remove(&mut self, name: u64) -> Result<(), Strange>
        requires { find (has_name name) self.old.held.owners ≡ None → 1 ≤ self.old.entries }
        ensures after { self.new ≡ called self.old (Request.Remove name) }
        ensures answer { answer_of_name result ≡ answer_to self.old (Request.Remove name) }
        ensures gone { OnOk result (self.new.held.owners
            ≡ drop_first (has_name name) self.old.held.owners) }
        ensures left { OnOk result (self.new.held.groups
            ≡ change_first (has_member name) (without_member name) self.old.held.groups) }
        ensures kept { OnErr result (self.new.held ≡ self.old.held) }
        ensures strange { KnowsOrSays name self.old.held.owners result }
        ensures entries { TakesIfErr result self.old.entries self.new.entries }
        ensures newcomers { self.new.newcomers ≡ self.old.newcomers }
    {
        name_result(self.carry_out(Request::Remove { name }))
    }

    /// Takes out the first owner of that name that is in TIME_WAIT (`inet_twsk_bind_unhash`), if it
    /// hasn't gone already; an owner of that name in another state stays.
    ///
    /// It uses the entry that was kept for the owner. Constant cost.
    pub fn remove_waiting(&mut self, name: u64) -> Result<(), Strange>
        requires { find (waits_as name) self.old.held.owners ≡ None → 1 ≤ self.old.entries }
        ensures after { self.new ≡ called self.old (Request.RemoveWaiting name) }
        ensures answer { answer_of_name result ≡ answer_to self.old (Request.RemoveWaiting name) }
        ensures gone { OnOk result (self.new.held.owners
            ≡ drop_first (waits_as name) self.old.held.owners) }
        ensures groups { self.new.held.groups ≡ self.old.held.groups }
        ensures kept { OnErr result (self.new.held ≡ self.old.held) }
        ensures strange { KnowsWaitingOrSays name self.old.held.owners result }
        ensures entries { TakesIfErr result self.old.entries self.new.entries }
        ensures newcomers { self.new.newcomers ≡ self.old.newcomers }
    {
        name_result(self.carry_out(Request::RemoveWaiting { name }))
    }

    /// The members of the group of that number, each the slot of its card times 2^32, and its name.
    ///
    /// Empty where nobody is in it, or it isn't one of this bucket's. Constant cost, no note.
    pub fn members(&self, group: u32) -> &[u128]
        ensures { result.now ≡ spec.members_of self.now group }
    {
        match &self.held {
            Some(held) if group / GROUP_PLACES as u32 == self.number => {
                held.groups[group as usize % GROUP_PLACES].members()
            }
            _ => &[],
        }
    }

    /// How many notes its journal has, one for each call. Constant cost, and no note.
    pub fn count(&self) -> usize
        ensures { result ≡ length self.now.journal }
    {
        self.journal.count()
    }

    /// Gives a proof what is known of every bucket. It does nothing when it runs.
    pub fn recall(&self)
        ensures { spec.IsSound self.now }
    {
        let _number = self.number;
    }
}
