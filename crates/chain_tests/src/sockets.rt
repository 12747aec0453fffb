//! Threads that replace, close and reap sockets, beside threads that look their packets up.

ghost use Rattle.std.specs.Prelude.{◌≡◌, ◌+◌, ◌<◌, true, OnOk, IfSome};
ghost use Rattle.chain_book.specs.Homes.{home};
ghost use Rattle.null_reader.specs.Looked.{HasTwo};
ghost use Rattle.reuseport_group.specs.Passes as group_words;
ghost use Rattle.sock_card.specs.declared.card.Kind.TheVariants as kinds;
ghost use Rattle.table_rule.specs.Calls.{IsOf, view, layout_of};
ghost use Rattle.table_rule.specs.Passes.{known};
ghost use Rattle.table_rule.specs.Words.{bucket_count};
ghost use Rattle.chain_tests.specs.Ready.{IsReady, CanLook, CanDeal, CanUnhash};

use crate::judge::{Done, Looked, gather, unexplained};
use crate::pause::{Course, Pause, course_of, meet};
use bucket_locks::lock;
use chain_book::{Replace, Shape, home};
use demux::{Lookups, look_packet};
use established::{Newcomer, insert, remove, remove_tw, time_wait};
use listeners::add;
use nulls_chain::Place;
use patience::Waits;
use reuseport_group::{GroupPasses, Groups};
use sock_card::{Card, Kind, Packet};
use std::alloc::{AllocError, Global};
use std::process::Abort;
use std::sync::Wait;
use std::sync::atomic::AtomicU64;
use std::test::Fail;
use std::thread;
use std::thread::Threads;
use std::time::Clock;
use table_rule::{Chains, Layout, Pass, Steps};

const SHAPE: Shape = Shape {
    slots: 5,
    bind: 1,
    hash: 2,
    listen: 2,
};

const SEED: u32 = 7;

const PACKET: Packet = Packet {
    src: 0x0a00_0002,
    sport: 1000,
    dst: 0x0a00_0001,
    dport: 80,
    dev: 0,
    net: 0,
};

/// How many sockets each of two threads lets come, and how many lookups each of the other two makes.
const ROUNDS: u32 = 32;

const LOOKS: u32 = 128;

/// A socket of the packet's four-tuple.
fn connected(name: u64) -> Card
    ensures { result.kind ≡ kinds.Full }
{
    Card {
        local: 0x0a00_0001,
        lport: 80,
        remote: 0x0a00_0002,
        rport: 1000,
        dev: 0,
        net: 0,
        kind: Kind::Full,
        name,
        extra: 0,
        mark: 0,
    }
}

/// Its TIME_WAIT.
fn waiting(name: u64) -> Card
    ensures { result.kind ≡ kinds.TimeWait }
{
    Card {
        local: 0x0a00_0001,
        lport: 80,
        remote: 0x0a00_0002,
        rport: 1000,
        dev: 0,
        net: 0,
        kind: Kind::TimeWait,
        name,
        extra: 0,
        mark: 0,
    }
}

/// A listener at the packet's end.
fn listening(name: u64) -> Card
    ensures { result.kind ≡ kinds.Listen }
{
    Card {
        local: 0x0a00_0001,
        lport: 80,
        remote: 0,
        rport: 0,
        dev: 0,
        net: 0,
        kind: Kind::Listen,
        name,
        extra: 0,
        mark: 0,
    }
}

/// A socket comes, unless another one has its four-tuple or no slot is free; a TIME_WAIT gives way to it.
fn come<R: Wait>(
    rt: &R,
    chains: &Chains,
    pass: &mut Pass,
    bucket: u32,
    card: &Card,
    rest: u32,
) -> Option<Place>
    requires bucket { bucket < bucket_count (layout_of chains.now) }
    requires home { home (layout_of chains.now).shape (layout_of chains.now).seed card.now ≡ bucket }
    requires full { card.now.kind ≡ kinds.Full }
    requires ready { IsReady chains.now pass.old (rest + 2) }
    ensures ready { IsReady chains.now pass.new rest }
    ensures place { IfSome result (λ place. CanUnhash chains.now pass.new place) }
{
    let new = Newcomer {
        card: *card,
        moment: 1,
        replace: Replace::Always,
    };
    match insert(chains, &Waits::by(rt), pass, bucket, 0, &new).unwrap() {
        Ok(inserted) => Some(inserted.place),
        Err(_) => None,
    }
}

/// A socket closes: whether it leaves a TIME_WAIT, as it does where a slot is free.
pub fn close<R: Wait>(
    rt: &R,
    chains: &Chains,
    pass: &mut Pass,
    place: Place,
    card: &Card,
    rest: u32,
) -> bool
    requires home { home (layout_of chains.now).shape (layout_of chains.now).seed card.now ≡ place.bucket }
    requires waits { card.now.kind ≡ kinds.TimeWait }
    requires place { CanUnhash chains.now pass.old place }
    requires ready { IsReady chains.now pass.old (rest + 2) }
    ensures ready { IsReady chains.now pass.new rest }
{
    time_wait(chains, &Waits::by(rt), pass, place, 0, card)
        .unwrap()
        .is_ok()
}

/// A TIME_WAIT is over.
fn reap<R: Wait>(
    rt: &R,
    chains: &Chains,
    pass: &mut Pass,
    bucket: u32,
    name: u64,
    rest: u32,
) -> Option<u32>
    requires bucket { bucket < bucket_count (layout_of chains.now) }
    requires ready { IsReady chains.now pass.old (rest + 1) }
    ensures ready { IsReady chains.now pass.new rest }
{
    remove_tw(chains, &Waits::by(rt), pass, bucket, name).unwrap()
}

/// A listener comes, if a slot is free.
fn open<R: Wait>(
    rt: &R,
    chains: &Chains,
    pass: &mut Pass,
    bucket: u32,
    card: &Card,
    rest: u32,
) -> Option<Place>
    requires bucket { bucket < bucket_count (layout_of chains.now) }
    requires home { home (layout_of chains.now).shape (layout_of chains.now).seed card.now ≡ bucket }
    requires listens { card.now.kind ≡ kinds.Listen }
    requires ready { IsReady chains.now pass.old (rest + 1) }
    ensures ready { IsReady chains.now pass.new rest }
    ensures place { IfSome result (λ place. CanUnhash chains.now pass.new place) }
{
    add(chains, &Waits::by(rt), pass, bucket, 0, card)
        .unwrap()
        .ok()
}

/// And it goes.
pub fn shut<R: Wait>(rt: &R, chains: &Chains, pass: &mut Pass, place: Place, rest: u32)
    requires place { CanUnhash chains.now pass.old place }
    requires ready { IsReady chains.now pass.old (rest + 1) }
    ensures ready { IsReady chains.now pass.new rest }
{
    let locked = lock(chains, &Waits::by(rt), &mut pass.steps, place.bucket).unwrap();
    remove(chains, pass, locked, place);
}

/// Lets sockets come and go.
#[derive(Drop)]
struct Server<'a, R: Wait + Clock> {
    rt: &'a R,
    pause: Pause<'a, R>,
    chains: &'a Chains,
    pass: Pass,
    left: u32,
    ghost layout: { layout_of chains.now
        ≡ record { shape = record { slots = 5; bind = 1; hash = 2; listen = 2 }; seed = 7 } },
    ghost ready: { IsReady chains.now pass left },
}

impl<'a, R: Wait + Clock> Server<'a, R> {
    /// A socket comes and closes.
    fn serve(&mut self, name: u64) {
        if self.left > 3 {
            let rest = self.left - 4;
            let card = connected(name);
            let bucket = home(&SHAPE, SEED, &card);
            let came = come(
                self.rt,
                self.chains,
                &mut self.pass,
                bucket,
                &card,
                rest + 2,
            );
            self.left = rest + 2;
            self.pause.pause();
            if let Some(place) = came {
                let card = waiting(name);
                if home(&SHAPE, SEED, &card) == place.bucket {
                    close(self.rt, self.chains, &mut self.pass, place, &card, rest);
                    self.left = rest;
                }
            }
        }
    }

    /// A TIME_WAIT is over.
    fn reap(&mut self, name: u64) {
        if self.left > 0 {
            let rest = self.left - 1;
            let bucket = home(&SHAPE, SEED, &waiting(name));
            reap(self.rt, self.chains, &mut self.pass, bucket, name, rest);
            self.left = rest;
        }
    }

    /// A listener comes and goes.
    fn listen(&mut self, name: u64) {
        if self.left > 1 {
            let rest = self.left - 2;
            let card = listening(name);
            let bucket = home(&SHAPE, SEED, &card);
            let came = open(
                self.rt,
                self.chains,
                &mut self.pass,
                bucket,
                &card,
                rest + 1,
            );
            self.left = rest + 1;
            self.pause.pause();
            if let Some(place) = came {
                shut(self.rt, self.chains, &mut self.pass, place, rest);
                self.left = rest;
            }
        }
    }

    /// A listener comes, where it is to, and stays.
    fn begin(&mut self, stays: bool) {
        if stays && self.left > 0 {
            let rest = self.left - 1;
            let card = listening(1000);
            let bucket = home(&SHAPE, SEED, &card);
            let _place = open(self.rt, self.chains, &mut self.pass, bucket, &card, rest);
            self.left = rest;
        }
    }

    fn turn(&mut self, round: u32, name: u64) {
        self.serve(name);
        self.pause.pause();
        match round % 4 {
            0 => self.reap(name),
            1 => self.listen(name),
            _ => {}
        }
    }
}

/// Looks the packet up.
#[derive(Drop)]
struct Looker<'a, R: Clock> {
    pause: Pause<'a, R>,
    chains: &'a Chains,
    groups: &'a Groups,
    steps: Steps,
    group_passes: GroupPasses,
    looks: Vec<Looked>,
    ghost layout: { layout_of chains.now
        ≡ record { shape = record { slots = 5; bind = 1; hash = 2; listen = 2 }; seed = 7 } },
    ghost table: { IsOf chains.now steps },
    ghost ready: { CanLook (view steps) },
    ghost words: { group_words.IsPassOf groups.now group_passes },
}

impl<'a, R: Clock> Looker<'a, R> {
    fn turn(&mut self) -> Result<(), AllocError> {
        let tables = Lookups {
            chains: self.chains,
            groups: self.groups,
            layout: Layout {
                shape: SHAPE,
                seed: SEED,
            },
        };
        let look = look_packet(
            &tables,
            &mut self.steps,
            &mut self.group_passes,
            &PACKET,
            2,
            &mut self.pause,
        );
        self.looks.push(Looked {
            packet: PACKET,
            bucket: None,
            least: 1,
            look,
        })?;
        Ok(())
    }
}

/// A thread's share of the race, by its number.
#[derive(Drop)]
struct Job<'a> {
    chains: &'a Chains,
    groups: &'a Groups,
    pass: Pass,
    group_passes: GroupPasses,
    number: u32,
    ghost layout: { layout_of chains.now
        ≡ record { shape = record { slots = 5; bind = 1; hash = 2; listen = 2 }; seed = 7 } },
    ghost ready: { IsReady chains.now pass 161 },
    ghost look: { CanLook (known pass) },
    ghost words: { group_words.IsPassOf groups.now group_passes },
}

impl<'a> Job<'a> {
    fn serve<R: Wait + Clock>(
        self,
        alloc: Global,
        rt: &R,
        gate: &AtomicU64,
        course: Course,
    ) -> Done {
        let Job {
            chains,
            pass,
            number,
            ..
        } = self;
        let mut server = Server {
            rt,
            pause: Pause {
                rt,
                sleeps: course.sleeps,
            },
            chains,
            pass,
            left: 161,
        };
        server.begin(course.stays && number == 0);
        meet(gate);
        for round in 0..ROUNDS {
            server.turn(round, u64::from(2 * round + number % 2));
        }
        let Server { pass, .. } = server;
        let Pass { changes, .. } = pass;
        Done {
            changes: changes.into_list(alloc),
            looks: Vec::new(alloc),
        }
    }

    fn look<R: Clock>(
        self,
        alloc: Global,
        rt: &R,
        gate: &AtomicU64,
        course: Course,
    ) -> Result<Done, AllocError> {
        let Job {
            chains,
            groups,
            pass,
            group_passes,
            ..
        } = self;
        let Pass { steps, changes } = pass;
        let mut looker = Looker {
            pause: Pause {
                rt,
                sleeps: course.sleeps,
            },
            chains,
            groups,
            steps,
            group_passes,
            looks: Vec::new(alloc),
        };
        meet(gate);
        for _ in 0..LOOKS {
            looker.turn()?;
        }
        let Looker { looks, .. } = looker;
        Ok(Done {
            changes: changes.into_list(alloc),
            looks,
        })
    }

    fn run<R: Wait + Clock>(
        self,
        alloc: Global,
        rt: &R,
        gate: &AtomicU64,
        course: Course,
    ) -> Result<Done, AllocError> {
        if self.number < 2 {
            Ok(self.serve(alloc, rt, gate, course))
        } else {
            self.look(alloc, rt, gate, course)
        }
    }
}

/// A thread's share, with passes that are split off the first ones.
fn deal<'a>(
    alloc: Global,
    chains: &'a Chains,
    groups: &'a Groups,
    first: &mut Pass,
    first_words: &mut GroupPasses,
    number: u32,
) -> Result<Job<'a>, AllocError>
    requires layout { layout_of chains.now
        ≡ record { shape = record { slots = 5; bind = 1; hash = 2; listen = 2 }; seed = 7 } }
    requires first { CanDeal chains.now first.old (number + 1) }
    requires words { group_words.IsPassOf groups.now first_words.old
        × (number + 1 < group_words.parts first_words.old) }
    ensures first { OnOk result (CanDeal chains.now first.new number) }
    ensures words { OnOk result (group_words.IsPassOf groups.now first_words.new
        × (number < group_words.parts first_words.new)) }
{
    let mut pass = chains.split(alloc, first);
    let group_passes = first_words.split(groups);
    pass.reserve(161)?;
    Ok(Job {
        chains,
        groups,
        pass,
        group_passes,
        number,
    })
}

/// The shares of four threads.
fn deal_all<'a>(
    alloc: Global,
    chains: &'a Chains,
    groups: &'a Groups,
    first: &mut Pass,
    words: &mut GroupPasses,
) -> Result<Vec<Job<'a>>, AllocError>
    requires layout { layout_of chains.now
        ≡ record { shape = record { slots = 5; bind = 1; hash = 2; listen = 2 }; seed = 7 } }
    requires first { CanDeal chains.now first.old 4 }
    requires words { group_words.IsPassOf groups.now words.old × (4 < group_words.parts words.old) }
{
    let mut jobs = Vec::new(alloc);
    jobs.push(deal(alloc, chains, groups, first, words, 3)?)?;
    jobs.push(deal(alloc, chains, groups, first, words, 2)?)?;
    jobs.push(deal(alloc, chains, groups, first, words, 1)?)?;
    jobs.push(deal(alloc, chains, groups, first, words, 0)?)?;
    Ok(jobs)
}

/// Four threads race: the changes and the lookups of all.
fn race<R: Threads + Wait + Clock + Sync>(
    rt: &R,
    alloc: Global,
    jobs: Vec<Job>,
    course: Course,
) -> Result<Done, AllocError> {
    let gate = AtomicU64::new(0);
    // The clause says nothing, but with one of its own the closure is proved apart from the call.
    let run = |job: Job| -> Result<Done, AllocError>
        ensures { true ≡ true }
    { job.run(alloc, rt, &gate, course) };
    let done = thread::map_vec(rt, jobs, &run)?;
    gather(alloc, done)
}

#[test]
fn sockets_come_and_go_beside_lookups(rt: HostRuntime) -> Result<(), Fail> {
    for round in 0..8 {
        let (chains, mut first) = Chains::new(rt.alloc(), SHAPE, SEED)?;
        let (groups, mut words) = Groups::new(rt.alloc(), 1)?;
        let jobs = deal_all(rt.alloc(), &chains, &groups, &mut first, &mut words)?;
        let done = race(&rt, rt.alloc(), jobs, course_of(round))?;
        let wrong = unexplained(&done.changes, SHAPE.slots, &done.looks);
        assert_eq!(rt; (done.looks.len(), wrong), (256, 0));
    }
    Ok(())
}
