//! Threads that hash and unhash cards, beside threads that look for them.

ghost use Rattle.std.specs.Prelude.{◌≡◌, ◌+◌, ◌<◌, false, true, OnOk};
ghost use Rattle.sock_card.specs.Words.{packed};
ghost use Rattle.table_rule.specs.Calls.{IsOf, view, layout_of};
ghost use Rattle.table_rule.specs.CardsOk.{has_tuple};
ghost use Rattle.table_rule.specs.Owners.{time_waits};
ghost use Rattle.table_rule.specs.Passes.{known};
ghost use Rattle.table_rule.specs.Words.{bucket_count, words_of};
ghost use Rattle.chain_tests.specs.Ready.{IsReady, CanLook, CanDeal};

use crate::calls::{Plan, hash_in, unhash_in, unhash_wait_in};
use crate::judge::{Done, Looked, gather, unexplained};
use crate::pause::{Course, Pause, course_of, meet};
use chain_book::{PacketAnswer, PacketLook, PassEnd as End, Shape, home, listen_home, packet_home};
use null_reader::answers::Look;
use null_reader::{LookEnd, PassEnd, look};
use sock_card::{Card, Kind, Packet};
use sock_slots::put;
use std::alloc::{AllocError, Global};
use std::process::Abort;
use std::sync::Wait;
use std::sync::atomic::AtomicU64;
use std::test::Fail;
use std::thread;
use std::thread::Threads;
use std::time::Clock;
use table_rule::{Chains, Pass, Steps};

const PLAN: Plan = Plan {
    shape: Shape {
        slots: 6,
        bind: 1,
        hash: 2,
        listen: 1,
    },
    seed: 7,
};

const PACKET: Packet = Packet {
    src: 0x0a00_0002,
    sport: 1000,
    dst: 0x0a00_0001,
    dport: 80,
    dev: 3,
    net: 0,
};

/// How many cards each of the two hashes, and how many lookups each of the other two makes.
const ROUNDS: u32 = 64;

const LOOKS: u32 = 128;

/// A TIME_WAIT, of the packet's four-tuple or of another.
fn waiting(rport: u16, name: u64) -> Card
    ensures { has_tuple (packed result).ports ≡ false }
{
    Card {
        local: 0x0a00_0001,
        lport: 80,
        remote: 0x0a00_0002,
        rport,
        dev: 0,
        net: 0,
        kind: Kind::TimeWait,
        name,
        extra: 0,
        mark: 0,
    }
}

/// A listener at the packet's end, on every device or on one.
fn listening(dev: u16, name: u64) -> Card
    ensures kind { has_tuple (packed result).ports ≡ false }
    ensures place { time_waits (words_of (packed result)) ≡ 0 }
{
    Card {
        local: 0x0a00_0001,
        lport: 80,
        remote: 0,
        rport: 0,
        dev,
        net: 0,
        kind: Kind::Listen,
        name,
        extra: 0,
        mark: 0,
    }
}

/// A thread's share of the race, by its number.
#[derive(Drop)]
struct Job<'a> {
    chains: &'a Chains,
    pass: Pass,
    number: u32,
    ghost layout: { layout_of chains.now
        ≡ record { shape = record { slots = 6; bind = 1; hash = 2; listen = 1 }; seed = 7 } },
    ghost ready: { IsReady chains.now pass 130 },
    ghost look: { CanLook (known pass) },
}

/// Hashes a card and takes it out again, time and again.
#[derive(Drop)]
struct Changer<'a, R: Wait + Clock> {
    rt: &'a R,
    pause: Pause<'a, R>,
    chains: &'a Chains,
    pass: Pass,
    left: u32,
    ghost layout: { layout_of chains.now
        ≡ record { shape = record { slots = 6; bind = 1; hash = 2; listen = 1 }; seed = 7 } },
    ghost ready: { IsReady chains.now pass left },
}

impl<'a, R: Wait + Clock> Changer<'a, R> {
    fn wait(&mut self, card: &Card)
        requires kind { has_tuple (packed card.now).ports ≡ false }
    {
        if self.left > 1 {
            let rest = self.left - 2;
            let bucket = home(&PLAN.shape, PLAN.seed, card);
            let _place = hash_in(
                self.chains,
                self.rt,
                &mut self.pass,
                &PLAN,
                card,
                rest + 1,
                &mut self.pause,
            );
            self.pause.pause();
            unhash_wait_in(
                self.chains,
                self.rt,
                &mut self.pass,
                bucket,
                card.name,
                rest,
            );
            self.left = rest;
        }
    }

    fn listen(&mut self, card: &Card)
        requires kind { has_tuple (packed card.now).ports ≡ false }
        requires place { time_waits (words_of (packed card.now)) ≡ 0 }
    {
        if self.left > 1 {
            let rest = self.left - 2;
            let answer = hash_in(
                self.chains,
                self.rt,
                &mut self.pass,
                &PLAN,
                card,
                rest + 1,
                &mut self.pause,
            );
            self.left = rest + 1;
            if let Ok(place) = answer {
                unhash_in(
                    self.chains,
                    self.rt,
                    &mut self.pass,
                    place,
                    rest,
                    &mut self.pause,
                );
                self.left = rest;
            }
        }
    }

    /// Hashes a card that stays.
    fn stay(&mut self, card: &Card)
        requires kind { has_tuple (packed card.now).ports ≡ false }
    {
        if self.left > 0 {
            let rest = self.left - 1;
            let _place = hash_in(
                self.chains,
                self.rt,
                &mut self.pass,
                &PLAN,
                card,
                rest,
                &mut self.pause,
            );
            self.left = rest;
        }
    }

    /// Two cards of the packet come, where they are to, and stay.
    fn begin(&mut self, stays: bool) {
        if stays {
            self.stay(&waiting(1000, 1000));
            self.stay(&listening(0, 1001));
        }
    }

    /// A card comes and goes: of the packet's four-tuple, of another, or a listener's, at every device, at the
    /// packet's or at another.
    fn turn(&mut self, round: u32, name: u64) {
        match round % 8 {
            0 | 4 => self.wait(&waiting(1001, name)),
            1 | 5 => self.listen(&listening(9, name)),
            2 | 6 => self.wait(&waiting(1002, name)),
            3 => self.wait(&waiting(1000, name)),
            _ if name % 4 < 2 => self.listen(&listening(0, name)),
            _ => self.listen(&listening(3, name)),
        }
    }
}

/// Looks for the packet's card, in the connected sockets' chain and in the listeners'.
#[derive(Drop)]
struct Looker<'a, R: Clock> {
    pause: Pause<'a, R>,
    chains: &'a Chains,
    steps: Steps,
    looks: Vec<Looked>,
    ghost layout: { layout_of chains.now
        ≡ record { shape = record { slots = 6; bind = 1; hash = 2; listen = 1 }; seed = 7 } },
    ghost table: { IsOf chains.now steps },
    ghost ready: { CanLook (view steps) },
}

fn told(links: u64) -> u32 {
    u32::try_from(links).unwrap_or(u32::MAX)
}

fn end_of(end: PassEnd) -> End {
    match end {
        PassEnd::Foreign(bucket) => End::Foreign(told(bucket)),
        PassEnd::Dead(slot) => End::Dead(slot),
        PassEnd::Changed(slot) => End::Changed(slot),
        PassEnd::Long(links) => End::Long(told(links)),
    }
}

impl<'a, R: Clock> Looker<'a, R> {
    fn look(&mut self, bucket: u32, least: u8) -> Result<(), AllocError>
        requires { bucket < 3 }
    {
        let Look { end, t0, t1 } = look(
            self.chains,
            &mut self.steps,
            bucket,
            &PACKET,
            least,
            1,
            &mut self.pause,
        );
        let end = match end {
            LookEnd::Found(held, card) => {
                put(self.chains, &mut self.steps, held);
                PacketAnswer::Found(card)
            }
            LookEnd::None => PacketAnswer::None,
            LookEnd::Again(bucket, end) => PacketAnswer::Again(bucket, end_of(end)),
        };
        self.looks.push(Looked {
            packet: PACKET,
            bucket: Some(bucket),
            least,
            look: PacketLook { end, t0, t1 },
        })?;
        Ok(())
    }

    fn turn(&mut self) -> Result<(), AllocError> {
        self.look(packet_home(&PLAN.shape, PLAN.seed, &PACKET), 5)?;
        let Packet {
            dst,
            dport,
            net,
            ..
        } = PACKET;
        self.look(listen_home(&PLAN.shape, PLAN.seed, dst, dport, net), 1)
    }
}

impl<'a> Job<'a> {
    fn change<R: Wait + Clock>(
        self,
        alloc: Global,
        rt: &R,
        gate: &AtomicU64,
        course: Course,
    ) -> Done {
        let Job {
            chains,
            pass,
            number,
            ..
        } = self;
        let mut changer = Changer {
            rt,
            pause: Pause {
                rt,
                sleeps: course.sleeps,
            },
            chains,
            pass,
            left: 130,
        };
        changer.begin(course.stays && number == 0);
        meet(gate);
        for round in 0..ROUNDS {
            changer.turn(round, u64::from(2 * round + number % 2));
        }
        let Changer { pass, .. } = changer;
        let Pass { changes, .. } = pass;
        Done {
            changes: changes.into_list(alloc),
            looks: Vec::new(alloc),
        }
    }

    fn look<R: Clock>(
        self,
        alloc: Global,
        rt: &R,
        gate: &AtomicU64,
        course: Course,
    ) -> Result<Done, AllocError> {
        let Job { chains, pass, .. } = self;
        let Pass { steps, changes } = pass;
        let mut looker = Looker {
            pause: Pause {
                rt,
                sleeps: course.sleeps,
            },
            chains,
            steps,
            looks: Vec::new(alloc),
        };
        meet(gate);
        for _ in 0..LOOKS / 2 {
            looker.turn()?;
        }
        let Looker { looks, .. } = looker;
        Ok(Done {
            changes: changes.into_list(alloc),
            looks,
        })
    }

    fn run<R: Wait + Clock>(
        self,
        alloc: Global,
        rt: &R,
        gate: &AtomicU64,
        course: Course,
    ) -> Result<Done, AllocError> {
        if self.number < 2 {
            Ok(self.change(alloc, rt, gate, course))
        } else {
            self.look(alloc, rt, gate, course)
        }
    }
}

/// A thread's share, with a pass that is split off the first one.
fn deal<'a>(
    alloc: Global,
    chains: &'a Chains,
    first: &mut Pass,
    number: u32,
) -> Result<Job<'a>, AllocError>
    requires layout { layout_of chains.now
        ≡ record { shape = record { slots = 6; bind = 1; hash = 2; listen = 1 }; seed = 7 } }
    requires first { CanDeal chains.now first.old (number + 1) }
    ensures first { OnOk result (CanDeal chains.now first.new number) }
{
    let mut pass = chains.split(alloc, first);
    pass.reserve(130)?;
    Ok(Job {
        chains,
        pass,
        number,
    })
}

/// The shares of four threads.
fn deal_all<'a>(
    alloc: Global,
    chains: &'a Chains,
    first: &mut Pass,
) -> Result<Vec<Job<'a>>, AllocError>
    requires layout { layout_of chains.now
        ≡ record { shape = record { slots = 6; bind = 1; hash = 2; listen = 1 }; seed = 7 } }
    requires first { CanDeal chains.now first.old 4 }
{
    let mut jobs = Vec::new(alloc);
    jobs.push(deal(alloc, chains, first, 3)?)?;
    jobs.push(deal(alloc, chains, first, 2)?)?;
    jobs.push(deal(alloc, chains, first, 1)?)?;
    jobs.push(deal(alloc, chains, first, 0)?)?;
    Ok(jobs)
}

/// Four threads race: the changes and the lookups of all.
fn race<R: Threads + Wait + Clock + Sync>(
    rt: &R,
    alloc: Global,
    jobs: Vec<Job>,
    course: Course,
) -> Result<Done, AllocError> {
    let gate = AtomicU64::new(0);
    // The clause says nothing, but with one of its own the closure is proved apart from the call.
    let run = |job: Job| -> Result<Done, AllocError>
        ensures { true ≡ true }
    { job.run(alloc, rt, &gate, course) };
    let done = thread::map_vec(rt, jobs, &run)?;
    gather(alloc, done)
}

#[test]
fn threads_race(rt: HostRuntime) -> Result<(), Fail> {
    for round in 0..8 {
        let (chains, mut first) = Chains::new(rt.alloc(), PLAN.shape, PLAN.seed)?;
        let jobs = deal_all(rt.alloc(), &chains, &mut first)?;
        let done = race(&rt, rt.alloc(), jobs, course_of(round))?;
        let wrong = unexplained(&done.changes, PLAN.shape.slots, &done.looks);
        assert_eq!(rt; (done.looks.len(), wrong), (256, 0));
    }
    Ok(())
}
