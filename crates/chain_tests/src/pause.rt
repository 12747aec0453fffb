//! Threads that let others come between their steps.

use null_reader::{Pace, Point};
use nulls_chain::{Halt, Turning};
use std::sync::atomic::{AtomicU64, Ordering};
use std::thread;
use std::time::{Clock, Duration};

/// How a race goes: whether threads sleep between their steps,
/// and whether cards of the packet come before the race and stay.
#[derive(Clone, Copy)]
pub struct Course {
    pub sleeps: bool,
    pub stays: bool,
}

/// All four ways in turn.
pub fn course_of(round: u32) -> Course {
    Course {
        sleeps: round % 2 == 0,
        stays: round % 4 < 2,
    }
}

/// How often a thread asks whether the others have come.
const TURNS: u32 = 2_000_000;

/// Waits until four threads have come, or for so many turns.
pub fn meet(gate: &AtomicU64) {
    gate.fetch_add(1, Ordering::SeqCst);
    for _ in 0..TURNS {
        if gate.load(Ordering::SeqCst) >= 4 {
            return;
        }
    }
}

/// Sleeps for a moment before each step of a change, and for longer before some of a lookup, where `sleeps` is set:
/// so that whole changes come between two steps of a lookup.
#[derive(Drop)]
pub struct Pause<'a, R: Clock> {
    pub rt: &'a R,
    pub sleeps: bool,
}

impl<'a, R: Clock> Pause<'a, R> {
    fn sleep(&self, micros: u64) {
        if self.sleeps {
            thread::sleep(self.rt, Duration::from_micros(micros));
        }
    }

    pub fn pause(&self) {
        self.sleep(1);
    }
}

impl<'a, R: Clock> Halt for Pause<'a, R> {
    fn step(&mut self, _at: Turning) {
        self.pause();
    }
}

impl<'a, R: Clock> Pace for Pause<'a, R> {
    fn step(&mut self, at: Point) {
        match at {
            Point::Link(_) | Point::Take(_) => self.sleep(500),
            Point::Check(_) => {}
            _ => self.pause(),
        }
    }
}
