ghost use Rattle.std.specs.Prelude.{◌≡◌, ◌-◌, ◌^◌, ◌<◌, ◌≤◌, Bool, true, false, MatchBool};

use std::hint::spin_loop;
use std::sync::Wait;
use std::thread::yield_now;

/// How many tries are made at once before the processor is given to others between two of them.
const SPINS: u64 = 64;

/// How long a call tries to have what another thread has.
pub trait Patience {
    /// It never gives up.
    ghost endless: { Bool };

    /// Whether to try once more, after so many tries and one. An endless one doesn't come back from the last try that
    /// can be counted.
    fn lasts(&self, tries: u64) -> bool
        ensures more { Self.endless ≡ true → result ≡ true }
        ensures counted { Self.endless ≡ true → tries < 2 ^ 64 - 1 };
}

/// For good, by the handle of a program that may wait.
#[derive(Drop)]
pub struct Waits<'a, R: Wait> {
    rt: &'a R,
}

impl<'a, R: Wait> Waits<'a, R> {
    /// By that handle.
    pub fn by(rt: &'a R) -> Self {
        Waits { rt }
    }
}

impl<'a, R: Wait> Patience for Waits<'a, R> {
    ghost endless = { true };

    fn lasts(&self, tries: u64) -> bool {
        if tries == u64::MAX {
            for _ in self.rt.forever() {
                yield_now();
            }
            unreachable!()
        }
        if tries < SPINS {
            spin_loop();
        } else {
            yield_now();
        }
        true
    }
}

/// So many times more than once. It waits for nobody.
#[derive(Drop)]
pub struct Tries(pub u64);

impl Patience for Tries {
    ghost endless = { false };

    fn lasts(&self, tries: u64) -> bool
        ensures more { false ≡ true → result ≡ true }
        ensures counted { false ≡ true → tries < 2 ^ 64 - 1 }
        ensures so_many { MatchBool result (tries < self.now.0) (self.now.0 ≤ tries) }
    {
        spin_loop();
        tries < self.0
    }
}
