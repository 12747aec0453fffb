//! What a caller tells of itself and of its sockets, without a call on the tables.

ghost use Rattle.std.specs.Prelude.{◌≡◌, ◌+◌, ◌-◌, ◌^◌, MatchOption};
ghost use Rattle.section_machine.specs.Waits.{IsNextOver, NeverOver};
ghost use Rattle.shared_calls.specs.Asked as spec;
ghost use Rattle.shared_calls.specs.Callings.{HadEnded, clock_of};

use crate::caller::{Caller, KEPT_BACK, SOCKETS};
use flat_calls::Item;
use sock_card::{Owner, State};

/// What is left to a caller: how many sockets it may make, how many entries of bind buckets and numbers of the clock its
/// calls may take, and how many TIME_WAITs it left that it hasn't reaped. A call takes 65,540 entries and 7 numbers at
/// most, and is refused where fewer are left, unless it ends sockets: 2^32 of both are kept for that.
#[repr(C)]
#[derive(Clone, Copy, Debug, PartialEq, Eq)]
pub struct Left {
    pub sockets: u64,
    pub entries: u64,
    pub stamps: u64,
    pub waits: u64,
}

/// What a socket is, as a number: 1 connected, 3 a listener, 4 a request, 5 bound, 6 without a port.
fn kind_of(state: State) -> u32
    ensures { result ≡ spec.kind_of state }
{
    match state {
        State::Full => 1,
        State::TimeWait => 2,
        State::Listening => 3,
        State::Request => 4,
        State::Bound => 5,
        State::Unbound => 6,
    }
}

fn item_of(worker: u32, number: u64, owner: &Owner) -> Item
    ensures { result ≡ spec.item_of worker number owner.now }
{
    Item {
        kind: kind_of(owner.state),
        worker,
        socket: number,
        addr: owner.addr,
        peer_addr: owner.remote,
        port: owner.port,
        peer_port: owner.rport,
        dev: owner.dev,
        net: owner.net,
    }
}

/// What is left of 2^48 where so many are taken, beside those that are kept back.
fn left_of(taken: u128) -> u64
    ensures { result ≡ 2 ^ 48 - 2 ^ 32 - taken }
{
    let most = 0x1_0000_0000_0000 - KEPT_BACK;
    u128::from(most).saturating_sub(taken) as u64
}

impl Caller {
    /// What the open socket of that number is, with its ends, its device and its namespace: a socket without a port may
    /// have an address, and only one that is connected, or a request, has another end.
    pub fn socket(&self, number: u64) -> Option<Item>
        ensures { result ≡ spec.item_in self.now.kept.own number }
    {
        let owner = self.machine.owner_of(number as usize)?;
        Some(item_of(self.number(), number, owner))
    }

    /// How much it may still do.
    pub fn left(&self) -> Left
        ensures { result ≡ spec.left_of self.now }
    {
        let waiting = self.machine.waiting() as u128;
        let entered = u128::from(self.worker.turns.drawn(&self.tables.buckets));
        let drawn = u128::from(self.worker.chain.pass.drawn());
        Left {
            sockets: (SOCKETS as u64).saturating_sub(self.machine.given() as u64),
            entries: left_of(entered + waiting),
            stamps: left_of(drawn + 2 * waiting),
            waits: self.waiting(),
        }
    }

    /// The least moment, in seconds, at which one of its TIME_WAITs has lasted its minute.
    pub fn next_over(&self) -> Option<u32>
        ensures { MatchOption result (NeverOver self.now.kept.own.waits) (IsNextOver self.now.kept.own.waits) }
    {
        self.machine.next_over()
    }

    /// The clock as its last call left it: each change that its calls made has ended below that number. A lookup that
    /// begins there or later meets what they had hashed.
    pub fn now(&self) -> u64
        ensures clock { result ≡ clock_of self.now }
        ensures ended { HadEnded self.now result }
    {
        self.worker.chain.pass.seen()
    }
}
