//! Slots in which a list keeps its owners, and what may be asked of an owner.

ghost use Rattle.std.specs.Prelude.{◌≡◌, true};
ghost use Rattle.sock_card.specs.Conflict as conflict_spec;
ghost use Rattle.bind_buckets.specs.OwnerStep as spec;
ghost use Rattle.bind_buckets.specs.Slots.{answers, has, is_under, IsUnder};

use sock_card::{Owner, State, bind_conflict, holds, is_mate, strict_conflict};

/// What may be asked of an owner.
#[derive(Clone, Copy)]
pub enum Asked {
    /// Whether it has the name.
    Named(u64),
    /// Whether it has the name, and is in TIME_WAIT.
    Waiting(u64),
    /// Whether it keeps this one from its port.
    Refuses(Owner),
    /// Whether it wants what this one wants, options or not.
    Overlaps(Owner),
    /// Whether it is a listener whose group this one would join.
    Groups(Owner),
    /// Whether it has the port of that namespace, and `connect` didn't choose it.
    Holds(u16, u8),
}

/// Where the owners are filed of which something holds.
#[derive(Clone, Copy)]
pub enum Under {
    Name(u64),
    Port(u16),
    /// A port, and this address or 0.0.0.0.
    End(u16, u32),
}

/// Where an owner stands, or stood until it left.
///
/// `filed` is the address under which it is found: its own, or 0.0.0.0, if it came with that.
#[derive(Clone, Copy)]
pub struct Slot {
    pub owner: Owner,
    pub here: bool,
    pub filed: u32,
}

fn waits_as(name: u64, owner: &Owner) -> bool
    ensures { result ≡ spec.waits_as name owner.now }
{
    owner.name == name && matches!(owner.state, State::TimeWait)
}

/// Whether what is asked holds of that owner.
fn answers(asked: &Asked, owner: &Owner) -> bool
    ensures { result ≡ answers asked.now owner.now }
{
    match asked {
        Asked::Named(name) => owner.name == *name,
        Asked::Waiting(name) => waits_as(*name, owner),
        Asked::Refuses(newcomer) => bind_conflict(newcomer, owner),
        Asked::Overlaps(newcomer) => strict_conflict(newcomer, owner),
        Asked::Groups(listener) => is_mate(listener, owner),
        Asked::Holds(port, net) => holds(*port, *net, owner),
    }
}

/// Where an owner can be found that wants what this one wants.
fn wanted_by(newcomer: &Owner) -> Under
    ensures { (s : Slot) → conflict_spec.overlap newcomer.now s.owner ≡ true → is_under result s ≡ true }
{
    if newcomer.addr == 0 {
        Under::Port(newcomer.port)
    } else {
        Under::End(newcomer.port, newcomer.addr)
    }
}

impl Asked {
    /// Where an owner can be found of which this holds.
    pub fn under(&self) -> Under
        ensures { IsUnder self.now result }
    {
        match self {
            Asked::Named(name) | Asked::Waiting(name) => Under::Name(*name),
            Asked::Refuses(newcomer) => wanted_by(newcomer),
            Asked::Overlaps(newcomer) => wanted_by(newcomer),
            Asked::Groups(listener) => Under::End(listener.port, listener.addr),
            Asked::Holds(port, _) => Under::Port(*port),
        }
    }
}

impl Slot {
    /// Whether an owner is here of which that holds.
    pub fn has(&self, asked: &Asked) -> bool
        ensures { result ≡ has asked.now self.now }
    {
        self.here && answers(asked, &self.owner)
    }
}
