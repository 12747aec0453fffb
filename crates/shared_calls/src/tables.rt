//! How tables are made, and what they hand out.

ghost use Rattle.std.specs.Prelude.{◌≡◌, ◌↔◌, ◌<◌, length, IfOk, IsErrOf, IsTrue, OnErr, OnOk};
ghost use Rattle.flat_list.specs.Fits.{FitsTables};
ghost use Rattle.shared_calls.specs.Sharings.{GivesCaller, GivesLooker, HasNoCaller, HasNoLooker, IsNew, LookerMayComeBack, MayComeBack, TakesBack, TakesLookerBack};

use crate::caller::Caller;
use crate::looker::Looker;
use bind_buckets::Sharing;
use flat_list::Header;
use section_machine::{Machine, laws};
use sock_ops::{Changes, Tables, Worker};
use std::alloc::{AllocError, Global};
use std::marker::Model;
use std::sync::Arc;

/// How many callers tables have.
pub const CALLERS: u32 = 255;

/// How many lookers tables have.
pub const LOOKERS: u32 = 16_000;

/// Why nothing is handed out.
#[derive(Clone, Copy, Debug, PartialEq, Eq)]
pub enum Refused {
    /// As many were handed out as there may be.
    AllOut,
    /// Memory ran out.
    Memory,
}

/// Tables that threads share, and what is left to hand out of them.
#[derive(Drop)]
pub struct SharedTables {
    tables: Arc<Tables>,
    header: Header,
    tag: u64,
    first: Worker,
    callers: u32,
    lookers: u32,
    idle: Vec<Caller>,
    resting: Vec<Looker>,
}

impl Model for SharedTables {
    ghost use Rattle.std.specs.Prelude.{◌≤◌};
    ghost use Rattle.std.specs.Arc.{arc_value};
    ghost use Rattle.std.specs.Vec.{vec_capacity};
    ghost use Rattle.shared_calls.specs.Sharings.{Sharing, IsSharing, sharing};

    ghost Value = { Sharing };

    ghost view = { λ t. sharing (arc_value t.tables) t.header t.tag t.first t.callers t.lookers t.idle.items t.resting.items };

    // Whoever was made finds room when it is given back.
    ghost invariant = { λ t. IsSharing (sharing (arc_value t.tables) t.header t.tag t.first t.callers t.lookers t.idle.items t.resting.items)
        × (t.callers ≤ vec_capacity t.idle) × (t.lookers ≤ vec_capacity t.resting) };
}

impl SharedTables {
    /// Empty tables of that header, of which nothing was handed out. They take all memory that lookups need. By the tag
    /// it is known of what they hand out that it is theirs, as far as other tables have other tags.
    ///
    /// # Errors
    ///
    /// Memory ran out.
    pub fn new(alloc: Global, header: &Header, tag: u64) -> Result<Self, AllocError>
        requires { FitsTables header.now }
        ensures { IfOk result (IsNew header.now tag) }
    {
        let (tables, first) = Tables::new(
            alloc,
            header.shape,
            header.seed,
            Sharing::Shared,
            Changes::Counted,
        )?;
        Ok(SharedTables {
            tables: Arc::new(alloc, tables)?,
            header: *header,
            tag,
            first,
            callers: 0,
            lookers: 0,
            idle: Vec::new(alloc),
            resting: Vec::new(alloc),
        })
    }

    /// A caller: the one that was given back last, as it was then, or one with the next number from 1 on, and no sockets
    /// yet.
    ///
    /// # Errors
    ///
    /// `AllOut`: all 255 are out. `Memory`: memory ran out. Nothing has changed.
    pub fn caller(&mut self, alloc: Global) -> Result<Caller, Refused>
        ensures hands { IfOk result (GivesCaller self.old self.new) }
        ensures out { OnOk result (length self.new.idle < self.new.callers) }
        ensures all_out { IsErrOf result Refused.AllOut ↔ HasNoCaller self.old }
        ensures same { OnErr result (self.new ≡ self.old) }
    {
        if let Some(caller) = self.idle.pop() {
            return Ok(caller);
        }
        if self.callers >= CALLERS {
            return Err(Refused::AllOut);
        }
        if self.idle.reserve(self.callers as usize + 1).is_err() {
            return Err(Refused::Memory);
        }
        let Ok(tables) = Arc::try_clone(&self.tables) else {
            return Err(Refused::Memory);
        };
        laws::section_begins();
        self.callers += 1;
        let worker = self.first.split(alloc, &tables);
        let machine = Machine::numbered(alloc, &self.header, self.callers);
        Ok(Caller {
            tables,
            worker,
            machine,
            tag: self.tag,
        })
    }

    /// A looker: the one that was given back last, or one that has looked nothing up.
    ///
    /// # Errors
    ///
    /// `AllOut`: all 16,000 are out. `Memory`: memory ran out. Nothing has changed.
    pub fn looker(&mut self, alloc: Global) -> Result<Looker, Refused>
        ensures hands { IfOk result (GivesLooker self.old self.new) }
        ensures out { OnOk result (length self.new.resting < self.new.lookers) }
        ensures all_out { IsErrOf result Refused.AllOut ↔ HasNoLooker self.old }
        ensures same { OnErr result (self.new ≡ self.old) }
    {
        if let Some(looker) = self.resting.pop() {
            return Ok(looker);
        }
        if self.lookers >= LOOKERS {
            return Err(Refused::AllOut);
        }
        if self.resting.reserve(self.lookers as usize + 1).is_err() {
            return Err(Refused::Memory);
        }
        let Ok(tables) = Arc::try_clone(&self.tables) else {
            return Err(Refused::Memory);
        };
        self.lookers += 1;
        let chain = tables.chains.split(alloc, &mut self.first.chain);
        let groups = self.first.groups.split(&tables.groups);
        Ok(Looker {
            tables,
            chain,
            groups,
            tag: self.tag,
        })
    }

    /// Whether a caller is theirs, by its tag, and one that was made is not here.
    pub fn may_come_back(&self, caller: &Caller) -> bool
        ensures { IsTrue result ↔ MayComeBack self.now caller.now }
    {
        caller.tag == self.tag && self.idle.len() < self.callers as usize
    }

    /// Whether a looker is theirs, by its tag, and one that was made is not here.
    pub fn looker_may_come_back(&self, looker: &Looker) -> bool
        ensures { IsTrue result ↔ LookerMayComeBack self.now looker.now }
    {
        looker.tag == self.tag && self.resting.len() < self.lookers as usize
    }

    /// Takes a caller back, with its sockets, for the next who wants one. It takes no memory.
    pub fn take_back(&mut self, caller: Caller)
        requires { length self.old.idle < self.old.callers }
        ensures { TakesBack self.old self.new caller }
    {
        match self.idle.push(caller) {
            Ok(()) => {}
            // Room was made for it as it was made.
            Err(_) => unreachable!(),
        }
    }

    /// Takes a looker back, for the next who wants one. It takes no memory.
    pub fn take_looker_back(&mut self, looker: Looker)
        requires { length self.old.resting < self.old.lookers }
        ensures { TakesLookerBack self.old self.new looker }
    {
        match self.resting.push(looker) {
            Ok(()) => {}
            Err(_) => unreachable!(),
        }
    }
}
