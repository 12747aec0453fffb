//! One walk over a locked chain, and what it finds there.

ghost use Rattle.std.specs.Prelude.{◌≡◌, false, true, []};
ghost use Rattle.bucket_locks.specs.Locks.{IsAt, WalkKnown};
ghost use Rattle.nulls_chain.specs.Changes.{WasChain};
ghost use Rattle.established.specs.Surveys as spec;
ghost use Rattle.established.specs.Surveys.{Surveyed, noted};
ghost use Rattle.sock_card.specs.Words.{unpacked};
ghost use Rattle.table_rule.specs.Calls.{IsOf, IsIdle, Becomes, view, layout_of};
ghost use Rattle.table_rule.specs.Plays.{PlacesApart};

use bucket_locks::Locked;
use chain_book::{Hashed, Replace, keeps_from, waits_at};
use nulls_chain::walk;
use sock_card::{Card, CardWords, Kind, unpack};
use table_rule::{Chains, Steps};

/// A card that is to come at a moment, in seconds, and the rule on which TIME_WAIT gives way to it.
#[derive(Clone, Copy)]
pub struct Newcomer {
    pub card: Card,
    pub moment: u32,
    pub replace: Replace,
}

/// What a walk seeks.
#[derive(Clone, Copy)]
pub enum Sought {
    /// Who keeps the newcomer out, and the TIME_WAIT of its four-tuple.
    Room(Newcomer),
    /// The TIME_WAIT of that name.
    Waiting(u64),
}

/// What a walk has found: the first that keeps a newcomer out, and the first TIME_WAIT that is sought.
#[derive(Clone, Copy)]
pub struct Survey {
    pub keeper: Option<Hashed>,
    pub waiting: Option<Hashed>,
}

/// What a card's words have where it may be what is sought: by it most cards are passed over without being unpacked.
#[derive(Clone, Copy)]
pub enum Sign {
    /// A four-tuple's addresses, the local one above the remote one, and so its ports.
    Ends(u64, u64),
    Name(u64),
}

/// Where the upper half of a word begins.
const UPPER: u64 = 1 << 32;

/// Where the local port begins, above the remote one.
const LOCAL_PORT: u64 = 1 << 16;

fn ends_sign(card: &Card) -> Sign
    ensures { result ≡ spec.ends_sign card.now }
{
    Sign::Ends(
        u64::from(card.local) * UPPER + u64::from(card.remote),
        u64::from(card.lport) * LOCAL_PORT + u64::from(card.rport),
    )
}

fn sign_of(sought: &Sought) -> Sign
    ensures { result ≡ spec.sign_of sought.now }
{
    match sought {
        Sought::Room(new) => ends_sign(&new.card),
        Sought::Waiting(name) => Sign::Name(*name),
    }
}

#[inline(always)]
fn has_sign(sign: Sign, words: &CardWords) -> bool
    ensures { result ≡ spec.has_sign sign words.now }
{
    match sign {
        Sign::Ends(addresses, ports) => words.ends == addresses && words.ports / UPPER == ports,
        Sign::Name(name) => words.name == name,
    }
}

fn keeps_out(sought: &Sought, stood: &Hashed) -> bool
    ensures { result ≡ spec.keeps_out sought.now stood.now }
{
    match sought {
        Sought::Room(new) => keeps_from(&new.card, new.moment, new.replace, &stood.card),
        Sought::Waiting(_) => false,
    }
}

fn goes_out(sought: &Sought, stood: &Hashed) -> bool
    ensures { result ≡ spec.goes_out sought.now stood.now }
{
    match sought {
        Sought::Room(new) => waits_at(&new.card, &stood.card),
        Sought::Waiting(name) => {
            stood.card.name == *name && matches!(stood.card.kind, Kind::TimeWait)
        }
    }
}

/// What is known once a further card was read: the first of each kind stays.
fn note(survey: &Survey, sought: &Sought, stood: Hashed) -> Survey
    ensures { result ≡ noted sought.now survey.now stood }
{
    let keeper = match survey.keeper {
        Some(first) => Some(first),
        None if keeps_out(sought, &stood) => Some(stood),
        None => None,
    };
    let waiting = match survey.waiting {
        Some(first) => Some(first),
        None if goes_out(sought, &stood) => Some(stood),
        None => None,
    };
    Survey { keeper, waiting }
}

// Not inlined, since it comes so seldom: so a walk keeps its own numbers in registers.
#[inline(never)]
fn note_words(survey: &mut Survey, sought: &Sought, slot: u32, words: CardWords)
    ensures { survey.new ≡ noted sought.now survey.old (record { slot = slot; card = unpacked words }) }
{
    let stood = Hashed {
        slot,
        card: unpack(&words),
    };
    *survey = note(survey, sought, stood);
}

/// What is known once the words of a further card were read.
#[inline(always)]
fn visit(survey: &mut Survey, sought: &Sought, sign: Sign, slot: u32, words: CardWords)
    requires { sign ≡ spec.sign_of sought.now }
    ensures { survey.new ≡ noted sought.now survey.old (record { slot = slot; card = unpacked words }) }
{
    if has_sign(sign, &words) {
        note_words(survey, sought, slot, words);
    }
}

/// Walks the whole chain of a bucket that was just locked.
pub fn survey_chain(
    chains: &Chains,
    steps: &mut Steps,
    locked: &mut Locked,
    sought: &Sought,
) -> Survey
    requires table { IsOf chains.now steps.old }
    requires at { IsAt (layout_of chains.now) locked.old (view steps.old) }
    requires fresh { locked.old.started ≡ false }
    requires known { WalkKnown (layout_of chains.now) (view steps.old) }
    requires idle { IsIdle (view steps.old).slot }
    ensures table { IsOf chains.now steps.new }
    ensures at { IsAt (layout_of chains.now) locked.new (view steps.new) × (locked.new.started ≡ true)
        × (locked.new.bucket ≡ locked.old.bucket) }
    ensures kept { Becomes steps.old steps.new (record (view steps.old) { chain = (view steps.new).chain }) }
    ensures whole { ((view steps.new).chain.met ≡ 1) × ((view steps.new).chain.ahead ≡ []) }
    ensures known { WalkKnown (layout_of chains.now) (view steps.new) }
    ensures sole { WasChain (view steps.new).chain.walked locked.old.bucket (view steps.old) }
    ensures apart { PlacesApart (view steps.new) }
    ensures surveyed { Surveyed sought.now result (view steps.new).chain.walked }
{
    let mut survey = Survey {
        keeper: None,
        waiting: None,
    };
    let sign = sign_of(sought);
    // How far the walk has come, in registers, which the caller gets at the end.
    let mut here = Locked {
        bucket: locked.bucket,
        started: false,
        link: 0,
    };
    for _count in 0..u64::from(chains.slot_count()) + 1 {
        match walk(chains, steps, &mut here) {
            None => {
                *locked = here;
                return survey;
            }
            Some((slot, words)) => visit(&mut survey, sought, sign, slot, words),
        }
    }
    unreachable!()
}
