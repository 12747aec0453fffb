//! Why a line that has a form can't stand where it does.
ghost use Rattle.std.specs.Prelude.{◌≡◌};
ghost use Rattle.refusals.specs.Places as spec;

use crate::before::Before;
use line_forms::Verb;
use sock_script::Mode;

/// Why a line can't stand where it does. Lines that have a part in it are named by their numbers, from 1.
#[derive(Clone, Copy)]
pub enum Misplace {
    /// It is of the head, and a line of its kind stands there.
    Again(u64),
    /// It is of the head, and a section begins there.
    Late(u64),
    /// It begins a section, of which another begins there, and its number isn't the next.
    NotNext(u64),
    /// It begins the first section, and its number isn't 1.
    NotFirst,
    /// It is a command, and no section has begun.
    Outside,
    /// It looks packets up, which a race does by itself.
    InRace,
    /// Its section has given its label there.
    Given(u64),
    /// None of these.
    Other,
}

fn head_misplace(alike: Option<u64>, section: Option<u64>) -> Misplace
    ensures { result ≡ spec.head_misplace alike section }
{
    match (alike, section) {
        (Some(line), _) => Misplace::Again(line),
        (None, Some(line)) => Misplace::Late(line),
        (None, None) => Misplace::Other,
    }
}

fn section_misplace(section: Option<u64>) -> Misplace
    ensures { result ≡ spec.section_misplace section }
{
    match section {
        Some(line) => Misplace::NotNext(line),
        None => Misplace::NotFirst,
    }
}

fn look_misplace(mode: Mode) -> Misplace
    ensures { result ≡ spec.look_misplace mode }
{
    match mode {
        Mode::Race => Misplace::InRace,
        Mode::Run => Misplace::Other,
    }
}

fn label_misplace(giver: Option<u64>) -> Misplace
    ensures { result ≡ spec.label_misplace giver }
{
    match giver {
        Some(line) => Misplace::Given(line),
        None => Misplace::Other,
    }
}

fn command_misplace(mode: Mode, verb: Verb, before: Before) -> Misplace
    ensures { result ≡ spec.command_misplace mode verb before }
{
    match verb {
        Verb::Look | Verb::Packets => look_misplace(mode),
        Verb::Socket | Verb::Accept | Verb::Syn | Verb::Ack => label_misplace(before.giver),
        _ => Misplace::Other,
    }
}

fn section_or(section: Option<u64>, inside: Misplace) -> Misplace
    ensures { result ≡ spec.section_or section inside }
{
    match section {
        None => Misplace::Outside,
        Some(_) => inside,
    }
}

/// Why a line that begins with that verb can't stand behind lines that say so of it.
pub fn misplace_of(mode: Mode, verb: Verb, before: Before) -> Misplace
    ensures { result ≡ spec.misplace_of mode verb before }
{
    match verb {
        Verb::Table
        | Verb::Range
        | Verb::Reserved
        | Verb::Seed
        | Verb::Offset
        | Verb::TimeWaitReuse => head_misplace(before.alike, before.section),
        Verb::Script => section_misplace(before.section),
        Verb::Capture => Misplace::Other,
        _ => section_or(before.section, command_misplace(mode, verb, before)),
    }
}
