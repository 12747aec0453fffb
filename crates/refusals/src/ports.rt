//! Why words behind `range` or `reserved` aren't such ports as they must be.
ghost use Rattle.std.specs.Prelude.{◌≡◌, ◌≤◌, ◌∷◌, [], decimal, IfSome, IfNone};
ghost use Rattle.sock_script.specs.Seen.{texts};
ghost use Rattle.line_forms.specs.Kinds.{IsOf, a_port, parts_of, verb_text};
ghost use Rattle.line_forms.specs.Wants.{Fit, wants};
ghost use Rattle.refusals.specs.Ports.{ArePorts, IsNoPort, IsPortsFault, IsForm};

use inet_io::get_num;
use line_forms::Verb;

/// What is wrong with ports.
#[derive(Clone, Copy)]
pub enum PortsFault {
    /// The second of a range isn't above the first.
    NotAbove,
    /// It is, and their difference isn't odd.
    NotOdd,
    /// None is reserved.
    Missing,
    /// More than 64 are.
    Many,
    /// The word at that place of the line is no port.
    NotPort { place: usize },
    /// Each is a port, and one isn't above the one before.
    NotAscending,
}

/// The port that a word is.
fn port_of(word: &[u8]) -> Option<u64>
    ensures some { IfSome result (λ n. IsOf a_port word.now) }
    ensures none { IfNone result (¬ (IsOf a_port word.now)) }
{
    get_num(word, 1, 65535)
}

/// The place in the line of the first word that is no port, of the words behind its first.
fn no_port<'a>(rest: &'a [&'a [u8]]) -> Option<usize>
    ensures some { IfSome result (IsNoPort (texts rest.now)) }
    ensures none { IfNone result (ArePorts (texts rest.now)) }
{
    for i in 0..rest.len() {
        let Some(_) = port_of(rest[i]) else {
            return Some(i + 2);
        };
    }
    None
}

/// Why words behind `reserved` are none that may stand there.
pub fn reserved_fault<'a>(rest: &'a [&'a [u8]]) -> PortsFault
    ensures { IsPortsFault Verb.Reserved (texts rest.now) result }
{
    if rest.is_empty() {
        return PortsFault::Missing;
    }
    if rest.len() > 64 {
        return PortsFault::Many;
    }
    match no_port(rest) {
        Some(place) => PortsFault::NotPort { place },
        None => PortsFault::NotAscending,
    }
}

/// The number of a port.
fn port(word: &[u8]) -> u64
    requires { IsOf a_port word.now }
    ensures spelled { word.now ≡ decimal result }
    ensures low { 1 ≤ result }
    ensures high { result ≤ 65535 }
{
    get_num(word, 1, 65535).unwrap_or(1)
}

/// Why these two ports behind `range` are none that may stand there.
fn order_fault(low: &[u8], high: &[u8]) -> PortsFault
    requires low { IsOf a_port low.now }
    requires high { IsOf a_port high.now }
    requires formless { ¬ (IsForm (verb_text Verb.Range ∷ low.now ∷ high.now ∷ [])) }
    ensures { IsPortsFault Verb.Range (low.now ∷ high.now ∷ []) result }
{
    if port(high) <= port(low) {
        return PortsFault::NotAbove;
    }
    PortsFault::NotOdd
}

/// Why two ports behind `range` are none that may stand there.
pub fn range_fault<'a>(rest: &'a [&'a [u8]]) -> PortsFault
    requires fit { Fit (wants (parts_of Verb.Range) (texts rest.now)) (texts rest.now) }
    requires formless { ¬ (IsForm (verb_text Verb.Range ∷ texts rest.now)) }
    ensures { IsPortsFault Verb.Range (texts rest.now) result }
{
    match rest {
        [low, high] => order_fault(low, high),
        _ => PortsFault::NotAbove,
    }
}
