ghost use Rattle.std.specs.Prelude.{ℕ, ◌≡◌, ◌≤◌, ◌==◌, ◌&&◌, ◌%◌, ◌^◌, if◌then◌else◌};
ghost use Rattle.sock_card.specs.Words as spec;
ghost use Rattle.sock_card.specs.Rank as rank_spec;
ghost use Rattle.sock_card.specs.Rows.{card_words, known_words};

use super::card::{Card, Kind, Packet, rank};

/// A card as four words of a table keep it.
///
/// `ends` is the local address above the remote one; `ports` has from the highest bit down the local port, the remote
/// port and the device (16 bits each), 4 bits of 0, the namespace (8 bits) and the kind's number (4 bits); `extra` is
/// the mark above what the card says besides.
#[derive(Clone, Copy, Debug, PartialEq, Eq)]
pub struct CardWords {
    pub ends: u64,
    pub ports: u64,
    pub name: u64,
    pub extra: u64,
}

/// Where the parts of a word begin: the upper half of each, the local port, the device and the namespace.
const UPPER: u64 = 1 << 32;

const LOCAL_PORT: u64 = 1 << 48;

const DEVICE: u64 = 1 << 16;

const NAMESPACE: u64 = 1 << 4;

fn number_of(kind: Kind) -> u64
    ensures { result ≡ spec.number_of kind }
{
    match kind {
        Kind::Full => 1,
        Kind::TimeWait => 2,
        Kind::Listen => 3,
        Kind::Request => 4,
    }
}

fn kind_at(number: u64) -> Kind
    ensures { result ≡ spec.kind_at number }
{
    match number {
        2 => Kind::TimeWait,
        3 => Kind::Listen,
        4 => Kind::Request,
        _ => Kind::Full,
    }
}

/// The four words of a card.
pub fn pack(card: &Card) -> CardWords
    ensures words { result ≡ spec.packed card.now }
    ensures card { spec.unpacked result ≡ card.now }
{
    CardWords {
        ends: u64::from(card.local) * UPPER + u64::from(card.remote),
        ports: u64::from(card.lport) * LOCAL_PORT
            + u64::from(card.rport) * UPPER
            + u64::from(card.dev) * DEVICE
            + u64::from(card.net) * NAMESPACE
            + number_of(card.kind),
        name: card.name,
        extra: u64::from(card.mark) * UPPER + u64::from(card.extra),
    }
}

/// The card that four words say. A number that is no kind's is read as Full, so that all words say a card.
pub fn unpack(words: &CardWords) -> Card
    ensures { result ≡ spec.unpacked words.now }
{
    let CardWords {
        ends,
        ports,
        name,
        extra,
    } = *words;
    Card {
        local: (ends / UPPER) as u32,
        lport: (ports / LOCAL_PORT) as u16,
        remote: (ends % UPPER) as u32,
        rport: (ports / UPPER % 0x1_0000) as u16,
        dev: (ports / DEVICE % 0x1_0000) as u16,
        net: (ports / NAMESPACE % 0x100) as u8,
        kind: kind_at(ports % NAMESPACE),
        name,
        extra: (extra % UPPER) as u32,
        mark: (extra / UPPER) as u32,
    }
}

/// Whether a card that begins with these two words has the packet's four-tuple: both addresses are compared as one
/// word, and so are both ports.
fn has_tuple(packet: &Packet, ends: u64, ports: u64) -> bool
    ensures { result ≡ rank_spec.has_tuple (spec.begun ends ports) packet.now }
{
    ends == u64::from(packet.dst) * UPPER + u64::from(packet.src)
        && ports / UPPER == u64::from(packet.dport) * 0x1_0000 + u64::from(packet.sport)
        && ports / NAMESPACE % 0x100 == u64::from(packet.net)
}

fn takes_device(packet: &Packet, ports: u64) -> bool
    ensures { (ends : ℕ) → result ≡ rank_spec.takes_device (spec.begun ends ports) packet.now }
{
    let dev = ports / DEVICE % 0x1_0000;
    dev == 0 || dev == u64::from(packet.dev)
}

fn is_taken(packet: &Packet, ends: u64, ports: u64) -> bool
    ensures { let card = spec.begun ends ports in
        result ≡ (rank_spec.has_tuple card packet.now && rank_spec.takes_device card packet.now) }
{
    has_tuple(packet, ends, ports) && takes_device(packet, ports)
}

fn five_if(taken: bool) -> u8
    ensures { result ≡ (if taken then 5 else 0) }
{
    if taken { 5 } else { 0 }
}

fn is_listener(ports: u64) -> bool
    ensures { result ≡ (ports % 2 ^ 4) == 3 }
{
    ports % NAMESPACE == 3
}

/// How well the card that begins with these two words matches a packet: its rank.
#[tactic(auto, unfolding(crate::specs::Words::word_rank))]
pub fn word_rank(packet: &Packet, ends: u64, ports: u64) -> u8
    ensures rank { result ≡ spec.word_rank packet.now ends ports }
    ensures most { result ≤ 5 }
{
    if is_listener(ports) {
        let words = CardWords {
            ends,
            ports,
            name: 0,
            extra: 0,
        };
        return rank(&unpack(&words), packet);
    }
    five_if(is_taken(packet, ends, ports))
}

/// Two words are enough to determine a card's rank.
pub fn two_words_tell()
    ensures { spec.TwoWordsTell }
{}

/// The definition of a card's words gives the worked examples.
pub fn word_rows()
    ensures { card_words ≡ known_words }
{}
