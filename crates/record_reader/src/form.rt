//! The line that some words are: one function for each form, over readers of one word.
//!
//! A reader takes a word off the front and gives its value and the words after it. Each form is read by one pass over
//! its words, and takes no memory.
ghost use Rattle.std.specs.Prelude.{◌≡◌, ◌≢◌, ◌↔◌, ◌<◌, ◌≤◌, ◌∷◌, ◌++◌, ◌^◌, [], Bool, ℕ, List, IfSome, IfNone, IsTrue, Option, Some, slice_get, bytes_eq, nat_lt, codes, decimal};
ghost use Rattle.std.specs.Borrow.{Bor};
ghost use Rattle.std.specs.List.{list_all, list_any};
ghost use Rattle.inet_io.specs.Texts.{end_text};
ghost use Rattle.sock_card.specs.declared.card.Card.{Card};
ghost use Rattle.sock_card.specs.declared.card.Kind.{Kind};
ghost use Rattle.sock_card.specs.declared.card.Packet.{Packet};
ghost use Rattle.chain_book.specs.declared.shape.Shape.{Shape};
ghost use Rattle.book_audit.specs.declared.printed.Span.{Span};
ghost use Rattle.record_reader.specs.Words.{texts};
ghost use Rattle.record_reader.specs.Names.{NameFits, name_text};
ghost use Rattle.record_reader.specs.Forms as spec;
ghost use Rattle.chain_book.specs.Shapes.{IsPowerTo, ShapeFits};
ghost use Rattle.record_reader.specs.Forms.{AnswerFits, CardFits, Fits, HasForm, IsReply, LookFits, PacketFits, SpanFits, UnhashFits, answer_words, card_words, kind_word, net_words};
ghost use Rattle.record_reader.specs.declared.line.Name.{Name};
ghost use Rattle.record_reader.specs.declared.line.Answer.{Answer};
ghost use Rattle.record_reader.specs.declared.line.LookLine.{LookLine};
ghost use Rattle.record_reader.specs.declared.line.ItemLine.{ItemLine};
ghost use Rattle.record_reader.specs.declared.line.LifeLine.{LifeLine};
ghost use Rattle.record_reader.specs.declared.line.Line.{Line};
ghost use Rattle.record_reader.specs.declared.line.Line.TheVariants as lines;

use crate::line::{Answer, ItemLine, LifeLine, Line, LookLine, Name};
use crate::name::name_from;
use crate::word::number_of;
use book_audit::{PrintedEnd, Span};
use chain_book::Shape;
use inet_io::get_end;
use sock_card::{Card, Kind, Packet};

fn is_word(word: &[u8], other: &[u8]) -> bool
    ensures same { IsTrue result ↔ (word.now ≡ other.now) }
    ensures value { result ≡ bytes_eq word.now other.now }
{
    word == other
}

/// The words after a first word that is that one.
fn after<'a>(first: &[u8], words: &'a [&'a [u8]]) -> Option<&'a [&'a [u8]]>
    ensures some { IfSome result (λ rest. texts words.now ≡ first.now ∷ texts rest.now) }
    ensures none { IfNone result ((rest : List (List ℕ)) → texts words.now ≡ first.now ∷ rest → ⊥) }
{
    let (word, rest) = words.split_first()?;
    is_word(word, first).then_some(rest)
}

/// The first word, and the words after it.
fn word_first<'a>(words: &'a [&'a [u8]]) -> Option<(&'a [u8], &'a [&'a [u8]])>
    ensures some { IfSome result (λ r. texts words.now ≡ r.0.now ∷ texts r.1.now) }
    ensures none { IfNone result (texts words.now ≡ []) }
{
    let (word, rest) = words.split_first()?;
    Some((word, rest))
}

/// Whether that word is the only one.
fn is_only(word: &[u8], words: &[&[u8]]) -> bool
    ensures { IsTrue result ↔ (texts words.now ≡ word.now ∷ []) }
{
    match words {
        [only] => is_word(only, word),
        _ => false,
    }
}

/// A number from `least` to `most` as the first word, and the words after it.
fn number_first<'a>(least: u64, most: u64, words: &'a [&'a [u8]]) -> Option<(u64, &'a [&'a [u8]])>
    ensures some { IfSome result (λ r. (texts words.now ≡ decimal r.0 ∷ texts r.1.now) × (least ≤ r.0) × (r.0 ≤ most)) }
    ensures none { IfNone result ((n : ℕ) (rest : List (List ℕ)) → texts words.now ≡ decimal n ∷ rest → least ≤ n
        → n ≤ most → ⊥) }
{
    let (word, rest) = words.split_first()?;
    let n = number_of(word, least, most)?;
    Some((n, rest))
}

/// Any number of 64 bits as the first word, and the words after it.
fn count_first<'a>(words: &'a [&'a [u8]]) -> Option<(u64, &'a [&'a [u8]])>
    ensures some { IfSome result (λ r. (texts words.now ≡ decimal r.0 ∷ texts r.1.now) × Fits r.0) }
    ensures none { IfNone result ((n : ℕ) (rest : List (List ℕ)) → texts words.now ≡ decimal n ∷ rest → Fits n → ⊥) }
{
    number_first(0, u64::MAX, words)
}

/// That word and any number of 64 bits as the first words, and the words after them.
fn count_after<'a>(first: &[u8], words: &'a [&'a [u8]]) -> Option<(u64, &'a [&'a [u8]])>
    ensures some { IfSome result (λ r. (texts words.now ≡ first.now ∷ decimal r.0 ∷ texts r.1.now) × Fits r.0) }
    ensures none { IfNone result ((n : ℕ) (rest : List (List ℕ)) → texts words.now ≡ first.now ∷ decimal n ∷ rest
        → Fits n → ⊥) }
{
    count_first(after(first, words)?)
}

/// Any number of 64 bits as the only word.
fn count_alone(words: &[&[u8]]) -> Option<u64>
    ensures some { IfSome result (λ n. (texts words.now ≡ decimal n ∷ []) × Fits n) }
    ensures none { IfNone result ((n : ℕ) → texts words.now ≡ decimal n ∷ [] → Fits n → ⊥) }
{
    let (n, rest) = count_first(words)?;
    rest.is_empty().then_some(n)
}

/// Two numbers of 64 bits as the only words.
fn two_counts(words: &[&[u8]]) -> Option<(u64, u64)>
    ensures some { IfSome result (λ r. (texts words.now ≡ decimal r.0 ∷ decimal r.1 ∷ []) × Fits r.0 × Fits r.1) }
    ensures none { IfNone result ((m n : ℕ) → texts words.now ≡ decimal m ∷ decimal n ∷ [] → Fits m → Fits n → ⊥) }
{
    let (m, rest) = count_first(words)?;
    let n = count_alone(rest)?;
    Some((m, n))
}

/// A power of two to `most` as the first word, and the words after it.
fn power_first<'a>(most: u32, words: &'a [&'a [u8]]) -> Option<(u32, &'a [&'a [u8]])>
    ensures some { IfSome result (λ r. (texts words.now ≡ decimal r.0 ∷ texts r.1.now) × IsPowerTo most r.0) }
    ensures none { IfNone result ((n : ℕ) (rest : List (List ℕ)) → texts words.now ≡ decimal n ∷ rest
        → IsPowerTo most n → ⊥) }
{
    let (n, rest) = number_first(1, u64::from(most), words)?;
    let n = n as u32;
    if !n.is_power_of_two() {
        return None;
    }
    Some((n, rest))
}

/// An end as the first word, and the words after it.
fn end_first<'a>(words: &'a [&'a [u8]]) -> Option<(u32, u16, &'a [&'a [u8]])>
    ensures some { IfSome result (λ r. (texts words.now ≡ end_text r.0 r.1 ∷ texts r.2.now) × (r.0 < 2 ^ 32)
        × (r.1 < 2 ^ 16)) }
    ensures none { IfNone result ((addr port : ℕ) (rest : List (List ℕ)) → texts words.now ≡ end_text addr port ∷ rest
        → addr < 2 ^ 32 → port < 2 ^ 16 → ⊥) }
{
    let (word, rest) = words.split_first()?;
    let (addr, port) = get_end(word, 0)?;
    Some((addr, port, rest))
}

/// That word and an end as the first words, and the words after them.
fn end_after<'a>(first: &[u8], words: &'a [&'a [u8]]) -> Option<(u32, u16, &'a [&'a [u8]])>
    ensures some { IfSome result (λ r. (texts words.now ≡ first.now ∷ end_text r.0 r.1 ∷ texts r.2.now)
        × (r.0 < 2 ^ 32) × (r.1 < 2 ^ 16)) }
    ensures none { IfNone result ((addr port : ℕ) (rest : List (List ℕ))
        → texts words.now ≡ first.now ∷ end_text addr port ∷ rest → addr < 2 ^ 32 → port < 2 ^ 16 → ⊥) }
{
    end_first(after(first, words)?)
}

/// A name as the first word, and the words after it.
fn name_first<'a>(words: &'a [&'a [u8]]) -> Option<(Name, &'a [&'a [u8]])>
    ensures some { IfSome result (λ r. (texts words.now ≡ name_text r.0 ∷ texts r.1.now) × NameFits r.0) }
    ensures none { IfNone result ((name : Name) (rest : List (List ℕ)) → texts words.now ≡ name_text name ∷ rest
        → NameFits name → ⊥) }
{
    let (word, rest) = words.split_first()?;
    let name = name_from(word)?;
    Some((name, rest))
}

/// The kind that a word is.
fn kind_of(word: &[u8]) -> Option<Kind>
    ensures some { IfSome result (λ kind. word.now ≡ kind_word kind) }
    ensures none { IfNone result ((kind : Kind) → word.now ≡ kind_word kind → ⊥) }
{
    if is_word(word, b"full") {
        Some(Kind::Full)
    } else if is_word(word, b"time-wait") {
        Some(Kind::TimeWait)
    } else if is_word(word, b"listen") {
        Some(Kind::Listen)
    } else if is_word(word, b"request") {
        Some(Kind::Request)
    } else {
        None
    }
}

/// A kind as the first word, and the words after it.
fn kind_first<'a>(words: &'a [&'a [u8]]) -> Option<(Kind, &'a [&'a [u8]])>
    ensures some { IfSome result (λ r. texts words.now ≡ kind_word r.0 ∷ texts r.1.now) }
    ensures none { IfNone result ((kind : Kind) (rest : List (List ℕ)) → texts words.now ≡ kind_word kind ∷ rest → ⊥) }
{
    let (word, rest) = words.split_first()?;
    let kind = kind_of(word)?;
    Some((kind, rest))
}

/// A device as the first words, and the words after it.
fn device_first<'a>(words: &'a [&'a [u8]]) -> Option<(u16, &'a [&'a [u8]])>
    ensures some { IfSome result (λ r. (texts words.now ≡ codes "dev" ∷ decimal r.0 ∷ texts r.1.now) × (r.0 < 2 ^ 16)) }
    ensures none { IfNone result ((dev : ℕ) (rest : List (List ℕ)) → texts words.now ≡ codes "dev" ∷ decimal dev ∷ rest
        → dev < 2 ^ 16 → ⊥) }
{
    let (dev, rest) = number_first(0, 65535, after(b"dev", words)?)?;
    Some((dev as u16, rest))
}

/// The number behind `net`, from 1 to 15, as the first words, and the words after it.
fn other_net_first<'a>(words: &'a [&'a [u8]]) -> Option<(u8, &'a [&'a [u8]])>
    ensures some { IfSome result (λ r. (texts words.now ≡ codes "net" ∷ decimal r.0 ∷ texts r.1.now) × (1 ≤ r.0)
        × (r.0 < 16)) }
    ensures none { IfNone result ((net : ℕ) (rest : List (List ℕ)) → texts words.now ≡ codes "net" ∷ decimal net ∷ rest
        → 1 ≤ net → net < 16 → ⊥) }
{
    let (net, rest) = number_first(1, 15, after(b"net", words)?)?;
    Some((net as u8, rest))
}

/// The network namespace that the words begin with, 0 where they name none, and the words after it.
fn net_first<'a>(words: &'a [&'a [u8]]) -> (u8, &'a [&'a [u8]])
    ensures spelled { texts words.now ≡ net_words result.0 ++ texts result.1.now }
    ensures fits { result.0 < 16 }

    // However they are read, the same words are left, if no `net` comes next.
    ensures only { (net : ℕ) (rest : List (List ℕ)) → texts words.now ≡ net_words net ++ rest → net < 16
        → slice_get rest 0 ≢ Some (codes "net") → rest ≡ texts result.1.now }
{
    match other_net_first(words) {
        Some((net, rest)) => (net, rest),
        None => (0, words),
    }
}

/// The name and the card that a life's line gives as the first words, and the words after them.
fn card_first<'a>(words: &'a [&'a [u8]]) -> Option<(Name, Card, &'a [&'a [u8]])>
    ensures spelled { IfSome result (λ r. texts words.now ≡ card_words r.0 r.1 ++ texts r.2.now) }
    ensures fits { IfSome result (λ r. NameFits r.0 × CardFits r.1) }

    // However they are read, the same words are left, if no `net` comes next.
    ensures only { IfSome result (λ r. (name : Name) (card : Card) (rest : List (List ℕ))
        → texts words.now ≡ card_words name card ++ rest → CardFits card → slice_get rest 0 ≢ Some (codes "net")
        → rest ≡ texts r.2.now) }
    ensures none { IfNone result ((name : Name) (card : Card) (rest : List (List ℕ))
        → texts words.now ≡ card_words name card ++ rest → NameFits name → CardFits card → ⊥) }
{
    let (kind, words) = kind_first(words)?;
    let (name, words) = name_first(words)?;
    let (local, lport, words) = end_first(words)?;
    let (remote, rport, words) = end_first(words)?;
    let (dev, words) = device_first(words)?;
    let (net, words) = net_first(words);
    let card = Card {
        local,
        lport,
        remote,
        rport,
        dev,
        net,
        kind,
        name: 0,
        extra: 0,
        mark: 0,
    };
    Some((name, card, words))
}

/// The span that two numbers as the only words give.
fn span_alone(words: &[&[u8]]) -> Option<Span>
    ensures some { IfSome result (λ s. (texts words.now ≡ decimal s.begin ∷ decimal s.end ∷ []) × SpanFits s) }
    ensures none { IfNone result ((s : Span) → texts words.now ≡ decimal s.begin ∷ decimal s.end ∷ [] → SpanFits s
        → ⊥) }
{
    let (begin, end) = two_counts(words)?;
    Some(Span { begin, end })
}

/// The span that two numbers as the first words give, and the words after them.
fn span_first<'a>(words: &'a [&'a [u8]]) -> Option<(Span, &'a [&'a [u8]])>
    ensures some { IfSome result (λ r. (texts words.now ≡ decimal r.0.begin ∷ decimal r.0.end ∷ texts r.1.now)
        × SpanFits r.0) }
    ensures none { IfNone result ((s : Span) (rest : List (List ℕ))
        → texts words.now ≡ decimal s.begin ∷ decimal s.end ∷ rest → SpanFits s → ⊥) }
{
    let (begin, words) = count_first(words)?;
    let (end, words) = count_first(words)?;
    Some((Span { begin, end }, words))
}

/// The unhash that the words after `unhash` give: a dash stands for none.
fn unhash_of(words: &[&[u8]]) -> Option<Option<Span>>
    ensures some { IfSome result (λ u. (codes "unhash" ∷ texts words.now ≡ spec.unhash_words u) × UnhashFits u) }
    ensures none { IfNone result ((u : Option Span) → codes "unhash" ∷ texts words.now ≡ spec.unhash_words u
        → UnhashFits u → ⊥) }
{
    if is_only(b"-", words) {
        return Some(None);
    }
    let span = span_alone(words)?;
    Some(Some(span))
}

/// When a card was hashed and unhashed.
fn spans_of(words: &[&[u8]]) -> Option<(Span, Option<Span>)>
    ensures some { IfSome result (λ r. (texts words.now ≡ spec.span_words r.0 r.1) × SpanFits r.0 × UnhashFits r.1) }
    ensures none { IfNone result ((s : Span) (u : Option Span) → texts words.now ≡ spec.span_words s u → SpanFits s
        → UnhashFits u → ⊥) }
{
    let (hash, words) = span_first(after(b"hash", words)?)?;
    let unhash = unhash_of(after(b"unhash", words)?)?;
    Some((hash, unhash))
}

/// The life that the words after `life` describe.
fn life_of(words: &[&[u8]]) -> Option<LifeLine>
    ensures some { IfSome result (λ l. HasForm (codes "life" ∷ texts words.now) (lines.Life l)) }
    ensures none { IfNone result ((l : LifeLine) → HasForm (codes "life" ∷ texts words.now) (lines.Life l) → ⊥) }
{
    let (bucket, words) = count_first(words)?;
    let (slot, words) = count_first(words)?;
    let (name, card, words) = card_first(words)?;
    let (hash, unhash) = spans_of(words)?;
    Some(LifeLine {
        bucket,
        slot,
        name,
        card,
        hash,
        unhash,
    })
}

/// How a lookup's last pass ended, as the first words, and the words after them.
fn end_of_pass_first<'a>(words: &'a [&'a [u8]]) -> Option<(PrintedEnd, &'a [&'a [u8]])>
    ensures some { IfSome result (λ r. (texts words.now ≡ spec.end_words r.0 (texts r.1.now)) × spec.EndFits r.0) }
    ensures only { IfSome result (λ r. (end : PrintedEnd) (rest : List (List ℕ))
        → texts words.now ≡ spec.end_words end rest → rest ≡ texts r.1.now) }
    ensures none { IfNone result ((end : PrintedEnd) (rest : List (List ℕ)) → texts words.now ≡ spec.end_words end rest
        → spec.EndFits end → ⊥) }
{
    let (word, rest) = words.split_first()?;
    let (number, rest) = count_first(rest)?;
    let end = if is_word(word, b"foreign") {
        PrintedEnd::Foreign(number)
    } else if is_word(word, b"dead") {
        PrintedEnd::Dead(number)
    } else if is_word(word, b"changed") {
        PrintedEnd::Changed(number)
    } else if is_word(word, b"long") {
        PrintedEnd::Long(number)
    } else {
        return None;
    };
    Some((end, rest))
}

/// What the words after `again` say of a lookup that was given up, and the words after them.
fn again_first<'a>(words: &'a [&'a [u8]]) -> Option<(Answer, &'a [&'a [u8]])>
    ensures some { IfSome result (λ r. (codes "again" ∷ texts words.now ≡ answer_words r.0 (texts r.1.now))
        × AnswerFits r.0) }
    ensures only { IfSome result (λ r. (a : Answer) (rest : List (List ℕ))
        → codes "again" ∷ texts words.now ≡ answer_words a rest → rest ≡ texts r.1.now) }
    ensures none { IfNone result ((a : Answer) (rest : List (List ℕ))
        → codes "again" ∷ texts words.now ≡ answer_words a rest → AnswerFits a → ⊥) }
{
    let (end, words) = end_of_pass_first(words)?;
    let (bucket, words) = count_after(b"in", words)?;
    Some((Answer::Again(bucket, end), words))
}

/// The kind and the name of a found card as the first words, and the words after them.
fn found_first<'a>(words: &'a [&'a [u8]]) -> Option<(Answer, &'a [&'a [u8]])>
    ensures some { IfSome result (λ r. (texts words.now ≡ answer_words r.0 (texts r.1.now)) × AnswerFits r.0) }
    ensures only { IfSome result (λ r. (a : Answer) (rest : List (List ℕ)) → texts words.now ≡ answer_words a rest
        → rest ≡ texts r.1.now) }
    ensures none { IfNone result ((kind : Kind) (name : Name) (rest : List (List ℕ))
        → texts words.now ≡ kind_word kind ∷ name_text name ∷ rest → NameFits name → ⊥) }
{
    let (kind, words) = kind_first(words)?;
    let (name, words) = name_first(words)?;
    Some((Answer::Found(kind, name), words))
}

/// What a lookup answered as the first words, and the words after them.
fn answer_first<'a>(words: &'a [&'a [u8]]) -> Option<(Answer, &'a [&'a [u8]])>
    ensures some { IfSome result (λ r. (texts words.now ≡ answer_words r.0 (texts r.1.now)) × AnswerFits r.0) }
    ensures only { IfSome result (λ r. (a : Answer) (rest : List (List ℕ)) → texts words.now ≡ answer_words a rest
        → rest ≡ texts r.1.now) }
    ensures none { IfNone result ((a : Answer) (rest : List (List ℕ)) → texts words.now ≡ answer_words a rest
        → AnswerFits a → ⊥) }
{
    if let Some(words) = after(b"none", words) {
        return Some((Answer::None, words));
    }
    if let Some(words) = after(b"again", words) {
        return again_first(words);
    }
    found_first(words)
}

/// The packet that the words describe.
fn packet_of(words: &[&[u8]]) -> Option<Packet>
    ensures some { IfSome result (λ p. (texts words.now ≡ spec.packet_words p) × PacketFits p) }
    ensures none { IfNone result ((p : Packet) → texts words.now ≡ spec.packet_words p → PacketFits p → ⊥) }
{
    let (src, sport, words) = end_after(b"from", words)?;
    let (dst, dport, words) = end_after(b"to", words)?;
    let (dev, words) = device_first(words)?;
    let (net, words) = net_first(words);
    if !words.is_empty() {
        return None;
    }
    Some(Packet {
        src,
        sport,
        dst,
        dport,
        dev,
        net,
    })
}

/// The lookup that the words describe.
fn look_of(words: &[&[u8]]) -> Option<LookLine>
    ensures some { IfSome result (λ l. (texts words.now ≡ spec.look_words l) × LookFits l) }
    ensures none { IfNone result ((l : LookLine) → texts words.now ≡ spec.look_words l → LookFits l → ⊥) }
{
    let (answer, words) = answer_first(words)?;
    let (t0, words) = count_after(b"t0", words)?;
    let (t1, words) = count_after(b"t1", words)?;
    let packet = packet_of(words)?;
    Some(LookLine {
        answer,
        t0,
        t1,
        packet,
    })
}

/// What the words say of a packet.
fn item_of(words: &[&[u8]]) -> Option<ItemLine>
    ensures some { IfSome result (λ i. (texts words.now ≡ spec.item_words i) × spec.ItemFits i) }
    ensures none { IfNone result ((i : ItemLine) → texts words.now ≡ spec.item_words i → spec.ItemFits i → ⊥) }
{
    if is_only(b"skip", words) {
        return Some(ItemLine::Skip);
    }
    if is_only(b"short", words) {
        return Some(ItemLine::Short);
    }
    let look = look_of(words)?;
    Some(ItemLine::Looked(look))
}

/// The line of a packet that the words after `packet` are.
fn packet_line_of(words: &[&[u8]]) -> Option<Line>
    ensures some { IfSome result (λ l. HasForm (codes "packet" ∷ texts words.now) l) }
    ensures none { IfNone result ((n : ℕ) (i : ItemLine)
        → HasForm (codes "packet" ∷ texts words.now) (lines.Packet n i) → ⊥) }
{
    let (number, words) = count_first(words)?;
    let item = item_of(words)?;
    Some(Line::Packet { number, item })
}

/// The first line of a record, by the words after `race`.
fn race_of(words: &[&[u8]]) -> Option<Line>
    ensures some { IfSome result (λ l. HasForm (codes "race" ∷ texts words.now) l) }
    ensures none { IfNone result ((m n : ℕ) → HasForm (codes "race" ∷ texts words.now) (lines.Race m n) → ⊥) }
{
    let (lookers, words) = count_after(b"lookers", words)?;
    let passes = count_alone(after(b"passes", words)?)?;
    Some(Line::Race { lookers, passes })
}

/// The shape of the tables as the first words, and the words after them.
fn shape_first<'a>(words: &'a [&'a [u8]]) -> Option<(Shape, &'a [&'a [u8]])>
    ensures some { IfSome result (λ r.
        (texts words.now ≡ decimal r.0.slots ∷ decimal r.0.bind ∷ decimal r.0.hash ∷ decimal r.0.listen
        ∷ texts r.1.now) × ShapeFits r.0) }
    ensures none { IfNone result ((s : Shape) (rest : List (List ℕ))
        → texts words.now ≡ decimal s.slots ∷ decimal s.bind ∷ decimal s.hash ∷ decimal s.listen ∷ rest → ShapeFits s
        → ⊥) }
{
    let (slots, words) = number_first(1, 65536, words)?;
    let (bind, words) = power_first(256, words)?;
    let (hash, words) = power_first(65536, words)?;
    let (listen, words) = power_first(4096, words)?;
    let shape = Shape {
        slots: slots as u32,
        bind,
        hash,
        listen,
    };
    Some((shape, words))
}

/// The line of the tables' shape that the words after `shape` are.
fn shape_of(words: &[&[u8]]) -> Option<Line>
    ensures some { IfSome result (λ l. HasForm (codes "shape" ∷ texts words.now) l) }
    ensures none { IfNone result ((s : Shape) (n : ℕ) → HasForm (codes "shape" ∷ texts words.now) (lines.Shape s n)
        → ⊥) }
{
    let (shape, words) = shape_first(words)?;
    let words = after(b"seed", words)?;
    let (seed, words) = number_first(0, u64::from(u32::MAX), words)?;
    if !words.is_empty() {
        return None;
    }
    let seed = seed as u32;
    Some(Line::Shape { shape, seed })
}

/// The line of a journal that the words after `journal` are.
fn journal_of(words: &[&[u8]]) -> Option<Line>
    ensures some { IfSome result (λ l. HasForm (codes "journal" ∷ texts words.now) l) }
    ensures none { IfNone result ((m n : ℕ) → HasForm (codes "journal" ∷ texts words.now) (lines.Journal m n) → ⊥) }
{
    let (bucket, count) = two_counts(words)?;
    Some(Line::Journal { bucket, count })
}

/// The last line of a record, by the words after `clock`.
fn clock_of(words: &[&[u8]]) -> Option<Line>
    ensures some { IfSome result (λ l. HasForm (codes "clock" ∷ texts words.now) l) }
    ensures none { IfNone result ((n : ℕ) → HasForm (codes "clock" ∷ texts words.now) (lines.Clock n) → ⊥) }
{
    let clock = count_alone(words)?;
    Some(Line::Clock(clock))
}

fn is_verb(word: &[u8]) -> bool
    ensures { result ≡ list_any (bytes_eq word.now) spec.verbs }
{
    is_word(word, b"socket")
        || is_word(word, b"bind")
        || is_word(word, b"listen")
        || is_word(word, b"connect")
        || is_word(word, b"accept")
        || is_word(word, b"syn")
        || is_word(word, b"ack")
        || is_word(word, b"close")
        || is_word(word, b"drop")
        || is_word(word, b"at")
        || is_word(word, b"reap")
        || is_word(word, b"look")
        || is_word(word, b"packets")
        || is_word(word, b"dump")
        || is_word(word, b"item")
}

fn all_above_space(word: &[u8]) -> bool
    ensures { result ≡ list_all (nat_lt 32) word.now }
{
    word.iter().all(|b| b' ' < *b)
}

fn is_plain(word: &[u8]) -> bool
    ensures { result ≡ spec.is_plain word.now }
{
    !word.is_empty() && all_above_space(word)
}

/// Whether what came of a command says that a slot was sought in vain.
fn tells_vain(words: &[&[u8]]) -> bool
    ensures { result ≡ spec.tells_vain (texts words.now) }
{
    match words {
        [] => false,
        [word] => is_word(word, b"ENFILE"),
        [word, next, ..] => {
            is_word(word, b"ENFILE") || is_word(word, b"ok") && is_word(next, b"no-slot")
        }
    }
}

fn are_plain(words: &[&[u8]]) -> bool
    ensures { result ≡ list_all (λ (w : Bor (List ℕ)). spec.is_plain w.now) words.now }
{
    words.iter().all(|word| is_plain(word))
}

/// The line of a command that the words are: whether it drew a number in vain.
fn reply_of(words: &[&[u8]]) -> Option<bool>
    ensures some { IfSome result (IsReply (texts words.now)) }
    ensures none { IfNone result ((vain : Bool) → IsReply (texts words.now) vain → ⊥) }
{
    let (_section, words) = number_first(1, 64, words)?;
    let (verb, outcome) = word_first(words)?;
    let (_word, rest) = word_first(outcome)?;
    if !is_verb(verb) {
        return None;
    }
    if !are_plain(outcome) {
        return None;
    }
    Some(tells_vain(rest))
}

/// The line of a command that the words are.
fn reply_line_of(words: &[&[u8]]) -> Option<Line>
    ensures some { IfSome result (λ l. HasForm (texts words.now) l) }
    ensures none { IfNone result ((vain : Bool) → IsReply (texts words.now) vain → ⊥) }
{
    let vain = reply_of(words)?;
    Some(Line::Reply { vain })
}

/// The line of a life that the words after `life` are.
fn life_line_of(words: &[&[u8]]) -> Option<Line>
    ensures some { IfSome result (λ l. HasForm (codes "life" ∷ texts words.now) l) }
    ensures none { IfNone result ((l : LifeLine) → HasForm (codes "life" ∷ texts words.now) (lines.Life l) → ⊥) }
{
    let life = life_of(words)?;
    Some(Line::Life(life))
}

/// The line that the words are.
///
/// Takes no memory, and time for the bytes of the words.
pub fn line_of(words: &[&[u8]]) -> Option<Line>
    ensures some { IfSome result (λ line. HasForm (texts words.now) line) }
    ensures none { IfNone result ((line : Line) → HasForm (texts words.now) line → ⊥) }
{
    if let Some(words) = after(b"life", words) {
        return life_line_of(words);
    }
    if let Some(words) = after(b"packet", words) {
        return packet_line_of(words);
    }
    if let Some(words) = after(b"race", words) {
        return race_of(words);
    }
    if let Some(words) = after(b"shape", words) {
        return shape_of(words);
    }
    if let Some(words) = after(b"journal", words) {
        return journal_of(words);
    }
    if let Some(words) = after(b"clock", words) {
        return clock_of(words);
    }
    if is_only(b"cut", words) {
        return Some(Line::Cut);
    }
    reply_line_of(words)
}
