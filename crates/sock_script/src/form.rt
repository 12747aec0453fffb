//! The line that some words are: one function for each form, over readers of one word.
//!
//! A reader takes a word off the front and gives its value and the words after it. Each form is
//! read by one pass over its words. A command is made as a script keeps it, so it is never moved into another form.
ghost use Rattle.std.specs.Prelude.{◌≡◌, ◌≢◌, ◌<◌, ◌≤◌, ◌+◌, ◌-◌, ◌%◌, ◌^◌, ◌∷◌, ◌++◌, ◌↔◌, [], Bool, ℕ, List, length, IfSome, IfNone, IsTrue, Option, slice_get, codes, decimal, IfOk};
ghost use Rattle.inet_io.specs.Labels.{is_label};
ghost use Rattle.inet_io.specs.Texts.{addr_text, end_text};
ghost use Rattle.sock_script.specs.Seen.{texts};
ghost use Rattle.chain_book.specs.Shapes.{IsPowerTo};
ghost use Rattle.sock_script.specs.Forms.{HasForm, DeviceFits, EndFits, NamespaceFits, SourceFits, UserFits, device_words, ends_words, flag_words, namespace_words, source_words, user_words};
ghost use Rattle.sock_script.specs.Steps.{IsCommand};
ghost use Rattle.sock_script.specs.declared.line.Line.{Line};
ghost use Rattle.sock_script.specs.declared.line.Line.TheVariants as lines;
ghost use Rattle.flat_list.specs.declared.command.Command.{Command};
ghost use Rattle.flat_list.specs.declared.command.End.{End};
ghost use Rattle.chain_book.specs.declared.shape.Shape.{Shape};
ghost use Rattle.flat_list.specs.declared.header.Range.{Range};
ghost use Rattle.flat_list.specs.declared.header.Reserved.{Reserved};

use crate::line::Line;
use flat_list::{
    End, KeptCommand, Label, NONE_RESERVED, Options, Query, RESERVED_ROOM, Range, Reserved, Shape,
};
use inet_io::{get_addr, get_end, get_num, is_label};
use std::alloc::{AllocError, Global};

/// Whether they are the same word. Lengths come first, so that a constant word is compared by a move or two.
fn is_word(word: &[u8], other: &[u8]) -> bool
    ensures { IsTrue result ↔ (word.now ≡ other.now) }
{
    word.len() == other.len() && word.starts_with(other)
}

/// The words after a first word that is that one.
fn after<'a>(first: &[u8], words: &'a [&'a [u8]]) -> Option<&'a [&'a [u8]]>
    ensures some { IfSome result (λ rest. texts words.now ≡ first.now ∷ texts rest.now) }
    ensures none { IfNone result ((rest : List (List ℕ)) → texts words.now ≡ first.now ∷ rest → ⊥) }
{
    let (word, rest) = words.split_first()?;
    is_word(word, first).then_some(rest)
}

/// The label that a word is.
fn label_of(word: &[u8]) -> Label
    requires { IsTrue (is_label word.now) }
    ensures { result ≡ word.now }
{
    Label::from_bytes(word).unwrap()
}

/// A label as the first word, and the words after it.
fn label_first<'a>(words: &'a [&'a [u8]]) -> Option<(&'a [u8], &'a [&'a [u8]])>
    ensures some { IfSome result (λ r. (texts words.now ≡ r.0.now ∷ texts r.1.now) × IsTrue (is_label r.0.now)) }
    ensures none { IfNone result ((label : List ℕ) (rest : List (List ℕ)) → texts words.now ≡ label ∷ rest
        → IsTrue (is_label label) → ⊥) }
{
    let (label, rest) = words.split_first()?;
    is_label(label).then_some((label, rest))
}

/// A label as the only word.
fn label_alone<'a>(words: &'a [&'a [u8]]) -> Option<&'a [u8]>
    ensures some { IfSome result (λ label. (texts words.now ≡ label.now ∷ []) × IsTrue (is_label label.now)) }
    ensures none { IfNone result ((label : List ℕ) → texts words.now ≡ label ∷ [] → IsTrue (is_label label) → ⊥) }
{
    let (label, rest) = label_first(words)?;
    rest.is_empty().then_some(label)
}

/// A number from `least` to `most` as the first word, and the words after it.
fn number_first<'a>(least: u32, most: u32, words: &'a [&'a [u8]]) -> Option<(u32, &'a [&'a [u8]])>
    ensures some { IfSome result (λ r. (texts words.now ≡ decimal r.0 ∷ texts r.1.now) × (least ≤ r.0) × (r.0 ≤ most)) }
    ensures none { IfNone result ((n : ℕ) (rest : List (List ℕ)) → texts words.now ≡ decimal n ∷ rest → least ≤ n
        → n ≤ most → ⊥) }
{
    let (word, rest) = words.split_first()?;
    let n = get_num(word, u64::from(least), u64::from(most))?;
    Some((n as u32, rest))
}

/// That word and a number from `least` to `most` as the first words, and the words after them.
fn number_after<'a>(
    first: &[u8],
    least: u32,
    most: u32,
    words: &'a [&'a [u8]],
) -> Option<(u32, &'a [&'a [u8]])>
    ensures some { IfSome result (λ r. (texts words.now ≡ first.now ∷ decimal r.0 ∷ texts r.1.now) × (least ≤ r.0)
        × (r.0 ≤ most)) }
    ensures none { IfNone result ((n : ℕ) (rest : List (List ℕ)) → texts words.now ≡ first.now ∷ decimal n ∷ rest
        → least ≤ n → n ≤ most → ⊥) }
{
    number_first(least, most, after(first, words)?)
}

/// That word and a power of two to `most` as the first words, and the words after them.
fn power_after<'a>(first: &[u8], most: u32, words: &'a [&'a [u8]]) -> Option<(u32, &'a [&'a [u8]])>
    ensures some { IfSome result (λ r. (texts words.now ≡ first.now ∷ decimal r.0 ∷ texts r.1.now)
        × IsPowerTo most r.0) }
    ensures none { IfNone result ((n : ℕ) (rest : List (List ℕ)) → texts words.now ≡ first.now ∷ decimal n ∷ rest
        → IsPowerTo most n → ⊥) }
{
    let (n, rest) = number_after(first, 1, most, words)?;
    if !n.is_power_of_two() {
        return None;
    }
    Some((n, rest))
}

/// An end as the first word, and the words after it.
fn end_first<'a>(words: &'a [&'a [u8]]) -> Option<(End, &'a [&'a [u8]])>
    ensures some { IfSome result (λ r. (texts words.now ≡ end_text r.0.addr r.0.port ∷ texts r.1.now) × EndFits r.0) }
    ensures none { IfNone result ((end : End) (rest : List (List ℕ))
        → texts words.now ≡ end_text end.addr end.port ∷ rest → EndFits end → ⊥) }
{
    let (word, rest) = words.split_first()?;
    let (addr, port) = get_end(word, 0)?;
    Some((End { addr, port }, rest))
}

/// That word and an end as the first words, and the words after them.
fn end_after<'a>(first: &[u8], words: &'a [&'a [u8]]) -> Option<(End, &'a [&'a [u8]])>
    ensures some { IfSome result (λ r. (texts words.now ≡ first.now ∷ end_text r.0.addr r.0.port ∷ texts r.1.now)
        × EndFits r.0) }
    ensures none { IfNone result ((end : End) (rest : List (List ℕ))
        → texts words.now ≡ first.now ∷ end_text end.addr end.port ∷ rest → EndFits end → ⊥) }
{
    end_first(after(first, words)?)
}

/// That word and an address as the first words, and the words after them.
fn address_after<'a>(first: &[u8], words: &'a [&'a [u8]]) -> Option<(u32, &'a [&'a [u8]])>
    ensures some { IfSome result (λ r. texts words.now ≡ first.now ∷ addr_text r.0 ∷ texts r.1.now) }
    ensures none { IfNone result ((addr : ℕ) (rest : List (List ℕ))
        → texts words.now ≡ first.now ∷ addr_text addr ∷ rest → addr < 2 ^ 32 → ⊥) }
{
    let (word, rest) = after(first, words)?.split_first()?;
    let addr = get_addr(word)?;
    Some((addr, rest))
}

/// The network namespace that the words begin with, where they do, and the words after it.
fn namespace_first<'a>(words: &'a [&'a [u8]]) -> (Option<u8>, &'a [&'a [u8]])
    ensures spelled { texts words.now ≡ namespace_words result.0 ++ texts result.1.now }
    ensures fits { NamespaceFits result.0 }

    // However they are read, the same words are left, if no `net` comes next.
    ensures only { (net : Option ℕ) (rest : List (List ℕ)) → texts words.now ≡ namespace_words net ++ rest
        → NamespaceFits net → slice_get rest 0 ≢ Some (codes "net") → rest ≡ texts result.1.now }
{
    match number_after(b"net", 0, 15, words) {
        Some((net, rest)) => (Some(net as u8), rest),
        None => (None, words),
    }
}

/// The user that the words begin with, where they do, and the words after it.
fn user_first<'a>(words: &'a [&'a [u8]]) -> (Option<u32>, &'a [&'a [u8]])
    ensures spelled { texts words.now ≡ user_words result.0 ++ texts result.1.now }
    ensures fits { UserFits result.0 }

    // However they are read, the same words are left, if no `uid` comes next.
    ensures only { (uid : Option ℕ) (rest : List (List ℕ)) → texts words.now ≡ user_words uid ++ rest → UserFits uid
        → slice_get rest 0 ≢ Some (codes "uid") → rest ≡ texts result.1.now }
{
    match number_after(b"uid", 0, u32::MAX, words) {
        Some((uid, rest)) => (Some(uid), rest),
        None => (None, words),
    }
}

/// The device that the words begin with, where they do, and the words after it.
fn device_first<'a>(words: &'a [&'a [u8]]) -> (Option<u16>, &'a [&'a [u8]])
    ensures spelled { texts words.now ≡ device_words result.0 ++ texts result.1.now }
    ensures fits { DeviceFits result.0 }

    // However they are read, the same words are left, if no `dev` comes next.
    ensures only { (dev : Option ℕ) (rest : List (List ℕ)) → texts words.now ≡ device_words dev ++ rest
        → DeviceFits dev → slice_get rest 0 ≢ Some (codes "dev") → rest ≡ texts result.1.now }
{
    match number_after(b"dev", 1, 65535, words) {
        Some((dev, rest)) => (Some(dev as u16), rest),
        None => (None, words),
    }
}

/// The address that the words begin with behind `from`, where they do, and the words after it.
fn source_first<'a>(words: &'a [&'a [u8]]) -> (Option<u32>, &'a [&'a [u8]])
    ensures spelled { texts words.now ≡ source_words result.0 ++ texts result.1.now }
    ensures fits { SourceFits result.0 }

    // However they are read, the same words are left, if no `from` comes next.
    ensures only { (from : Option ℕ) (rest : List (List ℕ)) → texts words.now ≡ source_words from ++ rest
        → SourceFits from → slice_get rest 0 ≢ Some (codes "from") → rest ≡ texts result.1.now }
{
    match address_after(b"from", words) {
        Some((addr, rest)) => (Some(addr), rest),
        None => (None, words),
    }
}

/// Whether that flag is the first word, and the words after it.
fn flag_first<'a>(flag: &[u8], words: &'a [&'a [u8]]) -> (bool, &'a [&'a [u8]])
    ensures spelled { texts words.now ≡ flag_words flag.now result.0 ++ texts result.1.now }

    // However they are read, the same words are left, if the flag doesn't come next.
    ensures only { (set : Bool) (rest : List (List ℕ)) → texts words.now ≡ flag_words flag.now set ++ rest
        → slice_get rest 0 ≢ Some flag.now → rest ≡ texts result.1.now }
{
    match after(flag, words) {
        Some(rest) => (true, rest),
        None => (false, words),
    }
}

/// The command of the words after `socket`.
fn socket_of(words: &[&[u8]]) -> Option<KeptCommand>
    ensures some { IfSome result (λ c. HasForm (codes "socket" ∷ texts words.now) (lines.Command c)) }
    ensures none { IfNone result ((c : Command) → HasForm (codes "socket" ∷ texts words.now) (lines.Command c) → ⊥) }
{
    let (label, words) = label_first(words)?;
    let (net, words) = namespace_first(words);
    let (uid, words) = user_first(words);
    let (dev, words) = device_first(words);
    let (reuseaddr, words) = flag_first(b"reuseaddr", words);
    let (reuseport, words) = flag_first(b"reuseport", words);
    let (noport, words) = flag_first(b"noport", words);
    if !words.is_empty() {
        return None;
    }
    let label = label_of(label);
    let options = Options {
        net,
        uid,
        dev,
        reuseaddr,
        reuseport,
        noport,
    };
    Some(KeptCommand::socket(label, options))
}

/// The command of the words after `bind`.
fn bind_of(words: &[&[u8]]) -> Option<KeptCommand>
    ensures some { IfSome result (λ c. HasForm (codes "bind" ∷ texts words.now) (lines.Command c)) }
    ensures none { IfNone result ((c : Command) → HasForm (codes "bind" ∷ texts words.now) (lines.Command c) → ⊥) }
{
    let (label, words) = label_first(words)?;
    let (end, words) = end_first(words)?;
    if !words.is_empty() {
        return None;
    }
    let label = label_of(label);
    Some(KeptCommand::bind(label, end))
}

/// The command of the words after `listen`.
fn listen_of(words: &[&[u8]]) -> Option<KeptCommand>
    ensures some { IfSome result (λ c. HasForm (codes "listen" ∷ texts words.now) (lines.Command c)) }
    ensures none { IfNone result ((c : Command) → HasForm (codes "listen" ∷ texts words.now) (lines.Command c) → ⊥) }
{
    let label = label_of(label_alone(words)?);
    Some(KeptCommand::listen(label))
}

/// The command of the words after `connect`.
fn connect_of(words: &[&[u8]]) -> Option<KeptCommand>
    ensures some { IfSome result (λ c. HasForm (codes "connect" ∷ texts words.now) (lines.Command c)) }
    ensures none { IfNone result ((c : Command) → HasForm (codes "connect" ∷ texts words.now) (lines.Command c) → ⊥) }
{
    let (label, words) = label_first(words)?;
    let (from, words) = source_first(words);
    let (to, words) = end_after(b"to", words)?;
    if !words.is_empty() {
        return None;
    }
    let label = label_of(label);
    Some(KeptCommand::connect(label, from, to))
}

/// The far end of a newcomer and its own, as the only words.
fn ends_of(words: &[&[u8]]) -> Option<(End, End)>
    ensures some { IfSome result (λ r. (texts words.now ≡ ends_words r.0 r.1) × EndFits r.0 × EndFits r.1) }
    ensures none { IfNone result ((from at : End) → texts words.now ≡ ends_words from at → EndFits from → EndFits at
        → ⊥) }
{
    let (from, words) = end_after(b"from", words)?;
    let (at, words) = end_after(b"at", words)?;
    if !words.is_empty() {
        return None;
    }
    Some((from, at))
}

/// A listener, the label of a newcomer to it, and the newcomer's two ends, as the only words.
fn newcomer_of(words: &[&[u8]]) -> Option<(Label, Label, End, End)>
    ensures some { IfSome result (λ r. (texts words.now ≡ r.0 ∷ r.1 ∷ ends_words r.2 r.3)
        × IsTrue (is_label r.0) × IsTrue (is_label r.1) × EndFits r.2 × EndFits r.3) }
    ensures none { IfNone result ((listener label : List ℕ) (from at : End)
        → texts words.now ≡ listener ∷ label ∷ ends_words from at
        → IsTrue (is_label listener) → IsTrue (is_label label) → EndFits from → EndFits at → ⊥) }
{
    let (listener, words) = label_first(words)?;
    let (label, words) = label_first(words)?;
    let (from, at) = ends_of(words)?;
    Some((label_of(listener), label_of(label), from, at))
}

/// The command of the words after `accept`.
fn accept_of(alloc: Global, words: &[&[u8]]) -> Result<Option<KeptCommand>, AllocError>
    ensures some { IfOk result (λ read. IfSome read
        (λ c. HasForm (codes "accept" ∷ texts words.now) (lines.Command c))) }
    ensures none { IfOk result (λ read. IfNone read
        ((c : Command) → HasForm (codes "accept" ∷ texts words.now) (lines.Command c) → ⊥)) }
{
    let Some((listener, label, from, at)) = newcomer_of(words) else {
        return Ok(None);
    };
    let command = KeptCommand::accept(alloc, &listener, &label, from, at)?;
    Ok(Some(command))
}

/// The command of the words after `syn`.
fn syn_of(alloc: Global, words: &[&[u8]]) -> Result<Option<KeptCommand>, AllocError>
    ensures some { IfOk result (λ read. IfSome read (λ c. HasForm (codes "syn" ∷ texts words.now) (lines.Command c))) }
    ensures none { IfOk result (λ read. IfNone read
        ((c : Command) → HasForm (codes "syn" ∷ texts words.now) (lines.Command c) → ⊥)) }
{
    let Some((listener, label, from, at)) = newcomer_of(words) else {
        return Ok(None);
    };
    let command = KeptCommand::syn(alloc, &listener, &label, from, at)?;
    Ok(Some(command))
}

/// Two labels, as the only words.
fn two_labels_of(words: &[&[u8]]) -> Option<(Label, Label)>
    ensures some { IfSome result (λ r. (texts words.now ≡ r.0 ∷ r.1 ∷ []) × IsTrue (is_label r.0)
        × IsTrue (is_label r.1)) }
    ensures none { IfNone result ((first second : List ℕ) → texts words.now ≡ first ∷ second ∷ []
        → IsTrue (is_label first) → IsTrue (is_label second) → ⊥) }
{
    let (first, words) = label_first(words)?;
    let second = label_alone(words)?;
    Some((label_of(first), label_of(second)))
}

/// The command of the words after `ack`.
fn ack_of(alloc: Global, words: &[&[u8]]) -> Result<Option<KeptCommand>, AllocError>
    ensures some { IfOk result (λ read. IfSome read (λ c. HasForm (codes "ack" ∷ texts words.now) (lines.Command c))) }
    ensures none { IfOk result (λ read. IfNone read
        ((c : Command) → HasForm (codes "ack" ∷ texts words.now) (lines.Command c) → ⊥)) }
{
    let Some((request, label)) = two_labels_of(words) else {
        return Ok(None);
    };
    let command = KeptCommand::ack(alloc, &request, &label)?;
    Ok(Some(command))
}

/// The command of the words after `close`.
fn close_of(words: &[&[u8]]) -> Option<KeptCommand>
    ensures some { IfSome result (λ c. HasForm (codes "close" ∷ texts words.now) (lines.Command c)) }
    ensures none { IfNone result ((c : Command) → HasForm (codes "close" ∷ texts words.now) (lines.Command c) → ⊥) }
{
    let label = label_of(label_alone(words)?);
    Some(KeptCommand::close(label))
}

/// The command of the words after `drop`.
fn drop_of(words: &[&[u8]]) -> Option<KeptCommand>
    ensures some { IfSome result (λ c. HasForm (codes "drop" ∷ texts words.now) (lines.Command c)) }
    ensures none { IfNone result ((c : Command) → HasForm (codes "drop" ∷ texts words.now) (lines.Command c) → ⊥) }
{
    let label = label_of(label_alone(words)?);
    Some(KeptCommand::drop(label))
}

/// The command of the words after `at`.
fn at_of(words: &[&[u8]]) -> Option<KeptCommand>
    ensures some { IfSome result (λ c. HasForm (codes "at" ∷ texts words.now) (lines.Command c)) }
    ensures none { IfNone result ((c : Command) → HasForm (codes "at" ∷ texts words.now) (lines.Command c) → ⊥) }
{
    let (moment, words) = number_first(0, u32::MAX, words)?;
    if !words.is_empty() {
        return None;
    }
    Some(KeptCommand::at(moment))
}

/// The command of the words after `reap`.
fn reap_of(words: &[&[u8]]) -> Option<KeptCommand>
    ensures some { IfSome result (λ c. HasForm (codes "reap" ∷ texts words.now) (lines.Command c)) }
    ensures none { IfNone result ((c : Command) → HasForm (codes "reap" ∷ texts words.now) (lines.Command c) → ⊥) }
{
    if !words.is_empty() {
        return None;
    }
    Some(KeptCommand::reap())
}

/// The command of the words after `look`.
fn look_of(words: &[&[u8]]) -> Option<KeptCommand>
    ensures some { IfSome result (λ c. HasForm (codes "look" ∷ texts words.now) (lines.Command c)) }
    ensures none { IfNone result ((c : Command) → HasForm (codes "look" ∷ texts words.now) (lines.Command c) → ⊥) }
{
    let (from, words) = end_first(words)?;
    let (to, words) = end_first(words)?;
    let (dev, words) = device_first(words);
    let (net, words) = namespace_first(words);
    if !words.is_empty() {
        return None;
    }
    let query = Query { from, to, dev, net };
    Some(KeptCommand::look(query))
}

/// The command of the words after `packets`.
fn packets_of(words: &[&[u8]]) -> Option<KeptCommand>
    ensures some { IfSome result (λ c. HasForm (codes "packets" ∷ texts words.now) (lines.Command c)) }
    ensures none { IfNone result ((c : Command) → HasForm (codes "packets" ∷ texts words.now) (lines.Command c) → ⊥) }
{
    let (count, words) = number_first(0, 1_000_000, words)?;
    if !words.is_empty() {
        return None;
    }
    Some(KeptCommand::packets(count))
}

/// The command of the words after `dump`.
fn dump_of(words: &[&[u8]]) -> Option<KeptCommand>
    ensures some { IfSome result (λ c. HasForm (codes "dump" ∷ texts words.now) (lines.Command c)) }
    ensures none { IfNone result ((c : Command) → HasForm (codes "dump" ∷ texts words.now) (lines.Command c) → ⊥) }
{
    if !words.is_empty() {
        return None;
    }
    Some(KeptCommand::dump())
}

/// The command that the words are, as a script keeps it.
///
/// Takes memory only for an `accept`, a `syn` or an `ack` with a label of more than seven bytes, and time for the bytes
/// of the words.
pub fn command_of(alloc: Global, words: &[&[u8]]) -> Result<Option<KeptCommand>, AllocError>
    ensures some { IfOk result (λ read. IfSome read (λ c. HasForm (texts words.now) (lines.Command c))) }
    ensures none { IfOk result (λ read. IfNone read ((c : Command) → HasForm (texts words.now) (lines.Command c) → ⊥)) }
{
    if let Some(words) = after(b"socket", words) {
        return Ok(socket_of(words));
    }
    if let Some(words) = after(b"look", words) {
        return Ok(look_of(words));
    }
    if let Some(words) = after(b"bind", words) {
        return Ok(bind_of(words));
    }
    if let Some(words) = after(b"listen", words) {
        return Ok(listen_of(words));
    }
    if let Some(words) = after(b"connect", words) {
        return Ok(connect_of(words));
    }
    if let Some(words) = after(b"accept", words) {
        return accept_of(alloc, words);
    }
    if let Some(words) = after(b"syn", words) {
        return syn_of(alloc, words);
    }
    if let Some(words) = after(b"ack", words) {
        return ack_of(alloc, words);
    }
    if let Some(words) = after(b"close", words) {
        return Ok(close_of(words));
    }
    if let Some(words) = after(b"drop", words) {
        return Ok(drop_of(words));
    }
    if let Some(words) = after(b"at", words) {
        return Ok(at_of(words));
    }
    if let Some(words) = after(b"reap", words) {
        return Ok(reap_of(words));
    }
    if let Some(words) = after(b"packets", words) {
        return Ok(packets_of(words));
    }
    if let Some(words) = after(b"dump", words) {
        return Ok(dump_of(words));
    }
    Ok(None)
}

/// The shape of the tables that the words give.
fn table_of(words: &[&[u8]]) -> Option<Shape>
    ensures some { IfSome result (λ shape. HasForm (texts words.now) (lines.Table shape)) }
    ensures none { IfNone result ((shape : Shape) → HasForm (texts words.now) (lines.Table shape) → ⊥) }
{
    let words = after(b"table", words)?;
    let (slots, words) = number_after(b"slots", 1, 65536, words)?;
    let (bind, words) = power_after(b"bind", 256, words)?;
    let (hash, words) = power_after(b"hash", 65536, words)?;
    let (listen, words) = power_after(b"listen", 4096, words)?;
    if !words.is_empty() {
        return None;
    }
    Some(Shape {
        slots,
        bind,
        hash,
        listen,
    })
}

/// Whether `low` is below `high` and the ports between them, with both, are of even number.
fn is_range(low: u32, high: u32) -> bool
    ensures { IsTrue result ↔ ((low < high) × ((high - low + 1) % 2 ≡ 0)) }
{
    low < high && (high - low) % 2 == 1
}

/// The range of ports that the words give.
fn range_of(words: &[&[u8]]) -> Option<Range>
    ensures some { IfSome result (λ range. HasForm (texts words.now) (lines.Range range)) }
    ensures none { IfNone result ((range : Range) → HasForm (texts words.now) (lines.Range range) → ⊥) }
{
    let (low, words) = number_after(b"range", 1, 65535, words)?;
    let (high, words) = number_first(1, 65535, words)?;
    if !words.is_empty() {
        return None;
    }
    if !is_range(low, high) {
        return None;
    }
    Some(Range {
        low: low as u16,
        high: high as u16,
        reserved: NONE_RESERVED,
    })
}

/// The ports that the words after `reserved` are.
fn ports_of(words: &[&[u8]]) -> Option<Reserved>
    requires some { 1 ≤ length words.now }
    requires few { length words.now ≤ 64 }
    ensures some { IfSome result (λ r. HasForm (codes "reserved" ∷ texts words.now) (lines.Reserved r)) }
    ensures none { IfNone result ((r : Reserved) → HasForm (codes "reserved" ∷ texts words.now) (lines.Reserved r)
        → ⊥) }
{
    let mut ports = [0; RESERVED_ROOM];
    // One more than the port before, so that the ports ascend.
    let mut least = 1;
    for (i, word) in words.iter().enumerate() {
        let port = get_num(word, least, 65535)?;
        ports[i] = port as u16;
        least = port + 1;
    }
    let count = words.len() as u8;
    Some(Reserved { ports, count })
}

/// The ports that the words keep from searches, where they are few enough.
fn reserved_of(words: &[&[u8]]) -> Option<Reserved>
    ensures some { IfSome result (λ r. HasForm (texts words.now) (lines.Reserved r)) }
    ensures none { IfNone result ((r : Reserved) → HasForm (texts words.now) (lines.Reserved r) → ⊥) }
{
    let words = after(b"reserved", words)?;
    if !(1..=RESERVED_ROOM).contains(&words.len()) {
        return None;
    }
    ports_of(words)
}

/// The number behind that word, up to `most`, where no other words follow.
fn number_behind(first: &[u8], most: u32, words: &[&[u8]]) -> Option<u32>
    ensures some { IfSome result (λ n. (texts words.now ≡ first.now ∷ decimal n ∷ []) × (n ≤ most)) }
    ensures none { IfNone result ((n : ℕ) → texts words.now ≡ first.now ∷ decimal n ∷ [] → n ≤ most → ⊥) }
{
    let (number, words) = number_after(first, 0, most, words)?;
    words.is_empty().then_some(number)
}

/// The seed that the words give.
fn seed_of(words: &[&[u8]]) -> Option<u32>
    ensures some { IfSome result (λ seed. HasForm (texts words.now) (lines.Seed seed)) }
    ensures none { IfNone result ((seed : ℕ) → HasForm (texts words.now) (lines.Seed seed) → ⊥) }
{
    number_behind(b"seed", u32::MAX, words)
}

/// The offset that the words give.
fn offset_of(words: &[&[u8]]) -> Option<u16>
    ensures some { IfSome result (λ offset. HasForm (texts words.now) (lines.Offset offset)) }
    ensures none { IfNone result ((offset : ℕ) → HasForm (texts words.now) (lines.Offset offset) → ⊥) }
{
    let offset = number_behind(b"offset", 65535, words)?;
    Some(offset as u16)
}

/// Whether the words let `connect` take the place of a TIME_WAIT.
fn reuse_of(words: &[&[u8]]) -> Option<bool>
    ensures some { IfSome result (λ reuse. HasForm (texts words.now) (lines.TimeWaitReuse reuse)) }
    ensures none { IfNone result ((reuse : Bool) → HasForm (texts words.now) (lines.TimeWaitReuse reuse) → ⊥) }
{
    let switch = number_behind(b"twreuse", 1, words)?;
    Some(switch == 1)
}

/// The number of the section that the words begin.
fn section_of(words: &[&[u8]]) -> Option<u32>
    ensures some { IfSome result (λ number. HasForm (texts words.now) (lines.Section number)) }
    ensures none { IfNone result ((number : ℕ) → HasForm (texts words.now) (lines.Section number) → ⊥) }
{
    let (number, words) = number_after(b"script", 1, 64, words)?;
    if words.is_empty() { Some(number) } else { None }
}

/// The device and the network namespace, those that are named, of the packets of the capture that the words begin.
fn capture_of(words: &[&[u8]]) -> Option<(Option<u16>, Option<u8>)>
    ensures some { IfSome result (λ r. HasForm (texts words.now) (lines.Capture r.0 r.1)) }
    ensures none { IfNone result ((dev net : Option ℕ) → HasForm (texts words.now) (lines.Capture dev net) → ⊥) }
{
    let words = after(b"capture", words)?;
    let (dev, words) = device_first(words);
    let (net, words) = namespace_first(words);
    if words.is_empty() {
        Some((dev, net))
    } else {
        None
    }
}

/// Whether a line of these words is passed over.
fn is_passed_over(words: &[&[u8]]) -> bool
    ensures { IsTrue result ↔ HasForm (texts words.now) lines.PassedOver }
{
    match words {
        [] => true,
        [first, ..] => first.first() == Some(&b'#'),
    }
}

/// The line that the words are, where it is none of a command.
///
/// Takes no memory, and time for the bytes of the words.
pub fn other_of(words: &[&[u8]]) -> Option<Line>
    ensures some { IfSome result (λ line. HasForm (texts words.now) line) }
    ensures none { IfNone result ((line : Line) → HasForm (texts words.now) line → IsCommand line) }
{
    if is_passed_over(words) {
        return Some(Line::PassedOver);
    }
    if let Some(shape) = table_of(words) {
        return Some(Line::Table(shape));
    }
    if let Some(range) = range_of(words) {
        return Some(Line::Range(range));
    }
    if let Some(reserved) = reserved_of(words) {
        return Some(Line::Reserved(reserved));
    }
    if let Some(seed) = seed_of(words) {
        return Some(Line::Seed(seed));
    }
    if let Some(offset) = offset_of(words) {
        return Some(Line::Offset(offset));
    }
    if let Some(reuse) = reuse_of(words) {
        return Some(Line::TimeWaitReuse(reuse));
    }
    if let Some(number) = section_of(words) {
        return Some(Line::Section(number));
    }
    let (dev, net) = capture_of(words)?;
    Some(Line::Capture { dev, net })
}
