ghost use Rattle.std.specs.Prelude.{◌≡◌, ◌+◌, ◌/◌, ◌<◌, ◌^◌, ◌∷◌, ◌++◌, [], length, IfOk, OnOk, decimal, codes};
ghost use Rattle.std.specs.List.{flat_map};
ghost use Rattle.inet_io.specs.Texts.{end_text};
ghost use Rattle.sock_script.specs.Output as spec;
ghost use Rattle.sock_script.specs.Output.{script_text};
ghost use Rattle.sock_script.specs.Seen.{tables};
ghost use Rattle.sock_script.specs.Shown.{kept_reply};
ghost use Rattle.sock_script.specs.Steps.{found_at, issue, item_lines, label_at, Writes, WritesDump, WritesItems};

use crate::label::Labels;
use crate::shown::{Brief, Shown, whole};
use crate::unwritten::Unwritten;
use capture_reader::Capture;
use flat_list::kept::Form;
use flat_list::{End, KeptCommand, Script};
use inet_io::put_addr;
use itoa::write_digits;
use sock_card::{Card, Kind};
use socket_list::{Listing, Span};
use std::alloc::{AllocError, Global};

/// Appends a text. Inlined, so that a constant one is stored by a move or two.
#[inline(always)]
pub fn put(out: &mut Vec<u8>, text: &[u8]) -> Result<(), AllocError>
    ensures { OnOk result (out.new.items ≡ out.old.items ++ text.now) }
{
    out.extend_from_slice(text)
}

/// Appends a byte.
#[inline(always)]
fn put_byte(out: &mut Vec<u8>, byte: u8) -> Result<(), AllocError>
    ensures { OnOk result (out.new.items ≡ out.old.items ++ byte ∷ []) }
{
    out.push(byte)?;
    Ok(())
}

/// Appends a text that is no constant. Out of line, since it is copied by a call anyhow.
#[inline(never)]
fn put_copy(out: &mut Vec<u8>, text: &[u8]) -> Result<(), AllocError>
    ensures { OnOk result (out.new.items ≡ out.old.items ++ text.now) }
{
    out.extend_from_slice(text)
}

/// Appends a number's digits, which may be many.
#[inline(never)]
fn put_digits(out: &mut Vec<u8>, n: u64) -> Result<(), AllocError>
    ensures { OnOk result (out.new.items ≡ out.old.items ++ decimal n) }
{
    let mut digits = [0; 20];
    let start = write_digits(n, &mut digits, 20);
    put_copy(out, &digits[start..])
}

/// Appends a number. One digit, as most sections' numbers have, is put as it is.
#[inline(always)]
pub fn put_number(out: &mut Vec<u8>, n: u64) -> Result<(), AllocError>
    ensures { OnOk result (out.new.items ≡ out.old.items ++ decimal n) }
{
    if n < 10 {
        return put_byte(out, b'0' + n as u8);
    }
    put_digits(out, n)
}

/// Appends an address with its dots, a colon and a port.
pub fn put_end(out: &mut Vec<u8>, end: End) -> Result<(), AllocError>
    ensures { OnOk result (out.new.items ≡ out.old.items ++ end_text end.addr end.port) }
{
    let mut addr = [0; 15];
    let len = put_addr(&mut addr, 0, end.addr);
    put_copy(out, &addr[..len])?;
    put_byte(out, b':')?;
    put_number(out, u64::from(end.port))
}

/// Appends the word for a kind of socket.
fn put_kind(out: &mut Vec<u8>, kind: Kind) -> Result<(), AllocError>
    ensures { OnOk result (out.new.items ≡ out.old.items ++ spec.kind_word kind) }
{
    match kind {
        Kind::Full => put(out, b"full"),
        Kind::TimeWait => put(out, b"time-wait"),
        Kind::Listen => put(out, b"listen"),
        Kind::Request => put(out, b"request"),
    }
}

/// Appends the kind and the name of a socket that was found; the label is that of its name.
fn put_found(out: &mut Vec<u8>, kind: Kind, name: u64, label: &[u8]) -> Result<(), AllocError>
    ensures { OnOk result (out.new.items ≡ out.old.items
        ++ (spec.kind_word kind ++ codes " " ++ decimal (name / 2 ^ 56) ++ codes "." ++ label.now)) }
{
    put_kind(out, kind)?;
    put_byte(out, b' ')?;
    put_number(out, name >> 56)?;
    put_byte(out, b'.')?;
    put_copy(out, label)
}

/// Appends the answer of a look.
pub fn put_answer(out: &mut Vec<u8>, answer: Option<Card>, label: &[u8]) -> Result<(), AllocError>
    ensures { OnOk result (out.new.items ≡ out.old.items ++ spec.answer_with label.now answer) }
{
    let Some(card) = answer else {
        return put(out, b"none");
    };
    put_found(out, card.kind, card.name, label)
}

/// Appends a device, and the namespace if it isn't the first one.
pub fn put_dev(out: &mut Vec<u8>, dev: u16, net: u8) -> Result<(), AllocError>
    ensures { OnOk result (out.new.items ≡ out.old.items ++ spec.dev_text dev net) }
{
    put(out, b" dev ")?;
    put_number(out, u64::from(dev))?;
    if net == 0 {
        return Ok(());
    }
    put(out, b" net ")?;
    put_number(out, u64::from(net))
}

/// Appends a card with its ends, its device and its namespace; the label is that of its name.
pub fn put_whole_card(out: &mut Vec<u8>, card: &Card, label: &[u8]) -> Result<(), AllocError>
    ensures { OnOk result (out.new.items ≡ out.old.items ++ spec.whole_card_with label.now card.now) }
{
    put_answer(out, Some(*card), label)?;
    put_byte(out, b' ')?;
    put_end(
        out,
        End {
            addr: card.local,
            port: card.lport,
        },
    )?;
    put_byte(out, b' ')?;
    put_end(
        out,
        End {
            addr: card.remote,
            port: card.rport,
        },
    )?;
    put_dev(out, card.dev, card.net)
}

/// Appends the loads of the clock between which sockets were listed, where others might be at the tables.
fn put_span(out: &mut Vec<u8>, span: Option<Span>) -> Result<(), AllocError>
    ensures { OnOk result (out.new.items ≡ out.old.items ++ spec.span_text span) }
{
    let Some(span) = span else {
        return Ok(());
    };
    put(out, b" t0 ")?;
    put_number(out, span.t0)?;
    put(out, b" t1 ")?;
    put_number(out, span.t1)
}

/// Appends the line of one socket that section `n` lists; the label is that of its name.
fn put_socket(out: &mut Vec<u8>, n: u64, card: &Card, label: &[u8]) -> Result<(), AllocError>
    ensures { OnOk result (out.new.items ≡ out.old.items
        ++ (decimal n ++ codes " item " ++ spec.whole_card_with label.now card.now ++ codes "\n")) }
{
    put_number(out, n)?;
    put(out, b" item ")?;
    put_whole_card(out, card, label)?;
    put_byte(out, b'\n')
}

/// Appends the lines of the sockets that section `n` lists.
fn put_sockets(
    out: &mut Vec<u8>,
    labels: &Labels<'_>,
    n: u64,
    cards: &[Card],
) -> Result<(), AllocError>
    ensures { OnOk result (out.new.items ≡ out.old.items
        ++ flat_map (spec.socket_line (label_at (tables labels.now.by_section.items)) n) cards.now) }
{
    for card in cards {
        put_socket(out, n, card, labels.of_name(card.name))?;
    }
    Ok(())
}

/// Appends the lines of what section `n` lists: how many sockets, and each of them.
pub fn put_listing(
    out: &mut Vec<u8>,
    labels: &Labels<'_>,
    n: u64,
    listing: &Listing,
) -> Result<(), AllocError>
    ensures { OnOk result (out.new.items ≡ out.old.items
        ++ spec.listing_text (label_at (tables labels.now.by_section.items)) n listing.now) }
{
    put_number(out, n)?;
    put(out, b" dump ")?;
    put_number(out, listing.cards.len() as u64)?;
    put_span(out, listing.span)?;
    put_byte(out, b'\n')?;
    put_sockets(out, labels, n, &listing.cards)
}

/// Appends two numbers, with a space before each.
fn put_two_numbers(out: &mut Vec<u8>, owned: u32, held: u32) -> Result<(), AllocError>
    ensures { OnOk result (out.new.items ≡ out.old.items ++ spec.two_numbers owned held) }
{
    put_byte(out, b' ')?;
    put_number(out, u64::from(owned))?;
    put_byte(out, b' ')?;
    put_number(out, u64::from(held))
}

/// Appends a reply; the label is that of the socket that a look found.
fn put_brief(out: &mut Vec<u8>, reply: Brief, label: &[u8]) -> Result<(), AllocError>
    ensures { OnOk result (out.new.items ≡ out.old.items ++ spec.reply_with label.now (kept_reply reply)) }
{
    match reply {
        Brief::Ok => put(out, b"ok"),
        Brief::Port(port) => {
            put(out, b"ok ")?;
            put_number(out, port as u64)
        }
        Brief::End(end) => {
            put(out, b"ok ")?;
            put_end(out, end)
        }
        Brief::TimeWait => put(out, b"ok time-wait"),
        Brief::NoSlot { owned, held } => {
            put(out, b"ok no-slot")?;
            put_two_numbers(out, owned, held)
        }
        Brief::Count { high, low } => {
            put(out, b"ok ")?;
            put_number(out, whole(high, low))
        }
        Brief::Found { kind, high, low } => put_found(out, kind, whole(high, low), label),
        Brief::None => put(out, b"none"),
        Brief::Skip => put(out, b"skip"),
        Brief::Short => put(out, b"short"),
        Brief::Ebadf => put(out, b"EBADF"),
        Brief::Einval => put(out, b"EINVAL"),
        Brief::Eisconn => put(out, b"EISCONN"),
        Brief::Eaddrinuse => put(out, b"EADDRINUSE"),
        Brief::Eaddrnotavail => put(out, b"EADDRNOTAVAIL"),
        Brief::Emfile => put(out, b"EMFILE"),
        Brief::Enfile { owned, held } => {
            put(out, b"ENFILE")?;
            put_two_numbers(out, owned, held)
        }
    }
}

/// Appends a reply, and the label of the socket that a look found.
fn put_reply(out: &mut Vec<u8>, labels: &Labels<'_>, reply: &Shown) -> Result<(), AllocError>
    ensures { OnOk result (out.new.items ≡ out.old.items
        ++ spec.reply_with (found_at (tables labels.now.by_section.items) reply.now) reply.now) }
{
    let brief = reply.brief();
    put_brief(out, brief, found_label(labels, brief))
}

/// The label of the socket that a reply names, or none.
fn found_label<'a>(labels: &Labels<'a>, reply: Brief) -> &'a [u8]
    ensures { result.now ≡ found_at (tables labels.now.by_section.items) (kept_reply reply) }
{
    match reply {
        Brief::Found { high, low, .. } => labels.of_name(whole(high, low)),
        _ => &[],
    }
}

/// Appends a command's verb, and the word that its line shows, if it shows one.
fn put_subject(out: &mut Vec<u8>, command: &KeptCommand) -> Result<(), AllocError>
    ensures { OnOk result (out.new.items ≡ out.old.items ++ spec.subject_text command.now) }
{
    match command.form() {
        Form::Socket { label, .. } | Form::UserSocket { label, .. } => {
            put_labelled(out, b"socket ", label.as_bytes())
        }
        Form::Bind { label, .. } => put_labelled(out, b"bind ", label.as_bytes()),
        Form::Listen { label } => put_labelled(out, b"listen ", label.as_bytes()),
        Form::Connect { label, .. } => put_labelled(out, b"connect ", label.as_bytes()),
        Form::Accept { label, .. } => put_labelled(out, b"accept ", label.as_bytes()),
        Form::LongAccept { labels, .. } => put_labelled(out, b"accept ", labels.given.as_bytes()),
        Form::Syn { label, .. } => put_labelled(out, b"syn ", label.as_bytes()),
        Form::LongSyn { labels, .. } => put_labelled(out, b"syn ", labels.given.as_bytes()),
        Form::Ack { label, .. } => put_labelled(out, b"ack ", label.as_bytes()),
        Form::LongAck { labels } => put_labelled(out, b"ack ", labels.given.as_bytes()),
        Form::Close { label } => put_labelled(out, b"close ", label.as_bytes()),
        Form::Drop { label } => put_labelled(out, b"drop ", label.as_bytes()),
        Form::At { moment } => {
            put(out, b"at ")?;
            put_number(out, u64::from(*moment))
        }
        Form::Reap => put(out, b"reap"),
        Form::Look { .. } => put(out, b"look"),
        Form::Packets { .. } => put(out, b"packets"),
        Form::Dump => put(out, b"dump"),
    }
}

fn put_labelled(out: &mut Vec<u8>, verb: &[u8], label: &[u8]) -> Result<(), AllocError>
    ensures { OnOk result (out.new.items ≡ out.old.items ++ (verb.now ++ label.now)) }
{
    put(out, verb)?;
    put_copy(out, label)
}

/// Appends the line of a command of section `n`.
fn put_line(
    out: &mut Vec<u8>,
    labels: &Labels<'_>,
    n: u64,
    command: &KeptCommand,
    reply: &Shown,
) -> Result<(), AllocError>
    ensures { OnOk result (out.new.items ≡ out.old.items
        ++ spec.line_with n command.now (found_at (tables labels.now.by_section.items) reply.now) reply.now) }
{
    put_number(out, n)?;
    put_byte(out, b' ')?;
    put_subject(out, command)?;
    put_byte(out, b' ')?;
    put_reply(out, labels, reply)?;
    put_byte(out, b'\n')
}

/// Appends the line of the capture's item of that number.
fn put_item(
    out: &mut Vec<u8>,
    labels: &Labels<'_>,
    number: u64,
    reply: &Shown,
) -> Result<(), AllocError>
    ensures { OnOk result (out.new.items ≡ out.old.items
        ++ spec.item_line number (found_at (tables labels.now.by_section.items) reply.now) reply.now) }
{
    put(out, b"packet ")?;
    put_number(out, number)?;
    put_byte(out, b' ')?;
    put_reply(out, labels, reply)?;
    put_byte(out, b'\n')
}

/// Appends the lines of items and their replies, where the first has that number.
fn put_items(
    out: &mut Vec<u8>,
    labels: &Labels<'_>,
    number: u64,
    replies: &[Shown],
) -> Result<(), AllocError>
    requires { number + length replies.now < 2 ^ 64 }
    ensures { OnOk result (out.new.items ≡ out.old.items
        ++ item_lines (tables labels.now.by_section.items) number replies.now) }
{
    for (i, reply) in replies.iter().enumerate() {
        put_item(out, labels, number + i as u64, reply)?;
    }
    Ok(())
}

/// Appends the lines of the next items, as many as that or as are left.
fn put_packets<'a>(
    out: &mut Vec<u8>,
    labels: &Labels<'_>,
    count: usize,
    unwritten: Unwritten<'a>,
) -> Result<Unwritten<'a>, AllocError>
    requires { unwritten.number + length unwritten.items < 2 ^ 63 }
    ensures { IfOk result (WritesItems
        (tables labels.now.by_section.items) count unwritten.entry out.old.items out.new.items) }
{
    let (replies, left) = unwritten.take(count);
    put_items(out, labels, unwritten.number(), replies)?;
    Ok(left)
}

/// Appends the lines of what the next `dump` of section `n` lists, if a listing is left.
fn put_dump<'a>(
    out: &mut Vec<u8>,
    labels: &Labels<'_>,
    n: u64,
    unwritten: Unwritten<'a>,
) -> Result<Unwritten<'a>, AllocError>
    ensures { IfOk result (WritesDump
        (tables labels.now.by_section.items) n unwritten.entry out.old.items out.new.items) }
{
    let Some((listing, left)) = unwritten.next_listing() else {
        return Ok(unwritten);
    };
    put_listing(out, labels, n, listing)?;
    Ok(left)
}

/// Appends the lines of a command of section `n`, or of the items that it comes to.
fn put_command<'a>(
    out: &mut Vec<u8>,
    labels: &Labels<'_>,
    n: u64,
    command: &KeptCommand,
    unwritten: Unwritten<'a>,
) -> Result<Unwritten<'a>, AllocError>
    requires { unwritten.number + length unwritten.items < 2 ^ 63 }
    ensures { IfOk result (Writes (tables labels.now.by_section.items)
        (issue n (command.now ∷ [])) unwritten.entry out.old.items out.new.items) }
{
    if let Form::Packets { count } = command.form() {
        return put_packets(out, labels, *count as usize, unwritten);
    }
    let Some((reply, left)) = unwritten.next() else {
        return Ok(unwritten);
    };
    if let Form::Dump = command.form() {
        return put_dump(out, labels, n, left);
    }
    put_line(out, labels, n, command, reply)?;
    Ok(left)
}

/// Appends the lines of the commands of section `n`, and of the items that they come to.
fn put_section<'a>(
    out: &mut Vec<u8>,
    labels: &Labels<'_>,
    n: u64,
    commands: &[KeptCommand],
    unwritten: Unwritten<'a>,
) -> Result<Unwritten<'a>, AllocError>
    requires { unwritten.number + length unwritten.items < 2 ^ 63 }
    ensures { IfOk result (Writes (tables labels.now.by_section.items)
        (issue n commands.now) unwritten.entry out.old.items out.new.items) }
{
    let mut left = unwritten;
    for command in commands {
        left = put_command(out, labels, n, command, left)?;
    }
    Ok(left)
}

/// Appends the last line, where the capture ends in the middle of a record.
fn put_cut(out: &mut Vec<u8>, is_cut: bool) -> Result<(), AllocError>
    ensures { OnOk result (out.new.items ≡ out.old.items ++ spec.cut_text is_cut) }
{
    if is_cut {
        put(out, b"cut\n")?;
    }
    Ok(())
}

/// How many bytes the line of a reply is likely to take: a little more than it has with a short label.
fn typical_line(reply: &Shown) -> usize {
    match reply.brief() {
        Brief::None => 12,
        Brief::Ok => 20,
        _ => 32,
    }
}

/// How many bytes the lines are likely to take, with those of each socket that is listed.
fn typical_room(replies: &[Shown], listings: &[Listing]) -> usize {
    let mut room: usize = 0;
    for reply in replies {
        room = room.saturating_add(typical_line(reply));
    }
    for listing in listings {
        room = room.saturating_add(listing.cards.len().saturating_mul(64));
    }
    room
}

/// The lines of a script's commands and of its capture's items, in the order in which they are come to, each
/// with its reply; a `dump` has the lines of the next listing.
///
/// Whoever ran the script hands in what is shown of the replies, and the listings. Takes memory for the lines and for
/// a reference to each label that the script gives, and time in proportion to the script and the lines: the label of
/// a socket that a packet found is found by its name, without a search. Where there are fewer replies
/// than commands and items, or more, or fewer listings than dumps, those that have no partner are left out.
pub fn text(
    alloc: Global,
    script: &Script,
    capture: &Capture,
    replies: &[Shown],
    listings: &[Listing],
) -> Result<Vec<u8>, AllocError>
    ensures { IfOk result (λ text. text.items ≡ script_text script.now capture.now replies.now listings.now) }
{
    let mut out = Vec::with_capacity(alloc, typical_room(replies, listings))?;
    let labels = Labels::of_script(alloc, script)?;
    let mut left = Unwritten::new(capture.items(), replies, listings);
    for (i, commands) in script.sections().iter().enumerate() {
        left = put_section(&mut out, &labels, i as u64 + 1, commands, left)?;
    }
    let count = left.item_count();
    put_packets(&mut out, &labels, count, left)?;
    put_cut(&mut out, capture.is_cut())?;
    Ok(out)
}
