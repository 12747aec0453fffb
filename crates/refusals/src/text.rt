//! What is written of a line that is refused.
ghost use Rattle.std.specs.Prelude.{◌≡◌, ◌++◌, OnOk, decimal};
ghost use Rattle.refusals.specs.Texts as spec;

use crate::answer::Refusal;
use crate::place::Misplace;
use crate::ports::PortsFault;
use crate::reason::Reason;
use itoa::write_digits;
use line_forms::{Kind, Misfit, Verb};
use std::alloc::AllocError;

/// Appends a text.
pub fn put(out: &mut Vec<u8>, text: &[u8]) -> Result<(), AllocError>
    ensures { OnOk result (out.new.items ≡ out.old.items ++ text.now) }
{
    out.extend_from_slice(text)
}

/// Appends a number in decimal digits.
pub fn put_number(out: &mut Vec<u8>, n: u64) -> Result<(), AllocError>
    ensures { OnOk result (out.new.items ≡ out.old.items ++ decimal n) }
{
    let mut digits = [0; 20];
    let start = write_digits(n, &mut digits, 20);
    put(out, &digits[start..])
}

/// Appends a range of numbers.
#[tactic(auto, unfolding(crate::specs::Texts::kind_text))]
fn put_range(out: &mut Vec<u8>, least: u32, most: u32) -> Result<(), AllocError>
    ensures { OnOk result (out.new.items ≡ out.old.items ++ spec.kind_text (Kind.Number least most)) }
{
    put(out, b"a number from ")?;
    put_number(out, u64::from(least))?;
    put(out, b" to ")?;
    put_number(out, u64::from(most))?;
    put(out, b", in digits, without a sign or a leading zero")
}

/// Appends what a word has to be.
#[tactic(auto, unfolding(crate::specs::Texts::kind_text))]
fn put_kind(out: &mut Vec<u8>, kind: Kind) -> Result<(), AllocError>
    ensures { OnOk result (out.new.items ≡ out.old.items ++ spec.kind_text kind) }
{
    match kind {
        Kind::Label => put(out, b"a label: 1 to 16 letters, digits, _ and -"),
        Kind::Number { least, most } => put_range(out, least, most),
        Kind::Power { most } => {
            put(out, b"a power of two, from 1 to ")?;
            put_number(out, u64::from(most))
        }
        Kind::End => put(out, b"an address, a colon and a port, as 10.0.0.1:80"),
        Kind::Address => put(out, b"an address, as 10.0.0.1"),
        Kind::Word(keyword) => {
            put(out, b"the word ")?;
            put(out, keyword.text())
        }
    }
}

/// Appends a word's place.
fn put_place(out: &mut Vec<u8>, place: usize, text: &[u8]) -> Result<(), AllocError>
    ensures { OnOk result (out.new.items ≡ out.old.items ++ spec.at_word place text.now) }
{
    put(out, b"word ")?;
    put_number(out, place as u64)?;
    put(out, text)
}

/// Appends where and how words leave their form.
#[tactic(auto, unfolding(crate::specs::Texts::misfit_text))]
fn put_misfit(out: &mut Vec<u8>, misfit: Misfit) -> Result<(), AllocError>
    ensures { OnOk result (out.new.items ≡ out.old.items ++ spec.misfit_text misfit) }
{
    match misfit {
        Misfit::Unfit { place, kind } => {
            put_place(out, place, b" isn't ")?;
            put_kind(out, kind)
        }
        Misfit::Missing { place, kind } => {
            put_place(out, place, b" is missing, which must be ")?;
            put_kind(out, kind)
        }
        Misfit::Surplus { place } => put_place(out, place, b" is one too many"),
    }
}

/// Appends what is wrong with ports.
#[tactic(auto, unfolding(crate::specs::Texts::ports_text))]
fn put_ports(out: &mut Vec<u8>, fault: PortsFault) -> Result<(), AllocError>
    ensures { OnOk result (out.new.items ≡ out.old.items ++ spec.ports_text fault) }
{
    match fault {
        PortsFault::NotAbove => put(out, b"the second port isn't above the first"),
        PortsFault::NotOdd => put(
            out,
            b"the difference of the two ports isn't odd: a range has an even number of ports",
        ),
        PortsFault::Missing => put(out, b"no port stands behind it: 1 to 64 must"),
        PortsFault::Many => put(out, b"more than 64 ports stand behind it"),
        PortsFault::NotPort { place } => {
            put_place(out, place, b" isn't ")?;
            put_range(out, 1, 65535)
        }
        PortsFault::NotAscending => put(
            out,
            b"its ports don't ascend: each must be above the one before",
        ),
    }
}

/// Appends a text, the number of a line, and a text.
fn put_at_line(out: &mut Vec<u8>, front: &[u8], line: u64, behind: &[u8]) -> Result<(), AllocError>
    ensures { OnOk result (out.new.items ≡ out.old.items ++ spec.at_line front.now line behind.now) }
{
    put(out, front)?;
    put_number(out, line)?;
    put(out, behind)
}

/// Appends why a line can't stand where it does.
#[tactic(auto, unfolding(crate::specs::Texts::place_text))]
fn put_misplace(out: &mut Vec<u8>, misplace: Misplace) -> Result<(), AllocError>
    ensures { OnOk result (out.new.items ≡ out.old.items ++ spec.place_text misplace) }
{
    match misplace {
        Misplace::Again(line) => put_at_line(
            out,
            b"a line of its kind stands before it, line ",
            line,
            b": each kind stands once",
        ),
        Misplace::Late(line) => put_at_line(
            out,
            b"a section begins before it, in line ",
            line,
            b": it must stand before the first line script",
        ),
        Misplace::NotNext(line) => put_at_line(
            out,
            b"its number isn't the next: it must be one more than that of line ",
            line,
            b", which begins the section before",
        ),
        Misplace::NotFirst => put(
            out,
            b"its number isn't 1, which is that of the first section",
        ),
        Misplace::Outside => put(
            out,
            b"no line script stands before it: a command belongs to the section that such a line begins",
        ),
        Misplace::InRace => put(
            out,
            b"a race has no such line: all packets that it looks up are those of a capture",
        ),
        Misplace::Given(line) => put_at_line(
            out,
            b"its section has given its label before, in line ",
            line,
            b": a label is given once in a section",
        ),
        Misplace::Other => put(out, b"it can't stand there"),
    }
}

/// Appends the reason.
#[tactic(auto, unfolding(crate::specs::Texts::reason_text))]
fn put_reason(out: &mut Vec<u8>, reason: Reason) -> Result<(), AllocError>
    ensures { OnOk result (out.new.items ≡ out.old.items ++ spec.reason_text reason) }
{
    match reason {
        Reason::NoVerb => put(out, b"no line begins with its first word"),
        Reason::Strange => put(
            out,
            b"its first word has a byte that no line's first word has: where a capture begins there, a line capture \
              must stand before it, with its line feed",
        ),
        Reason::Misfit { misfit, .. } => put_misfit(out, misfit),
        Reason::Untimely { place, .. } => put_place(
            out,
            place,
            b" names an option that stands there twice, or late: each stands once, in the order of the form",
        ),
        Reason::Ports { fault, .. } => put_ports(out, fault),
        Reason::Place { misplace, .. } => put_misplace(out, misplace),
    }
}

/// The form of a verb's line.
#[tactic(auto, unfolding(crate::specs::Texts::form_text))]
fn form_text(verb: Verb) -> &'static [u8]
    ensures { result.now ≡ spec.form_text verb }
{
    match verb {
        Verb::Table => b"table slots N bind B hash E listen L",
        Verb::Range => b"range LO HI",
        Verb::Reserved => b"reserved P1 .. Pk",
        Verb::Seed => b"seed N",
        Verb::Offset => b"offset N",
        Verb::TimeWaitReuse => b"twreuse 0|1",
        Verb::Script => b"script N",
        Verb::Capture => b"capture [dev D] [net N]",
        Verb::Socket => b"socket S [net N] [uid U] [dev D] [reuseaddr] [reuseport] [noport]",
        Verb::Bind => b"bind S A:P",
        Verb::Listen => b"listen S",
        Verb::Connect => b"connect S [from A] to B:Q",
        Verb::Accept => b"accept L C from B:Q at A:P",
        Verb::Syn => b"syn L R from B:Q at A:P",
        Verb::Ack => b"ack R C",
        Verb::Close => b"close S",
        Verb::Drop => b"drop S",
        Verb::At => b"at T",
        Verb::Reap => b"reap",
        Verb::Look => b"look B:Q A:P [dev D] [net N]",
        Verb::Packets => b"packets N",
        Verb::Dump => b"dump",
    }
}

/// Appends the form of a verb's line.
fn put_form(out: &mut Vec<u8>, verb: Verb) -> Result<(), AllocError>
    ensures { OnOk result (out.new.items ≡ out.old.items ++ spec.form_line verb) }
{
    put(out, b"form: ")?;
    put(out, form_text(verb))
}

/// Appends the verbs.
#[tactic(auto, unfolding(crate::specs::Texts::verbs_line))]
fn put_verbs(out: &mut Vec<u8>) -> Result<(), AllocError>
    ensures { OnOk result (out.new.items ≡ out.old.items ++ spec.verbs_line) }
{
    put(
        out,
        b"first words: table range reserved seed offset twreuse script capture socket bind listen connect \
          accept syn ack close drop at reap look packets dump; or # before a comment",
    )
}

/// Appends the verbs, or the form of the verb.
#[tactic(auto, unfolding(crate::specs::Texts::help_text))]
fn put_help(out: &mut Vec<u8>, reason: Reason) -> Result<(), AllocError>
    ensures { OnOk result (out.new.items ≡ out.old.items ++ spec.help_text reason) }
{
    match reason {
        Reason::NoVerb | Reason::Strange => put_verbs(out),
        Reason::Misfit { verb, .. }
        | Reason::Untimely { verb, .. }
        | Reason::Ports { verb, .. }
        | Reason::Place { verb, .. } => put_form(out, verb),
    }
}

/// Appends the line's number and its text.
fn put_line(out: &mut Vec<u8>, number: u64, line: &[u8]) -> Result<(), AllocError>
    ensures { OnOk result (out.new.items ≡ out.old.items ++ spec.line_text number line.now) }
{
    put(out, b"bad script line ")?;
    put_number(out, number)?;
    put(out, b": ")?;
    put(out, line)?;
    put(out, b"\n")
}

/// Appends what is written of a line that is refused: its number and its text, the reason, and what may stand there.
pub fn put_refusal(out: &mut Vec<u8>, refusal: &Refusal) -> Result<(), AllocError>
    ensures { OnOk result (out.new.items ≡ out.old.items
        ++ spec.refusal_text refusal.now.number refusal.now.line.items refusal.now.reason) }
{
    put_line(out, refusal.number, &refusal.line)?;
    put_reason(out, refusal.reason)?;
    put(out, b"\n")?;
    put_help(out, refusal.reason)?;
    put(out, b"\n")
}
