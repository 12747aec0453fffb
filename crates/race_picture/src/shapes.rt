//! The elements of SVG that a picture is made of, and how each kind of socket looks.

ghost use Rattle.std.specs.Prelude.{◌≡◌, ◌≤◌, ◌+◌, ◌^◌, ◌<◌, ◌++◌, OnOk, codes};
ghost use Rattle.record_reader.specs.Forms.{kind_word as word_of};
ghost use Rattle.race_picture.specs.Xml.{attribute_text, end_tag};
ghost use Rattle.race_picture.specs.Shapes as spec;

use crate::xml::{put, put_count, put_escaped};
use sock_card::Kind;
use std::alloc::AllocError;

/// A place on a picture.
#[derive(Clone, Copy, Debug, PartialEq, Eq)]
pub struct Point {
    pub x: u64,
    pub y: u64,
}

/// A rectangle on a picture, with how round its corners are.
#[derive(Clone, Copy, Debug, PartialEq, Eq)]
pub struct Area {
    pub x: u64,
    pub y: u64,
    pub width: u64,
    pub height: u64,
    pub radius: u64,
}

/// Appends the class by which a shape or a text has its colour.
#[tactic(auto, unfolding(crate::specs::Xml::attribute_text))]
fn put_class(out: &mut Vec<u8>, class: &[u8], wrong: bool) -> Result<(), AllocError>
    ensures { OnOk result (out.new.items ≡ out.old.items ++ attribute_text (spec.class_of class.now wrong)) }
{
    put(out, b" class=\"")?;
    put(out, class)?;
    if wrong {
        put(out, b" wrong")?;
    }
    put(out, b"\"")
}

/// Appends where a rectangle begins.
fn put_corner(out: &mut Vec<u8>, area: &Area) -> Result<(), AllocError>
    ensures { OnOk result (out.new.items ≡ out.old.items ++ spec.corner area.now) }
{
    put_count(out, b"x", area.x)?;
    put_count(out, b"y", area.y)
}

/// Appends how large a rectangle is, and how round.
fn put_size(out: &mut Vec<u8>, area: &Area) -> Result<(), AllocError>
    ensures { OnOk result (out.new.items ≡ out.old.items ++ spec.size area.now) }
{
    put_count(out, b"width", area.width)?;
    put_count(out, b"height", area.height)?;
    put_count(out, b"rx", area.radius)
}

/// Appends a rectangle.
#[tactic(auto, unfolding(crate::specs::Shapes::rect))]
pub fn put_rect(out: &mut Vec<u8>, class: &[u8], wrong: bool, area: &Area) -> Result<(), AllocError>
    ensures { OnOk result (out.new.items ≡ out.old.items ++ spec.rect class.now wrong area.now) }
{
    put(out, b"<rect")?;
    put_class(out, class, wrong)?;
    put_corner(out, area)?;
    put_size(out, area)?;
    put(out, b"/>")
}

/// Appends a line.
#[tactic(auto, unfolding(crate::specs::Shapes::line))]
pub fn put_line(
    out: &mut Vec<u8>,
    class: &[u8],
    wrong: bool,
    from: Point,
    to: Point,
) -> Result<(), AllocError>
    ensures { OnOk result (out.new.items ≡ out.old.items ++ spec.line class.now wrong from to) }
{
    put(out, b"<line")?;
    put_class(out, class, wrong)?;
    put_count(out, b"x1", from.x)?;
    put_count(out, b"y1", from.y)?;
    put_count(out, b"x2", to.x)?;
    put_count(out, b"y2", to.y)?;
    put(out, b"/>")
}

/// Appends the tag with which a text begins.
#[tactic(auto, unfolding(crate::specs::Shapes::text_tag))]
pub fn put_text_tag(
    out: &mut Vec<u8>,
    class: &[u8],
    wrong: bool,
    at: Point,
) -> Result<(), AllocError>
    ensures { OnOk result (out.new.items ≡ out.old.items ++ spec.text_tag class.now wrong at) }
{
    put(out, b"<text")?;
    put_class(out, class, wrong)?;
    put_count(out, b"x", at.x)?;
    put_count(out, b"y", at.y)?;
    put(out, b">")
}

/// Appends the tag with which a text ends.
pub fn put_text_end(out: &mut Vec<u8>) -> Result<(), AllocError>
    ensures { OnOk result (out.new.items ≡ out.old.items ++ end_tag (codes "text")) }
{
    put(out, b"</text>")
}

/// Appends what a pointer on the group shows.
#[tactic(auto, unfolding(crate::specs::Shapes::title))]
pub fn put_title(out: &mut Vec<u8>, text: &[u8]) -> Result<(), AllocError>
    ensures { OnOk result (out.new.items ≡ out.old.items ++ spec.title text.now) }
{
    put(out, b"<title>")?;
    put_escaped(out, text)?;
    put(out, b"</title>")
}

/// The word for a kind, which is the class of its shapes.
pub fn kind_word(kind: Kind) -> &'static [u8]
    ensures { result.now ≡ word_of kind }
{
    match kind {
        Kind::Full => b"full",
        Kind::TimeWait => b"time-wait",
        Kind::Listen => b"listen",
        Kind::Request => b"request",
    }
}

fn kind_height(kind: Kind, most: u64) -> u64
    ensures { result ≡ spec.kind_height kind most }
{
    match kind {
        Kind::Full | Kind::Listen => most,
        Kind::TimeWait | Kind::Request => most / 2,
    }
}

fn kind_drop(kind: Kind, most: u64) -> u64
    ensures value { result ≡ spec.kind_drop kind most }
    ensures bound { result ≤ most }
{
    match kind {
        Kind::TimeWait => most - most / 2,
        Kind::Full | Kind::Listen | Kind::Request => 0,
    }
}

fn kind_radius(kind: Kind, most: u64) -> u64
    ensures { result ≡ spec.kind_radius kind most }
{
    match kind {
        Kind::Full => most / 2,
        Kind::Request => most / 4,
        Kind::TimeWait | Kind::Listen => 0,
    }
}

/// Where a shape of that kind stands that begins there, is so wide, and is so high at most.
pub fn area_of(kind: Kind, at: Point, width: u64, most: u64) -> Area
    requires { at.y + most < 2 ^ 64 }
    ensures { result ≡ spec.area kind at width most }
{
    Area {
        x: at.x,
        y: at.y + kind_drop(kind, most),
        width,
        height: kind_height(kind, most),
        radius: kind_radius(kind, most),
    }
}
