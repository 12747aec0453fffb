//! The lanes of lives: one for each slot of a chain that had a life.

ghost use Rattle.std.specs.Prelude.{◌≡◌, ◌++◌, ◌∷◌, [], IfOk, OnOk, None};
ghost use Rattle.std.specs.Option.{option_to_list};
ghost use Rattle.race_picture.specs.Lanes as spec;
ghost use Rattle.race_picture.specs.Lanes.{IsArranged, places_from};

use record_reader::line::Line;
use std::alloc::{AllocError, Global};

/// In which chain and slot the life of a line stood. Lines are counted from 0.
#[derive(Clone, Copy, Debug, PartialEq, Eq, PartialOrd, Ord)]
pub struct Place {
    pub chain: u64,
    pub slot: u64,
    pub line: usize,
}

/// In which lane the life of a line is drawn, and whether it is the first of that lane, and of its chain's lanes.
#[derive(Clone, Copy, Debug, PartialEq, Eq)]
pub struct Bar {
    pub line: usize,
    pub lane: u32,
    pub heads_lane: bool,
    pub heads_chain: bool,
}

fn place_in(at: usize, line: &Line) -> Option<Place>
    ensures { result ≡ spec.place_in at line.now }
{
    match line {
        Line::Life(life) => Some(Place {
            chain: life.bucket,
            slot: life.slot,
            line: at,
        }),
        _ => None,
    }
}

/// Adds the place of a line, if it is a life's.
fn push_place(places: &mut Vec<Place>, at: usize, line: &Line) -> Result<(), AllocError>
    ensures { OnOk result (places.new.items ≡ places.old.items ++ option_to_list (spec.place_in at line.now)) }
{
    if let Some(place) = place_in(at, line) {
        places.push(place)?;
    }
    Ok(())
}

/// The places of all lives, line by line.
fn places_of(alloc: Global, lines: &[Line]) -> Result<Vec<Place>, AllocError>
    ensures { IfOk result (λ places. places.items ≡ places_from 0 lines.now) }
{
    let mut places = Vec::new(alloc);
    for (at, line) in lines.iter().enumerate() {
        push_place(&mut places, at, line)?;
    }
    Ok(places)
}

/// The places of all lives, by their chains and slots.
pub fn arranged(alloc: Global, lines: &[Line]) -> Result<Vec<Place>, AllocError>
    ensures { IfOk result (λ places. IsArranged (places_from 0 lines.now) places.items) }
{
    let mut places = places_of(alloc, lines)?;
    places.sort()?;
    Ok(places)
}

fn begins_chain(before: Option<Place>, place: &Place) -> bool
    ensures { result ≡ spec.begins_chain before place.now }
{
    match before {
        None => true,
        Some(before) => before.chain != place.chain,
    }
}

fn begins_lane(before: Option<Place>, place: &Place) -> bool
    ensures { result ≡ spec.begins_lane before place.now }
{
    match before {
        None => true,
        Some(before) => !(before.chain == place.chain && before.slot == place.slot),
    }
}

/// The lane of a place, where the one before it has that lane. There is no memory for more than `u32::MAX` lanes.
fn lane_after(before: Option<Place>, lane: u32, place: &Place) -> Result<u32, AllocError>
    ensures { IfOk result (λ n. n ≡ spec.lane_after before lane place.now) }
{
    if before.is_none() || !begins_lane(before, place) {
        return Ok(lane);
    }
    lane.checked_add(1).ok_or(AllocError)
}

fn bar_of(before: Option<Place>, lane: u32, place: &Place) -> Bar
    ensures { result ≡ spec.bar_of before lane place.now }
{
    Bar {
        line: place.line,
        lane,
        heads_lane: begins_lane(before, place),
        heads_chain: begins_chain(before, place),
    }
}

/// A bar for each place, in their order.
pub fn bars_of(alloc: Global, places: &[Place]) -> Result<Vec<Bar>, AllocError>
    ensures { IfOk result (λ bars. bars.items ≡ spec.bars_from None 0 places.now) }
{
    let mut bars = Vec::new(alloc);
    let mut before = None;
    let mut lane = 0u32;
    for place in places {
        lane = lane_after(before, lane, place)?;
        bars.push(bar_of(before, lane, place))?;
        before = Some(*place);
    }
    Ok(bars)
}

/// How many lanes there are. There is no memory for more than `u32::MAX` of them.
pub fn lane_count(bars: &[Bar]) -> Result<u32, AllocError>
    ensures { IfOk result (λ n. n ≡ spec.lane_count bars.now) }
{
    let count = bars.iter().filter(|bar| bar.heads_lane).count();
    u32::try_from(count).map_err(|_| AllocError)
}
