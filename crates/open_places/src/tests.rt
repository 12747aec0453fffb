//! Places with texts, of which one is let go.

use crate::OpenPlaces;
use std::alloc::AllocError;
use std::test::Fail;

#[test]
fn a_value_is_where_it_was_put_until_it_is_taken(rt: HostRuntime) -> Result<(), Fail> {
    let mut places = OpenPlaces::on_pages(rt.alloc());
    assert_eq!(rt; places.at(0).copied(), None);
    places.give()?;
    places.give()?;
    places.give()?;
    places.take_back();
    assert_eq!(rt; places.len(), 2);
    assert_eq!(rt; places.take(2), None);
    assert_eq!(rt; places.at(1).copied(), None);
    places.put(0, "none");
    places.put(1, "one");
    assert_eq!(rt; places.at(1).copied(), Some("one"));
    assert_eq!(rt; places.take(0), Some("none"));
    assert_eq!(rt; places.take(0), None);
    places.let_go(0);
    places.let_go(0);
    assert_eq!(rt; places.at(0).copied(), None);
    assert_eq!(rt; places.take(0), None);
    assert_eq!(rt; places.take(7), None);
    assert_eq!(rt; places.at(1).copied(), Some("one"));
    assert_eq!(rt; places.len(), 2);
    places.put(1, "again");
    assert_eq!(rt; places.take(1), Some("again"));
    Ok(())
}

#[test]
fn the_next_value_is_found_past_places_that_are_empty_or_gone(rt: HostRuntime) -> Result<(), Fail> {
    let mut places = OpenPlaces::on_pages(rt.alloc());
    assert_eq!(rt; places.next_full(0), None);
    places.give()?;
    places.give()?;
    places.give()?;
    places.give()?;
    places.give()?;
    places.put(1, "one");
    places.put(4, "last");
    places.let_go(0);
    places.let_go(2);
    assert_eq!(rt; places.next_full(0), Some(1));
    assert_eq!(rt; places.next_full(1), Some(1));
    assert_eq!(rt; places.next_full(2), Some(4));
    assert_eq!(rt; places.next_full(5), None);
    assert_eq!(rt; places.next_full(usize::MAX), None);
    Ok(())
}

#[test]
fn places_in_an_array_are_those_on_pages(rt: HostRuntime) -> Result<(), Fail> {
    let mut places = OpenPlaces::in_array(rt.alloc());
    assert_eq!(rt; places.next_full(0), None);
    places.take_back();
    assert_eq!(rt; places.len(), 0);
    places.reserve(40)?;
    for _ in 0..40 {
        give_number(&mut places)?;
    }
    places.take_back();
    assert_eq!(rt; places.len(), 39);
    assert_eq!(rt; places.at(38).copied(), Some(38));
    assert_eq!(rt; places.at(39).copied(), None);
    assert_eq!(rt; places.take(39), None);
    assert_eq!(rt; empty(&mut places, 0), Some(0));
    assert_eq!(rt; empty(&mut places, 0), None);
    assert_eq!(rt; places.next_full(0), Some(1));
    assert_eq!(rt; places.take(1), Some(1));
    assert_eq!(rt; places.next_full(0), Some(2));
    places.put(1, 7);
    assert_eq!(rt; places.next_full(0), Some(1));
    assert_eq!(rt; places.next_full(39), None);
    assert_eq!(rt; places.take(1), Some(7));
    Ok(())
}

/// Gives a place more, with its own number.
fn give_number(places: &mut OpenPlaces<usize>) -> Result<(), AllocError> {
    let place = places.len();
    places.give()?;
    places.put(place, place);
    Ok(())
}

/// Takes the value out of a place, and lets the place go.
fn empty(places: &mut OpenPlaces<usize>, place: usize) -> Option<usize> {
    let value = places.take(place);
    if places.at(place).is_none() {
        places.let_go(place);
    }
    value
}

#[test]
fn values_stand_on_many_pages(rt: HostRuntime) -> Result<(), Fail> {
    let mut places = OpenPlaces::on_pages(rt.alloc());
    for _ in 0..100 {
        give_number(&mut places)?;
    }
    assert_eq!(rt; places.len(), 100);
    for place in 1..96 {
        assert_eq!(rt; empty(&mut places, place), Some(place));
    }
    assert_eq!(rt; places.at(0).copied(), Some(0));
    assert_eq!(rt; places.at(64).copied(), None);
    assert_eq!(rt; places.next_full(0), Some(0));
    assert_eq!(rt; places.next_full(1), Some(96));
    assert_eq!(rt; places.next_full(97), Some(97));
    assert_eq!(rt; places.next_full(100), None);
    assert_eq!(rt; places.take(98), Some(98));
    assert_eq!(rt; empty(&mut places, 0), Some(0));
    assert_eq!(rt; places.next_full(0), Some(96));
    Ok(())
}

#[test]
fn a_place_is_taken_back_from_the_page_before(rt: HostRuntime) -> Result<(), Fail> {
    let mut places = OpenPlaces::on_pages(rt.alloc());
    for _ in 0..33 {
        give_number(&mut places)?;
    }
    places.take_back();
    assert_eq!(rt; places.len(), 32);
    assert_eq!(rt; places.at(31).copied(), Some(31));
    places.take_back();
    assert_eq!(rt; places.len(), 31);
    assert_eq!(rt; places.at(31).copied(), None);
    give_number(&mut places)?;
    assert_eq!(rt; places.take(31), Some(31));
    Ok(())
}
