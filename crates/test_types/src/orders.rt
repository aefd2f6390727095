//! Places handed events in every order of four: each call returns, and the first refusal stands.

use crate::events::{Event, hand};
use demo::Demo;
use miniserde::de::{Deserialize, Visitor, ignore};
use miniserde::json::Value;
use miniserde::{Error, Result};
use std::alloc::Global;
use test_tables::{Wrong, expect, expect_ok};

const EVENTS: [Event<'static>; 6] = [
    Event::Seq,
    Event::Map,
    Event::Element,
    Event::Key("a"),
    Event::Finish,
    Event::Null,
];

/// Returns whether an answer is the refusal that stands, where one does.
fn agrees<T>(stands: Option<Error>, answer: &Result<T>) -> bool {
    match stands {
        None => true,
        Some(stood) => match answer {
            Ok(_) => false,
            Err(error) => *error == stood,
        },
    }
}

/// Returns how many of the events the place took, and whether it kept its first refusal, also in `take`.
fn offered<V: Visitor>(mut place: V, events: [Event<'static>; 4]) -> (u32, bool)
where
    V::Out: Drop,
{
    let mut taken = 0u32;
    let mut stands = None;
    for event in events {
        let answer = hand(&mut place, event);
        if !agrees(stands, &answer) {
            return (taken, false);
        }
        match answer {
            Ok(()) => taken = taken.wrapping_add(1),
            Err(error) => stands = Some(error),
        }
    }
    (taken, agrees(stands, &place.take()))
}

/// Returns the four events of a number below 1,296.
fn events_of(number: u32) -> [Event<'static>; 4] {
    let mut events = [Event::Null; 4];
    let mut rest = number;
    for event in events.iter_mut() {
        *event = EVENTS[(rest % 6) as usize];
        rest /= 6;
    }
    events
}

/// Returns whether so many events are taken of all the 1,296 lists of four, and no place loses a refusal.
fn takes<T: Deserialize + Drop>(alloc: Global, expected: u32) -> Result<bool> {
    let mut taken = 0u32;
    for number in 0..1296u32 {
        let (more, kept) = offered(<T as Deserialize>::begin(alloc)?, events_of(number));
        if !kept {
            return Ok(false);
        }
        taken = taken.wrapping_add(more);
    }
    Ok(taken == expected)
}

#[test]
fn a_document_keeps_its_refusal(rt: HostRuntime) -> std::result::Result<(), Wrong> {
    expect_ok(takes::<Value>(rt.alloc(), 840), "Value")
}

/// Returns how many events the place that takes everything takes, unless it loses a refusal.
fn ignored() -> Option<u32> {
    let mut taken = 0u32;
    for number in 0..1296u32 {
        let (more, kept) = offered(ignore(), events_of(number));
        if !kept {
            return None;
        }
        taken = taken.wrapping_add(more);
    }
    Some(taken)
}

#[test]
fn another_place_keeps_its_refusal(rt: HostRuntime) -> std::result::Result<(), Wrong> {
    let alloc = rt.alloc();
    // A member of another name is skipped, by a place that takes every event until its value is whole.
    expect_ok(takes::<Demo>(alloc, 314), "Demo")?;
    expect_ok(takes::<[u8; 2]>(alloc, 252), "an array")?;
    expect_ok(takes::<Option<Vec<u8>>>(alloc, 504), "an optional list")?;
    expect(ignored() == Some(5184), "the place that takes everything")
}
