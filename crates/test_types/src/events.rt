//! Tables of events: each line is the events that a place is handed, by their words, ` => `, and the text that the value
//! is written as. A line without ` => ` is events that are refused, or that are no value.

use miniserde::Serialize;
use miniserde::de::{Deserialize, Visitor};
use miniserde::error::{Error, Result};
use miniserde::json::to_string;
use std::alloc::Global;
use test_tables::{Wrong, expect, expect_ok, is_right, text_of};

/// What a place is handed. A negative number is -1, and a number that is kept as its text 1.5.
#[derive(Clone, Copy, Drop)]
pub enum Event<'a> {
    Null,
    True,
    Str(&'a str),
    Negative,
    Nonnegative(u64),
    Float,
    Seq,
    Element,
    Map,
    Key(&'a str),
    Finish,
}

/// Returns the event of a word, such as `key=a`.
fn event_of(word: &str) -> Option<Event<'_>> {
    let (name, content) = word.split_once('=').unwrap_or((word, ""));
    match name {
        "null" => Some(Event::Null),
        "true" => Some(Event::True),
        "string" => Some(Event::Str(content)),
        "negative" => Some(Event::Negative),
        "nonnegative" => match content.parse() {
            Ok(number) => Some(Event::Nonnegative(number)),
            Err(_) => None,
        },
        "float" => Some(Event::Float),
        "seq" => Some(Event::Seq),
        "element" => Some(Event::Element),
        "map" => Some(Event::Map),
        "key" => Some(Event::Key(content)),
        "finish" => Some(Event::Finish),
        _ => None,
    }
}

/// Hands a place one event.
pub fn hand<V: Visitor>(place: &mut V, event: Event<'_>) -> Result<()> {
    match event {
        Event::Null => place.null(),
        Event::True => place.boolean(true),
        Event::Str(text) => place.string(text),
        Event::Negative => place.negative(-1),
        Event::Nonnegative(number) => place.nonnegative(number),
        Event::Float => place.float("1.5"),
        Event::Seq => place.seq(),
        Event::Element => place.element(),
        Event::Map => place.map(),
        Event::Key(name) => place.key(name),
        Event::Finish => place.finish(),
    }
}

/// Hands a place the events of a line, if there are any. Fails also if it is complete before the last.
pub fn hand_all<V: Visitor>(place: &mut V, events: &str) -> Result<()> {
    for word in events.split(' ') {
        if let Some(event) = event_of(word) {
            if place.is_complete() {
                return Err(Error::Invalid);
            }
            hand(place, event)?;
        }
    }
    Ok(())
}

/// Returns the text of the value that a place has after these events.
fn written<T: Deserialize + Serialize>(alloc: Global, events: &str) -> Result<String> {
    let mut place = <T as Deserialize>::begin(alloc)?;
    hand_all(&mut place, events)?;
    to_string(alloc, &<T as Deserialize>::take(place)?)
}

/// Returns whether a place has its value after these events, and takes no more.
fn is_ended<T: Deserialize + Drop>(alloc: Global, events: &str) -> Result<bool> {
    let mut place = <T as Deserialize>::begin(alloc)?;
    hand_all(&mut place, events)?;
    Ok(
        place.is_complete()
            && matches!(place.null(), Err(Error::Invalid))
            && matches!(place.finish(), Err(Error::Invalid))
            && matches!(<T as Deserialize>::take(place), Err(Error::Invalid)),
    )
}

/// Fails with the first line of a table that is wrong for the places of a type, if any.
pub fn expect_events<T: Deserialize + Serialize>(
    alloc: Global,
    table: &'static str,
) -> std::result::Result<(), Wrong> {
    for line in table.lines() {
        let written = written::<T>(alloc, text_of(line));
        let is_value = written.is_ok();
        expect(is_right(written, line), line)?;
        if is_value {
            expect_ok(is_ended::<T>(alloc, text_of(line)), line)?;
        }
    }
    Ok(())
}
