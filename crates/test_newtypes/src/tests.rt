//! Calls of newtypes, and their places.

use crate::accounts::{Slug, UserId};
use crate::callers::{
    by_slug_is_stable, checked_value, half, percent, percent_of, same_slug, span_of, tagged,
};
use crate::percents::Percent;
use miniserde::json::{feed, from_str, to_string};
use miniserde::{Checked, Deserialize, Error, Result};
use std::alloc::Global;
use std::test::Fail;

#[test]
fn values_and_their_checks(rt: HostRuntime) -> std::result::Result<(), Fail> {
    let alloc = rt.alloc();
    assert!(rt; percent_of(101).is_none());
    assert_eq!(rt; *checked_value(&half(&percent_of(99).unwrap())), 49);
    assert_eq!(rt; percent(alloc, "100")?, 100);
    assert!(rt; matches!(percent(alloc, "101"), Err(Error::Invalid)));
    let slug: Slug = from_str(alloc, "\"a-b\"")?;
    by_slug_is_stable();
    assert_eq!(rt; tagged::<u8>(alloc, "7")?, 7);
    assert_eq!(rt; span_of(alloc, "{\"from\":1,\"to\":2}")?.get().to, 2);
    assert!(rt; matches!(span_of(alloc, "{\"from\":2,\"to\":1}"), Err(Error::Invalid)));
    assert_eq!(rt; same_slug(alloc, &slug)?.get().as_str(), "a-b");
    Ok(())
}

// A user, and the percents of a line.
type Line = (UserId, (Vec<Percent>, Option<Percent>));

// Returns the text of the line that the place of a line takes from a text.
fn line_by_events(alloc: Global, text: &str) -> Result<String> {
    let mut place = <Line as Deserialize>::begin(alloc)?;
    feed(alloc, text, &mut place)?;
    let line = <Line as Deserialize>::take(place)?;
    to_string(alloc, &line)
}

#[test]
fn places_of_newtypes(rt: HostRuntime) -> std::result::Result<(), Fail> {
    let alloc = rt.alloc();
    let text = "[7,[[100,0],9]]";
    assert_eq!(rt; line_by_events(alloc, text)?.as_str(), text);
    let refused = "[-1,[[],null]]\n[1,[[101],null]]\n[1,[[],\"1\"]]\n[1,[[],101]]\n[[[],null]]";
    for line in refused.lines() {
        assert!(rt; matches!(line_by_events(alloc, line), Err(Error::Invalid)));
    }
    Ok(())
}
