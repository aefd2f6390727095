//! Places that are handed events, a line each.

use demo::Demo;
use miniserde::de::{Deserialize, Visitor};
use miniserde::json::{Array, Object, Value, from_str, to_string};
use miniserde::{Error, Result, Serialize};
use std::alloc::Global;
use std::collections::{BTreeMap, HashMap};
use std::hash::{BuildHasherDefault, DefaultHasher};

/// Runs the job of a name on the lines of a text. Returns `None` if no job here has the name.
pub fn run(alloc: Global, job: &str, lines: &str) -> Option<Result<String>> {
    match job {
        "events-value" => Some(collect::<Value>(alloc, lines)),
        "events-demo" => Some(collect::<Demo>(alloc, lines)),
        "begin" => Some(begin_each(alloc)),
        "events-map" => Some(collect::<BTreeMap<String, Vec<u64>>>(alloc, lines)),
        _ => None,
    }
}

/// Makes an empty array and object, reads a number and an empty map of each kind, and begins a place of each kind.
fn begin_each(alloc: Global) -> Result<String> {
    let _array = Array::new(alloc);
    let _object = Object::new(alloc);
    let _read: u64 = from_str(alloc, "7")?;
    let _ordered: BTreeMap<String, u64> = from_str(alloc, "{}")?;
    let _hashed: HashMap<String, u64, BuildHasherDefault<DefaultHasher>> = from_str(alloc, "{}")?;
    let _number = <u64 as Deserialize>::begin(alloc)?;
    let _list = <Vec<String> as Deserialize>::begin(alloc)?;
    let _map = <BTreeMap<String, Vec<u64>> as Deserialize>::begin(alloc)?;
    let _option = <Option<Box<(u8, bool)>> as Deserialize>::begin(alloc)?;
    let _struct = <Demo as Deserialize>::begin(alloc)?;
    let _value = <Value as Deserialize>::begin(alloc)?;
    Ok(String::new(alloc))
}

/// Hands the event of a line to a place. A line that names no event is `Invalid`.
fn hand<V: Visitor>(place: &mut V, line: &str) -> Result<()> {
    let (event, word) = match line.split_once(' ') {
        Some((event, word)) => (event, word),
        None => (line, ""),
    };
    match event {
        "seq" => place.seq(),
        "element" => place.element(),
        "map" => place.map(),
        "key" => place.key(word),
        "string" => place.string(word),
        "nonnegative" => match word.parse::<u64>() {
            Ok(n) => place.nonnegative(n),
            Err(_) => Err(Error::Invalid),
        },
        "finish" => place.finish(),
        _ => Err(Error::Invalid),
    }
}

/// Hands each line's event to a place of the type, and writes the value. If an event fails to allocate, all later ones
/// and `take` must fail so; anything else is `Invalid`.
fn collect<T: Deserialize + Serialize>(alloc: Global, lines: &str) -> Result<String> {
    let mut place = <T as Deserialize>::begin(alloc)?;
    let mut failed = false;
    for line in lines.lines() {
        match hand(&mut place, line) {
            Ok(()) => {
                if failed {
                    return Err(Error::Invalid);
                }
            }
            Err(Error::Memory) => failed = true,
            Err(Error::Invalid) => return Err(Error::Invalid),
        }
    }
    match <T as Deserialize>::take(place) {
        Ok(value) => {
            if failed {
                return Err(Error::Invalid);
            }
            to_string(alloc, &value)
        }
        Err(error) => Err(error),
    }
}
