//! Calls that a text is handed to, or appended to.

use crate::outcome::Outcome;
use miniserde::de::MapKey;
use miniserde::json::{Array, Object, Value, canonical, canonical_unique, from_str, to_string};
use miniserde::ser::{Fragment, Writer, escape_str};
use miniserde::{Error, Result, value};
use settings::loader::{load, reloaded, save};
use std::alloc::Global;

/// Runs the job of a name on a text. Returns `None` if no job here has the name.
pub fn run(alloc: Global, job: &str, text: &str) -> Option<Outcome> {
    match job {
        "canonical" => Some(Outcome::of(alloc, canonical(alloc, text))),
        "canonical-unique" => Some(Outcome::of(alloc, canonical_unique(alloc, text))),
        "settings" => Some(Outcome::of(alloc, saved(alloc, text))),
        "collect" => Some(Outcome::of(alloc, collected(alloc))),
        "copy-array" => Some(Outcome::of(alloc, array_copied(alloc, text))),
        "copy-value" => Some(copied(alloc, text)),
        "key-u32" => Some(key::<u32>(alloc, text)),
        "key-string" => Some(key::<String>(alloc, text)),
        "escape" => Some(escaped(alloc, text)),
        "writer" => Some(Outcome::of(alloc, written(alloc))),
        "made" => Some(Outcome::of(alloc, made(alloc, text))),
        _ => None,
    }
}

/// Loads settings, saves them, and saves what was loaded again.
fn saved(alloc: Global, text: &str) -> Result<String> {
    let settings = load(alloc, text)?;
    save(alloc, &reloaded(alloc, &settings)?)
}

/// Writes an object of three members, of which two have one name.
fn collected(alloc: Global) -> Result<String> {
    let mut members = Vec::new(alloc);
    for (name, value) in [
        ("a", Value::Bool(true)),
        ("a", Value::Null),
        ("B", Value::Null),
    ] {
        members.push((String::from_str(alloc, name)?, value))?;
    }
    to_string(alloc, &Object::from_iter(alloc, members)?)
}

/// Reads a list, and writes a copy of it.
fn array_copied(alloc: Global, text: &str) -> Result<String> {
    let array: Array = from_str(alloc, text)?;
    to_string(alloc, &array.try_clone(alloc)?)
}

/// Reads a document, and writes a copy of it, or the document itself if the copy fails.
fn copied(alloc: Global, text: &str) -> Outcome {
    let source = match from_str::<Value>(alloc, text) {
        Ok(source) => source,
        Err(error) => return Outcome::of(alloc, Err(error)),
    };
    match source.try_clone(alloc) {
        Ok(copy) => Outcome::of(alloc, to_string(alloc, &copy)),
        Err(error) => {
            let left = Outcome::of(alloc, to_string(alloc, &source));
            Outcome {
                result: Err(error),
                text: left.text,
            }
        }
    }
}

/// Reads a key, and appends it to a text.
fn key<K: MapKey + Drop>(alloc: Global, name: &str) -> Outcome {
    let key = match <K as MapKey>::from_key(alloc, name) {
        Ok(key) => key,
        Err(error) => return Outcome::of(alloc, Err(error)),
    };
    match String::from_str(alloc, "key: ") {
        Ok(mut text) => {
            let result = key.to_key(&mut text);
            Outcome { result, text }
        }
        Err(_) => Outcome::of(alloc, Err(Error::Memory)),
    }
}

/// Appends a string with escapes to a text.
fn escaped(alloc: Global, value: &str) -> Outcome {
    match String::from_str(alloc, "text: ") {
        Ok(mut text) => {
            let result = escape_str(value, &mut text);
            Outcome { result, text }
        }
        Err(_) => Outcome::of(alloc, Err(Error::Memory)),
    }
}

/// Makes one call of the writer, by its number.
fn call(w: &mut Writer, k: u32) -> Result<()> {
    match k {
        0 => w.seq(),
        1 => w.element(),
        2 => w.fragment(Fragment::U64(18446744073709551615)),
        3 => w.element(),
        4 => w.map(),
        5 => w.key("a \"name\" of some length"),
        6 => w.fragment(Fragment::Str("a text of some length\n")),
        7 => w.map_finish(),
        _ => w.seq_finish(),
    }
}

/// Makes each call of the writer in turn. If one fails, all later ones must fail, and there must be no text; anything
/// else is `Invalid`.
fn written(alloc: Global) -> Result<String> {
    let mut w = Writer::new(alloc);
    let mut failed = false;
    for k in 0..9u32 {
        match call(&mut w, k) {
            Ok(()) => {
                if failed {
                    return Err(Error::Invalid);
                }
            }
            Err(_) => failed = true,
        }
    }
    match (w.into_string(), failed) {
        (Ok(text), false) => Ok(text),
        (Err(error), true) => Err(error),
        _ => Err(Error::Invalid),
    }
}

/// Makes a value by `value!` with parts of each form, two names of which are given twice, and writes it.
fn made(alloc: Global, text: &str) -> Result<String> {
    let made = value!(in alloc; {
        "text": [text], "size": null, "items": [null, [text], {(text): text}, text.len()],
        "text": text, "size": text.len(), "null": null, "list": [[], [{}]], "object": {"null": null}
    })?;
    to_string(alloc, &made)
}
