//! The jobs, by their names.

use crate::outcome::Outcome;
use crate::pages::Page;
use crate::posts::Post;
use crate::services::Service;
use crate::{calls, places};
use demo::{Demo, Example, StrictDemo, Tag};
use examples::action::Action;
use examples::command::Command;
use miniserde::de::ignore;
use miniserde::json::{Value, canonical_of, feed, from_str, to_string};
use miniserde::{FromJson, Result, Serialize};
use std::alloc::Global;
use std::collections::{BTreeMap, HashMap};
use std::hash::{BuildHasherDefault, DefaultHasher};

/// How far a job of a type goes.
#[derive(Clone, Copy)]
pub enum Depth {
    /// The text is read, and the value dropped.
    Read,
    /// The value is written again.
    Both,
    /// The value's canonical text is written.
    Canonical,
}

/// Reads a text as a type, and writes the value or its canonical text, unless the depth is `Read`.
fn rewrite<T: FromJson + Serialize>(alloc: Global, depth: Depth, text: &str) -> Result<String> {
    let value: T = from_str(alloc, text)?;
    match depth {
        Depth::Read => Ok(String::new(alloc)),
        Depth::Both => to_string(alloc, &value),
        Depth::Canonical => canonical_of(alloc, &value),
    }
}

/// Reads a text with the place that accepts any value and keeps none.
fn skip(alloc: Global, text: &str) -> Result<String> {
    let mut place = ignore();
    feed(alloc, text, &mut place)?;
    Ok(String::new(alloc))
}

/// Runs the job of a type of std, or of documents.
fn of_std(alloc: Global, job: &str, depth: Depth, text: &str) -> Option<Result<String>> {
    match job {
        "u64s" => Some(rewrite::<Vec<u64>>(alloc, depth, text)),
        "strings" => Some(rewrite::<Vec<String>>(alloc, depth, text)),
        "rows" => Some(rewrite::<Vec<Vec<u64>>>(alloc, depth, text)),
        "cubes" => Some(rewrite::<Vec<Vec<Vec<u64>>>>(alloc, depth, text)),
        "map" => Some(rewrite::<BTreeMap<String, u64>>(alloc, depth, text)),
        "pairs" => Some(rewrite::<Vec<(u64, String)>>(alloc, depth, text)),
        "triples" => Some(rewrite::<Vec<(u8, u8, u8)>>(alloc, depth, text)),
        "options" => Some(rewrite::<Vec<Option<bool>>>(alloc, depth, text)),
        "keys" => Some(rewrite::<BTreeMap<u32, u32>>(alloc, depth, text)),
        "hashed" => Some(rewrite::<HashMap<u32, bool, BuildHasherDefault<DefaultHasher>>>(
            alloc, depth, text,
        )),
        "value" => Some(rewrite::<Value>(alloc, depth, text)),
        "ignore" => Some(skip(alloc, text)),
        _ => None,
    }
}

/// Runs the job of a struct or an enum.
fn of_structs(alloc: Global, job: &str, depth: Depth, text: &str) -> Option<Result<String>> {
    match job {
        "demo" => Some(rewrite::<Demo>(alloc, depth, text)),
        "demos" => Some(rewrite::<Vec<Demo>>(alloc, depth, text)),
        "strict-demo" => Some(rewrite::<StrictDemo>(alloc, depth, text)),
        "commands" => Some(rewrite::<Vec<Command>>(alloc, depth, text)),
        "actions" => Some(rewrite::<Vec<Action>>(alloc, depth, text)),
        "tags" => Some(rewrite::<Vec<Tag>>(alloc, depth, text)),
        "example" => Some(rewrite::<Example>(alloc, depth, text)),
        "posts" => Some(rewrite::<Vec<Post>>(alloc, depth, text)),
        "pages" => Some(rewrite::<Vec<Page>>(alloc, depth, text)),
        "services" => Some(rewrite::<Vec<Service>>(alloc, depth, text)),
        _ => None,
    }
}

/// Runs the job of a name on a text. Returns `None` if no job has the name.
pub fn run(alloc: Global, job: &str, depth: Depth, text: &str) -> Option<Outcome> {
    if let Some(made) = of_std(alloc, job, depth, text) {
        return Some(Outcome::of(alloc, made));
    }
    if let Some(made) = of_structs(alloc, job, depth, text) {
        return Some(Outcome::of(alloc, made));
    }
    if let Some(made) = places::run(alloc, job, text) {
        return Some(Outcome::of(alloc, made));
    }
    calls::run(alloc, job, text)
}
