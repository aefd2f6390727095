//! What is loaded and saved again, and what is refused.

use miniserde::error::{Error, Result};
use settings::loader::{load, reloaded, save};
use std::alloc::Global;
use test_tables::{Wrong, expect, is_right, text_of};

const SETTINGS: &str =
    r#"{"port":8080,"name":"a","hosts":[{"host":"h","weight":1}],"limits":{"x":5},"extra":[]} => {"name":"a","port":8080,"tls":null,"hosts":[{"host":"h","weight":1}],"limits":{"x":5}}
{"limits":{"b":1,"a":2},"hosts":[],"tls":{"verify":false,"cert":""},"port":1,"name":""} => {"name":"","port":1,"tls":{"cert":"","verify":false},"hosts":[],"limits":{"a":2,"b":1}}
{"name":"a","port":65536,"hosts":[],"limits":{}}
{"name":"a","port":1,"limits":{}}
{"name":"a","port":1,"hosts":[{"host":"h","weight":256}],"limits":{}}"#;

/// Returns the text that the settings of a text are saved as, if they are saved as that again after they were loaded.
fn saved(alloc: Global, text: &str) -> Result<String> {
    let settings = load(alloc, text)?;
    let once = save(alloc, &settings)?;
    let again = save(alloc, &reloaded(alloc, &settings)?)?;
    if again.as_str() == once.as_str() {
        return Ok(once);
    }
    Err(Error::Memory)
}

#[test]
fn what_is_loaded_is_saved(rt: HostRuntime) -> std::result::Result<(), Wrong> {
    for line in SETTINGS.lines() {
        expect(is_right(saved(rt.alloc(), text_of(line)), line), line)?;
    }
    Ok(())
}
