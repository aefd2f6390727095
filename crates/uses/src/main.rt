//! Uses of the library, one after another: settings, a cache, a request's body, a store of requests, a signed body, and
//! the field that is wrong.
#![tactic(auto)]

mod bodies;
mod cache;
mod loading;
mod request;
mod requests;
mod signed;

use miniserde::Result;
use miniserde::json::{from_str, to_string};
use refused::wrong_field;
use request::Request;
use settings::parts::Host;
use settings::types::Settings;
use signed::Known;
use std::alloc::Global;
use std::collections::BTreeMap;
use std::io;

/// Two documents that say the same, the first one cached: what the cache has for the second.
fn run_cache(alloc: Global) -> Result<Option<u64>> {
    let mut answers = BTreeMap::new(alloc);
    cache::insert(alloc, &mut answers, "{\"b\": 2, \"a\": \"\\u0061\"}", 7)?;
    cache::find(alloc, &answers, " {\"a\":\"a\",\"b\":2}")
}

/// Puts the request of a body into a store, and returns the text of the one that is found there.
fn found(alloc: Global, body: &str) -> Result<Option<String>> {
    let request: Request = from_str(alloc, body)?;
    let mut rows = BTreeMap::new(alloc);
    requests::put(alloc, &mut rows, 1, &request)?;
    match requests::find(alloc, &rows, 1)? {
        Some(found) => Ok(Some(to_string(alloc, &found)?)),
        None => Ok(None),
    }
}

/// Returns the text of the host of a body, if the canonical text of the body is the one that was signed.
fn run_host(alloc: Global, signed: &str, body: &str) -> Result<Option<String>> {
    let signature = Known {
        text: String::from_str(alloc, signed)?,
    };
    match signed::accepted::<Host, Known>(alloc, &signature, body)? {
        Some(host) => Ok(Some(to_string(alloc, &host)?)),
        None => Ok(None),
    }
}

/// Two bodies, and what a client signed: the canonical text of the first one.
const SAME: &str = r#" {"weight": 5, "of": [], "host": "\u0062"}"#;

const OTHER: &str = r#"{"host":"b","of":[],"weight":50}"#;

const SIGNED: &str = r#"{"host":"b","of":[],"weight":5}"#;

/// Returns whether a body of more than four kilobytes is accepted if its canonical text was signed.
fn is_large_body_accepted(alloc: Global) -> Result<bool> {
    let mut name = String::new(alloc);
    for _ in 0..5000 {
        name.push_str("n")?;
    }
    let signed = format!(in alloc; "{{\"host\":\"{name}\",\"weight\":5}}")?;
    let body = format!(in alloc; " {{\"weight\":5,\"host\":\"{name}\"}}")?;
    match run_host(alloc, signed.as_str(), body.as_str())? {
        Some(host) => Ok(host.as_str() == signed.as_str()),
        None => Ok(false),
    }
}

/// Prints the hosts of bodies whose canonical text was signed.
fn tell_hosts(rt: &HostRuntime) -> io::Result<()> {
    for body in [SAME, OTHER] {
        match run_host(rt.alloc(), SIGNED, body) {
            Ok(Some(host)) => println!(rt; "signed: {host}")?,
            Ok(None) => println!(rt; "signed: nothing")?,
            Err(error) => println!(rt; "signed: {error}")?,
        }
    }
    match is_large_body_accepted(rt.alloc()) {
        Ok(accepted) => println!(rt; "signed, and large: {accepted}")?,
        Err(error) => println!(rt; "signed, and large: {error}")?,
    }
    Ok(())
}

/// Settings: six with a field that is wrong, good ones, and a text that is no JSON.
const TEXTS: &str = r#"{"name":7,"port":80,"hosts":[],"limits":{}}
{"name":"a","port":"x","port":80,"hosts":[],"limits":{}}
{"name":"a","port":80,"tls":7,"hosts":[],"limits":{}}
{"name":"a","port":80,"tls":{"cert":""},"hosts":[],"limits":{}}
{"name":"a","port":80,"limits":{}}
{"name":"a","port":80,"hosts":[],"limits":{"x":-1}}
{"name":"a","port":80,"hosts":[],"limits":{}}
{"name":"a","port":80"#;

/// Prints for each text the path to the field that is wrong.
fn tell(rt: &HostRuntime) -> io::Result<()> {
    for text in TEXTS.lines() {
        match wrong_field::<Settings>(rt.alloc(), text) {
            Ok(Some(path)) => println!(rt; "wrong: {path}")?,
            Ok(None) => println!(rt; "wrong: nothing")?,
            Err(error) => println!(rt; "wrong: {error}")?,
        }
    }
    Ok(())
}

fn main(rt: HostRuntime) -> io::Result<()> {
    let alloc = rt.alloc();
    let text =
        "{\"port\":80,\"name\":\"a\",\"hosts\":[{\"host\":\"h\",\"weight\":1}],\"limits\":{\"x\":5}}";
    match loading::set_port(alloc, text, 8080) {
        Ok(settings) => println!(rt; "settings: {settings}")?,
        Err(error) => println!(rt; "settings: {error}")?,
    }
    match run_cache(alloc) {
        Ok(Some(answer)) => println!(rt; "cache: {answer}")?,
        Ok(None) => println!(rt; "cache: nothing")?,
        Err(error) => println!(rt; "cache: {error}")?,
    }
    let body = "{\"besides\":{\"b\":[1.50],\"a\":null},\"items\":{\"nails\":100},\"client\":\"c\"}";
    match bodies::add_note(alloc, body, "by noon") {
        Ok(request) => println!(rt; "request: {request}")?,
        Err(error) => println!(rt; "request: {error}")?,
    }
    match found(alloc, body) {
        Ok(Some(found)) => println!(rt; "found: {found}")?,
        Ok(None) => println!(rt; "found: nothing")?,
        Err(error) => println!(rt; "found: {error}")?,
    }
    tell_hosts(&rt)?;
    tell(&rt)
}
