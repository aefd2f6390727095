//! Texts of servers, and the paths to the field that is wrong. A text that means a server, or is no JSON, has `none`, and
//! one that is no object has `document`. A dot in a name is told from one between two names.

use crate::servers::Server;
use refused::{FieldPath, wrong_field};
use std::alloc::Global;
use std::test::Fail;

const PATHS: &str =
    r#"{"server.name":"a","inner":{"cert":"c","verify":true},"range":{"most":1},"hosts":[]} => none
{"server.name":"a","inner":{"cert":"c","verify":true},"range":{"most":1},"hosts":[],"more":{}} => none
{"server.name":"a","inner":{"cert":"c","verify":true},"outer":null,"range":{"most":1},"hosts":[]} => none
{"server.name":"a","inner":{"cert":"c","verify":true},"range":{"most":1},"hosts":[ => none
{"server.name":"a","inner":{"cert":"c","verify":true},"range":{"most":1},"hosts":[],"":null,"settings":null} => none
{"server.name":"a","inner":{"cert":"c","verify":true},"range":{"most":1},"hosts":[],"settings":{"name":"a","port":1,"tls":null,"hosts":[],"limits":{}}} => none
{"server.name":"a","inner":{"cert":"c","verify":true},"range":{"most":1},"hosts":[],"":[]} => ""
nothing => none
7 => document
[] => document
{} => server\.name
{"server.name":null,"inner":7} => server\.name
{"name":"a","inner":7} => server\.name
{"server":{"name":"a"}} => server\.name
{"server.name":7,"server.name":"a","inner":{"cert":"c","verify":true},"range":{"most":1},"hosts":[]} => server\.name
{"server.name":"a","range":{"most":1},"hosts":[]} => inner
{"server.name":"a","inner":null,"range":{"most":1},"hosts":[]} => inner
{"server.name":"a","inner":[],"range":{"most":1},"hosts":[]} => inner
{"server.name":"a","inner":{},"range":{"most":1},"hosts":[]} => inner.cert
{"server.name":"a","inner":{"cert":7,"verify":7},"hosts":[]} => inner.cert
{"server.name":"a","inner":{"cert":"c","verify":7},"hosts":[]} => inner.verify
{"server.name":"a","inner":{"cert":"c","verify":true},"outer":null,"hosts":[]} => range
{"server.name":"a","inner":{"cert":"c","verify":true},"range":{},"hosts":[]} => range.most
{"server.name":"a","inner":{"cert":"c","verify":true},"range":{"most":1,"most":2},"hosts":[]} => range.most
{"server.name":"a","inner":{"cert":"c","verify":true},"range":{"most":1,"least":-1},"hosts":[]} => range.least
{"server.name":"a","inner":{"cert":"c","verify":true},"outer":7,"range":{"most":1},"hosts":[]} => outer
{"server.name":"a","inner":{"cert":"c","verify":true},"outer":{"cert":7},"outer":null,"range":{"most":1},"hosts":[]} => outer.cert
{"server.name":"a","inner":{"cert":"c","verify":true},"range":{"most":1},"hosts":[],"settings":[]} => settings
{"server.name":"a","inner":{"cert":"c","verify":true},"range":{"most":1},"hosts":[],"settings":{"name":"a"}} => settings.port
{"server.name":"a","inner":{"cert":"c","verify":true},"range":{"most":1},"hosts":[],"settings":{"name":"a","port":1,"tls":7,"hosts":[],"limits":{}}} => settings.tls
{"server.name":"a","inner":{"cert":"c","verify":true},"range":{"most":1},"hosts":[],"settings":{"name":"a","port":1,"tls":{},"hosts":[],"limits":{}}} => settings.tls.cert
{"server.name":"a","inner":{"cert":"c","verify":true},"range":{"most":1},"hosts":[],"settings":{"name":"a","port":1,"tls":{"cert":"c","verify":1,"verify":true},"hosts":[],"limits":{}}} => settings.tls.verify
{"server.name":"a","inner":{"cert":"c","verify":true},"range":{"most":1}} => hosts
{"server.name":"a","inner":{"cert":"c","verify":true},"range":{"most":1},"hosts":[{}]} => hosts"#;

// Returns whether the path to the field that is wrong is written so.
fn is_path(alloc: Global, text: &str, wanted: &str) -> Result<bool, Fail> {
    match wrong_field::<Server>(alloc, text)? {
        Some(path) if path.names.is_empty() => Ok(wanted == "document"),
        Some(path) => Ok(format!(in alloc; "{path}")?.as_str() == wanted),
        None => Ok(wanted == "none"),
    }
}

#[test]
fn a_path_leads_to_the_field_that_is_wrong(rt: HostRuntime) -> Result<(), Fail> {
    for line in PATHS.lines() {
        let (text, path) = line.split_once(" => ").unwrap_or((line, ""));
        assert!(rt; is_path(rt.alloc(), text, path)?, "{line}");
    }
    Ok(())
}

// Returns whether the path of these names is written so.
fn is_shown(alloc: Global, names: &[&'static str], wanted: &str) -> Result<bool, Fail> {
    let mut path = FieldPath::new(alloc);
    for name in names {
        path.names.push(*name)?;
    }
    Ok(format!(in alloc; "{path}")?.as_str() == wanted)
}

#[test]
fn another_path_has_another_text(rt: HostRuntime) -> Result<(), Fail> {
    let alloc = rt.alloc();
    assert!(rt; is_shown(alloc, FieldPath::new(alloc).names.as_slice(), "")?);
    assert!(rt; is_shown(alloc, [""].as_slice(), r#""""#)?);
    assert!(rt; is_shown(alloc, ["a", "b"].as_slice(), "a.b")?);
    assert!(rt; is_shown(alloc, ["a.b"].as_slice(), r"a\.b")?);
    assert!(rt; is_shown(alloc, ["a\\", "b"].as_slice(), r"a\\.b")?);
    assert!(rt; is_shown(alloc, ["\"\"", "", "ß c"].as_slice(), r#"\"\"."".ß c"#)?);
    Ok(())
}

// Returns whether the path to the field that is wrong has these names.
fn has_names(alloc: Global, text: &str, names: &[&str]) -> Result<bool, Fail> {
    match wrong_field::<Server>(alloc, text)? {
        Some(path) => Ok(path.names.as_slice() == names),
        None => Ok(false),
    }
}

#[test]
fn a_path_has_the_names_in_their_order(rt: HostRuntime) -> Result<(), Fail> {
    let alloc = rt.alloc();
    let text =
        r#"{"server.name":"a","inner":{"cert":"c","verify":true},"range":{"most":1},"hosts":[],"settings":{"name":"a","port":1,"tls":{},"hosts":[],"limits":{}}}"#;
    assert!(rt; has_names(alloc, text, ["settings", "tls", "cert"].as_slice())?);
    assert!(rt; has_names(alloc, "{}", ["server.name"].as_slice())?);
    assert!(rt; has_names(alloc, "[]", FieldPath::new(alloc).names.as_slice())?);
    Ok(())
}
