//! Accounts by the four forms of a UUID's text (RFC 9562, section 4, and the forms of Rust's crate `uuid`), and texts
//! that are none.

use crate::callers::{accounts_are_stable, id_of, same_account};
use crate::ids::{Account, AccountId};
use crate::releases::Release;
use crate::requests::{RequestError, addressed};
use crate::uploads::{Blob, Day, Upload};
use miniserde::json::{feed, from_str, to_string};
use miniserde::{Deserialize, Error, Result, Serialize};
use std::alloc::Global;
use std::test::Fail;
use test_tables::{Wrong, expect_read_itself, expect_round_trip};

const IDS: &str = r#""67e55044-10b1-426f-9247-bb680e5fe0c8" => same
"67E55044-10B1-426F-9247-BB680E5FE0C8" => "67e55044-10b1-426f-9247-bb680e5fe0c8"
"67e5504410b1426f9247bb680e5fe0c8" => "67e55044-10b1-426f-9247-bb680e5fe0c8"
"urn:uuid:67e55044-10b1-426f-9247-bb680e5fe0c8" => "67e55044-10b1-426f-9247-bb680e5fe0c8"
"{67e55044-10b1-426f-9247-bb680e5fe0c8}" => "67e55044-10b1-426f-9247-bb680e5fe0c8"
"\u0036\u0037e55044-10b1-426f-9247-bb680e5fe0c8" => "67e55044-10b1-426f-9247-bb680e5fe0c8"
""
"67e55044-10b1-426f-9247-bb680e5fe0c"
"67e55044-10b1-426f-9247-bb680e5fe0cg"
"67e55044-10b1-426f9247-bb680e5fe0c8"
" 67e55044-10b1-426f-9247-bb680e5fe0c8"
7
null
["67e55044-10b1-426f-9247-bb680e5fe0c8"]"#;

const ACCOUNTS: &str =
    r#"{"id":"67e55044-10b1-426f-9247-bb680e5fe0c8","name":"a","parent":null} => same
{"name":"","id":"{67E55044-10B1-426F-9247-BB680E5FE0C8}"} => {"id":"67e55044-10b1-426f-9247-bb680e5fe0c8","name":"","parent":null}
{"id":null,"name":"a"}
{"name":"a"}
{"id":"67e55044-10b1-426f-9247-bb680e5fe0c8","name":"a","parent":""}"#;

// Versions as https://semver.org has them (its grammar, and its list of texts that are none).
const RELEASES: &str = r#""1.0.0" => same
"1.2.3-alpha.1+build.5" => same
"\u0031.0.0" => "1.0.0"
"1.0"
"1.0.0-01"
"01.0.0"
"v1.0.0"
""
1.0
null"#;

#[test]
fn texts_of_identifiers_and_releases(rt: HostRuntime) -> std::result::Result<(), Wrong> {
    expect_read_itself::<AccountId>(rt.alloc(), IDS)?;
    expect_read_itself::<Account>(rt.alloc(), ACCOUNTS)?;
    expect_round_trip::<Release>(rt.alloc(), RELEASES)
}

// Returns the text of the value that a type's place takes from a text.
fn by_events<T: Deserialize + Serialize>(alloc: Global, text: &str) -> Result<String> {
    let mut place = <T as Deserialize>::begin(alloc)?;
    feed(alloc, text, &mut place)?;
    let value = <T as Deserialize>::take(place)?;
    to_string(alloc, &value)
}

#[test]
fn calls_and_places(rt: HostRuntime) -> std::result::Result<(), Fail> {
    let alloc = rt.alloc();
    let text = "{\"id\":\"67e55044-10b1-426f-9247-bb680e5fe0c8\",\"name\":\"a\",\"parent\":null}";
    accounts_are_stable();
    let account: Account = from_str(alloc, text)?;
    let again = same_account(alloc, &account)?;
    assert_eq!(rt; to_string(alloc, &again)?.as_str(), text);
    let id = "\"67e55044-10b1-426f-9247-bb680e5fe0c8\"";
    assert_eq!(rt; to_string(alloc, &id_of(alloc, text)?)?.as_str(), id);
    assert_eq!(rt; by_events::<AccountId>(alloc, id)?.as_str(), id);
    assert!(rt; by_events::<AccountId>(alloc, "\"a\"").is_err());
    let release: Release = from_str(alloc, "\"1.2.3-a\"")?;
    assert_eq!(rt; release.0.version().minor, 2);
    Ok(())
}

#[test]
fn an_error_says_which_part_is_refused(rt: HostRuntime) -> std::result::Result<(), Fail> {
    let alloc = rt.alloc();
    let path = "67e55044-10b1-426f-9247-bb680e5fe0c8";
    let body = "{\"id\":\"67e55044-10b1-426f-9247-bb680e5fe0c8\",\"name\":\"a\"}";
    let (id, account) = addressed(alloc, path, body)?;
    assert!(rt; id.0 == account.id.0);
    assert!(rt; matches!(addressed(alloc, "7", body), Err(RequestError::Path(_))));
    let refused = addressed(alloc, path, "7").err();
    assert!(rt; refused == Some(RequestError::Body(Error::Invalid)));
    Ok(())
}

const DAYS: &str = r#""2026-11-30" => same
"2024-02-29" => same
"0001-01-01" => same
"-000044-03-15" => same
"\u0032026-11-30" => "2026-11-30"
"2026-02-29"
"2026-13-01"
"2026-11-31"
"30.11.2026"
""
20261130
null"#;

// RFC 4648, section 10; without its padding, and with bits behind the last byte, a text is none.
const BLOBS: &str = r#""" => same
"Zg==" => same
"Zm8=" => same
"Zm9v" => same
"Zm9vYg==" => same
"Zm9vYmE=" => same
"Zm9vYmFy" => same
"\u005Ag==" => "Zg=="
"Zg"
"Zg="
"Zh=="
"Zm9v\n"
"Zm-v"
[102]
null"#;

const UPLOADS: &str = r#"{"content":"Zm9v","day":"2026-11-30"} => same
{"day":"2026-11-30","content":""} => {"content":"","day":"2026-11-30"}
{"content":"Zm9v","day":"2026-11-32"}
{"content":"Zm9v"}"#;

#[test]
fn days_and_bytes_are_read_and_written(rt: HostRuntime) -> std::result::Result<(), Wrong> {
    expect_read_itself::<Day>(rt.alloc(), DAYS)?;
    expect_read_itself::<Blob>(rt.alloc(), BLOBS)?;
    expect_read_itself::<Upload>(rt.alloc(), UPLOADS)
}
