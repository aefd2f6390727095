//! Which requests are for an entry, and by which method.
ghost use Rattle.std.specs.Prelude.{◌≡◌, ◌↔◌, List, ℕ, Ok, None, IfOk, IfSome, IsTrue, string_bytes};
ghost use Rattle.store.specs.Routes.{IsEntry, IsRead, IsOther, put_method, delete_method};
ghost use Rattle.store.specs.Lists.{IsList};

use http::Method;
use percent_encoding::percent_decode;
use std::alloc::{AllocError, Global};

/// The path of the list of entries.
const LIST: &str = "/entries";

/// What the path of an entry begins with.
const ENTRIES: &[u8] = b"/entries/";

/// What a request does with an entry.
#[derive(Clone, Copy, PartialEq, Eq, Debug, Drop)]
pub enum Verb {
    /// It reads the entry.
    Read,
    /// It puts a value.
    Put,
    /// It removes the entry.
    Delete,
    /// It does what no entry allows.
    Other,
}

/// Returns the key of the path of an entry, or `None` if the path is not one.
pub fn entry_key(alloc: Global, path: &str) -> Result<Option<String>, AllocError>
    ensures some { IfOk result (λ found. IfSome found (λ key. IsEntry path.now (string_bytes key))) }
    ensures none { result ≡ Ok None → (key : List ℕ) → IsEntry path.now key → ⊥ }
{
    let Some(rest) = path.as_bytes().strip_prefix(ENTRIES) else {
        return Ok(None);
    };
    let mut key = Vec::new(alloc);
    percent_decode(rest).append_to(&mut key)?;
    if key.is_empty() {
        return Ok(None);
    }
    match String::from_utf8(key) {
        Ok(key) => Ok(Some(key)),
        Err(_) => Ok(None),
    }
}

/// Returns whether a path is that of the list of entries.
pub fn is_list(path: &str) -> bool
    ensures { IsTrue result ↔ IsList path.now }
{
    path == LIST
}

// Whether a method has this name.
fn is(method: &Method, name: &str) -> bool
    ensures { IsTrue result ↔ (method.now ≡ name.now) }
{
    method.as_str() == name
}

/// Returns whether a request of this method reads.
pub fn is_read(method: &Method) -> bool
    ensures { IsTrue result ↔ IsRead method.now }
{
    is(method, "GET") || is(method, "HEAD")
}

/// Returns what a request of this method does with an entry.
pub fn verb_of(method: &Method) -> Verb
    ensures read { result ≡ Verb.Read → IsRead method.now }
    ensures put { result ≡ Verb.Put → method.now ≡ put_method }
    ensures delete { result ≡ Verb.Delete → method.now ≡ delete_method }
    ensures other { result ≡ Verb.Other → IsOther method.now }
{
    if is_read(method) {
        Verb::Read
    } else if is(method, "PUT") {
        Verb::Put
    } else if is(method, "DELETE") {
        Verb::Delete
    } else {
        Verb::Other
    }
}
