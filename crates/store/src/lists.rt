//! The first entries from a key on, as one JSON object.
ghost use Rattle.std.specs.Prelude.{◌≡◌, ◌⊎◌, ◌++◌, [], ◌∷◌, ℕ, ◌<◌, ◌==◌, map, length, codes, Some, MatchOption, IfOk, OnOk, OnErr};
ghost use Rattle.std.specs.Prelude.{if◌then◌else◌, option_map, unwrap_or, String, string_bytes};
ghost use Rattle.std.specs.Global.{Global};
ghost use Rattle.std.specs.List.{slice_index_or};
ghost use Rattle.http_server.specs.Response.{IsBlank, IsResponse};
ghost use Rattle.sqlite.specs.Held.{state};
ghost use Rattle.rows.specs.Entries.{texts_of};
ghost use Rattle.store.specs.Lists as spec;
ghost use Rattle.store.specs.Lists.{IsLimit, member_text, object_text};
ghost use Rattle.store.specs.Answered.{allow_list_field, problem_field, limit_problem, IsStatus, Shows};
ghost use Rattle.store.specs.Answered.{outcome, ShowsAny, ListsFrom, Lists, AnsweredList, Goes};

use crate::conditions::{Condition, judge_any};
use crate::entries::bad_request;
use crate::reason::details;
use crate::routes::is_read;
use crate::shown::{is_bare, show, show_bare, unavailable};
use bytes::Bytes;
use form_urlencoded::parse;
use http::{HeaderMap, HeaderValue, Request, StatusCode, header};
use http_server::Response;
use miniserde::ser::escape_str;
use rows::pages::page_from;
use sqlite::{Alter, Connection};
use std::alloc::{AllocError, Global};

/// How many entries a list has at most, if the request does not say so.
const DEFAULT_LIMIT: u32 = 100;

/// How many entries a request may ask for.
const MAX_LIMIT: u32 = 1000;

/// Before its last entry, a page has fewer bytes of keys and texts than this.
const MAX_PAGE_BYTES: usize = 64 * 1024;

// Returns the value of the first parameter of a name in a query, or `None` if there is none.
fn parameter(alloc: Global, query: &str, name: &str) -> Result<Option<String>, AllocError>
    ensures { IfOk result (λ found. option_map string_bytes found ≡ spec.parameter name.now query.now) }
{
    for pair in parse(alloc, query.as_bytes()).into_owned() {
        let (given, value) = pair?;
        if given.as_str() == name {
            return Ok(Some(value));
        }
    }
    Ok(None)
}

// Returns the limit of this text, or `None` if it is no limit.
fn read_limit(text: &str) -> Option<u32>
    ensures { MatchOption result ((limit : ℕ) → IsLimit (Some text.now) limit → ⊥) (λ limit. IsLimit (Some text.now) limit) }
{
    let Ok(limit) = text.parse::<u32>() else {
        return None;
    };
    if limit == 0 {
        return None;
    }
    if limit > MAX_LIMIT {
        return None;
    }
    Some(limit)
}

// Returns the limit that a request gives, or `None` if that is none.
fn limit_of(given: &Option<String>) -> Option<u32>
    ensures { MatchOption result ((limit : ℕ) → IsLimit (option_map string_bytes given.now) limit → ⊥)
        (λ limit. IsLimit (option_map string_bytes given.now) limit) }
{
    match given {
        Some(text) => read_limit(text.as_str()),
        None => Some(DEFAULT_LIMIT),
    }
}

// Returns the key from which on a list is, if the request gives one, and else the least one.
fn start_of(given: &Option<String>) -> &str
    ensures { result.now ≡ unwrap_or (option_map string_bytes given.now) [] }
{
    match given {
        Some(key) => key.as_str(),
        None => "",
    }
}

// Returns what stands before a member of an object.
fn separator(is_first: bool) -> &'static str
    ensures { result.now ≡ (if is_first then [] else codes ",") }
{
    if is_first { "" } else { "," }
}

// Appends the member of an entry to an object, behind a comma unless it is the first.
fn append_member(text: &mut String, entries: &[(String, String)], i: usize) -> miniserde::Result<()>
    requires { i < length entries.now }
    ensures { (entry : String Global × String Global) → entry ≡ slice_index_or entries.now i entry → OnOk result
        (string_bytes text.new ≡ string_bytes text.old ++ (if i == 0 then [] else codes ",") ++ member_text (texts_of entry)) }
{
    let (name, body) = &entries[i];
    text.push_str(separator(i == 0))?;
    escape_str(name.as_str(), text)?;
    text.push_str(":")?;
    text.push_str(body.as_str())?;
    Ok(())
}

// Returns the object of entries.
fn object_of(alloc: Global, entries: &[(String, String)]) -> miniserde::Result<String>
    ensures { IfOk result (λ text. string_bytes text ≡ object_text (map texts_of entries.now)) }
{
    let mut text = String::new(alloc);
    text.push_str("{")?;
    for i in 0..entries.len() {
        append_member(&mut text, entries, i)?;
    }
    text.push_str("}")?;
    Ok(text)
}

// Shows the object of entries, or says that the server is unavailable.
fn show_entries(
    alloc: Global,
    entries: &[(String, String)],
    is_bare: bool,
    headers: &HeaderMap,
    response: &mut Response,
)
    requires { IsBlank response.old }
    ensures { Shows is_bare headers.now (Some (object_text (map texts_of entries.now))) response.new ⊎ IsStatus 503 response.new }
{
    match object_of(alloc, entries) {
        Ok(text) => show(alloc, is_bare, headers, text.as_str(), response),
        Err(_) => response.status = StatusCode::SERVICE_UNAVAILABLE,
    }
}

// Shows a page of the entries from a key on.
fn page<S: Alter>(
    alloc: Global,
    conn: &mut Connection<S>,
    start: &str,
    limit: u32,
    is_bare: bool,
    headers: &HeaderMap,
    response: &mut Response,
)
    requires { IsBlank response.old }
    ensures { Goes (state S.Store conn.old) (state S.Store conn.new)
        (ListsFrom (outcome (state S.Store conn.old) response.new (state S.Store conn.new)) is_bare headers.now start.now limit) }
{
    match page_from(alloc, conn, start, limit, MAX_PAGE_BYTES) {
        Ok(entries) => show_entries(alloc, entries.as_slice(), is_bare, headers, response),
        Err(_) => response.status = StatusCode::SERVICE_UNAVAILABLE,
    }
}

// Shows what any page would be shown as, if the database can be read: it reads one entry, and makes no text.
fn any_page<S: Alter>(
    alloc: Global,
    conn: &mut Connection<S>,
    start: &str,
    condition: Condition,
    response: &mut Response,
)
    requires { IsBlank response.old }
    ensures { Goes (state S.Store conn.old) (state S.Store conn.new) (ShowsAny
        (outcome (state S.Store conn.old) response.new (state S.Store conn.new)) condition) }
{
    match page_from(alloc, conn, start, 1, 1) {
        Ok(entries) => {
            drop(entries);
            show_bare(condition, response)
        }
        Err(_) => response.status = StatusCode::SERVICE_UNAVAILABLE,
    }
}

// Shows the entries from a key on. If the response has no body, and its status does not depend on the entries, none is made a
// text.
fn list_from<S: Alter>(
    alloc: Global,
    conn: &mut Connection<S>,
    start: &str,
    limit: u32,
    is_bare: bool,
    headers: &HeaderMap,
    response: &mut Response,
)
    requires { IsBlank response.old }
    ensures { Goes (state S.Store conn.old) (state S.Store conn.new)
        (ListsFrom (outcome (state S.Store conn.old) response.new (state S.Store conn.new)) is_bare headers.now start.now limit) }
{
    if is_bare {
        if let Some(condition) = judge_any(headers) {
            any_page(alloc, conn, start, condition, response);
            return;
        }
    }
    page(alloc, conn, start, limit, is_bare, headers, response)
}

// Fills the response to a limit that is not valid.
fn fill_limit_problem(alloc: Global, response: &mut Response) -> miniserde::Result<()>
    requires { IsBlank response.old }
    ensures { OnOk result (IsResponse 400 (problem_field ∷ []) limit_problem response.new) }
{
    let details = details(alloc, "`limit` must be a number from 1 to 1000", &None)?;
    bad_request(details.as_str(), response)?;
    Ok(())
}

// Says that the limit is not valid, or that the server is unavailable.
fn refuse_limit(alloc: Global, response: &mut Response)
    requires { IsBlank response.old }
    ensures { IsResponse 400 (problem_field ∷ []) limit_problem response.new ⊎ IsStatus 503 response.new }
{
    if fill_limit_problem(alloc, response).is_err() {
        unavailable(response);
    }
}

// Shows the entries that a query asks for.
fn list<S: Alter>(
    alloc: Global,
    conn: &mut Connection<S>,
    query: &str,
    is_bare: bool,
    headers: &HeaderMap,
    response: &mut Response,
)
    requires { IsBlank response.old }
    ensures { Goes (state S.Store conn.old) (state S.Store conn.new)
        (Lists (outcome (state S.Store conn.old) response.new (state S.Store conn.new)) is_bare headers.now query.now) }
{
    let Ok(limit) = parameter(alloc, query, "limit") else {
        response.status = StatusCode::SERVICE_UNAVAILABLE;
        return;
    };
    let Ok(from) = parameter(alloc, query, "from") else {
        response.status = StatusCode::SERVICE_UNAVAILABLE;
        return;
    };
    match limit_of(&limit) {
        Some(limit) => list_from(
            alloc,
            conn,
            start_of(&from),
            limit,
            is_bare,
            headers,
            response,
        ),
        None => refuse_limit(alloc, response),
    }
}

// Fills the response to a method that the list does not allow (RFC 9110, section 15.5.6).
fn not_allowed(response: &mut Response) -> Result<(), AllocError>
    requires { IsBlank response.old }
    ensures { OnOk result (IsResponse 405 (allow_list_field ∷ []) [] response.new) }
{
    response.status = StatusCode::METHOD_NOT_ALLOWED;
    response.add_header(header::ALLOW, HeaderValue::from_static("GET, HEAD"))
}

/// Fills the response to a request for the list of entries. Returns an error if the field of a 405 cannot be allocated; the
/// connection is then as it was.
pub fn answer_list<S: Alter>(
    alloc: Global,
    conn: &mut Connection<S>,
    request: &Request<Bytes>,
    response: &mut Response,
) -> Result<(), AllocError>
    requires { IsBlank response.old }
    ensures ok { OnOk result (Goes (state S.Store conn.old) (state S.Store conn.new)
        (AnsweredList request.now (outcome (state S.Store conn.old) response.new (state S.Store conn.new)))) }
    ensures err { OnErr result (conn.new ≡ conn.old) }
{
    if !is_read(request.method()) {
        return not_allowed(response);
    }
    let query = request.uri().query().unwrap_or("");
    let headers = request.headers();
    let bare = is_bare(request.method(), headers);
    list(alloc, conn, query, bare, headers, response);
    Ok(())
}
