//! What a store does with one entry, and its response.
ghost use Rattle.std.specs.Prelude.{◌≡◌, ◌⊎◌, [], ◌∷◌, IfOk, OnOk, Err, Some, None, string_bytes};
ghost use Rattle.http_server.specs.Response.{IsBlank, IsResponse};
ghost use Rattle.miniserde.specs.declared.Error.TheVariants.{Invalid};
ghost use Rattle.sqlite.specs.Held.{state};
ghost use Rattle.store.specs.Answered.{allow_field, problem_field, condition_on};
ghost use Rattle.store.specs.Answered.{IsTextOf, MeansNoValue, IsProblem, IsStatus};
ghost use Rattle.store.specs.Answered.{codec, outcome, IfMet, Reads, PutsAs, PutsValue, PutsOver, Puts};
ghost use Rattle.store.specs.Answered.{TakesRow, RemovesOver, Removes, Goes};

use crate::conditions::{Condition, allows_new};
use crate::explain::Explain;
use crate::reason::problem_text;
use crate::shown::{judged, show, unavailable};
use bytes::BufMut;
use http::{HeaderMap, HeaderValue, StatusCode, header};
use http_server::Response;
use miniserde::json::{canonical_of, from_slice};
use miniserde::{Error, FromJson, Lossless, Stable};
use rows::texts;
use sqlite::{Alter, Connection};
use std::alloc::{AllocError, Global};

/// Fills the response to a method that is not allowed (RFC 9110, section 15.5.6).
pub fn not_allowed(response: &mut Response) -> Result<(), AllocError>
    requires { IsBlank response.old }
    ensures { OnOk result (IsResponse 405 (allow_field ∷ []) [] response.new) }
{
    response.status = StatusCode::METHOD_NOT_ALLOWED;
    response.add_header(
        header::ALLOW,
        HeaderValue::from_static("GET, HEAD, PUT, DELETE"),
    )
}

/// Shows the body of a key, as the conditions of the request say. If `is_bare`, the response has no body and no tag.
pub fn read<S: Alter>(
    alloc: Global,
    conn: &mut Connection<S>,
    key: &str,
    is_bare: bool,
    headers: &HeaderMap,
    response: &mut Response,
)
    requires { IsBlank response.old }
    ensures { Goes (state S.Store conn.old) (state S.Store conn.new)
        (Reads (outcome (state S.Store conn.old) response.new (state S.Store conn.new)) is_bare headers.now key.now) }
{
    match texts::get(conn, key) {
        Ok(Some(body)) => show(alloc, is_bare, headers, body.as_str(), response),
        Ok(None) => response.status = StatusCode::NOT_FOUND,
        Err(_) => response.status = StatusCode::SERVICE_UNAVAILABLE,
    }
}

// Puts a text under a key, with this status if that is done.
fn put_as<S: Alter>(
    conn: &mut Connection<S>,
    key: &str,
    text: &str,
    status: StatusCode,
    response: &mut Response,
)
    requires { IsBlank response.old }
    ensures { Goes (state S.Store conn.old) (state S.Store conn.new)
        (PutsAs (outcome (state S.Store conn.old) response.new (state S.Store conn.new)) key.now text.now status) }
{
    match texts::put(conn, key, text) {
        Ok(_) => response.status = status,
        Err(_) => response.status = StatusCode::SERVICE_UNAVAILABLE,
    }
}

// Returns the canonical text of the value that a body means. Returns `Invalid` if it means none, and `Memory` if an
// allocation fails.
fn text_of<V: Stable + Lossless>(alloc: Global, body: &[u8]) -> miniserde::Result<String>
    ensures ok { IfOk result (λ text. IsTextOf (codec V.means V.tree) body.now (string_bytes text)) }
    ensures invalid { result ≡ Err Invalid → MeansNoValue V.means body.now }
{
    let value: V = from_slice(alloc, body)?;
    canonical_of(alloc, &value)
}

/// Fills the response to a bad request, whose body is the details of the problem (RFC 9457).
pub fn bad_request(details: &str, response: &mut Response) -> Result<(), AllocError>
    requires { IsBlank response.old }
    ensures { OnOk result (IsResponse 400 (problem_field ∷ []) details.now response.new) }
{
    let value = HeaderValue::from_static("application/problem+json");
    response.status = StatusCode::BAD_REQUEST;
    response.add_header(header::CONTENT_TYPE, value)?;
    response.body.put_slice(details.as_bytes())?;
    Ok(())
}

// Fills the response to a body that means no value: it says why (RFC 9457).
fn fill_problem<V: FromJson, E: Explain<V>>(
    alloc: Global,
    body: &[u8],
    response: &mut Response,
) -> miniserde::Result<()>
    requires blank { IsBlank response.old }
    requires meaning { MeansNoValue V.means body.now }
    ensures { OnOk result (IsProblem V.means body.now response.new) }
{
    let reason = E::explain(alloc, body)?;
    let details = problem_text(alloc, &reason)?;
    bad_request(details.as_str(), response)?;
    Ok(())
}

// Says why a body means no value, or that the server is unavailable.
fn explained<V: FromJson, E: Explain<V>>(alloc: Global, body: &[u8], response: &mut Response)
    requires blank { IsBlank response.old }
    requires meaning { MeansNoValue V.means body.now }
    ensures { (MeansNoValue V.means body.now × IsProblem V.means body.now response.new) ⊎ IsStatus 503 response.new }
{
    if fill_problem::<V, E>(alloc, body, response).is_err() {
        unavailable(response);
    }
}

// Puts the value of a body under a key, with this status if that is done.
fn put_value<S: Alter, V: Stable + Lossless, E: Explain<V>>(
    alloc: Global,
    conn: &mut Connection<S>,
    key: &str,
    body: &[u8],
    status: StatusCode,
    response: &mut Response,
)
    requires { IsBlank response.old }
    ensures { Goes (state S.Store conn.old) (state S.Store conn.new) (PutsValue (codec V.means V.tree)
        (outcome (state S.Store conn.old) response.new (state S.Store conn.new)) key.now body.now status) }
{
    match text_of::<V>(alloc, body) {
        Ok(text) => put_as(conn, key, text.as_str(), status, response),
        Err(Error::Invalid) => explained::<V, E>(alloc, body, response),
        Err(Error::Memory) => response.status = StatusCode::SERVICE_UNAVAILABLE,
    }
}

// Puts the value of a body under a key that has none, if the conditions of the request allow it.
fn create<S: Alter, V: Stable + Lossless, E: Explain<V>>(
    alloc: Global,
    conn: &mut Connection<S>,
    key: &str,
    headers: &HeaderMap,
    body: &[u8],
    response: &mut Response,
)
    requires { IsBlank response.old }
    ensures { Goes (state S.Store conn.old) (state S.Store conn.new) (IfMet (condition_on headers.now None)
        (outcome (state S.Store conn.old) response.new (state S.Store conn.new)) (PutsOver (codec V.means V.tree)
        (outcome (state S.Store conn.old) response.new (state S.Store conn.new)) key.now body.now None)) }
{
    if allows_new(headers) {
        put_value::<S, V, E>(alloc, conn, key, body, StatusCode::CREATED, response);
    } else {
        response.status = StatusCode::PRECONDITION_FAILED;
    }
}

// Puts the value of a body under a key that has a text, if the conditions of the request hold for that.
fn replace<S: Alter, V: Stable + Lossless, E: Explain<V>>(
    alloc: Global,
    conn: &mut Connection<S>,
    key: &str,
    before: &str,
    headers: &HeaderMap,
    body: &[u8],
    response: &mut Response,
)
    requires { IsBlank response.old }
    ensures { Goes (state S.Store conn.old) (state S.Store conn.new) (IfMet (condition_on headers.now (Some before.now))
        (outcome (state S.Store conn.old) response.new (state S.Store conn.new)) (PutsOver (codec V.means V.tree)
        (outcome (state S.Store conn.old) response.new (state S.Store conn.new)) key.now body.now (Some before.now))) }
{
    let Ok(condition) = judged(alloc, headers, before) else {
        response.status = StatusCode::SERVICE_UNAVAILABLE;
        return;
    };
    if condition == Condition::Met {
        put_value::<S, V, E>(alloc, conn, key, body, StatusCode::NO_CONTENT, response);
    } else {
        response.status = StatusCode::PRECONDITION_FAILED;
    }
}

/// Puts the value of a body under a key, if the conditions of the request hold.
pub fn put<S: Alter, V: Stable + Lossless, E: Explain<V>>(
    alloc: Global,
    conn: &mut Connection<S>,
    key: &str,
    headers: &HeaderMap,
    body: &[u8],
    response: &mut Response,
)
    requires { IsBlank response.old }
    ensures { Goes (state S.Store conn.old) (state S.Store conn.new) (Puts (codec V.means V.tree)
        (outcome (state S.Store conn.old) response.new (state S.Store conn.new)) headers.now key.now body.now) }
{
    match texts::get(conn, key) {
        Ok(Some(before)) => {
            replace::<S, V, E>(alloc, conn, key, before.as_str(), headers, body, response)
        }
        Ok(None) => create::<S, V, E>(alloc, conn, key, headers, body, response),
        Err(_) => response.status = StatusCode::SERVICE_UNAVAILABLE,
    }
}

// Removes the row of a key that has one.
fn take<S: Alter>(conn: &mut Connection<S>, key: &str, response: &mut Response)
    requires { IsBlank response.old }
    ensures { Goes (state S.Store conn.old) (state S.Store conn.new)
        (TakesRow (outcome (state S.Store conn.old) response.new (state S.Store conn.new)) key.now) }
{
    match texts::remove(conn, key) {
        Ok(_) => response.status = StatusCode::NO_CONTENT,
        Err(_) => response.status = StatusCode::SERVICE_UNAVAILABLE,
    }
}

// Removes the row of a key that has a text, if the conditions of the request hold for that.
fn take_if<S: Alter>(
    alloc: Global,
    conn: &mut Connection<S>,
    key: &str,
    before: &str,
    headers: &HeaderMap,
    response: &mut Response,
)
    requires { IsBlank response.old }
    ensures { Goes (state S.Store conn.old) (state S.Store conn.new) (RemovesOver (outcome (state S.Store conn.old) response.new (state S.Store conn.new))
        headers.now key.now (Some before.now)) }
{
    let Ok(condition) = judged(alloc, headers, before) else {
        response.status = StatusCode::SERVICE_UNAVAILABLE;
        return;
    };
    if condition == Condition::Met {
        take(conn, key, response);
    } else {
        response.status = StatusCode::PRECONDITION_FAILED;
    }
}

/// Removes the row of a key, if the conditions of the request hold.
pub fn remove<S: Alter>(
    alloc: Global,
    conn: &mut Connection<S>,
    key: &str,
    headers: &HeaderMap,
    response: &mut Response,
)
    requires { IsBlank response.old }
    ensures { Goes (state S.Store conn.old) (state S.Store conn.new)
        (Removes (outcome (state S.Store conn.old) response.new (state S.Store conn.new)) headers.now key.now) }
{
    match texts::get(conn, key) {
        Ok(Some(before)) => take_if(alloc, conn, key, before.as_str(), headers, response),
        Ok(None) => response.status = StatusCode::NOT_FOUND,
        Err(_) => response.status = StatusCode::SERVICE_UNAVAILABLE,
    }
}
