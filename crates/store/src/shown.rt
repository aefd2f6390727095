//! What a response shows of a text: the text with its tag, or only that it is there.
ghost use Rattle.std.specs.Prelude.{◌≡◌, ◌⊎◌, [], ◌∷◌, ℕ, List, true, false, IfOk, OnOk, Some};
ghost use Rattle.http_server.specs.Response.{IsBlank, IsResponse};
ghost use Rattle.store.specs.Answered.{entity_tag, json_field, shown_fields, etag_field, condition_on};
ghost use Rattle.store.specs.Answered.{is_bare, ShownBy, Shows, IsStatus};

use crate::conditions::{Condition, judge, judge_any, wants_none};
use bytes::BufMut;
use http::{HeaderMap, HeaderValue, Method, StatusCode, header};
use http_header::HeaderValueError;
use http_server::Response;
use sha2::{Digest, Sha256};
use std::alloc::{AllocError, Global};

// Returns the strong entity tag of a text.
fn entity_tag(alloc: Global, text: &str) -> Result<HeaderValue, HeaderValueError>
    ensures { IfOk result (λ tag. tag.bytes ≡ entity_tag text.now) }
{
    let digest = Sha256::digest(text.as_bytes());
    let hex = hex::encode(alloc, digest.as_slice())?;
    let mut tag = String::new(alloc);
    tag.push_str("\"")?;
    tag.push_str(hex.as_str())?;
    tag.push_str("\"")?;
    HeaderValue::from_string(tag)
}

/// Returns what the conditions of a request say of an entry of this text. Calculates its tag only if they depend on it.
pub fn judged(alloc: Global, headers: &HeaderMap, text: &str) -> Result<Condition, HeaderValueError>
    ensures { IfOk result (λ c. c ≡ condition_on headers.now (Some text.now)) }
{
    if let Some(condition) = judge_any(headers) {
        return Ok(condition);
    }
    let tag = entity_tag(alloc, text)?;
    Ok(judge(headers, tag.as_bytes()))
}

/// Returns whether the response to a read has no body and no tag: the method is HEAD, or `If-None-Match` is `*`.
pub fn is_bare(method: &Method, headers: &HeaderMap) -> bool
    ensures { result ≡ is_bare method.now headers.now }
{
    method.as_str() == "HEAD" || wants_none(headers)
}

// Fills the response whose body is a JSON text of this tag.
fn json_body(tag: HeaderValue, text: &str, response: &mut Response) -> Result<(), AllocError>
    requires blank { IsBlank response.old }
    requires tag { tag.bytes ≡ entity_tag text.now }
    ensures { OnOk result (IsResponse 200 (shown_fields text.now) text.now response.new) }
{
    let value = HeaderValue::from_static("application/json");
    response.add_header(header::CONTENT_TYPE, value)?;
    response.add_header(header::ETAG, tag)?;
    response.body.put_slice(text.as_bytes())?;
    Ok(())
}

// Fills the response to a client that has the text of this tag (RFC 9110, section 15.4.5).
fn not_modified(tag: HeaderValue, response: &mut Response) -> Result<(), AllocError>
    requires { IsBlank response.old }
    ensures { OnOk result (IsResponse 304 (etag_field tag.bytes ∷ []) [] response.new) }
{
    response.status = StatusCode::NOT_MODIFIED;
    response.add_header(header::ETAG, tag)?;
    Ok(())
}

// Fills the response that says that a text is JSON, without the text or its tag.
fn json_head(response: &mut Response) -> Result<(), AllocError>
    requires { IsBlank response.old }
    ensures { OnOk result (IsResponse 200 (json_field ∷ []) [] response.new) }
{
    let value = HeaderValue::from_static("application/json");
    response.add_header(header::CONTENT_TYPE, value)
}

// Fills the response to a read that shows no text and no tag, as the conditions of the request say.
fn fill_bare(condition: Condition, response: &mut Response) -> Result<(), AllocError>
    requires { IsBlank response.old }
    ensures { OnOk result ((text : List ℕ) → ShownBy true condition text response.new) }
{
    match condition {
        Condition::Met => json_head(response)?,
        Condition::Cached => response.status = StatusCode::NOT_MODIFIED,
        Condition::Failed => response.status = StatusCode::PRECONDITION_FAILED,
    }
    Ok(())
}

// Fills the response to a read of a text with the text and its tag, as the conditions of the request say.
fn fill_whole(
    alloc: Global,
    headers: &HeaderMap,
    text: &str,
    response: &mut Response,
) -> Result<(), HeaderValueError>
    requires { IsBlank response.old }
    ensures { OnOk result (Shows false headers.now (Some text.now) response.new) }
{
    let tag = entity_tag(alloc, text)?;
    match judge(headers, tag.as_bytes()) {
        Condition::Met => json_body(tag, text, response)?,
        Condition::Cached => not_modified(tag, response)?,
        Condition::Failed => response.status = StatusCode::PRECONDITION_FAILED,
    }
    Ok(())
}

// Fills the response to a read of a text, as the conditions of the request say.
fn fill(
    alloc: Global,
    is_bare: bool,
    headers: &HeaderMap,
    text: &str,
    response: &mut Response,
) -> Result<(), HeaderValueError>
    requires { IsBlank response.old }
    ensures { OnOk result (Shows is_bare headers.now (Some text.now) response.new) }
{
    if !is_bare {
        return fill_whole(alloc, headers, text, response);
    }
    let condition = judged(alloc, headers, text)?;
    fill_bare(condition, response)?;
    Ok(())
}

/// Fills the response to a request that failed for the database or for memory.
pub fn unavailable(response: &mut Response)
    ensures { IsStatus 503 response.new }
{
    response.clear();
    response.status = StatusCode::SERVICE_UNAVAILABLE;
}

/// Shows a text, or says that the server is unavailable. If `is_bare`, the response has no body and no tag.
pub fn show(alloc: Global, is_bare: bool, headers: &HeaderMap, text: &str, response: &mut Response)
    requires { IsBlank response.old }
    ensures { Shows is_bare headers.now (Some text.now) response.new ⊎ IsStatus 503 response.new }
{
    if fill(alloc, is_bare, headers, text, response).is_err() {
        unavailable(response);
    }
}

/// Shows what is there, without its text or tag, or says that the server is unavailable.
pub fn show_bare(condition: Condition, response: &mut Response)
    requires { IsBlank response.old }
    ensures { ((text : List ℕ) → ShownBy true condition text response.new) ⊎ IsStatus 503 response.new }
{
    if fill_bare(condition, response).is_err() {
        unavailable(response);
    }
}
