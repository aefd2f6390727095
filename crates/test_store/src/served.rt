//! A store over HTTP, of one connection.

use http_server::Config;
use rows::texts;
use sqlite::{Alter, Connection};
use std::hash::RandomState;
use std::test::Fail;
use store::hosts::local_hosts;
use store::laws::last_put_is_shown;
use store::opening::prepare;
use store::service::StoreService;
use store::stream::serve_stream;

// Requests in a row, each of a line, a field and a body, and what its response begins with behind `HTTP/1.1`.
const REQUESTS: &[(&str, &str, &str, &str)] = &[
    ("GET /entries/a", "Accept: */*", "", "404 "),
    ("DELETE /entries/a", "Accept: */*", "", "404 "),
    ("PUT /entries/%61", "Accept: */*", "\"rope\"", "201 "),
    ("PUT /entries/a", "Accept: */*", " \"n\\u0061ils\"", "204 "),
    (
        "GET /entries/a",
        "Accept: */*",
        "",
        "200 OK\r\ncontent-type: application/json\r\netag: \"11fe879ab1e1913bf68875fc2be09d52189e668b3eec523c303d146809d30bfa\"\r\ncontent-length: 7\r\n\r\n\"nails\"",
    ),
    (
        "HEAD /entries/a",
        "Accept: */*",
        "",
        "200 OK\r\ncontent-type: application/json\r\n\r\n",
    ),
    ("GET /entries/ab", "Accept: */*", "", "404 "),
    (
        "PUT /entries/a",
        "Accept: */*",
        "",
        "400 Bad Request\r\ncontent-type: application/problem+json\r\ncontent-length: 74\r\n\r\n{\"title\":\"Bad Request\",\"status\":400,\"detail\":\"the body is not valid JSON\"}",
    ),
    (
        "PUT /entries/a",
        "Accept: */*",
        "7",
        "400 Bad Request\r\ncontent-type: application/problem+json\r\ncontent-length: 89\r\n\r\n{\"title\":\"Bad Request\",\"status\":400,\"detail\":\"the body does not match the expected type\"}",
    ),
    (
        "POST /entries/a",
        "Accept: */*",
        "\"nails\"",
        "405 Method Not Allowed\r\nallow: GET, HEAD, PUT, DELETE\r\n",
    ),
    ("POST /", "Accept: */*", "\"nails\"", "404 "),
    ("PUT /entries/", "Accept: */*", "\"nails\"", "404 "),
    ("PUT /entry/a", "Accept: */*", "\"nails\"", "404 "),
    ("DELETE /entries/%ff", "Accept: */*", "", "404 "),
    (
        "GET /entries/a",
        "Accept: */*",
        "",
        "200 OK\r\ncontent-type: application/json\r\netag: \"11fe879ab1e1913bf68875fc2be09d52189e668b3eec523c303d146809d30bfa\"\r\ncontent-length: 7\r\n\r\n\"nails\"",
    ),
    ("DELETE /entries/a", "Accept: */*", "", "204 "),
    ("DELETE /entries/a", "Accept: */*", "", "404 "),
    ("GET /entries/a", "Accept: */*", "", "404 "),
];

// Requests with conditions, in a row.
const CONDITIONS: &[(&str, &str, &str, &str)] = &[
    ("PUT /entries/a", "If-Match: *", "\"nails\"", "412 "),
    (
        "PUT /entries/a",
        "If-Match: \"x\", \"11fe879ab1e1913bf68875fc2be09d52189e668b3eec523c303d146809d30bfa\"",
        "\"nails\"",
        "412 ",
    ),
    ("DELETE /entries/a", "If-Match: *", "", "404 "),
    ("GET /entries/a", "If-Match: *", "", "404 "),
    ("PUT /entries/a", "If-None-Match: *", "\"nails\"", "201 "),
    ("PUT /entries/a", "If-None-Match: *", "\"nails\"", "412 "),
    ("PUT /entries/a", "If-Match: \"x\"", "\"nails\"", "412 "),
    ("PUT /entries/a", "If-Match: \"x\"", "", "412 "),
    (
        "PUT /entries/a",
        "If-Match: W/\"11fe879ab1e1913bf68875fc2be09d52189e668b3eec523c303d146809d30bfa\"",
        "\"nails\"",
        "412 ",
    ),
    (
        "PUT /entries/a",
        "If-Match: \"x\", \"11fe879ab1e1913bf68875fc2be09d52189e668b3eec523c303d146809d30bfa\"",
        "",
        "400 ",
    ),
    (
        "PUT /entries/a",
        "If-Match: \"x\", \"11fe879ab1e1913bf68875fc2be09d52189e668b3eec523c303d146809d30bfa\"",
        "\"nails\"",
        "204 ",
    ),
    ("PUT /entries/a", "If-Match: *", "\"nails\"", "204 "),
    ("GET /entries/a", "If-Match: \"x\"", "", "412 "),
    ("GET /entries/a", "If-None-Match: \"x\"", "", "200 "),
    (
        "GET /entries/a",
        "If-None-Match: \"x\", \"11fe879ab1e1913bf68875fc2be09d52189e668b3eec523c303d146809d30bfa\"",
        "",
        "304 ",
    ),
    (
        "HEAD /entries/a",
        "If-None-Match: W/\"11fe879ab1e1913bf68875fc2be09d52189e668b3eec523c303d146809d30bfa\"",
        "",
        "304 ",
    ),
    ("DELETE /entries/a", "If-Match: \"x\"", "", "412 "),
    (
        "DELETE /entries/a",
        "If-Match: \"x\", \"11fe879ab1e1913bf68875fc2be09d52189e668b3eec523c303d146809d30bfa\"",
        "",
        "204 ",
    ),
];

// Entries that are put in a row.
const ENTRIES: &[(&str, &str, &str, &str)] = &[
    (
        "GET /entries",
        "Accept: */*",
        "",
        "200 OK\r\ncontent-type: application/json\r\netag: \"44136fa355b3678a1146ad16f7e8649e94fb4fc21fe77e8310c060f61caaff8a\"\r\ncontent-length: 2\r\n\r\n{}",
    ),
    ("PUT /entries/b", "Accept: */*", "\"tar\"", "201 "),
    ("PUT /entries/c/d", "Accept: */*", "\"oak\"", "201 "),
    ("PUT /entries/a", "Accept: */*", "\"rope\"", "201 "),
    ("PUT /entries/a%22b", "Accept: */*", "\"nails\"", "201 "),
];

// Requests for lists of these entries, each of a line and a field, and what its response begins and ends with.
const LISTS: &[(&str, &str, &str, &str)] = &[
    (
        "GET /entries",
        "Accept: */*",
        "200 OK\r\ncontent-type: application/json\r\netag: \"d803e786566e568a99896b71d2dadff07fee9a8b07120fbde0229d4d5cf68798\"\r\ncontent-length: 49\r\n",
        "\r\n\r\n{\"a\":\"rope\",\"a\\\"b\":\"nails\",\"b\":\"tar\",\"c/d\":\"oak\"}",
    ),
    (
        "GET /entries?from&limit=1000",
        "Accept: */*",
        "200 ",
        "\"c/d\":\"oak\"}",
    ),
    (
        "GET /entries?limit=2",
        "Accept: */*",
        "200 ",
        "\r\n\r\n{\"a\":\"rope\",\"a\\\"b\":\"nails\"}",
    ),
    (
        "GET /entries?from=a%22b&limit=2",
        "Accept: */*",
        "200 ",
        "\r\n\r\n{\"a\\\"b\":\"nails\",\"b\":\"tar\"}",
    ),
    (
        "GET /entries?limit=01&x=y&limit=z&from=aa&from=c",
        "Accept: */*",
        "200 ",
        "\r\n\r\n{\"b\":\"tar\"}",
    ),
    (
        "GET /entries?from=a+",
        "Accept: */*",
        "200 ",
        "\r\n\r\n{\"a\\\"b\":\"nails\",\"b\":\"tar\",\"c/d\":\"oak\"}",
    ),
    ("GET /entries?from=c/e", "Accept: */*", "200 ", "\r\n\r\n{}"),
    (
        "HEAD /entries?limit=1",
        "Accept: */*",
        "200 OK\r\ncontent-type: application/json\r\n\r\n",
        "",
    ),
    (
        "HEAD /entries?limit=1",
        "If-None-Match: \"31f39ab8124f81058568299929742148fc11e0251faaffd5f4c5274f825d97ba\"",
        "304 Not Modified\r\n\r\n",
        "",
    ),
    (
        "GET /entries?limit=1",
        "If-None-Match: *",
        "304 Not Modified\r\n\r\n",
        "",
    ),
    ("HEAD /entries", "If-Match: \"x\"", "412 ", "\r\n\r\n"),
    (
        "GET /entries?limit=1",
        "If-None-Match: \"31f39ab8124f81058568299929742148fc11e0251faaffd5f4c5274f825d97ba\"",
        "304 Not Modified\r\netag: \"31f39ab8124f81058568299929742148fc11e0251faaffd5f4c5274f825d97ba\"\r\n\r\n",
        "",
    ),
    (
        "GET /entries?limit=1",
        "If-None-Match: \"31f39ab8124f81058568299929742148fc11e0251faaffd5f4c5274f825d97ba\"",
        "304 ",
        "\r\n\r\n",
    ),
    ("GET /entries?limit=2", "If-None-Match: \"x\"", "200 ", "}"),
    ("GET /entries", "If-Match: \"x\"", "412 ", "\r\n\r\n"),
    (
        "GET /entries?limit=0",
        "Accept: */*",
        "400 Bad Request\r\ncontent-type: application/problem+json\r\ncontent-length: 87\r\n",
        "\r\n\r\n{\"title\":\"Bad Request\",\"status\":400,\"detail\":\"`limit` must be a number from 1 to 1000\"}",
    ),
    ("GET /entries?limit=1001", "Accept: */*", "400 ", "}"),
    ("GET /entries?limit=-1", "Accept: */*", "400 ", "}"),
    ("GET /entries?limit=+1", "Accept: */*", "400 ", "}"),
    ("GET /entries?limit=", "Accept: */*", "400 ", "}"),
    ("GET /entries?limit=4294967297", "Accept: */*", "400 ", "}"),
    (
        "POST /entries?limit=0",
        "Accept: */*",
        "405 Method Not Allowed\r\nallow: GET, HEAD\r\n",
        "\r\n\r\n",
    ),
    ("DELETE /entries", "Accept: */*", "405 ", "\r\n\r\n"),
    ("GET /entries/", "Accept: */*", "404 ", "\r\n\r\n"),
    ("GET /%65ntries", "Accept: */*", "404 ", "\r\n\r\n"),
];

// Requests in a row for hosts that are served and for others, and what each response begins with.
const HOSTS: &[(&str, &str)] = &[
    ("PUT /entries/k HTTP/1.1\r\nHost: evil.example:8080", "421 "),
    ("PUT /entries/k HTTP/1.1\r\nHost: b", "421 "),
    ("DELETE /entries/k HTTP/1.1\r\nHost: ab", "421 "),
    ("GET /entries/k HTTP/1.1\r\nHost: a", "404 "),
    ("GET / HTTP/1.1\r\nHost: b", "421 "),
    ("GET /entries HTTP/1.1\r\nHost:", "421 "),
    ("GET http://b/entries HTTP/1.1\r\nHost: a", "421 "),
    ("GET http://a:1/entries HTTP/1.1\r\nHost: b", "200 "),
    ("GET /entries HTTP/1.1\r\nHost: a:8080", "200 "),
    ("GET /entries HTTP/1.1\r\nHost: LocalHost", "200 "),
    ("GET /entries HTTP/1.1\r\nHost: 127.0.0.1:80", "200 "),
    ("GET /entries HTTP/1.1\r\nHost: [::1]:8080", "200 "),
];

/// Returns the hosts that are served here: those of this machine, and `a`.
pub fn hosts(rt: &HostRuntime) -> Result<Vec<String>, Fail> {
    let mut hosts = local_hosts(rt.alloc())?;
    hosts.push("a".to_string(rt.alloc())?)?;
    Ok(hosts)
}

/// Makes the table of a database, and returns its store.
pub fn store_of<S: Alter + Drop>(
    rt: &HostRuntime,
    mut conn: Connection<S>,
) -> Result<StoreService<S, String>, Fail> {
    prepare(&mut conn)?;
    Ok(StoreService::new(rt.alloc(), conn, hosts(rt)?))
}

// Serves a request of this head, which lacks only its length, and returns what was sent.
fn sent_by<S: Alter>(
    rt: &HostRuntime,
    service: &mut StoreService<S, String>,
    head: &str,
    body: &str,
) -> Result<String, Fail> {
    let stream = format!(in rt.alloc(); "{head}\r\nContent-Length: {}\r\n\r\n{body}", body.len())?;
    let keys = RandomState::new(rt)?;
    let mut output = Vec::new(rt.alloc());
    serve_stream(
        rt.alloc(),
        keys,
        Config::default(),
        service,
        &mut stream.as_bytes(),
        &mut output,
    )?;
    Ok(String::from_utf8(output)?)
}

/// Serves a request of these line, field and body, and returns what was sent.
pub fn sent<S: Alter>(
    rt: &HostRuntime,
    service: &mut StoreService<S, String>,
    line: &str,
    field: &str,
    body: &str,
) -> Result<String, Fail> {
    let head = format!(in rt.alloc(); "{line} HTTP/1.1\r\nHost: a\r\n{field}")?;
    sent_by(rt, service, head.as_str(), body)
}

/// Returns whether a response begins and ends so.
pub fn fits(response: &str, begin: &str, end: &str) -> bool {
    match response.strip_prefix("HTTP/1.1 ") {
        Some(rest) => rest.starts_with(begin) && rest.ends_with(end),
        None => false,
    }
}

// Serves requests in a row, and returns whether each response begins as it should.
fn have_responses<S: Alter>(
    rt: &HostRuntime,
    service: &mut StoreService<S, String>,
    requests: &[(&str, &str, &str, &str)],
) -> Result<bool, Fail> {
    for (line, field, body, wanted) in requests {
        let response = sent(rt, service, line, field, body)?;
        if !fits(response.as_str(), wanted, "") {
            return Ok(false);
        }
    }
    Ok(true)
}

// Returns whether requests of entries have the responses of a map, which has no entry in the end.
fn has_entries<S: Alter + Drop>(rt: &HostRuntime, conn: Connection<S>) -> Result<bool, Fail> {
    let mut service = store_of(rt, conn)?;
    let plain = have_responses(rt, &mut service, REQUESTS)?;
    let conditional = have_responses(rt, &mut service, CONDITIONS)?;
    let entry = texts::get(&mut service.into_connection(), "a")?;
    Ok(plain & conditional & entry.is_none())
}

// Returns whether requests of lists have the responses of a map.
fn has_lists<S: Alter + Drop>(rt: &HostRuntime, conn: Connection<S>) -> Result<bool, Fail> {
    let mut service = store_of(rt, conn)?;
    let mut right = have_responses(rt, &mut service, ENTRIES)?;
    for (line, field, begin, end) in LISTS {
        let response = sent(rt, &mut service, line, field, "")?;
        right = right & fits(response.as_str(), begin, end);
    }
    Ok(right)
}

// Returns whether requests for other hosts are refused, and change nothing.
fn has_hosts<S: Alter + Drop>(rt: &HostRuntime, conn: Connection<S>) -> Result<bool, Fail> {
    let mut service = store_of(rt, conn)?;
    for (head, wanted) in HOSTS {
        let response = sent_by(rt, &mut service, head, "\"nails\"")?;
        if !fits(response.as_str(), wanted, "") {
            return Ok(false);
        }
    }
    Ok(true)
}

#[test]
fn requests_are_for_a_host(rt: HostRuntime) -> Result<(), Fail> {
    assert!(rt; has_hosts(&rt, Connection::open_in_memory(rt.alloc())?)?);
    Ok(())
}

#[test]
fn responses_are_those_of_a_map(rt: HostRuntime) -> Result<(), Fail> {
    last_put_is_shown::<String>();
    assert!(rt; has_entries(&rt, Connection::open_in_memory(rt.alloc())?)?);
    assert!(rt; has_lists(&rt, Connection::open_in_memory(rt.alloc())?)?);
    Ok(())
}
