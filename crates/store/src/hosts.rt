//! The hosts that a store serves. A request for any other host gets 421 (RFC 9110, section 15.5.20), so a page of another
//! host cannot reach a store of this machine by giving its own name the address 127.0.0.1.
ghost use Rattle.std.specs.Prelude.{◌≡◌, ◌<◌, length, map, string_bytes, IfOk};
ghost use Rattle.store.specs.Hosts as spec;

use bytes::Bytes;
use http::{Request, header};
use std::alloc::{AllocError, Global};

/// Returns the names by which a client of this machine reaches it: `127.0.0.1`, `localhost` and `[::1]`. Returns an error
/// if an allocation fails.
pub fn local_hosts(alloc: Global) -> Result<Vec<String>, AllocError>
    ensures { IfOk result (λ hosts. map string_bytes hosts.items ≡ spec.local_hosts) }
{
    let mut hosts = Vec::new(alloc);
    hosts.push("127.0.0.1".to_string(alloc)?)?;
    hosts.push("localhost".to_string(alloc)?)?;
    hosts.push("[::1]".to_string(alloc)?)?;
    Ok(hosts)
}

// Whether a host ends at the beginning of this text: nothing follows, or a colon. What follows the colon is not looked at.
fn ends_host(rest: &[u8]) -> bool
    ensures { result ≡ spec.ends_host rest.now }
{
    rest.is_empty() || rest.starts_with(b":")
}

// Whether a text is this host, in any case of letters, alone or with a port.
fn names_host(text: &[u8], host: &[u8]) -> bool
    ensures { result ≡ spec.names_host text.now host.now }
{
    if text.len() < host.len() {
        return false;
    }
    if !text[..host.len()].eq_ignore_ascii_case(host) {
        return false;
    }
    ends_host(&text[host.len()..])
}

// Whether a text is one of these hosts, alone or with a port.
fn is_served(hosts: &[String], text: &[u8]) -> bool
    ensures { result ≡ spec.is_served (map string_bytes hosts.now) text.now }
{
    let mut found = false;
    for i in 0..hosts.len() {
        if names_host(text, hosts[i].as_bytes()) {
            found = true;
        }
    }
    found
}

/// Returns whether a request is for one of these hosts: the one of its target, or else of its field `Host` (RFC 9112,
/// section 3.2.2). A request that names none is for none of them.
pub fn is_for_host(hosts: &[String], request: &Request<Bytes>) -> bool
    ensures { result ≡ spec.is_for_host (map string_bytes hosts.now) request.now }
{
    if let Some(authority) = request.uri().authority() {
        return is_served(hosts, authority.host().as_bytes());
    }
    match request.headers().get(header::HOST) {
        Some(value) => is_served(hosts, value.as_bytes()),
        None => false,
    }
}
