//! Connections that share a store, whose changes in a round are one commit.

use crate::served::{hosts, store_of};
use crate::wires::{Client, WAITING, Wire, seated};
use rows::texts;
use slab::Slab;
use sqlite::{Alter, Connection};
use std::test::Fail;
use std::time::Instant;
use store::rounds::RoundService;
use store::shared::serve_settled_round;
use turns::peers::Peer;

// One puts an entry, one asks for it, and one for the list.
const CLIENTS: &[Client] = &[
    Client {
        sent: b"PUT /entries/a HTTP/1.1\r\nHost: a\r\nContent-Length: 7\r\n\r\n\"nails\"",
        ..WAITING
    },
    Client {
        sent: b"GET /entries/a HTTP/1.1\r\nHost: a\r\n\r\n",
        ..WAITING
    },
    Client {
        sent: b"GET /entries HTTP/1.1\r\nHost: a\r\n\r\n",
        ..WAITING
    },
];

// Returns whether the output of a connection ends so.
fn ends_with(peers: &Slab<Peer<Wire>>, key: usize, end: &[u8]) -> bool {
    match peers.get(key) {
        Some(peer) => peer.stream.output.as_slice().ends_with(end),
        None => false,
    }
}

// Returns whether the readers have got the entry, and the list.
fn are_read(peers: &Slab<Peer<Wire>>) -> bool {
    ends_with(peers, 1, b"\r\n\r\n\"nails\"") && ends_with(peers, 2, b"\r\n\r\n{\"a\":\"nails\"}")
}

// Returns whether the readers have their responses after a round in one commit.
fn are_settled<S: Alter>(
    rt: &HostRuntime,
    service: &mut RoundService<S, String>,
) -> Result<bool, Fail> {
    let now = Instant::now(rt)?;
    let mut peers = seated(rt, CLIENTS, now)?;
    let keys = [0, 1, 2];
    let it = serve_settled_round(rt.alloc(), &mut peers, &keys, service, now, usize::MAX)?;
    Ok(it.stands & (it.heard == 3) & it.unfinished.is_empty() & are_read(&peers))
}

// Returns whether the readers have their responses, and the entry is committed.
fn are_committed<S: Alter + Drop>(rt: &HostRuntime, conn: Connection<S>) -> Result<bool, Fail> {
    let conn = store_of(rt, conn)?.into_connection();
    let mut service: RoundService<S, String> = RoundService::new(rt.alloc(), conn, hosts(rt)?);
    let settled = are_settled(rt, &mut service)?;
    let mut conn = service.into_connection();
    let outside = !texts::is_in_transaction(&conn);
    Ok(settled & outside & texts::get(&mut conn, "a")?.is_some())
}

#[test]
fn connections_share_the_entries(rt: HostRuntime) -> Result<(), Fail> {
    assert!(rt; are_committed(&rt, Connection::open_in_memory(rt.alloc())?)?);
    Ok(())
}
