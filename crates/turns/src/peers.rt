//! Connections that share one service.
ghost use Rattle.std.specs.Prelude.{◌≡◌};

use http_server::Connection;
use slab::Slab;
use std::time::Instant;

/// A connection with its stream, which returns `WouldBlock` in place of waiting.
#[derive(Drop)]
pub struct Peer<T> {
    pub connection: Connection,
    pub stream: T,
    /// When it came, or when its stream last took a part of a response.
    pub since: Instant,
    /// How many bytes of responses wait to be sent, about: a response counts with its body and 1,024 bytes for its head.
    pub waiting: usize,
    /// Whether its last turn ended before all that it may read was read.
    pub more: bool,
}

impl<T> Peer<T> {
    /// Returns a connection that came at this time, and has had no turn.
    pub fn new(connection: Connection, stream: T, since: Instant) -> Peer<T>
        ensures connection { result.connection ≡ connection }
        ensures stream { result.stream ≡ stream }
        ensures since { result.since ≡ since }
    {
        Peer {
            connection,
            stream,
            since,
            waiting: 0,
            more: false,
        }
    }
}

/// Returns how many bytes of responses wait to be sent on all connections, as `Peer::waiting` counts them.
pub fn waiting_bytes<T>(peers: &Slab<Peer<T>>) -> usize {
    let mut sum: usize = 0;
    for (_, peer) in peers.iter() {
        sum = sum.saturating_add(peer.waiting);
    }
    sum
}
