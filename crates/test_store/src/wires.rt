//! Connections whose streams are those of clients in memory.

use http_server::{Config, Connection};
use slab::Slab;
use std::hash::RandomState;
use std::io;
use std::io::{ErrorKind, Read, Write};
use std::test::Fail;
use std::time::Instant;
use turns::peers::Peer;

/// What a client has sent, and how its stream goes on.
#[derive(Clone, Copy)]
pub struct Client {
    pub sent: &'static [u8],
    /// A read returns at most this many bytes.
    pub most: usize,
    /// Behind the bytes a read returns this error, or the end of the stream.
    pub behind: Option<ErrorKind>,
    /// A write returns this error in place of taking the bytes.
    pub blocked: Option<ErrorKind>,
    /// A write takes at most this many bytes.
    pub takes: usize,
    /// While more bytes than this wait to be sent, its next request waits.
    pub max_pending: usize,
}

/// A client that has sent nothing, and waits.
pub const WAITING: Client = Client {
    sent: b"",
    most: 1000,
    behind: Some(ErrorKind::WouldBlock),
    blocked: None,
    takes: usize::MAX,
    max_pending: 65_536,
};

/// The stream of a client, with what was not read yet and what was written.
#[derive(Drop)]
pub struct Wire {
    client: Client,
    pub output: Vec<u8>,
}

impl Read for Wire {
    fn read(&mut self, buf: &mut [u8]) -> io::Result<usize> {
        let unread = self.client.sent;
        if unread.is_empty() {
            return match self.client.behind {
                Some(kind) => Err(kind.into()),
                None => Ok(0),
            };
        }
        let count = unread.len().min(self.client.most).min(buf.len());
        buf[..count].copy_from_slice(&unread[..count]);
        self.client.sent = &unread[count..];
        Ok(count)
    }
}

impl Write for Wire {
    fn write(&mut self, buf: &[u8]) -> io::Result<usize> {
        if let Some(kind) = self.client.blocked {
            return Err(kind.into());
        }
        let count = buf.len().min(self.client.takes);
        self.output.extend_from_slice(&buf[..count])?;
        Ok(count)
    }

    fn flush(&mut self) -> io::Result<()> {
        Ok(())
    }
}

// Returns the stream of a client.
fn stream_of(rt: &HostRuntime, client: Client) -> Wire {
    Wire {
        client,
        output: Vec::new(rt.alloc()),
    }
}

// Returns a connection that has read nothing.
fn connection(rt: &HostRuntime, max_pending: usize) -> Result<Connection, Fail> {
    let keys = RandomState::new(rt)?;
    let mut config = Config::default();
    config.max_pending = max_pending;
    Ok(Connection::new(rt.alloc(), keys, config))
}

/// Returns connections of these clients, which came at this time, under the keys 0, 1 and so on.
pub fn seated(
    rt: &HostRuntime,
    clients: &[Client],
    since: Instant,
) -> Result<Slab<Peer<Wire>>, Fail> {
    let mut peers = Slab::new(rt.alloc());
    for client in clients {
        let connection = connection(rt, client.max_pending)?;
        peers.insert(Peer::new(connection, stream_of(rt, *client), since))?;
    }
    Ok(peers)
}
