//! The store over one stream of requests.
ghost use Rattle.std.specs.Prelude.{OnOk};
ghost use Rattle.std.specs.Io.KnownBytes.{Appends, Consumes};
ghost use Rattle.http_server.specs.History.{History, IsDone};
ghost use Rattle.sqlite.specs.Held.{state};
ghost use Rattle.sqlite.specs.State.{HasCleanDisk};
ghost use Rattle.store.specs.Answered.{codec};
ghost use Rattle.store.specs.Maps.{Map, ServesMap};
ghost use Rattle.store.specs.Streams.{IsServedByMap};

use crate::explain::Explain;
use crate::service::StoreService;
use http_server::{Config, Connection, serve};
use miniserde::{Lossless, Stable};
use sqlite::Alter;
use std::alloc::Global;
use std::hash::RandomState;
use std::io;
use std::io::{Read, Write};

/// Reads requests, and writes the responses of a store. Returns the error of a read, a write or a flush that fails; `WriteZero`
/// if a write takes no byte, and `TimedOut` after 2^64 steps. If an allocation fails, a request gets 503, or the connection
/// ends there, with an error or with none.
pub fn serve_stream<S: Alter, V: Stable + Lossless, E: Explain<V>, R: Read, W: Write>(
    alloc: Global,
    keys: RandomState,
    config: Config,
    service: &mut StoreService<S, V, E>,
    reader: &mut R,
    writer: &mut W,
) -> io::Result<()>
    // What was read is what the connection received, and what was written is what it sent. Its responses are those of a
    // map that begins with the rows of the store, and the rows afterwards are the map's last entries. If it returns no error,
    // nothing is left to do.
    ensures served { HasCleanDisk (state S.Store service.new.0) → (m : Map)
        → ServesMap (state S.Store service.old.0) m → (h : History) × (after : Map)
        × Consumes (R.remaining reader.old) (R.remaining reader.new) h.received
        × Appends (W.contents writer.old) (W.contents writer.new) h.sent
        × IsServedByMap service.old.1 (codec V.means V.tree) config h m after × ServesMap (state S.Store service.new.0) after
        × OnOk result (IsDone h) }
{
    let mut connection = Connection::new(alloc, keys, config);
    serve(&mut connection, service, reader, writer)
}
