//! The store as a service.
ghost use Rattle.std.specs.Prelude.{◌≡◌, map, string_bytes};
ghost use Rattle.http_server.specs.Response.{IsBlank};

use crate::entries::{not_allowed, put, read, remove};
use crate::explain::{ByValue, Explain};
use crate::hosts::is_for_host;
use crate::lists::answer_list;
use crate::routes::{Verb, entry_key, is_list, verb_of};
use crate::shown::is_bare;
use bytes::Bytes;
use http::{Request, StatusCode};
use http_server::{Response, Service};
use miniserde::{Lossless, Stable};
use sqlite::{Alter, Connection};
use std::alloc::{AllocError, Global};
use std::marker::{Model, PhantomData};

/// Entries of the type `V` in a database, for requests for one of its hosts. The response to a body that does not match the
/// type says why in the way `E`. A clause sees the connection and the hosts.
#[derive(Drop)]
pub struct StoreService<S: Alter, V, E = ByValue> {
    alloc: Global,
    conn: Connection<S>,
    hosts: Vec<String>,
    of: PhantomData<(V, E)>,
}

impl<S: Alter, V, E> Model for StoreService<S, V, E> {
    ghost use Rattle.std.specs.Prelude.{ℕ, List, map, string_bytes};
    ghost use Rattle.std.specs.Coded.{coded×, coded_list, coded_ℕ};
    ghost use Rattle.sqlite.specs.Held.{Held, held_code};

    ghost Value = { Held S × List (List ℕ) };

    ghost coded = { coded× (held_code S.code) (coded_list (coded_list coded_ℕ)) };

    ghost view = { λ s. (s.conn, map string_bytes s.hosts.items) };
}

impl<S: Alter, V: Stable + Lossless, E: Explain<V>> StoreService<S, V, E> {
    /// Returns the store of a connection for these hosts, as `localhost`. The clauses on values suppose that the database has
    /// the table.
    pub fn new(alloc: Global, conn: Connection<S>, hosts: Vec<String>) -> StoreService<S, V, E>
        ensures { result ≡ (conn, map string_bytes hosts.items) }
    {
        StoreService {
            alloc,
            conn,
            hosts,
            of: PhantomData,
        }
    }

    /// Returns the connection.
    pub fn into_connection(self) -> Connection<S>
        ensures { result ≡ self.0 }
    {
        let StoreService {
            alloc: _,
            conn,
            hosts: _,
            of: _,
        } = self;
        conn
    }
}

impl<S: Alter, V: Stable + Lossless, E: Explain<V>> Service for StoreService<S, V, E> {
    ghost use Rattle.sqlite.specs.Held.{state};
    ghost use Rattle.store.specs.Answered.{codec, outcome, AnsweredFor, Goes};

    ghost answers = { λ old request response new. (new.1 ≡ old.1) × Goes (state S.Store old.0) (state S.Store new.0)
        (AnsweredFor old.1 (codec V.means V.tree) request (outcome (state S.Store old.0) response (state S.Store new.0))) };

    fn call(
        &mut self,
        request: &Request<Bytes>,
        response: &mut Response,
    ) -> Result<(), AllocError> {
        if !is_for_host(self.hosts.as_slice(), request) {
            response.status = StatusCode::MISDIRECTED_REQUEST;
            return Ok(());
        }
        if is_list(request.uri().path()) {
            return answer_list(self.alloc, &mut self.conn, request, response);
        }
        let Some(key) = entry_key(self.alloc, request.uri().path())? else {
            response.status = StatusCode::NOT_FOUND;
            return Ok(());
        };
        match verb_of(request.method()) {
            Verb::Read => read(
                self.alloc,
                &mut self.conn,
                key.as_str(),
                is_bare(request.method(), request.headers()),
                request.headers(),
                response,
            ),
            Verb::Put => put::<S, V, E>(
                self.alloc,
                &mut self.conn,
                key.as_str(),
                request.headers(),
                request.body().as_slice(),
                response,
            ),
            Verb::Delete => remove(
                self.alloc,
                &mut self.conn,
                key.as_str(),
                request.headers(),
                response,
            ),
            Verb::Other => return not_allowed(response),
        }
        Ok(())
    }
}
