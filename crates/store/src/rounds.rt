//! The store in rounds: the changes of a round are one commit, and its responses stand once that is done.
ghost use Rattle.std.specs.Prelude.{◌≡◌, ◌⊎◌, map, string_bytes, true, false, if◌then◌else◌, IsTrue, IfOk, OnErr};
ghost use Rattle.http_server.specs.Response.{IsBlank};
ghost use Rattle.sqlite.specs.Held.{state};
ghost use Rattle.sqlite.specs.State.{HasCleanDisk};
ghost use Rattle.store.specs.Answered.{codec, outcome};
ghost use Rattle.store.specs.Maps.{Map, ReadsMap, PutsMap, RemovesMap, AnsweredListMap};
ghost use Rattle.store.specs.Rounds.{IsUnderWay, IsOff, InRound, IsBetween};

use crate::entries::{not_allowed, put, read, remove};
use crate::explain::{ByValue, Explain};
use crate::hosts::is_for_host;
use crate::lists::answer_list;
use crate::routes::{Verb, entry_key, is_list, verb_of};
use crate::shown::is_bare;
use bytes::Bytes;
use http::{HeaderMap, Request, StatusCode};
use http_server::{Response, Settle};
use miniserde::{Lossless, Stable};
use rows::texts;
use sqlite::{Alter, Connection, Error, ErrorCode};
use std::alloc::{AllocError, Global};
use std::marker::{Model, PhantomData};

/// At most so many rounds change nothing after one that was lost.
const LONGEST_PAUSE: u32 = 64;

/// How many rounds change nothing, after rounds that were lost. So while the disk is full, clients that put and remove lose
/// few rounds of those that read.
#[derive(Drop)]
struct Pause {
    // How many rounds are still to change nothing.
    left: u32,
    // How many are to, if the next round with a transaction is lost.
    next: u32,
}

impl Pause {
    fn new() -> Pause {
        Pause { left: 0, next: 1 }
    }

    // Notes that a round is over: whether it had a transaction, and whether it is committed.
    fn note(&mut self, had_transaction: bool, is_committed: bool) {
        if !is_committed {
            self.left = self.next;
            self.next = self.next.saturating_mul(2).min(LONGEST_PAUSE);
        } else if had_transaction {
            self.next = 1;
        } else {
            self.left = self.left.saturating_sub(1);
        }
    }
}

// Begins the transaction of a round, unless it has begun or there is a pause. Returns whether the round has one.
fn begin_round<S: Alter>(conn: &mut Connection<S>, pause: u32) -> bool
    ensures { HasCleanDisk (state S.Store conn.new) → HasCleanDisk (state S.Store conn.old)
        × ((begun m : Map) → IsUnderWay begun (state S.Store conn.old) m → IsUnderWay begun (state S.Store conn.new) m
        × (IsTrue result → IsTrue (state S.Store conn.new).in_transaction)) }
{
    if texts::is_in_transaction(conn) {
        return true;
    }
    if pause > 0 {
        return false;
    }
    texts::begin(conn).is_ok()
}

// Commits the transaction of a round, if it has one. Returns whether the round is committed, on a connection that is open if
// the round changed the map.
fn commit_round<S: Alter>(conn: &mut Connection<S>) -> bool
    ensures { HasCleanDisk (state S.Store conn.new) → HasCleanDisk (state S.Store conn.old)
        × ((begun m : Map) → IsUnderWay begun (state S.Store conn.old) m
        → IsBetween (if result then m else begun) (state S.Store conn.new) result
        × (IsTrue result → IsTrue (state S.Store conn.new).is_open ⊎ (m ≡ begun))) }
{
    if !texts::is_in_transaction(conn) {
        return true;
    }
    texts::commit(conn).is_ok()
}

// Rolls the transaction of a round back, if that is still to be done.
fn roll_back<S: Alter>(conn: &mut Connection<S>)
    ensures { HasCleanDisk (state S.Store conn.new) → HasCleanDisk (state S.Store conn.old)
        × ((begun : Map) → IsOff begun (state S.Store conn.old) → IsOff begun (state S.Store conn.new)) }
{
    if texts::is_in_transaction(conn) {
        let _ = texts::rollback(conn);
    }
}

// Rolls the transaction of a round back, if that is still to be done. Returns whether it is done.
fn drop_round<S: Alter>(conn: &mut Connection<S>) -> bool
    ensures { HasCleanDisk (state S.Store conn.new) → HasCleanDisk (state S.Store conn.old)
        × ((begun : Map) → IsOff begun (state S.Store conn.old) → IsBetween begun (state S.Store conn.new) result) }
{
    roll_back(conn);
    !texts::is_in_transaction(conn)
}

// Reads in a round. Returns whether the round still stands.
fn read_in_round<S: Alter>(
    alloc: Global,
    conn: &mut Connection<S>,
    key: &str,
    is_bare: bool,
    headers: &HeaderMap,
    response: &mut Response,
) -> bool
    requires { IsBlank response.old }
    ensures { HasCleanDisk (state S.Store conn.new) → HasCleanDisk (state S.Store conn.old)
        × ((begun m : Map) → IsUnderWay begun (state S.Store conn.old) m → (after : Map)
        × InRound begun (state S.Store conn.new) result after
        × (IsTrue result → ReadsMap (outcome m response.new after) is_bare headers.now key.now)) }
{
    let begun = texts::is_in_transaction(conn);
    read(alloc, conn, key, is_bare, headers, response);
    if !begun {
        return true;
    }
    texts::is_in_transaction(conn)
}

// Puts in a round. Returns whether the round still stands.
fn put_in_round<S: Alter, V: Stable + Lossless, E: Explain<V>>(
    alloc: Global,
    conn: &mut Connection<S>,
    key: &str,
    headers: &HeaderMap,
    body: &[u8],
    response: &mut Response,
    pause: u32,
) -> bool
    requires { IsBlank response.old }
    ensures { HasCleanDisk (state S.Store conn.new) → HasCleanDisk (state S.Store conn.old)
        × ((begun m : Map) → IsUnderWay begun (state S.Store conn.old) m → (after : Map)
        × InRound begun (state S.Store conn.new) result after
        × (IsTrue result → PutsMap (codec V.means V.tree) (outcome m response.new after)
        headers.now key.now body.now)) }
{
    if !begin_round(conn, pause) {
        response.status = StatusCode::SERVICE_UNAVAILABLE;
        return true;
    }
    put::<S, V, E>(alloc, conn, key, headers, body, response);
    texts::is_in_transaction(conn)
}

// Removes in a round. Returns whether the round still stands.
fn remove_in_round<S: Alter>(
    alloc: Global,
    conn: &mut Connection<S>,
    key: &str,
    headers: &HeaderMap,
    response: &mut Response,
    pause: u32,
) -> bool
    requires { IsBlank response.old }
    ensures { HasCleanDisk (state S.Store conn.new) → HasCleanDisk (state S.Store conn.old)
        × ((begun m : Map) → IsUnderWay begun (state S.Store conn.old) m → (after : Map)
        × InRound begun (state S.Store conn.new) result after
        × (IsTrue result → RemovesMap (outcome m response.new after) headers.now key.now)) }
{
    if !begin_round(conn, pause) {
        response.status = StatusCode::SERVICE_UNAVAILABLE;
        return true;
    }
    remove(alloc, conn, key, headers, response);
    texts::is_in_transaction(conn)
}

// Answers a request for the list of entries in a round. Returns whether the round still stands. Returns an error if
// the field of a 405 cannot be allocated; the connection is then as it was.
fn list_in_round<S: Alter>(
    alloc: Global,
    conn: &mut Connection<S>,
    request: &Request<Bytes>,
    response: &mut Response,
) -> Result<bool, AllocError>
    requires { IsBlank response.old }
    ensures ok { IfOk result (λ stands. HasCleanDisk (state S.Store conn.new) → HasCleanDisk (state S.Store conn.old)
        × ((begun m : Map) → IsUnderWay begun (state S.Store conn.old) m → (after : Map)
        × InRound begun (state S.Store conn.new) stands after
        × (IsTrue stands → AnsweredListMap request.now (outcome m response.new after)))) }
    ensures err { OnErr result (conn.new ≡ conn.old) }
{
    let begun = texts::is_in_transaction(conn);
    answer_list(alloc, conn, request, response)?;
    if !begun {
        return Ok(true);
    }
    Ok(texts::is_in_transaction(conn))
}

/// Entries of the type `V` in a database, for requests for one of its hosts, where the changes of a round are one commit. The
/// response to a body that does not match the type says why in the way `E`. A clause sees the connection, whether the round
/// stands, and the hosts.
#[derive(Drop)]
pub struct RoundService<S: Alter, V, E = ByValue> {
    alloc: Global,
    conn: Connection<S>,
    stands: bool,
    pause: Pause,
    hosts: Vec<String>,
    of: PhantomData<(V, E)>,
}

impl<S: Alter, V, E> Model for RoundService<S, V, E> {
    ghost use Rattle.std.specs.Prelude.{ℕ, Bool, List, map, string_bytes};
    ghost use Rattle.std.specs.Coded.{coded×, coded_bool, coded_list, coded_ℕ};
    ghost use Rattle.sqlite.specs.Held.{Held, held_code};

    ghost Value = { Held S × (Bool × List (List ℕ)) };

    ghost coded = { coded× (held_code S.code) (coded× coded_bool (coded_list (coded_list coded_ℕ))) };

    ghost view = { λ s. (s.conn, (s.stands, map string_bytes s.hosts.items)) };
}

impl<S: Alter, V: Stable + Lossless, E: Explain<V>> RoundService<S, V, E> {
    /// Returns the store of a connection for these hosts, as `localhost`. The clauses on values suppose that the database has
    /// the table.
    pub fn new(alloc: Global, conn: Connection<S>, hosts: Vec<String>) -> RoundService<S, V, E>
        ensures { result ≡ (conn, (true, map string_bytes hosts.items)) }
    {
        RoundService {
            alloc,
            conn,
            stands: true,
            pause: Pause::new(),
            hosts,
            of: PhantomData,
        }
    }

    /// Returns whether the database is open. It is shut if a write or a sync of its file failed, and then each response is 503
    /// until it is opened again. If a transaction is still to be rolled back, it returns true.
    pub fn is_open(&mut self) -> bool
        // Between two rounds it returns false only if the database is shut.
        ensures shut { HasCleanDisk (state S.Store self.new.0)
            → (m : Map) → IsBetween m (state S.Store self.old.0) self.old.1.0 → result ≡ false
            → (state S.Store self.old.0).is_open ≡ false }

        // It changes no entry.
        ensures between { HasCleanDisk (state S.Store self.new.0)
            → (m : Map) → IsBetween m (state S.Store self.old.0) self.old.1.0
            → IsBetween m (state S.Store self.new.0) self.new.1.0 }
        ensures same { self.new.1 ≡ self.old.1 }
        ensures clean { HasCleanDisk (state S.Store self.new.0) → HasCleanDisk (state S.Store self.old.0) }
    {
        if !self.stands {
            return true;
        }
        match texts::has(&mut self.conn, "") {
            Err(Error::SqliteFailure(ErrorCode::Closed)) => false,
            _ => true,
        }
    }

    /// Returns the connection.
    pub fn into_connection(self) -> Connection<S>
        ensures { result ≡ self.0 }
    {
        let RoundService {
            alloc: _,
            conn,
            stands: _,
            pause: _,
            hosts: _,
            of: _,
        } = self;
        conn
    }
}

impl<S: Alter, V: Stable + Lossless, E: Explain<V>> Settle for RoundService<S, V, E> {
    ghost use Rattle.sqlite.specs.Held.{state};
    ghost use Rattle.store.specs.Answered.{codec, outcome};
    ghost use Rattle.store.specs.Rounds.{round_state, AnsweredInRound, SettlesRound};

    ghost answers = { λ old request response new. (new.1.1 ≡ old.1.1) × AnsweredInRound old.1.1 (codec V.means V.tree) request
        (outcome (round_state (state S.Store old.0) old.1.0) response (round_state (state S.Store new.0) new.1.0)) };

    ghost settles = { λ old kept new. (new.1.1 ≡ old.1.1)
        × SettlesRound (state S.Store old.0) old.1.0 kept (state S.Store new.0) new.1.0 };

    fn call(
        &mut self,
        request: &Request<Bytes>,
        response: &mut Response,
    ) -> Result<(), AllocError> {
        if !self.stands {
            response.status = StatusCode::SERVICE_UNAVAILABLE;
            return Ok(());
        }
        if !is_for_host(self.hosts.as_slice(), request) {
            response.status = StatusCode::MISDIRECTED_REQUEST;
            return Ok(());
        }
        if is_list(request.uri().path()) {
            self.stands = list_in_round(self.alloc, &mut self.conn, request, response)?;
            return Ok(());
        }
        let Some(key) = entry_key(self.alloc, request.uri().path())? else {
            response.status = StatusCode::NOT_FOUND;
            return Ok(());
        };
        let (key, headers, pause) = (key.as_str(), request.headers(), self.pause.left);
        match verb_of(request.method()) {
            Verb::Read => {
                let bare = is_bare(request.method(), headers);
                self.stands = read_in_round(
                    self.alloc,
                    &mut self.conn,
                    key,
                    bare,
                    headers,
                    response,
                )
            }
            Verb::Put => {
                let body = request.body().as_slice();
                self.stands = put_in_round::<S, V, E>(
                    self.alloc,
                    &mut self.conn,
                    key,
                    headers,
                    body,
                    response,
                    pause,
                )
            }
            Verb::Delete => {
                self.stands = remove_in_round(
                    self.alloc,
                    &mut self.conn,
                    key,
                    headers,
                    response,
                    pause,
                )
            }
            Verb::Other => return not_allowed(response),
        }
        Ok(())
    }

    fn settle(&mut self) -> bool {
        let had_transaction = texts::is_in_transaction(&self.conn);
        if self.stands && commit_round(&mut self.conn) {
            self.pause.note(had_transaction, true);
            return true;
        }
        self.stands = drop_round(&mut self.conn);
        self.pause.note(had_transaction, false);
        false
    }
}
