//! Connections whose responses go out once their round is settled, as where the requests of many share one commit.
ghost use Rattle.std.specs.Prelude.{◌≡◌, ◌≢◌, true, ◌+◌, ◌<◌, ◌≤◌, ◌⊎◌, ℕ, List, None, length, take, vec_len, vec_capacity, ◌++◌};
ghost use Rattle.std.specs.Prelude.{IfOk, OnErr, IsOk, IsTrue, IsFalse};
ghost use Rattle.std.specs.List.{AllByRecursion};
ghost use Rattle.http_server.specs.Connection.{config_of, history};
ghost use Rattle.http_server.specs.Exchange.{Calls};
ghost use Rattle.http_server.specs.History.{IsQuiet, WantsRead};
ghost use Rattle.slab.specs.Slab.{get};
ghost use Rattle.turns.specs.Shared.{Turns, has_written, has_more, IsShared, IsCaughtUp, IsAtRest, IsNotAmong, OthersStay};
ghost use Rattle.turns.specs.Settled.{AreLeft, IsHeard, AreHeard, IsSpoken, AreSpoken, OnlyAt, OnlyAmong, IsSettled};
ghost use Rattle.turns.specs.Settled.{AwaitsUnlessNoted, AwaitsStream, HasProgressed, HaveProgressed, IsCounted};

use crate::peers::{Peer, waiting_bytes};
use crate::turn::{MAX_STEPS, Turn, after};
use bytes::Bytes;
use http::Request;
use http_server::{Connection, Response, Service, Settle};
use slab::Slab;
use std::alloc::{AllocError, Global};
use std::io::{Read, Write};
use std::time::Instant;

/// What the head of a response counts for among the bytes that wait to be sent.
const HEAD_LEN: usize = 1024;

/// How a round ended.
#[derive(Drop)]
pub struct RoundResult {
    /// Whether the answers stand.
    pub stands: bool,
    /// How many of the keys were heard, from the first on. The others were held, since too many bytes wait to be sent.
    pub heard: usize,
    /// The keys whose connections may have more to do at once.
    pub unfinished: Vec<usize>,
}

/// A service that is called in a round.
#[derive(Drop)]
struct InRound<'a, S: Settle> {
    service: &'a mut S,
    // How many bytes its responses have, about.
    made: usize,
}

impl<'a, S: Settle> Service for InRound<'a, S> {
    ghost answers = { λ old request response new. S.answers old.service.now request response new.service.now
        × (new.service.ghost_name ≡ old.service.ghost_name) };

    fn call(
        &mut self,
        request: &Request<Bytes>,
        response: &mut Response,
    ) -> Result<(), AllocError> {
        self.service.call(request, response)?;
        let count = response.body.len().saturating_add(HEAD_LEN);
        self.made = self.made.saturating_add(count);
        Ok(())
    }
}

// Calls the service for what was received. Returns how many bytes the responses have, about.
fn advance<S: Settle>(connection: &mut Connection, service: &mut S) -> usize
    ensures calls { Calls S.answers service.old service.new
        (history connection.old).calls (history connection.new).calls }
    ensures rests { IsCaughtUp connection.new }
    ensures quiet { IsQuiet (history connection.old) (history connection.new) }
    ensures config { config_of connection.new ≡ config_of connection.old }
{
    let mut round = InRound { service, made: 0 };
    connection.advance(&mut round);
    // No effect at run time. The proof reads what `service` holds from this use of it.
    let InRound { service, made } = round;
    let _ = &*service;
    made
}

// Reads, and calls the service, until a read returns `WouldBlock`, or the turn has made as many as it may, or the output has
// no room. Writes nothing. Returns `Done` if the stream fails.
fn hear<S: Settle, T: Read>(peer: &mut Peer<T>, service: &mut S) -> Turn
    // The new calls of this connection lead from the state of the service before to the state after.
    ensures calls { Calls S.answers service.old service.new
        (history peer.old.connection).calls (history peer.new.connection).calls }
    ensures heard { IsHeard T.remaining peer.old peer.new }
    ensures rests { IsCaughtUp peer.new.connection }

    // It says that there is no more to do only if it was its stream that had no more.
    ensures waits { result ≢ Turn.Done → IsFalse (has_more result)
        → WantsRead (config_of peer.new.connection) (history peer.new.connection) }
{
    let made = advance(&mut peer.connection, service);
    peer.waiting = peer.waiting.saturating_add(made);
    for _ in 0..MAX_STEPS {
        if !peer.connection.wants_read() {
            return Turn::More { wrote: false };
        }
        if let Err(error) = peer.connection.read_from(&mut peer.stream) {
            return after(&error, false);
        }
        let made = advance(&mut peer.connection, service);
        peer.waiting = peer.waiting.saturating_add(made);
    }
    Turn::More { wrote: false }
}

// Writes until a write returns `WouldBlock`, or nothing is left to write, or the turn has made as many as it may. Returns
// `Done` if HTTP has nothing more to do, or the stream fails.
fn speak<T: Write>(peer: &mut Peer<T>) -> Turn
    ensures spoken { IsSpoken T.contents peer.old peer.new }
    ensures since { peer.new.since ≡ peer.old.since }

    // It says that it wrote only if the stream took a part of a response.
    ensures wrote { IsTrue (has_written result)
        → (history peer.new.connection).sent ≢ (history peer.old.connection).sent }
{
    let mut wrote = false;
    for _ in 0..MAX_STEPS {
        if peer.connection.is_done() {
            return Turn::Done;
        }
        if !peer.connection.wants_write() {
            return Turn::Waits { wrote };
        }
        match peer.connection.write_to(&mut peer.stream) {
            Ok(0) => return Turn::Done,
            Ok(count) => {
                wrote = true;
                peer.waiting = peer.waiting.saturating_sub(count);
            }
            Err(error) => return after(&error, wrote),
        }
    }
    Turn::More { wrote }
}

// Hears the connection of a key, and removes it if its stream fails. Notes whether it may have more to read. Returns how
// many more bytes wait to be sent.
fn hear_peer<S: Settle, T: Read + Drop>(
    peers: &mut Slab<Peer<T>>,
    key: usize,
    service: &mut S,
) -> usize
    // The calls of the turn are answered one after another by the service, and belong to this key.
    ensures shared { (turns : Turns) × OnlyAt key turns
        × IsShared S.answers service.old service.new (get peers.old) (get peers.new) turns }
    ensures heard { AreHeard T.remaining (get peers.old) (get peers.new) }
    ensures rests { IsAtRest (get peers.new key) }
    ensures waits { AwaitsUnlessNoted (get peers.new key) }
    ensures others { (other : ℕ) → (other ≡ key → ⊥) → get peers.new other ≡ get peers.old other }
{
    let Some(mut peer) = peers.try_remove(key) else {
        return 0;
    };
    let before = peer.waiting;
    let next = hear(&mut peer, service);
    if next == Turn::Done {
        return 0;
    }
    peer.more = next.goes_on();
    let made = peer.waiting.saturating_sub(before);
    peers.insert_reserved(peer);
    made
}

// Hears the connections of these keys, from the first on, until so many bytes wait to be sent on all connections. Returns
// how many were heard.
fn hear_all<S: Settle, T: Read + Drop>(
    peers: &mut Slab<Peer<T>>,
    keys: &[usize],
    service: &mut S,
    bound: usize,
) -> usize
    ensures count { result ≤ length keys.now }

    // The calls of all turns are answered one after another by the service, and belong to these keys.
    ensures shared { (turns : Turns) × OnlyAmong (take result keys.now) turns
        × IsShared S.answers service.old service.new (get peers.old) (get peers.new) turns }
    ensures heard { AreHeard T.remaining (get peers.old) (get peers.new) }
    ensures rests { AllByRecursion (λ key. IsAtRest (get peers.new key)) (take result keys.now) }
    ensures waits { AllByRecursion (λ key. AwaitsUnlessNoted (get peers.new key)) (take result keys.now) }

    // A connection that was not heard is as it was.
    ensures others { OthersStay (take result keys.now) (get peers.old) (get peers.new) }
{
    let mut waiting = waiting_bytes(peers);
    let mut count: usize = 0;
    for key in keys.iter() {
        if waiting >= bound {
            return count;
        }
        let made = hear_peer(peers, *key, service);
        waiting = waiting.saturating_add(made);
        count += 1;
    }
    count
}

// Returns whether a connection may have more to do at once: its stream took bytes and may take more, or it was heard,
// nothing is left to write, and it may have more to read.
fn may_go_on(next: Turn, heard: bool, more: bool, connection: &Connection) -> bool
    ensures goes_on { IsTrue result → (IsTrue heard × (length (history connection.now).pending ≡ 0)) ⊎ IsTrue (has_written next) }
    ensures waits { IsFalse result → IsTrue heard → IsTrue more → 0 < length (history connection.now).pending }
{
    if !connection.wants_write() {
        if !heard {
            return false;
        }
        return more;
    }
    match next {
        Turn::More { wrote } => wrote,
        _ => false,
    }
}

// Returns how many bytes wait to be sent on a connection that has written, of so many at most.
fn still_waiting(waiting: usize, connection: &Connection) -> usize
    ensures { length (history connection.now).pending ≡ 0 → result ≡ 0 }
{
    if connection.wants_write() { waiting } else { 0 }
}

// Lets the connection of a key write, and removes it if it is done. Returns whether it may have more to do at once.
fn speak_peer<T: Write + Drop>(
    peers: &mut Slab<Peer<T>>,
    key: usize,
    heard: bool,
    now: Instant,
) -> bool
    ensures spoken { AreSpoken T.contents (get peers.old) (get peers.new) }
    ensures goes_on { IsTrue result → HasProgressed heard (get peers.old key) (get peers.new key) }

    // If it may not, and was heard, its stream is what it waits for.
    ensures waits { IsFalse result → IsTrue heard → AwaitsUnlessNoted (get peers.old key) → AwaitsStream (get peers.new key) }
    ensures counted { IsCounted (get peers.new key) }
    ensures others { (other : ℕ) → (other ≡ key → ⊥) → get peers.new other ≡ get peers.old other }
{
    let Some(mut peer) = peers.try_remove(key) else {
        return false;
    };
    let next = speak(&mut peer);
    if next == Turn::Done {
        return false;
    }
    if next.wrote() {
        peer.since = now;
    }
    peer.waiting = still_waiting(peer.waiting, &peer.connection);
    let again = may_go_on(next, heard, peer.more, &peer.connection);
    peers.insert_reserved(peer);
    again
}

// Lets the connections of these keys write, which were heard in this round or not. Appends the keys of those that may have
// more to do at once.
fn speak_all<T: Write + Drop>(
    peers: &mut Slab<Peer<T>>,
    keys: &[usize],
    heard: bool,
    now: Instant,
    unfinished: &mut Vec<usize>,
) -> Result<(), AllocError>
    requires { vec_len unfinished.old + length keys.now ≤ vec_capacity unfinished.old }
    ensures done { IsOk result }
    ensures len { vec_len unfinished.new ≤ vec_len unfinished.old + length keys.now }
    ensures capacity { vec_capacity unfinished.old ≤ vec_capacity unfinished.new }
    ensures spoken { AreSpoken T.contents (get peers.old) (get peers.new) }
    ensures goes_on { (found : List ℕ) × (unfinished.new.items ≡ unfinished.old.items ++ found)
        × HaveProgressed heard keys.now (get peers.old) (get peers.new) found }
    ensures waits { IsTrue heard → AllByRecursion (λ key. AwaitsUnlessNoted (get peers.old key)) keys.now
        → AllByRecursion (λ key. IsNotAmong unfinished.new.items key → AwaitsStream (get peers.new key)) keys.now }
    ensures counted { AllByRecursion (λ key. IsCounted (get peers.new key)) keys.now }
    ensures others { OthersStay keys.now (get peers.old) (get peers.new) }
{
    for key in keys.iter() {
        if speak_peer(peers, *key, heard, now) {
            unfinished.push(*key)?;
        }
    }
    Ok(())
}

// Removes the connections of these keys.
fn remove_all<T: Drop>(peers: &mut Slab<Peer<T>>, keys: &[usize])
    ensures left { AreLeft (get peers.old) (get peers.new) }
    ensures gone { AllByRecursion (λ key. get peers.new key ≡ None) keys.now }
    ensures others { OthersStay keys.now (get peers.old) (get peers.new) }
{
    for key in keys.iter() {
        drop(peers.try_remove(*key));
    }
}

// Lets the connections of these keys write, which were heard in this round, or removes them if its answers do not stand.
// Appends the keys of those that may have more to do at once.
fn end_heard<T: Write + Drop>(
    peers: &mut Slab<Peer<T>>,
    keys: &[usize],
    stands: bool,
    now: Instant,
    unfinished: &mut Vec<usize>,
) -> Result<(), AllocError>
    requires { vec_len unfinished.old + length keys.now ≤ vec_capacity unfinished.old }
    ensures done { IsOk result }
    ensures len { vec_len unfinished.new ≤ vec_len unfinished.old + length keys.now }
    ensures capacity { vec_capacity unfinished.old ≤ vec_capacity unfinished.new }
    ensures spoken { AreSpoken T.contents (get peers.old) (get peers.new) }
    ensures goes_on { (found : List ℕ) × (unfinished.new.items ≡ unfinished.old.items ++ found)
        × HaveProgressed true keys.now (get peers.old) (get peers.new) found }
    ensures waits { AllByRecursion (λ key. AwaitsUnlessNoted (get peers.old key)) keys.now
        → AllByRecursion (λ key. IsNotAmong unfinished.new.items key → AwaitsStream (get peers.new key)) keys.now }
    ensures counted { AllByRecursion (λ key. IsCounted (get peers.new key)) keys.now }
    ensures gone { IsFalse stands → AllByRecursion (λ key. get peers.new key ≡ None) keys.now }
    ensures others { OthersStay keys.now (get peers.old) (get peers.new) }
{
    if !stands {
        remove_all(peers, keys);
        return Ok(());
    }
    speak_all(peers, keys, true, now, unfinished)?;
    Ok(())
}

/// Hears the connections of these keys, has the service settle the round, and then lets them write, or removes them if
/// its answers do not stand. Once so many bytes as `bound` wait to be sent on all connections, those of the keys that are
/// left are held: they write, and are not heard. Returns an error, before the first turn, if an allocation fails.
pub fn settled_round<S: Settle, T: Read + Write + Drop>(
    alloc: Global,
    peers: &mut Slab<Peer<T>>,
    keys: &[usize],
    service: &mut S,
    now: Instant,
    bound: usize,
) -> Result<RoundResult, AllocError>
    // The calls of all turns are answered one after another by the service, which settles them. Those of a connection are the
    // ones of its turns. One that is left has been sent nothing of a round that does not stand, and none that was heard is left
    // then. One that was heard has called the service for each whole request that it received. Afterwards it is among the
    // unfinished ones, or is held by another of these keys, or waits for its stream. Only one that took bytes, or has nothing
    // left to send, is among the unfinished. No other connection is touched.
    ensures settled { IfOk result (λ it. (turns : Turns) × IsSettled S.answers S.settles T.remaining T.contents
        keys.now service.old service.new (get peers.old) (get peers.new) turns it) }
    ensures none { OnErr result ((peers.new ≡ peers.old) × (service.new ≡ service.old)) }
{
    let mut unfinished = Vec::with_capacity(alloc, keys.len())?;
    let heard = hear_all(peers, keys, service, bound);
    let (first, rest) = keys.split_at(heard);
    let stands = service.settle();
    end_heard(peers, first, stands, now, &mut unfinished)?;
    speak_all(peers, rest, false, now, &mut unfinished)?;
    Ok(RoundResult {
        stands,
        heard,
        unfinished,
    })
}
