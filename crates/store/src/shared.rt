//! The store over many connections.
ghost use Rattle.std.specs.Prelude.{◌≡◌, ◌⊎◌, IfOk, OnErr, IsTrue};
ghost use Rattle.sqlite.specs.Held.{state};
ghost use Rattle.sqlite.specs.State.{HasCleanDisk};
ghost use Rattle.slab.specs.Slab.{get};
ghost use Rattle.turns.specs.Shared.{Turns};
ghost use Rattle.store.specs.Answered.{codec};
ghost use Rattle.store.specs.Maps.{Map};
ghost use Rattle.turns.specs.Settled.{IsSettled};
ghost use Rattle.store.specs.Rounds.{IsBetween, AnsweredIf, LeavesMap};

use crate::explain::Explain;
use crate::rounds::RoundService;
use miniserde::{Lossless, Stable};
use slab::Slab;
use sqlite::Alter;
use std::alloc::{AllocError, Global};
use std::io::{Read, Write};
use std::time::Instant;
use turns::peers::Peer;
use turns::settled::{RoundResult, settled_round};

/// Hears the connections of these keys, commits what they changed at once, and then sends their responses. If that is not
/// committed, all connections that were heard are closed. Once so many bytes as `bound` wait to be sent on all connections,
/// those of the keys that are left are held: they write, and are not heard. Returns an error, before the first turn, if an
/// allocation fails.
pub fn serve_settled_round<S: Alter, V: Stable + Lossless, E: Explain<V>, T: Read + Write + Drop>(
    alloc: Global,
    peers: &mut Slab<Peer<T>>,
    keys: &[usize],
    service: &mut RoundService<S, V, E>,
    now: Instant,
    bound: usize,
) -> Result<RoundResult, AllocError>
    // The connections of these keys are heard, the round is settled, and then they are written to, as `settled_round` says it.
    // If the round is committed, their responses, in the order of their turns, are those of one map that begins with the rows of
    // the store, and its last entries are the last commit: where the map has changed, the database is open. If the round is not
    // committed, the map is the one from before, and none of the connections that were heard is left.
    ensures settled { IfOk result (λ it. HasCleanDisk (state S.Store service.new.0) → (m : Map)
        → IsBetween m (state S.Store service.old.0) service.old.1.0 → (turns : Turns) × (last : Map)
        × IsSettled (AnsweredIf service.old.1.1 (codec V.means V.tree) it.stands) (LeavesMap m) T.remaining T.contents keys.now m last
        (get peers.old) (get peers.new) turns it
        × IsBetween last (state S.Store service.new.0) service.new.1.0
        × (IsTrue it.stands → IsTrue service.new.1.0 × (IsTrue (state S.Store service.new.0).is_open ⊎ (last ≡ m)))) }
    ensures none { OnErr result ((peers.new ≡ peers.old) × (service.new ≡ service.old)) }
{
    settled_round(alloc, peers, keys, service, now, bound)
}
