//! Rounds of connections, with a service that counts its calls.
ghost use Rattle.std.specs.Prelude.{⊤, ◌≡◌, ◌+◌, ◌%◌, [], ◌∷◌, true, nat_lt};
ghost use Rattle.http.specs.Request.{body_of};
ghost use Rattle.http_server.specs.Response.{IsResponse};

use crate::wires::{Client, WAITING, Wire, seated};
use bytes::{BufMut, Bytes};
use http::Request;
use http_server::{Response, Settle};
use slab::Slab;
use std::alloc::AllocError;
use std::io::ErrorKind;
use std::test::Fail;
use std::time::{Duration, Instant};
use turns::peers::{Peer, waiting_bytes};
use turns::settled::settled_round;

/// Responds with a digit, the number of calls before this one.
#[derive(Drop)]
struct Counter {
    count: u8,
}

/// What it answered in a round stands while fewer than four calls were made.
impl Settle for Counter {
    ghost answers = { λ old request response new.
        IsResponse 200 [] ((48 + old.count % 10) ∷ []) response × (new.count ≡ (old.count + 1) % 256) };

    ghost settles = { λ old stands new. (stands ≡ nat_lt old.count 4) × (new ≡ old) };

    fn call(
        &mut self,
        _request: &Request<Bytes>,
        response: &mut Response,
    ) -> Result<(), AllocError> {
        response.body.put_u8(b'0' + self.count % 10)?;
        self.count = self.count.wrapping_add(1);
        Ok(())
    }

    fn settle(&mut self) -> bool {
        self.count < 4
    }
}

const ONE: Client = Client {
    sent: b"GET / HTTP/1.1\r\nHost: a\r\n\r\n",
    ..WAITING
};

const TWO: Client = Client {
    sent: b"GET / HTTP/1.1\r\nHost: a\r\n\r\nGET / HTTP/1.1\r\nHost: a\r\n\r\n",
    ..WAITING
};

// The stream gives a byte at a time.
const SLOW: Client = Client { most: 1, ..ONE };

// The stream takes nothing.
const FULL: Client = Client {
    blocked: Some(ErrorKind::WouldBlock),
    ..ONE
};

// The client has sent a request, and its stream ends.
const CLOSED: Client = Client {
    behind: None,
    ..ONE
};

// The client has sent a request, and its stream fails.
const RESET: Client = Client {
    behind: Some(ErrorKind::ConnectionReset),
    ..ONE
};

// A read of the stream is interrupted.
const INTERRUPTED: Client = Client {
    behind: Some(ErrorKind::Interrupted),
    ..ONE
};

// While its first response waits to be sent, its second request waits.
const NARROW: Client = Client {
    max_pending: 10,
    ..TWO
};

// The same, of a stream that takes nothing.
const NARROW_FULL: Client = Client {
    blocked: Some(ErrorKind::WouldBlock),
    ..NARROW
};

// The stream takes a byte at a time.
const SLUGGISH: Client = Client { takes: 1, ..ONE };

// The stream takes this many.
const STEADY: Client = Client {
    takes: 30_000,
    ..ONE
};

// A round of connections, and what it leaves.
#[derive(Clone, Copy)]
struct Round {
    clients: &'static [Client],
    keys: &'static [usize],
    calls_before: u8,
    // Once this many bytes wait to be sent, the connections of the keys that are left are held.
    bound: usize,
    stands: bool,
    heard: usize,
    calls: u8,
    unfinished: &'static [usize],
    // What `waiting_bytes` counts afterwards.
    waiting: usize,
    // Of each connection that is still there what was written, and whether its time has moved.
    written: &'static [Option<(&'static [u8], bool)>],
}

const NOTHING: &[u8] = b"";

const FIRST: &[u8] = b"HTTP/1.1 200 OK\r\ncontent-length: 1\r\n\r\n0";

const FIRST_TWO: &[u8] =
    b"HTTP/1.1 200 OK\r\ncontent-length: 1\r\n\r\n0HTTP/1.1 200 OK\r\ncontent-length: 1\r\n\r\n1";

const NEXT_TWO: &[u8] =
    b"HTTP/1.1 200 OK\r\ncontent-length: 1\r\n\r\n1HTTP/1.1 200 OK\r\ncontent-length: 1\r\n\r\n2";

// Whether connections are as they should be after a round, which began when they came.
fn are_left(peers: &Slab<Peer<Wire>>, round: &Round, since: Instant) -> bool {
    let mut key: usize = 0;
    for wanted in round.written {
        let found = match peers.get(key) {
            Some(peer) => Some((peer.stream.output.as_slice(), peer.since != since)),
            None => None,
        };
        if found != *wanted {
            return false;
        }
        key = key.wrapping_add(1);
    }
    true
}

// Gives connections a round a second after they came, and returns whether it leaves what it should.
fn is_given(rt: &HostRuntime, given: &Round) -> Result<bool, Fail> {
    let since = Instant::now(rt)?;
    let Some(now) = since.checked_add(Duration::from_secs(1)) else {
        return Err(Fail::from(ErrorKind::InvalidData));
    };
    let mut peers = seated(rt, given.clients, since)?;
    let mut service = Counter {
        count: given.calls_before,
    };
    let result = settled_round(
        rt.alloc(),
        &mut peers,
        given.keys,
        &mut service,
        now,
        given.bound,
    )?;
    Ok(
        (result.stands == given.stands)
            & (result.heard == given.heard)
            & (service.count == given.calls)
            & (result.unfinished.as_slice() == given.unfinished)
            & (waiting_bytes(&peers) == given.waiting)
            & are_left(&peers, given, since),
    )
}

// A round whose answers stand, and which holds no connection.
const STANDS: Round = Round {
    clients: &[],
    keys: &[0],
    calls_before: 0,
    bound: usize::MAX,
    stands: true,
    heard: 1,
    calls: 1,
    unfinished: &[],
    waiting: 0,
    written: &[],
};

// The answers of a round stand while fewer than four calls were made. A response counts as 1,025 bytes: its body and its head.
const SETTLED: &[Round] = &[
    Round {
        clients: &[SLOW, TWO, TWO, FULL, WAITING],
        keys: &[0, 1, 3, 4, 7],
        heard: 5,
        calls: 3,
        unfinished: &[0],
        waiting: 1025,
        written: &[
            Some((NOTHING, false)),
            Some((FIRST_TWO, true)),
            Some((NOTHING, false)),
            Some((NOTHING, false)),
            Some((NOTHING, false)),
        ],
        ..STANDS
    },
    Round {
        clients: &[SLOW, TWO, TWO],
        keys: &[2],
        calls_before: 2,
        stands: false,
        calls: 4,
        written: &[Some((NOTHING, false)), Some((NOTHING, false)), None],
        ..STANDS
    },
    // The stream of one ends, and that of another fails behind its request.
    Round {
        clients: &[CLOSED, RESET, INTERRUPTED],
        keys: &[0, 1, 2],
        heard: 3,
        calls: 3,
        unfinished: &[2],
        written: &[
            None,
            None,
            Some((b"HTTP/1.1 200 OK\r\ncontent-length: 1\r\n\r\n2", true)),
        ],
        ..STANDS
    },
    // The second request of one that has its first response is answered in another turn, and that of one that takes nothing
    // once it does.
    Round {
        clients: &[NARROW, NARROW_FULL],
        keys: &[0, 1],
        heard: 2,
        calls: 2,
        unfinished: &[0],
        waiting: 1025,
        written: &[Some((FIRST, true)), Some((NOTHING, false))],
        ..STANDS
    },
    // A turn makes sixteen writes.
    Round {
        clients: &[SLUGGISH],
        unfinished: &[0],
        waiting: 1009,
        written: &[Some((b"HTTP/1.1 200 OK\r", true))],
        ..STANDS
    },
];

#[test]
fn responses_go_out_once_their_round_stands(rt: HostRuntime) -> Result<(), Fail> {
    for given in SETTLED {
        assert!(rt; is_given(&rt, given)?);
    }
    Ok(())
}

const HELD: &[Round] = &[
    // No byte may wait.
    Round {
        clients: &[ONE, TWO],
        keys: &[0, 1],
        bound: 0,
        heard: 0,
        calls: 0,
        written: &[Some((NOTHING, false)), Some((NOTHING, false))],
        ..STANDS
    },
    // What is made in a round counts in the round.
    Round {
        clients: &[ONE, TWO, FULL],
        keys: &[0, 1, 2],
        bound: 1026,
        heard: 2,
        calls: 3,
        written: &[
            Some((FIRST, true)),
            Some((NEXT_TWO, true)),
            Some((NOTHING, false)),
        ],
        ..STANDS
    },
    // Those that were held stay if the answers of the others do not stand.
    Round {
        clients: &[TWO, TWO],
        keys: &[0, 1],
        calls_before: 2,
        bound: 1,
        stands: false,
        heard: 1,
        calls: 4,
        written: &[None, Some((NOTHING, false))],
        ..STANDS
    },
];

#[test]
fn connections_are_held_while_too_much_waits(rt: HostRuntime) -> Result<(), Fail> {
    for given in HELD {
        assert!(rt; is_given(&rt, given)?);
    }
    Ok(())
}

// What both have been sent once the second is heard too.
const BOTH: Round = Round {
    written: &[Some((FIRST, false)), Some((NEXT_TWO, false))],
    ..STANDS
};

#[test]
fn what_was_held_is_heard_later(rt: HostRuntime) -> Result<(), Fail> {
    let now = Instant::now(&rt)?;
    let mut peers = seated(&rt, &[ONE, TWO], now)?;
    let mut service = Counter { count: 0 };
    let first = settled_round(rt.alloc(), &mut peers, &[0, 1], &mut service, now, 1)?;
    assert_eq!(rt; (first.heard, service.count), (1, 1));
    let then = settled_round(rt.alloc(), &mut peers, &[1], &mut service, now, 1)?;
    assert_eq!(rt; (then.heard, service.count), (1, 3));
    assert!(rt; are_left(&peers, &BOTH, now));
    Ok(())
}

const LARGE: &[u8] = &[b'x'; 100_000];

/// Responds with more bytes than `http_server` keeps in one piece.
#[derive(Drop)]
struct Large {}

impl Settle for Large {
    ghost answers = { λ _ _ _ _. ⊤ };

    ghost settles = { λ _ stands _. stands ≡ true };

    fn call(
        &mut self,
        _request: &Request<Bytes>,
        response: &mut Response,
    ) -> Result<(), AllocError> {
        response.body.put_slice(LARGE)?;
        response.body.put_slice(b"xyz")
    }

    fn settle(&mut self) -> bool {
        true
    }
}

// Returns how many bytes the output of the connection 0 has, and how it ends.
fn output_of(peers: &Slab<Peer<Wire>>) -> (usize, bool) {
    match peers.get(0) {
        Some(peer) => {
            let output = peer.stream.output.as_slice();
            (output.len(), output.ends_with(b"xyz"))
        }
        None => (0, false),
    }
}

#[test]
fn a_large_response_goes_out_whole(rt: HostRuntime) -> Result<(), Fail> {
    let now = Instant::now(&rt)?;
    let mut peers = seated(&rt, &[STEADY], now)?;
    let mut service = Large {};
    let result = settled_round(rt.alloc(), &mut peers, &[0], &mut service, now, usize::MAX)?;
    // While the response waited, nothing more was read. So there may be more to read now.
    assert_eq!(rt; result.unfinished.as_slice(), [0].as_slice());
    let head = b"HTTP/1.1 200 OK\r\ncontent-length: 100003\r\n\r\n";
    assert_eq!(rt; output_of(&peers), (head.len().wrapping_add(100_003), true));
    Ok(())
}

#[test]
fn a_response_goes_out_in_as_many_turns_as_it_takes(rt: HostRuntime) -> Result<(), Fail> {
    let now = Instant::now(&rt)?;
    let mut peers = seated(&rt, &[SLUGGISH], now)?;
    let mut service = Counter { count: 0 };
    // Sixteen bytes a turn, of thirty-nine.
    for unfinished in [1, 1, 0] {
        let result = settled_round(rt.alloc(), &mut peers, &[0], &mut service, now, usize::MAX)?;
        assert_eq!(rt; result.unfinished.len(), unfinished);
    }
    let peer = peers.get(0).ok_or(ErrorKind::NotFound)?;
    assert_eq!(rt; peer.stream.output.as_slice(), FIRST);
    Ok(())
}
