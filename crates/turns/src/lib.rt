//! Many connections of `http_server` on one thread, in rounds: each is read, the service settles, and each is written to.
//!
//! A round reads from a connection, and writes to it, at most some times. It calls the service for one request after
//! another, so a call that takes long holds up the connections behind it.
#![tactic(auto)]

pub mod peers;
pub mod settled;
pub mod turn;
