//! A document store behind HTTP/1.1: entries of a type of your own in SQLite, by `GET`, `PUT` and `DELETE` at
//! `/entries/{key}`, and the first of them from a key on, by `GET` at `/entries`.
#![tactic(auto)]

pub mod conditions;
mod entries;
pub mod explain;
pub mod hosts;
pub mod laws;
mod lists;
pub mod opening;
pub mod reason;
pub mod rounds;
mod routes;
pub mod service;
pub mod shared;
mod shown;
pub mod stream;
