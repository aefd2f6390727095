//! Tests of rows in SQLite, of turns, and of a store over both.
#![tactic(auto)]

#[cfg(test)]
mod bounds;
pub mod counted;
#[cfg(test)]
mod kept;
#[cfg(test)]
mod served;
#[cfg(test)]
mod shared;
#[cfg(test)]
mod turned;
#[cfg(test)]
mod visited;
#[cfg(test)]
mod wires;
