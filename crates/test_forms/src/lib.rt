//! Types of each form that `./derive` takes, one in another, as users write them, and their callers, proved without a proof
//! file. Nothing here is for users.
#![tactic(auto)]

#[cfg(test)]
mod aliases;
#[cfg(test)]
mod callers;
#[cfg(test)]
mod changes;
#[cfg(test)]
mod commands;
#[cfg(test)]
mod edits;
#[cfg(test)]
mod generic;
#[cfg(test)]
mod generics;
#[cfg(test)]
mod hosts;
#[cfg(test)]
mod notes;
#[cfg(test)]
mod omitted;
#[cfg(test)]
mod pages;
#[cfg(test)]
mod phases;
#[cfg(test)]
mod prelude;
#[cfg(test)]
mod renames;
#[cfg(test)]
mod server;
#[cfg(test)]
mod stable;
#[cfg(test)]
mod structs;
#[cfg(test)]
mod tables;
#[cfg(test)]
mod tags;
#[cfg(test)]
mod taken;
#[cfg(test)]
mod taken_names;
#[cfg(test)]
mod wide;
