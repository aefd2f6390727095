//! Tests of the crates `examples`, `settings` and `refused`. Nothing here is for users.
#![tactic(auto)]

#[cfg(test)]
mod actions;
#[cfg(test)]
mod callers;
#[cfg(test)]
mod commands;
#[cfg(test)]
mod loading;
#[cfg(test)]
mod pages;
#[cfg(test)]
mod paths;
#[cfg(test)]
mod servers;
#[cfg(test)]
mod services;
#[cfg(test)]
mod versions;
