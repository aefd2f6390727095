//! Tests of std's types and of the types of the crate `demo`: what is read, what is refused, and what is written; their
//! places, handed one event after another; types by hand; and each call that takes memory, once with more than 65,536
//! items, members or bytes, since no contract refuses a body that fails to allocate above some size. Nothing here is for
//! users.
#![tactic(auto)]

#[cfg(test)]
mod accepted;
#[cfg(test)]
mod canonical;
#[cfg(test)]
mod checks;
#[cfg(test)]
mod depths;
#[cfg(test)]
mod documented;
#[cfg(test)]
mod documents;
#[cfg(test)]
mod empty;
#[cfg(test)]
mod entries;
#[cfg(test)]
mod events;
#[cfg(test)]
mod letters;
#[cfg(test)]
mod lists;
pub mod lower;
#[cfg(test)]
mod maps;
#[cfg(test)]
mod number_texts;
#[cfg(test)]
mod orders;
#[cfg(test)]
mod places;
#[cfg(test)]
mod queues;
#[cfg(test)]
mod scalars;
#[cfg(test)]
mod shapes;
#[cfg(test)]
mod slices;
#[cfg(test)]
mod spans;
#[cfg(test)]
mod stable;
#[cfg(test)]
mod strings;
#[cfg(test)]
mod structs;
#[cfg(test)]
mod texts;
#[cfg(test)]
mod tuples;
#[cfg(test)]
mod types;
#[cfg(test)]
mod wrappers;
#[cfg(test)]
mod writer;
