//! Tests of what reads and writes without a type of one's own: the lexer, numbers that are kept as text, errors, keys of
//! maps, values that are skipped, the writer, and how often texts grow.
#![tactic(auto)]

#[cfg(test)]
mod growth;
#[cfg(test)]
mod keys;
#[cfg(test)]
mod lexer;
#[cfg(test)]
mod numbers;
#[cfg(test)]
mod skipped;
#[cfg(test)]
mod space;
#[cfg(test)]
mod special;
#[cfg(test)]
mod writer;
#[cfg(test)]
mod written;
#[cfg(test)]
mod wrong;
