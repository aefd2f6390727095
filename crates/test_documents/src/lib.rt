//! Tests of values of any shape, and of canonical texts. Nothing here is for users.
#![tactic(auto)]

#[cfg(test)]
mod arrays;
#[cfg(test)]
mod canonical;
#[cfg(test)]
mod deep;
#[cfg(test)]
mod made;
#[cfg(test)]
mod names;
#[cfg(test)]
mod numbers;
#[cfg(test)]
mod objects;
#[cfg(test)]
mod stable;
#[cfg(test)]
mod texts;
#[cfg(test)]
mod unique;
#[cfg(test)]
mod values;
