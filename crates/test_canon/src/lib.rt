//! Tests of the program over memory, with slow and failing devices. Nothing here is for users.
#![tactic(auto)]

#[cfg(test)]
mod calls;
#[cfg(test)]
mod changed;
#[cfg(test)]
mod devices;
#[cfg(test)]
mod failures;
#[cfg(test)]
mod program;
#[cfg(test)]
mod wrong;
