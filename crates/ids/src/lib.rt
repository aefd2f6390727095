//! Types of other crates as the values of fields: a UUID of the toolchain's crate `uuid`, a version of `semver`, a date of
//! `jiff`, and bytes by `base64`.
#![tactic(auto)]

#[cfg(test)]
mod blobs;
#[cfg(test)]
mod callers;
#[cfg(test)]
mod days;
#[cfg(test)]
mod ids;
#[cfg(test)]
mod releases;
#[cfg(test)]
mod requests;
#[cfg(test)]
mod tests;
#[cfg(test)]
mod uploads;
#[cfg(test)]
mod uuids;
#[cfg(test)]
mod versions;
