//! The canonical text of any JSON text, without a tree in memory. Canonical texts of values of a type are in
//! `miniserde_stored`.
//!
//! A `Reader` takes the tokens of the input, and hands each to a `Draft`, which has the canonical text so far in five parts:
//!
//! - the run: the input that was taken last and stays as it is, and is not in the text yet (`left`);
//! - the text without the run (`out`): its bytes, and its splices, points at which the text of a group belongs. The
//!   members of an open object stand in it in the order of the input;
//! - the groups: the sorted members of closed objects that were not copied back to the text (`groups`);
//! - the members of the open objects, each with its name and the point of the text at which it begins (`members`), and
//!   for each open object how many members come before its own (`opened`);
//! - whether no closed object had a duplicate name (`is_distinct`).
//!
//! | | run | text | groups | members | distinct |
//! |---|---|---|---|---|---|
//! | `skip`: whitespace | begins behind it | gets the run | | | |
//! | `token` that stays as it is; a comma, a bracket | gets it | | | `{` opens an object | |
//! | `token` that does not: `-0`, a string with a backslash | begins behind it | gets the run, and the token written anew | | | |
//! | `add_member`: a name with its colon | as of a token | as of a token | | get the member | |
//! | `close`, if the names rise | stays | | | lose those of the object | |
//! | `close`, if they do not | begins at the bracket | gets the run; sorted members or a splice replace the object's | get the sorted members, unless they are copied back | lose those of the object | false if a name is repeated |
//!
//! At the end `flush` appends the run to the text, and `fill_splices` puts each group in the place of its splice.
//! Read `canonicalize`, `read` and `draft` first; `sort_members` and `members` sort, `spread` and `groups` have splices.
#![tactic(auto)]

mod canonicalize;
mod draft;
mod groups;
mod member;
mod members;
mod put;
mod read;
mod sort_members;
mod spread;

pub use canonicalize::{canonical, canonical_both, canonical_unique};
