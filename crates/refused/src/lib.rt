//! The field that keeps a text from meaning a struct: `wrong_field` returns the path to it, with the promise that the
//! text has no value for it. `./derive` writes what it needs of a struct that is marked `refused`.
#![tactic(auto)]

mod alone;
mod find;
mod inside;
mod names;
mod path;
mod probes;
mod way;

pub use alone::{Alone, AnyObject};
pub use find::{FieldByField, fields_give, wrong_field};
pub use inside::{ProbeInto, ProbeIntoOption};
pub use names::{LaterNames, Names, NamesOf};
pub use path::FieldPath;
pub use probes::{NoProbe, Probe, Probes};
pub use way::{Start, Through, ThroughOption, Way};
