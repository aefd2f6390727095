//! The traits by which a struct or a unit enum describes itself, and the calls that read and write it by them.

mod aliases;
mod blocks;
mod fours;
mod marks;
mod members;
mod names;
mod omit;
mod slots;
mod structs;
mod written;

pub use aliases::{Aliased, HasAliases};
pub use blocks::{FourSlot, MarkedFour};
pub use fours::{FourParts, take_four};
pub use marks::{Closed, Empty, Given, Mark, Once, Plain, Repeats, WithDefault};
pub use members::{FourLent, Lent, Members, write_members, write_members_in_order};
pub use names::{UnitEnum, Variant, Variants, read_variant};
pub use omit::{Omit, OmitSlot, Omitted};
pub use slots::{Layout, MarkedSlot, NoSlot, OnceSlot, Slot, Slots, read_record};
pub use structs::{Parts, Record};
pub use written::WrittenFields;
