//! Structs and unit enums: the traits that describe one, and the calls that read and write it by them.

pub use miniserde_record::record::{
    Aliased, Closed, Empty, FourLent, FourParts, FourSlot, Given, HasAliases, Lent, Mark,
    MarkedFour, MarkedSlot, Members, NoSlot, Omit, OmitSlot, Omitted, Once, OnceSlot, Parts, Plain,
    Record, Repeats, Slot, Slots, UnitEnum, Variant, Variants, WithDefault, WrittenFields,
    read_record, read_variant, take_four, write_members, write_members_in_order,
};
