//! The items that code written by `./derive` imports.

pub use miniserde_enum::{
    BesideTag, Cases, DataCase, DataEnum, HasTag, Inside, InsideCases, NoCase, NoFields, OneOf,
    UnitCase, WrittenCases, fields_named, read_enum, read_tagged, tag_fits, write_data,
    write_fields, write_tagged, write_tagged_fields,
};
pub use miniserde_keys::{InjectiveKey, MapKey, Ranged, TextValue};
pub use miniserde_model::error::{Error, Result};
pub use miniserde_read::{
    Checked, FromJson, Leaf, Source, Step, read_checked, read_leaf, text_value_from_step,
};
pub use miniserde_record::record::{
    Aliased, Closed, Empty, FourLent, FourParts, FourSlot, Given, HasAliases, MarkedFour,
    MarkedSlot, Members, NoSlot, OmitSlot, Omitted, Once, OnceSlot, Parts, Plain, Record, Slot,
    Slots, UnitEnum, Variants, WithDefault, WrittenFields, read_record, read_variant, take_four,
    write_members, write_members_in_order,
};
pub use miniserde_ser::ser::{Fragment, Serialize, Writer, write_text_value};
pub use miniserde_text::json::lex::Event;
pub use std::alloc::Global;
