//! Structs and unit enums: the traits that describe one, the calls that read and write it by them, and its place.

pub use miniserde_de::structs::{Field, Four, OnceField, OnceFour};
pub use miniserde_laws::{
    LosslessFields, RoundTripFields, aliased_round_trips, record_lossless, record_round_trips,
    variant_lossless, variant_round_trips,
};
pub use miniserde_places::structs::{
    FieldOf, Fields, FourOf, NamePlace, NoField, PlacedRecord, RecordPlace,
};
pub use miniserde_record::record::{
    Aliased, Closed, Empty, FourLent, FourParts, FourSlot, Given, HasAliases, Lent, Mark,
    MarkedFour, MarkedSlot, Members, NoSlot, Omit, OmitSlot, Omitted, Once, OnceSlot, Parts, Plain,
    Record, Repeats, Slot, Slots, UnitEnum, Variant, Variants, WithDefault, WrittenFields,
    read_record, read_variant, take_four, write_members, write_members_in_order,
};
pub use miniserde_stored::{StableFields, record_stable, variant_stable};
