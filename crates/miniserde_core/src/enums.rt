//! Enums whose variants may have data: the traits that describe one, and the calls that read and write it by them.

pub use miniserde_enum::{
    BesideTag, Cases, DataCase, DataEnum, HasTag, Inside, InsideCases, Never, NoCase, NoFields,
    OneOf, UnitCase, WrittenCases, fields_named, read_enum, read_tagged, tag_fits, write_data,
    write_fields, write_tagged, write_tagged_fields,
};
