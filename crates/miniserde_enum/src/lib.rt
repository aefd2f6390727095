//! Enums of a user's own whose variants may have data: how they are read and written, externally or internally
//! tagged. Unit enums are in `miniserde_record`, and what is promised of enums in `miniserde_laws`.
#![tactic(auto)]

mod beside;
mod cases;
mod inside;
mod internal;
mod no_fields;
mod one_of;
mod reading;
mod tag_name;
mod tagged;
mod writing;
mod written;

pub use beside::BesideTag;
pub use cases::{Cases, DataCase, NoCase, UnitCase};
pub use inside::{Inside, InsideCases, fields_named};
pub use internal::{read_tagged, tag_fits};
pub use no_fields::NoFields;
pub use one_of::{Never, OneOf};
pub use reading::read_enum;
pub use tagged::{DataEnum, HasTag};
pub use writing::{write_data, write_fields, write_tagged, write_tagged_fields};
pub use written::WrittenCases;
