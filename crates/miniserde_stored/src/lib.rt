//! Types whose texts are stored in canonical form: the trait `Stable` of types for which a tree that means a value and
//! its normal form mean the same value, for std's types, structs, enums and documents, and the calls that read a value
//! with its canonical text and write the canonical text of a value. Nothing is stored here.
#![tactic(auto)]

mod documents;
mod enums;
mod exact;
mod leaves;
mod newtypes;
mod stable;
mod store;
mod structs;
mod tuples;

pub use documents::negated_zero_is_not_stable;
pub use enums::{StableCases, enum_stable, tagged_stable};
pub use exact::ExactKey;
pub use newtypes::checked_stable;
pub use stable::{Stable, means_in_normal_form, normal_form_means_more, two_names_of_a_key};
pub use store::{canonical_of, read_canonical};
pub use structs::{StableFields, record_stable, variant_stable};
