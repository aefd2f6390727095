//! Untagged enums, whose variants are told apart by the kind of the JSON value (RFC 8259, section 3): which kinds the
//! values of a type are, how such enums are read and written, and what is promised of them.

mod cases;
mod documents;
mod enums;
mod kinds;
mod lossless;
mod reading;
mod round_trips;
mod stable;
mod std_types;
mod written;

pub use cases::{UntaggedCases, later_alone};
pub use enums::UntaggedEnum;
pub use kinds::{
    ArrayKind, BooleanKind, EitherKind, HasKinds, KindSet, NullKind, NumberKind, ObjectKind,
    StringKind,
};
pub use lossless::{LosslessUntagged, untagged_lossless};
pub use reading::read_untagged;
pub use round_trips::{RoundTripUntagged, untagged_never_null, untagged_round_trips};
pub use stable::{StableUntagged, untagged_stable};
pub use written::WrittenUntagged;
