//! The promises of `RoundTrip`, `Lossless` and `NeverNull` for `bool`, integers and `String`.
ghost use Rattle.std.specs.Prelude.{◌≡◌};
ghost use Rattle.std.specs.Int.{w8, w16, w32, w64};
ghost use Rattle.std.specs.String.{string_bytes};
ghost use Rattle.miniserde_model.specs.Tree.{null, truth, str};
ghost use Rattle.miniserde_keys.specs.laws.Bits.{i8_bits, i16_bits, i32_bits, i64_bits};
ghost use Rattle.miniserde_laws.specs.RoundTrip.{RoundTrips, IsLossless};
ghost use Rattle.miniserde_laws.specs.laws.Scalars.{leaf-round_trips, unsigned-round_trips, signed-round_trips};
ghost use Rattle.miniserde_laws.specs.laws.Scalars.{boolean-same, text-same, unsigned-same, signed-same};
ghost use Rattle.miniserde_laws.specs.laws.Scalars.{boolean-not_null, text-not_null, unsigned-not_null, signed-not_null};

use crate::lossless::{Lossless, NeverNull};
use crate::round_trip::RoundTrip;
use miniserde_keys::Ranged;
use miniserde_read::FromJson;
use miniserde_ser::ser::Serialize;

/// A type of std whose valid values are read back from their trees, have different trees if their
/// contents differ, and never have the tree `null`.
pub trait Scalar: Ranged + Serialize + FromJson {
    // The tree of a valid value means a valid value, and each valid value that it means has that tree.
    ghost round_trips: { (v : Self) → Self.valid v
        → RoundTrips Self.valid Self.tree Self.means.reads (Self.tree v) };

    // Two valid values with the same tree have the same content.
    ghost same: { IsLossless Self.valid Self.tree Self.means.content };

    // No valid value is written as `null`.
    ghost not_null: { (v : Self) → Self.valid v → Self.tree v ≡ null → ⊥ };
}

impl Scalar for bool {
    ghost round_trips = { λ v r. leaf-round_trips truth v };

    ghost same = { boolean-same };

    ghost not_null = { boolean-not_null };
}

impl Scalar for String {
    ghost round_trips = { λ v r. leaf-round_trips (λ s. str (string_bytes s)) v };

    ghost same = { text-same string_bytes };

    ghost not_null = { text-not_null string_bytes };
}

impl Scalar for u8 {
    ghost round_trips = { unsigned-round_trips 8 };

    ghost same = { unsigned-same 8 };

    ghost not_null = { unsigned-not_null 8 };
}

impl Scalar for u16 {
    ghost round_trips = { unsigned-round_trips 16 };

    ghost same = { unsigned-same 16 };

    ghost not_null = { unsigned-not_null 16 };
}

impl Scalar for u32 {
    ghost round_trips = { unsigned-round_trips 32 };

    ghost same = { unsigned-same 32 };

    ghost not_null = { unsigned-not_null 32 };
}

impl Scalar for u64 {
    ghost round_trips = { unsigned-round_trips 64 };

    ghost same = { unsigned-same 64 };

    ghost not_null = { unsigned-not_null 64 };
}

impl Scalar for usize {
    ghost round_trips = { unsigned-round_trips 64 };

    ghost same = { unsigned-same 64 };

    ghost not_null = { unsigned-not_null 64 };
}

impl Scalar for i8 {
    ghost round_trips = { signed-round_trips i8_bits };

    ghost same = { signed-same w8 };

    ghost not_null = { signed-not_null w8 };
}

impl Scalar for i16 {
    ghost round_trips = { signed-round_trips i16_bits };

    ghost same = { signed-same w16 };

    ghost not_null = { signed-not_null w16 };
}

impl Scalar for i32 {
    ghost round_trips = { signed-round_trips i32_bits };

    ghost same = { signed-same w32 };

    ghost not_null = { signed-not_null w32 };
}

impl Scalar for i64 {
    ghost round_trips = { signed-round_trips i64_bits };

    ghost same = { signed-same w64 };

    ghost not_null = { signed-not_null w64 };
}

impl Scalar for isize {
    ghost round_trips = { signed-round_trips i64_bits };

    ghost same = { signed-same w64 };

    ghost not_null = { signed-not_null w64 };
}

impl<T: Scalar> RoundTrip for T {
    fn round_trips() {}
}

impl<T: Scalar> Lossless for T {
    fn lossless() {}
}

impl<T: Scalar> NeverNull for T {
    fn never_null() {}
}
