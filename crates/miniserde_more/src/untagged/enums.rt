//! The trait of untagged enums.
ghost use Rattle.std.specs.Prelude.{◌≡◌};

/// An enum whose variants are told apart by the kind of the JSON value alone.
pub trait UntaggedEnum: Sized + Drop {
    /// The value of one of the variants: of the first, or of a later one.
    type Values;

    // A value of the enum as one of `Values`: its variant with the data of the variant.
    ghost values: { Self → Self.Values };

    // The value of the enum that has this variant with this data.
    ghost made: { Self.Values → Self };

    /// Returns the value of the enum that has this variant with this data.
    fn build(value: Self::Values) -> Self
        ensures { values result ≡ value };

    // `made` and `values` are inverse to each other: a value of the enum is its variant with the
    // data and nothing else, and no two variants are alike.
    ghost bijective: { ((v : Self) → made (values v) ≡ v) × ((x : Self.Values) → values (made x) ≡ x) };
}
