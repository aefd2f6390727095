//! The traits of enums whose variants may have data: `DataEnum`, and `HasTag` for internally tagged ones.
ghost use Rattle.std.specs.Prelude.{◌≡◌, true, List, [], ◌∷◌, map};
ghost use Rattle.miniserde_read.specs.types.Objects.{Name};
ghost use Rattle.miniserde_record.specs.Structs.{are_distinct};

/// An enum whose variants may have data, and are told apart by their names.
pub trait DataEnum: Sized + Drop {
    /// The value of one of the variants: of the first, or of a later one.
    type Values;

    // The variants' names, in their order.
    ghost names: { List Name };

    // A value of the enum as one of `Values`: its variant with the data of the variant.
    ghost values: { Self → Self.Values };

    // The value of the enum that has this variant with this data.
    ghost made: { Self.Values → Self };

    /// Returns the variants' names, in their order.
    fn names() -> &'static [&'static str]
        ensures { map (λ s. s.now) result.now ≡ names };

    /// Returns the value of the enum that has this variant with this data.
    fn build(value: Self::Values) -> Self
        ensures { values result ≡ value };

    // `made` and `values` are inverse to each other: a value of the enum is its variant with the
    // data and nothing else, and no two variants are alike.
    ghost bijective: { ((v : Self) → made (values v) ≡ v) × ((x : Self.Values) → values (made x) ≡ x) };

    // No two variants have the same name.
    ghost distinct_names: { are_distinct names ≡ true };
}

/// An internally tagged enum: the value of one member of its objects, the tag, is the variant's
/// name.
pub trait HasTag {
    // The tag's name.
    ghost tag: { Name };

    /// Returns a list of one name, the tag's. It is a list since the tag is read as the one field of a struct.
    fn tag() -> &'static [&'static str]
        ensures { map (λ s. s.now) result.now ≡ tag ∷ [] };
}
