//! A unit enum with renamed variants: what `./derive` writes of `tag.rs`.
ghost use Rattle.miniserde.specs.Tree.{str};
ghost use Rattle.std.specs.Prelude.{true, List, codes, [], ◌∷◌, ⊤, refl};

use miniserde::derived::{
    Deserialize, Event, Fragment, FromJson, Lossless, NamePlace, NeverNull, Ranged, Result,
    RoundTrip, Serialize, Source, Stable, UnitEnum, Variants, Writer, read_variant,
    variant_lossless, variant_round_trips, variant_stable,
};

#[derive(Clone, Copy, PartialEq, Eq, Debug, Drop)]
pub enum Tag {
    A,
    B,
    Enum,
}

impl UnitEnum for Tag {
    ghost use Rattle.demo.specs.declared.tag.Tag.TheVariants.{A, B, Enum};

    ghost all = { A ∷ B ∷ Enum ∷ [] };

    ghost name_of = { elim [ A ↦ codes "A" | B ↦ codes "renamedB" | Enum ↦ codes "enum" ] };

    ghost found = { elim [ A ↦ refl | B ↦ refl | Enum ↦ refl ] };

    fn values() -> &'static [Tag] {
        &[Tag::A, Tag::B, Tag::Enum]
    }

    fn name(&self) -> &'static str {
        match self {
            Tag::A => "A",
            Tag::B => "renamedB",
            Tag::Enum => "enum",
        }
    }
}

impl FromJson for Tag {
    ghost means = { ⟦<Tag as Variants>⟧.meaning };

    ghost read_infallible = { true };

    fn missing() -> Option<Tag> {
        None
    }

    fn read<'a>(token: Event<'a>, source: &mut Source<'a>) -> Result<Tag> {
        read_variant(token, source)
    }
}

impl Serialize for Tag {
    ghost tree = { λ v. str (⟦<Tag as UnitEnum>⟧.name_of v) };

    fn begin(&self, w: &mut Writer) -> Result<()> {
        w.fragment(Fragment::Str(self.name()))
    }
}

impl Ranged for Tag {
    ghost valid = { λ _. ⊤ };

    fn ranged(&self) {}
}

impl RoundTrip for Tag {
    fn round_trips() {
        variant_round_trips::<Tag>()
    }
}

impl Lossless for Tag {
    fn lossless() {
        variant_lossless::<Tag>()
    }
}

impl NeverNull for Tag {
    fn never_null() {}
}

impl Stable for Tag {
    fn stable() {
        variant_stable::<Tag>()
    }
}

impl Deserialize for Tag {
    type Place = NamePlace<Tag>;

    fn tied() {}
}
