//! The types of `lists.rs`, with the impls that `./derive` writes.
ghost use Rattle.miniserde.specs.Cases.{each_case, first_case, later_case, any_of_never};
ghost use Rattle.miniserde_more.specs.Untagged.{untagged_tree};
ghost use Rattle.miniserde_more.specs.UntaggedMeaning.{untagged_meaning};
ghost use Rattle.std.specs.Prelude.{refl};

use miniserde::derived::{
    DataCase, Event, FromJson, Lossless, NeverNull, NoCase, OneOf, Ranged, Result, RoundTrip,
    Serialize, Source, Stable, Writer,
};
use miniserde_more::untagged::{
    UntaggedCases, UntaggedEnum, WrittenUntagged, read_untagged, untagged_lossless,
    untagged_never_null, untagged_round_trips, untagged_stable,
};

/// One text, or some.
#[derive(Drop)]
pub enum OneOrMany {
    One(String),
    Many(Vec<String>),
}

// Its variants.
type OneOrManyCases = DataCase<String, DataCase<Vec<String>, NoCase>>;

impl UntaggedEnum for OneOrMany {
    ghost use Rattle.test_more.specs.declared.lists.OneOrMany.TheVariants.{One, Many};

    type Values = <OneOrManyCases as UntaggedCases>::Values;

    ghost values = { elim [ One x0 ↦ first_case x0 | Many x0 ↦ later_case (first_case x0) ] };

    ghost made = { each_case _ (λ x. One x) (each_case _ (λ x. Many x) (any_of_never _)) };

    ghost bijective = { (
      elim [ One x0 ↦ refl | Many x0 ↦ refl ],
      each_case _ (λ x. refl) (each_case
          _ (λ x. refl) (any_of_never _)),
    ) };

    fn build(value: Self::Values) -> OneOrMany {
        match value {
            OneOf::First(a) => OneOrMany::One(a),
            OneOf::Later(value) => match value {
                OneOf::First(a) => OneOrMany::Many(a),
                OneOf::Later(value) => match value {},
            },
        }
    }
}

impl FromJson for OneOrMany {
    ghost means = { untagged_meaning ⟦<OneOrManyCases as UntaggedCases>⟧.meaning ⟦<OneOrMany as UntaggedEnum>⟧.values };

    fn missing() -> Option<OneOrMany> {
        None
    }

    fn read<'a>(token: Event<'a>, source: &mut Source<'a>) -> Result<OneOrMany> {
        read_untagged::<OneOrMany, OneOrManyCases>(token, source)
    }
}

impl Serialize for OneOrMany {
    ghost tree = { untagged_tree ⟦<OneOrManyCases as WrittenUntagged>⟧.tree ⟦<OneOrMany as UntaggedEnum>⟧.values };

    fn begin(&self, w: &mut Writer) -> Result<()> {
        match self {
            OneOrMany::One(a) => a.begin(w),
            OneOrMany::Many(a) => a.begin(w),
        }
    }
}

impl Ranged for OneOrMany {
    ghost valid = { λ v. ⟦<OneOrManyCases as WrittenUntagged>⟧.valid (⟦<OneOrMany as UntaggedEnum>⟧.values v) };

    fn ranged(&self) {
        match self {
            OneOrMany::One(a) => a.ranged(),
            OneOrMany::Many(a) => a.ranged(),
        }
    }
}

impl RoundTrip for OneOrMany {
    fn round_trips() {
        untagged_round_trips::<OneOrMany, OneOrManyCases>()
    }
}

impl Lossless for OneOrMany {
    fn lossless() {
        untagged_lossless::<OneOrMany, OneOrManyCases>()
    }
}

impl NeverNull for OneOrMany {
    fn never_null() {
        untagged_never_null::<OneOrMany, OneOrManyCases>()
    }
}

impl Stable for OneOrMany {
    fn stable() {
        untagged_stable::<OneOrMany, OneOrManyCases>()
    }
}
