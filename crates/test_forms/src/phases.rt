//! The types of `phases.rs`, with the impls that `./derive` writes.
ghost use Rattle.miniserde.specs.Tree.{str};
ghost use Rattle.std.specs.Prelude.{true, List, codes, [], ◌∷◌, ⊤, refl};

use miniserde::derived::{
    Event, Fragment, FromJson, Ranged, Result, RoundTrip, Serialize, Source, UnitEnum, Variants,
    Writer, read_variant, variant_round_trips,
};

/// How far a job is.
#[derive(Clone, Copy, PartialEq, Eq, Debug, Drop)]
pub enum Phase {
    NotBegun,
    InProgress,
    Done,
}

impl UnitEnum for Phase {
    ghost use Rattle.test_forms.specs.declared.phases.Phase.TheVariants.{NotBegun, InProgress, Done};

    ghost all = { NotBegun ∷ InProgress ∷ Done ∷ [] };

    ghost name_of = { elim [
      | NotBegun ↦ codes "NOT_BEGUN"
      | InProgress ↦ codes "IN_PROGRESS"
      | Done
          ↦ codes "done"
    ] };

    ghost found = { elim [ NotBegun ↦ refl | InProgress ↦ refl | Done ↦ refl ] };

    fn values() -> &'static [Phase] {
        &[Phase::NotBegun, Phase::InProgress, Phase::Done]
    }

    fn name(&self) -> &'static str {
        match self {
            Phase::NotBegun => "NOT_BEGUN",
            Phase::InProgress => "IN_PROGRESS",
            Phase::Done => "done",
        }
    }
}

impl FromJson for Phase {
    ghost means = { ⟦<Phase as Variants>⟧.meaning };

    ghost read_infallible = { true };

    fn missing() -> Option<Phase> {
        None
    }

    fn read<'a>(token: Event<'a>, source: &mut Source<'a>) -> Result<Phase> {
        read_variant(token, source)
    }
}

impl Serialize for Phase {
    ghost tree = { λ v. str (⟦<Phase as UnitEnum>⟧.name_of v) };

    fn begin(&self, w: &mut Writer) -> Result<()> {
        w.fragment(Fragment::Str(self.name()))
    }
}

impl Ranged for Phase {
    ghost valid = { λ _. ⊤ };

    fn ranged(&self) {}
}

impl RoundTrip for Phase {
    fn round_trips() {
        variant_round_trips::<Phase>()
    }
}
