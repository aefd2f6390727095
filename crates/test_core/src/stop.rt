//! The types of `stop.rs`, with the impls that `./derive` writes.
ghost use Rattle.miniserde_core.specs.Cases.{each_case, enum_tree, first_case, later_case, any_of_never};
ghost use Rattle.miniserde_core.specs.CasesMeaning.{enum_meaning};
ghost use Rattle.miniserde_core.specs.FieldsMeaning.{struct_meaning};
ghost use Rattle.miniserde_core.specs.Structs.{names_of, record_tree};
ghost use Rattle.std.specs.Prelude.{refl};

use crate::parcel::State;
use miniserde_core::derived::{
    Cases, DataCase, DataEnum, Event, FourLent, FourParts, FourSlot, Fragment, FromJson, NoCase,
    NoSlot, OmitSlot, Omitted, OneOf, Parts, Plain, Ranged, Record, Result, Serialize, Slot, Slots,
    Source, UnitCase, Writer, WrittenCases, WrittenFields, read_enum, read_record, take_four,
    write_data, write_members_in_order,
};
use miniserde_core::json::Document;
use miniserde_laws::{RoundTrip, enum_round_trips, record_round_trips};

/// A stop of a parcel. The names of its fields rise in byte order.
#[derive(Drop)]
pub struct Stop {
    pub at: u64,
    pub before: State,
    pub cost: u32,
    pub days: Vec<u8>,
    pub extra: Document,
    pub note: Option<String>,
}

// Its fields, and their names.
type StopFields = FourSlot<
    u64,
    State,
    u32,
    Vec<u8>,
    Slot<Document, OmitSlot<String, Plain, NoSlot>>,
>;

const STOP_NAMES: &[&str] = &["at", "before", "cost", "days", "extra", "note"];

impl Record for Stop {
    ghost use Rattle.test_core.specs.declared.stop.TheConstants.{STOP_NAMES};

    type Values = <StopFields as Slots>::Values;

    ghost names = { names_of STOP_NAMES };

    ghost values = { λ v. (v.at, (v.before, (v.cost, (v.days, (v.extra, (v.note, tt)))))) };

    ghost made = { λ x. record {
      at = x.0;
      before = x.1.0;
      cost = x.1.1.0;
      days = x.1.1.1.0;
      extra = x.1.1.1.1.0;
      note = x.1.1.1.1.1.0;
    } };

    ghost bijective = { (λ v. refl, λ x. refl) };

    ghost distinct_names = { refl };

    fn names() -> &'static [&'static str] {
        STOP_NAMES
    }

    fn build(parts: Self::Values) -> Stop {
        let FourParts(at, before, cost, days, parts) = take_four(parts);
        let Parts(extra, Parts(note, ())) = parts;
        Stop {
            at,
            before,
            cost,
            days,
            extra,
            note,
        }
    }
}

impl FromJson for Stop {
    ghost means = { struct_meaning ⟦<StopFields as Slots>⟧.meaning ⟦<Stop as Record>⟧.names ⟦<Stop as Record>⟧.values };

    fn missing() -> Option<Stop> {
        None
    }

    fn read<'a>(token: Event<'a>, source: &mut Source<'a>) -> Result<Stop> {
        read_record::<Stop, StopFields>(token, source)
    }
}

impl Serialize for Stop {
    ghost tree = { record_tree ⟦<Stop as Record>⟧.names ⟦<StopFields as WrittenFields>⟧.trees ⟦<Stop as Record>⟧.values };

    fn begin(&self, w: &mut Writer) -> Result<()> {
        write_members_in_order(
            w,
            STOP_NAMES,
            &FourLent(
                &self.at,
                &self.before,
                &self.cost,
                &self.days,
                Parts(&self.extra, Parts(Omitted(&self.note), ())),
            ),
        )
    }
}

impl Ranged for Stop {
    ghost valid = { λ v. ⟦<StopFields as WrittenFields>⟧.valid (⟦<Stop as Record>⟧.values v) };

    fn ranged(&self) {
        self.at.ranged();
        self.before.ranged();
        self.cost.ranged();
        self.days.ranged();
        self.extra.ranged();
        self.note.ranged();
    }
}

impl RoundTrip for Stop {
    fn round_trips() {
        record_round_trips::<Stop, StopFields>()
    }
}

/// How a way ends.
#[derive(Drop)]
pub enum End {
    At(Stop),
    Lost,
}

// Its variants, and their names.
type EndCases = DataCase<Stop, UnitCase<NoCase>>;

const END_NAMES: &[&str] = &["At", "Lost"];

impl DataEnum for End {
    ghost use Rattle.test_core.specs.declared.stop.TheConstants.{END_NAMES};
    ghost use Rattle.test_core.specs.declared.stop.End.TheVariants.{At, Lost};

    type Values = <EndCases as Cases>::Values;

    ghost names = { names_of END_NAMES };

    ghost values = { elim [ At x0 ↦ first_case x0 | Lost ↦ later_case (first_case tt) ] };

    ghost made = { each_case _ (λ x. At x) (each_case _ (λ x. Lost) (any_of_never _)) };

    ghost bijective = { (
      elim [ At x0 ↦ refl | Lost ↦ refl ],
      each_case _ (λ x. refl) (each_case _
          (λ x. refl) (any_of_never _)),
    ) };

    ghost distinct_names = { refl };

    fn names() -> &'static [&'static str] {
        END_NAMES
    }

    fn build(value: Self::Values) -> End {
        match value {
            OneOf::First(a) => End::At(a),
            OneOf::Later(value) => match value {
                OneOf::First(()) => End::Lost,
                OneOf::Later(value) => match value {},
            },
        }
    }
}

impl FromJson for End {
    ghost means = { enum_meaning ⟦<EndCases as Cases>⟧.meaning ⟦<End as DataEnum>⟧.names refl ⟦<End as DataEnum>⟧.values };

    fn missing() -> Option<End> {
        None
    }

    fn read<'a>(token: Event<'a>, source: &mut Source<'a>) -> Result<End> {
        read_enum::<End, EndCases>(token, source)
    }
}

impl Serialize for End {
    ghost tree = { enum_tree ⟦<End as DataEnum>⟧.names ⟦<EndCases as WrittenCases>⟧.tree ⟦<End as DataEnum>⟧.values };

    fn begin(&self, w: &mut Writer) -> Result<()> {
        match self {
            End::At(a) => write_data(w, "At", a),
            End::Lost => w.fragment(Fragment::Str("Lost")),
        }
    }
}

impl Ranged for End {
    ghost valid = { λ v. ⟦<EndCases as WrittenCases>⟧.valid (⟦<End as DataEnum>⟧.values v) };

    fn ranged(&self) {
        match self {
            End::At(a) => a.ranged(),
            End::Lost => {},
        }
    }
}

impl RoundTrip for End {
    fn round_trips() {
        enum_round_trips::<End, EndCases>()
    }
}
