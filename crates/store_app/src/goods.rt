//! The types of `goods.rs`, with the impls that `./derive` writes.
ghost use Rattle.miniserde.specs.FieldsMeaning.{struct_meaning};
ghost use Rattle.miniserde.specs.Structs.{names_of, record_tree};
ghost use Rattle.std.specs.Prelude.{refl};

use miniserde::derived::{
    Event, FromJson, Global, Lossless, NeverNull, NoSlot, Parts, Plain, Ranged, Record, Result,
    RoundTrip, Serialize, Slot, Slots, Source, Stable, Writer, WrittenFields, read_record,
    record_lossless, record_round_trips, record_stable, write_members,
};
use refused::{FieldByField, FieldPath, NamesOf, NoProbe, Probe, Probes, Way, fields_give};

/// Goods in stock.
#[derive(Drop)]
pub struct Goods {
    pub name: String,
    pub count: u32,
    pub note: Option<String>,
}

// Its fields, and their names.
type GoodsFields = Slot<String, Slot<u32, Slot<Option<String>, NoSlot>>>;

const GOODS_NAMES: &[&str] = &["name", "count", "note"];

impl Record for Goods {
    ghost use Rattle.store_app.specs.declared.goods.TheConstants.{GOODS_NAMES};

    type Values = <GoodsFields as Slots>::Values;

    ghost names = { names_of GOODS_NAMES };

    ghost values = { λ v. (v.name, (v.count, (v.note, tt))) };

    ghost made = { λ x. record { name = x.0; count = x.1.0; note = x.1.1.0 } };

    ghost bijective = { (λ v. refl, λ x. refl) };

    ghost distinct_names = { refl };

    fn names() -> &'static [&'static str] {
        GOODS_NAMES
    }

    fn build(parts: Self::Values) -> Goods {
        let Parts(name, Parts(count, Parts(note, ()))) = parts;
        Goods { name, count, note }
    }
}

impl FromJson for Goods {
    ghost means = { struct_meaning ⟦<GoodsFields as Slots>⟧.meaning ⟦<Goods as Record>⟧.names
        ⟦<Goods as Record>⟧.values };

    fn missing() -> Option<Goods> {
        None
    }

    fn read<'a>(token: Event<'a>, source: &mut Source<'a>) -> Result<Goods> {
        read_record::<Goods, GoodsFields>(token, source)
    }
}

impl Serialize for Goods {
    ghost tree = { record_tree ⟦<Goods as Record>⟧.names ⟦<GoodsFields as WrittenFields>⟧.trees
        ⟦<Goods as Record>⟧.values };

    fn begin(&self, w: &mut Writer) -> Result<()> {
        write_members(
            w,
            GOODS_NAMES,
            &Parts(&self.name, Parts(&self.count, Parts(&self.note, ()))),
        )
    }
}

impl Ranged for Goods {
    ghost valid = { λ v. ⟦<GoodsFields as WrittenFields>⟧.valid (⟦<Goods as Record>⟧.values v) };

    fn ranged(&self) {
        self.name.ranged();
        self.count.ranged();
        self.note.ranged();
    }
}

impl RoundTrip for Goods {
    fn round_trips() {
        record_round_trips::<Goods, GoodsFields>()
    }
}

impl Lossless for Goods {
    fn lossless() {
        record_lossless::<Goods, GoodsFields>()
    }
}

impl NeverNull for Goods {
    fn never_null() {}
}

impl Stable for Goods {
    fn stable() {
        record_stable::<Goods, GoodsFields>()
    }
}

// Its fields, one by one.
type GoodsProbes = Probe<String, Plain, Probe<u32, Plain, Probe<Option<String>, Plain, NoProbe>>>;

impl FieldByField for Goods {
    ghost wrong = { λ gives here. ⟦<GoodsProbes as Probes>⟧.wrong gives here ⟦<Goods as Record>⟧.names };

    ghost right = { λ gives. ⟦<GoodsProbes as Probes>⟧.right gives ⟦<Goods as Record>⟧.names };

    fn probe<W: Way>(alloc: Global, text: &str) -> Result<Option<FieldPath>> {
        <GoodsProbes as Probes>::probe::<W, NamesOf<Goods>>(alloc, text)
    }

    fn by_fields<W: Way>() {
        fields_give::<Goods, GoodsProbes, W>()
    }
}
