//! The types of `page.rs`, with the impls that `./derive` writes.
ghost use Rattle.miniserde.specs.FieldsMeaning.{struct_meaning};
ghost use Rattle.miniserde.specs.Structs.{names_of, record_tree};
ghost use Rattle.std.specs.Prelude.{refl};

use miniserde::derived::{
    Event, FromJson, Lossless, NeverNull, NoSlot, Parts, Ranged, Record, Result, RoundTrip,
    Serialize, Slot, Slots, Source, Stable, Writer, WrittenFields, read_record, record_lossless,
    record_round_trips, record_stable, write_members_in_order,
};

/// A page of a list, and the name of the next page.
#[derive(Drop)]
pub struct Page<T> {
    pub items: Vec<T>,
    pub next: Option<String>,
}

// Its fields, and their names.
type PageFields<T> = Slot<Vec<T>, Slot<Option<String>, NoSlot>>;

const PAGE_NAMES: &[&str] = &["items", "next"];

impl<T: FromJson> Record for Page<T> {
    ghost use Rattle.examples.specs.declared.page.TheConstants.{PAGE_NAMES};

    type Values = <PageFields<T> as Slots>::Values;

    ghost names = { names_of PAGE_NAMES };

    ghost values = { λ v. (v.items, (v.next, tt)) };

    ghost made = { λ x. record { items = x.0; next = x.1.0 } };

    ghost bijective = { (λ v. refl, λ x. refl) };

    ghost distinct_names = { refl };

    fn names() -> &'static [&'static str] {
        PAGE_NAMES
    }

    fn build(parts: Self::Values) -> Page<T> {
        let Parts(items, Parts(next, ())) = parts;
        Page { items, next }
    }
}

impl<T: FromJson> FromJson for Page<T> {
    ghost means = { struct_meaning ⟦<PageFields<T> as Slots>⟧.meaning ⟦<Page<T> as Record>⟧.names
        ⟦<Page<T> as Record>⟧.values };

    fn missing() -> Option<Page<T>> {
        None
    }

    fn read<'a>(token: Event<'a>, source: &mut Source<'a>) -> Result<Page<T>> {
        read_record::<Page<T>, PageFields<T>>(token, source)
    }
}

impl<T: FromJson + Ranged + Serialize> Serialize for Page<T> {
    ghost tree = { record_tree ⟦<Page<T> as Record>⟧.names ⟦<PageFields<T> as WrittenFields>⟧.trees
        ⟦<Page<T> as Record>⟧.values };

    fn begin(&self, w: &mut Writer) -> Result<()> {
        write_members_in_order(w, PAGE_NAMES, &Parts(&self.items, Parts(&self.next, ())))
    }
}

impl<T: FromJson + Ranged + Serialize> Ranged for Page<T> {
    ghost valid = { λ v. ⟦<PageFields<T> as WrittenFields>⟧.valid (⟦<Page<T> as Record>⟧.values v) };

    fn ranged(&self) {
        self.items.ranged();
        self.next.ranged();
    }
}

impl<T: RoundTrip> RoundTrip for Page<T> {
    fn round_trips() {
        record_round_trips::<Page<T>, PageFields<T>>()
    }
}

impl<T: Lossless> Lossless for Page<T> {
    fn lossless() {
        record_lossless::<Page<T>, PageFields<T>>()
    }
}

impl<T: RoundTrip> NeverNull for Page<T> {
    fn never_null() {}
}

impl<T: Stable> Stable for Page<T> {
    fn stable() {
        record_stable::<Page<T>, PageFields<T>>()
    }
}
