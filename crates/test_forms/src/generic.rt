//! The types of `generic.rs`, with the impls that `./derive` writes.
ghost use Rattle.miniserde.specs.FieldsMeaning.{struct_meaning};
ghost use Rattle.miniserde.specs.Structs.{names_of, record_tree};
ghost use Rattle.miniserde.specs.Tree.{nonneg};
ghost use Rattle.std.specs.Prelude.{refl};

use miniserde::derived::{
    BesideTag, Closed, Empty, Event, FourLent, FourParts, FromJson, Given, Global, HasTag, Inside,
    Lossless, MarkedFour, MarkedSlot, Members, NeverNull, NoSlot, OmitSlot, Omitted, OnceSlot,
    Parts, Plain, Ranged, Record, Result, RoundTrip, Serialize, Slot, Slots, Source, Stable,
    WithDefault, Writer, WrittenFields, fields_named, read_record, record_lossless,
    record_round_trips, record_stable, take_four, write_members, write_members_in_order,
};
use std::collections::{BTreeMap, VecDeque};

/// Two things of two types. An unknown name is invalid, and so is a duplicate of `one`.
#[derive(Debug, Drop)]
pub struct Both<A, B> {
    pub one: A,
    pub two: B,
}

// Its fields, and their names.
type BothFields<A, B> = OnceSlot<A, Slot<B, Closed>>;

const BOTH_NAMES: &[&str] = &["one", "two"];

impl<A: FromJson, B: FromJson> Record for Both<A, B> {
    ghost use Rattle.test_forms.specs.declared.generic.TheConstants.{BOTH_NAMES};

    type Values = <BothFields<A, B> as Slots>::Values;

    ghost names = { names_of BOTH_NAMES };

    ghost values = { λ v. (v.one, (v.two, tt)) };

    ghost made = { λ x. record { one = x.0; two = x.1.0 } };

    ghost bijective = { (λ v. refl, λ x. refl) };

    ghost distinct_names = { refl };

    fn names() -> &'static [&'static str] {
        BOTH_NAMES
    }

    fn build(parts: Self::Values) -> Both<A, B> {
        let Parts(one, Parts(two, ())) = parts;
        Both { one, two }
    }
}

impl<A: FromJson, B: FromJson> FromJson for Both<A, B> {
    ghost means = { struct_meaning ⟦<BothFields<A, B> as Slots>⟧.meaning ⟦<Both<A, B> as Record>⟧.names ⟦<Both<A, B> as Record>⟧.values };

    fn missing() -> Option<Both<A, B>> {
        None
    }

    fn read<'a>(token: Event<'a>, source: &mut Source<'a>) -> Result<Both<A, B>> {
        read_record::<Both<A, B>, BothFields<A, B>>(token, source)
    }
}

impl<A: FromJson + Ranged + Serialize, B: FromJson + Ranged + Serialize> Serialize for Both<A, B> {
    ghost tree = { record_tree ⟦<Both<A, B> as Record>⟧.names ⟦<BothFields<A, B> as WrittenFields>⟧.trees ⟦<Both<A, B> as Record>⟧.values };

    fn begin(&self, w: &mut Writer) -> Result<()> {
        write_members_in_order(w, BOTH_NAMES, &Parts(&self.one, Parts(&self.two, ())))
    }
}

impl<A: FromJson + Ranged + Serialize, B: FromJson + Ranged + Serialize> Ranged for Both<A, B> {
    ghost valid = { λ v. ⟦<BothFields<A, B> as WrittenFields>⟧.valid (⟦<Both<A, B> as Record>⟧.values v) };

    fn ranged(&self) {
        self.one.ranged();
        self.two.ranged();
    }
}

impl<A: RoundTrip, B: RoundTrip> RoundTrip for Both<A, B> {
    fn round_trips() {
        record_round_trips::<Both<A, B>, BothFields<A, B>>()
    }
}

impl<A: Lossless, B: Lossless> Lossless for Both<A, B> {
    fn lossless() {
        record_lossless::<Both<A, B>, BothFields<A, B>>()
    }
}

impl<A: RoundTrip, B: RoundTrip> NeverNull for Both<A, B> {
    fn never_null() {}
}

impl<A: Stable, B: Stable> Stable for Both<A, B> {
    fn stable() {
        record_stable::<Both<A, B>, BothFields<A, B>>()
    }
}

impl<A: FromJson + Ranged + Serialize, B: FromJson + Ranged + Serialize> Inside for Both<A, B> {
    ghost fields = { ⟦<Both<A, B> as Record>⟧.names };

    fn read_inside<'a, E: HasTag>(token: Event<'a>, source: &mut Source<'a>) -> Result<Both<A, B>> {
        read_record::<Both<A, B>, BesideTag<E, BothFields<A, B>>>(token, source)
    }

    fn write_inside(&self, w: &mut Writer) -> Result<()> {
        Members::write(&Parts(&self.one, Parts(&self.two, ())), w, BOTH_NAMES)
    }

    fn is_object() {
        fields_named()
    }
}

/// An answer: data, or what went wrong, with more of both.
#[derive(Drop)]
pub struct Reply<T, E> {
    pub data: Option<T>,
    pub error: Option<Box<E>>,
    pub more_of: VecDeque<Both<T, E>>,
    pub by_name: BTreeMap<String, (T, u8)>,
    pub page_count: u16,
    pub note: Option<String>,
}

/// The value of a missing `page_count`.
#[derive(Drop)]
pub struct ReplyPageCountDefault {}

impl Given<u16> for ReplyPageCountDefault {
    ghost given = { nonneg 1 };

    fn make(_alloc: Global) -> Result<u16> {
        Ok(1)
    }
}

// Its fields, and their names.
type ReplyFields<T, E> = MarkedFour<
    Option<T>,
    Plain,
    Option<Box<E>>,
    Plain,
    VecDeque<Both<T, E>>,
    Plain,
    BTreeMap<String, (T, u8)>,
    WithDefault<Empty>,
    MarkedSlot<u16, WithDefault<ReplyPageCountDefault>, OmitSlot<String, Plain, NoSlot>>,
>;

const REPLY_NAMES: &[&str] = &["data", "error", "moreOf", "byName", "of", "note"];

impl<T: FromJson, E: FromJson> Record for Reply<T, E> {
    ghost use Rattle.test_forms.specs.declared.generic.TheConstants.{REPLY_NAMES};

    type Values = <ReplyFields<T, E> as Slots>::Values;

    ghost names = { names_of REPLY_NAMES };

    ghost values = { λ v. (
      v.data,
      (
        v.error,
        (
          v.more_of,
          (
            v.by_name,
            (
              v.page_count,
              (
                v.note,
                tt,
              ),
            ),
          ),
        ),
      ),
    ) };

    ghost made = { λ x. record {
      «data» = x.0;
      error = x.1.0;
      more_of = x.1.1.0;
      by_name = x.1.1.1.0;
      page_count = x.1.1.1.1.0;
      note = x.1.1.1.1.1.0;
    } };

    ghost bijective = { (λ v. refl, λ x. refl) };

    ghost distinct_names = { refl };

    fn names() -> &'static [&'static str] {
        REPLY_NAMES
    }

    fn build(parts: Self::Values) -> Reply<T, E> {
        let FourParts(data, error, more_of, by_name, parts) = take_four(parts);
        let Parts(page_count, Parts(note, ())) = parts;
        Reply {
            data,
            error,
            more_of,
            by_name,
            page_count,
            note,
        }
    }
}

impl<T: FromJson, E: FromJson> FromJson for Reply<T, E> {
    ghost means = { struct_meaning ⟦<ReplyFields<T, E> as Slots>⟧.meaning ⟦<Reply<T, E> as Record>⟧.names ⟦<Reply<T, E> as Record>⟧.values };

    fn missing() -> Option<Reply<T, E>> {
        None
    }

    fn read<'a>(token: Event<'a>, source: &mut Source<'a>) -> Result<Reply<T, E>> {
        read_record::<Reply<T, E>, ReplyFields<T, E>>(token, source)
    }
}

impl<T: FromJson + Ranged + Serialize, E: FromJson + Ranged + Serialize> Serialize for Reply<T, E> {
    ghost tree = { record_tree ⟦<Reply<T, E> as Record>⟧.names ⟦<ReplyFields<T, E> as WrittenFields>⟧.trees ⟦<Reply<T, E> as Record>⟧.values };

    fn begin(&self, w: &mut Writer) -> Result<()> {
        write_members(
            w,
            REPLY_NAMES,
            &FourLent(
                &self.data,
                &self.error,
                &self.more_of,
                &self.by_name,
                Parts(&self.page_count, Parts(Omitted(&self.note), ())),
            ),
        )
    }
}

impl<T: FromJson + Ranged + Serialize, E: FromJson + Ranged + Serialize> Ranged for Reply<T, E> {
    ghost valid = { λ v. ⟦<ReplyFields<T, E> as WrittenFields>⟧.valid (⟦<Reply<T, E> as Record>⟧.values v) };

    fn ranged(&self) {
        self.data.ranged();
        self.error.ranged();
        self.more_of.ranged();
        self.by_name.ranged();
        self.page_count.ranged();
        self.note.ranged();
    }
}

impl<T: RoundTrip, E: RoundTrip> RoundTrip for Reply<T, E> {
    fn round_trips() {
        record_round_trips::<Reply<T, E>, ReplyFields<T, E>>()
    }
}

impl<T: Lossless + NeverNull, E: Lossless + NeverNull> Lossless for Reply<T, E> {
    fn lossless() {
        record_lossless::<Reply<T, E>, ReplyFields<T, E>>()
    }
}

impl<T: RoundTrip, E: RoundTrip> NeverNull for Reply<T, E> {
    fn never_null() {}
}

impl<T: Stable, E: Stable> Stable for Reply<T, E> {
    fn stable() {
        record_stable::<Reply<T, E>, ReplyFields<T, E>>()
    }
}
