//! The data of a variant of an adjacently tagged enum, as a struct of one field that stands beside the tag.
ghost use Rattle.std.specs.Prelude.{◌≡◌, [], ◌∷◌, map, refl};
ghost use Rattle.miniserde_read.specs.types.Objects.{Name};
ghost use Rattle.miniserde_record.specs.FieldsMeaning.{struct_meaning};
ghost use Rattle.miniserde_record.specs.Structs.{record_tree};

use miniserde_enum::{BesideTag, HasTag, Inside, fields_named};
use miniserde_keys::Ranged;
use miniserde_model::error::Result;
use miniserde_read::{FromJson, Source};
use miniserde_record::record::{
    Members, NoSlot, Parts, Record, Slot, Slots, WrittenFields, read_record, write_members,
};
use miniserde_ser::ser::{Serialize, Writer};
use miniserde_text::json::lex::Event;
use std::marker::PhantomData;

/// An adjacently tagged enum: beside the tag, one member has the data of the variant.
pub trait HasContent {
    // The name of the member that has the data.
    ghost content: { Name };

    /// Returns a list of one name, that of the member that has the data.
    fn content() -> &'static [&'static str]
        ensures { map (λ s. s.now) result.now ≡ content ∷ [] };
}

/// The data of a variant of the enum `E`, as a struct of one field.
#[derive(Drop)]
pub struct Content<E, T> {
    pub value: T,
    pub of: PhantomData<E>,
}

/// The chain of the one field of a `Content`.
pub type ContentFields<T> = Slot<T, NoSlot>;

impl<E: HasContent, T: FromJson> Record for Content<E, T> {
    type Values = <ContentFields<T> as Slots>::Values;

    ghost names = { E.content ∷ [] };

    ghost values = { λ v. (v.value, tt) };

    ghost made = { λ x. record { value = x.0; of = record {} } };

    ghost bijective = { (λ v. refl, λ x. refl) };

    ghost distinct_names = { refl };

    fn names() -> &'static [&'static str] {
        E::content()
    }

    fn build(parts: Self::Values) -> Content<E, T> {
        let Parts(value, ()) = parts;
        Content {
            value,
            of: PhantomData,
        }
    }
}

impl<E: HasContent, T: FromJson> FromJson for Content<E, T> {
    ghost means = { struct_meaning ⟦<ContentFields<T> as Slots>⟧.meaning ⟦<Content<E, T> as Record>⟧.names
        ⟦<Content<E, T> as Record>⟧.values };

    fn missing() -> Option<Content<E, T>> {
        None
    }

    fn read<'a>(token: Event<'a>, source: &mut Source<'a>) -> Result<Content<E, T>> {
        read_record::<Content<E, T>, ContentFields<T>>(token, source)
    }
}

impl<E: HasContent, T: FromJson + Ranged + Serialize> Serialize for Content<E, T> {
    ghost tree = { record_tree ⟦<Content<E, T> as Record>⟧.names ⟦<ContentFields<T> as WrittenFields>⟧.trees
        ⟦<Content<E, T> as Record>⟧.values };

    fn begin(&self, w: &mut Writer) -> Result<()> {
        write_members(w, E::content(), &Parts(&self.value, ()))
    }
}

impl<E: HasContent, T: FromJson + Ranged + Serialize> Ranged for Content<E, T> {
    ghost valid = { λ v. ⟦<ContentFields<T> as WrittenFields>⟧.valid (⟦<Content<E, T> as Record>⟧.values v) };

    fn ranged(&self) {
        self.value.ranged();
    }
}

impl<E: HasContent, T: FromJson + Ranged + Serialize> Inside for Content<E, T> {
    ghost fields = { ⟦<Content<E, T> as Record>⟧.names };

    fn read_inside<'a, K: HasTag>(
        token: Event<'a>,
        source: &mut Source<'a>,
    ) -> Result<Content<E, T>> {
        read_record::<Content<E, T>, BesideTag<K, ContentFields<T>>>(token, source)
    }

    fn write_inside(&self, w: &mut Writer) -> Result<()> {
        Members::write(&Parts(&self.value, ()), w, E::content())
    }

    fn is_object() {
        fields_named()
    }
}
