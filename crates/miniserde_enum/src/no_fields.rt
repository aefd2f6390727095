//! The type `NoFields`. In an internally tagged enum it stands for the data of a variant that has none.
ghost use Rattle.std.specs.Prelude.{refl, [], ⊤};
ghost use Rattle.miniserde_model.specs.Tree.{members, no_members};
ghost use Rattle.miniserde_enum.specs.NoFields.{any_object};

use crate::beside::BesideTag;
use crate::inside::{Inside, fields_named};
use crate::tagged::HasTag;
use miniserde_keys::Ranged;
use miniserde_model::error::Result;
use miniserde_read::{FromJson, Source};
use miniserde_record::record::{NoSlot, Record, Slots, read_record, write_members_in_order};
use miniserde_ser::ser::{Serialize, Writer};
use miniserde_text::json::lex::Event;

/// A struct without fields: it is read from any object, and written as `{}`.
#[derive(Drop)]
pub struct NoFields {}

impl Record for NoFields {
    type Values = <NoSlot as Slots>::Values;

    ghost names = { [] };

    ghost values = { λ v. tt };

    ghost made = { λ x. record {} };

    ghost bijective = { (λ v. refl, λ x. refl) };

    ghost distinct_names = { refl };

    fn names() -> &'static [&'static str] {
        &[]
    }

    fn build(_parts: Self::Values) -> NoFields {
        NoFields {}
    }
}

impl FromJson for NoFields {
    ghost means = { any_object };

    fn missing() -> Option<NoFields> {
        None
    }

    fn read<'a>(token: Event<'a>, source: &mut Source<'a>) -> Result<NoFields> {
        read_record::<NoFields, NoSlot>(token, source)
    }
}

impl Serialize for NoFields {
    ghost tree = { λ v. members no_members };

    fn begin(&self, w: &mut Writer) -> Result<()> {
        write_members_in_order(w, &[], &())
    }
}

impl Ranged for NoFields {
    ghost valid = { λ v. ⊤ };

    fn ranged(&self) {}
}

impl Inside for NoFields {
    ghost fields = { [] };

    fn read_inside<'a, E: HasTag>(token: Event<'a>, source: &mut Source<'a>) -> Result<NoFields> {
        read_record::<NoFields, BesideTag<E, NoSlot>>(token, source)
    }

    fn write_inside(&self, _w: &mut Writer) -> Result<()> {
        Ok(())
    }

    fn is_object() {
        fields_named()
    }
}
