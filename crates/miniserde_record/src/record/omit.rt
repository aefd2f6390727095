//! Optional fields that are not written if they are `None`.
ghost use Rattle.std.specs.Prelude.{◌∷◌, true, None, option_map};

use super::marks::{Mark, Repeats};
use super::members::Members;
use super::slots::{Layout, MarkedSlot, Slots};
use super::structs::Parts;
use super::written::WrittenFields;
use miniserde_keys::Ranged;
use miniserde_model::error::Result;
use miniserde_read::{FromJson, Source};
use miniserde_ser::ser::{Serialize, Writer};
use std::alloc::Global;
use std::marker::PhantomData;

/// The mark of an optional field that is `None` if it is missing. `M` says whether a duplicate of
/// the field's name is an error.
pub struct Omit<M> {
    mark: PhantomData<M>,
}

impl<M: Repeats> Repeats for Omit<M> {
    ghost once = { M.once };

    fn is_once() -> bool {
        M::is_once()
    }
}

impl<T: FromJson, M: Repeats> Mark<Option<T>> for Omit<M> {
    ghost given = { None };

    ghost missing_infallible = { true };

    fn missing(_alloc: Global) -> Result<Option<Option<T>>> {
        Ok(Some(None))
    }
}

/// A field of the type `Option<T>` that is not written if it is `None`, and the fields `R` after it.
/// It is read like any other optional field. `M` says whether a duplicate of its name is an error.
#[derive(Drop)]
pub struct OmitSlot<T, M, R> {
    slot: MarkedSlot<Option<T>, Omit<M>, R>,
}

impl<T: FromJson, M: Repeats, R: Slots> Slots for OmitSlot<T, M, R> {
    type Values = Parts<Option<T>, R::Values>;

    ghost meaning = { ⟦<MarkedSlot<Option<T>, Omit<M>, R> as Slots>⟧.meaning };

    ghost state = { λ f. ⟦<MarkedSlot<Option<T>, Omit<M>, R> as Slots>⟧.state f.slot };

    ghost end_infallible = { R.end_infallible };

    fn new() -> OmitSlot<T, M, R> {
        OmitSlot {
            slot: <MarkedSlot<Option<T>, Omit<M>, R> as Slots>::new(),
        }
    }

    #[inline(always)]
    fn read_member<'a, L: Layout>(
        &mut self,
        names: &[&str],
        name: &str,
        source: &mut Source<'a>,
    ) -> Result<()> {
        self.slot.read_member::<L>(names, name, source)
    }

    fn end(self, alloc: Global) -> Result<Parts<Option<T>, R::Values>> {
        let OmitSlot { slot } = self;
        slot.end(alloc)
    }
}

impl<T: Ranged + Serialize, M, R: WrittenFields> WrittenFields for OmitSlot<T, M, R> {
    type Values = Parts<Option<T>, R::Values>;

    ghost valid = { λ v. ⟦<Option<T> as Ranged>⟧.valid v.0 × R.valid v.1 };

    ghost trees = { λ v. option_map T.tree v.0 ∷ R.trees v.1 };
}

/// A lent optional value, of which no member is written if it is `None`.
#[derive(Drop)]
pub struct Omitted<'a, T>(pub &'a Option<T>);

impl<'a, T: Serialize, M: Members> Members for Parts<Omitted<'a, T>, M> {
    ghost trees = { λ l. option_map T.tree l.0.0.now ∷ M.trees l.1 };

    #[inline(always)]
    fn write(&self, w: &mut Writer, names: &[&str]) -> Result<()> {
        match names {
            [name, more @ ..] => {
                if let Some(value) = self.0.0 {
                    w.key_inline(name)?;
                    value.begin(w)?;
                }
                self.1.write(w, more)
            }
            [] => Ok(()),
        }
    }
}
