//! Reads the fields of a variant whose object has the enum's tag too.
ghost use Rattle.miniserde_enum.specs.Inside.{beside_tag};

use crate::tagged::HasTag;
use miniserde_model::error::Result;
use miniserde_read::Source;
use miniserde_record::record::{Layout, NoSlot, Slots};
use std::alloc::Global;
use std::marker::PhantomData;

/// The fields `F` of a variant of the enum `E`, whose object has the tag too. Members with the tag's name are
/// skipped.
#[derive(Drop)]
pub struct BesideTag<E, F> {
    fields: F,
    tag: PhantomData<E>,
}

impl<E: HasTag, F: Slots> Slots for BesideTag<E, F> {
    type Values = F::Values;

    ghost meaning = { beside_tag E.tag F.meaning };

    ghost state = { λ f. F.state f.fields };

    ghost end_infallible = { F.end_infallible };

    fn new() -> BesideTag<E, F> {
        BesideTag {
            fields: F::new(),
            tag: PhantomData,
        }
    }

    #[inline(always)]
    fn read_member<'a, L: Layout>(
        &mut self,
        names: &[&str],
        name: &str,
        source: &mut Source<'a>,
    ) -> Result<()> {
        let is_tag = match E::tag() {
            [tag, ..] => name == *tag,
            // `tag` returns one name, so this does not happen.
            [] => false,
        };
        if is_tag {
            // `NoSlot` skips the value of each member.
            return NoSlot::new().read_member::<L>(names, name, source);
        }
        self.fields.read_member::<L>(names, name, source)
    }

    fn end(self, alloc: Global) -> Result<F::Values> {
        let BesideTag { fields, tag: _ } = self;
        fields.end(alloc)
    }
}
