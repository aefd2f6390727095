//! The type `TagName`, the value of a tag.
//! An `Event` is a token that begins a value, a `Step` an event of a value.
ghost use Rattle.std.specs.Prelude.{◌≡◌, true, refl, map, option_map};
ghost use Rattle.miniserde_enum.specs.TagName.{name_among, tag_name_meaning};

use crate::tagged::DataEnum;
use miniserde_model::error::{Error, Result};
use miniserde_read::{FromJson, Leaf, Source, Step, read_leaf};
use miniserde_text::json::lex::Event;
use std::alloc::Global;
use std::marker::PhantomData;

/// The value of a tag of the enum `E`: the name of a variant, or `None` for a string that names no variant.
#[derive(Drop)]
pub(crate) struct TagName<E> {
    pub(crate) name_among: Option<&'static str>,
    of: PhantomData<E>,
}

// Returns the first of the names that is equal to `name`, or `None` if there is none.
fn find_name(names: &'static [&'static str], name: &str) -> Option<&'static str>
    ensures { option_map (λ n. n.now) result ≡ name_among (map (λ n. n.now) names.now) name.now }
{
    for name_among in names {
        if name == *name_among {
            return Some(*name_among);
        }
    }
    None
}

impl<E: DataEnum> Leaf for TagName<E> {
    ghost means = { tag_name_meaning E.names (λ v. option_map (λ n. n.now) v.name_among) };

    ghost only_leaves = { (λ ts. refl, λ ms. refl) };

    ghost read_infallible = { true };

    #[inline(always)]
    fn from_step(_alloc: Global, event: Step<'_>) -> Result<TagName<E>> {
        match event {
            Step::Str(name) => Ok(TagName {
                name_among: find_name(E::names(), name),
                of: PhantomData,
            }),
            _ => Err(Error::Invalid),
        }
    }
}

impl<E: DataEnum> FromJson for TagName<E> {
    ghost means = { tag_name_meaning E.names (λ v. option_map (λ n. n.now) v.name_among) };

    ghost read_infallible = { true };

    fn missing() -> Option<TagName<E>> {
        None
    }

    #[inline(always)]
    fn read<'a>(token: Event<'a>, source: &mut Source<'a>) -> Result<TagName<E>> {
        read_leaf(token, source)
    }
}
