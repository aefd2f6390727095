//! Reads internally tagged enums: objects in which one member, the tag, names the variant.
//! An `Event` is a token that begins a value, a `Step` an event of a value.
ghost use Rattle.std.specs.Prelude.{◌≡◌, true, None, Err, length};
ghost use Rattle.miniserde_text.specs.Lexer.{event_of_token};
ghost use Rattle.miniserde_model.specs.Step as step;
ghost use Rattle.miniserde_model.specs.declared.error.Error.{Error};
ghost use Rattle.miniserde_read.specs.Calls.{Reads};
ghost use Rattle.miniserde_read.specs.Events.{EventInRange};
ghost use Rattle.miniserde_enum.specs.Tagging.{internal};
ghost use Rattle.miniserde_enum.specs.CasesMeaning.{tagged_content};

use crate::inside::InsideCases;
use crate::tag_name::TagName;
use crate::tagged::{DataEnum, HasTag};
use miniserde_model::error::{Error, Result};
use miniserde_read::Source;
use miniserde_record::record::{NoSlot, Parts, Record, Slot, Slots, read_record};
use miniserde_text::json::lex::Event;

// A struct whose one field is the tag. It is read from an object of the enum `E`.
#[derive(Drop)]
struct Tag<E> {
    name: TagName<E>,
}

// The chain of the one field of a `Tag`.
type TagFields<E> = Slot<TagName<E>, NoSlot>;

impl<E: DataEnum + HasTag> Record for Tag<E> {
    ghost use Rattle.std.specs.Prelude.{refl, [], ◌∷◌};

    type Values = <TagFields<E> as Slots>::Values;

    ghost names = { E.tag ∷ [] };

    ghost values = { λ v. (v.name, tt) };

    ghost made = { λ x. record { name = x.0 } };

    ghost bijective = { (λ v. refl, λ x. refl) };

    ghost distinct_names = { refl };

    fn names() -> &'static [&'static str] {
        E::tag()
    }

    fn build(parts: Self::Values) -> Tag<E> {
        let Parts(name, ()) = parts;
        Tag { name }
    }
}

/// Reads an internally tagged enum, whose first token is `token`, and takes no more of the source.
/// It is an object in which each member with the tag's name is a string and the last one names the
/// variant, and the members of all other names are its data. The call reads the object twice.
/// Returns `Invalid` if the text, from `token` on, has no prefix that means such a value, and
/// `Memory` if an allocation fails. Returns `Invalid` if the token opens no object.
pub fn read_tagged<'a, E: DataEnum + HasTag, C: InsideCases<Values = E::Values>>(
    token: Event<'a>,
    source: &mut Source<'a>,
) -> Result<E>
    requires going { source.old.refused ≡ None }
    requires event { EventInRange (event_of_token token source.old.scratch) }
    ensures reads { Reads (tagged_content C.meaning E.tag E.names) (λ v. C.meaning.content (E.values v))
        (event_of_token token.entry source.old.scratch) source.old result source.new }
    ensures memory { result ≡ Err Error.Memory → event_of_token token.entry source.old.scratch ≡ step.map }
{
    let Event::MapStart = token else {
        return Err(Error::Invalid);
    };
    // The tag may be the last member, so a fork of the source reads it ahead of the data.
    let mut ahead = source.fork();
    let tag = read_record::<Tag<E>, TagFields<E>>(token, &mut ahead)?;
    let Some(name) = tag.name.name_among else {
        return Err(Error::Invalid);
    };
    let value = C::read_inside::<E>(E::names(), name, token, source)?;
    Ok(E::build(value))
}

/// Does nothing. It promises that internal tagging by the tag of `E` fits the variants `C`, if no
/// field has the name of the tag: the tree that is written for a variant with valid data gives back
/// its name and the tree of its data. `tagged_round_trips` and `tagged_lossless` ask for this.
pub fn tag_fits<E: HasTag, C: InsideCases>()
    requires { C.apart E.tag ≡ true }
    ensures { C.fits (internal E.tag) }
{
    C::fit()
}
