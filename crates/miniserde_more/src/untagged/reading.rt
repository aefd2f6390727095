//! Reads untagged enums.
//! An `Event` is a token that begins a value, a `Step` an event of a value.
ghost use Rattle.std.specs.Prelude.{◌≡◌, true, None};
ghost use Rattle.miniserde_text.specs.Lexer.{event_of_token};
ghost use Rattle.miniserde_read.specs.Calls.{Reads};
ghost use Rattle.miniserde_read.specs.Events.{EventInRange};

use crate::untagged::cases::UntaggedCases;
use crate::untagged::enums::UntaggedEnum;
use miniserde_model::error::Result;
use miniserde_read::Source;
use miniserde_text::json::lex::Event;

/// Reads an untagged enum, whose first token is `token`, and takes no more of the source. The token's kind chooses the
/// variant, so no two variants may have a kind in common. Returns `Invalid` if the text, from `token` on, has no prefix
/// that means such a value, and `Memory` if an allocation fails.
pub fn read_untagged<'a, E: UntaggedEnum, C: UntaggedCases<Values = E::Values>>(
    token: Event<'a>,
    source: &mut Source<'a>,
) -> Result<E>
    requires going { source.old.refused ≡ None }
    requires event { EventInRange (event_of_token token source.old.scratch) }
    requires disjoint { C.disjoint ≡ true }
    ensures { Reads C.meaning.from_tree (λ v. C.meaning.content (E.values v))
        (event_of_token token.entry source.old.scratch) source.old result source.new }
{
    let value = C::read_case(token, source)?;
    Ok(E::build(value))
}
