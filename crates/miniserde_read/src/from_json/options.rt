//! Reads `Option`: `null` is `None`, and any other value is `Some`.
ghost use Rattle.std.specs.Prelude.{Some, None};
ghost use Rattle.miniserde_read.specs.Meanings.{option_meaning};

use super::FromJson;
use crate::source::Source;
use miniserde_model::error::Result;
use miniserde_text::json::lex::Event;

impl<T: FromJson> FromJson for Option<T> {
    ghost means = { option_meaning T.means };

    ghost absent = { Some None };

    ghost read_infallible = { T.read_infallible };

    ghost lacking = { T.lacking };

    // A missing field has the value `None`.
    fn missing() -> Option<Option<T>> {
        Some(None)
    }

    #[inline(always)]
    fn read<'a>(token: Event<'a>, source: &mut Source<'a>) -> Result<Option<T>> {
        match token {
            Event::Null => Ok(None),
            token => Ok(Some(T::read(token, source)?)),
        }
    }
}
