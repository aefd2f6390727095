//! Reads `Box`, which is read as its value is.
ghost use Rattle.miniserde_read.specs.Meanings.{box_meaning};

use super::FromJson;
use crate::source::Source;
use miniserde_model::error::Result;
use miniserde_text::json::lex::Event;

impl<T: FromJson> FromJson for Box<T> {
    ghost means = { box_meaning T.means (λ b. b.value) };

    // A missing field is an error, even if the box is one of an `Option`.
    fn missing() -> Option<Box<T>> {
        None
    }

    fn read<'a>(token: Event<'a>, source: &mut Source<'a>) -> Result<Box<T>> {
        Ok(Box::new(source.alloc(), T::read(token, source)?)?)
    }
}
