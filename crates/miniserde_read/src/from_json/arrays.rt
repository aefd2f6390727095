//! Reads arrays of a fixed length, from lists of exactly that many elements.
ghost use Rattle.miniserde_read.specs.Lacking.{ArrayLacks};
ghost use Rattle.miniserde_read.specs.Meanings.{array_meaning};

use super::FromJson;
use crate::children::next_element;
use crate::items::{Items, NoItem};
use crate::source::Source;
use miniserde_model::error::{Error, Result};
use miniserde_text::json::lex::Event;

impl<T: FromJson, const N: usize> FromJson for [T; N] {
    ghost means = { array_meaning N T.means (λ v. v) };

    ghost lacking = { ArrayLacks N T.read_infallible };

    fn missing() -> Option<[T; N]> {
        None
    }

    // Returns `Invalid` before it reads an element that is one too many.
    fn read<'a>(token: Event<'a>, source: &mut Source<'a>) -> Result<[T; N]> {
        let Event::SeqStart = token else {
            return Err(Error::Invalid);
        };
        let mut items = Vec::new(source.alloc());
        let mut first = true;
        while items.len() < N {
            let Some(item) = next_element(source, first)? else {
                return Err(Error::Invalid);
            };
            items.push(item)?;
            first = false;
        }
        NoItem::read_items(source, first)?;
        <[T; N]>::try_from(items).ok().ok_or(Error::Invalid)
    }
}
