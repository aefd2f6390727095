//! Reads `Vec` and `VecDeque`, from lists.
ghost use Rattle.miniserde_read.specs.Meanings.{list_meaning};

use super::FromJson;
use crate::children::read_due;
use crate::source::Source;
use miniserde_model::error::{Error, Result};
use miniserde_text::json::lex::{After, Event, Kind};
use std::collections::VecDeque;

impl<T: FromJson> FromJson for Vec<T> {
    ghost means = { list_meaning T.means (λ v. v.items) };

    fn missing() -> Option<Vec<T>> {
        None
    }

    fn read<'a>(token: Event<'a>, source: &mut Source<'a>) -> Result<Vec<T>> {
        let Event::SeqStart = token else {
            return Err(Error::Invalid);
        };
        let mut items = Vec::new(source.alloc());
        let mut next = source.after(Kind::Seq, true)?;
        while let After::Next = next {
            items.push(read_due(source)?)?;
            next = source.after(Kind::Seq, false)?;
        }
        Ok(items)
    }
}

impl<T: FromJson> FromJson for VecDeque<T> {
    ghost means = { list_meaning T.means (λ q. q.items) };

    fn missing() -> Option<VecDeque<T>> {
        None
    }

    fn read<'a>(token: Event<'a>, source: &mut Source<'a>) -> Result<VecDeque<T>> {
        let items = <Vec<T> as FromJson>::read(token, source)?;
        Ok(VecDeque::from(items))
    }
}
