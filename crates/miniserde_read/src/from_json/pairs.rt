//! Reads pairs, from lists of exactly two elements.
ghost use Rattle.miniserde_read.specs.Lacking.{PairLacks};
ghost use Rattle.miniserde_read.specs.Meanings.{pair_meaning};

use super::FromJson;
use crate::items::{Item, NoItem, read_tuple};
use crate::source::Source;
use miniserde_model::error::Result;
use miniserde_text::json::lex::Event;

impl<A: FromJson, B: FromJson> FromJson for (A, B) {
    ghost means = { pair_meaning A.means B.means (λ v. v.0) (λ v. v.1) };

    ghost lacking = { PairLacks A.read_infallible B.read_infallible };

    fn missing() -> Option<(A, B)> {
        None
    }

    fn read<'a>(token: Event<'a>, source: &mut Source<'a>) -> Result<(A, B)> {
        let (first, (second, ())) = read_tuple::<Item<A, Item<B, NoItem>>>(token, source)?;
        Ok((first, second))
    }
}
