//! Reads tuples of any length, as chains of items.
ghost use Rattle.std.specs.Prelude.{◌≡◌, Bool, List, [], ◌∷◌, None, Ok, Err, IfOk};
ghost use Rattle.miniserde_text.specs.Lexer.{event_of_token};
ghost use Rattle.miniserde_model.specs.declared.error.Error.{Error};
ghost use Rattle.miniserde_read.specs.Calls.{Reads};
ghost use Rattle.miniserde_read.specs.Events.{EventInRange};
ghost use Rattle.miniserde_read.specs.Items.{ItemsMeaning, no_items, item_and, ItemsGiveAt, ItemsGiveNoneAt};
ghost use Rattle.miniserde_read.specs.Lacking.{ItemsLack, TupleLacks};
ghost use Rattle.miniserde_read.specs.types.Tuples.{tuple_of};

use crate::children::next_element;
use crate::from_json::FromJson;
use crate::source::Source;
use miniserde_model::error::{Error, Result};
use miniserde_text::json::lex::{After, Event, Kind};

/// A chain of the items of a tuple: an `Item` for each, and `NoItem` at the end.
pub trait Items {
    /// The values of the items, as nested pairs.
    type Values: Drop;

    // Which elements of a list mean which values.
    ghost meaning: { ItemsMeaning Self.Values };

    // The `read_infallible` of each item: if it is true, `read` of the item never returns `Memory`.
    ghost infallible: { List Bool };

    /// Reads the rest of a list: one element for each item of the chain, and the closing bracket.
    /// `first` says that the opening bracket was just taken. Returns `Invalid` if no prefix of the
    /// text is such a rest with elements that mean the items, and `Memory` if an allocation fails.
    fn read_items<'a>(source: &mut Source<'a>, first: bool) -> Result<Self::Values>
        requires { source.old.refused ≡ None }
        ensures going { IfOk result (λ _. source.new.refused ≡ None) }
        ensures ok { IfOk result (λ v. ItemsGiveAt meaning.from_trees first source.old.rest source.new.rest
            (meaning.content v)) }
        ensures invalid { result ≡ Err Error.Invalid → ItemsGiveNoneAt meaning.from_trees first source.old.rest }
        ensures memory { result ≡ Err Error.Memory → ItemsLack infallible first source.old.rest };
}

/// The end of a chain of items.
#[derive(Drop)]
pub struct NoItem {}

impl Items for NoItem {
    type Values = ();

    ghost meaning = { no_items };

    ghost infallible = { [] };

    #[inline(always)]
    fn read_items<'a>(source: &mut Source<'a>, first: bool) -> Result<()> {
        match source.after(Kind::Seq, first)? {
            After::Close => Ok(()),
            After::Next => Err(Error::Invalid),
        }
    }
}

/// An item of the type `T`, and the items after it.
#[derive(Drop)]
pub struct Item<T, R> {
    pub item: T,
    pub rest: R,
}

impl<T: FromJson, R: Items> Items for Item<T, R> {
    type Values = (T, R::Values);

    ghost meaning = { item_and T.means R.meaning };

    ghost infallible = { T.read_infallible ∷ R.infallible };

    #[inline(always)]
    fn read_items<'a>(source: &mut Source<'a>, first: bool) -> Result<(T, R::Values)> {
        let Some(item) = next_element(source, first)? else {
            return Err(Error::Invalid);
        };
        let rest = R::read_items(source, false)?;
        Ok((item, rest))
    }
}

/// Reads a list of one element for each item of the chain `I`, whose first token is `token`, and takes no more of the
/// source. `token` must be the one that was taken last. Returns `Invalid` if the text, from that token on, has no
/// prefix that is a list whose elements mean the items, and `Memory` if an allocation fails.
#[inline(always)]
pub fn read_tuple<'a, I: Items>(token: Event<'a>, source: &mut Source<'a>) -> Result<I::Values>
    requires going { source.old.refused ≡ None }
    requires event { EventInRange (event_of_token token source.old.scratch) }
    ensures reads { Reads (tuple_of I.meaning.from_trees) I.meaning.content
        (event_of_token token.entry source.old.scratch) source.old result source.new }
    ensures memory { result ≡ Err Error.Memory
        → TupleLacks I.infallible (event_of_token token.entry source.old.scratch) source.old source.new }
{
    let Event::SeqStart = token else {
        return Err(Error::Invalid);
    };
    I::read_items(source, true)
}
