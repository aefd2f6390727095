//! Reads the variants of an enum by their names.
ghost use Rattle.std.specs.Prelude.{◌≡◌, None, map, option_map};
ghost use Rattle.miniserde_text.specs.Lexer.{event_of_token};
ghost use Rattle.miniserde_read.specs.Calls.{Reads};
ghost use Rattle.miniserde_read.specs.Events.{EventInRange};
ghost use Rattle.miniserde_enum.specs.Cases.{with_data};
ghost use Rattle.miniserde_enum.specs.CasesMeaning.{CasesMeaning, no_cases, unit_and, data_and};

use crate::one_of::{Never, OneOf};
use miniserde_model::error::{Error, Result};
use miniserde_read::{FromJson, Source};
use miniserde_text::json::lex::Event;
use std::marker::PhantomData;

/// A chain of the variants of an enum. The variants' names are a list in their order; a variant beyond the last name
/// has none.
pub trait Cases {
    /// The value of one of the variants.
    type Values;

    // Which trees mean which values of the variants.
    ghost meaning: { CasesMeaning Self.Values };

    /// Returns the variant without data whose name is `name`, or `None` if there is none. `names` has the names of the
    /// variants.
    fn unit_variant(names: &[&str], name: &str) -> Option<Self::Values>
        ensures { option_map meaning.content result ≡ meaning.content_by_name (map (λ n. n.now) names.now) name.now None };

    /// Reads the data of the variant with the name `name`, and takes no more of the source. `token` is the first token
    /// of the data, and must be the one that was taken last. `names` has the names of the variants. Returns `Invalid`
    /// if no variant with data has the name, or if the text, from `token` on, has no prefix that means its data;
    /// `Memory` if an allocation fails.
    fn read_case<'a>(
        names: &[&str],
        name: &str,
        token: Event<'a>,
        source: &mut Source<'a>,
    ) -> Result<Self::Values>
        requires going { source.old.refused ≡ None }
        requires event { EventInRange (event_of_token token source.old.scratch) }
        ensures { Reads (with_data (meaning.content_by_name (map (λ n. n.now) names.now) name.now)) meaning.content
            (event_of_token token.entry source.old.scratch) source.old result source.new };
}

/// The end of a chain of variants.
pub struct NoCase {}

impl Cases for NoCase {
    type Values = Never;

    ghost meaning = { no_cases };

    fn unit_variant(_names: &[&str], _name: &str) -> Option<Never> {
        None
    }

    fn read_case<'a>(
        _names: &[&str],
        _name: &str,
        _token: Event<'a>,
        _source: &mut Source<'a>,
    ) -> Result<Never> {
        Err(Error::Invalid)
    }
}

/// A variant without data, and the variants after it.
pub struct UnitCase<R> {
    rest: PhantomData<R>,
}

impl<R: Cases> Cases for UnitCase<R> {
    type Values = OneOf<(), R::Values>;

    ghost meaning = { unit_and R.meaning };

    fn unit_variant(names: &[&str], name: &str) -> Option<OneOf<(), R::Values>> {
        match names.split_first() {
            Some((first, more)) => {
                if name == *first {
                    Some(OneOf::First(()))
                } else {
                    match R::unit_variant(more, name) {
                        Some(value) => Some(OneOf::Later(value)),
                        None => None,
                    }
                }
            }
            None => None,
        }
    }

    fn read_case<'a>(
        names: &[&str],
        name: &str,
        token: Event<'a>,
        source: &mut Source<'a>,
    ) -> Result<OneOf<(), R::Values>> {
        match names.split_first() {
            Some((first, more)) => {
                if name == *first {
                    Err(Error::Invalid)
                } else {
                    Ok(OneOf::Later(R::read_case(more, name, token, source)?))
                }
            }
            None => Err(Error::Invalid),
        }
    }
}

/// A variant with data, and the variants after it.
pub struct DataCase<T, R> {
    value: PhantomData<T>,
    rest: PhantomData<R>,
}

impl<T: FromJson, R: Cases> Cases for DataCase<T, R> {
    type Values = OneOf<T, R::Values>;

    ghost meaning = { data_and T.means R.meaning };

    fn unit_variant(names: &[&str], name: &str) -> Option<OneOf<T, R::Values>> {
        match names.split_first() {
            Some((first, more)) => {
                if name == *first {
                    None
                } else {
                    match R::unit_variant(more, name) {
                        Some(value) => Some(OneOf::Later(value)),
                        None => None,
                    }
                }
            }
            None => None,
        }
    }

    fn read_case<'a>(
        names: &[&str],
        name: &str,
        token: Event<'a>,
        source: &mut Source<'a>,
    ) -> Result<OneOf<T, R::Values>> {
        match names.split_first() {
            Some((first, more)) => {
                if name == *first {
                    Ok(OneOf::First(T::read(token, source)?))
                } else {
                    Ok(OneOf::Later(R::read_case(more, name, token, source)?))
                }
            }
            None => Err(Error::Invalid),
        }
    }
}
