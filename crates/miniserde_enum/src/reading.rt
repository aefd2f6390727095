//! Reads externally tagged enums: the name of a variant alone, or an object of one member.
//! An `Event` is a token that begins a value, a `Step` an event of a value.
ghost use Rattle.std.specs.Prelude.{◌≡◌, None, Err, IfOk, map};
ghost use Rattle.miniserde_text.specs.Lexer.{event_of_token, text_of};
ghost use Rattle.miniserde_model.specs.Step as step;
ghost use Rattle.miniserde_model.specs.declared.error.Error.{Error};
ghost use Rattle.miniserde_read.specs.Calls.{Reads};
ghost use Rattle.miniserde_read.specs.Events.{EventInRange};
ghost use Rattle.miniserde_read.specs.Due.{ReadsDue, RejectsDue};
ghost use Rattle.miniserde_enum.specs.Cases.{with_data};
ghost use Rattle.miniserde_enum.specs.CasesMeaning.{enum_content};

use crate::cases::Cases;
use crate::tagged::DataEnum;
use miniserde_model::error::{Error, Result};
use miniserde_read::Source;
use miniserde_text::json::lex::{After, Event, Kind, Text};

// Reads the data of the variant with the name `name`, after that name and its colon; `names` has
// the names of the variants. Returns `Invalid` if no variant with data has the name, or if the text
// has no prefix that means its data; `Memory` if an allocation fails.
#[inline(always)]
fn read_due_case<'a, C: Cases>(
    names: &[&str],
    name: &str,
    source: &mut Source<'a>,
) -> Result<C::Values>
    requires { source.old.refused ≡ None }
    ensures going { IfOk result (λ _. source.new.refused ≡ None) }
    ensures ok { IfOk result (λ v.
        ReadsDue (with_data (C.meaning.content_by_name (map (λ n. n.now) names.now) name.now))
        source.old.rest source.new.rest (C.meaning.content v)) }
    ensures invalid { result ≡ Err Error.Invalid
        → RejectsDue (with_data (C.meaning.content_by_name (map (λ n. n.now) names.now) name.now)) source.old.rest }
{
    let token = source.token()?;
    C::read_case(names, name, token, source)
}

// Reads the data of the variant with the name `name`, which the source returned last, after that
// name and its colon; `names` has the names of the variants. Returns `Invalid` if no variant with
// data has the name, or if the text has no prefix that means its data; `Memory` if an allocation
// fails.
#[inline(always)]
fn read_named<'a, C: Cases>(
    names: &[&str],
    name: Text<'a>,
    source: &mut Source<'a>,
) -> Result<C::Values>
    requires { source.old.refused ≡ None }
    ensures going { IfOk result (λ _. source.new.refused ≡ None) }
    ensures ok { IfOk result (λ v.
        ReadsDue (with_data (C.meaning.content_by_name (map (λ n. n.now) names.now) (text_of name.entry source.old.scratch)))
        source.old.rest source.new.rest (C.meaning.content v)) }
    ensures invalid { result ≡ Err Error.Invalid
        → RejectsDue (with_data (C.meaning.content_by_name (map (λ n. n.now) names.now) (text_of name.entry source.old.scratch)))
        source.old.rest }
{
    // The data may replace the scratch text.
    let name = source.take_text(name);
    read_due_case::<C>(names, name.as_str(), source)
}

/// Reads an externally tagged enum, whose first token is `token`, and takes no more of the source. A variant without
/// data is its name as a string; one with data is an object of one member, whose name is the variant's. Returns
/// `Invalid` if the text, from `token` on, has no prefix that means such a value, and `Memory` if an allocation
/// fails. If the token opens no object, returns the variant without data of that name, or `Invalid`.
pub fn read_enum<'a, E: DataEnum, C: Cases<Values = E::Values>>(
    token: Event<'a>,
    source: &mut Source<'a>,
) -> Result<E>
    requires going { source.old.refused ≡ None }
    requires event { EventInRange (event_of_token token source.old.scratch) }
    ensures reads { Reads (enum_content C.meaning E.names) (λ v. C.meaning.content (E.values v))
        (event_of_token token.entry source.old.scratch) source.old result source.new }
    ensures memory { result ≡ Err Error.Memory → event_of_token token.entry source.old.scratch ≡ step.map }
{
    match token {
        Event::Str(text) => match C::unit_variant(E::names(), source.text(text)) {
            Some(value) => Ok(E::build(value)),
            None => Err(Error::Invalid),
        },
        Event::MapStart => {
            let Some(name) = source.member(true)? else {
                return Err(Error::Invalid);
            };
            let value = read_named::<C>(E::names(), name, source)?;
            let built = E::build(value);
            match source.after(Kind::Map, false)? {
                After::Close => Ok(built),
                After::Next => Err(Error::Invalid),
            }
        }
        _ => Err(Error::Invalid),
    }
}
