//! Reads the values in a list or an object, one at a time.
ghost use Rattle.std.specs.Prelude.{◌≡◌, true, Some, None, Ok, Err, IfOk};
ghost use Rattle.miniserde_text.specs.Lexer.{BeginsEscaped};
ghost use Rattle.miniserde_model.specs.declared.error.Error.{Error};
ghost use Rattle.miniserde_read.specs.Due.{ReadsDue, RejectsDue, NextElement, ElementRejects};
ghost use Rattle.miniserde_read.specs.Lacking.{EscapedElement};

use crate::from_json::FromJson;
use crate::source::Source;
use miniserde_model::error::{Error, Result};
use miniserde_text::json::lex::{After, Kind};

/// Reads the value that is due, with its first token: that of a member after its name and colon, an element after its
/// comma, or a whole text's value. Returns `Invalid` if the text has no prefix that means a value of the type, and
/// `Memory` if an allocation fails.
#[inline(always)]
pub fn read_due<'a, T: FromJson>(source: &mut Source<'a>) -> Result<T>
    requires { source.old.refused ≡ None }
    ensures going { IfOk result (λ _. source.new.refused ≡ None) }
    ensures ok { IfOk result (λ v.
        ReadsDue T.means.from_tree source.old.rest source.new.rest (T.means.content v)) }
    ensures invalid { result ≡ Err Error.Invalid → RejectsDue T.means.from_tree source.old.rest }
    ensures memory { result ≡ Err Error.Memory → T.read_infallible ≡ true → BeginsEscaped source.old.rest }
{
    let token = source.token()?;
    T::read(token, source)
}

/// Reads the next element of a list, or takes the closing bracket and returns `None`. `first` says that the opening
/// bracket was just taken. Returns `Invalid` only if the text begins with no rest of a list, or with one whose first
/// element means no value of the type, and `Memory` if an allocation fails.
#[inline(always)]
pub fn next_element<'a, T: FromJson>(source: &mut Source<'a>, first: bool) -> Result<Option<T>>
    requires { source.old.refused ≡ None }
    ensures going { IfOk result (λ _. source.new.refused ≡ None) }
    ensures ok { IfOk result (λ next. NextElement T.means first source.old.rest source.new.rest next) }
    ensures invalid { result ≡ Err Error.Invalid → ElementRejects T.means.from_tree first source.old.rest }
    ensures memory { result ≡ Err Error.Memory → T.read_infallible ≡ true → EscapedElement first source.old.rest }
{
    match source.after(Kind::Seq, first)? {
        After::Close => Ok(None),
        After::Next => Ok(Some(read_due(source)?)),
    }
}
